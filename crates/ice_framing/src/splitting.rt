ghost use Rattle.std.specs.Prelude.{◌≡◌, ℕ, ◌+◌, ◌-◌, ◌<◌, ◌≤◌, false, true, min, ◌++◌, ◌∷◌, [], List, length, take, drop, vec_len, vec_capacity, IfOk, OnOk, OnErr, IfErr, IfNone, IfSome, OnSome, MatchOption, Some};
ghost use Rattle.ice_framing.specs.Frames.{Standing, beginning, fed, units_in, units, wanted, endian_in, endian, IsPartial, IsOversize, IsLater, has_frame, header_of, without_first, behind, cut, unit_limit, byte_limit};

use ice_values::{Endian, read_card32};
use owned_lists::NoMemory;
use std::alloc::Global;
use std::marker::Model;

/// How many units of 8 bytes a header may state behind itself. The standard sets no limit; this one is
/// the session manager's own.
pub const UNIT_LIMIT: u32 = 8_192;

/// How many bytes a frame has at most: its header and 8,192 units.
pub const FRAME_LIMIT: usize = 65_544;

pub(crate) const HEADER_LEN: usize = 8;

/// A frame that a splitter lends (ICE, chapter 3, Message Format).
#[derive(Clone, Copy, Debug, PartialEq, Eq)]
pub struct Frame<'a> {
    /// The order of the frame's numbers. Byte 2 of a stream's first frame gives it for all (ICE,
    /// chapter 5, ByteOrder): 1 for the most significant byte first, any other for the least.
    pub endian: Endian,
    /// The 8 bytes of the header, and the units that it states; of a stream's first frame the header
    /// alone.
    pub bytes: &'a [u8],
}

/// The header of a frame after the first states more than 8,192 units.
#[derive(Clone, Copy, Debug, PartialEq, Eq)]
pub struct Oversize {
    pub units: u32,
}

/// Takes the stream of one party in pieces, and lends its frames one by one.
///
/// After each `feed` look for the next frame. Take it before the next `feed`, which goes on with what
/// was left of the piece.
#[derive(Debug, Drop)]
pub struct Splitter {
    order: Option<Endian>,
    held: Vec<u8>,
}

impl Model for Splitter {
    ghost use Rattle.std.specs.Prelude.{◌≤◌, length, vec_capacity};
    ghost use Rattle.ice_framing.specs.Frames.{Standing, IsHeld};

    ghost Value = { Standing };

    ghost view = { λ splitter. record { order = splitter.order; held = splitter.held.items } };

    ghost invariant = { λ splitter.
        IsHeld splitter.order splitter.held.items (vec_capacity splitter.held) };
}

/// The order of the next frame: the one that is known, or what byte 2 of a stream's first frame says.
pub(crate) fn endian_of(order: Option<Endian>, held: &[u8]) -> Endian
    requires { 8 ≤ length held.now }
    ensures { result ≡ endian_in order held.now }
{
    match order {
        Some(endian) => endian,
        None => {
            if held[2] == 1 {
                Endian::Msb
            } else {
                Endian::Lsb
            }
        }
    }
}

/// The units that the next frame's header states, as soon as it is whole; none in a stream's first.
pub(crate) fn units_of(order: Option<Endian>, held: &[u8]) -> u32
    ensures { result ≡ units_in order held.now }
{
    let Some(endian) = order else {
        return 0;
    };
    if held.len() < HEADER_LEN {
        return 0;
    }
    let (_, length) = held.split_at(4);
    read_card32(endian, length)
}

/// How many bytes the frame at the front has; None where none is whole or its header states too much.
pub(crate) fn whole_len(order: Option<Endian>, bytes: &[u8]) -> Option<usize>
    ensures { MatchOption result (has_frame (record { order = order; held = bytes.now }) ≡ false)
        (λ len. (len ≡ wanted (record { order = order; held = bytes.now })) × (has_frame (record { order = order; held = bytes.now }) ≡ true)) }
{
    let units = units_of(order, bytes);
    if units > UNIT_LIMIT {
        return None;
    }
    let len = HEADER_LEN + 8 * units as usize;
    if len <= bytes.len() { Some(len) } else { None }
}

/// Takes bytes of the piece until so many are held, for which there is room, and says how many.
fn fill(held: &mut Vec<u8>, piece: &[u8], target: usize) -> usize
    requires { target ≤ vec_capacity held.old }
    ensures count { result ≡ min (length piece.now) (target - length held.old.items) }
    ensures items { held.new.items ≡ held.old.items ++ take result piece.now }
    ensures len { vec_len held.new ≡ vec_len held.old + result }
    ensures capacity { vec_capacity held.old ≤ vec_capacity held.new }
{
    let count = piece.len().min(target.saturating_sub(held.len()));
    let (front, _) = piece.split_at(count);
    let _ = held.extend_from_slice(front);
    count
}

/// Room for the largest frame, and for no more.
fn reserve(alloc: Global) -> Result<Vec<u8>, NoMemory>
    ensures empty { IfOk result (λ held. held.items ≡ []) }
    ensures room { IfOk result (λ held. vec_capacity held ≡ 65544) }
{
    Ok(Vec::with_capacity(alloc, FRAME_LIMIT)?)
}

impl Splitter {
    /// A splitter before a stream's first byte. It reserves the 65,544 bytes of the largest frame; no
    /// later call takes memory.
    pub fn new(alloc: Global) -> Result<Splitter, NoMemory>
        ensures { IfOk result (λ splitter. splitter ≡ beginning) }
    {
        Ok(Splitter {
            order: None,
            held: reserve(alloc)?,
        })
    }

    /// How many bytes are held.
    pub fn held(&self) -> usize
        ensures count { result ≡ length self.now.held }
        ensures bound { result ≤ byte_limit }
    {
        self.held.len()
    }

    /// How many bytes there is room for without taking memory.
    pub fn capacity(&self) -> usize
        ensures { byte_limit ≤ result }
    {
        self.held.capacity()
    }

    /// Takes bytes of the piece until a whole frame is held or the piece ends, and says how many.
    ///
    /// Oversize comes as soon as the header of a frame after the first is whole and states more than
    /// 8,192 units; nothing may be fed after it.
    pub fn feed(&mut self, piece: &[u8]) -> Result<usize, Oversize>
        requires no_frame { IsPartial self.old }
        requires not_oversize { units self.old ≤ unit_limit }
        // The bytes that were taken are held behind those that were.
        ensures taken { IfOk result (λ n. self.new ≡ fed self.old (take n piece.now)) }
        // Bytes are left only behind a whole frame.
        ensures all { IfOk result (λ n. (n ≤ length piece.now)
            × (IsPartial self.new → n ≡ length piece.now)) }
        ensures some { IfOk result (λ n. 0 < length piece.now → 0 < n) }
        // No more than the next frame is held.
        ensures no_more { length self.new.held ≤ wanted self.new }
        // What is held and what is left of the piece have the frames of what was held and the piece.
        ensures frames { IfOk result (λ n. cut (fed self.new (drop n piece.now))
            ≡ cut (fed self.old piece.now)) }

        // It succeeds exactly where the header states no more than it may, as far as it has come.
        ensures within { OnOk result ((units self.new ≤ unit_limit)
            × (units (fed self.old piece.now) ≤ unit_limit)) }
        ensures oversize { IfErr result (λ error. IsOversize (fed self.old piece.now)
            × (error.units ≡ units (fed self.old piece.now))) }
        // That header is then held.
        ensures header { OnErr result (self.new ≡ header_of (fed self.old piece.now)) }
    {
        let head = fill(&mut self.held, piece, HEADER_LEN);
        let units = units_of(self.order, &self.held);
        if units > UNIT_LIMIT {
            return Err(Oversize { units });
        }
        let (_, rest) = piece.split_at(head);
        Ok(head + fill(&mut self.held, rest, HEADER_LEN + 8 * units as usize))
    }

    /// The first frame of the rest of a piece, lent from the piece: neither memory nor a copy is taken,
    /// and the splitter stays as it is. So the next frame of a long piece needn't be fed.
    ///
    /// It comes only where nothing is held, the order is known, and the frame is whole and within the
    /// limit. Feed the rest where None comes.
    pub fn front<'a>(&self, rest: &'a [u8]) -> Option<Frame<'a>>
        // What is cut behind it is cut from what it leaves of the rest.
        ensures first { IfSome result (λ frame. cut (fed self.now rest.now)
            ≡ behind (record { endian = frame.endian; bytes = frame.bytes.now } ∷ []) (cut (fed self.now (drop (length frame.bytes.now) rest.now)))) }
        ensures later { IfSome result (λ frame. IsLater frame.endian (record { endian = frame.endian; bytes = frame.bytes.now })) }
        ensures order { IfSome result (λ frame. self.now.order ≡ Some frame.endian) }
        ensures within { IfSome result (λ frame. length frame.bytes.now ≤ length rest.now) }
    {
        let endian = self.order?;
        if !self.held.is_empty() {
            return None;
        }
        let len = whole_len(self.order, rest)?;
        let (bytes, _) = rest.split_at(len);
        Some(Frame { endian, bytes })
    }

    /// Lends the frame that is held, if a whole one is.
    pub fn next_frame(&self) -> Option<Frame<'_>>
        ensures none { IfNone result (IsPartial self.now) }
        ensures some { OnSome result ((length self.now.held ≡ wanted self.now)
            × (length self.now.held ≤ byte_limit)) }
        ensures frame { IfSome result (λ frame. (frame.endian ≡ endian self.now)
            × (frame.bytes.now ≡ self.now.held)) }
        // It is the first of the frames of whatever stream goes on from here.
        ensures first { IfSome result (λ frame. (more : List ℕ) → cut (fed self.now more)
            ≡ behind (record { endian = frame.endian; bytes = frame.bytes.now } ∷ []) (cut (fed (without_first self.now) more))) }
    {
        if self.held.len() != HEADER_LEN + 8 * units_of(self.order, &self.held) as usize {
            return None;
        }
        Some(Frame {
            endian: endian_of(self.order, &self.held),
            bytes: self.held.as_slice(),
        })
    }

    /// Drops the frame that is held; its bytes aren't moved.
    pub fn take_frame(&mut self)
        requires { length self.old.held ≡ wanted self.old }
        ensures { self.new ≡ without_first self.old }
    {
        self.order = Some(endian_of(self.order, &self.held));
        self.held.clear();
    }

    /// Drops all that is held, whatever it is.
    pub fn forget(&mut self)
        ensures { self.new ≡ record { order = self.old.order; held = [] } }
    {
        self.held.truncate(0);
    }

    /// The header of the frame that comes next, as soon as it is whole.
    pub fn header(&self) -> Option<[u8; 8]>
        ensures none { IfNone result (length self.now.held < 8) }
        ensures some { IfSome result (λ header. (8 ≤ length self.now.held)
            × (header ≡ take 8 self.now.held)) }
    {
        self.held.as_slice().first_chunk().copied()
    }
}
