ghost use Rattle.std.specs.Prelude.{◌≡◌, ◌≤◌, ◌<◌, length, take, drop, filter, IfOk};
ghost use Rattle.client_peer.specs.Pieces.{is_solid, part, after_part};

use owned_lists::{NoMemory, Octets, OctetsList};
use std::alloc::Global;
use std::collections::VecDeque;
use std::marker::Model;

/// A stream that comes in pieces.
#[derive(Debug, Drop)]
pub struct Pieces {
    pieces: VecDeque<Octets>,
    /// How many bytes of the first piece were given.
    given: usize,
}

impl Model for Pieces {
    ghost use Rattle.std.specs.Prelude.{List, ℕ};
    ghost use Rattle.client_peer.specs.Pieces.{left_of, IsLeft};

    ghost Value = { List (List ℕ) };

    ghost view = { λ p. left_of p.given p.pieces.items };

    ghost invariant = { λ p. IsLeft p.given p.pieces.items };
}

impl Pieces {
    /// These pieces, without those that are empty.
    pub fn new(pieces: OctetsList) -> Pieces
        ensures { result ≡ filter is_solid pieces }
    {
        let mut pieces = pieces.into_vec();
        pieces.retain(|piece| piece.len() != 0);
        Pieces {
            pieces: VecDeque::from(pieces),
            given: 0,
        }
    }

    /// A copy of what is given next, where there is so much room.
    pub fn upcoming(&self, alloc: Global, room: usize) -> Result<Octets, NoMemory>
        ensures { IfOk result (λ bytes. bytes ≡ part room self.now) }
    {
        match self.pieces.front() {
            Some(piece) => {
                let left = &piece.as_slice()[self.given..];
                let count = left.len().min(room);
                Octets::from_slice(alloc, &left[..count])
            }
            None => Ok(Octets::new(alloc)),
        }
    }

    /// Goes on behind what is given where there is so much room.
    pub fn advance(&mut self, room: usize)
        requires { 0 < room }
        ensures { self.new ≡ after_part room self.old }
    {
        let Some(piece) = self.pieces.front() else {
            return;
        };
        if piece.len() - self.given <= room {
            self.pieces.pop_front();
            self.given = 0;
        } else {
            self.given += room;
        }
    }

    /// Copies what is given next to the front of a buffer, and says how many bytes that is.
    fn copy_next(&self, into: &mut [u8]) -> usize
        ensures count { result ≡ length (part (length into.old) self.now) }
        ensures bytes { take result into.new ≡ part (length into.old) self.now }
        ensures rest { drop result into.new ≡ drop result into.old }
        ensures within { result ≤ length into.old }
    {
        let Some(piece) = self.pieces.front() else {
            return 0;
        };
        let left = &piece.as_slice()[self.given..];
        let count = left.len().min(into.len());
        into[..count].copy_from_slice(&left[..count]);
        count
    }

    /// Gives as much of the first piece as there is room for, and says how many bytes that is. None
    /// are given at the stream's end alone.
    pub fn give(&mut self, into: &mut [u8]) -> usize
        requires { 0 < length into.old }
        ensures bytes { take result into.new ≡ part (length into.old) self.old }
        ensures rest { drop result into.new ≡ drop result into.old }
        ensures within { result ≤ length into.old }
        ensures left { self.new ≡ after_part (length into.old) self.old }
    {
        let count = self.copy_next(into);
        self.advance(into.len());
        count
    }
}
