ghost use Rattle.std.specs.Prelude.{◌≡◌, ◌≤◌, ◌↔◌, ◌⊎◌, ℕ, true, false, [], ◌∷◌, ◌++◌, length, take, drop, filter, Some, Contains, IsErr, option_copied, IfOk, OnOk, OnErr};
ghost use Rattle.sm_world.specs.Outside.{Rose};
ghost use Rattle.sm_world.specs.Calls.{counted, one_more};
ghost use Rattle.client_peer.specs.Peers.{received, file_at};
ghost use Rattle.client_peer.specs.Pieces.{is_solid, part, after_part};

use crate::Peer;
use crate::peer::FILE_LIMIT;
use crate::pieces::Pieces;
use owned_lists::{Duplicate, ListOf, NoMemory, NumberList, Octets, OctetsList, PairList};
use sm_world::{Calls, Console, Effect, Event, Failed, Failure, Faults, Told};
use std::alloc::Global;

/// A peer in memory whose calls are numbered from 1, and fail where they are told to. It tells all
/// that it does. Its console has an empty input.
#[derive(Debug, Drop)]
pub struct MemPeer {
    alloc: Global,
    effects: ListOf<Effect>,
    /// What is still to be received.
    pieces: Pieces,
    /// The paths and bytes of the files that can be fetched.
    files: PairList,
    calls: Calls,
    faults: Faults,
}

/// What a receive hears: its bytes, or where there are none the end of the stream.
fn heard(bytes: Octets) -> Event
    ensures { result ≡ received bytes }
{
    if bytes.len() == 0 {
        return Event::Gone(0);
    }
    Event::Piece(0, bytes)
}

impl MemPeer {
    ghost use Rattle.client_peer.specs.Memory.{fits, peer_outside, peer_pieces, peer_calls};

    /// A peer that gives these pieces and then its stream's end, that has these files, and whose
    /// calls with the numbers in `failing` fail. Empty pieces are skipped. Of several files with one
    /// path the first is fetched.
    pub fn new(
        alloc: Global,
        pieces: OctetsList,
        files: PairList,
        failing: NumberList,
    ) -> Result<MemPeer, NoMemory>
        ensures told { IfOk result (λ peer. (peer_outside peer).told ≡ Some []) }
        ensures faults { IfOk result (λ peer. (peer_outside peer).faults
            ≡ record { disk = 0; links = 0; spawner = 0; console = 0 }) }
        ensures files { IfOk result (λ peer. (peer_outside peer).files ≡ Some files) }
        ensures pieces { IfOk result (λ peer. peer_pieces peer ≡ filter is_solid pieces) }
        ensures last { IfOk result (λ peer. (peer_calls peer).last ≡ 0) }
        ensures failing { IfOk result (λ peer. (number : ℕ) →
            Contains (peer_calls peer).failing number ↔ Contains failing number) }
    {
        Ok(MemPeer {
            alloc,
            effects: ListOf::new(alloc),
            pieces: Pieces::new(pieces),
            files,
            calls: Calls::new(failing),
            faults: Faults {
                disk: 0,
                links: 0,
                spawner: 0,
                console: 0,
            },
        })
    }

    /// The effects so far.
    pub fn effects(&self) -> &[Effect]
        ensures { Some result.now ≡ (peer_outside self.now).told }
    {
        self.effects.as_slice()
    }

    /// A copy of these bytes for an effect.
    fn octets(&self, bytes: &[u8]) -> Result<Octets, NoMemory>
        ensures { IfOk result (λ octets. octets ≡ bytes.now) }
    {
        Octets::from_slice(self.alloc, bytes)
    }

    /// Counts a call of Peer, and refuses it where its number fails.
    #[tactic(auto, using(sm_world::proofs::Counting::rises))]
    fn call_links(&mut self) -> Result<(), Failed>
        ensures fails { IsErr result ↔ Contains self.new.calls.failing self.new.calls.last }
        ensures ok { OnOk result (self.new ≡ record self.old { calls = counted self.old.calls }) }
        ensures err { OnErr result
            (self.new ≡ record self.old {
              calls = counted self.old.calls;
              faults = record self.old.faults
                  { links = one_more self.old.faults.links };
            }) }
        ensures rose { OnErr result (Rose self.old.faults.links self.new.faults.links) }
        ensures counts { self.old.faults.links ≤ self.new.faults.links }
    {
        if self.calls.count() {
            self.faults.links = self.faults.links.saturating_add(1);
            return Err(Failed);
        }
        Ok(())
    }

    /// Whether there is a file at this path that can be fetched.
    fn has_file(&self, path: &[u8]) -> bool
        ensures { result ≡ fits (file_at path.now self.now.files) }
    {
        match find(self.files.as_slice(), path) {
            Some(bytes) => bytes.len() <= FILE_LIMIT,
            None => false,
        }
    }

    /// A copy of the file at this path, which must be one that can be fetched.
    fn copy_file(&self, path: &[u8]) -> Result<Octets, NoMemory>
        requires { fits (file_at path.now self.now.files) ≡ true }
        ensures { IfOk result (λ bytes. file_at path.now self.now.files ≡ Some bytes) }
    {
        match find(self.files.as_slice(), path) {
            Some(bytes) => bytes.copy(),
            None => unreachable!(),
        }
    }

    /// Counts a fetch, and refuses it where its number fails or no file can be fetched.
    #[tactic(auto, using(sm_world::proofs::Counting::rises))]
    fn call_fetch(&mut self, path: &[u8]) -> Result<(), Failed>
        ensures fails { IsErr result ↔ Contains self.new.calls.failing self.new.calls.last
            ⊎ (fits (file_at path.now self.old.files) ≡ false) }
        ensures ok { OnOk result (self.new ≡ record self.old { calls = counted self.old.calls }) }
        ensures err { OnErr result
            (self.new ≡ record self.old {
              calls = counted self.old.calls;
              faults = record self.old.faults
                  { links = one_more self.old.faults.links };
            }) }
        ensures rose { OnErr result (Rose self.old.faults.links self.new.faults.links) }
        ensures counts { self.old.faults.links ≤ self.new.faults.links }
    {
        if self.calls.count() || !self.has_file(path) {
            self.faults.links = self.faults.links.saturating_add(1);
            return Err(Failed);
        }
        Ok(())
    }

    /// Counts a call of Console, and refuses it where its number fails.
    #[tactic(auto, using(sm_world::proofs::Counting::rises))]
    fn call_console(&mut self) -> Result<(), Failed>
        ensures fails { IsErr result ↔ Contains self.new.calls.failing self.new.calls.last }
        ensures ok { OnOk result (self.new ≡ record self.old { calls = counted self.old.calls }) }
        ensures err { OnErr result
            (self.new ≡ record self.old {
              calls = counted self.old.calls;
              faults = record self.old.faults
                  { console = one_more self.old.faults.console };
            }) }
        ensures rose { OnErr result (Rose self.old.faults.console self.new.faults.console) }
        ensures counts { self.old.faults.console ≤ self.new.faults.console }
    {
        if self.calls.count() {
            self.faults.console = self.faults.console.saturating_add(1);
            return Err(Failed);
        }
        Ok(())
    }
}

/// The bytes of the first file with this path.
fn find<'a>(files: &'a [(Octets, Octets)], path: &[u8]) -> Option<&'a Octets>
    ensures { option_copied result ≡ file_at path.now files.now }
{
    for file in files {
        if file.0.as_slice() == path {
            return Some(&file.1);
        }
    }
    None
}

impl Told for MemPeer {
    ghost use Rattle.client_peer.specs.Memory.{peer_outside};

    ghost outside = { peer_outside };
}

impl Peer for MemPeer {
    ghost use Rattle.sm_world.specs.Disk.{has_failed};
    ghost use Rattle.sm_world.specs.Outside.{adds, on_ok, of_ok, UsesLinks};
    ghost use Rattle.sm_world.specs.declared.effects.Effect.TheVariants.{Heard, Sent};
    ghost use Rattle.client_peer.specs.Memory.{peer_outside, peer_pieces, FailsByNumber, FailsToFetch};
    ghost use Rattle.client_peer.specs.Peers.{Fetches};

    fn connect(&mut self, _path: &str) -> Result<(), Failure>
        ensures effects { (peer_outside self.new).told ≡ (peer_outside self.old).told }
        ensures coming { (peer_outside self.new).coming ≡ (peer_outside self.old).coming }
        ensures uses { UsesLinks (peer_outside self.old) (peer_outside self.new) result }
        ensures pieces { peer_pieces self.new ≡ peer_pieces self.old }
        ensures numbered { FailsByNumber (λ faults.
            faults.links) self.old self.new (has_failed result) }
    {
        self.call_links()?;
        Ok(())
    }

    fn receive(&mut self, into: &mut [u8]) -> Result<usize, Failure>
        requires some { 1 ≤ length into.old }
        requires few { length into.old ≤ 65536 }
        ensures within { IfOk result (λ n. n ≤ length into.old) }
        ensures rest { IfOk result (λ n. drop n into.new ≡ drop n into.old) }
        ensures effects { (peer_outside self.new).told
            ≡ adds (peer_outside self.old).told (of_ok (λ n.
            Heard (received (take n into.new))) result) }
        ensures coming { (peer_outside self.new).coming ≡ (peer_outside self.old).coming }
        ensures uses { UsesLinks (peer_outside self.old) (peer_outside self.new) result }
        ensures part { IfOk result (λ n. take n into.new
            ≡ part (length into.old) (peer_pieces self.old)) }
        ensures pieces { OnOk result (peer_pieces self.new
            ≡ after_part (length into.old) (peer_pieces self.old)) }
        ensures kept { OnErr result (peer_pieces self.new ≡ peer_pieces self.old) }
        ensures numbered { FailsByNumber (λ faults.
            faults.links) self.old self.new (has_failed result) }
    {
        self.call_links()?;
        let bytes = self.pieces.upcoming(self.alloc, into.len())?;
        self.effects.push(Effect::Heard(heard(bytes)))?;
        Ok(self.pieces.give(into))
    }

    fn deliver(&mut self, bytes: &[u8]) -> Result<(), Failure>
        ensures effects { (peer_outside self.new).told
            ≡ adds (peer_outside self.old).told (on_ok result (Sent 0 bytes.now ∷ [])) }
        ensures coming { (peer_outside self.new).coming ≡ (peer_outside self.old).coming }
        ensures uses { UsesLinks (peer_outside self.old) (peer_outside self.new) result }
        ensures pieces { peer_pieces self.new ≡ peer_pieces self.old }
        ensures numbered { FailsByNumber (λ faults.
            faults.links) self.old self.new (has_failed result) }
    {
        self.call_links()?;
        let bytes = self.octets(bytes)?;
        self.effects.push(Effect::Sent(0, bytes))?;
        Ok(())
    }

    fn fetch(&mut self, path: &str) -> Result<Octets, Failure>
        ensures limit { IfOk result (λ bytes. length bytes ≤ 65536) }
        ensures bytes { Fetches (peer_outside self.old).files path.now result }
        ensures effects { (peer_outside self.new).told ≡ (peer_outside self.old).told }
        ensures coming { (peer_outside self.new).coming ≡ (peer_outside self.old).coming }
        ensures uses { UsesLinks (peer_outside self.old) (peer_outside self.new) result }
        ensures pieces { peer_pieces self.new ≡ peer_pieces self.old }
        ensures numbered { FailsToFetch path.now self.old self.new (has_failed result) }
    {
        self.call_fetch(path.as_bytes())?;
        Ok(self.copy_file(path.as_bytes())?)
    }
}

impl Console for MemPeer {
    ghost use Rattle.sm_world.specs.Disk.{has_failed};
    ghost use Rattle.sm_world.specs.Outside.{adds, on_ok, UsesConsole, Reads};
    ghost use Rattle.sm_world.specs.declared.effects.Effect.TheVariants.{Printed};
    ghost use Rattle.client_peer.specs.Memory.{peer_outside, peer_pieces, FailsByNumber};

    fn read(&mut self, into: &mut [u8]) -> Result<usize, Failure>
        ensures within { IfOk result (λ n. n ≤ length into.old) }
        ensures effects { (peer_outside self.new).told ≡ (peer_outside self.old).told }
        ensures input { Reads (peer_outside self.old).input
            (peer_outside self.new).input into.old into.new result }
        ensures uses { UsesConsole (peer_outside self.old) (peer_outside self.new) result }
        ensures pieces { peer_pieces self.new ≡ peer_pieces self.old }
        ensures numbered { FailsByNumber (λ faults.
            faults.console) self.old self.new (has_failed result) }
    {
        self.call_console()?;
        Ok(0)
    }

    fn print(&mut self, bytes: &[u8]) -> Result<(), Failure>
        ensures effects { (peer_outside self.new).told
            ≡ adds (peer_outside self.old).told (on_ok result (Printed bytes.now ∷ [])) }
        ensures input { (peer_outside self.new).input ≡ (peer_outside self.old).input }
        ensures uses { UsesConsole (peer_outside self.old) (peer_outside self.new) result }
        ensures pieces { peer_pieces self.new ≡ peer_pieces self.old }
        ensures numbered { FailsByNumber (λ faults.
            faults.console) self.old self.new (has_failed result) }
    {
        self.call_console()?;
        let bytes = self.octets(bytes)?;
        self.effects.push(Effect::Printed(bytes))?;
        Ok(())
    }
}
