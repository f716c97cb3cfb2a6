ghost use Rattle.std.specs.Prelude.{◌≡◌, ◌≤◌, ◌↔◌, [], ◌∷◌, length, true, None, Option, Some, IfOk, IsErrOf};
ghost use Rattle.ice_messages.specs.declared.message.IceMessage.TheVariants.{ByteOrder};
ghost use Rattle.ice_values.specs.declared.numbers.Endian.TheVariants.{Lsb};
ghost use Rattle.client_engine.specs.Driving.{Run};
ghost use Rattle.client_engine.specs.Messages.{spelled};
ghost use Rattle.protocol_messages.specs.declared.message.Message.TheVariants.{Ice};
ghost use Rattle.named_joiner.specs.Hearing.{Hears, gave_end};
ghost use Rattle.named_joiner.specs.Script.{Keeper, is_over};
ghost use Rattle.named_joiner.specs.Standing.{IsRun, start_stand};
ghost use Rattle.named_joiner.specs.declared.ends.HearFault.TheVariants.{Stopped as WasStopped};

use crate::callbacks::{NamedDies, NamedSaves};
use crate::callers::Callers;
use crate::ends::{Ending, HearFault, NamedReply};
use crate::progress::Progress;
use client_engine::{greeting, spell, take_piece};
use ice_cookie::Cookie;
use ice_values::Array8;
use owned_lists::{NoMemory, Octets};
use std::alloc::Global;
use std::marker::Model;

/// A client that joins a session (XSMP, chapter 9; ICE, chapter 6), and leaves what it saves and why it
/// closes to callbacks. Whoever has it sends what it says, and brings it the pieces of its manager's
/// stream, however they are cut.
#[derive(Drop)]
pub struct NamedJoiner<S: NamedSaves, D: NamedDies> {
    progress: Progress,
    callers: Callers<S, D>,
}

/// A client that lacks its callbacks still. It needs no more memory to get them.
#[derive(Drop)]
pub struct BareJoiner {
    progress: Progress,
}

impl Model for BareJoiner {
    ghost use Rattle.std.specs.Prelude.{◌≡◌, []};
    ghost use Rattle.named_joiner.specs.Doing.{stand_of};
    ghost use Rattle.named_joiner.specs.Standing.{Stand};

    ghost Value = { Stand };

    ghost view = { λ b. stand_of b.progress };

    ghost invariant = { λ b. b.progress.bytes ≡ [] };
}

impl<S: NamedSaves, D: NamedDies> Model for NamedJoiner<S, D> {
    ghost use Rattle.std.specs.Prelude.{◌≡◌, [], None};
    ghost use Rattle.named_joiner.specs.Doing.{stand_of};
    ghost use Rattle.named_joiner.specs.Standing.{Joining};

    ghost Value = { Joining S D };

    ghost view = { λ j. record { stand = stand_of j.progress; callbacks = j.callers } };

    ghost invariant = { λ j. j.progress.ending ≡ None → j.progress.bytes ≡ [] };
}

impl<S: NamedSaves, D: NamedDies> NamedJoiner<S, D> {
    /// Hands the callbacks back, as the last call of each left it.
    pub fn parts(self) -> (S, D)
        ensures callbacks { result ≡ (self.callbacks.save, self.callbacks.die) }
        ensures save { S.lawful result.0 }
        ensures die { D.lawful result.1 }
    {
        let NamedJoiner {
            progress: _progress,
            callers,
        } = self;
        callers.parts()
    }

    /// Takes a piece of the manager's stream, and gives what is to be sent before the next one is
    /// received.
    pub fn hear(&mut self, piece: &[u8]) -> Result<NamedReply, HearFault>
        // For whatever the run has brought so far, it brings what the script says of this piece.
        ensures hears { (run : Run Keeper) → IsRun run self.old.stand →
            Hears S.answers D.gives result self.old self.new run piece.now }
        ensures stopped { IsErrOf result WasStopped ↔ (is_over self.old.stand.ending ≡ true) }
        ensures spent { is_over self.new.stand.ending ≡ gave_end result }
        ensures idle { IsErrOf result WasStopped → self.new ≡ self.old }
    {
        if self.progress.ending.is_some() {
            return Err(HearFault::Stopped);
        }
        match take_piece(&mut self.callers, &mut (), &mut self.progress, piece) {
            Ok(()) => self.progress.reply(),
            Err(NoMemory) => {
                self.progress.ending = Some(Ending::Starved);
                Err(HearFault::NoMemory)
            }
        }
    }
}

/// The bytes of ByteOrder, which a client sends at once.
fn first_bytes(alloc: Global) -> Result<Octets, NoMemory>
    ensures { IfOk result (λ bytes. bytes ≡ spelled (Ice (ByteOrder Lsb))) }
{
    let mut bytes = Octets::new(alloc);
    spell(&greeting(), &mut bytes)?;
    Ok(bytes)
}

impl BareJoiner {
    /// A client that will register with this ID of an earlier session, or with none, and what it sends
    /// at once.
    pub fn new(
        alloc: Global,
        cookie: Cookie,
        previous: Array8,
    ) -> Result<(BareJoiner, Octets), NoMemory>
        requires { length previous ≤ 512 }
        ensures joiner { IfOk result (λ begun. begun.0 ≡ start_stand cookie previous) }
        ensures first { IfOk result (λ begun. begun.1 ≡ spelled (Ice (ByteOrder Lsb))) }
    {
        let bytes = first_bytes(alloc)?;
        let progress = Progress::begin(alloc, cookie, previous)?;
        Ok((BareJoiner { progress }, bytes))
    }

    /// The client with its callbacks: `save` is asked in each save, and `die` when the client is told
    /// to die.
    pub fn with<S: NamedSaves, D: NamedDies>(self, save: S, die: D) -> NamedJoiner<S, D>
        requires save { S.lawful save }
        requires die { D.lawful die }
        ensures { result ≡ record { stand = self; callbacks = record { save = save; die = die } } }
    {
        let BareJoiner { progress } = self;
        let callers = Callers::new(save, die);
        NamedJoiner { progress, callers }
    }
}

impl<S: NamedSaves + Drop, D: NamedDies + Drop> NamedJoiner<S, D> {
    /// A client that will register with this ID of an earlier session, or with none, and what it sends
    /// at once. `save` is asked in each save, and `die` when the client is told to die; a closure is
    /// handed over as `ByCall`.
    pub fn new(
        alloc: Global,
        cookie: Cookie,
        previous: Array8,
        save: S,
        die: D,
    ) -> Result<(NamedJoiner<S, D>, Octets), NoMemory>
        requires previous { length previous ≤ 512 }
        requires save { S.lawful save }
        requires die { D.lawful die }
        ensures joiner { IfOk result (λ begun. begun.0
            ≡ record {
              stand = start_stand cookie previous;
              callbacks = record
                  { save = save; die = die };
            }) }
        ensures first { IfOk result (λ begun. begun.1 ≡ spelled (Ice (ByteOrder Lsb))) }
    {
        let (bare, bytes) = BareJoiner::new(alloc, cookie, previous)?;
        Ok((bare.with(save, die), bytes))
    }
}
