ghost use Rattle.std.specs.Prelude.{◌≡◌, ◌≤◌, ◌↔◌, length, true, IfOk, IsErrOf};
ghost use Rattle.ice_messages.specs.declared.message.IceMessage.TheVariants.{ByteOrder};
ghost use Rattle.ice_values.specs.declared.numbers.Endian.TheVariants.{Lsb};
ghost use Rattle.client_engine.specs.Driving.{Run};
ghost use Rattle.client_engine.specs.Messages.{spelled};
ghost use Rattle.protocol_messages.specs.declared.message.Message.TheVariants.{Ice};
ghost use Rattle.outer_agent.specs.Script.{Keeper, closed, piece_heard, told};
ghost use Rattle.outer_agent.specs.Standing.{Gives, IsRun, gave_none, start_stand};
ghost use Rattle.outer_agent.specs.Words.{AreFew};
ghost use Rattle.outer_agent.specs.declared.acts.AgentFault.TheVariants.{Stopped as WasStopped};

use crate::acts::{AgentActs, AgentFault};
use crate::heeding::Nested;
use crate::progress::Progress;
use client_engine::{greeting, spell, take_piece};
use ice_cookie::Cookie;
use ice_values::Array8;
use owned_lists::{NoMemory, Octets, OctetsList};
use std::alloc::Global;
use std::marker::Model;

/// A manager as a client of an outer one (XSMP, chapter 8; ICE, chapter 6). Whoever has it sends what it
/// says, and brings it the pieces of the outer manager's stream, however they are cut.
#[derive(Drop)]
pub struct Agent {
    progress: Progress,
    /// Memory was wanting.
    starved: bool,
}

impl Model for Agent {
    ghost use Rattle.outer_agent.specs.Doing.{stand_of};
    ghost use Rattle.outer_agent.specs.Standing.{Stand};

    ghost Value = { Stand };

    ghost view = { λ agent. stand_of agent.progress agent.starved };
}

/// The bytes of ByteOrder, which a client sends at once.
fn first_bytes(alloc: Global) -> Result<Octets, NoMemory>
    ensures { IfOk result (λ bytes. bytes ≡ spelled (Ice (ByteOrder Lsb))) }
{
    let mut bytes = Octets::new(alloc);
    spell(&greeting(), &mut bytes)?;
    Ok(bytes)
}

impl Agent {
    /// An agent that will register with this ID of an earlier session, or with none, and what it sends
    /// at once. The words are those of the manager's command; spelled as a LISTofARRAY8 they have at
    /// most 32,768 bytes.
    pub fn new(
        alloc: Global,
        cookie: Cookie,
        previous: Array8,
        words: OctetsList,
    ) -> Result<(Agent, Octets), NoMemory>
        requires previous { length previous ≤ 512 }
        requires words { AreFew words }
        ensures agent { IfOk result (λ begun. begun.0 ≡ start_stand cookie previous words) }
        ensures first { IfOk result (λ begun. begun.1 ≡ spelled (Ice (ByteOrder Lsb))) }
    {
        let bytes = first_bytes(alloc)?;
        let progress = Progress::begin(alloc, cookie, previous, &words)?;
        let agent = Agent {
            progress,
            starved: false,
        };
        Ok((agent, bytes))
    }

    /// Takes a piece of the outer manager's stream, and gives what is to be done about it, in order.
    pub fn hear(&mut self, piece: &[u8]) -> Result<AgentActs, AgentFault>
        // For whatever the run has brought so far, these are the acts that the script has for this piece.
        ensures hears { IfOk result (λ acts. (run : Run Keeper) → IsRun run self.old →
            Gives acts (piece_heard run piece.now) self.new) }
        ensures stopped { IsErrOf result WasStopped ↔ (self.old.starved ≡ true) }
        ensures spent { self.new.starved ≡ gave_none result }
        ensures idle { IsErrOf result WasStopped → self.new ≡ self.old }
    {
        if self.starved {
            return Err(AgentFault::Stopped);
        }
        let mut acts = AgentActs::new(self.progress.alloc);
        match take_piece(&mut Nested, &mut acts, &mut self.progress, piece) {
            Ok(()) => Ok(acts),
            Err(NoMemory) => {
                self.starved = true;
                Err(AgentFault::NoMemory)
            }
        }
    }

    /// Tells the outer manager how a save of the session ended, and gives what is to be sent: nothing
    /// where the outer manager waits for no end.
    pub fn ended(&mut self, success: bool) -> Result<Octets, AgentFault>
        ensures ended { IfOk result (λ bytes. (run : Run Keeper) → IsRun run self.old →
            Gives bytes (told run success) self.new) }
        ensures stopped { IsErrOf result WasStopped ↔ (self.old.starved ≡ true) }
        ensures spent { self.new.starved ≡ gave_none result }
        ensures idle { IsErrOf result WasStopped → self.new ≡ self.old }
    {
        if self.starved {
            return Err(AgentFault::Stopped);
        }
        match self.progress.tell(success) {
            Ok(bytes) => Ok(bytes),
            Err(NoMemory) => {
                self.starved = true;
                Err(AgentFault::NoMemory)
            }
        }
    }

    /// Closes as the session has come to its end, and gives what is to be sent: nothing where the client
    /// has no ID, or is dead.
    pub fn close(&mut self) -> Result<Octets, AgentFault>
        ensures closed { IfOk result (λ bytes. (run : Run Keeper) → IsRun run self.old →
            Gives bytes (closed run) self.new) }
        ensures stopped { IsErrOf result WasStopped ↔ (self.old.starved ≡ true) }
        ensures spent { self.new.starved ≡ gave_none result }
        ensures idle { IsErrOf result WasStopped → self.new ≡ self.old }
    {
        if self.starved {
            return Err(AgentFault::Stopped);
        }
        match self.progress.close() {
            Ok(bytes) => Ok(bytes),
            Err(NoMemory) => {
                self.starved = true;
                Err(AgentFault::NoMemory)
            }
        }
    }
}
