ghost use Rattle.std.specs.Prelude.{◌≡◌, [], ◌∷◌, ◌++◌, IfErr, IfOk, OnOk};
ghost use Rattle.checkpoint_slots.specs.Layout.{store_size};
ghost use Rattle.sm_world.specs.Events.{HasPieceSize};
ghost use Rattle.sm_world.specs.Outside.{adds, of_ok, TakesNext};
ghost use Rattle.sm_world.specs.declared.effects.Effect.TheVariants.{Heard};
ghost use Rattle.session_engine.specs.Causes.{IsOfHearing, KeepsCounts};
ghost use Rattle.session_engine.specs.Messages.{spelled};
ghost use Rattle.protocol_messages.specs.Messages.{IsTooLong};
ghost use Rattle.session_engine.specs.Starting.{handed_on};

use crate::act_list::ActList;
use crate::acts::Act;
use crate::fault::{Halt, commit_halt, console_halt, link_halt};
use crate::store::Store;
use checkpoint_records::Book;
use ice_setup::MANAGER_OPCODE;
use ice_values::{EncodeRefusal, Endian};
use manager_machine::Act as SessionAct;
use owned_lists::{Command, NoMemory, Octets};
use protocol_messages::{Message, encode};
use sm_world::{Conn, Console, Disk, Event, Links, Spawner};
use std::alloc::Global;
use std::collections::VecDeque;
use xsmp_messages::{XsmpMessage, encode_xsmp};

/// The next event.
pub fn hear<W: Links>(world: &mut W) -> Result<Event, Halt>
    ensures effects { (W.outside world.new).told ≡ adds (W.outside world.old).told
        (of_ok Heard result) }
    ensures coming { TakesNext (W.outside world.old).coming (W.outside world.new).coming result }
    ensures size { IfOk result HasPieceSize }
    ensures store { (W.outside world.new).size ≡ (W.outside world.old).size }
    ensures input { (W.outside world.new).input ≡ (W.outside world.old).input }
    ensures first { (W.outside world.new).first ≡ (W.outside world.old).first }
    ensures able { IfErr result IsOfHearing }
    ensures counts { KeepsCounts (W.outside world.old).faults (W.outside world.new).faults result }
{
    world.next().map_err(link_halt)
}

/// Writes a line in place of the bytes.
fn put_line(text: &[u8], bytes: &mut Octets) -> Result<(), NoMemory>
    ensures { OnOk result (bytes.new ≡ text.now ++ 10 ∷ []) }
{
    bytes.truncate(0);
    bytes.append(text)?;
    bytes.append(b"\n")
}

/// The store's turn, where an act was done that isn't the store's.
fn hand_on(done: Result<(), Halt>, store: Store) -> Result<Store, Halt>
    ensures { result ≡ handed_on store done }
{
    match done {
        Ok(()) => Ok(store),
        Err(halt) => Err(halt),
    }
}

/// Does acts on the devices of a world. It knows nothing of the session.
#[derive(Debug, Drop)]
pub struct Shell {
    alloc: Global,
    /// The bytes of the last message. Their memory serves the next one.
    bytes: Octets,
}

impl Shell {
    ghost use Rattle.std.specs.Prelude.{◌≡◌, [], ◌∷◌, ◌++◌};
    ghost use Rattle.sm_world.specs.Outside.{Added, adds, on_ok};
    ghost use Rattle.sm_world.specs.declared.effects.Effect.TheVariants.{Sent, Shut, Printed};
    ghost use Rattle.checkpoint_records.specs.Rules.{KeepsRules};
    ghost use Rattle.std.specs.List.{AllByRecursion};
    ghost use Rattle.ice_values.specs.declared.numbers.Endian.TheVariants.{Lsb};
    ghost use Rattle.xsmp_messages.specs.Messages.{IsTooLong as IsTooLongXsmp};
    ghost use Rattle.protocol_messages.specs.declared.message.Message.TheVariants.{Xsmp};
    ghost use Rattle.manager_machine.specs.Keeper.{AreFit, IsFit};
    ghost use Rattle.session_engine.specs.Acts.{CanBeDone, acts_for, acts_for_all};
    ghost use Rattle.session_engine.specs.Causes.{HearsNone};
    ghost use Rattle.session_engine.specs.Messages.{spelled};
    ghost use Rattle.protocol_messages.specs.Messages.{IsTooLong};
    ghost use Rattle.session_engine.specs.Saved.{Performs};
    ghost use Rattle.session_engine.specs.Starting.{Launches};
    ghost use Rattle.session_engine.specs.Stops.{IsRefused};
    ghost use Rattle.session_engine.specs.declared.acts.Act.TheVariants.{Commit as Commits, Print as Prints, Say as Says, Shut as Shuts};
    ghost use Rattle.session_engine.specs.declared.fault.Halt.TheVariants.{NoMemory as WantsMemory};

    /// This takes no memory.
    pub fn new(alloc: Global) -> Shell {
        Shell {
            alloc,
            bytes: Octets::new(alloc),
        }
    }

    fn send<W: Links>(&mut self, world: &mut W, to: Conn, message: &Message) -> Result<(), Halt>
        requires { ¬ (IsTooLong message.now) }
        ensures effects { (W.outside world.new).told
            ≡ adds (W.outside world.old).told (on_ok result (Sent to (spelled message.now) ∷ [])) }
        ensures able { IfErr result (λ halt. IsRefused halt (Says to message.now ∷ [])) }
        ensures alone { HearsNone (W.outside world.old) (W.outside world.new) result }
    {
        self.bytes.truncate(0);
        match encode(MANAGER_OPCODE, message, &mut self.bytes) {
            Ok(()) => {}
            Err(EncodeRefusal::NoMemory) => return Err(Halt::NoMemory),
            Err(EncodeRefusal::TooLong) => unreachable!(),
        }
        world.send(to, self.bytes.as_slice()).map_err(link_halt)
    }

    /// The same for a message of XSMP.
    fn send_xsmp<W: Links>(
        &mut self,
        world: &mut W,
        to: Conn,
        message: &XsmpMessage,
    ) -> Result<(), Halt>
        requires { ¬ (IsTooLongXsmp Lsb message.now) }
        ensures effects { (W.outside world.new).told
            ≡ adds (W.outside world.old).told (on_ok result (Sent to (spelled (Xsmp message.now)) ∷ [])) }
        ensures able { IfErr result (λ halt. IsRefused halt (Says to (Xsmp message.now) ∷ [])) }
        ensures alone { HearsNone (W.outside world.old) (W.outside world.new) result }
    {
        self.bytes.truncate(0);
        match encode_xsmp(Endian::Lsb, MANAGER_OPCODE, message, &mut self.bytes) {
            Ok(()) => {}
            Err(EncodeRefusal::NoMemory) => return Err(Halt::NoMemory),
            Err(EncodeRefusal::TooLong) => unreachable!(),
        }
        world.send(to, self.bytes.as_slice()).map_err(link_halt)
    }

    fn shut<W: Links>(&mut self, world: &mut W, to: Conn) -> Result<(), Halt>
        ensures effects { (W.outside world.new).told
            ≡ adds (W.outside world.old).told (on_ok result (Shut to ∷ [])) }
        ensures able { IfErr result (λ halt. IsRefused halt (Shuts to ∷ [])) }
        ensures alone { HearsNone (W.outside world.old) (W.outside world.new) result }
    {
        world.shut(to).map_err(link_halt)
    }

    /// Starts a command. One that can't be started counts as tried.
    fn start<W: Spawner>(&mut self, world: &mut W, command: &Command) -> Result<(), Halt>
        ensures effects { Launches (W.outside world.old).told
            (W.outside world.new).told command.now result }
        ensures able { IfErr result (λ halt. halt ≡ WantsMemory) }
        ensures alone { HearsNone (W.outside world.old) (W.outside world.new) result }
    {
        match world.start(command) {
            Ok(_) => Ok(()),
            Err(NoMemory) => Err(Halt::NoMemory),
        }
    }

    /// Prints a line.
    fn print<W: Console>(&mut self, world: &mut W, text: &[u8]) -> Result<(), Halt>
        ensures effects { (W.outside world.new).told
            ≡ adds (W.outside world.old).told (on_ok result (Printed (text.now ++ 10 ∷ []) ∷ [])) }
        ensures able { IfErr result (λ halt. IsRefused halt (Prints text.now ∷ [])) }
        ensures alone { HearsNone (W.outside world.old) (W.outside world.new) result }
    {
        if put_line(text, &mut self.bytes).is_err() {
            return Err(Halt::NoMemory);
        }
        world.print(self.bytes.as_slice()).map_err(console_halt)
    }

    /// Writes a checkpoint, which stands in the store once a gate is opened.
    #[inline(never)]
    fn commit<W: Disk>(&mut self, world: &mut W, store: Store, book: Book) -> Result<Store, Halt>
        requires size { (W.outside world.old).size ≡ store_size }
        requires rules { KeepsRules book }
        ensures done { Added (W.outside world.old).told (W.outside world.new).told
            (Performs store (Commits book ∷ []) result) }
        ensures alone { HearsNone (W.outside world.old) (W.outside world.new) result }
    {
        match store.commit(self.alloc, world, book) {
            Ok(store) => Ok(store),
            Err(fault) => Err(commit_halt(fault)),
        }
    }

    /// Does an act, and hands the store's turn on.
    pub fn do_act<W: Disk + Links + Spawner + Console>(
        &mut self,
        world: &mut W,
        store: Store,
        act: Act,
    ) -> Result<Store, Halt>
        requires size { (W.outside world.old).size ≡ store_size }
        requires can { CanBeDone act }
        ensures done { Added (W.outside world.old).told (W.outside world.new).told
            (Performs store (act ∷ []) result) }
        ensures alone { HearsNone (W.outside world.old) (W.outside world.new) result }
    {
        match act {
            Act::Say(to, message) => hand_on(self.send(world, to, &message), store),
            Act::Shut(conn) => hand_on(self.shut(world, conn), store),
            Act::Start(_reason, command) => hand_on(self.start(world, &command), store),
            Act::Commit(book) => self.commit(world, store, book),
            Act::Print(text) => hand_on(self.print(world, text.as_slice()), store),
            Act::Finish => Ok(store),
        }
    }

    /// Does an act of the session, and hands the store's turn on.
    fn do_session_act<W: Disk + Links + Spawner + Console>(
        &mut self,
        world: &mut W,
        store: Store,
        act: SessionAct,
    ) -> Result<Store, Halt>
        requires size { (W.outside world.old).size ≡ store_size }
        requires fit { IsFit act }
        ensures done { Added (W.outside world.old).told (W.outside world.new).told
            (Performs store (acts_for act) result) }
        ensures alone { HearsNone (W.outside world.old) (W.outside world.new) result }
    {
        match act {
            SessionAct::Say(to, message) => hand_on(self.send_xsmp(world, to, &message), store),
            SessionAct::Blame(to, error) => {
                let message = XsmpMessage::Error(error);
                hand_on(self.send_xsmp(world, to, &message), store)
            }
            SessionAct::Unset(_conn) => Ok(store),
            SessionAct::Shut(conn) => hand_on(self.shut(world, conn), store),
            SessionAct::Start(_reason, command) => hand_on(self.start(world, &command), store),
            SessionAct::Commit(book) => self.commit(world, store, book),
            SessionAct::Print(text) => hand_on(self.print(world, text.as_slice()), store),
            SessionAct::Finish => Ok(store),
        }
    }

    /// Does what is done first, up to an act that a device refuses.
    fn perform_said<W: Disk + Links + Spawner + Console>(
        &mut self,
        world: &mut W,
        store: Store,
        said: VecDeque<Act>,
    ) -> Result<Store, Halt>
        requires size { (W.outside world.old).size ≡ store_size }
        requires can { AllByRecursion CanBeDone said.items }
        ensures done { Added (W.outside world.old).told (W.outside world.new).told
            (Performs store said.items result) }
        ensures alone { HearsNone (W.outside world.old) (W.outside world.new) result }
    {
        let mut store = store;
        let mut left = said;
        while let Some(act) = left.pop_front() {
            match self.do_act(world, store, act) {
                Ok(next) => store = next,
                Err(halt) => return Err(halt),
            }
        }
        Ok(store)
    }

    /// Does what the session did, up to an act that a device refuses.
    fn perform_did<W: Disk + Links + Spawner + Console>(
        &mut self,
        world: &mut W,
        store: Store,
        did: VecDeque<SessionAct>,
    ) -> Result<Store, Halt>
        requires size { (W.outside world.old).size ≡ store_size }
        requires fit { AreFit did.items }
        ensures done { Added (W.outside world.old).told (W.outside world.new).told
            (Performs store (acts_for_all did.items) result) }
        ensures alone { HearsNone (W.outside world.old) (W.outside world.new) result }
    {
        let mut store = store;
        let mut left = did;
        while let Some(act) = left.pop_front() {
            match self.do_session_act(world, store, act) {
                Ok(next) => store = next,
                Err(halt) => return Err(halt),
            }
        }
        Ok(store)
    }

    /// Does acts in their order, up to one that a device refuses, and hands the store's turn on.
    pub fn perform<W: Disk + Links + Spawner + Console>(
        &mut self,
        world: &mut W,
        store: Store,
        acts: ActList,
    ) -> Result<Store, Halt>
        requires size { (W.outside world.old).size ≡ store_size }
        ensures done { Added (W.outside world.old).told (W.outside world.new).told
            (Performs store acts result) }
        ensures alone { HearsNone (W.outside world.old) (W.outside world.new) result }
    {
        let (said, did) = acts.into_queues();
        match self.perform_said(world, store, said) {
            Ok(store) => self.perform_did(world, store, did),
            Err(halt) => Err(halt),
        }
    }
}
