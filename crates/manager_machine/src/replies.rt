ghost use Rattle.std.specs.Prelude.{◌≡◌, OnOk};
ghost use Rattle.session_state.specs.Session.{moved_all};
ghost use Rattle.manager_machine.specs.Answers.{moves_of};

use crate::session_core::Core;
use checkpoint_records::EntryList;
use ice_values::{Array8, ErrorBody, PropertyList};
use owned_lists::{Command, CommandList, ListOf, NoMemory, Octets};
use sm_world::{Conn, ConnList};
use xsmp_messages::XsmpMessage;

/// A client that is started again at once, as it departs.
#[derive(Drop)]
pub(crate) struct Again {
    /// The ID under which it registered.
    pub(crate) id: Array8,
    /// Its RestartCommand.
    pub(crate) command: Command,
}

/// A connection that is shut.
#[derive(Drop)]
pub(crate) struct Departure {
    pub(crate) conn: Conn,
    /// Its client, where it has to be started again.
    pub(crate) again: Option<Again>,
}

/// What goes with a client that is forgotten.
#[derive(Drop)]
pub(crate) struct Forgetting {
    /// The entries of the book without that of the client.
    pub(crate) entries: EntryList,
    /// The client's ResignCommand, where its hint is Anyway.
    pub(crate) resign: Option<Command>,
    /// The DiscardCommands of the registered clients.
    pub(crate) standing: CommandList,
}

/// What is done about an event, as it is told before the event changes anything.
#[derive(Drop)]
pub(crate) enum Reply {
    /// Nothing.
    Quiet,
    /// An Error is sent.
    Blame(Conn, ErrorBody),
    /// An Error is sent, and XSMP ends on the connection.
    TurnAway(Conn, ErrorBody),
    /// A connection gets this ID.
    Register(Conn, Array8),
    /// A client is told its properties.
    Tell(Conn, PropertyList),
    /// The running round is called off, and these are told so.
    CallOff(ConnList),
    /// A connection is shut, and its client is started again, where it has to be.
    Shut(Conn, Option<Again>),
    /// Each of these connections is shut, and its client is started again, where it has to be.
    ShutEach(ListOf<Departure>),
    /// The client that left is started again, where it has to be.
    StartAgain(Option<Again>),
    /// A line is printed.
    Print(Octets),
    /// The line `ok` is printed, and the running round is called off.
    PrintAndCallOff(ConnList),
    /// The line `ok` is printed, and a connection is shut.
    PrintAndShut(Conn, Option<Again>),
    /// The line `ok` is printed, and a client is forgotten.
    Forget(Forgetting),
}

impl Core {
    /// Does what a reply says.
    pub(crate) fn perform(&mut self, reply: Reply) -> Result<(), NoMemory>
        ensures { OnOk result (self.new ≡ moved_all (moves_of self.old reply) self.old) }
    {
        match reply {
            Reply::Quiet => Ok(()),
            Reply::Blame(conn, error) => self.blame(conn, error),
            Reply::TurnAway(conn, error) => self.turn_away(conn, error),
            Reply::Register(conn, id) => self.register(conn, id),
            Reply::Tell(conn, properties) => {
                self.say(conn, XsmpMessage::GetPropertiesReply { properties })
            }
            Reply::CallOff(conns) => self.call_off_for(&conns),
            Reply::Shut(conn, again) => self.shut(conn, again),
            Reply::ShutEach(departures) => self.shut_each(departures),
            Reply::StartAgain(again) => self.start_departed(again),
            Reply::Print(text) => self.print(text),
            Reply::PrintAndCallOff(conns) => self.print_and_call_off(&conns),
            Reply::PrintAndShut(conn, again) => self.print_and_shut(conn, again),
            Reply::Forget(plan) => self.forget(plan),
        }
    }
}
