ghost use Rattle.std.specs.Prelude.{◌≡◌, ◌≤◌, length, true, IfOk};
ghost use Rattle.ice_framing.specs.Frames.{byte_limit};
ghost use Rattle.ice_messages.specs.Messages.{IsFrame};
ghost use Rattle.manager_machine.specs.Heard.{Hears, heard_on};
ghost use Rattle.session_state.specs.Session.{reading_in};
ghost use Rattle.session_engine.specs.Answers.{frame_outcome, is_ordered, speaks_xsmp};
ghost use Rattle.session_engine.specs.Bringing.{Brings, CanHear, IsHeard, said_by};
ghost use Rattle.session_engine.specs.Messages.{CanBeSaid};

use crate::answers::{Answer, Taken, take_frame};
use ice_framing::Frame;
use ice_setup::AnySetup;
use manager_machine::{Acts, Manager};
use owned_lists::NoMemory;
use sm_world::Conn;
use std::alloc::Global;
use xsmp_messages::XsmpView;

/// What answers a part of a client's stream.
#[derive(Drop)]
pub enum Reply {
    /// The connection answers it.
    Answers(Answer),
    /// The session heard a message of XSMP, and did this about it.
    Did(Acts),
}

/// What a part of a client's stream brings.
#[derive(Drop)]
pub struct Brought {
    /// How far the connection's set-up has come then.
    pub setup: AnySetup,
    pub reply: Reply,
}

/// Takes a whole frame of a connection. The session hears a message of XSMP where it lies.
pub fn bring(
    alloc: Global,
    manager: &mut Manager,
    conn: Conn,
    setup: AnySetup,
    sequence: u32,
    frame: Frame<'_>,
) -> Result<Brought, NoMemory>
    requires header { 8 ≤ length frame.bytes.now }
    requires whole { is_ordered setup ≡ true → IsFrame frame.endian frame.bytes.now }
    requires within { length frame.bytes.now ≤ byte_limit }
    requires heard { speaks_xsmp setup ≡ true → CanHear conn (reading_in manager.old.session) }
    ensures brings { IfOk result (λ brought. Brings conn (frame_outcome setup sequence
        (record { endian = frame.entry.endian; bytes = frame.entry.bytes.now })) brought
        manager.old manager.new) }
    ensures said { IfOk result (λ brought. CanBeSaid (said_by brought.reply)) }
{
    let taken = match take_frame(alloc, setup, sequence, frame) {
        Ok(taken) => taken,
        Err(NoMemory) => return Err(NoMemory),
    };
    match taken {
        Taken::Brings(outcome) => Ok(Brought {
            setup: outcome.setup,
            reply: Reply::Answers(outcome.answer),
        }),
        Taken::Speaks(view) => {
            let acts = hear_view(manager, conn, &view, sequence)?;
            let reply = Reply::Did(acts);
            Ok(Brought { setup, reply })
        }
    }
}

/// The session hears a message that came on a connection, with this number among all that came
/// there.
fn hear_view(
    manager: &mut Manager,
    conn: Conn,
    view: &XsmpView<'_>,
    sequence: u32,
) -> Result<Acts, NoMemory>
    requires { Hears conn view.now (reading_in manager.old.session) }
    ensures { IfOk result (λ acts.
        IsHeard (heard_on conn view.now sequence) acts manager.old manager.new) }
{
    match manager.hear(conn, view, sequence) {
        Ok(acts) => Ok(acts),
        Err(_) => Err(NoMemory),
    }
}
