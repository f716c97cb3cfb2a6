ghost use Rattle.std.specs.Prelude.{◌≡◌, ◌≤◌, true, IsSome};
ghost use Rattle.ice_framing.specs.Frames.{IsPartial, units, unit_limit};
ghost use Rattle.session_engine.specs.Answers.{is_ordered};

use crate::answers::answer_header;
use crate::hearing::{Brought, Reply, bring};
use ice_cookie::Cookie;
use ice_framing::Splitter;
use ice_setup::{AnySetup, AwaitOrder};
use manager_machine::Manager;
use owned_lists::NoMemory;
use sm_world::Conn;
use std::alloc::Global;

/// What is kept of a live connection: its number, how far its set-up has come, the number of its
/// last frame, and its splitter.
#[derive(Debug, Drop)]
pub struct Connection {
    conn: Conn,
    setup: AnySetup,
    sequence: u32,
    splitter: Splitter,
    /// Behind the first frame the order of the stream is known.
    ghost ordered: { is_ordered setup ≡ true → IsSome splitter.order },
    /// The splitter can be fed.
    ghost partial: { IsPartial splitter },
    ghost within: { units splitter ≤ unit_limit },
}

/// A part of the stream is whole.
#[derive(Drop)]
pub struct Answered {
    /// What answers it.
    pub reply: Reply,
    /// How many bytes of the piece completed it.
    pub count: usize,
}

impl Connection {
    ghost use Rattle.std.specs.Prelude.{◌≡◌, ◌≤◌, ℕ, length, true, IfOk, IfSome};
    ghost use Rattle.ice_framing.specs.Frames.{beginning};
    ghost use Rattle.session_state.specs.Session.{reading_in};
    ghost use Rattle.session_engine.specs.Answers.{is_ordered, sequence_after, speaks_xsmp};
    ghost use Rattle.session_engine.specs.Bringing.{CanHear, CutsSo, said_by};
    ghost use Rattle.session_engine.specs.Messages.{CanBeSaid};
    ghost use Rattle.session_engine.specs.Cutting.{IsNew, Cuts, Unsets};

    /// A connection that just joined, of a session with this cookie.
    pub fn new(alloc: Global, cookie: Cookie, conn: Conn) -> Result<Connection, NoMemory>
        ensures new { IfOk result (IsNew cookie) }
        ensures conn { IfOk result (λ connection. connection.conn ≡ conn) }
    {
        Ok(Connection {
            conn,
            setup: AnySetup::AwaitOrder(AwaitOrder::new(cookie)),
            sequence: 0,
            splitter: Splitter::new(alloc)?,
        })
    }

    /// Takes the rest of a piece up to the end of the first part. `None` where it completes none.
    /// The session hears a message of XSMP at once. A frame that lies whole in the piece is read
    /// there.
    pub fn cut(
        &mut self,
        alloc: Global,
        manager: &mut Manager,
        left: &[u8],
    ) -> Result<Option<Answered>, NoMemory>
        requires { speaks_xsmp self.old.setup ≡ true →
            CanHear self.old.conn (reading_in manager.old.session) }
        ensures cuts { IfOk result (λ answered. CutsSo self.old.conn (λ part.
            Cuts self.old left.now part self.new) answered manager.old manager.new) }
        ensures said { IfOk result (λ answered.
            IfSome answered (λ part. CanBeSaid (said_by part.reply))) }
        ensures some { IfOk result (λ answered. IfSome answered (λ part. 1 ≤ part.count)) }
        ensures within { IfOk result (λ answered.
            IfSome answered (λ part. part.count ≤ length left.now)) }
        ensures conn { self.new.conn ≡ self.old.conn }
    {
        let sequence = self.sequence.wrapping_add(1);
        let Some(frame) = self.splitter.front(left) else {
            return self.put_together(alloc, manager, sequence, left);
        };
        let brought = bring(alloc, manager, self.conn, self.setup, sequence, frame)?;
        Ok(Some(Answered {
            reply: self.note(sequence, brought),
            count: frame.bytes.len(),
        }))
    }

    /// The same where no whole frame lies in front of the piece: the splitter puts the frame
    /// together. The part's number is handed in.
    fn put_together(
        &mut self,
        alloc: Global,
        manager: &mut Manager,
        sequence: u32,
        left: &[u8],
    ) -> Result<Option<Answered>, NoMemory>
        requires next { sequence ≡ sequence_after self.old.sequence }
        requires heard { speaks_xsmp self.old.setup ≡ true →
            CanHear self.old.conn (reading_in manager.old.session) }
        ensures cuts { IfOk result (λ answered. CutsSo self.old.conn (λ part.
            Cuts self.old left.now part self.new) answered manager.old manager.new) }
        ensures said { IfOk result (λ answered.
            IfSome answered (λ part. CanBeSaid (said_by part.reply))) }
        ensures some { IfOk result (λ answered. IfSome answered (λ part. 1 ≤ part.count)) }
        ensures within { IfOk result (λ answered.
            IfSome answered (λ part. part.count ≤ length left.now)) }
        ensures conn { self.new.conn ≡ self.old.conn }
    {
        let count = match self.splitter.feed(left) {
            Ok(count) => count,
            Err(_) => {
                let answer = answer_header(alloc, &self.setup, sequence, &self.splitter);
                self.sequence = sequence;
                self.splitter.forget();
                return Ok(Some(Answered {
                    reply: Reply::Answers(answer),
                    count: left.len(),
                }));
            }
        };
        let frame = match self.splitter.next_frame() {
            Some(frame) => frame,
            None => return Ok(None),
        };
        let taken = bring(alloc, manager, self.conn, self.setup, sequence, frame);
        self.splitter.take_frame();
        let brought = taken?;
        Ok(Some(Answered {
            reply: self.note(sequence, brought),
            count,
        }))
    }

    /// Notes the number of a frame and what it brought, and hands out what answers it.
    fn note(&mut self, sequence: u32, brought: Brought) -> Reply
        requires { is_ordered brought.setup ≡ true → IsSome self.old.splitter.order }
        ensures reply { result ≡ brought.reply }
        ensures setup { self.new.setup ≡ brought.setup }
        ensures sequence { self.new.sequence ≡ sequence }
        ensures splitter { self.new.splitter ≡ self.old.splitter }
        ensures conn { self.new.conn ≡ self.old.conn }
    {
        self.sequence = sequence;
        self.setup = brought.setup;
        brought.reply
    }

    /// XSMP has ended: a ProtocolSetup is awaited again.
    pub fn unset(&mut self)
        ensures unsets { Unsets self.old self.new }
        ensures conn { self.new.conn ≡ self.old.conn }
    {
        if let AnySetup::Ready(ready) = self.setup {
            self.setup = AnySetup::AwaitProtocol(ready.unset());
        }
    }
}
