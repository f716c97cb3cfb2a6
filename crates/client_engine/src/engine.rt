ghost use Rattle.std.specs.Prelude.{◌≤◌};
ghost use Rattle.ice_framing.specs.Frames.{IsPartial, units, unit_limit};
ghost use Rattle.client_engine.specs.Places.{HasShortId};

use crate::hearing::{Cue, take_frame, take_oversize};
use crate::messages::MessageList;
use crate::place::{Counts, Place, Talk};
use ice_cookie::Cookie;
use ice_framing::Splitter;
use ice_setup::{AnyOpener, OpenOrder};
use ice_values::Array8;
use owned_lists::NoMemory;
use std::alloc::Global;
use std::mem;

/// What a client is towards its manager: how far it has come, and what its stream has left.
///
/// Its keeper cuts each piece of the stream part by part, sends what is said and does what the cue
/// asks, before the next part. Want of memory leaves a client that takes nothing more.
#[derive(Drop)]
pub struct Core {
    pub(crate) talk: Talk,
    splitter: Splitter,
    /// The splitter can be fed.
    ghost partial: { IsPartial splitter },
    ghost within: { units splitter ≤ unit_limit },
    ghost short: { HasShortId talk.place },
}

/// A part of the stream was taken: a frame, or the header of one that states too much.
#[derive(Drop)]
pub struct Taken {
    /// What the client says by itself.
    pub said: MessageList,
    /// What is left to its keeper, where nothing is said.
    pub cue: Cue,
    /// How many bytes of the piece completed the part.
    pub count: usize,
}

impl Core {
    ghost use Rattle.std.specs.Prelude.{◌≡◌, ◌≤◌, false, length, IfOk, IfSome, OnErr};
    ghost use Rattle.client_engine.specs.Cutting.{IsNew, Cuts};
    ghost use Rattle.client_engine.specs.Messages.{AreShort};
    ghost use Rattle.client_engine.specs.Places.{is_listening};
    ghost use Rattle.client_engine.specs.Speaking.{HasPlace};

    /// A client that has sent ByteOrder (`greeting`), and will register with this ID of an earlier
    /// session, or with none. It reserves the 65,544 bytes of the largest frame.
    pub fn new(alloc: Global, cookie: Cookie, previous: Array8) -> Result<Core, NoMemory>
        requires { length previous ≤ 512 }
        ensures { IfOk result (IsNew cookie previous) }
    {
        let opener = AnyOpener::OpenOrder(OpenOrder::new(cookie));
        Ok(Core {
            talk: Talk {
                place: Place::Opening(opener, previous),
                counts: Counts { sequence: 0, at: 0 },
            },
            splitter: Splitter::new(alloc)?,
        })
    }

    /// Takes the rest of a piece up to the end of the first part. `None` where it completes none: all
    /// bytes are held, or the client takes nothing more.
    pub fn cut(&mut self, alloc: Global, left: &[u8]) -> Result<Option<Taken>, NoMemory>
        ensures cuts { IfOk result (λ taken. Cuts self.old left.now taken self.new) }
        ensures said { IfOk result (λ taken. IfSome taken (λ part. AreShort part.said)) }
        ensures asked { IfOk result (λ taken.
            IfSome taken (λ part. HasPlace part.cue self.new.talk.place)) }
        ensures some { IfOk result (λ taken. IfSome taken (λ part. 1 ≤ part.count)) }
        ensures within { IfOk result (λ taken.
            IfSome taken (λ part. part.count ≤ length left.now)) }
        ensures stopped { OnErr result (is_listening self.new.talk.place ≡ false) }
    {
        if !self.talk.place.is_listening() {
            return Ok(None);
        }
        let stopped = Talk {
            place: Place::Stopped,
            counts: self.talk.counts,
        };
        let count = match self.splitter.feed(left) {
            Ok(count) => count,
            Err(_) => {
                let heard = take_oversize(alloc, mem::replace(&mut self.talk, stopped));
                self.talk = heard.next;
                self.splitter.forget();
                return Ok(Some(Taken {
                    said: heard.said,
                    cue: heard.cue,
                    count: left.len(),
                }));
            }
        };
        let frame = match self.splitter.next_frame() {
            Some(frame) => frame,
            None => return Ok(None),
        };
        let taken = take_frame(alloc, mem::replace(&mut self.talk, stopped), frame);
        self.splitter.take_frame();
        let heard = taken?;
        self.talk = heard.next;
        Ok(Some(Taken {
            said: heard.said,
            cue: heard.cue,
            count,
        }))
    }
}
