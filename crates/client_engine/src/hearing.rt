ghost use Rattle.std.specs.Prelude.{◌≡◌, ◌≤◌, [], length, true, IfOk};
ghost use Rattle.ice_framing.specs.Parts.{Whole};
ghost use Rattle.client_engine.specs.Hearing.{saying, cueing, part_heard, frame_heard, oversize_heard};
ghost use Rattle.client_engine.specs.Messages.{AreShort};
ghost use Rattle.client_engine.specs.Places.{HasShortId, is_listening};
ghost use Rattle.client_engine.specs.Speaking.{HasPlace};

use crate::messages::MessageList;
use crate::opening::take_opening;
use crate::place::{Arrival, Place, Talk};
use crate::received::receive;
use crate::speaking::take_speaking;
use client_machine::SaveAsk;
use ice_framing::Frame;
use ice_values::{Array8, PropertyList};
use owned_lists::NoMemory;
use std::alloc::Global;

/// What the manager's stream asks of a client's keeper (XSMP, chapter 7).
#[derive(Debug, Drop)]
pub enum Cue {
    Nothing,
    /// The client has this ID now.
    Registered(Array8),
    /// The client is to save, or to talk to the user, and to say how it goes on.
    Save(SaveAsk),
    /// The save was cancelled, and what the client saved is void. It may owe an answer.
    Cancelled,
    /// All clients have saved.
    Complete,
    /// The client is to close and to end.
    Die,
    /// The client's own properties, for which it had asked.
    Properties(PropertyList),
    /// An Error of this class is fatal.
    Refused(u16),
    /// The frame that begins at this byte of the stream, counted from 0, spells no message, or its
    /// header states too much. A place behind 18,446,744,073,709,551,615 is told as that number.
    Malformed(u64),
}

/// What a part of the stream brought: messages, or a cue, and where the client stands then.
#[derive(Drop)]
pub struct Heard {
    pub said: MessageList,
    pub cue: Cue,
    pub next: Talk,
}

impl Arrival {
    /// These messages are said, and the client stands there.
    pub(crate) fn says(self, said: MessageList, place: Place) -> Heard
        ensures { result ≡ saying said self.counts place }
    {
        Heard {
            said,
            cue: Cue::Nothing,
            next: Talk {
                place,
                counts: self.counts,
            },
        }
    }

    /// This is left to the client's keeper, and the client stands there.
    pub(crate) fn cues(self, alloc: Global, cue: Cue, place: Place) -> Heard
        ensures { result ≡ cueing cue self.counts place }
    {
        Heard {
            said: MessageList::new(alloc),
            cue,
            next: Talk {
                place,
                counts: self.counts,
            },
        }
    }
}

/// The header of the next frame states too much, as one who takes frames learns.
pub(crate) fn take_oversize(alloc: Global, talk: Talk) -> Heard
    requires { is_listening talk.place ≡ true }
    ensures { result ≡ oversize_heard talk.counts talk.place }
{
    let counts = talk.counts;
    Heard {
        said: MessageList::new(alloc),
        cue: Cue::Malformed(counts.at),
        next: Talk {
            place: Place::Stopped,
            counts,
        },
    }
}

/// Takes a whole frame.
pub(crate) fn take_frame(alloc: Global, talk: Talk, frame: Frame<'_>) -> Result<Heard, NoMemory>
    requires header { 8 ≤ length frame.bytes.now }
    requires short { HasShortId talk.place }
    ensures heard { IfOk result (λ heard.
        heard ≡ part_heard talk
        (Whole (record { endian = frame.entry.endian; bytes = frame.entry.bytes.now }))) }
    ensures said { IfOk result (λ heard. AreShort heard.said) }
    ensures short { IfOk result (λ heard. HasShortId heard.next.place) }
    ensures asked { IfOk result (λ heard. HasPlace heard.cue heard.next.place) }
{
    let Talk { place, counts } = talk;
    let arrival = counts.arrive(frame.bytes);
    match place {
        Place::Opening(opener, previous) => {
            let received = receive(alloc, None, frame)?;
            take_opening(alloc, arrival, opener, previous, received)
        }
        Place::Speaking(joined, client) => {
            let received = receive(alloc, Some(joined.manager_opcode()), frame)?;
            take_speaking(alloc, arrival, joined, client, received)
        }
        Place::Stopped => Ok(Heard {
            said: MessageList::new(alloc),
            cue: Cue::Nothing,
            next: Talk {
                place: Place::Stopped,
                counts,
            },
        }),
    }
}
