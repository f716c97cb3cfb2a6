ghost use Rattle.std.specs.Prelude.{◌≡◌, IfOk};
ghost use Rattle.client_machine.specs.Taking.{act_taken, taken};
ghost use Rattle.client_engine.specs.Hearing.{acted, speaking_heard};
ghost use Rattle.client_engine.specs.Messages.{AreShort};
ghost use Rattle.client_engine.specs.Places.{HasShortId};
ghost use Rattle.client_engine.specs.Speaking.{HasPlace, MayAct};

use crate::hearing::{Cue, Heard};
use crate::messages::{MessageList, one};
use crate::opening::{out_of_place, take_ice, take_stray};
use crate::place::{Arrival, Place};
use crate::received::Received;
use client_machine::{Client, ClientAct};
use ice_setup::Joined;
use owned_lists::NoMemory;
use protocol_messages::Message;
use std::alloc::Global;
use xsmp_messages::XsmpMessage;

/// What an act is to the client and its keeper.
fn act(
    alloc: Global,
    arrival: Arrival,
    joined: Joined,
    client: Client,
    act: ClientAct,
) -> Result<Heard, NoMemory>
    requires { MayAct client act }
    ensures heard { IfOk result (λ heard. heard ≡ acted arrival joined client act) }
    ensures said { IfOk result (λ heard. AreShort heard.said) }
    ensures short { IfOk result (λ heard. HasShortId heard.next.place) }
    ensures asked { IfOk result (λ heard. HasPlace heard.cue heard.next.place) }
{
    let place = Place::Speaking(joined, client);
    match act {
        ClientAct::Nothing => Ok(arrival.says(MessageList::new(alloc), place)),
        ClientAct::Registered(id) => Ok(arrival.cues(alloc, Cue::Registered(id), place)),
        ClientAct::Again(message) => {
            let said = one(alloc, Message::Xsmp(message))?;
            Ok(arrival.says(said, place))
        }
        ClientAct::Save(ask) => Ok(arrival.cues(alloc, Cue::Save(ask), place)),
        ClientAct::Die => Ok(arrival.cues(alloc, Cue::Die, Place::Stopped)),
        ClientAct::Cancelled => Ok(arrival.cues(alloc, Cue::Cancelled, place)),
        ClientAct::Complete => Ok(arrival.cues(alloc, Cue::Complete, place)),
        ClientAct::Properties(list) => Ok(arrival.cues(alloc, Cue::Properties(list), place)),
        ClientAct::Refused(class) => {
            Ok(arrival.cues(alloc, Cue::Refused(class), Place::Stopped))
        }
        ClientAct::Unexpected => {
            let error = XsmpMessage::Error(out_of_place(alloc, arrival.offending));
            let said = one(alloc, Message::Xsmp(error))?;
            Ok(arrival.says(said, place))
        }
    }
}

/// Takes a message of XSMP.
fn take_xsmp(
    alloc: Global,
    arrival: Arrival,
    joined: Joined,
    mut client: Client,
    message: XsmpMessage,
) -> Result<Heard, NoMemory>
    ensures heard { IfOk result (λ heard.
        heard ≡ acted arrival joined (taken message client) (act_taken message client)) }
    ensures said { IfOk result (λ heard. AreShort heard.said) }
    ensures short { IfOk result (λ heard. HasShortId heard.next.place) }
    ensures asked { IfOk result (λ heard. HasPlace heard.cue heard.next.place) }
{
    let asked = client.take(message)?;
    act(alloc, arrival, joined, client, asked)
}

/// Takes a frame once the client has joined.
pub(crate) fn take_speaking(
    alloc: Global,
    arrival: Arrival,
    joined: Joined,
    client: Client,
    received: Received,
) -> Result<Heard, NoMemory>
    ensures heard { IfOk result (λ heard. heard ≡ speaking_heard arrival joined client received) }
    ensures said { IfOk result (λ heard. AreShort heard.said) }
    ensures short { IfOk result (λ heard. HasShortId heard.next.place) }
    ensures asked { IfOk result (λ heard. HasPlace heard.cue heard.next.place) }
{
    match received {
        Received::Ice(message) => take_ice(alloc, arrival, joined, client, message),
        Received::Xsmp(message) => take_xsmp(alloc, arrival, joined, client, message),
        Received::Stray => take_stray(alloc, arrival, Place::Speaking(joined, client)),
        Received::Unspelled => {
            Ok(arrival.cues(alloc, Cue::Malformed(arrival.at), Place::Stopped))
        }
    }
}
