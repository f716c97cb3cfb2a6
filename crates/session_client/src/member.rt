ghost use Rattle.std.specs.Prelude.{◌≡◌, Some};
ghost use Rattle.client_engine.specs.Answering.{closes};
ghost use Rattle.client_engine.specs.Places.{id_at};
ghost use Rattle.client_machine.specs.declared.requests.Request.TheVariants.{Delete, Get, Set};
ghost use Rattle.protocol_messages.specs.declared.message.Message.TheVariants.{Xsmp};
ghost use Rattle.session_client.specs.Turns.{MaySay};
ghost use Rattle.session_client.specs.Wishes.{wished, MayWish};
ghost use Rattle.xsmp_messages.specs.declared.message.XsmpMessage.TheVariants.{DeleteProperties, GetProperties, SetProperties};

use crate::client::{Dying, Member};
use crate::wishes::{SaveWish, wish_message};
use client_engine::closing;
use ice_values::{Array8List, PropertyList};
use protocol_messages::Message;
use xsmp_messages::XsmpMessage;

impl Member {
    /// The ID that the manager gave the client.
    pub fn id(&self) -> &[u8]
        ensures { id_at self.now.talk.place ≡ Some result.now }
    {
        match self.core.id() {
            Some(id) => id,
            None => unreachable!(),
        }
    }

    /// What says that these properties are set (XSMP, chapter 7: SetProperties).
    pub fn set(&self, properties: PropertyList) -> Message
        ensures message { result ≡ Xsmp (SetProperties properties) }
        ensures place { MaySay (Set properties) self.now.talk.place result }
    {
        let _core = &self.core;
        Message::Xsmp(XsmpMessage::SetProperties { properties })
    }

    /// What says that the properties of these names are taken back (XSMP, chapter 7: DeleteProperties).
    pub fn delete(&self, names: Array8List) -> Message
        ensures message { result ≡ Xsmp (DeleteProperties names) }
        ensures place { MaySay (Delete names) self.now.talk.place result }
    {
        let _core = &self.core;
        Message::Xsmp(XsmpMessage::DeleteProperties { names })
    }

    /// What asks for the client's properties (XSMP, chapter 7: GetProperties). They come by the cue
    /// `Properties`.
    pub fn get(&self) -> Message
        ensures message { result ≡ Xsmp GetProperties }
        ensures place { MaySay Get self.now.talk.place result }
    {
        let _core = &self.core;
        Message::Xsmp(XsmpMessage::GetProperties)
    }

    /// What asks for a save (XSMP, chapter 7: SaveYourselfRequest).
    pub fn request_save(&self, wish: SaveWish) -> Message
        ensures message { result ≡ Xsmp (wished wish) }
        ensures place { MayWish wish self.now.talk.place }
    {
        let _core = &self.core;
        wish_message(wish)
    }

    /// What says that the client closes, with texts for the user that say why (XSMP, chapter 7:
    /// ConnectionClosed). It says nothing behind that.
    pub fn close(self, reasons: Array8List) -> Message
        ensures { result ≡ closes reasons }
    {
        closing(reasons)
    }
}

impl Dying {
    /// What says that the client closes (XSMP, chapter 7: ConnectionClosed).
    pub fn close(self, reasons: Array8List) -> Message
        ensures { result ≡ closes reasons }
    {
        closing(reasons)
    }
}
