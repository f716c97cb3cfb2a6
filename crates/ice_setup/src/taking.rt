ghost use Rattle.std.specs.Prelude.{◌≡◌, ◌≤◌, length, IfOk, MatchResult};
ghost use Rattle.ice_values.specs.declared.numbers.Endian.{Endian as AnyEndian};
ghost use Rattle.ice_messages.specs.declared.message.IceMessage.TheVariants.{AuthenticationReply as AReply};
ghost use Rattle.ice_setup.specs.Errors.{text_values};
ghost use Rattle.ice_setup.specs.Offers.{first_version as first_version_spec, first_cookie_name as first_cookie_name_spec};
ghost use Rattle.ice_setup.specs.Setup.{connection_offer, cookie_cell, protocol_offer, protocol_setup, protocol_cookie_cell, ready_setup, moved, HasFittingBody, CanBeSaid};

use crate::answers::{
    asks_cookie, bare_error, connection_reply, opcode_error, protocol_error, protocol_reply,
    rejection,
};
use crate::errors::Offending;
use crate::offers::{Offer, first_cookie_name, first_version, is_xsmp, read_offer};
use crate::others::{named, out_of_place, take_other};
use crate::states::{
    AnySetup, AwaitCookie, AwaitOrder, AwaitProtocol, AwaitProtocolCookie, AwaitSetup, Moved, Ready,
};
use ice_messages::IceMessage;
use ice_values::{ErrorClass, Severity, Text16, Version};
use owned_lists::NoMemory;
use std::alloc::Global;

impl AwaitOrder {
    /// Takes the message with this number of its sender. ByteOrder says the order of the client's
    /// numbers, and no other message has its place here.
    pub fn take(
        self,
        alloc: Global,
        message: IceMessage,
        sequence: u32,
    ) -> Result<Moved, (AwaitOrder, NoMemory)>
        ensures exact { MatchResult result (λ m. m
            ≡ moved (AnySetup.AwaitOrder self) message sequence) (λ e. e.0 ≡ self) }
        ensures said { (e : AnyEndian) → HasFittingBody e message → IfOk result CanBeSaid }
    {
        let offending = named(&message, sequence);
        match &message {
            IceMessage::ByteOrder(endian) => {
                let cookie = self.cookie;
                let next = AnySetup::AwaitSetup(AwaitSetup {
                    cookie,
                    endian: *endian,
                });
                Ok(Moved::Goes(next, None))
            }
            _ => Ok(out_of_place(alloc, AnySetup::AwaitOrder(self), offending)),
        }
    }
}

impl AwaitSetup {
    fn take_offer(
        self,
        alloc: Global,
        names: &[Text16],
        versions: &[Version],
        offending: Offending,
    ) -> Moved
        ensures { result ≡ connection_offer self (first_version_spec versions.now)
            (first_cookie_name_spec names.now) offending }
    {
        let fatal = Severity::FatalToConnection;
        let Some(version) = first_version(versions) else {
            return Moved::Ends(Some(bare_error(alloc, fatal, ErrorClass::NoVersion, offending)));
        };
        let Some(name) = first_cookie_name(names) else {
            return Moved::Ends(Some(bare_error(
                alloc,
                fatal,
                ErrorClass::NoAuthentication,
                offending,
            )));
        };
        let next = AwaitCookie {
            cookie: self.cookie,
            endian: self.endian,
            version,
        };
        Moved::Goes(AnySetup::AwaitCookie(next), Some(asks_cookie(alloc, name)))
    }

    /// Takes the message with this number of its sender. A ConnectionSetup with a version 1.0 and
    /// with the cookie's authentication protocol is asked for the cookie.
    pub fn take(
        self,
        alloc: Global,
        message: IceMessage,
        sequence: u32,
    ) -> Result<Moved, (AwaitSetup, NoMemory)>
        ensures exact { MatchResult result (λ m. m
            ≡ moved (AnySetup.AwaitSetup self) message sequence) (λ e. e.0 ≡ self) }
        ensures said { (e : AnyEndian) → HasFittingBody e message → IfOk result CanBeSaid }
    {
        let offending = named(&message, sequence);
        match &message {
            IceMessage::ConnectionSetup {
                names,
                versions,
                ..
            } => Ok(self.take_offer(alloc, names.as_slice(), versions.as_slice(), offending)),
            _ => Ok(take_other(alloc, AnySetup::AwaitSetup(self), &message, offending)),
        }
    }
}

impl AwaitCookie {
    fn take_proof(
        self,
        alloc: Global,
        proof: &[u8],
        offending: Offending,
    ) -> Result<Moved, (AwaitCookie, NoMemory)>
        ensures { MatchResult result (λ m. m ≡ cookie_cell self (AReply proof.now) offending) (λ e.
            e.0 ≡ self) }
    {
        if !self.cookie.matches(proof) {
            return match rejection(alloc, offending) {
                Ok(rejected) => Ok(Moved::Ends(Some(rejected))),
                Err(error) => Err((self, error)),
            };
        }
        match connection_reply(alloc, self.version) {
            Ok(reply) => {
                let next = AwaitProtocol {
                    cookie: self.cookie,
                    endian: self.endian,
                };
                Ok(Moved::Goes(AnySetup::AwaitProtocol(next), Some(reply)))
            }
            Err(error) => Err((self, error)),
        }
    }

    /// Takes the message with this number of its sender. An AuthenticationReply with the cookie
    /// connects, and with anything else it ends the connection.
    pub fn take(
        self,
        alloc: Global,
        message: IceMessage,
        sequence: u32,
    ) -> Result<Moved, (AwaitCookie, NoMemory)>
        ensures exact { MatchResult result (λ m. m
            ≡ moved (AnySetup.AwaitCookie self) message sequence) (λ e. e.0 ≡ self) }
        ensures said { (e : AnyEndian) → HasFittingBody e message → IfOk result CanBeSaid }
    {
        let offending = named(&message, sequence);
        match &message {
            IceMessage::AuthenticationReply { proof } => {
                self.take_proof(alloc, proof.as_slice(), offending)
            }
            _ => Ok(take_other(alloc, AnySetup::AwaitCookie(self), &message, offending)),
        }
    }
}

impl AwaitProtocol {
    fn take_offer(
        self,
        alloc: Global,
        opcode: u8,
        offer: Offer,
        offending: Offending,
    ) -> Result<Moved, (AwaitProtocol, NoMemory)>
        ensures exact { MatchResult result (λ m. m
            ≡ protocol_offer self opcode offer.must offer.version offer.name offending) (λ e.
            e.0 ≡ self) }
        ensures said { IfOk result CanBeSaid }
    {
        let severity = Severity::FatalToProtocol;
        let Some(version) = offer.version else {
            let error = bare_error(alloc, severity, ErrorClass::NoVersion, offending);
            return Ok(Moved::Goes(AnySetup::AwaitProtocol(self), Some(error)));
        };
        let cookie = self.cookie;
        let endian = self.endian;
        if let Some(name) = offer.name {
            let next = AwaitProtocolCookie {
                cookie,
                endian,
                opcode,
                version,
            };
            let asks = asks_cookie(alloc, name);
            return Ok(Moved::Goes(AnySetup::AwaitProtocolCookie(next), Some(asks)));
        }
        if offer.must {
            let error = bare_error(alloc, severity, ErrorClass::NoAuthentication, offending);
            return Ok(Moved::Goes(AnySetup::AwaitProtocol(self), Some(error)));
        }
        match protocol_reply(alloc, version) {
            Ok(reply) => {
                let next = Ready {
                    cookie,
                    endian,
                    opcode,
                };
                Ok(Moved::Goes(AnySetup::Ready(next), Some(reply)))
            }
            Err(error) => Err((self, error)),
        }
    }

    fn take_setup(
        self,
        alloc: Global,
        opcode: u8,
        protocol: &Text16,
        offer: Offer,
        offending: Offending,
    ) -> Result<Moved, (AwaitProtocol, NoMemory)>
        ensures exact { MatchResult result (λ m. m
            ≡ protocol_setup self opcode protocol.now offer.must offer.version offer.name offending)
            (λ e. e.0 ≡ self) }
        ensures said { length (text_values protocol.now) ≤ 65528 → IfOk result CanBeSaid }
    {
        if opcode == 0 {
            return match opcode_error(alloc, opcode, offending) {
                Ok(error) => Ok(Moved::Goes(AnySetup::AwaitProtocol(self), Some(error))),
                Err(error) => Err((self, error)),
            };
        }
        if !is_xsmp(protocol) {
            return match protocol_error(alloc, ErrorClass::UnknownProtocol, protocol, offending) {
                Ok(error) => Ok(Moved::Goes(AnySetup::AwaitProtocol(self), Some(error))),
                Err(error) => Err((self, error)),
            };
        }
        self.take_offer(alloc, opcode, offer, offending)
    }

    /// Takes the message with this number of its sender. A ProtocolSetup for XSMP is asked for the
    /// cookie, or answered at once where it neither knows the cookie's authentication protocol nor
    /// wants authentication.
    pub fn take(
        self,
        alloc: Global,
        message: IceMessage,
        sequence: u32,
    ) -> Result<Moved, (AwaitProtocol, NoMemory)>
        ensures exact { MatchResult result (λ m. m
            ≡ moved (AnySetup.AwaitProtocol self) message sequence) (λ e. e.0 ≡ self) }
        ensures said { (e : AnyEndian) → HasFittingBody e message → IfOk result CanBeSaid }
    {
        let offending = named(&message, sequence);
        match &message {
            IceMessage::ProtocolSetup {
                opcode,
                must,
                protocol,
                names,
                versions,
                ..
            } => {
                let offer = read_offer(*must, names.as_slice(), versions.as_slice());
                self.take_setup(alloc, *opcode, protocol, offer, offending)
            }
            _ => Ok(take_other(alloc, AnySetup::AwaitProtocol(self), &message, offending)),
        }
    }
}

impl AwaitProtocolCookie {
    fn take_proof(
        self,
        alloc: Global,
        proof: &[u8],
        offending: Offending,
    ) -> Result<Moved, (AwaitProtocolCookie, NoMemory)>
        ensures { MatchResult result (λ m.
            m ≡ protocol_cookie_cell self (AReply proof.now) offending) (λ e. e.0 ≡ self) }
    {
        if !self.cookie.matches(proof) {
            return match rejection(alloc, offending) {
                Ok(error) => Ok(Moved::Ends(Some(error))),
                Err(error) => Err((self, error)),
            };
        }
        match protocol_reply(alloc, self.version) {
            Ok(reply) => {
                let next = Ready {
                    cookie: self.cookie,
                    endian: self.endian,
                    opcode: self.opcode,
                };
                Ok(Moved::Goes(AnySetup::Ready(next), Some(reply)))
            }
            Err(error) => Err((self, error)),
        }
    }

    /// Takes the message with this number of its sender. An AuthenticationReply with the cookie
    /// begins XSMP, and with anything else it ends the connection.
    pub fn take(
        self,
        alloc: Global,
        message: IceMessage,
        sequence: u32,
    ) -> Result<Moved, (AwaitProtocolCookie, NoMemory)>
        ensures exact { MatchResult result (λ m. m
            ≡ moved (AnySetup.AwaitProtocolCookie self) message sequence) (λ e. e.0 ≡ self) }
        ensures said { (e : AnyEndian) → HasFittingBody e message → IfOk result CanBeSaid }
    {
        let offending = named(&message, sequence);
        match &message {
            IceMessage::AuthenticationReply { proof } => {
                self.take_proof(alloc, proof.as_slice(), offending)
            }
            _ => {
                let state = AnySetup::AwaitProtocolCookie(self);
                Ok(take_other(alloc, state, &message, offending))
            }
        }
    }
}

impl Ready {
    fn take_setup(
        self,
        alloc: Global,
        opcode: u8,
        protocol: &Text16,
        offending: Offending,
    ) -> Result<Moved, (Ready, NoMemory)>
        ensures exact { MatchResult result (λ m. m ≡ ready_setup self opcode protocol.now offending)
            (λ e. e.0 ≡ self) }
        ensures said { length (text_values protocol.now) ≤ 65528 → IfOk result CanBeSaid }
    {
        if opcode == 0 || opcode == self.opcode {
            return match opcode_error(alloc, opcode, offending) {
                Ok(error) => Ok(Moved::Goes(AnySetup::Ready(self), Some(error))),
                Err(error) => Err((self, error)),
            };
        }
        let class = if is_xsmp(protocol) {
            ErrorClass::ProtocolDuplicate
        } else {
            ErrorClass::UnknownProtocol
        };
        match protocol_error(alloc, class, protocol, offending) {
            Ok(error) => Ok(Moved::Goes(AnySetup::Ready(self), Some(error))),
            Err(error) => Err((self, error)),
        }
    }

    /// Takes the message with this number of its sender. Each ProtocolSetup is refused.
    pub fn take(
        self,
        alloc: Global,
        message: IceMessage,
        sequence: u32,
    ) -> Result<Moved, (Ready, NoMemory)>
        ensures exact { MatchResult result (λ m. m ≡ moved (AnySetup.Ready self) message sequence)
            (λ e. e.0 ≡ self) }
        ensures said { (e : AnyEndian) → HasFittingBody e message → IfOk result CanBeSaid }
    {
        let offending = named(&message, sequence);
        match &message {
            IceMessage::ProtocolSetup {
                opcode,
                protocol,
                ..
            } => { self.take_setup(alloc, *opcode, protocol, offending) }
            _ => Ok(take_other(alloc, AnySetup::Ready(self), &message, offending)),
        }
    }
}

impl AnySetup {
    /// Takes the message with this number of its sender, in whichever state the connection is.
    pub fn take(
        self,
        alloc: Global,
        message: IceMessage,
        sequence: u32,
    ) -> Result<Moved, (AnySetup, NoMemory)>
        ensures exact { MatchResult result (λ m. m ≡ moved self message sequence) (λ e.
            e.0 ≡ self) }
        ensures said { (e : AnyEndian) → HasFittingBody e message → IfOk result CanBeSaid }
    {
        match self {
            AnySetup::AwaitOrder(state) => match state.take(alloc, message, sequence) {
                Ok(moved) => Ok(moved),
                Err(kept) => Err((AnySetup::AwaitOrder(kept.0), kept.1)),
            },
            AnySetup::AwaitSetup(state) => match state.take(alloc, message, sequence) {
                Ok(moved) => Ok(moved),
                Err(kept) => Err((AnySetup::AwaitSetup(kept.0), kept.1)),
            },
            AnySetup::AwaitCookie(state) => match state.take(alloc, message, sequence) {
                Ok(moved) => Ok(moved),
                Err(kept) => Err((AnySetup::AwaitCookie(kept.0), kept.1)),
            },
            AnySetup::AwaitProtocol(state) => match state.take(alloc, message, sequence) {
                Ok(moved) => Ok(moved),
                Err(kept) => Err((AnySetup::AwaitProtocol(kept.0), kept.1)),
            },
            AnySetup::AwaitProtocolCookie(state) => match state.take(alloc, message, sequence) {
                Ok(moved) => Ok(moved),
                Err(kept) => Err((AnySetup::AwaitProtocolCookie(kept.0), kept.1)),
            },
            AnySetup::Ready(state) => match state.take(alloc, message, sequence) {
                Ok(moved) => Ok(moved),
                Err(kept) => Err((AnySetup::Ready(kept.0), kept.1)),
            },
        }
    }
}
