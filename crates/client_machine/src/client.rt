ghost use Rattle.std.specs.Prelude.{◌≡◌, None, Some, Ok, IfOk, OnOk, OnErr, MatchOption, MatchResult};
ghost use Rattle.xsmp_messages.specs.declared.message.XsmpMessage.TheVariants.{Error as AnError, RegisterClient, RegisterClientReply, SaveYourself, Interact, SaveYourselfPhase2, SaveComplete, ShutdownCancelled, Die, GetPropertiesReply};
ghost use Rattle.client_machine.specs.declared.saves.Stage.TheVariants.{First};
ghost use Rattle.client_machine.specs.Taking.{act_taken, taken, registers_again};
ghost use Rattle.client_machine.specs.Asking.{may_ask as may_ask_spec, answered, after_asked};
ghost use Rattle.client_machine.specs.Phases.{id_of, phase_said};
ghost use Rattle.client_machine.specs.Saves.{first_ask};
ghost use Rattle.client_machine.specs.declared.acts.ClientAct.TheVariants.{Save as ASave};

use crate::{AskRefusal, ClientAct, ClientPhase, Request, SaveAsk, Stage};
use ice_values::{Array8, ErrorBody, ErrorClass, PropertyList, SaveKind, SaveStyle, Severity};
use owned_lists::{Duplicate, NoMemory};
use std::alloc::Global;
use std::marker::Model;
use xsmp_messages::XsmpMessage;

/// The minor opcode of RegisterClient (XSMP, chapter 10).
const REGISTER_CLIENT: u8 = 1;

/// A client on a connection on which XSMP has begun.
#[derive(Drop)]
pub struct Client {
    alloc: Global,
    phase: ClientPhase,
    /// Its ID, or while it registers the previous ID that it has sent.
    id: Array8,
    /// The last save that it was asked for; before the first one, that of a new client.
    asked: SaveAsk,
}

impl Model for Client {
    ghost use Rattle.client_machine.specs.Phases.{ClientState};

    ghost Value = { ClientState };

    ghost view = { λ c. record { phase = c.phase; id = c.id; asked = c.asked } };
}

impl Client {
    /// A client that registers with the ID that it had in an earlier session, or with nothing, and
    /// the RegisterClient that it is to send.
    pub fn register(alloc: Global, previous: Array8) -> Result<(Client, XsmpMessage), NoMemory>
        ensures client { IfOk result (λ r.
            r.0 ≡ record { phase = ClientPhase.Registering; id = previous; asked = first_ask }) }
        ensures message { IfOk result (λ r. r.1 ≡ RegisterClient previous) }
    {
        let message = XsmpMessage::RegisterClient {
            previous: previous.copy()?,
        };
        let client = Client {
            alloc,
            phase: ClientPhase::Registering,
            id: previous,
            asked: SaveAsk {
                stage: Stage::First,
                kind: SaveKind::Local,
                shutdown: false,
                style: SaveStyle::Nothing,
                fast: false,
            },
        };
        Ok((client, message))
    }

    pub fn phase(&self) -> ClientPhase
        ensures { result ≡ self.now.phase }
    {
        self.phase
    }

    /// The ID that the manager gave it; none before that, nor once the client is dead.
    pub fn id(&self) -> Option<&[u8]>
        ensures { MatchOption result (id_of self.now ≡ None) (λ id. id_of self.now ≡ Some id.now) }
    {
        if self.phase.is_registered() {
            Some(self.id.as_slice())
        } else {
            None
        }
    }

    /// Whether a request has its place.
    fn may_ask(&self, request: &Request) -> bool
        ensures { result ≡ may_ask_spec request.now self.now }
    {
        match request {
            Request::Done(_) => self.phase.is_saving() || self.phase.is_owing(),
            Request::PhaseTwo => self.phase.is_first_saving(),
            Request::Interact(dialog) => self.phase.is_saving() && self.asked.allows(*dialog),
            Request::InteractDone(cancel) => {
                self.phase.is_interacting() && (self.asked.shutdown || !*cancel)
            }
            Request::Save(wanted) => {
                self.phase.is_registered() && !(wanted.only.is_some() && wanted.shutdown)
            }
            Request::Set(_) => self.phase.is_registered(),
            Request::Delete(_) => self.phase.is_registered(),
            Request::Get => self.phase.is_registered(),
            Request::Close(_) => !self.phase.is_dead(),
        }
    }

    /// The message that says a request, which the client has sent then. Refused where it has no
    /// place in the client's phase, or in the save that it was asked for (XSMP, chapter 9). This
    /// takes no memory, and a refused call drops the request and changes nothing.
    pub fn ask(&mut self, request: Request) -> Result<XsmpMessage, AskRefusal>
        ensures answer { result ≡ answered request self.old }
        ensures client { self.new ≡ after_asked request self.old }
    {
        if !self.may_ask(&request) {
            return Err(AskRefusal::WrongPhase { phase: self.phase });
        }
        self.phase = self.phase.said(&request);
        Ok(request.message())
    }

    /// An Error of the manager.
    fn take_error(&mut self, error: &ErrorBody) -> ClientAct
        ensures act { result ≡ act_taken (AnError error.now) self.old }
        ensures client { self.new ≡ taken (AnError error.now) self.old }
    {
        if error.severity != Severity::CanContinue {
            self.phase = ClientPhase::Dead;
            return ClientAct::Refused(error.class);
        }
        if !self.registers_again(error) {
            return ClientAct::Nothing;
        }
        let previous = Array8::new(self.alloc);
        self.id = Array8::new(self.alloc);
        ClientAct::Again(XsmpMessage::RegisterClient { previous })
    }

    /// Whether the client registers once more, without an ID.
    fn registers_again(&self, error: &ErrorBody) -> bool
        ensures { result ≡ registers_again error.now self.now }
    {
        error.class == ErrorClass::BadValue.number()
            && error.minor == REGISTER_CLIENT
            && self.phase.is_registering()
            && self.id.len() != 0
    }

    /// The client's ID.
    fn take_id(&mut self, id: Array8) -> Result<ClientAct, NoMemory>
        ensures act { IfOk result (λ act. act ≡ act_taken (RegisterClientReply id) self.old) }
        ensures ok { OnOk result (self.new ≡ taken (RegisterClientReply id) self.old) }
        ensures err { OnErr result (self.new ≡ self.old) }
    {
        if !self.phase.is_registering() {
            return Ok(ClientAct::Unexpected);
        }
        let told = id.copy()?;
        self.id = id;
        self.phase = ClientPhase::Idle;
        Ok(ClientAct::Registered(told))
    }

    /// The client is asked for this, and is in this phase then.
    fn save(&mut self, phase: ClientPhase, ask: SaveAsk) -> ClientAct
        ensures act { result ≡ ASave ask }
        ensures client { self.new ≡ record self.old { phase = phase; asked = ask } }
    {
        self.phase = phase;
        self.asked = ask;
        ClientAct::Save(ask)
    }

    /// A SaveYourself.
    fn take_save(&mut self, ask: SaveAsk) -> ClientAct
        requires { ask.stage ≡ First }
        ensures act { result ≡ act_taken (SaveYourself ask.kind ask.shutdown ask.style ask.fast)
            self.old }
        ensures client { self.new ≡ taken (SaveYourself ask.kind ask.shutdown ask.style ask.fast)
            self.old }
    {
        if !self.phase.is_resting() {
            return ClientAct::Unexpected;
        }
        self.save(ClientPhase::Saving, ask)
    }

    /// The token: the client may talk to the user.
    fn take_token(&mut self) -> ClientAct
        ensures act { result ≡ act_taken Interact self.old }
        ensures client { self.new ≡ taken Interact self.old }
    {
        match self.phase {
            ClientPhase::Asked => {
                self.save(ClientPhase::Interacting, self.asked.at(Stage::Talking))
            }
            ClientPhase::AskedTwo => {
                self.save(
                    ClientPhase::InteractingTwo,
                    self.asked.at(Stage::TalkingTwo),
                )
            }
            _ => ClientAct::Unexpected,
        }
    }

    /// The second phase of the save.
    fn take_second(&mut self) -> ClientAct
        ensures act { result ≡ act_taken SaveYourselfPhase2 self.old }
        ensures client { self.new ≡ taken SaveYourselfPhase2 self.old }
    {
        match self.phase {
            ClientPhase::WantsTwo => {
                self.save(ClientPhase::SavingTwo, self.asked.at(Stage::Second))
            }
            _ => ClientAct::Unexpected,
        }
    }

    /// All clients have saved.
    fn take_complete(&mut self) -> ClientAct
        ensures act { result ≡ act_taken SaveComplete self.old }
        ensures client { self.new ≡ taken SaveComplete self.old }
    {
        match self.phase {
            ClientPhase::Done => {
                self.phase = ClientPhase::Idle;
                ClientAct::Complete
            }
            _ => ClientAct::Nothing,
        }
    }

    /// The save was cancelled.
    fn take_cancel(&mut self) -> ClientAct
        ensures act { result ≡ act_taken ShutdownCancelled self.old }
        ensures client { self.new ≡ taken ShutdownCancelled self.old }
    {
        if !self.phase.is_member() {
            return ClientAct::Nothing;
        }
        self.phase = self.phase.cancelled();
        ClientAct::Cancelled
    }

    /// The client is told to die.
    fn take_die(&mut self) -> ClientAct
        ensures act { result ≡ act_taken Die self.old }
        ensures client { self.new ≡ taken Die self.old }
    {
        if self.phase.is_resting() {
            self.phase = ClientPhase::Dead;
            return ClientAct::Die;
        }
        ClientAct::Unexpected
    }

    /// The client's properties, for which it had asked.
    fn take_properties(&self, list: PropertyList) -> ClientAct
        ensures { result ≡ act_taken (GetPropertiesReply list) self.now }
    {
        if !self.phase.is_registered() {
            return ClientAct::Unexpected;
        }
        ClientAct::Properties(list)
    }

    /// Takes a message from the manager, and says what it asks of the client (XSMP, chapter 9). Want
    /// of memory changes nothing, and the message is spent.
    pub fn take(&mut self, message: XsmpMessage) -> Result<ClientAct, NoMemory>
        ensures act { IfOk result (λ act. act ≡ act_taken message self.old) }
        ensures ok { OnOk result (self.new ≡ taken message self.old) }
        ensures err { OnErr result (self.new ≡ self.old) }
    {
        match message {
            XsmpMessage::Error(error) => Ok(self.take_error(&error)),
            XsmpMessage::RegisterClientReply { id } => self.take_id(id),
            XsmpMessage::SaveYourself {
                kind,
                shutdown,
                style,
                fast,
            } => {
                let stage = Stage::First;
                Ok(self.take_save(SaveAsk {
                    stage,
                    kind,
                    shutdown,
                    style,
                    fast,
                }))
            }
            XsmpMessage::Interact => Ok(self.take_token()),
            XsmpMessage::SaveYourselfPhase2 => Ok(self.take_second()),
            XsmpMessage::SaveComplete => Ok(self.take_complete()),
            XsmpMessage::ShutdownCancelled => Ok(self.take_cancel()),
            XsmpMessage::Die => Ok(self.take_die()),
            XsmpMessage::GetPropertiesReply { properties } => Ok(self.take_properties(properties)),
            _ => Ok(ClientAct::Unexpected),
        }
    }
}
