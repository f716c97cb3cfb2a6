ghost use Rattle.std.specs.Prelude.{◌≡◌, ◌≤◌, length, map, IfOk};
ghost use Rattle.window_follower.specs.Atoms.{atom_of};
ghost use Rattle.window_follower.specs.Questions.{property_request, request_of as made_of};
ghost use Rattle.window_follower.specs.declared.names.Name.TheVariants.{Property as OfWindow};
ghost use Rattle.window_follower.specs.declared.names.WindowProperty.TheVariants.{Numbers};
ghost use Rattle.window_follower.specs.declared.names.NumberProperty.TheVariants.{Protocols};
ghost use Rattle.window_follower.specs.declared.question.Question.TheVariants.{Close, Ping, Show};
ghost use Rattle.display_messages.specs.declared.request.Request.TheVariants.{SendEvent};

use crate::{Atoms, Name, NumberProperty, Question, WindowProperty, Word, spelling};
use display_messages::{ClientMessage, Request, SUBSTRUCTURE_NOTIFY, SUBSTRUCTURE_REDIRECT};
use ice_values::Text16;
use owned_lists::{ListOf, NoMemory};
use std::alloc::Global;

/// How much of a property is asked for, in units of 4 bytes.
const LIMIT: u32 = 16_384;

/// Requests in the order in which they are sent.
pub type RequestList = ListOf<Request>;

fn text(alloc: Global, name: &[u8]) -> Result<Text16, NoMemory>
    requires { length name.now ≤ 40 }
    ensures { IfOk result (λ text. text ≡ name.now) }
{
    Ok(Text16::from_vec(Vec::from_slice(alloc, name)?))
}

fn property(window: u32, property: u32) -> Request
    ensures { result ≡ property_request window property }
{
    Request::GetProperty {
        window,
        property,
        limit: LIMIT,
    }
}

/// A message to a window itself.
fn message(window: u32, message: ClientMessage) -> Request
    ensures { result ≡ SendEvent window 0 message }
{
    Request::SendEvent {
        window,
        events: 0,
        message,
    }
}

fn protocols(atoms: &Atoms) -> u32
    ensures { result ≡ atom_of atoms.now (OfWindow (Numbers Protocols)) }
{
    atoms.atom(Name::Property(WindowProperty::Numbers(NumberProperty::Protocols)))
}

fn close(atoms: &Atoms, window: u32) -> Request
    ensures { result ≡ made_of atoms.now (Close window) }
{
    let delete_window = atoms.atom(Name::Word(Word::DeleteWindow));
    message(
        window,
        ClientMessage::close(window, protocols(atoms), delete_window),
    )
}

fn ping(atoms: &Atoms, window: u32, stamp: u32) -> Request
    ensures { result ≡ made_of atoms.now (Ping window stamp) }
{
    let ping = atoms.atom(Name::Word(Word::Ping));
    message(
        window,
        ClientMessage::ping(window, protocols(atoms), ping, stamp),
    )
}

fn show(atoms: &Atoms, root: u32, window: u32) -> Request
    ensures { result ≡ made_of atoms.now (Show root window) }
{
    let active_window = atoms.atom(Name::Word(Word::ActiveWindow));
    Request::SendEvent {
        window: root,
        events: SUBSTRUCTURE_REDIRECT + SUBSTRUCTURE_NOTIFY,
        message: ClientMessage::activate(window, active_window),
    }
}

/// The request that asks a question.
pub fn request_of(alloc: Global, atoms: &Atoms, question: Question) -> Result<Request, NoMemory>
    ensures { IfOk result (λ request. request ≡ made_of atoms.now question) }
{
    match question {
        Question::Atom(name) => Ok(Request::InternAtom {
            name: text(alloc, spelling(name))?,
        }),
        Question::Extension => Ok(Request::QueryExtension {
            name: text(alloc, b"X-Resource")?,
        }),
        Question::Version { opcode } => Ok(Request::QueryResourceVersion { opcode }),
        Question::Watch { window, events } => Ok(Request::ChangeWindowAttributes {
            window,
            events,
        }),
        Question::Property {
            window,
            property: asked,
        } => Ok(property(window, atoms.atom(Name::Property(asked)))),
        Question::Root {
            window,
            property: asked,
        } => Ok(property(window, atoms.atom(Name::Root(asked)))),
        Question::Events { window } => Ok(Request::GetWindowAttributes { window }),
        Question::Process { opcode, window } => Ok(Request::QueryClientIds { opcode, window }),
        Question::Children { window, .. } => Ok(Request::QueryTree { window }),
        Question::Managed { window, .. } => Ok(property(
            window,
            atoms.atom(Name::Property(WindowProperty::Numbers(NumberProperty::State))),
        )),
        Question::Shown { window } => Ok(Request::GetWindowAttributes { window }),
        Question::Close { window } => Ok(close(atoms, window)),
        Question::Show { root, window } => Ok(show(atoms, root, window)),
        Question::Ping { window, stamp } => Ok(ping(atoms, window, stamp)),
        Question::Mark { .. } => Ok(Request::GetInputFocus),
    }
}

/// The requests that ask some questions, in their order.
pub fn requests_of(
    alloc: Global,
    atoms: &Atoms,
    questions: &[Question],
) -> Result<RequestList, NoMemory>
    ensures { IfOk result (λ requests. requests ≡ map (made_of atoms.now) questions.now) }
{
    let mut requests = RequestList::new(alloc);
    for question in questions {
        requests.push(request_of(alloc, atoms, *question)?)?;
    }
    Ok(requests)
}
