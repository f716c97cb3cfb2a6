ghost use Rattle.std.specs.Prelude.{◌≡◌, IfOk};
ghost use Rattle.window_follower.specs.Facts.{fact_of, first_named as named_first, first_number as number_first, is_among as among, items_of, number_fact as fact_of_numbers, numbers_of, purpose_in, state_of, text_fact as fact_of_text, text_of};

use crate::facts::{Fact, WindowState};
use crate::{Atoms, Name, NumberProperty, TextProperty, WindowProperty, WindowType, Word};
use display_messages::{Property, Reply, WindowList, read_longs};
use owned_lists::{NoMemory, Octets};
use std::alloc::Global;

/// The numbers of a property.
fn read_items(alloc: Global, property: &Property) -> Result<WindowList, NoMemory>
    ensures { IfOk result (λ numbers. numbers ≡ items_of property.now) }
{
    if property.format == 32 && property.after == 0 {
        let bytes = property.value.as_slice();
        return read_longs(alloc, bytes.len() / 4, bytes);
    }
    Ok(WindowList::new(alloc))
}

/// The numbers of a property, where the reply has one of numbers of 32 bits that came whole.
pub fn read_numbers(alloc: Global, reply: &Reply) -> Result<WindowList, NoMemory>
    ensures { IfOk result (λ numbers. numbers ≡ numbers_of reply.now) }
{
    match reply {
        Reply::Property(property) => read_items(alloc, property),
        _ => Ok(WindowList::new(alloc)),
    }
}

/// The bytes of a property, where the reply has one of bytes that came whole.
fn read_text(reply: Reply) -> Option<Octets>
    ensures { result ≡ text_of reply }
{
    match reply {
        Reply::Atom(_) => None,
        Reply::NoProperty => None,
        Reply::Attributes(_) => None,
        Reply::Tree { .. } => None,
        Reply::Mark => None,
        Reply::Extension(_) => None,
        Reply::ResourceVersion { .. } => None,
        Reply::Process(_) => None,
        Reply::NotUnderstood => None,
        Reply::Property(property) => {
            if property.format == 8 && property.after == 0 {
                Some(property.value)
            } else {
                None
            }
        }
    }
}

fn first_number(numbers: &[u32]) -> Option<u32>
    ensures { result ≡ number_first numbers.now }
{
    numbers.first().copied()
}

/// The first number; none where it is 0.
pub(crate) fn first_named(numbers: &[u32]) -> Option<u32>
    ensures { result ≡ named_first numbers.now }
{
    first_number(numbers).filter(|number| *number != 0)
}

fn read_state(numbers: &[u32]) -> WindowState
    ensures { result ≡ state_of numbers.now }
{
    match first_number(numbers) {
        None => WindowState::Withdrawn,
        Some(0) => WindowState::Withdrawn,
        Some(1) => WindowState::Normal,
        Some(3) => WindowState::Iconic,
        Some(_) => WindowState::Other,
    }
}

fn is_among(atom: u32, numbers: &[u32]) -> bool
    ensures { result ≡ among atom numbers.now }
{
    numbers.iter().any(|number| *number == atom)
}

/// The first type of windows that is known.
fn read_purpose(atoms: &Atoms, numbers: &[u32]) -> Option<WindowType>
    ensures { result ≡ purpose_in atoms.now numbers.now }
{
    for number in numbers {
        if let Some(kind) = atoms.window_type(*number) {
            return Some(kind);
        }
    }
    None
}

/// What a property of a text says.
fn text_fact(property: TextProperty, text: Option<Octets>) -> Fact
    ensures { result ≡ fact_of_text property text }
{
    match property {
        TextProperty::OldTitle => Fact::OldTitle(text),
        TextProperty::Title => Fact::Title(text),
        TextProperty::Machine => Fact::Machine(text),
        TextProperty::ClientId => Fact::ClientId(text),
    }
}

/// What a property of numbers says.
fn number_fact(atoms: &Atoms, property: NumberProperty, numbers: &[u32]) -> Fact
    ensures { result ≡ fact_of_numbers atoms.now property numbers.now }
{
    match property {
        NumberProperty::State => Fact::State(read_state(numbers)),
        NumberProperty::Protocols => Fact::Protocols {
            deletes: is_among(atoms.atom(Name::Word(Word::DeleteWindow)), numbers),
            pings: is_among(atoms.atom(Name::Word(Word::Ping)), numbers),
        },
        NumberProperty::Leader => Fact::Leader(first_named(numbers)),
        NumberProperty::TransientFor => Fact::TransientFor(first_named(numbers)),
        NumberProperty::Types => Fact::Purpose(read_purpose(atoms, numbers)),
        NumberProperty::States => {
            Fact::Modal(is_among(atoms.atom(Name::Word(Word::Modal)), numbers))
        }
        NumberProperty::UserTime => Fact::UserTime(first_number(numbers)),
        NumberProperty::UserTimeWindow => Fact::UserTimeWindow(first_named(numbers)),
        NumberProperty::Process => Fact::Stated(first_named(numbers)),
    }
}

/// What the reply to a question for a window's property says of the window.
pub fn read_fact(
    alloc: Global,
    atoms: &Atoms,
    property: WindowProperty,
    reply: Reply,
) -> Result<Fact, NoMemory>
    ensures { IfOk result (λ fact. fact ≡ fact_of atoms.now property reply) }
{
    match property {
        WindowProperty::Text(property) => Ok(text_fact(property, read_text(reply))),
        WindowProperty::Numbers(property) => {
            let numbers = read_numbers(alloc, &reply)?;
            Ok(number_fact(atoms, property, numbers.as_slice()))
        }
    }
}
