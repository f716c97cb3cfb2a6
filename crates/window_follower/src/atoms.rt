ghost use Rattle.std.specs.Prelude.{◌≡◌, ◌∷◌, [], ◌++◌, ◌==◌, find, slice_index, OnOk, OnErr};
ghost use Rattle.window_follower.specs.Names.{number_place, place as place_of, property_place, text_place, type_place, word_place, window_properties, root_properties, window_types};
ghost use Rattle.window_follower.specs.declared.names.Name.TheVariants.{Property as OfWindow, Root as OfRoot, OfType};
ghost use Rattle.window_follower.specs.Atoms.{atom_of, property_named, root_property_named, type_named};

use crate::{Name, NumberProperty, RootProperty, TextProperty, WindowProperty, WindowType, Word};
use owned_lists::{ListOf, NoMemory};
use std::alloc::Global;
use std::marker::Model;

/// The properties of windows that are asked for.
pub(crate) const WINDOW_PROPERTIES: [WindowProperty; 13] = [
    WindowProperty::Numbers(NumberProperty::State),
    WindowProperty::Numbers(NumberProperty::Protocols),
    WindowProperty::Numbers(NumberProperty::Leader),
    WindowProperty::Numbers(NumberProperty::TransientFor),
    WindowProperty::Text(TextProperty::OldTitle),
    WindowProperty::Text(TextProperty::Title),
    WindowProperty::Text(TextProperty::Machine),
    WindowProperty::Text(TextProperty::ClientId),
    WindowProperty::Numbers(NumberProperty::Types),
    WindowProperty::Numbers(NumberProperty::States),
    WindowProperty::Numbers(NumberProperty::UserTime),
    WindowProperty::Numbers(NumberProperty::UserTimeWindow),
    WindowProperty::Numbers(NumberProperty::Process),
];

const ROOT_PROPERTIES: [RootProperty; 2] = [RootProperty::Check, RootProperty::Windows];

const WINDOW_TYPES: [WindowType; 14] = [
    WindowType::Normal,
    WindowType::Dialog,
    WindowType::Dock,
    WindowType::Desktop,
    WindowType::Splash,
    WindowType::Utility,
    WindowType::Toolbar,
    WindowType::Menu,
    WindowType::DropdownMenu,
    WindowType::PopupMenu,
    WindowType::Tooltip,
    WindowType::Notification,
    WindowType::Combo,
    WindowType::DragAndDrop,
];

/// The names in the order in which their atoms are asked for.
pub(crate) const EVERY_NAME: [Name; 33] = [
    Name::Property(WindowProperty::Numbers(NumberProperty::State)),
    Name::Property(WindowProperty::Numbers(NumberProperty::Protocols)),
    Name::Property(WindowProperty::Numbers(NumberProperty::Leader)),
    Name::Property(WindowProperty::Numbers(NumberProperty::TransientFor)),
    Name::Property(WindowProperty::Text(TextProperty::OldTitle)),
    Name::Property(WindowProperty::Text(TextProperty::Title)),
    Name::Property(WindowProperty::Text(TextProperty::Machine)),
    Name::Property(WindowProperty::Text(TextProperty::ClientId)),
    Name::Property(WindowProperty::Numbers(NumberProperty::Types)),
    Name::Property(WindowProperty::Numbers(NumberProperty::States)),
    Name::Property(WindowProperty::Numbers(NumberProperty::UserTime)),
    Name::Property(WindowProperty::Numbers(NumberProperty::UserTimeWindow)),
    Name::Property(WindowProperty::Numbers(NumberProperty::Process)),
    Name::Root(RootProperty::Check),
    Name::Root(RootProperty::Windows),
    Name::OfType(WindowType::Normal),
    Name::OfType(WindowType::Dialog),
    Name::OfType(WindowType::Dock),
    Name::OfType(WindowType::Desktop),
    Name::OfType(WindowType::Splash),
    Name::OfType(WindowType::Utility),
    Name::OfType(WindowType::Toolbar),
    Name::OfType(WindowType::Menu),
    Name::OfType(WindowType::DropdownMenu),
    Name::OfType(WindowType::PopupMenu),
    Name::OfType(WindowType::Tooltip),
    Name::OfType(WindowType::Notification),
    Name::OfType(WindowType::Combo),
    Name::OfType(WindowType::DragAndDrop),
    Name::Word(Word::DeleteWindow),
    Name::Word(Word::Ping),
    Name::Word(Word::Modal),
    Name::Word(Word::ActiveWindow),
];

fn text_at(property: TextProperty) -> usize
    ensures { result ≡ text_place property }
{
    match property {
        TextProperty::OldTitle => 4,
        TextProperty::Title => 5,
        TextProperty::Machine => 6,
        TextProperty::ClientId => 7,
    }
}

fn number_at(property: NumberProperty) -> usize
    ensures { result ≡ number_place property }
{
    match property {
        NumberProperty::State => 0,
        NumberProperty::Protocols => 1,
        NumberProperty::Leader => 2,
        NumberProperty::TransientFor => 3,
        NumberProperty::Types => 8,
        NumberProperty::States => 9,
        NumberProperty::UserTime => 10,
        NumberProperty::UserTimeWindow => 11,
        NumberProperty::Process => 12,
    }
}

fn property_at(property: WindowProperty) -> usize
    ensures { result ≡ property_place property }
{
    match property {
        WindowProperty::Text(property) => text_at(property),
        WindowProperty::Numbers(property) => number_at(property),
    }
}

fn type_at(kind: WindowType) -> usize
    ensures { result ≡ type_place kind }
{
    match kind {
        WindowType::Normal => 15,
        WindowType::Dialog => 16,
        WindowType::Dock => 17,
        WindowType::Desktop => 18,
        WindowType::Splash => 19,
        WindowType::Utility => 20,
        WindowType::Toolbar => 21,
        WindowType::Menu => 22,
        WindowType::DropdownMenu => 23,
        WindowType::PopupMenu => 24,
        WindowType::Tooltip => 25,
        WindowType::Notification => 26,
        WindowType::Combo => 27,
        WindowType::DragAndDrop => 28,
    }
}

fn word_at(word: Word) -> usize
    ensures { result ≡ word_place word }
{
    match word {
        Word::DeleteWindow => 29,
        Word::Ping => 30,
        Word::Modal => 31,
        Word::ActiveWindow => 32,
    }
}

fn place(name: Name) -> usize
    ensures { result ≡ place_of name }
{
    match name {
        Name::Property(property) => property_at(property),
        Name::Root(RootProperty::Check) => 13,
        Name::Root(RootProperty::Windows) => 14,
        Name::OfType(kind) => type_at(kind),
        Name::Word(word) => word_at(word),
    }
}

/// The first of some properties of windows that has an atom.
fn first_property(atoms: &Atoms, properties: &[WindowProperty], atom: u32) -> Option<WindowProperty>
    ensures { result ≡ find (λ property. atom_of atoms.now (OfWindow property) == atom) properties.now }
{
    properties
        .iter()
        .copied()
        .find(|property| atoms.atom(Name::Property(*property)) == atom)
}

fn first_root_property(
    atoms: &Atoms,
    properties: &[RootProperty],
    atom: u32,
) -> Option<RootProperty>
    ensures { result ≡ find (λ property. atom_of atoms.now (OfRoot property) == atom) properties.now }
{
    properties
        .iter()
        .copied()
        .find(|property| atoms.atom(Name::Root(*property)) == atom)
}

fn first_type(atoms: &Atoms, types: &[WindowType], atom: u32) -> Option<WindowType>
    ensures { result ≡ find (λ kind. atom_of atoms.now (OfType kind) == atom) types.now }
{
    types
        .iter()
        .copied()
        .find(|kind| atoms.atom(Name::OfType(*kind)) == atom)
}

/// The atoms that a display has for names, in the order in which they were asked for.
#[derive(Debug, Drop)]
pub struct Atoms {
    numbers: ListOf<u32>,
}

impl Model for Atoms {
    ghost use Rattle.std.specs.Prelude.{List, ℕ};

    ghost Value = { List ℕ };

    ghost view = { λ atoms. atoms.numbers };
}

impl Atoms {
    /// None are known; this takes no memory.
    pub fn new(alloc: Global) -> Atoms
        ensures { result ≡ [] }
    {
        Atoms {
            numbers: ListOf::new(alloc),
        }
    }

    /// The next name has this atom.
    pub fn push(&mut self, atom: u32) -> Result<(), NoMemory>
        ensures ok { OnOk result (self.new ≡ self.old ++ atom ∷ []) }
        ensures err { OnErr result (self.new ≡ self.old) }
    {
        self.numbers.push(atom)
    }

    /// The atom of a name; 0, which is no atom, where it isn't known.
    pub fn atom(&self, name: Name) -> u32
        ensures { result ≡ atom_of self.now name }
    {
        self.numbers
            .as_slice()
            .get(place(name))
            .copied()
            .unwrap_or(0)
    }

    /// The property of a window that has this atom.
    pub fn property(&self, atom: u32) -> Option<WindowProperty>
        ensures { result ≡ property_named self.now atom }
    {
        first_property(self, &WINDOW_PROPERTIES, atom)
    }

    /// The property of the root that has this atom.
    pub fn root_property(&self, atom: u32) -> Option<RootProperty>
        ensures { result ≡ root_property_named self.now atom }
    {
        first_root_property(self, &ROOT_PROPERTIES, atom)
    }

    /// The type of windows that has this atom.
    pub fn window_type(&self, atom: u32) -> Option<WindowType>
        ensures { result ≡ type_named self.now atom }
    {
        first_type(self, &WINDOW_TYPES, atom)
    }
}
