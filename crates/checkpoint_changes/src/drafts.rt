ghost use Rattle.std.specs.Prelude.{◌≡◌, ◌∷◌, ◌++◌, [], if◌then◌else◌, IsTrue, IfOk, IfSome};
ghost use Rattle.std.specs.List.{list_any};
ghost use Rattle.std.specs.Option.{option_map};
ghost use Rattle.std.specs.Str.{bytes_eq};
ghost use Rattle.std.specs.Cmp.Lexicographic.{pointwise};
ghost use Rattle.checkpoint_records.specs.Books.{all_entries, same_command as is_same};
ghost use Rattle.checkpoint_changes.specs.Changes.{applied as applied_to};
ghost use Rattle.checkpoint_changes.specs.declared.changes.Change.TheVariants.{Pend, Put};
ghost use Rattle.checkpoint_changes.specs.Parts.{HasParts};
ghost use Rattle.checkpoint_changes.specs.Together.{FitBut, FitsIn, PutsIntoName, collides, discards_any, discards_by as is_discarded_by, doubts_after, has_words as are_words_of, is_doubted, last_byte as last_byte_of};

use crate::Change;
use crate::applying::applied;
use crate::rules::{PENDING_LIMIT, all_are_of_runs};
use checkpoint_records::{Book, Entry, Named, is_client_id};
use ice_values::{Array8, Array8List, Property};
use owned_lists::{Command, Duplicate, NoMemory};
use std::alloc::Global;
use xsmp_properties::{are_words, same_bytes, same_texts};

const LIST: &[u8] = b"LISTofARRAY8";

/// A book in the midst of an amendment.
#[derive(Drop)]
pub(crate) struct Draft {
    pub book: Book,
    /// Whether its parts are known to fit together, but for what the entries in doubt name.
    pub fits: bool,
    /// The IDs of the entries that named a pending command as they were put.
    pub doubts: Array8List,
}

/// The last byte of the last of some texts, or 0 where there is none.
fn last_byte(texts: &[Array8]) -> u8
    ensures { result ≡ last_byte_of texts.now }
{
    match texts.last() {
        Some(text) => text.as_slice().last().copied().unwrap_or(0),
        None => 0,
    }
}

/// Whether these are the same words. Commands that differ mostly do at their ends, so these are
/// looked at first.
fn same_words(first: &[Array8], second: &[Array8]) -> bool
    ensures { result ≡ pointwise bytes_eq first.now second.now }
{
    if last_byte(first) != last_byte(second) {
        return false;
    }
    same_texts(first, second)
}

/// Whether a property holds the words of this command.
fn has_words(property: &Property, command: &Command) -> bool
    ensures { result ≡ are_words_of property.now command.now }
{
    same_words(command.words.as_slice(), property.values.as_slice())
        && same_bytes(LIST, property.kind.as_slice())
        && are_words(property.values.as_slice())
}

/// Whether the DiscardCommand of this entry is the same as the command. This takes no memory.
fn discards_by(command: &Command, entry: &Entry) -> bool
    ensures { result ≡ is_discarded_by command.now entry.now }
{
    match entry.table.get(b"DiscardCommand") {
        Some(property) => has_words(property, command),
        None => false,
    }
}

fn holds_words_of(property: &Property, commands: &[Command]) -> bool
    ensures { result ≡ list_any (are_words_of property.now) commands.now }
{
    commands.iter().any(|command| has_words(property, command))
}

/// Whether the DiscardCommand of this entry, which is looked up once, is the same as one of the
/// commands.
fn discards_one_of(commands: &[Command], entry: &Entry) -> bool
    ensures { result ≡ discards_any commands.now entry.now }
{
    match entry.table.get(b"DiscardCommand") {
        Some(property) => holds_words_of(property, commands),
        None => false,
    }
}

/// Whether the command is the DiscardCommand of one of these entries.
fn is_discarded(entries: &[Entry], command: &Command) -> bool
    ensures { result ≡ list_any (is_discarded_by command.now) entries.now }
{
    entries.iter().any(|entry| discards_by(command, entry))
}

/// Whether this command is the same as one of these.
pub(crate) fn is_one_of(command: &Command, commands: &[Command]) -> bool
    ensures { result ≡ list_any (is_same command.now) commands.now }
{
    let words = command.words.as_slice();
    commands
        .iter()
        .any(|other| same_words(words, other.words.as_slice()))
}

/// Whether one of these commands is the same as this one.
fn is_among(commands: &[Command], command: &Command) -> bool
    ensures { result ≡ list_any (λ other. is_same other command.now) commands.now }
{
    commands.iter().any(|other| same_words(other.words.as_slice(), command.words.as_slice()))
}

/// Whether the command is the DiscardCommand of an entry of one of these sessions.
fn is_discarded_among(others: &[Named], command: &Command) -> bool
    ensures { result
        ≡ list_any (λ other. list_any (is_discarded_by command.now) other.entries) others.now }
{
    others
        .iter()
        .any(|other| is_discarded(other.entries.as_slice(), command))
}

/// Whether the command is the DiscardCommand of an entry of the book, in whichever session.
fn is_discarded_in(book: &Book, command: &Command) -> bool
    ensures { result ≡ list_any (is_discarded_by command.now) (all_entries book.now) }
{
    is_discarded(book.entries.as_slice(), command)
        || is_discarded_among(book.others.as_slice(), command)
}

/// Behind so many pending commands that one more would break a rule this isn't asked, so that it
/// takes no longer than in a book.
fn may_pend(book: &Book, command: &Command) -> bool
    ensures { IsTrue result → FitsIn book.now (Pend command.now) }
{
    let pending = book.pending.as_slice();
    if pending.len() >= PENDING_LIMIT || is_among(pending, command) {
        return false;
    }
    !is_discarded_in(book, command)
}

/// Whether a change is known to fit the parts of a book.
fn fits_in(book: &Book, change: &Change) -> bool
    ensures { IsTrue result → FitsIn book.now change.now }
{
    match change {
        Change::Epoch(epoch) => { book.epoch <= *epoch || all_are_of_runs(*epoch, book) }
        Change::Remove(_) => true,
        Change::Put(_, entry) => is_client_id(book.epoch, entry.id.as_slice()),
        Change::Unpend(_) => true,
        Change::Pend(command) => may_pend(book, command),
    }
}

/// Whether the parts of a draft are known to fit together, and the change to fit them.
fn is_fit_for(draft: &Draft, change: &Change) -> bool
    requires { IsTrue draft.now.fits → FitBut draft.now.doubts draft.now.book }
    ensures { IsTrue result → FitBut draft.now.doubts draft.now.book
        × FitsIn draft.now.book change.now }
{
    draft.fits && fits_in(&draft.book, change)
}

/// The IDs in doubt, and that of this entry where it names one of the commands.
fn doubted(
    commands: &[Command],
    entry: &Entry,
    mut doubts: Array8List,
) -> Result<Array8List, NoMemory>
    ensures { IfOk result (λ after. after
        ≡ (if discards_any commands.now entry.now then doubts ++ entry.now.id ∷ [] else doubts)) }
{
    if discards_one_of(commands, entry) {
        doubts.push(entry.id.copy()?)?;
    }
    Ok(doubts)
}

/// The IDs in doubt behind a change of this book. What an entry that is put names may be taken out
/// by a later change of the same amendment, so it is looked at again behind the last.
fn doubts_behind(book: &Book, change: &Change, doubts: Array8List) -> Result<Array8List, NoMemory>
    ensures { IfOk result (λ after. after ≡ doubts_after book.now change.now doubts) }
{
    match change {
        Change::Epoch(_) => Ok(doubts),
        Change::Remove(_) => Ok(doubts),
        Change::Put(_, entry) => doubted(book.pending.as_slice(), entry, doubts),
        Change::Unpend(_) => Ok(doubts),
        Change::Pend(_) => Ok(doubts),
    }
}

/// The draft after a change. None where it takes out what isn't there.
pub(crate) fn changed(
    alloc: Global,
    draft: Draft,
    change: Change,
) -> Result<Option<Draft>, NoMemory>
    requires parts { HasParts draft.book }
    requires named { PutsIntoName change }
    requires fits { IsTrue draft.fits → FitBut draft.doubts draft.book }
    ensures book { IfOk result (λ next. option_map (λ draft. draft.book) next
        ≡ applied_to draft.book change) }
    ensures fits { IfOk result (λ next.
        IfSome next (λ draft. IsTrue draft.fits → FitBut draft.doubts draft.book)) }
{
    let fits = is_fit_for(&draft, &change);
    let before = draft.doubts;
    let doubts = doubts_behind(&draft.book, &change, before)?;
    match applied(alloc, draft.book, change)? {
        Some(book) => Ok(Some(Draft { book, fits, doubts })),
        None => Ok(None),
    }
}

/// Whether the entry has one of these IDs.
fn is_in_doubt(doubts: &[Array8], entry: &Entry) -> bool
    ensures { result ≡ is_doubted doubts.now entry.now }
{
    doubts
        .iter()
        .any(|id| same_bytes(id.as_slice(), entry.id.as_slice()))
}

/// Whether one of the entries is in doubt and names one of the commands.
fn one_collides(doubts: &[Array8], commands: &[Command], entries: &[Entry]) -> bool
    ensures { result ≡ list_any (collides doubts.now commands.now) entries.now }
{
    entries.iter().any(|entry| is_in_doubt(doubts, entry) && discards_one_of(commands, entry))
}

fn one_collides_among(doubts: &[Array8], commands: &[Command], others: &[Named]) -> bool
    ensures { result ≡ list_any (λ other.
        list_any (collides doubts.now commands.now) other.entries) others.now }
{
    others.iter().any(|other| one_collides(doubts, commands, other.entries.as_slice()))
}

/// Whether an entry of the book that is in doubt names a pending command.
pub(crate) fn one_collides_in(doubts: &[Array8], book: &Book) -> bool
    ensures { result
        ≡ list_any (collides doubts.now book.now.pending) (all_entries book.now) }
{
    let pending = book.pending.as_slice();
    one_collides(doubts, pending, book.entries.as_slice())
        || one_collides_among(doubts, pending, book.others.as_slice())
}

/// Whether one of the entries names one of the commands.
fn one_discards(commands: &[Command], entries: &[Entry]) -> bool
    ensures { result ≡ list_any (discards_any commands.now) entries.now }
{
    entries.iter().any(|entry| discards_one_of(commands, entry))
}

fn one_discards_among(commands: &[Command], others: &[Named]) -> bool
    ensures { result
        ≡ list_any (λ other. list_any (discards_any commands.now) other.entries) others.now }
{
    others
        .iter()
        .any(|other| one_discards(commands, other.entries.as_slice()))
}

/// Whether an entry of the book names a pending command. This takes no memory.
pub(crate) fn one_discards_in(book: &Book) -> bool
    ensures { result ≡ list_any (discards_any book.now.pending) (all_entries book.now) }
{
    let pending = book.pending.as_slice();
    one_discards(pending, book.entries.as_slice())
        || one_discards_among(pending, book.others.as_slice())
}
