ghost use Rattle.std.specs.Prelude.{◌≡◌, ◌++◌, ◌∷◌, [], Option, List, ℕ, codes, option_copied, IfErr, IfOk, OnOk, OnErr};
ghost use Rattle.sm_world.specs.Outside.{Added, NotFallen, adds, on_ok};
ghost use Rattle.sm_world.specs.declared.effects.Effect.TheVariants.{Printed};
ghost use Rattle.checkpoint_records.specs.Books.{default_name as the_default};
ghost use Rattle.checkpoint_records.specs.Rules.{KeepsRules};
ghost use Rattle.checkpoint_slots.specs.Layout.{store_size};
ghost use Rattle.store_return.specs.Lines.{told_in};
ghost use Rattle.store_return.specs.Restoring.{CarriesOut, Found, HasCause, IsOfCarrying, IsOfConsole, IsOfDisk, IsPlan, IsUnopened, IsUnplanned, RestoresOr, ShowsOr, aside};

use crate::Fault;
use crate::exchange::exchange_books;
use crate::lines::{counts_of, put_entries, summary_of};
use checkpoint_journal::Journal;
use checkpoint_records::{Book, Entry, spell_book};
use owned_lists::{NoMemory, Octets};
use session_return::{Which, entries_back, put_back};
use sm_world::{Console, Disk};
use std::alloc::Global;

/// What a store is to become, and what is told of it.
#[derive(Drop)]
pub(crate) struct Plan {
    pub book: Book,
    pub text: Octets,
}

/// Takes the store at this path, with its book.
pub fn opened<D: Disk>(alloc: Global, disk: &mut D, store: &str) -> Result<(Journal, Book), Fault>
    ensures told { (D.outside disk.new).told ≡ (D.outside disk.old).told }
    ensures found { IfOk result (λ found. Found (D.outside disk.old) found.0 found.1) }
    ensures size { IfOk result (λ found. (D.outside disk.new).size ≡ store_size) }
    ensures cause { IfErr result (IsUnopened (D.outside disk.old) (D.outside disk.new)) }
    ensures counts { NotFallen (D.outside disk.old).faults (D.outside disk.new).faults }
{
    if let Err(failure) = disk.attach(store) {
        return Err(Fault::of_disk(failure));
    }
    match Journal::recover_from(alloc, disk) {
        Ok(found) => Ok(found),
        Err(fault) => Err(Fault::of_store(fault)),
    }
}

fn told_of(
    alloc: Global,
    heading: &str,
    present: &Book,
    back: &[Entry],
    book: &Book,
) -> Result<Octets, NoMemory>
    ensures { IfOk result (λ text. text ≡ told_in heading.now present.now back.now book.now) }
{
    let mut text = Octets::new(alloc);
    put_entries(alloc, &mut text, present, back)?;
    let counts = counts_of(alloc, present, back)?;
    let pending = book.pending.as_slice().len() as u64;
    let count = back.len() as u64;
    let summary = summary_of(alloc, heading, count, counts, book.epoch, pending)?;
    text.append(summary.as_bytes())?;
    Ok(text)
}

/// What the store is to become, told under this heading.
fn planned(
    alloc: Global,
    heading: &str,
    which: &Which,
    kept: &Book,
    present: &Book,
) -> Result<Plan, Fault>
    requires kept { KeepsRules kept.now }
    requires present { KeepsRules present.now }
    ensures plan { IfOk result (IsPlan heading.now which.now kept.now present.now) }
    ensures cause { IfErr result (IsUnplanned which.now kept.now present.now) }
{
    let book = match put_back(alloc, which, kept, present) {
        Ok(book) => book,
        Err(refusal) => return Err(Fault::of_return(refusal)),
    };
    let back = match entries_back(alloc, which, kept) {
        Ok(back) => back,
        Err(NoMemory) => return Err(Fault::NoMemory),
    };
    match told_of(alloc, heading, present, back.as_slice(), &book) {
        Ok(text) => Ok(Plan { book, text }),
        Err(NoMemory) => Err(Fault::NoMemory),
    }
}

/// Puts the store's book into a file, where one is named.
fn put_aside<D: Disk>(
    alloc: Global,
    disk: &mut D,
    beside: Option<&str>,
    present: &Book,
) -> Result<(), Fault>
    requires rules { KeepsRules present.now }
    requires chosen { present.now.name ≡ the_default }
    ensures ok { OnOk result ((D.outside disk.new).told ≡ adds (D.outside disk.old).told
        (aside (option_copied beside.entry) present.now)) }
    ensures err { OnErr result ((D.outside disk.new).told ≡ (D.outside disk.old).told) }
    ensures size { (D.outside disk.new).size ≡ (D.outside disk.old).size }
    ensures cause { IfErr result (IsOfDisk (D.outside disk.old) (D.outside disk.new)) }
    ensures counts { NotFallen (D.outside disk.old).faults (D.outside disk.new).faults }
{
    let path = match beside {
        Some(path) => path,
        None => return Ok(()),
    };
    let bytes = match spell_book(alloc, present) {
        Ok(bytes) => bytes,
        Err(NoMemory) => return Err(Fault::NoMemory),
    };
    match disk.publish(path, bytes.as_slice()) {
        Ok(()) => Ok(()),
        Err(failure) => Err(Fault::of_disk(failure)),
    }
}

fn tell<W: Console>(world: &mut W, text: &[u8]) -> Result<(), Fault>
    ensures effects { (W.outside world.new).told
        ≡ adds (W.outside world.old).told (on_ok result (Printed text.now ∷ [])) }
    ensures cause { IfErr result (IsOfConsole (W.outside world.old) (W.outside world.new)) }
    ensures counts { NotFallen (W.outside world.old).faults (W.outside world.new).faults }
{
    match world.print(text) {
        Ok(()) => Ok(()),
        Err(failure) => Err(Fault::of_console(failure)),
    }
}

/// Puts the store's book aside, makes it the planned one, and then prints the text.
fn carry_out<W: Disk + Console>(
    alloc: Global,
    world: &mut W,
    journal: Journal,
    present: &Book,
    beside: Option<&str>,
    plan: &Plan,
) -> Result<(), Fault>
    requires size { (W.outside world.old).size ≡ store_size }
    requires old_rules { KeepsRules present.now }
    requires old_chosen { present.now.name ≡ the_default }
    requires rules { KeepsRules plan.now.book }
    requires chosen { plan.now.book.name ≡ the_default }
    ensures carries { Added (W.outside world.old).told (W.outside world.new).told
        (CarriesOut journal present.now (option_copied beside.entry) plan.now.book
        plan.now.text result) }
    ensures cause { IfErr result
        (IsOfCarrying journal (W.outside world.old) (W.outside world.new)) }
    ensures counts { NotFallen (W.outside world.old).faults (W.outside world.new).faults }
{
    if let Err(fault) = put_aside(alloc, world, beside, present) {
        return Err(fault);
    }
    match exchange_books(journal, alloc, world, present, &plan.book) {
        Ok(last) => {
            drop(last);
            match tell(world, plan.text.as_slice()) {
                Ok(()) => Ok(()),
                Err(fault) => Err(fault),
            }
        }
        Err(fault) => Err(Fault::of_store(fault)),
    }
}

/// Puts back what comes back of a kept book into the store at this path, which is taken as a session
/// takes it, and prints what came back. Where a file is named for it, the store's book goes there
/// before anything is written.
pub fn restore<W: Disk + Console>(
    alloc: Global,
    world: &mut W,
    store: &str,
    which: &Which,
    kept: &Book,
    beside: Option<&str>,
) -> Result<(), Fault>
    requires { KeepsRules kept.now }
    ensures runs { Added (W.outside world.old).told (W.outside world.new).told
        (RestoresOr which.now kept.now (option_copied beside.entry) (W.outside world.old)
        result) }
    ensures cause { IfErr result
        (HasCause which.now kept.now (W.outside world.old) (W.outside world.new)) }
    ensures counts { NotFallen (W.outside world.old).faults (W.outside world.new).faults }
{
    let (journal, present) = match opened(alloc, world, store) {
        Ok(found) => found,
        Err(fault) => return Err(fault),
    };
    let plan = match planned(alloc, "restored", which, kept, &present) {
        Ok(plan) => plan,
        Err(fault) => return Err(fault),
    };
    match carry_out(alloc, world, journal, &present, beside, &plan) {
        Ok(()) => Ok(()),
        Err(fault) => Err(fault),
    }
}

/// Prints what would come back, and writes nothing. A store that isn't there is made.
pub fn show<W: Disk + Console>(
    alloc: Global,
    world: &mut W,
    store: &str,
    which: &Which,
    kept: &Book,
) -> Result<(), Fault>
    requires { KeepsRules kept.now }
    ensures runs { Added (W.outside world.old).told (W.outside world.new).told
        (ShowsOr which.now kept.now (W.outside world.old) result) }
    ensures cause { IfErr result
        (HasCause which.now kept.now (W.outside world.old) (W.outside world.new)) }
    ensures counts { NotFallen (W.outside world.old).faults (W.outside world.new).faults }
{
    let (journal, present) = match opened(alloc, world, store) {
        Ok(found) => found,
        Err(fault) => return Err(fault),
    };
    drop(journal);
    let plan = match planned(alloc, "would restore", which, kept, &present) {
        Ok(plan) => plan,
        Err(fault) => return Err(fault),
    };
    match tell(world, plan.text.as_slice()) {
        Ok(()) => Ok(()),
        Err(fault) => Err(fault),
    }
}
