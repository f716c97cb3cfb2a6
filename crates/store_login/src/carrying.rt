ghost use Rattle.std.specs.Prelude.{◌≡◌, ◌⊎◌, [], IfErr, OnErr, OnOk};
ghost use Rattle.sm_world.specs.Outside.{Added};
ghost use Rattle.checkpoint_slots.specs.Layout.{store_size};
ghost use Rattle.login_plan.specs.Books.{HasBooks, IsStored};
ghost use Rattle.login_plan.specs.declared.plans.Plan.TheVariants.{Keep as KeepsThis, Return as ReturnsThis};
ghost use Rattle.store_login.specs.Carrying.{Carries, ComesTo, Gets, GetsWhereRaised, IsWhyBrokenOff};
ghost use Rattle.store_login.specs.declared.faults.LoginFault.TheVariants.{OfStore, Unkept as CannotKeep};
ghost use Rattle.store_return.specs.declared.faults.Fault.TheVariants.{NoMemory as LacksMemory};

use crate::LoginFault;
use checkpoint_journal::Journal;
use checkpoint_records::Book;
use kept_books::{KeepRefusal, Kept, Shelf, keep};
use login_plan::Plan;
use sm_world::{Disk, Failed};
use std::alloc::Global;
use store_return::{Fault, exchange_books};

/// Where books are kept, each in a file of its own that is replaced whole.
pub trait Keeping {
    /// Keeps a book more of the session, under this number.
    fn put(&mut self, number: u64, session: &[u8], book: &Book) -> Result<(), Failed>
        requires stored { IsStored book.now };

    /// Lets all go that aren't among these.
    fn leave(&mut self, shelf: &[Kept]) -> Result<(), Failed>;
}

/// What a login finds.
#[derive(Clone, Copy)]
pub struct Login<'a> {
    pub session: &'a [u8],
    pub shelf: &'a [Kept],
    /// The store's book.
    pub present: &'a Book,
}

/// The shelf with the book on it, which is kept.
fn put_first<K: Keeping>(
    alloc: Global,
    place: &mut K,
    name: &[u8],
    book: &Book,
    shelf: &[Kept],
) -> Result<Shelf, LoginFault>
    requires { IsStored book.now }
    ensures { IfErr result (λ fault. (fault ≡ CannotKeep) ⊎ (fault ≡ OfStore LacksMemory)) }
{
    let all = match keep(alloc, name, book, shelf) {
        Ok(all) => all,
        Err(KeepRefusal::NoNumber) => return Err(LoginFault::Unkept),
        Err(KeepRefusal::NoMemory) => return Err(LoginFault::OfStore(Fault::NoMemory)),
    };
    if let Some(kept) = all.as_slice().first() {
        if place.put(kept.number, name, book).is_err() {
            return Err(LoginFault::Unkept);
        }
    }
    Ok(all)
}

/// Makes the store's book this one.
fn commit<D: Disk>(
    alloc: Global,
    disk: &mut D,
    journal: Journal,
    present: &Book,
    book: &Book,
) -> Result<(), LoginFault>
    requires size { (D.outside disk.old).size ≡ store_size }
    requires old { IsStored present.now }
    requires new { IsStored book.now }
    ensures ok { OnOk result (Added (D.outside disk.old).told (D.outside disk.new).told
        (Gets journal present.now book.now)) }
    ensures err { OnErr result (Added (D.outside disk.old).told (D.outside disk.new).told
        (ComesTo journal present.now book.now)) }
    ensures cause { IfErr result
        (IsWhyBrokenOff journal (D.outside disk.old) (D.outside disk.new)) }
{
    match exchange_books(journal, alloc, disk, present, book) {
        Ok(last) => {
            drop(last);
            Ok(())
        }
        Err(fault) => Err(LoginFault::OfStore(Fault::of_store(fault))),
    }
}

fn let_go<K: Keeping>(place: &mut K, shelf: &Shelf) -> Result<(), LoginFault>
    ensures { IfErr result (λ fault. fault ≡ CannotKeep) }
{
    match place.leave(shelf.as_slice()) {
        Ok(()) => Ok(()),
        Err(_) => Err(LoginFault::Unkept),
    }
}

/// Keeps the book that the store got, and lets go what has to.
fn keep_result<K: Keeping>(
    alloc: Global,
    place: &mut K,
    name: &[u8],
    book: &Book,
    before: &Shelf,
) -> Result<(), LoginFault>
    requires { IsStored book.now }
    ensures { IfErr result (λ fault. (fault ≡ CannotKeep) ⊎ (fault ≡ OfStore LacksMemory)) }
{
    let all = match put_first(alloc, place, name, book, before.as_slice()) {
        Ok(all) => all,
        Err(fault) => return Err(fault),
    };
    match let_go(place, &all) {
        Ok(()) => Ok(()),
        Err(fault) => Err(fault),
    }
}

/// Keeps the one book, and then makes the store's book the other. The shelf behind it.
fn keep_and_commit<D: Disk, K: Keeping>(
    alloc: Global,
    disk: &mut D,
    place: &mut K,
    journal: Journal,
    login: Login<'_>,
    first: &Book,
    book: &Book,
) -> Result<Shelf, LoginFault>
    requires size { (D.outside disk.old).size ≡ store_size }
    requires old { IsStored login.present.now }
    requires first { IsStored first.now }
    requires new { IsStored book.now }
    ensures ok { OnOk result (Added (D.outside disk.old).told (D.outside disk.new).told
        (Gets journal login.entry.present.now book.now)) }
    ensures err { OnErr result (Added (D.outside disk.old).told (D.outside disk.new).told
        (λ effects. (effects ≡ []) ⊎ ComesTo journal login.entry.present.now book.now effects)) }
    ensures cause { IfErr result
        (IsWhyBrokenOff journal (D.outside disk.old) (D.outside disk.new)) }
{
    let shelf = match put_first(alloc, place, login.session, first, login.shelf) {
        Ok(shelf) => shelf,
        Err(fault) => return Err(fault),
    };
    match commit(alloc, disk, journal, login.present, book) {
        Ok(()) => Ok(shelf),
        Err(fault) => Err(fault),
    }
}

/// Keeps the book, and gives it to the store where its epoch is another.
fn keep_present<D: Disk, K: Keeping>(
    alloc: Global,
    disk: &mut D,
    place: &mut K,
    journal: Journal,
    login: Login<'_>,
    book: &Book,
) -> Result<Shelf, LoginFault>
    requires size { (D.outside disk.old).size ≡ store_size }
    requires old { IsStored login.present.now }
    requires new { IsStored book.now }
    ensures ok { OnOk result (Added (D.outside disk.old).told (D.outside disk.new).told
        (GetsWhereRaised journal login.entry.present.now book.now)) }
    ensures err { OnErr result (Added (D.outside disk.old).told (D.outside disk.new).told
        (λ effects. (effects ≡ []) ⊎ ComesTo journal login.entry.present.now book.now effects)) }
    ensures cause { IfErr result
        (IsWhyBrokenOff journal (D.outside disk.old) (D.outside disk.new)) }
{
    if book.epoch == login.present.epoch {
        drop(journal);
        return match put_first(alloc, place, login.session, book, login.shelf) {
            Ok(shelf) => Ok(shelf),
            Err(fault) => Err(fault),
        };
    }
    match keep_and_commit(alloc, disk, place, journal, login, book, book) {
        Ok(shelf) => Ok(shelf),
        Err(fault) => Err(fault),
    }
}

/// Keeps the book, gives it to the store where its epoch is another, and lets go what has to.
fn stay<D: Disk, K: Keeping>(
    alloc: Global,
    disk: &mut D,
    place: &mut K,
    journal: Journal,
    login: Login<'_>,
    book: &Book,
) -> Result<(), LoginFault>
    requires size { (D.outside disk.old).size ≡ store_size }
    requires old { IsStored login.present.now }
    requires new { IsStored book.now }
    ensures carries { Added (D.outside disk.old).told (D.outside disk.new).told
        (Carries journal login.entry.present.now (KeepsThis book.now) result) }
    ensures cause { IfErr result
        (IsWhyBrokenOff journal (D.outside disk.old) (D.outside disk.new)) }
{
    let shelf = match keep_present(alloc, disk, place, journal, login, book) {
        Ok(shelf) => shelf,
        Err(fault) => return Err(fault),
    };
    match let_go(place, &shelf) {
        Ok(()) => Ok(()),
        Err(fault) => Err(fault),
    }
}

/// Keeps the first book, gives the second to the store, keeps that too, and lets go what has to.
fn come_back<D: Disk, K: Keeping>(
    alloc: Global,
    disk: &mut D,
    place: &mut K,
    journal: Journal,
    login: Login<'_>,
    first: &Book,
    book: &Book,
) -> Result<(), LoginFault>
    requires size { (D.outside disk.old).size ≡ store_size }
    requires old { IsStored login.present.now }
    requires first { IsStored first.now }
    requires new { IsStored book.now }
    ensures carries { Added (D.outside disk.old).told (D.outside disk.new).told
        (Carries journal login.entry.present.now (ReturnsThis first.now book.now) result) }
    ensures cause { IfErr result
        (IsWhyBrokenOff journal (D.outside disk.old) (D.outside disk.new)) }
{
    let shelf = match keep_and_commit(alloc, disk, place, journal, login, first, book) {
        Ok(shelf) => shelf,
        Err(fault) => return Err(fault),
    };
    match keep_result(alloc, place, login.session, book, &shelf) {
        Ok(()) => Ok(()),
        Err(fault) => Err(fault),
    }
}

/// Carries the plan of a login out: what is kept first is kept before the store gets its book, in one
/// commit, and what goes from the shelf goes last. So what a crash leaves has all that was kept but what
/// has equal entries or is the sixth, and the same choice, given again, comes to the same.
pub fn carry_out<D: Disk, K: Keeping>(
    alloc: Global,
    disk: &mut D,
    place: &mut K,
    journal: Journal,
    login: Login<'_>,
    plan: &Plan,
) -> Result<(), LoginFault>
    requires size { (D.outside disk.old).size ≡ store_size }
    requires old { IsStored login.present.now }
    requires books { HasBooks plan.now }
    ensures carries { Added (D.outside disk.old).told (D.outside disk.new).told
        (Carries journal login.entry.present.now plan.now result) }
    ensures cause { IfErr result
        (IsWhyBrokenOff journal (D.outside disk.old) (D.outside disk.new)) }
{
    match plan {
        Plan::Ask => {
            drop(journal);
            Ok(())
        }
        Plan::Leave => {
            drop(journal);
            Ok(())
        }
        Plan::Keep(book) => stay(alloc, disk, place, journal, login, book),
        Plan::Return(first, book) => come_back(alloc, disk, place, journal, login, first, book),
    }
}
