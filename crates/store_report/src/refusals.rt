ghost use Rattle.std.specs.Prelude.{◌≡◌, ◌++◌, IfOk, OnOk, option_copied};
ghost use Rattle.store_report.specs.Refusals.{is_crowded, is_crowded_for, refusal_line, refusal_lines, refusal_of, refusal_over, refusal_status};

use crate::Finding;
use checkpoint_records::{Book, choose, copy_book};
use owned_lists::{NoMemory, Octets};
use std::alloc::Global;

/// How many other sessions a store may have beside the one that runs.
const OTHERS_LIMIT: usize = 7;

/// Why no session begins over a store that may be whole.
#[derive(Clone, Copy, Debug, PartialEq, Eq)]
pub enum Refusal {
    /// Its file isn't taken.
    Disk,
    /// It has as many other sessions as it may have.
    TooManySessions,
    /// Its epoch can't be raised.
    Worn,
}

impl Refusal {
    /// The status of a session that is refused so.
    pub fn status(self) -> u8
        ensures { result ≡ refusal_status self }
    {
        match self {
            Refusal::Disk => 4,
            Refusal::TooManySessions => 12,
            Refusal::Worn => 8,
        }
    }

    /// The line of a session that is refused so.
    fn line(self) -> &'static str
        ensures { result.now ≡ refusal_line self }
    {
        match self {
            Refusal::Disk => "smd: disk fault\n",
            Refusal::TooManySessions => "smd: too many sessions\n",
            Refusal::Worn => "smd: store worn\n",
        }
    }
}

/// Appends the line of a session that is refused.
pub(crate) fn put_refusal(out: &mut Octets, refused: Option<Refusal>) -> Result<(), NoMemory>
    ensures { OnOk result (out.new ≡ out.old ++ refusal_lines refused) }
{
    match refused {
        Some(refusal) => out.append(refusal.line().as_bytes()),
        None => Ok(()),
    }
}

/// Whether a store has no room for a session of this name.
fn is_crowded(alloc: Global, book: &Book, name: &[u8]) -> Result<bool, NoMemory>
    ensures { IfOk result (λ crowded. crowded ≡ is_crowded name.now book.now) }
{
    let chosen = choose(alloc, copy_book(book)?, name)?;
    Ok(OTHERS_LIMIT < chosen.others.as_slice().len())
}

/// The same, where a name is said.
fn is_crowded_for(alloc: Global, book: &Book, session: Option<&Octets>) -> Result<bool, NoMemory>
    ensures { IfOk result (λ crowded.
        crowded ≡ is_crowded_for (option_copied session.entry) book.now) }
{
    match session {
        Some(name) => is_crowded(alloc, book, name.as_slice()),
        None => Ok(false),
    }
}

/// Why no session begins over this book.
fn refusal_over(
    alloc: Global,
    book: &Book,
    session: Option<&Octets>,
) -> Result<Option<Refusal>, NoMemory>
    ensures { IfOk result (λ refused.
        refused ≡ refusal_over (option_copied session.entry) book.now) }
{
    if is_crowded_for(alloc, book, session)? {
        return Ok(Some(Refusal::TooManySessions));
    }
    if book.epoch == u32::MAX {
        return Ok(Some(Refusal::Worn));
    }
    Ok(None)
}

impl Finding {
    /// Why no session of this name begins over this store, where it stands for a book; without a name,
    /// why none of its own sessions does.
    pub fn refusal(
        &self,
        alloc: Global,
        session: Option<&Octets>,
    ) -> Result<Option<Refusal>, NoMemory>
        ensures { IfOk result (λ refused.
            refused ≡ refusal_of (option_copied session.entry) self.now) }
    {
        match self {
            Finding::Opens(book) => refusal_over(alloc, book, session),
            Finding::Damaged(_) => Ok(None),
            Finding::WrongSize(_) => Ok(None),
        }
    }
}
