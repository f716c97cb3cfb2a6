ghost use Rattle.std.specs.Prelude.{◌≡◌, ◌++◌, IfOk, OnOk, string_bytes};
ghost use Rattle.std.specs.List.{flat_map};
ghost use Rattle.store_return.specs.Lines.{entry_line as line_of, fate_text as text_of, how_many, is_due, is_unkept, summary};

use checkpoint_records::{Book, Entry};
use owned_lists::{Duplicate, NoMemory, Octets, OctetsList};
use session_return::{Fate, fate_of};
use shown_text::put_words;
use std::alloc::Global;

fn fate_text(fate: Fate) -> &'static str
    ensures { result.now ≡ text_of fate }
{
    match fate {
        Fate::Own => "own",
        Fate::There => "there",
        Fate::Due => "due",
        Fate::Unkept => "unkept",
    }
}

fn put_entry(alloc: Global, out: &mut Octets, present: &Book, entry: &Entry) -> Result<(), NoMemory>
    ensures { OnOk result (out.new ≡ out.old ++ line_of present.now entry.now) }
{
    let fate = fate_of(alloc, present, entry)?;
    let mut words = OctetsList::new(alloc);
    words.push(entry.id.copy()?)?;
    words.push(Octets::from_slice(alloc, fate_text(fate).as_bytes())?)?;
    out.append(b"entry")?;
    put_words(alloc, out, words.as_slice())?;
    out.append(b"\n")
}

/// Appends the lines of entries that come back over the store's book.
pub(crate) fn put_entries(
    alloc: Global,
    out: &mut Octets,
    present: &Book,
    back: &[Entry],
) -> Result<(), NoMemory>
    ensures { OnOk result (out.new ≡ out.old ++ flat_map (line_of present.now) back.now) }
{
    for entry in back {
        put_entry(alloc, out, present, entry)?;
    }
    Ok(())
}

/// Of how many entries nobody keeps the state, and of how many it is yet to be discarded.
#[derive(Clone, Copy, Debug, PartialEq, Eq)]
pub struct Counts {
    pub unkept: usize,
    pub due: usize,
}

/// These counts of entries that come back.
pub fn counts_of(alloc: Global, present: &Book, back: &[Entry]) -> Result<Counts, NoMemory>
    ensures unkept { IfOk result (λ counts.
        counts.unkept ≡ how_many is_unkept present.now back.now) }
    ensures due { IfOk result (λ counts. counts.due ≡ how_many is_due present.now back.now) }
{
    let mut unkept = 0usize;
    let mut due = 0usize;
    for entry in back {
        match fate_of(alloc, present, entry)? {
            Fate::Own => {}
            Fate::There => {}
            Fate::Due => due += 1,
            Fate::Unkept => unkept += 1,
        }
    }
    Ok(Counts { unkept, due })
}

/// The line behind all others, of these numbers.
pub(crate) fn summary_of(
    alloc: Global,
    heading: &str,
    entries: u64,
    counts: Counts,
    epoch: u32,
    pending: u64,
) -> Result<String, NoMemory>
    ensures { IfOk result (λ text. string_bytes text
        ≡ summary heading.now entries counts.unkept counts.due epoch pending) }
{
    let unkept = counts.unkept;
    let due = counts.due;
    Ok(format!(in alloc;
        "{heading}: entries {entries}, unkept {unkept}, due {due}, epoch {epoch}, pending {pending}\n"
    )?)
}
