ghost use Rattle.std.specs.Prelude.{◌≡◌, ◌<◌, ◌^◌, IfSome, Some};
ghost use Rattle.std.specs.Option.{option_map};
ghost use Rattle.ice_values.specs.Cells.{zeros};
ghost use Rattle.ice_values.specs.Numbers.{number_bytes};
ghost use Rattle.ice_values.specs.declared.numbers.Endian.TheVariants.{Lsb};
ghost use Rattle.checkpoint_records.specs.Finding.{Finds};
ghost use Rattle.checkpoint_records.specs.Parts.{IsHead, count_limit};
ghost use Rattle.checkpoint_records.specs.Spelling.{format_number, head_cells};
ghost use Rattle.checkpoint_records.specs.declared.head.Format.{Format as AnyFormat};

use ice_values::{Endian, read_card32};

pub(crate) const ENTRY_LIMIT: u32 = 128;

const SESSION_LIMIT: u32 = 8;

const PENDING_LIMIT: u32 = 320;

/// How the bytes of a book are laid out.
#[derive(Clone, Copy, Debug, PartialEq, Eq)]
pub enum Format {
    /// Format 1: the entries of one session, `default`. It is read, and no longer written.
    Single,
    /// Format 2: up to eight sessions, each with its name.
    Several,
}

/// What stands in front of the parts of a book.
#[derive(Clone, Copy)]
pub(crate) struct Head {
    pub format: Format,
    pub epoch: u32,
    /// How many sessions follow; in format 1, how many entries.
    pub count: u32,
    /// How many pending commands follow these.
    pub pending: u32,
}

impl Format {
    /// The CARD32 with which a book in this format begins.
    pub(crate) fn number(self) -> u32
        ensures { result ≡ format_number self }
    {
        match self {
            Format::Single => 1,
            Format::Several => 2,
        }
    }

    /// How many sessions a head may state; in format 1, how many entries.
    fn count_limit(self) -> u32
        ensures { result ≡ count_limit self }
    {
        match self {
            Format::Single => ENTRY_LIMIT,
            Format::Several => SESSION_LIMIT,
        }
    }
}

/// The format that begins with this number.
fn format_of(number: u32) -> Option<Format>
    ensures some { IfSome result (λ format. format_number format ≡ number) }
    ensures only { (format : AnyFormat) → format_number format ≡ number → result ≡ Some format }
{
    match number {
        1 => Some(Format::Single),
        2 => Some(Format::Several),
        _ => None,
    }
}

/// The CARD32 at the front, and what follows it.
pub fn take_number(bytes: &[u8]) -> Option<(u32, &[u8])>
    ensures { Finds (number_bytes Lsb 4) (λ n. n < 2 ^ 32) bytes.now
        (option_map (λ x. (x.0, x.1.now)) result) }
{
    if bytes.len() < 4 {
        return None;
    }
    let (_, rest) = bytes.split_at(4);
    Some((read_card32(Endian::Lsb, bytes), rest))
}

/// The head at the front, and what follows it.
pub(crate) fn take_head(bytes: &[u8]) -> Option<(Head, &[u8])>
    ensures { Finds (λ head. zeros (head_cells head)) IsHead bytes.now
        (option_map (λ x. (x.0, x.1.now)) result) }
{
    let (number, rest) = take_number(bytes)?;
    let (epoch, rest) = take_number(rest)?;
    let (count, rest) = take_number(rest)?;
    let (pending, rest) = take_number(rest)?;
    let format = format_of(number)?;
    if count > format.count_limit() || pending > PENDING_LIMIT {
        return None;
    }
    let head = Head {
        format,
        epoch,
        count,
        pending,
    };
    Some((head, rest))
}
