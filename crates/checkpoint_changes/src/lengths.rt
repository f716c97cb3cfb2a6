ghost use Rattle.std.specs.Prelude.{◌≡◌, ◌-◌, ◌^◌, length, flat_map, min};
ghost use Rattle.ice_values.specs.Properties.{array8, array8_list};
ghost use Rattle.ice_values.specs.declared.numbers.Endian.TheVariants.{Lsb};
ghost use Rattle.checkpoint_records.specs.Rules.{command_cells, in_turn};
ghost use Rattle.checkpoint_records.specs.Spelling.{entry_cells};
ghost use Rattle.checkpoint_records.specs.declared.head.Format.TheVariants.{Several};
ghost use Rattle.checkpoint_changes.specs.Changes.{change_cells};
ghost use Rattle.checkpoint_changes.specs.Amendments.{delta_bytes};

use crate::{Change, Delta};
use checkpoint_records::Entry;
use ice_values::pad;
use owned_lists::{Command, Octets};

/// How many bytes spell a text.
fn text_length(text: &Octets) -> u64
    ensures { result ≡ length (array8 Lsb text.now) }
{
    let count = text.as_slice().len();
    (4 + count + pad(4 + count, 8)) as u64
}

/// How many bytes spell texts, one after the other.
fn texts_length(texts: &[Octets]) -> u64
    ensures { result ≡ min (length (flat_map (array8 Lsb) texts.now)) (2 ^ 64 - 1) }
{
    let mut total = 0_u64;
    for text in texts {
        total = total.saturating_add(text_length(text));
    }
    total
}

/// How many bytes spell names and values in turn.
fn pairs_length(pairs: &[(Octets, Octets)]) -> u64
    ensures { result ≡ min (length (flat_map (array8 Lsb) (in_turn pairs.now))) (2 ^ 64 - 1) }
{
    let mut total = 0_u64;
    for (name, value) in pairs {
        total = total
            .saturating_add(text_length(name))
            .saturating_add(text_length(value));
    }
    total
}

fn entry_length(entry: &Entry) -> u64
    ensures { result ≡ min (length (entry_cells entry.now)) (2 ^ 64 - 1) }
{
    text_length(&entry.id).saturating_add(8 + entry.table.encoded_len() as u64)
}

fn command_length(command: &Command) -> u64
    ensures { result ≡ min (length (command_cells Lsb command.now)) (2 ^ 64 - 1) }
{
    texts_length(command.words.as_slice())
        .saturating_add(text_length(&command.directory))
        .saturating_add(pairs_length(command.environment.as_slice()))
        .saturating_add(16)
}

fn change_length(change: &Change) -> u64
    ensures { result ≡ min (length (change_cells Several change.now)) (2 ^ 64 - 1) }
{
    match change {
        Change::Epoch(_) => 8,
        Change::Remove(id) => text_length(id).saturating_add(8),
        Change::Put(name, entry) => entry_length(entry)
            .saturating_add(text_length(name))
            .saturating_add(8),
        Change::Unpend(_) => 8,
        Change::Pend(command) => command_length(command).saturating_add(8),
    }
}

/// How many bytes spell a delta, or 18,446,744,073,709,551,615 where there are more. This takes no
/// memory.
pub fn delta_length(delta: &Delta) -> u64
    ensures { result ≡ min (length (delta_bytes (change_cells Several) delta.now)) (2 ^ 64 - 1) }
{
    let mut total = 0_u64;
    for change in delta.as_slice() {
        total = total.saturating_add(change_length(change));
    }
    total
}
