ghost use Rattle.std.specs.Prelude.{◌≡◌, ◌↔◌, ◌<◌, ◌^◌, ℕ, IsTrue, IfSome, Some};
ghost use Rattle.std.specs.Option.{option_map};
ghost use Rattle.checkpoint_records.specs.Finding.{Finds};
ghost use Rattle.checkpoint_records.specs.Rules.{hex8, client_id, IsClientId};

use ice_values::{Endian, read_card32};

/// The number that eight lower-case hex digits at the front spell, and what follows them.
fn take_hex8(text: &[u8]) -> Option<(u32, &[u8])>
    ensures { Finds hex8 (λ n. n < 2 ^ 32) text.now (option_map (λ x. (x.0, x.1.now)) result) }
{
    let (digits, rest) = text.split_at_checked(8)?;
    let mut number = [0; 4];
    if hex::decode_to_slice(digits, &mut number).is_err() {
        return None;
    }
    let mut lower = [0; 8];
    hex::encode_to_slice(&number, &mut lower).ok()?;
    if digits != lower.as_slice() {
        return None;
    }
    Some((read_card32(Endian::Msb, &number), rest))
}

/// The epoch of an ID, which is `smd-`, the epoch and a number in eight lower-case hex digits each,
/// with a dash between them.
fn epoch_of(id: &[u8]) -> Option<u32>
    ensures some { IfSome result (λ epoch. (number : ℕ) × (number < 2 ^ 32)
        × (id.now ≡ client_id epoch number)) }
    ensures only { (epoch number : ℕ) → epoch < 2 ^ 32 → number < 2 ^ 32 →
        id.now ≡ client_id epoch number → result ≡ Some epoch }
{
    let text = id.strip_prefix(b"smd-")?;
    let (epoch, text) = take_hex8(text)?;
    let text = text.strip_prefix(b"-")?;
    let (_, text) = take_hex8(text)?;
    if text.is_empty() { Some(epoch) } else { None }
}

/// Whether this is the ID of a client in a run up to the latest.
pub fn is_client_id(latest: u32, id: &[u8]) -> bool
    ensures { IsTrue result ↔ IsClientId latest id.now }
{
    match epoch_of(id) {
        Some(epoch) => 1 <= epoch && epoch <= latest,
        None => false,
    }
}
