ghost use Rattle.std.specs.Prelude.{◌≡◌, ◌≢◌, ℕ, ◌<◌, ◌^◌, ◌++◌, List, IfOk, OnOk, MatchOption};
ghost use Rattle.std.specs.Fmt.{decimal};
ghost use Rattle.control_lines.specs.Fields.{IsHex, SaysBytes, hex_text};

use crate::lines::split_once;
use hex::FromHexError;
use owned_lists::{NoMemory, Octets};
use sm_world::Conn;
use std::alloc::Global;

/// The number that a field spells: decimal, below 2^64, without leading zeros.
pub fn read_number(alloc: Global, field: &[u8]) -> Result<Option<u64>, NoMemory>
    ensures { IfOk result (λ number.
        MatchOption number ((n : ℕ) → n < 2 ^ 64 → field.now ≢ decimal n) (λ n.
        field.now ≡ decimal n)) }
{
    let Ok(text) = str::from_utf8(field) else {
        return Ok(None);
    };
    let Ok(number) = text.parse::<u64>() else {
        return Ok(None);
    };
    let spelled = number.to_string(alloc)?;
    if spelled.as_bytes() == field {
        Ok(Some(number))
    } else {
        Ok(None)
    }
}

/// The number of a connection that a field spells: decimal, below 2^32, without leading zeros.
pub fn read_conn(alloc: Global, field: &[u8]) -> Result<Option<Conn>, NoMemory>
    ensures { IfOk result (λ number.
        MatchOption number ((n : ℕ) → n < 2 ^ 32 → field.now ≢ decimal n) (λ n.
        field.now ≡ decimal n)) }
{
    let Some(number) = read_number(alloc, field)? else {
        return Ok(None);
    };
    match Conn::try_from(number) {
        Ok(conn) => Ok(Some(conn)),
        Err(_) => Ok(None),
    }
}

/// The bytes that a field spells in hex of either case, of which there is at least one.
pub fn read_hex(alloc: Global, field: &[u8]) -> Result<Option<Octets>, NoMemory>
    ensures { IfOk result (λ bytes.
        MatchOption bytes ((bytes : List ℕ) → ¬ (IsHex field.now bytes)) (λ bytes.
        IsHex field.now bytes)) }
{
    match hex::decode(alloc, field) {
        Ok(bytes) => {
            if bytes.is_empty() {
                return Ok(None);
            }
            Ok(Some(Octets::from_vec(bytes)))
        }
        Err(FromHexError::OutOfMemory) => Err(NoMemory),
        Err(_) => Ok(None),
    }
}

/// The number of a connection, a space, and its bytes in hex.
pub fn read_bytes(alloc: Global, fields: &[u8]) -> Result<Option<(Conn, Octets)>, NoMemory>
    ensures { IfOk result (λ found.
        MatchOption found ((n : ℕ) (bytes : List ℕ) → ¬ (SaysBytes fields.now n bytes)) (λ found.
        SaysBytes fields.now found.0 found.1)) }
{
    let Some((number, text)) = split_once(fields, b' ') else {
        return Ok(None);
    };
    let Some(conn) = read_conn(alloc, number)? else {
        return Ok(None);
    };
    let Some(bytes) = read_hex(alloc, text)? else {
        return Ok(None);
    };
    Ok(Some((conn, bytes)))
}

/// Appends bytes in lower-case hex, or `-` for none.
pub fn put_hex(alloc: Global, out: &mut Octets, bytes: &[u8]) -> Result<(), NoMemory>
    ensures { OnOk result (out.new ≡ out.old ++ hex_text bytes.now) }
{
    if bytes.is_empty() {
        return out.append(b"-");
    }
    let text = hex::encode(alloc, bytes)?;
    out.append(text.as_bytes())
}
