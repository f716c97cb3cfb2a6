ghost use Rattle.std.specs.Prelude.{◌≡◌, ◌++◌, OnOk};
ghost use Rattle.std.specs.List.{flat_map};
ghost use Rattle.std.specs.Fmt.{decimal};
ghost use Rattle.message_text.specs.Words.{bytes_text, char_text, choice_text, is_plain as plain_in, plain_text, quoted};

use control_lines::put_hex;
use owned_lists::{NoMemory, Octets};
use std::alloc::Global;

/// How values are written.
#[derive(Clone, Copy, Debug, PartialEq, Eq)]
pub enum Writing {
    /// For programs: bytes in hex, and numbers for words.
    Codes,
    /// For people: bytes as text, and words.
    Words,
}

/// Appends a number in decimal.
pub fn put_number(alloc: Global, out: &mut Octets, number: u64) -> Result<(), NoMemory>
    ensures { OnOk result (out.new ≡ out.old ++ decimal number) }
{
    let text = number.to_string(alloc)?;
    out.append(text.as_bytes())
}

/// Appends a number or the word for it.
pub fn put_choice(
    alloc: Global,
    writing: Writing,
    out: &mut Octets,
    number: u8,
    word: &str,
) -> Result<(), NoMemory>
    ensures { OnOk result (out.new ≡ out.old ++ choice_text writing number word.now) }
{
    match writing {
        Writing::Codes => put_number(alloc, out, number.into()),
        Writing::Words => out.append(word.as_bytes()),
    }
}

fn is_plain(byte: u8) -> bool
    ensures { result ≡ plain_in byte }
{
    32 <= byte && byte <= 126 && byte != b'"' && byte != b'\\'
}

/// Appends a byte as it is, or what stands for it.
fn put_char(alloc: Global, out: &mut Octets, byte: u8) -> Result<(), NoMemory>
    ensures { OnOk result (out.new ≡ out.old ++ char_text byte) }
{
    if is_plain(byte) {
        return out.append(&[byte]);
    }
    if byte == b'"' || byte == b'\\' {
        out.append(b"\\")?;
        return out.append(&[byte]);
    }
    out.append(b"\\x")?;
    put_hex(alloc, out, &[byte])
}

/// Appends a text in which each byte that isn't printable ASCII, each quotation mark and each
/// backslash is escaped.
pub fn put_plain(alloc: Global, out: &mut Octets, bytes: &[u8]) -> Result<(), NoMemory>
    ensures { OnOk result (out.new ≡ out.old ++ plain_text bytes.now) }
{
    for byte in bytes {
        put_char(alloc, out, *byte)?;
    }
    Ok(())
}

/// Appends such a text between quotation marks.
pub fn put_quoted(alloc: Global, out: &mut Octets, bytes: &[u8]) -> Result<(), NoMemory>
    ensures { OnOk result (out.new ≡ out.old ++ quoted bytes.now) }
{
    out.append(b"\"")?;
    put_plain(alloc, out, bytes)?;
    out.append(b"\"")
}

/// Appends bytes.
pub fn put_bytes(
    alloc: Global,
    writing: Writing,
    out: &mut Octets,
    bytes: &[u8],
) -> Result<(), NoMemory>
    ensures { OnOk result (out.new ≡ out.old ++ bytes_text writing bytes.now) }
{
    match writing {
        Writing::Codes => put_hex(alloc, out, bytes),
        Writing::Words => put_quoted(alloc, out, bytes),
    }
}
