ghost use Rattle.std.specs.Prelude.{◌≡◌, ◌++◌, ◌∷◌, IfOk, OnOk};
ghost use Rattle.std.specs.List.{flat_map, list_any};
ghost use Rattle.std.specs.Str.{chars};
ghost use Rattle.shown_text.specs.Shown.{are_bare, byte_text, is_bare, is_blank, is_control, is_hidden, is_mark, is_plain, is_whole, word_text, words_text};

use owned_lists::{NoMemory, Octets};
use std::alloc::Global;

/// Whether a character beyond ASCII, or the last of ASCII, is one that controls.
fn is_control(code: u32) -> bool
    ensures { result ≡ is_control code }
{
    127 <= code && code <= 159 || code == 173
}

/// Whether a character beyond ASCII is a blank, or ends a line.
fn is_blank(code: u32) -> bool
    ensures { result ≡ is_blank code }
{
    code == 160
        || code == 5760
        || 8192 <= code && code <= 8202
        || 8232 <= code && code <= 8233
        || code == 8239
        || code == 8287
        || code == 12288
}

/// Whether a character turns the direction of what stands beside it, or has no width.
fn is_mark(code: u32) -> bool
    ensures { result ≡ is_mark code }
{
    code == 1564
        || code == 6158
        || 8203 <= code && code <= 8207
        || 8234 <= code && code <= 8238
        || 8288 <= code && code <= 8303
        || code == 65279
        || 65529 <= code && code <= 65531
        || 917504 <= code && code <= 921599
}

/// Whether a character beyond ASCII isn't seen, or changes how others are.
fn is_hidden(character: char) -> bool
    ensures { result ≡ is_hidden character }
{
    let code = character as u32;
    is_control(code) || is_blank(code) || is_mark(code)
}

fn has_hidden(text: &str) -> bool
    ensures { result ≡ list_any is_hidden (chars text.now) }
{
    text.chars().any(|character| is_hidden(character))
}

/// Whether bytes are a text none of whose characters beyond ASCII is hidden.
pub fn is_whole(word: &[u8]) -> bool
    ensures { result ≡ is_whole word.now }
{
    match str::from_utf8(word) {
        Ok(text) => !has_hidden(text),
        Err(_) => false,
    }
}

/// Whether a byte is shown as itself, in a whole text or in another.
fn is_plain(whole: bool, byte: u8) -> bool
    ensures { result ≡ is_plain whole byte }
{
    32 <= byte && byte <= 126 && byte != b'"' && byte != b'\\' || whole && byte >= 128
}

fn are_bare(whole: bool, bytes: &[u8]) -> bool
    ensures { result ≡ are_bare whole bytes.now }
{
    bytes
        .iter()
        .all(|byte| is_plain(whole, *byte) && *byte != b' ')
}

fn is_bare(word: &[u8], whole: bool) -> bool
    requires { whole ≡ is_whole word.now }
    ensures { result ≡ is_bare word.now }
{
    !word.is_empty() && are_bare(whole, word)
}

fn put_byte(alloc: Global, out: &mut Octets, whole: bool, byte: u8) -> Result<(), NoMemory>
    ensures { OnOk result (out.new ≡ out.old ++ byte_text whole byte) }
{
    if is_plain(whole, byte) {
        return out.append(&[byte]);
    }
    let digits = hex::encode(alloc, &[byte])?;
    out.append(b"\\x")?;
    out.append(digits.as_bytes())
}

fn put_bytes(alloc: Global, out: &mut Octets, whole: bool, bytes: &[u8]) -> Result<(), NoMemory>
    ensures { OnOk result (out.new ≡ out.old ++ flat_map (byte_text whole) bytes.now) }
{
    for &byte in bytes {
        put_byte(alloc, out, whole, byte)?;
    }
    Ok(())
}

/// Appends a word as people read it: between quotation marks where it has to be.
pub fn put_word(alloc: Global, out: &mut Octets, word: &[u8]) -> Result<(), NoMemory>
    ensures { OnOk result (out.new ≡ out.old ++ word_text word.now) }
{
    let whole = is_whole(word);
    if is_bare(word, whole) {
        return out.append(word);
    }
    out.append(b"\"")?;
    put_bytes(alloc, out, whole, word)?;
    out.append(b"\"")
}

/// Appends a blank and a word, for each of these.
pub fn put_words(alloc: Global, out: &mut Octets, words: &[Octets]) -> Result<(), NoMemory>
    ensures { OnOk result (out.new ≡ out.old ++ words_text words.now) }
{
    for word in words {
        out.append(b" ")?;
        put_word(alloc, out, word.as_slice())?;
    }
    Ok(())
}

/// A word as people read it.
pub fn shown_word(alloc: Global, word: &[u8]) -> Result<Octets, NoMemory>
    ensures { IfOk result (λ text. text ≡ word_text word.now) }
{
    let mut text = Octets::new(alloc);
    put_word(alloc, &mut text, word)?;
    Ok(text)
}
