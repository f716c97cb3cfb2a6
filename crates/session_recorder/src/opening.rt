ghost use Rattle.std.specs.Prelude.{◌≡◌, ◌++◌, IfOk, OnOk};
ghost use Rattle.control_lines.specs.Fields.{hex_text};
ghost use Rattle.store_report.specs.Findings.{OpensByRules};
ghost use Rattle.session_recorder.specs.Openings.{book_line, cookie_line, patience_line, session_line, word_line, IsOpening};

use checkpoint_records::spell_book;
use control_lines::put_hex;
use ice_cookie::Cookie;
use owned_lists::{NoMemory, Octets};
use std::alloc::Global;
use store_report::{Finding, look_into};

/// Appends a word, bytes in hex behind it, and a newline.
fn put_bytes(alloc: Global, out: &mut Octets, word: &str, bytes: &[u8]) -> Result<(), NoMemory>
    ensures { OnOk result (out.new ≡ out.old ++ word_line word.now (hex_text bytes.now)) }
{
    out.append(word.as_bytes())?;
    put_hex(alloc, out, bytes)?;
    out.append(b"\n")
}

/// Appends the line of a book that opens.
fn put_book(alloc: Global, out: &mut Octets, finding: &Finding) -> Result<(), NoMemory>
    requires { OpensByRules finding.now }
    ensures { OnOk result (out.new ≡ out.old ++ book_line finding.now) }
{
    match finding {
        Finding::Opens(book) => {
            let spelled = spell_book(alloc, book)?;
            put_bytes(alloc, out, "book ", spelled.as_slice())
        }
        Finding::Damaged(_) => Ok(()),
        Finding::WrongSize(_) => Ok(()),
    }
}

/// Appends the line of a patience, where there is one.
fn put_patience(alloc: Global, out: &mut Octets, patience: u64) -> Result<(), NoMemory>
    ensures { OnOk result (out.new ≡ out.old ++ patience_line patience) }
{
    if patience == 0 {
        return Ok(());
    }
    let number = patience.to_string(alloc)?;
    out.append(b"patience ")?;
    out.append(number.as_bytes())?;
    out.append(b"\n")
}

/// Appends the line of the session's name, unless it is `default`.
fn put_session(out: &mut Octets, name: &[u8]) -> Result<(), NoMemory>
    ensures { OnOk result (out.new ≡ out.old ++ session_line name.now) }
{
    if name == b"default".as_slice() {
        return Ok(());
    }
    out.append(b"session ")?;
    out.append(name)?;
    out.append(b"\n")
}

/// What the record of a session opens with, over a store with these bytes: the session's cookie, the
/// book of the store in hex, how many milliseconds a client may be silent, where that is limited, and
/// what the session is called, where that isn't `default`. A store over which no session opens gives
/// no line.
pub fn opening_of(
    alloc: Global,
    store: Octets,
    cookie: &Cookie,
    patience: u64,
    session: &[u8],
) -> Result<Octets, NoMemory>
    ensures { IfOk result (IsOpening store cookie.now patience session.now) }
{
    let finding = look_into(alloc, store)?;
    let mut text = Octets::new(alloc);
    put_bytes(alloc, &mut text, "cookie ", &cookie.0)?;
    put_book(alloc, &mut text, &finding)?;
    put_patience(alloc, &mut text, patience)?;
    put_session(&mut text, session)?;
    Ok(text)
}
