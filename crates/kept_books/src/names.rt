ghost use Rattle.std.specs.Prelude.{◌≡◌, ℕ, List, IfOk, MatchOption};
ghost use Rattle.kept_books.specs.Names.{IsFileName, file_name as name_in};

use checkpoint_records::is_name;
use control_lines::{put_hex, read_hex, read_number, split_once};
use owned_lists::{NoMemory, Octets};
use std::alloc::Global;

/// What the file is called of a book with this number, which the login to a session kept.
pub fn file_name(alloc: Global, number: u64, session: &[u8]) -> Result<Octets, NoMemory>
    ensures { IfOk result (λ name. name ≡ name_in number session.now) }
{
    let digits = number.to_string(alloc)?;
    let mut name = Octets::from_slice(alloc, digits.as_bytes())?;
    name.append(b".")?;
    put_hex(alloc, &mut name, session)?;
    Ok(name)
}

/// The number and the session that a file's name says.
pub fn read_file_name(alloc: Global, name: &[u8]) -> Result<Option<(u64, Octets)>, NoMemory>
    ensures { IfOk result (λ said.
        MatchOption said ((number : ℕ) (session : List ℕ) →
        ¬ (IsFileName name.now number session)) (λ said. IsFileName name.now said.0 said.1)) }
{
    let (digits, hex) = match split_once(name, b'.') {
        Some(parts) => parts,
        None => return Ok(None),
    };
    let number = match read_number(alloc, digits)? {
        Some(number) => number,
        None => return Ok(None),
    };
    let session = match read_hex(alloc, hex)? {
        Some(session) => session,
        None => return Ok(None),
    };
    if is_name(session.as_slice()) {
        Ok(Some((number, session)))
    } else {
        Ok(None)
    }
}
