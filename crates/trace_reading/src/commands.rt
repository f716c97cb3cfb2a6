ghost use Rattle.std.specs.Prelude.{◌≡◌, ◌++◌, OnOk};
ghost use Rattle.trace_reading.specs.Commands.{command_told, field_told};

use control_lines::read_hex;
use message_text::{put_plain, put_quoted};
use owned_lists::{NoMemory, Octets};
use std::alloc::Global;
use trace_replay::first_field;

/// Appends a field of a command: a word of it, or what its mark says.
fn put_field(alloc: Global, out: &mut Octets, field: &[u8]) -> Result<(), NoMemory>
    ensures { OnOk result (out.new ≡ out.old ++ field_told field.now) }
{
    out.append(b" ")?;
    if field == b"@".as_slice() {
        return out.append(b"in");
    }
    if field == b"+".as_slice() {
        return out.append(b"with");
    }
    if field == b"-".as_slice() {
        return put_quoted(alloc, out, &[]);
    }
    match read_hex(alloc, field)? {
        Some(bytes) => put_quoted(alloc, out, bytes.as_slice()),
        None => put_plain(alloc, out, field),
    }
}

/// Appends a command by its fields in a trace.
pub fn put_command(alloc: Global, out: &mut Octets, text: &[u8]) -> Result<(), NoMemory>
    ensures { OnOk result (out.new ≡ out.old ++ command_told text.now) }
{
    let mut left = text;
    loop {
        let (field, rest) = first_field(left);
        put_field(alloc, out, field)?;
        match rest {
            Some(rest) => left = rest,
            None => return Ok(()),
        }
    }
}
