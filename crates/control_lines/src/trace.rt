ghost use Rattle.std.specs.Prelude.{◌≡◌, ◌++◌, ◌↔◌, List, ℕ, Some, IsTrue, IsSome, IfOk, OnOk};
ghost use Rattle.std.specs.List.{flat_map};
ghost use Rattle.std.specs.Fmt.{decimal};
ghost use Rattle.std.specs.Io.BufRead.{strip_last};
ghost use Rattle.control_lines.specs.Fields.{bytes_text};
ghost use Rattle.control_lines.specs.Orders.{order_text};
ghost use Rattle.control_lines.specs.Traces.{event_text, field_text, directory_text, pair_text, command_text, started_text, effect_text};

use crate::fields::put_hex;
use owned_lists::{Command, NoMemory, Octets};
use sm_world::{Conn, Effect, Event, Order};
use std::alloc::Global;

/// Appends a word with its space, and a number.
fn put_number(alloc: Global, out: &mut Octets, word: &str, number: u64) -> Result<(), NoMemory>
    ensures { OnOk result (out.new ≡ out.old ++ (word.now ++ decimal number)) }
{
    let number = number.to_string(alloc)?;
    out.append(word.as_bytes())?;
    out.append(number.as_bytes())
}

/// Appends a word with its space, a connection's number, and bytes in lower-case hex.
fn put_bytes(
    alloc: Global,
    out: &mut Octets,
    word: &str,
    conn: Conn,
    bytes: &[u8],
) -> Result<(), NoMemory>
    ensures { OnOk result (out.new ≡ out.old ++ (word.now ++ bytes_text conn bytes.now)) }
{
    let text = hex::encode(alloc, bytes)?;
    put_number(alloc, out, word, conn.into())?;
    out.append(b" ")?;
    out.append(text.as_bytes())
}

/// Appends an order as the operator writes it.
fn put_order(alloc: Global, out: &mut Octets, order: &Order) -> Result<(), NoMemory>
    ensures { OnOk result (out.new ≡ out.old ++ order_text order.now) }
{
    match order {
        Order::Checkpoint => out.append(b"checkpoint"),
        Order::Shutdown => out.append(b"shutdown"),
        Order::Cancel => out.append(b"cancel"),
        Order::Status => out.append(b"status"),
        Order::DropConn(conn) => put_number(alloc, out, "drop ", (*conn).into()),
        Order::Forget(id) => {
            out.append(b"forget ")?;
            out.append(id.as_slice())
        }
    }
}

/// Appends the line of an event.
fn put_event(alloc: Global, out: &mut Octets, event: &Event) -> Result<(), NoMemory>
    ensures { OnOk result (out.new ≡ out.old ++ event_text event.now) }
{
    match event {
        Event::Joined(conn) => put_number(alloc, out, "join ", (*conn).into()),
        Event::Piece(conn, bytes) => put_bytes(alloc, out, "piece ", *conn, bytes.as_slice()),
        Event::Gone(conn) => put_number(alloc, out, "gone ", (*conn).into()),
        Event::Operator(order) => {
            out.append(b"order ")?;
            put_order(alloc, out, order)
        }
        Event::Tick(milliseconds) => put_number(alloc, out, "tick ", *milliseconds),
        Event::End => out.append(b"end"),
    }
}

/// Appends a field of a command behind its space: the bytes in lower-case hex, or `-` for none.
fn put_field(alloc: Global, out: &mut Octets, field: &[u8]) -> Result<(), NoMemory>
    ensures { OnOk result (out.new ≡ out.old ++ field_text field.now) }
{
    out.append(b" ")?;
    put_hex(alloc, out, field)
}

/// Appends the words of a command.
fn put_words(alloc: Global, out: &mut Octets, words: &[Octets]) -> Result<(), NoMemory>
    ensures { OnOk result (out.new ≡ out.old ++ flat_map field_text words.now) }
{
    for word in words {
        put_field(alloc, out, word.as_slice())?;
    }
    Ok(())
}

/// Appends where a command is run, where a directory is set.
fn put_directory(alloc: Global, out: &mut Octets, directory: &[u8]) -> Result<(), NoMemory>
    ensures { OnOk result (out.new ≡ out.old ++ directory_text directory.now) }
{
    if directory.is_empty() {
        return Ok(());
    }
    out.append(b" @")?;
    put_field(alloc, out, directory)
}

/// Appends a name and its value.
fn put_pair(alloc: Global, out: &mut Octets, name: &[u8], value: &[u8]) -> Result<(), NoMemory>
    ensures { OnOk result (out.new ≡ out.old ++ pair_text (name.now, value.now)) }
{
    out.append(b" +")?;
    put_field(alloc, out, name)?;
    put_field(alloc, out, value)
}

/// Appends names and values.
fn put_pairs(alloc: Global, out: &mut Octets, pairs: &[(Octets, Octets)]) -> Result<(), NoMemory>
    ensures { OnOk result (out.new ≡ out.old ++ flat_map pair_text pairs.now) }
{
    for pair in pairs {
        put_pair(alloc, out, pair.0.as_slice(), pair.1.as_slice())?;
    }
    Ok(())
}

/// Appends all of a command.
fn put_command(alloc: Global, out: &mut Octets, command: &Command) -> Result<(), NoMemory>
    ensures { OnOk result (out.new ≡ out.old ++ command_text command.now) }
{
    put_words(alloc, out, command.words.as_slice())?;
    put_directory(alloc, out, command.directory.as_slice())?;
    put_pairs(alloc, out, command.environment.as_slice())
}

/// A text without its newline.
fn without_newline(text: &[u8]) -> &[u8]
    ensures { result.now ≡ strip_last 10 text.now }
{
    match text {
        [line @ .., b'\n'] => line,
        _ => text,
    }
}

/// The line of a command that was started, or that couldn't be.
pub fn started_line(alloc: Global, command: &Command, succeeded: bool) -> Result<Octets, NoMemory>
    ensures { IfOk result (λ line. line ≡ started_text succeeded command.now) }
{
    let word = if succeeded { "started" } else { "unstarted" };
    let mut line = Octets::from_slice(alloc, word.as_bytes())?;
    put_command(alloc, &mut line, command)?;
    Ok(line)
}

/// The line of a text that was printed.
fn printed_line(alloc: Global, text: &[u8]) -> Result<Octets, NoMemory>
    ensures { IfOk result (λ line. effect_text (Effect.Printed text.now) ≡ Some line) }
{
    let mut line = Octets::from_slice(alloc, b"printed ")?;
    line.append(without_newline(text))?;
    Ok(line)
}

/// Whether an effect has a line in a trace.
pub fn has_line(effect: &Effect) -> bool
    ensures { IsTrue result ↔ IsSome (effect_text effect.now) }
{
    match effect {
        Effect::Heard(_) => true,
        Effect::Sent(..) => true,
        Effect::Shut(_) => true,
        Effect::Started(..) => true,
        Effect::Printed(_) => true,
        Effect::Wrote(..) => false,
        Effect::Torn(..) => false,
        Effect::Synced => false,
        Effect::SyncFailed => false,
        Effect::Published(..) => false,
    }
}

/// The line of an effect in a trace, without its newline.
pub fn effect_line(alloc: Global, effect: &Effect) -> Result<Octets, NoMemory>
    requires { IsSome (effect_text effect.now) }
    ensures { IfOk result (λ line. effect_text effect.now ≡ Some line) }
{
    let mut line = Octets::new(alloc);
    match effect {
        Effect::Heard(event) => put_event(alloc, &mut line, event)?,
        Effect::Sent(conn, bytes) => {
            put_bytes(alloc, &mut line, "sent ", *conn, bytes.as_slice())?
        }
        Effect::Shut(conn) => put_number(alloc, &mut line, "shut ", (*conn).into())?,
        Effect::Started(command, succeeded) => return started_line(alloc, command, *succeeded),
        Effect::Printed(text) => return printed_line(alloc, text.as_slice()),
        _ => unreachable!(),
    }
    Ok(line)
}
