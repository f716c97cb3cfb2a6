ghost use Rattle.std.specs.Prelude.{◌≡◌, ◌≤◌, filter, filter_map, find, length, not, IfOk};
ghost use Rattle.std.specs.List.{list_any};
ghost use Rattle.interact_queue.specs.Queue.{is_in};
ghost use Rattle.discard_ledger.specs.Discards.{discard_of};
ghost use Rattle.session_model.specs.Phases.{is_owing};
ghost use Rattle.session_model.specs.Tables.{is_kept_id as is_kept_at};
ghost use Rattle.session_model.specs.Reading.{has_that_id};
ghost use Rattle.session_clients.specs.Clients.{conns_in, id_in, phase_in, quiet_in, table_in};
ghost use Rattle.session_model.specs.Replies.{is_late};

use crate::Client;
use crate::entries::is_kept_id;
use crate::live_rows::LiveRows;
use crate::phases::{is_late, is_owing};
use crate::rows::{has_id, id_in, phase_in, quiet_in, table_in};
use checkpoint_records::Book;
use owned_lists::{Command, CommandList, NoMemory};
use sm_world::{Conn, ConnList};
use std::alloc::Global;
use xsmp_properties::command_of;

/// The first of these connections that registered under this ID.
pub(crate) fn client_in(rows: &LiveRows, conns: &[Conn], id: &[u8]) -> Option<Conn>
    ensures { result ≡ find (λ c. has_that_id id.now (id_in c rows.now)) conns.now }
{
    conns.iter().copied().find(|conn| has_id(rows, *conn, id))
}

/// The DiscardCommand of a connection.
pub(crate) fn discard_in(
    alloc: Global,
    rows: &LiveRows,
    conn: Conn,
) -> Result<Option<Command>, NoMemory>
    ensures { IfOk result (λ command. command ≡ discard_of (table_in conn rows.now)) }
{
    match table_in(rows, conn) {
        Some(table) => command_of(alloc, table, b"DiscardCommand"),
        None => Ok(None),
    }
}

/// The DiscardCommands of these connections, in their order.
pub(crate) fn discards_in(
    alloc: Global,
    rows: &LiveRows,
    conns: &[Conn],
) -> Result<CommandList, NoMemory>
    ensures { IfOk result (λ commands.
        commands ≡ filter_map (λ c. discard_of (table_in c rows.now)) conns.now) }
{
    let mut commands = CommandList::new(alloc);
    for conn in conns {
        if let Some(command) = discard_in(alloc, rows, *conn)? {
            commands.push(command)?;
        }
    }
    Ok(commands)
}

fn is_in(conn: Conn, conns: &[Conn]) -> bool
    ensures { result ≡ is_in conn conns.now }
{
    conns.iter().any(|other| *other == conn)
}

/// The connections that have a row and aren't among these, in the order of their rows.
pub(crate) fn conns_beside(
    alloc: Global,
    rows: &[Client],
    conns: &[Conn],
) -> Result<ConnList, NoMemory>
    ensures { IfOk result (λ others.
        others ≡ filter (λ c. not (is_in c conns.now)) (conns_in rows.now)) }
{
    let mut others = ConnList::new(alloc);
    for row in rows {
        if !is_in(row.conn, conns) {
            others.push(row.conn)?;
        }
    }
    Ok(others)
}

/// Those of these connections that are overdue once these milliseconds have passed, in their order.
pub(crate) fn late_among(
    alloc: Global,
    rows: &LiveRows,
    conns: &[Conn],
    patience: u64,
    milliseconds: u64,
) -> Result<ConnList, NoMemory>
    ensures { IfOk result (λ late.
        late ≡ filter (λ c. is_late patience milliseconds (phase_in c rows.now)
        (quiet_in c rows.now)) conns.now) }
{
    let mut late = ConnList::new(alloc);
    for conn in conns {
        if is_late(
            patience,
            milliseconds,
            phase_in(rows, *conn),
            quiet_in(rows, *conn),
        ) {
            late.push(*conn)?;
        }
    }
    Ok(late)
}

/// Whether the client of a row owes an answer to a SaveYourself.
fn is_any_row_owing(rows: &[Client]) -> bool
    ensures { result ≡ list_any (λ k. is_owing k.phase) rows.now }
{
    rows.iter().any(|row| is_owing(row.phase))
}

/// Whether one of these connections owes an answer to a SaveYourself. Mostly nobody does, which the
/// rows tell alone.
pub(crate) fn is_any_owing(rows: &LiveRows, conns: &[Conn]) -> bool
    ensures { result ≡ list_any (λ c. is_owing (phase_in c rows.now)) conns.now }
{
    is_any_row_owing(rows.as_slice()) && conns.iter().any(|conn| is_owing(phase_in(rows, *conn)))
}

/// How many of these connections have an ID which no session of the book has an entry for.
pub(crate) fn count_new_ids(rows: &LiveRows, conns: &[Conn], book: &Book) -> usize
    ensures count { result
        ≡ length (filter (λ id. not (is_kept_at id book.now))
        (filter_map (λ c. id_in c rows.now) conns.now)) }
    ensures within { result ≤ length conns.now }
{
    let mut count = 0;
    for conn in conns {
        if id_in(rows, *conn).is_some_and(|id| !is_kept_id(book, id.as_slice())) {
            count += 1;
        }
    }
    count
}
