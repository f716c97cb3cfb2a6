ghost use Rattle.std.specs.Prelude.{◌≡◌, ◌==◌, [], false, is_some, map, option_copied, position, slice_get, unwrap_or, OnOk};
ghost use Rattle.session_model.specs.declared.events.SessionEvent.TheVariants.{Ready, Tick};
ghost use Rattle.interact_queue.specs.Queue.{is_in};
ghost use Rattle.session_model.specs.Moves.{Gave, Outside, Unset};
ghost use Rattle.session_model.specs.Phases.{may_interact};
ghost use Rattle.session_model.specs.Reading.{has_that_id};
ghost use Rattle.session_clients.specs.Clients.{conns_in, id_in, is_reply, phase_in, quiet_in, saved_in, table_in};
ghost use Rattle.session_clients.specs.Rows.{client_by, client_heard, client_registered, client_setting, is_of, row_in};
ghost use Rattle.ice_values.specs.Walks.{walk_left};

use crate::Client;
use crate::live_rows::LiveRows;
use ice_values::{Array8, PropertyWalk};
use owned_lists::NoMemory;
use round_agreement::Wanted;
use session_model::Phase;
use sm_world::Conn;
use xsmp_messages::XsmpMessage;
use xsmp_properties::{PropertyTable, same_bytes};

/// The first row of a connection.
pub(crate) fn first_row(rows: &[Client], conn: Conn) -> Option<&Client>
    ensures { option_copied result ≡ row_in conn rows.now }
{
    rows.iter().find(|row| row.conn == conn)
}

/// Whether the row at a place is that of a connection.
pub(crate) fn stands_at(rows: &[Client], place: usize, conn: Conn) -> bool
    ensures { result ≡ is_of conn (slice_get rows.now place) }
{
    match rows.get(place) {
        Some(row) => row.conn == conn,
        None => false,
    }
}

/// Whether a connection has a row.
pub(crate) fn has_row(rows: &LiveRows, conn: Conn) -> bool
    ensures { result ≡ is_in conn (conns_in rows.now) }
{
    rows.row(conn).is_some()
}

pub(crate) fn phase_in(rows: &LiveRows, conn: Conn) -> Option<Phase>
    ensures { result ≡ phase_in conn rows.now }
{
    rows.row(conn)?.phase
}

pub(crate) fn id_in(rows: &LiveRows, conn: Conn) -> Option<&Array8>
    ensures { option_copied result ≡ id_in conn rows.now }
{
    rows.row(conn)?.id.as_ref()
}

/// For how many milliseconds a connection has been quiet; 0 where it has no row.
pub(crate) fn quiet_in(rows: &LiveRows, conn: Conn) -> u64
    ensures { result ≡ quiet_in conn rows.now }
{
    match rows.row(conn) {
        Some(row) => row.quiet,
        None => 0,
    }
}

pub(crate) fn table_in(rows: &LiveRows, conn: Conn) -> Option<&PropertyTable>
    ensures known { is_some result ≡ is_in conn (conns_in rows.now) }
    ensures table { unwrap_or (option_copied result) [] ≡ table_in conn rows.now }
{
    Some(&rows.row(conn)?.table)
}

pub(crate) fn saved_in(rows: &LiveRows, conn: Conn) -> Option<&PropertyTable>
    ensures { option_copied result ≡ saved_in conn rows.now }
{
    rows.row(conn)?.saved.as_ref()
}

/// Whether a connection registered under this ID.
pub(crate) fn has_id(rows: &LiveRows, conn: Conn, id: &[u8]) -> bool
    ensures { result ≡ has_that_id id.now (id_in conn rows.now) }
{
    id_in(rows, conn).is_some_and(|other| same_bytes(id, other.as_slice()))
}

/// XSMP began on a connection.
pub(crate) fn ready_each(rows: &mut [Client], conn: Conn)
    ensures { rows.new ≡ map (client_by (Outside (Ready conn))) rows.old }
{
    for row in rows {
        row.ready(conn);
    }
}

/// XSMP was ended on a connection.
pub(crate) fn unset_each(rows: &mut [Client], conn: Conn)
    ensures { rows.new ≡ map (client_by (Unset conn)) rows.old }
{
    for row in rows {
        row.unset(conn);
    }
}

/// So many milliseconds have passed.
pub(crate) fn tick_each(rows: &mut [Client], milliseconds: u64)
    ensures { rows.new ≡ map (client_by (Outside (Tick milliseconds))) rows.old }
{
    for row in rows {
        row.tick(milliseconds);
    }
}

/// The place of the first row of a connection.
fn place_in(rows: &[Client], conn: Conn) -> Option<usize>
    ensures { result ≡ position (λ k. k.conn == conn) rows.now }
{
    rows.iter().position(|row| row.conn == conn)
}

/// A connection got an ID, and with it this as its first table. Both go into its first row; a later
/// row would get copies, but a connection has no second one while it is live.
pub(crate) fn register_in(
    rows: &mut [Client],
    conn: Conn,
    id: Array8,
    table: PropertyTable,
) -> Result<(), NoMemory>
    ensures { OnOk result (rows.new ≡ map (client_registered conn id table) rows.old) }
{
    let place = match place_in(rows, conn) {
        Some(place) => place,
        None => return Ok(()),
    };
    let (_, rest) = rows.split_at_mut(place);
    register_from(rest, conn, id, table)
}

/// As `register_in` says, over rows of which the first alone can get what isn't a copy.
fn register_from(
    rows: &mut [Client],
    conn: Conn,
    id: Array8,
    table: PropertyTable,
) -> Result<(), NoMemory>
    ensures { OnOk result (rows.new ≡ map (client_registered conn id table) rows.old) }
{
    match rows.split_first_mut() {
        Some((first, later)) => {
            register_each(later, conn, &id, &table)?;
            first.register_owned(conn, id, table);
            Ok(())
        }
        None => Ok(()),
    }
}

/// A connection got an ID, and with it a copy of this as its first table.
fn register_each(
    rows: &mut [Client],
    conn: Conn,
    id: &Array8,
    table: &PropertyTable,
) -> Result<(), NoMemory>
    ensures { OnOk result (rows.new ≡ map (client_registered conn id.now table.now) rows.old) }
{
    for row in rows {
        row.register(conn, id, table)?;
    }
    Ok(())
}

/// A connection was sent a message, which doesn't give it an ID.
pub(crate) fn give_each(rows: &mut [Client], conn: Conn, message: &XsmpMessage)
    requires { is_reply message.now ≡ false }
    ensures { rows.new ≡ map (client_by (Gave conn message.now)) rows.old }
{
    for row in rows {
        row.give(conn, message);
    }
}

/// A connection said this.
pub(crate) fn hear_each(
    rows: &mut [Client],
    conn: Conn,
    message: &XsmpMessage,
    wanted: Option<Wanted>,
) -> Result<(), NoMemory>
    ensures { OnOk result
        (rows.new ≡ map (client_heard conn message.now (may_interact wanted)) rows.old) }
{
    for row in rows {
        row.hear(conn, message, wanted)?;
    }
    Ok(())
}

/// A connection set all properties of a list, where it lies.
pub(crate) fn set_each(
    rows: &mut [Client],
    conn: Conn,
    walk: PropertyWalk<'_>,
) -> Result<(), NoMemory>
    ensures { OnOk result (rows.new ≡ map (client_setting conn (walk_left walk.entry)) rows.old) }
{
    for row in rows {
        row.set(conn, walk)?;
    }
    Ok(())
}
