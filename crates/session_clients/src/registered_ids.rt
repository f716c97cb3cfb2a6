ghost use Rattle.std.specs.Prelude.{◌≡◌, filter_map, find, map, option_copied, option_map, IfOk};
ghost use Rattle.std.specs.Str.{bytes_eq};
ghost use Rattle.session_model.specs.Reading.{Clients, client_of};
ghost use Rattle.session_clients.specs.Clients.{id_in};
ghost use Rattle.session_clients.specs.Ids.{conn_of, registered_ids, registered_under};

use crate::ended_id::EndedId;
use crate::live_rows::LiveRows;
use crate::rows::id_in;
use owned_lists::NoMemory;
use sm_world::Conn;
use std::alloc::Global;
use std::marker::Model;

/// A connection, and the ID under which it registered.
#[derive(Drop)]
struct RegisteredId<'a> {
    conn: Conn,
    id: EndedId<'a>,
}

/// The registered connections with their IDs, in the order in which they registered: for one who
/// looks up many IDs while the clients stay as they are, and so needn't find the row of each
/// connection anew each time.
#[derive(Drop)]
pub struct RegisteredIds<'a> {
    ids: Vec<RegisteredId<'a>>,
}

impl<'a> Model for RegisteredIds<'a> {
    ghost use Rattle.std.specs.Prelude.{List, map};
    ghost use Rattle.session_clients.specs.Ids.{Registered, registered_under};

    ghost Value = { List Registered };

    ghost view = { λ known. map (λ k. registered_under k.conn k.id) known.ids.items };
}

/// The first of these that has this ID.
fn known_among<'a, 'b>(
    ids: &'b [RegisteredId<'a>],
    id: &EndedId<'_>,
) -> Option<&'b RegisteredId<'a>>
    ensures { option_copied result ≡ find (λ k. bytes_eq id.now k.id) ids.now }
{
    ids.iter().find(|known| id.is_same(&known.id))
}

fn conn_among(ids: &[RegisteredId<'_>], id: &EndedId<'_>) -> Option<Conn>
    ensures { result ≡ conn_of id.now (map (λ k. registered_under k.conn k.id) ids.now) }
{
    match known_among(ids, id) {
        Some(known) => Some(known.conn),
        None => None,
    }
}

impl<'a> RegisteredIds<'a> {
    /// These of the connections that have an ID, each with it.
    pub(crate) fn among(
        alloc: Global,
        rows: &'a LiveRows,
        conns: &[Conn],
    ) -> Result<RegisteredIds<'a>, NoMemory>
        ensures { IfOk result (λ known.
            known ≡ filter_map (λ c. option_map (registered_under c) (id_in c rows.now)) conns.now) }
    {
        let mut ids = Vec::with_capacity(alloc, conns.len())?;
        for conn in conns {
            if let Some(id) = id_in(rows, *conn) {
                ids.push(RegisteredId {
                    conn: *conn,
                    id: EndedId::new(id.as_slice()),
                })?;
            }
        }
        Ok(RegisteredIds { ids })
    }

    /// The first registered connection with this ID.
    pub fn client_of(&self, id: &[u8]) -> Option<Conn>
        ensures { (clients : Clients) → self.now ≡ registered_ids clients →
            result ≡ client_of id.now clients }
    {
        conn_among(self.ids.as_slice(), &EndedId::new(id))
    }
}
