ghost use Rattle.std.specs.Prelude.{◌≡◌, ◌-◌, ◌^◌, [], ℕ, List, Bool, false, filter, is_some, length, min, not, option_copied, unwrap_or, IfOk, OnOk};
ghost use Rattle.std.specs.List.{list_any};
ghost use Rattle.ice_values.specs.declared.property.Property.{Property};
ghost use Rattle.xsmp_messages.specs.declared.message.XsmpMessage.TheVariants.{RegisterClientReply, SetProperties};
ghost use Rattle.xsmp_properties.specs.Tables.{set_all};
ghost use Rattle.interact_queue.specs.Queue.{is_in};
ghost use Rattle.discard_ledger.specs.Discards.{discard_of};
ghost use Rattle.session_model.specs.declared.events.SessionEvent.TheVariants.{Joined, Left, Ready, Said, Tick};
ghost use Rattle.session_model.specs.Moves.{Closed, Gave, Outside, Unset};
ghost use Rattle.session_model.specs.Phases.{is_owing, may_interact};
ghost use Rattle.session_model.specs.Tables.{is_full};
ghost use Rattle.session_model.specs.Reading.{Reading, client_of};
ghost use Rattle.session_model.specs.Books.{standing};
ghost use Rattle.session_model.specs.Replies.{is_overdue, known_ids};
ghost use Rattle.session_clients.specs.Ids.{registered_ids};
ghost use Rattle.ice_values.specs.Walks.{walk_left};
ghost use Rattle.ice_values.specs.declared.saves.Dialog.{Dialog};
ghost use Rattle.session_clients.specs.Clients.{clients_in, conns_in, held_after, held_by, id_in, is_reply, phase_in, saved_in, table_in};

use crate::live_rows::LiveRows;
use crate::rows::{has_row, id_in, phase_in, saved_in, table_in};
use crate::summaries::{
    client_in, conns_beside, count_new_ids, discard_in, discards_in, is_any_owing, late_among,
};
use crate::tables::{is_over_by, would_be_full};
use crate::{Client, RegisteredIds};
use checkpoint_records::{Book, count_entries};
use ice_values::{Array8, PropertyList, PropertyWalk};
use owned_lists::{Command, CommandList, Duplicate, NoMemory};
use round_agreement::Wanted;
use session_model::Phase;
use sm_world::{Conn, ConnList};
use std::alloc::Global;
use std::marker::Model;
use xsmp_messages::XsmpMessage;
use xsmp_properties::PropertyTable;

/// What is held of all clients: a row for each live connection, in the order in which they joined,
/// and the registered connections, in the order in which they registered. Where a step answers want
/// of memory, nothing is promised of what is held then.
#[derive(Drop)]
pub struct Clients {
    rows: LiveRows,
    registered: Vec<Conn>,
}

impl Model for Clients {
    ghost use Rattle.session_clients.specs.Clients.{Held};

    ghost Value = { Held };

    ghost view = { λ clients.
        record { rows = clients.rows; registered = clients.registered.items } };
}

impl Clients {
    /// No rows, and nobody is registered; this takes no memory.
    pub fn new(alloc: Global) -> Clients
        ensures rows { result.rows ≡ [] }
        ensures registered { result.registered ≡ [] }
    {
        Clients {
            rows: LiveRows::new(alloc),
            registered: Vec::new(alloc),
        }
    }

    /// How far a connection is; None where XSMP hasn't begun on it, and where it isn't live.
    pub fn phase(&self, conn: Conn) -> Option<Phase>
        ensures { result ≡ phase_in conn self.now.rows }
    {
        phase_in(&self.rows, conn)
    }

    /// The ID under which a connection registered.
    pub fn id(&self, conn: Conn) -> Option<&Array8>
        ensures { option_copied result ≡ id_in conn self.now.rows }
    {
        id_in(&self.rows, conn)
    }

    /// What the client of a connection says of itself; None exactly where the connection isn't
    /// live.
    pub fn table(&self, conn: Conn) -> Option<&PropertyTable>
        ensures live { is_some result ≡ is_in conn (conns_in self.now.rows) }
        ensures table { unwrap_or (option_copied result) [] ≡ table_in conn self.now.rows }
    {
        table_in(&self.rows, conn)
    }

    /// The snapshot of a connection.
    pub fn saved(&self, conn: Conn) -> Option<&PropertyTable>
        ensures { option_copied result ≡ saved_in conn self.now.rows }
    {
        saved_in(&self.rows, conn)
    }

    /// Whether a connection is live.
    pub fn is_live(&self, conn: Conn) -> bool
        ensures { result ≡ is_in conn (conns_in self.now.rows) }
    {
        has_row(&self.rows, conn)
    }

    /// How many connections are live.
    pub fn live_count(&self) -> usize
        ensures { result ≡ length (conns_in self.now.rows) }
    {
        self.rows.as_slice().len()
    }

    /// The registered connections, in the order in which they registered.
    pub fn registered(&self) -> &[Conn]
        ensures { result.now ≡ self.now.registered }
    {
        self.registered.as_slice()
    }

    /// The rows of the live connections, in the order in which they joined.
    pub fn rows(&self) -> &[Client]
        ensures { result.now ≡ self.now.rows }
    {
        self.rows.as_slice()
    }

    /// The first registered connection with this ID.
    pub fn client_of(&self, id: &[u8]) -> Option<Conn>
        ensures { result ≡ client_of id.now (clients_in self.now) }
    {
        client_in(&self.rows, &self.registered, id)
    }

    /// The registered connections with their IDs, by which many IDs are looked up quickly.
    pub fn registered_ids(&self) -> Result<RegisteredIds<'_>, NoMemory>
        ensures { IfOk result (λ ids. ids ≡ registered_ids (clients_in self.now)) }
    {
        RegisteredIds::among(self.rows.allocator(), &self.rows, &self.registered)
    }

    /// Whether a registered client owes an answer to a SaveYourself.
    pub fn is_anyone_owing(&self) -> bool
        ensures { result ≡ list_any (λ c. is_owing (phase_in c self.now.rows)) self.now.registered }
    {
        is_any_owing(&self.rows, &self.registered)
    }

    /// How many IDs are known: those that the book has entries for, in all its sessions, and those
    /// of registered connections that it hasn't; no number passes 18,446,744,073,709,551,615.
    pub fn known_ids(&self, book: &Book) -> usize
        ensures { (r : Reading) → r.clients ≡ clients_in self.now → r.store.book ≡ book.now →
            result ≡ min (known_ids r) (2 ^ 64 - 1) }
    {
        let new = count_new_ids(&self.rows, &self.registered, book);
        count_entries(book).saturating_add(new)
    }

    /// The DiscardCommands of the registered clients, in the order in which they registered.
    pub fn standing(&self) -> Result<CommandList, NoMemory>
        ensures { IfOk result (λ commands. commands ≡ standing (clients_in self.now)) }
    {
        discards_in(self.rows.allocator(), &self.rows, &self.registered)
    }

    /// The DiscardCommand of a connection.
    pub fn discard(&self, conn: Conn) -> Result<Option<Command>, NoMemory>
        ensures { IfOk result (λ command. command ≡ discard_of (table_in conn self.now.rows)) }
    {
        discard_in(self.rows.allocator(), &self.rows, conn)
    }

    /// The registered connections that are overdue once these milliseconds have passed, in the order
    /// in which they registered. This takes no memory where there is none.
    pub fn overdue(&self, patience: u64, milliseconds: u64) -> Result<ConnList, NoMemory>
        ensures { IfOk result (λ conns. (r : Reading) → r.clients ≡ clients_in self.now →
            r.run.patience ≡ patience → conns ≡ filter
            (is_overdue r milliseconds) r.clients.registered) }
    {
        let alloc = self.rows.allocator();
        late_among(alloc, &self.rows, &self.registered, patience, milliseconds)
    }

    /// The live connections that aren't registered, in the order in which they joined.
    pub fn unregistered(&self) -> Result<ConnList, NoMemory>
        ensures { IfOk result (λ conns.
            conns ≡ filter (λ c. not (is_in c self.now.registered)) (conns_in self.now.rows)) }
    {
        conns_beside(
            self.rows.allocator(),
            self.rows.as_slice(),
            &self.registered,
        )
    }

    /// Whether a client couldn't set these properties, since its table would be too full.
    pub fn would_be_full(&self, conn: Conn, list: &PropertyList) -> Result<bool, NoMemory>
        ensures { IfOk result (λ full.
            full ≡ is_full (set_all (table_in conn self.now.rows) list.now)) }
    {
        let table = match table_in(&self.rows, conn) {
            Some(table) => table.copy()?,
            None => PropertyTable::new(self.rows.allocator())?,
        };
        would_be_full(table, list)
    }

    /// A connection was opened.
    pub fn join(&mut self, conn: Conn) -> Result<(), NoMemory>
        ensures { OnOk result (self.new ≡ held_by (Outside (Joined conn)) self.old) }
    {
        self.rows.join(conn)
    }

    /// XSMP began on a connection. This takes no memory.
    pub fn ready(&mut self, conn: Conn)
        ensures { self.new ≡ held_by (Outside (Ready conn)) self.old }
    {
        self.rows.ready(conn);
    }

    /// So many milliseconds have passed. This takes no memory.
    pub fn tick(&mut self, milliseconds: u64)
        ensures { self.new ≡ held_by (Outside (Tick milliseconds)) self.old }
    {
        self.rows.tick(milliseconds);
    }

    /// A connection is gone, or was shut. This takes no memory.
    pub fn leave(&mut self, conn: Conn)
        ensures left { self.new ≡ held_by (Outside (Left conn)) self.old }
        ensures closed { self.new ≡ held_by (Closed conn) self.old }
    {
        self.rows.leave(conn);
        self.registered.retain(|other| *other != conn);
    }

    /// XSMP was ended on a connection, which stays. This takes no memory.
    pub fn unset(&mut self, conn: Conn)
        ensures { self.new ≡ held_by (Unset conn) self.old }
    {
        self.rows.unset(conn);
    }

    /// A connection was given an ID by a RegisterClientReply, and begins with this table.
    pub fn register(&mut self, conn: Conn, id: Array8, table: PropertyTable) -> Result<(), NoMemory>
        ensures { OnOk result (self.new ≡ held_after (Gave conn (RegisterClientReply id)) (λ other.
            table) (λ dialog. false) self.old) }
    {
        self.rows.register(conn, id, table)?;
        self.registered.push(conn)?;
        Ok(())
    }

    /// A connection was sent a message other than a RegisterClientReply. This takes no memory.
    pub fn give(&mut self, conn: Conn, message: &XsmpMessage)
        requires { is_reply message.now ≡ false }
        ensures { self.new ≡ held_by (Gave conn message.now) self.old }
    {
        self.rows.give(conn, message);
    }

    /// A connection said this, while the running round, if there is one, was begun for `wanted`. A
    /// list of properties that doesn't fit leaves the table as it is.
    pub fn hear(
        &mut self,
        conn: Conn,
        message: &XsmpMessage,
        wanted: Option<Wanted>,
    ) -> Result<(), NoMemory>
        ensures { OnOk result ((first : List ℕ → List Property) (sequence : ℕ) (frame : List ℕ) →
            self.new ≡ held_after (Outside (Said conn message.now sequence frame)) first
            (may_interact wanted) self.old) }
    {
        self.rows.hear(conn, message, wanted)
    }

    /// A connection set all properties of a list, where it lies. A list that doesn't fit leaves the
    /// table as it is.
    pub fn set(&mut self, conn: Conn, walk: PropertyWalk<'_>) -> Result<(), NoMemory>
        ensures { OnOk result ((first : List ℕ → List Property) (allowed : Dialog → Bool)
            (sequence : ℕ) (frame : List ℕ) →
            self.new ≡ held_after
            (Outside (Said conn (SetProperties (walk_left walk.entry)) sequence frame)) first allowed
            self.old) }
    {
        self.rows.set(conn, walk)
    }

    /// Whether a client couldn't set the properties of this list, since its table would be too full.
    pub fn would_be_full_of(&self, conn: Conn, walk: PropertyWalk<'_>) -> Result<bool, NoMemory>
        ensures { IfOk result (λ full.
            full ≡ is_full (set_all (table_in conn self.now.rows) (walk_left walk.entry))) }
    {
        match table_in(&self.rows, conn) {
            Some(table) => Ok(is_over_by(table, walk)),
            None => {
                let table = PropertyTable::new(self.rows.allocator())?;
                Ok(is_over_by(&table, walk))
            }
        }
    }
}
