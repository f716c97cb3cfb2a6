ghost use Rattle.std.specs.Prelude.{◌≡◌, ◌∷◌, ◌++◌, [], false, map, option_copied, OnOk};
ghost use Rattle.session_model.specs.declared.events.SessionEvent.TheVariants.{Ready, Tick};
ghost use Rattle.session_model.specs.Moves.{Gave, Outside, Unset};
ghost use Rattle.session_model.specs.Phases.{may_interact};
ghost use Rattle.session_clients.specs.Clients.{is_reply, no_client, without_row};
ghost use Rattle.session_clients.specs.Rows.{client_by, client_heard, client_registered, client_setting, row_in, StandsWithin};
ghost use Rattle.ice_values.specs.Walks.{walk_left};

use crate::Client;
use crate::guesses::Guesses;
use crate::rows::{
    first_row, give_each, hear_each, ready_each, register_in, set_each, stands_at, tick_each,
    unset_each,
};
use ice_values::{Array8, PropertyWalk};
use owned_lists::NoMemory;
use round_agreement::Wanted;
use sm_world::Conn;
use std::alloc::Global;
use std::marker::Model;
use std::ops::Range;
use xsmp_messages::XsmpMessage;
use xsmp_properties::PropertyTable;

/// The rows of the live connections, in the order in which they joined. As long as no connection has
/// two rows, which no session does, the row of one whose place is guessed right is found and changed
/// without a look at others.
#[derive(Drop)]
pub(crate) struct LiveRows {
    items: Vec<Client>,
    guesses: Guesses,
    each_once: bool,
}

impl Model for LiveRows {
    ghost use Rattle.std.specs.Prelude.{◌≡◌, List, true};
    ghost use Rattle.round_agreement.specs.Agreement.{are_distinct};
    ghost use Rattle.session_clients.specs.declared.client.Client.{Client};
    ghost use Rattle.session_clients.specs.Clients.{conns_in};

    ghost Value = { List Client };

    ghost view = { λ rows. rows.items.items };

    ghost invariant = { λ rows.
        rows.each_once ≡ true → are_distinct (conns_in rows.items.items) ≡ true };
}

impl LiveRows {
    /// No rows; this takes no memory.
    pub(crate) fn new(alloc: Global) -> LiveRows
        ensures { result ≡ [] }
    {
        LiveRows {
            items: Vec::new(alloc),
            guesses: Guesses::new(),
            each_once: true,
        }
    }

    /// Where memory for what is told of the rows comes from.
    pub(crate) fn allocator(&self) -> Global {
        *self.items.allocator()
    }

    /// All rows.
    pub(crate) fn as_slice(&self) -> &[Client]
        ensures { result.now ≡ self.now }
    {
        self.items.as_slice()
    }

    /// The places among which all rows of a connection stand: its own alone where it is guessed
    /// right and is known to be the only one.
    fn span_of(&self, conn: Conn) -> Range<usize>
        ensures { StandsWithin conn self.now result.start result.end }
    {
        let place = self.guesses.place(conn);
        if self.each_once && stands_at(&self.items, place, conn) {
            place..place + 1
        } else {
            0..self.items.len()
        }
    }

    /// The first row of a connection.
    pub(crate) fn row(&self, conn: Conn) -> Option<&Client>
        ensures { option_copied result ≡ row_in conn self.now }
    {
        let place = self.guesses.place(conn);
        match self.items.get(place) {
            Some(row) if self.each_once && row.conn == conn => Some(row),
            _ => first_row(&self.items, conn),
        }
    }

    /// A connection was opened.
    pub(crate) fn join(&mut self, conn: Conn) -> Result<(), NoMemory>
        ensures { OnOk result (self.new ≡ self.old ++ no_client conn ∷ []) }
    {
        let is_new = self.row(conn).is_none();
        let client = Client::joined(self.allocator(), conn)?;
        self.guesses.note(conn, self.items.len());
        self.each_once &= is_new;
        self.items.push(client)?;
        Ok(())
    }

    /// A connection is gone.
    pub(crate) fn leave(&mut self, conn: Conn)
        ensures { self.new ≡ without_row conn self.old }
    {
        self.items.retain(|row| row.conn != conn);
        self.guesses.note_all(&self.items);
    }

    /// XSMP began on a connection.
    pub(crate) fn ready(&mut self, conn: Conn)
        ensures { self.new ≡ map (client_by (Outside (Ready conn))) self.old }
    {
        let span = self.span_of(conn);
        ready_each(&mut self.items[span], conn);
    }

    /// XSMP was ended on a connection.
    pub(crate) fn unset(&mut self, conn: Conn)
        ensures { self.new ≡ map (client_by (Unset conn)) self.old }
    {
        let span = self.span_of(conn);
        unset_each(&mut self.items[span], conn);
    }

    /// So many milliseconds have passed.
    pub(crate) fn tick(&mut self, milliseconds: u64)
        ensures { self.new ≡ map (client_by (Outside (Tick milliseconds))) self.old }
    {
        tick_each(&mut self.items, milliseconds);
    }

    /// A connection got an ID, and with it this as its first table.
    pub(crate) fn register(
        &mut self,
        conn: Conn,
        id: Array8,
        table: PropertyTable,
    ) -> Result<(), NoMemory>
        ensures { OnOk result (self.new ≡ map (client_registered conn id table) self.old) }
    {
        let registered = register_in(&mut self.items, conn, id, table);
        self.each_once &= registered.is_ok();
        registered
    }

    /// A connection was sent a message, which doesn't give it an ID.
    pub(crate) fn give(&mut self, conn: Conn, message: &XsmpMessage)
        requires { is_reply message.now ≡ false }
        ensures { self.new ≡ map (client_by (Gave conn message.now)) self.old }
    {
        let span = self.span_of(conn);
        give_each(&mut self.items[span], conn, message);
    }

    /// A connection said this.
    pub(crate) fn hear(
        &mut self,
        conn: Conn,
        message: &XsmpMessage,
        wanted: Option<Wanted>,
    ) -> Result<(), NoMemory>
        ensures { OnOk result
            (self.new ≡ map (client_heard conn message.now (may_interact wanted)) self.old) }
    {
        let span = self.span_of(conn);
        let heard = hear_each(&mut self.items[span], conn, message, wanted);
        self.each_once &= heard.is_ok();
        heard
    }

    /// A connection set all properties of a list, where it lies.
    pub(crate) fn set(&mut self, conn: Conn, walk: PropertyWalk<'_>) -> Result<(), NoMemory>
        ensures { OnOk result
            (self.new ≡ map (client_setting conn (walk_left walk.entry)) self.old) }
    {
        let span = self.span_of(conn);
        let set = set_each(&mut self.items[span], conn, walk);
        self.each_once &= set.is_ok();
        set
    }
}
