ghost use Rattle.std.specs.Prelude.{◌≡◌, false, IfOk, OnOk};
ghost use Rattle.session_model.specs.declared.events.SessionEvent.TheVariants.{Ready, Tick};
ghost use Rattle.session_model.specs.Moves.{Gave, Outside, Unset};
ghost use Rattle.session_model.specs.Phases.{may_interact};
ghost use Rattle.session_model.specs.Readings as of;
ghost use Rattle.session_model.specs.Tables.{table_said};
ghost use Rattle.session_clients.specs.Clients.{is_reply, no_client};
ghost use Rattle.session_clients.specs.Rows.{client_by, client_heard, client_registered, client_setting};
ghost use Rattle.ice_values.specs.Walks.{walk_left};
ghost use Rattle.xsmp_messages.specs.declared.message.XsmpMessage.TheVariants.{SetProperties};

use crate::phases::{given, is_bound, is_saving, readied, registered, said};
use crate::tables::{set_if_fits, set_walk_if_fits};
use ice_values::{Array8, PropertyWalk};
use owned_lists::{Duplicate, NoMemory};
use round_agreement::Wanted;
use session_model::Phase;
use sm_world::Conn;
use std::alloc::Global;
use xsmp_messages::XsmpMessage;
use xsmp_properties::PropertyTable;

/// What is held of a live connection.
#[derive(Drop)]
pub struct Client {
    /// Its number.
    pub conn: Conn,
    /// How far it is; None where XSMP hasn't begun.
    pub phase: Option<Phase>,
    /// The ID under which it registered (XSMP, chapter 6).
    pub id: Option<Array8>,
    /// What it says of itself; nothing before it registers.
    pub table: PropertyTable,
    /// What it said of itself as its last save was a success (the snapshot). There is none before
    /// that, from each SaveYourself on, and after its round was cancelled.
    pub saved: Option<PropertyTable>,
    /// For how many milliseconds it was neither sent a message nor said one other than an Error; at
    /// most the largest number. The time counts only where XSMP has begun.
    pub quiet: u64,
}

impl Client {
    /// The row of a connection that has just joined.
    pub(crate) fn joined(alloc: Global, conn: Conn) -> Result<Client, NoMemory>
        ensures { IfOk result (λ client. client ≡ no_client conn) }
    {
        Ok(Client {
            conn,
            phase: None,
            id: None,
            table: PropertyTable::new(alloc)?,
            saved: None,
            quiet: 0,
        })
    }

    /// XSMP began on a connection.
    pub(crate) fn ready(&mut self, conn: Conn)
        ensures { self.new ≡ client_by (Outside (Ready conn)) self.old }
    {
        if conn == self.conn {
            self.phase = readied(self.phase);
        }
    }

    /// XSMP was ended on a connection.
    pub(crate) fn unset(&mut self, conn: Conn)
        ensures { self.new ≡ client_by (Unset conn) self.old }
    {
        if conn == self.conn {
            self.phase = None;
            self.quiet = 0;
        }
    }

    /// So many milliseconds have passed.
    pub(crate) fn tick(&mut self, milliseconds: u64)
        ensures { self.new ≡ client_by (Outside (Tick milliseconds)) self.old }
    {
        if self.phase.is_some() {
            self.quiet = self.quiet.saturating_add(milliseconds);
        }
    }

    /// A connection got an ID, and with it a copy of this as its first table.
    pub(crate) fn register(
        &mut self,
        conn: Conn,
        id: &Array8,
        table: &PropertyTable,
    ) -> Result<(), NoMemory>
        ensures { OnOk result (self.new ≡ client_registered conn id.now table.now self.old) }
    {
        if conn == self.conn {
            self.register_owned(conn, id.copy()?, table.copy()?);
        }
        Ok(())
    }

    /// A connection got an ID, and with it this as its first table; neither is copied, and so this
    /// takes no memory.
    pub(crate) fn register_owned(&mut self, conn: Conn, id: Array8, table: PropertyTable)
        ensures { self.new ≡ client_registered conn id table self.old }
    {
        if conn == self.conn {
            self.phase = registered(self.phase);
            self.id = Some(id);
            self.table = table;
            self.quiet = 0;
        }
    }

    /// A connection was sent a message, which doesn't give it an ID.
    pub(crate) fn give(&mut self, conn: Conn, message: &XsmpMessage)
        requires { is_reply message.now ≡ false }
        ensures { self.new ≡ client_by (Gave conn message.now) self.old }
    {
        if conn == self.conn {
            self.phase = given(self.phase, message);
            self.saved = kept(self.saved.take(), message);
            self.quiet = 0;
        }
    }

    /// A connection said this, while the running round, if any, is begun for `wanted`.
    pub(crate) fn hear(
        &mut self,
        conn: Conn,
        message: &XsmpMessage,
        wanted: Option<Wanted>,
    ) -> Result<(), NoMemory>
        ensures { OnOk result
            (self.new ≡ client_heard conn message.now (may_interact wanted) self.old) }
    {
        if conn == self.conn {
            self.take_snapshot(message)?;
            self.change_table(message)?;
            self.phase = said(self.phase, message, wanted);
            self.quiet = still_quiet(self.quiet, message);
        }
        Ok(())
    }

    /// Keeps a copy of the table where the client says that its save was a success.
    fn take_snapshot(&mut self, message: &XsmpMessage) -> Result<(), NoMemory>
        ensures { OnOk result
            (self.new ≡ record self.old {
              saved = of.saved_said self.old.conn message.now (λ c.
                  self.old.phase) (λ c. self.old.table) self.old.saved;
            }) }
    {
        match message {
            XsmpMessage::SaveYourselfDone { success: true } if is_saving(self.phase) => {
                self.saved = Some(self.table.copy()?);
                Ok(())
            }
            _ => Ok(()),
        }
    }

    /// Sets or deletes properties where the client asks for that and may.
    fn change_table(&mut self, message: &XsmpMessage) -> Result<(), NoMemory>
        ensures { OnOk result
            (self.new ≡ record self.old {
              table = table_said self.old.conn message.now (λ c.
                  self.old.phase) self.old.table;
            }) }
    {
        match message {
            XsmpMessage::SetProperties { properties } if is_bound(self.phase) => {
                set_if_fits(&mut self.table, properties)
            }
            XsmpMessage::DeleteProperties { names } if is_bound(self.phase) => {
                self.table.delete(names);
                Ok(())
            }
            _ => Ok(()),
        }
    }

    /// A connection set all properties of a list, where it lies.
    pub(crate) fn set(&mut self, conn: Conn, walk: PropertyWalk<'_>) -> Result<(), NoMemory>
        ensures { OnOk result (self.new ≡ client_setting conn (walk_left walk.entry) self.old) }
    {
        if conn == self.conn {
            self.set_if_bound(walk)?;
            self.quiet = 0;
        }
        Ok(())
    }

    /// Sets properties where the client may.
    fn set_if_bound(&mut self, walk: PropertyWalk<'_>) -> Result<(), NoMemory>
        ensures { OnOk result
            (self.new ≡ record self.old {
              table = table_said self.old.conn (SetProperties (walk_left walk.entry)) (λ c.
                  self.old.phase) self.old.table;
            }) }
    {
        if is_bound(self.phase) {
            return set_walk_if_fits(&mut self.table, walk);
        }
        Ok(())
    }
}

/// The snapshot that is left after a client was sent this.
fn kept(saved: Option<PropertyTable>, message: &XsmpMessage) -> Option<PropertyTable>
    ensures { result ≡ of.saved_given message.now saved }
{
    match message {
        XsmpMessage::SaveYourself { .. } | XsmpMessage::ShutdownCancelled => None,
        _ => saved,
    }
}

/// For how long a client has been quiet once it has said this: an Error is no sign of life.
fn still_quiet(quiet: u64, message: &XsmpMessage) -> u64
    ensures { result ≡ of.quiet_said message.now quiet }
{
    match message {
        XsmpMessage::Error { .. } => quiet,
        _ => 0,
    }
}

/// Whether a message gives a connection its ID.
pub fn is_reply(message: &XsmpMessage) -> bool
    ensures { result ≡ is_reply message.now }
{
    matches!(message, XsmpMessage::RegisterClientReply { .. })
}
