//! What the manager holds of its clients: a row for each live connection, and who is registered.
#![tactic(auto)]

mod client;
mod clients;
mod ended_id;
mod entries;
mod guesses;
mod live_rows;
mod phases;
mod registered_ids;
mod rows;
mod summaries;
mod tables;

pub use client::{Client, is_reply};
pub use clients::Clients;
pub use entries::{entry_of, first_table, is_recorded};
pub use phases::{
    given, is_bound, is_dying, is_first_saving, is_interacting, is_owing, is_saving, is_shutdown,
    is_unregistered, may_interact, readied, said,
};
pub use registered_ids::RegisteredIds;
