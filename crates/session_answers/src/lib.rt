//! What the manager answers in bytes: the Errors of the session, the IDs that it gives, and the
//! lines that it prints for its operator.
#![tactic(auto)]

mod arrivals;
mod errors;
mod ids;
mod status;

pub use arrivals::ArrivalView;
pub use errors::{bad_id, bad_state, full_table, lone_shutdown, no_room};
pub use ids::client_id;
pub use status::{Doing, Status, status_line};
