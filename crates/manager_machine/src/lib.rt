//! The manager of a session: what it hears, and what it does about that, one event after another.
#![tactic(auto)]

mod agreement;
mod books;
mod connections;
mod deliveries;
mod faults;
mod manager;
mod messages;
mod opening;
mod orders;
mod registrations;
mod replies;
mod rounds;
mod session_core;
mod settings;
mod ticks;

pub use faults::TakeFault;
pub use manager::Manager;
pub use session_core::Acts;
pub use session_model::{Act, Reason, SessionEvent};
