//! The session machine over a world: what comes in is answered, one event at a time.
#![tactic(auto)]

mod act_list;
mod acts;
mod answers;
mod config;
mod connection;
mod engine;
mod fault;
mod hearing;
mod laws;
mod live;
mod serving;
mod session;
mod shell;
mod store;

pub use acts::Act;
pub use config::{Config, config_of_default};
pub use fault::ServeFault;
pub use laws::{at_most_64_live, checkpoints_are_in_their_place};
pub use session::{Session, Stepped, serve};
