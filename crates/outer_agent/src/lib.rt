//! The agent of a manager that is itself a client of an outer one: pieces of the outer manager's stream
//! go in, and what is to be sent and what the manager is to do come out.
#![tactic(auto)]

mod acts;
mod agent;
mod heeding;
mod laws;
mod progress;
mod saying;
mod telling;
mod words;

pub use acts::{AgentAct, AgentActs, AgentFault};
pub use agent::Agent;
pub use laws::{
    ends_are_said_where_due, pieces_bring_no_success, pieces_make_no_difference,
    saves_come_one_by_one,
};
pub use words::are_few;
