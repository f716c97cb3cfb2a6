//! The set-up of a connection, from both sides: the states of each, each a type of its own, and what
//! each message brings in each of them.
#![tactic(auto)]

mod answers;
mod errors;
mod laws;
mod offers;
mod opener;
mod opening;
mod others;
mod states;
mod taking;

pub use answers::MANAGER_OPCODE;
pub use errors::{Offending, error_of, opcode_values, text_values, wrong_byte_values};
pub use laws::spelled_messages_fit;
pub use opener::{AnyOpener, Joined, OpenMoved, OpenOrder, OpenProtocol, OpenSetup};
pub use others::refusal;
pub use states::{
    AnySetup, AwaitCookie, AwaitOrder, AwaitProtocol, AwaitProtocolCookie, AwaitSetup, Moved, Ready,
};
