//! What somebody may rely on who starts `smd`: the laws of what is seen of a session and of the files
//! that a crash could leave, said of the program's top call.
#![tactic(auto)]

mod laws;

pub use laws::{every_session_is_lawful, every_session_keeps_the_laws};
