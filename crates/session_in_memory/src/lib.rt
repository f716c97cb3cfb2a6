//! What a session in memory begins with, and what it shows: the blank store, the cookie of each
//! rehearsal, and the lines of a run.
#![tactic(auto)]

mod lines;
mod stores;

pub use lines::trace_line;
pub use stores::{REHEARSAL_COOKIE, blank_store};
