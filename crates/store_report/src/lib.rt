//! What stands in a store, as lines for people and as JSON for scripts.
#![tactic(auto)]

mod finding;
mod json_text;
mod lines;
mod refusals;
mod sessions;
mod words;

pub use finding::{Finding, look_into};
pub use json_text::report_json;
pub use lines::report_lines;
pub use refusals::Refusal;
pub use sessions::sessions_report;
pub use words::{Check, read_check, read_sessions, take_session};
