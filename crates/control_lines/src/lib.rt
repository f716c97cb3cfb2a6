//! The lines that people read and write: the operator's orders, scripts and traces.
#![tactic(auto)]

mod fields;
mod laws;
mod lines;
mod orders;
mod script;
mod trace;

pub use fields::{put_hex, read_bytes, read_conn, read_hex, read_number};
pub use laws::{
    a_line_gives_one_event, a_line_says_its_event, a_line_says_one_order, lines_say_one_list,
};
pub use lines::{next_line, split_once};
pub use orders::{OrderRefusal, read_order};
pub use script::read_script_line;
pub use trace::{effect_line, has_line, started_line};
