//! Reads the traces of sessions, and shows each message in them.
#![tactic(auto)]

mod commands;
mod flows;
mod frames;
mod laws;
mod lines;
mod opening;
mod parts;
mod reading;
mod showing;
mod watch;

pub use commands::first_field;
pub use flows::Brought;
pub use frames::{frame_text, xsmp_in};
pub use laws::{a_cut_header_is_refused, a_trace_has_one_answer};
pub use lines::{TraceLine, TraceLineList, read_trace_line};
pub use opening::{Opening, read_opening};
pub use parts::{Channel, Direction};
pub use reading::{LineReading, Reading, read_lines, read_trace};
pub use showing::{ShowAnswer, show, show_within};
pub use watch::Watch;
