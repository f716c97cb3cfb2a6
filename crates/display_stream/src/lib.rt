//! Cuts what a display sends into its parts, however the stream comes in pieces.
#![tactic(auto)]

mod laws;
mod stages;
mod taking;

pub use laws::{
    a_broken_stream_has_no_more_parts, parts_do_not_depend_on_pieces, parts_make_up_a_stream,
};
pub use stages::{Stage, UNIT_LIMIT};
pub use taking::Remainder;
