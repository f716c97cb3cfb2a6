//! Cuts a stream of bytes into the frames of ICE, however the stream comes in pieces.
#![tactic(auto)]

mod cutting;
mod remainder;
mod splitting;

pub use cutting::{WholeFrame, WholeFrameList, cut_piece, cut_pieces};
pub use remainder::Remainder;
pub use splitting::{FRAME_LIMIT, Frame, Oversize, Splitter, UNIT_LIMIT};
