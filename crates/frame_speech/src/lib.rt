//! How one direction of a connection is cut into frames, and how far somebody understands it who
//! follows them: the order of its numbers, and under which major opcode its sender speaks XSMP. It
//! calls no device.
#![tactic(auto)]

mod cutter;
mod passing;
mod reading;
mod settings;
mod speech;
mod stream;
mod values;
mod words;

pub use cutter::{Cutting, FrameCutter};
pub use passing::{Heeds, are_passed};
pub use reading::{Reading, byte_at, is_message, is_whole};
pub use speech::Speech;
pub use stream::CutStream;
pub use values::ValueWalk;
pub use words::without_nul;
