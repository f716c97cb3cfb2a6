//! The messages of ICE and XSMP as lines of text.
#![tactic(auto)]

mod fields;
mod ice;
mod properties;
mod words;
mod xsmp;

pub use ice::{ice_line, ice_name};
pub use words::{Writing, put_number, put_plain, put_quoted};
pub use xsmp::{xsmp_line, xsmp_name};
