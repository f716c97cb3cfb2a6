//! How a manager and a client let each other in: whatever the order in which each takes what the other
//! says, they come to XSMP where the cookie is the right one, and both end where it isn't. Definitions and
//! laws alone; no code.
#![tactic(auto)]

mod laws;

pub use laws::{
    other_cookies_are_kept_out, other_cookies_are_kept_out_by_bytes, other_versions_are_kept_out,
    other_versions_are_kept_out_by_bytes, right_cookies_are_let_in,
    right_cookies_are_let_in_by_bytes,
};
