//! What each program tells of itself: its version.
#![tactic(auto)]

mod versions;

pub use versions::{SMCLIENT, SMCTL, SMD, SMNEST, SMRELAY, SMTRACE, SMWRAP};
