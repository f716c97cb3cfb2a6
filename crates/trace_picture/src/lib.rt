//! A trace as a picture: a lane for each connection, and one for the manager and its store.
#![tactic(auto)]

mod drawing;
mod lanes;
mod marks;
mod sketch;
mod style;
mod svg;

pub use drawing::draw_within;
