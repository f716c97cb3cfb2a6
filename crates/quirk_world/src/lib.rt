//! The outside of a session manager with programs as they are: a world around a world, which hands
//! on what clients mean (`client_quirks`) and everything else as it comes.
#![tactic(auto)]

mod follower;
mod layer;
mod news;
mod world;

pub use world::QuirkWorld;
