//! The programs of the session. That they are started is told to nobody; the faults are counted.
#![tactic(auto)]

mod spawner;

pub use spawner::{ProgramSpawner, Readable, prepared};
