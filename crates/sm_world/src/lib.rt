//! The outside of the session manager: what comes in, what goes out, and worlds in memory.
#![tactic(auto)]

mod calls;
mod crash;
mod disk;
mod effects;
mod events;
mod failures;
mod laws;
mod memory;
mod outside;
mod steady;
mod tape;

pub use calls::Calls;
pub use crash::Choice;
pub use disk::Disk;
pub use effects::Effect;
pub use events::{Conn, ConnList, Event, EventList, Order, PIECE_LIMIT};
pub use failures::{Failed, Failure, Faults};
pub use laws::{others_keep_cells, same_cells_have_same_images};
pub use memory::MemWorld;
pub use outside::{Console, Links, Spawner, Told};
pub use steady::SteadyWorld;
