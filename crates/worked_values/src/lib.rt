//! What follows from contracts alone: values that are reached by a few calls, and small types that keep a trait's
//! contract. Tests take them from here.
#![tactic(auto)]

mod changing;
mod disks;
mod faults;
mod frames;
mod joining;
mod kept_lines;
mod named;
mod queue;
mod rounds;
mod spellings;
mod starving;

pub use changing::Changing;
pub use disks::SilentDisk;
pub use faults::Trouble;
pub use frames::frame_of;
pub use joining::{first_join, run_client};
pub use kept_lines::Room;
pub use named::{Moody, Silent, Steady};
pub use queue::held;
pub use rounds::{checkpoint, half_done, second_phase, three};
pub use spellings::{spelled_list, spelled_properties, spelled_property, spelled_word};
pub use starving::Starved;
