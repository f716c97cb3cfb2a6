use crate::path::Path;
use owned_lists::OctetsList;

/// What is saved, and how the program is started again.
#[derive(Debug, Drop)]
pub struct SavePlan {
    /// The file in which the program keeps its state.
    pub state: Path,
    /// The number of the copy with which the program began, or 0.
    pub from: u32,
    /// The program and its arguments.
    pub program: OctetsList,
    /// The first words of the command that starts the program again, up to the path of its state.
    pub before: OctetsList,
}
