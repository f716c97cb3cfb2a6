ghost use Rattle.sm_world.specs.Crash.{OthersKeepCells, SameCellsSameImages};

/// Does nothing: its contract is a law of crashes. An effect that neither writes to the store nor
/// syncs it changes nothing of what a crash may leave.
pub fn others_keep_cells()
    ensures { OthersKeepCells }
{}

/// Does nothing: its contract is a law of crashes. Where two beginnings with their effects give the
/// same cells, a crash may leave the same files.
pub fn same_cells_have_same_images()
    ensures { SameCellsSameImages }
{}
