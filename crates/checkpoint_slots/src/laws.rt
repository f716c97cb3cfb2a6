ghost use Rattle.checkpoint_slots.specs.Laws.{FilesRecoverToOne, SettledStoresStand};

/// Does nothing: its contract is a law of every file. It stands for one book, or is damaged at one
/// place.
pub fn files_recover_to_one()
    ensures { FilesRecoverToOne }
{}

/// Does nothing: its contract is a law of every file of the right size. A turn that recovery gave
/// stands for its book, where no byte of the file is in doubt.
pub fn settled_stores_stand()
    ensures { SettledStoresStand }
{}
