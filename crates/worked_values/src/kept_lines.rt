ghost use Rattle.std.specs.Prelude.{◌≡◌, false, [], Some};

use owned_lists::Octets;
use session_recorder::KeptLines;
use sm_world::Failed;
use std::alloc::Global;

/// Lines in memory, which take so many bytes in all and no more.
#[derive(Drop)]
pub struct Room {
    pub bytes: Octets,
    pub limit: usize,
    /// How often it was told that no more is kept.
    pub told: u32,
    is_refused: bool,
    is_lost: bool,
}

impl Room {
    /// Nothing is kept so far.
    pub fn new(alloc: Global, limit: usize) -> Room
        ensures bytes { result.bytes ≡ [] }
        ensures limit { result.limit ≡ limit }
        ensures refused { result.is_refused ≡ false }
        ensures lost { result.is_lost ≡ false }
    {
        Room {
            bytes: Octets::new(alloc),
            limit,
            told: 0,
            is_refused: false,
            is_lost: false,
        }
    }
}

impl KeptLines for Room {
    ghost kept = { λ room. Some room.bytes };

    ghost refused = { λ room. room.is_refused };

    ghost lost = { λ room. room.is_lost };

    fn keep(&mut self, bytes: &[u8]) -> Result<(), Failed> {
        let left = self.limit.saturating_sub(self.bytes.len()).min(bytes.len());
        if self.bytes.append(&bytes[..left]).is_err() {
            self.is_refused = true;
            return Err(Failed);
        }
        if left < bytes.len() {
            self.is_refused = true;
            Err(Failed)
        } else {
            Ok(())
        }
    }

    fn tell_lost(&mut self) {
        self.told = self.told.saturating_add(1);
        self.is_lost = true;
    }
}
