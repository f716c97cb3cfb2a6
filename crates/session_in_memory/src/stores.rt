ghost use Rattle.std.specs.Prelude.{◌≡◌, replicate, IfOk};
ghost use Rattle.session_in_memory.specs.Stores.{IsBlank};

use ice_cookie::Cookie;
use owned_lists::{NoMemory, Octets};
use std::alloc::Global;

/// The cookie of each rehearsal, so that a script can show it.
pub const REHEARSAL_COOKIE: Cookie = Cookie([0, 1, 2, 3, 4, 5, 6, 7, 8, 9, 10, 11, 12, 13, 14, 15]);

/// How many bytes a store has.
const STORE_LEN: usize = 16_777_280;

/// A store that nothing was written to: its bytes are 0.
pub fn blank_store(alloc: Global) -> Result<Octets, NoMemory>
    ensures { IfOk result IsBlank }
{
    Ok(Octets::from_vec(zeros(alloc, STORE_LEN)?))
}

/// So many bytes that are 0, which are filled in one go: `vec!` would make one after another.
fn zeros(alloc: Global, count: usize) -> Result<Vec<u8>, NoMemory>
    ensures { IfOk result (λ bytes. bytes.items ≡ replicate count 0) }
{
    let mut bytes = Vec::new(alloc);
    bytes.resize(count, 0)?;
    Ok(bytes)
}
