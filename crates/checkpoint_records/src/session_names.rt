ghost use Rattle.std.specs.Prelude.{◌≡◌, ◌↔◌, IsTrue, IfOk};
ghost use Rattle.std.specs.List.{list_all};
ghost use Rattle.checkpoint_records.specs.Books.{default_name as the_default, is_before as comes_before};
ghost use Rattle.checkpoint_records.specs.Rules.{IsName, is_visible as may_be_seen};

use owned_lists::{NoMemory, Octets};
use std::alloc::Global;

/// The longest name of a session.
const NAME_LIMIT: usize = 64;

/// `default`, which a session is called where no name is said.
pub fn default_name(alloc: Global) -> Result<Octets, NoMemory>
    ensures { IfOk result (λ name. name ≡ the_default) }
{
    let name = Octets::from_slice(alloc, b"default")?;
    Ok(name)
}

fn is_visible(byte: u8) -> bool
    ensures { result ≡ may_be_seen byte }
{
    32 < byte && byte < 127
}

fn are_visible(text: &[u8]) -> bool
    ensures { result ≡ list_all may_be_seen text.now }
{
    text.iter().all(|byte| is_visible(*byte))
}

/// Whether a session may be called so: the name has 1 to 64 bytes from `!` to `~`.
pub fn is_name(name: &[u8]) -> bool
    ensures { IsTrue result ↔ IsName name.now }
{
    !name.is_empty() && name.len() <= NAME_LIMIT && are_visible(name)
}

/// Whether a name comes before another: it is less, byte by byte.
pub(crate) fn is_before(name: &[u8], other: &[u8]) -> bool
    ensures { result ≡ comes_before name.now other.now }
{
    name < other
}
