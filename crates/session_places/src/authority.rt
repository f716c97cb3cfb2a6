ghost use Rattle.std.specs.Prelude.{◌≡◌, ◌++◌, option_copied, IfOk, OnOk};
ghost use Rattle.session_places.specs.Authority.{authority_at, file_in, own_file};

use owned_lists::{NoMemory, Octets};
use std::alloc::Global;

/// The name of the authority file in a folder of a user.
#[tactic(auto, unfolding(crate::specs::Authority::own_file))]
fn put_name(path: &mut Octets) -> Result<(), NoMemory>
    ensures { OnOk result (path.new ≡ path.old ++ own_file) }
{
    path.append(b".ICEauthority")
}

/// The authority file in this folder.
fn file_of(alloc: Global, home: &[u8]) -> Result<Octets, NoMemory>
    ensures { IfOk result (λ path. path ≡ file_in home.now) }
{
    let mut path = Octets::from_slice(alloc, home)?;
    if home != b"/".as_slice() {
        path.append(b"/")?;
    }
    put_name(&mut path)?;
    Ok(path)
}

/// The path of the authority file: what ICEAUTHORITY says, or where it isn't set, `.ICEauthority` in
/// HOME. `None` where neither is set.
pub fn authority_path(
    alloc: Global,
    named: Option<&[u8]>,
    home: Option<&[u8]>,
) -> Result<Option<Octets>, NoMemory>
    ensures { IfOk result (λ path. path ≡ authority_at (option_copied named.entry)
        (option_copied home.entry)) }
{
    if let Some(path) = named {
        return Ok(Some(Octets::from_slice(alloc, path)?));
    }
    match home {
        Some(home) => Ok(Some(file_of(alloc, home)?)),
        None => Ok(None),
    }
}
