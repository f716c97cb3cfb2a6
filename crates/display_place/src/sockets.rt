ghost use Rattle.std.specs.Prelude.{◌≡◌, ◌++◌, IfOk, OnOk};
ghost use Rattle.std.specs.Fmt.{decimal};
ghost use Rattle.display_place.specs.Sockets.{folder, socket_path, sockets_of};

use crate::{DisplayName, Place};
use owned_lists::{NoMemory, Octets, OctetsList};
use std::alloc::Global;

/// What the path of each local display begins with.
#[tactic(auto, unfolding(crate::specs::Sockets::folder))]
fn put_folder(out: &mut Octets) -> Result<(), NoMemory>
    ensures { OnOk result (out.new ≡ out.old ++ folder) }
{
    out.append(b"/tmp/.X11-unix/X")
}

fn put_number(alloc: Global, number: u16, out: &mut Octets) -> Result<(), NoMemory>
    ensures { OnOk result (out.new ≡ out.old ++ decimal number) }
{
    let digits = number.to_string(alloc)?;
    out.append(digits.as_bytes())
}

/// Some bytes in front of the path of a local display.
fn named(alloc: Global, front: &[u8], number: u16) -> Result<Octets, NoMemory>
    ensures { IfOk result (λ name. name ≡ front.now ++ socket_path number) }
{
    let mut name = Octets::from_slice(alloc, front)?;
    put_folder(&mut name)?;
    put_number(alloc, number, &mut name)?;
    Ok(name)
}

/// The names of the sockets at which the display may be, in the order in which they are tried: each
/// is what stands in a socket address behind its family, so an abstract name begins with a NUL.
/// A display at a host has none.
pub fn socket_names(alloc: Global, display: &DisplayName) -> Result<OctetsList, NoMemory>
    ensures { IfOk result (λ names. names ≡ sockets_of display.now.place display.now.number) }
{
    let mut names = OctetsList::new(alloc);
    match &display.place {
        Place::Local => {
            names.push(named(alloc, b"\0", display.number)?)?;
            names.push(named(alloc, b"", display.number)?)?;
            Ok(names)
        }
        Place::Path(path) => {
            names.push(Octets::from_slice(alloc, path.as_slice())?)?;
            Ok(names)
        }
        Place::Host { .. } => Ok(names),
    }
}
