ghost use Rattle.std.specs.Prelude.{◌≡◌, IfOk, IfErr};
ghost use Rattle.display_place.specs.Names.{Names, is_path as of_path};
ghost use Rattle.display_place.specs.Refusals.{Gives, IsRefused};
ghost use Rattle.display_place.specs.declared.places.DisplayName.{DisplayName as AnyDisplay};

use crate::fronts::read_place;
use crate::splitting::split_at_last;
use crate::tails::read_numbers;
use crate::{DisplayName, DisplayRefusal, Place};
use owned_lists::Octets;
use std::alloc::Global;

/// Whether a text begins as a path.
fn is_path(text: &[u8]) -> bool
    ensures { result ≡ of_path text.now }
{
    match text.first() {
        Some(first) => *first == b'/',
        None => false,
    }
}

/// The display that a text names, as DISPLAY has it: `[PROTOCOL/][HOST]:NUMBER[.SCREEN]`, or a path,
/// which begins with a slash. The protocol is `unix`, `tcp` or `inet`. Without a host, or with the host
/// or the protocol `unix`, it is on this machine. The screen is 0 where none is written.
pub fn read_display(alloc: Global, text: &[u8]) -> Result<DisplayName, DisplayRefusal>
    ensures names { IfOk result (Names text.now) }
    ensures refused { IfErr result (IsRefused text.now) }
    ensures exact { (display : AnyDisplay) → Names text.now display → Gives result display }
{
    if is_path(text) {
        return Ok(DisplayName {
            place: Place::Path(Octets::from_slice(alloc, text)?),
            number: 0,
            screen: 0,
        });
    }
    let Some((front, tail)) = split_at_last(text, b':') else {
        return Err(DisplayRefusal::NoNumber);
    };
    let (number, screen) = read_numbers(alloc, tail)?;
    let place = read_place(alloc, front, number)?;
    Ok(DisplayName {
        place,
        number,
        screen,
    })
}
