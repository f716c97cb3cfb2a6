ghost use Rattle.std.specs.Prelude.{◌≡◌, ◌<◌, IfOk, IfErr, MatchOption};
ghost use Rattle.std.specs.Fmt.{decimal};
ghost use Rattle.display_place.specs.Names.{SaysNumbers};
ghost use Rattle.display_place.specs.Refusals.{IsNone, IsTailRefused};

use crate::DisplayRefusal;
use control_lines::{read_number, split_once};
use owned_lists::NoMemory;
use std::alloc::Global;

/// How many numbers have a port: 6000 + N is below 65,536.
const NUMBERS: u64 = 59536;

/// How many screens there can be, since the display counts them in a byte.
const SCREENS: u64 = 256;

/// The number below a limit that some bytes spell.
fn read_below(alloc: Global, digits: &[u8], limit: u64) -> Result<Option<u64>, NoMemory>
    ensures { IfOk result (λ number.
        MatchOption number (IsNone limit digits.now) (λ n.
        (n < limit) × (digits.now ≡ decimal n))) }
{
    match read_number(alloc, digits)? {
        Some(number) => {
            if number < limit {
                Ok(Some(number))
            } else {
                Ok(None)
            }
        }
        None => Ok(None),
    }
}

/// The number and the screen that `NUMBER[.SCREEN]` says.
pub(crate) fn read_numbers(alloc: Global, tail: &[u8]) -> Result<(u16, u8), DisplayRefusal>
    ensures says { IfOk result (λ numbers. SaysNumbers tail.now numbers.0 numbers.1) }
    ensures refused { IfErr result (IsTailRefused tail.now) }
{
    let Some((digits, screen)) = split_once(tail, b'.') else {
        let Some(number) = read_below(alloc, tail, NUMBERS)? else {
            return Err(DisplayRefusal::BadNumber);
        };
        return Ok((number as u16, 0));
    };
    let Some(number) = read_below(alloc, digits, NUMBERS)? else {
        return Err(DisplayRefusal::BadNumber);
    };
    let Some(screen) = read_below(alloc, screen, SCREENS)? else {
        return Err(DisplayRefusal::BadScreen);
    };
    Ok((number as u16, screen as u8))
}
