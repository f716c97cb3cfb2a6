ghost use Rattle.std.specs.Prelude.{◌≡◌, IfOk};
ghost use Rattle.trace_reading.specs.Reads.{ReadsWithin};
ghost use Rattle.trace_reading.specs.Told.{told};

use crate::lines::put_opening;
use crate::telling::Teller;
use owned_lists::{NoMemory, Octets};
use std::alloc::Global;
use trace_replay::{LineReading, Opening, ShowAnswer, TraceLine, read_lines};

/// What is told of lines behind this opening.
fn told(alloc: Global, opening: &Opening, lines: &[TraceLine]) -> Result<Octets, NoMemory>
    ensures { IfOk result (λ text. text ≡ told opening.now lines.now) }
{
    let mut text = Octets::new(alloc);
    put_opening(alloc, &mut text, opening)?;
    let mut teller = Teller::new(alloc);
    for said in lines {
        teller.tell(alloc, &mut text, said)?;
    }
    Ok(text)
}

/// Tells a trace. Where it has more bytes than this, its last line isn't of the grammar.
pub fn read_within(alloc: Global, trace: &[u8], limit: usize) -> Result<ShowAnswer, NoMemory>
    ensures { IfOk result (ReadsWithin limit trace.now) }
{
    match read_lines(alloc, trace, limit)? {
        LineReading::Whole(opening, lines) => {
            let text = told(alloc, &opening, lines.as_slice())?;
            Ok(ShowAnswer::Text(text))
        }
        LineReading::Malformed { at } => Ok(ShowAnswer::Malformed { at }),
    }
}
