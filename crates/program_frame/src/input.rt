ghost use Rattle.std.specs.Prelude.{◌≡◌};
ghost use Rattle.sm_world.specs.Outside.{UsesConsole};
ghost use Rattle.program_frame.specs.Input.{TakesFront};

use owned_lists::Octets;
use sm_world::{Console, Failure};
use std::alloc::Global;

/// How many bytes are read at once.
const CHUNK: usize = 4096;

/// Reads the console to the end of its input, but at most `limit` bytes.
#[tactic(auto, unfolding(crate::specs::Input::front))]
pub fn read_input<W: Console>(alloc: Global, world: &mut W, limit: usize) -> Result<Octets, Failure>
    ensures effects { (W.outside world.new).told ≡ (W.outside world.old).told }
    ensures front { TakesFront limit (W.outside world.old).input result }
    ensures uses { UsesConsole (W.outside world.old) (W.outside world.new) result }
{
    let mut input = Octets::new(alloc);
    let mut left = limit;
    let mut chunk = [0u8; CHUNK];
    while left > 0 {
        let room = left.min(CHUNK);
        let count = match world.read(&mut chunk[..room]) {
            Ok(count) => count,
            Err(failure) => return Err(failure),
        };
        if count == 0 {
            break;
        }
        input.append(&chunk[..count])?;
        left -= count;
    }
    Ok(input)
}
