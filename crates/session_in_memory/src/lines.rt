ghost use Rattle.std.specs.Prelude.{◌≡◌, IfOk};
ghost use Rattle.session_engine.specs.Doing.{item_of};
ghost use Rattle.control_lines.specs.Traces.{whole_line};
ghost use Rattle.session_in_memory.specs.Lines.{lines_by, run_lines, text};

use control_lines::{effect_line, has_line, started_line};
use owned_lists::{NoMemory, Octets};
use sm_world::Effect;
use std::alloc::Global;

/// The line of an effect in the trace of a run, where it has one. A command is shown as started.
pub fn trace_line(alloc: Global, effect: &Effect) -> Result<Option<Octets>, NoMemory>
    ensures text { IfOk result (λ line. whole_line line ≡ text (item_of effect.now)) }
    ensures lines { IfOk result (λ line. lines_by line ≡ run_lines (item_of effect.now)) }
{
    match effect {
        Effect::Started(command, _) => Ok(Some(started_line(alloc, command, true)?)),
        _ => {
            if has_line(effect) {
                Ok(Some(effect_line(alloc, effect)?))
            } else {
                Ok(None)
            }
        }
    }
}
