ghost use Rattle.std.specs.Prelude.{◌≡◌, ◌++◌, IfOk, OnOk};
ghost use Rattle.session_engine.specs.Doing.{item_of, items};
ghost use Rattle.session_in_memory.specs.Lines.{text};
ghost use Rattle.smd_app.specs.Trace.{patience_text};

use owned_lists::{NoMemory, Octets};
use session_in_memory::trace_line;
use sm_world::Effect;
use std::alloc::Global;

/// Appends the line of an effect, where it has one. A command is shown as started.
fn put_effect(alloc: Global, out: &mut Octets, effect: &Effect) -> Result<(), NoMemory>
    ensures { OnOk result (out.new ≡ out.old ++ text (item_of effect.now)) }
{
    if let Some(line) = trace_line(alloc, effect)? {
        out.append(line.as_slice())?;
        out.append(b"\n")?;
    }
    Ok(())
}

/// The line of a patience, where there is one.
fn patience_line(alloc: Global, patience: u64) -> Result<Octets, NoMemory>
    ensures { IfOk result (λ line. line ≡ patience_text patience) }
{
    if patience == 0 {
        return Ok(Octets::new(alloc));
    }
    let line = format!(in alloc; "patience {patience}\n")?;
    Octets::from_slice(alloc, line.as_bytes())
}

/// The trace of a run with this patience and these effects, line by line.
pub fn trace_text(alloc: Global, patience: u64, effects: &[Effect]) -> Result<Octets, NoMemory>
    ensures { IfOk result (λ trace. trace ≡ patience_text patience ++ text (items effects.now)) }
{
    let mut out = patience_line(alloc, patience)?;
    for effect in effects {
        put_effect(alloc, &mut out, effect)?;
    }
    Ok(out)
}
