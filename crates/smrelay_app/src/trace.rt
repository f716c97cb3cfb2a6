ghost use Rattle.std.specs.Prelude.{◌≡◌, ◌∷◌, [], ◌++◌, IfOk, OnOk};
ghost use Rattle.control_lines.specs.Traces.{effects_text};

use control_lines::{effect_line, has_line};
use owned_lists::{NoMemory, Octets};
use sm_world::Effect;
use std::alloc::Global;

/// Appends the line of an effect, where it has one.
fn put_effect(alloc: Global, out: &mut Octets, effect: &Effect) -> Result<(), NoMemory>
    ensures { OnOk result (out.new ≡ out.old ++ effects_text (effect.now ∷ [])) }
{
    if has_line(effect) {
        let line = effect_line(alloc, effect)?;
        out.append(line.as_slice())?;
        out.append(b"\n")?;
    }
    Ok(())
}

/// The trace of these effects, line by line.
pub fn trace_text(alloc: Global, effects: &[Effect]) -> Result<Octets, NoMemory>
    ensures { IfOk result (λ trace. trace ≡ effects_text effects.now) }
{
    let mut out = Octets::new(alloc);
    for effect in effects {
        put_effect(alloc, &mut out, effect)?;
    }
    Ok(out)
}
