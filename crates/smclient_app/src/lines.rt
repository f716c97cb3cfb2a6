ghost use Rattle.std.specs.Prelude.{◌≡◌, ◌∷◌, [], IfOk, IsErrOf};
ghost use Rattle.sm_world.specs.Outside.{Added, adds, on_ok, NotFallen, Rose, UsesConsole};
ghost use Rattle.sm_world.specs.declared.effects.Effect.TheVariants.{Printed};
ghost use Rattle.sm_world.specs.declared.failures.Failure.TheVariants.{Failed as HasFailed};
ghost use Rattle.program_frame.specs.Printing.{line as with_newline};
ghost use Rattle.smclient_app.specs.Lines.{PrintsFirst};

use owned_lists::{Duplicate, NoMemory, Octets};
use sm_world::{Console, Failure};

/// A line with its newline.
fn whole_line(line: &Octets) -> Result<Octets, NoMemory>
    ensures { IfOk result (λ text. text ≡ with_newline line.now) }
{
    let mut text = line.copy()?;
    text.append(b"\n")?;
    Ok(text)
}

/// Prints a line.
fn print_line<W: Console>(world: &mut W, line: &Octets) -> Result<(), Failure>
    ensures effects { (W.outside world.new).told ≡ adds (W.outside world.old).told
        (on_ok result (Printed (with_newline line.now) ∷ [])) }
    ensures uses { UsesConsole (W.outside world.old) (W.outside world.new) result }
{
    let text = whole_line(line)?;
    world.print(text.as_slice())
}

/// Prints each of these lines, as far as the console takes them.
pub fn print_lines<W: Console>(world: &mut W, lines: &[Octets]) -> Result<(), Failure>
    ensures prints { Added (W.outside world.old).told (W.outside world.new).told
        (PrintsFirst lines.now result) }
    ensures counts { NotFallen (W.outside world.old).faults (W.outside world.new).faults }
    ensures cause { IsErrOf result HasFailed → Rose (W.outside world.old).faults.console
        (W.outside world.new).faults.console }
{
    for line in lines {
        match print_line(world, line) {
            Ok(()) => {}
            Err(failure) => return Err(failure),
        }
    }
    Ok(())
}
