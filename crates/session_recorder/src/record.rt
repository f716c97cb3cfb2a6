ghost use Rattle.std.specs.Prelude.{◌≡◌, ◌≢◌, [], ◌∷◌, ℕ, List, Option, true, false, IfOk};
ghost use Rattle.sm_world.specs.Outside.{adds};
ghost use Rattle.sm_world.specs.declared.effects.Effect.{Effect};
ghost use Rattle.sm_world.specs.declared.effects.Effect.TheVariants.{Printed};
ghost use Rattle.session_recorder.specs.Recorded.{is_printed, IsDue, IsLineOf, KeepsTold};
ghost use Rattle.session_recorder.specs.declared.progress.Progress.TheVariants.{Waiting, Recording, Lost, Starved};

use crate::kept_lines::KeptLines;
use crate::progress::Progress;
use owned_lists::{NoMemory, Octets};

/// The lines of a record, and how far it has come.
#[derive(Drop)]
pub struct Record<R: KeptLines> {
    pub lines: R,
    /// What stands in front of the lines.
    pub opening: Octets,
    pub progress: Progress,
}

impl<R: KeptLines> Record<R> {
    /// Ends the record, since a line was refused.
    fn lose(&mut self)
        requires { R.lost self.old.lines ≡ false }
        ensures lines { R.kept self.new.lines ≡ R.kept self.old.lines }
        ensures opening { self.new.opening ≡ self.old.opening }
        ensures progress { self.new.progress ≡ Lost }
        ensures refused { R.refused self.new.lines ≡ R.refused self.old.lines }
        ensures told { R.lost self.new.lines ≡ true }
    {
        self.progress = Progress::Lost;
        self.lines.tell_lost();
    }

    /// Ends the record, since there was no memory for a line.
    fn starve(&mut self)
        requires { R.lost self.old.lines ≡ false }
        ensures lines { R.kept self.new.lines ≡ R.kept self.old.lines }
        ensures opening { self.new.opening ≡ self.old.opening }
        ensures progress { self.new.progress ≡ Starved }
        ensures refused { R.refused self.new.lines ≡ R.refused self.old.lines }
        ensures told { R.lost self.new.lines ≡ true }
    {
        self.progress = Progress::Starved;
        self.lines.tell_lost();
    }

    /// Keeps a line, if memory was had for it.
    fn keep(&mut self, line: Result<Octets, NoMemory>)
        requires recording { self.old.progress ≡ Recording }
        requires due { IsDue self.old.progress (R.refused self.old.lines) (R.lost self.old.lines) }
        ensures keeps { (told : Option (List Effect)) (effect : Effect) →
            IfOk line (IsLineOf effect) →
            KeepsTold self.old.opening self.old.progress told (R.kept self.old.lines) →
            KeepsTold self.new.opening self.new.progress (adds told (effect ∷ []))
            (R.kept self.new.lines) }
        ensures due { IsDue self.new.progress (R.refused self.new.lines) (R.lost self.new.lines) }
        ensures starved { IfOk line (λ _. self.new.progress ≢ Starved) }
    {
        match line {
            Ok(line) => {
                if self.lines.keep(line.as_slice()).is_err() {
                    self.lose();
                }
            }
            Err(NoMemory) => self.starve(),
        }
    }

    /// Notes an effect that is no printed text, by its line.
    pub fn note(&mut self, line: Result<Octets, NoMemory>)
        requires { IsDue self.old.progress (R.refused self.old.lines) (R.lost self.old.lines) }
        ensures keeps { (told : Option (List Effect)) (effect : Effect) → is_printed effect ≡ false →
            IfOk line (IsLineOf effect) → KeepsTold self.old.opening self.old.progress told
            (R.kept self.old.lines) → KeepsTold self.new.opening self.new.progress
            (adds told (effect ∷ [])) (R.kept self.new.lines) }
        ensures due { IsDue self.new.progress (R.refused self.new.lines) (R.lost self.new.lines) }
        ensures starved { IfOk line (λ _. self.new.progress ≡ Starved →
            self.old.progress ≡ Starved) }
    {
        match self.progress {
            Progress::Waiting => {}
            Progress::Recording => self.keep(line),
            Progress::Lost => {}
            Progress::Starved => {}
        }
    }

    /// Notes a printed text, by its line. The first announces the session, and isn't kept.
    pub fn note_printed(&mut self, line: Result<Octets, NoMemory>)
        requires { IsDue self.old.progress (R.refused self.old.lines) (R.lost self.old.lines) }
        ensures keeps { (told : Option (List Effect)) (text : List ℕ) →
            IfOk line (IsLineOf (Printed text)) → KeepsTold self.old.opening self.old.progress told
            (R.kept self.old.lines) → KeepsTold self.new.opening self.new.progress
            (adds told (Printed text ∷ [])) (R.kept self.new.lines) }
        ensures due { IsDue self.new.progress (R.refused self.new.lines) (R.lost self.new.lines) }
        ensures starved { IfOk line (λ _. self.new.progress ≡ Starved →
            self.old.progress ≡ Starved) }
    {
        match self.progress {
            Progress::Waiting => self.progress = Progress::Recording,
            Progress::Recording => self.keep(line),
            Progress::Lost => {}
            Progress::Starved => {}
        }
    }
}
