ghost use Rattle.std.specs.Prelude.{ℕ, List};
ghost use Rattle.smd_app.specs.Completeness.{CallsComplete, WordsMeanOne};
ghost use Rattle.smd_app.specs.Exclusions.{FitsOnce};

/// Does nothing: its contract is a law of `smd_main`'s statuses. What 0, 7 and 9 say of a script,
/// a patience and a number of turns excludes one another, so each of them comes exactly where it is
/// so.
pub fn statuses_exclude_each_other(turns: u64)
    ensures { (patience : ℕ) (bytes : List ℕ) → FitsOnce patience bytes turns }
{}

/// Does nothing: its contract is a law of words. They mean one task at most.
pub fn words_mean_one_task()
    ensures { WordsMeanOne }
{}

/// Does nothing: its contract is a law of `smd_main`'s clause `answers`, its completeness. Let the
/// words mean a task, its script be well formed or its store recover and have numbers for what is
/// to be written, and let no count but the spawner's rise. Then the status is 0 at the machine's
/// own end with all of its deeds done, or 9 after all the turns without such an end, with all of
/// the deeds done, or 10.
pub fn calls_are_complete()
    ensures { CallsComplete }
{}
