ghost use Rattle.std.specs.Prelude.{ℕ, List};
ghost use Rattle.smnest_app.specs.Exclusions.{FitsOnce, WordsMeanOne};

/// Does nothing: its contract is a law of `smnest_main`'s statuses. What 0, 7 and 9 say of an ID, words,
/// a script and a number of turns excludes one another, so each of them comes exactly where it is so.
pub fn statuses_exclude_each_other(turns: u64)
    ensures { (id : List ℕ) (words : List (List ℕ)) (bytes : List ℕ) → FitsOnce id words bytes
        turns }
{}

/// Does nothing: its contract is a law of words. They mean one task at most.
pub fn words_mean_one_task()
    ensures { WordsMeanOne }
{}
