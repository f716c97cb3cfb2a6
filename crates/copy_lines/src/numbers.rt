ghost use Rattle.std.specs.Prelude.{◌≡◌, ◌≢◌, ◌<◌, ◌^◌, ◌++◌, ◌∷◌, ℕ, List, map, string_bytes, IfOk, MatchOption};
ghost use Rattle.std.specs.Fmt.{decimal};
ghost use Rattle.copy_lines.specs.Numbers.{IsCopy, IsHighest};

use control_lines::read_number;
use owned_lists::NoMemory;
use std::alloc::Global;

/// What follows the name of a file and a dot.
fn behind_dot<'a>(name: &str, entry: &'a str) -> Option<&'a [u8]>
    ensures { MatchOption result ((rest : List ℕ) → entry.now ≢ name.now ++ (46 ∷ rest))
        (λ rest. entry.now ≡ name.now ++ (46 ∷ rest.now)) }
{
    match entry.as_bytes().strip_prefix(name.as_bytes()) {
        Some(rest) => rest.strip_prefix(b"."),
        None => None,
    }
}

/// The number of 32 bits that is spelled so and isn't 0.
fn number_in(alloc: Global, digits: &[u8]) -> Result<Option<u32>, NoMemory>
    ensures { IfOk result (λ number. MatchOption number
        ((n : ℕ) → 0 < n → n < 2 ^ 32 → digits.now ≢ decimal n)
        (λ n. (0 < n) × (n < 2 ^ 32) × (digits.now ≡ decimal n))) }
{
    let Some(number) = read_number(alloc, digits)? else {
        return Ok(None);
    };
    match u32::try_from(number) {
        Ok(number) => Ok(if number == 0 { None } else { Some(number) }),
        Err(_) => Ok(None),
    }
}

/// The number of the copy of the file with this name that an entry of its folder is.
pub fn copy_number(alloc: Global, name: &str, entry: &str) -> Result<Option<u32>, NoMemory>
    ensures { IfOk result (λ number. MatchOption number
        ((n : ℕ) → ¬ (IsCopy name.now entry.now n)) (IsCopy name.now entry.now)) }
{
    match behind_dot(name, entry) {
        Some(digits) => number_in(alloc, digits),
        None => Ok(None),
    }
}

/// The highest number of a copy of the file with this name among the entries of its folder, or 0.
pub fn highest_copy(alloc: Global, name: &str, entries: &[String]) -> Result<u32, NoMemory>
    ensures { IfOk result (IsHighest name.now (map string_bytes entries.now)) }
{
    let mut highest = 0;
    for entry in entries {
        if let Some(number) = copy_number(alloc, name, entry.as_str())? {
            if highest < number {
                highest = number;
            }
        }
    }
    Ok(highest)
}
