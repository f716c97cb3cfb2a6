ghost use Rattle.std.specs.Prelude.{◌≡◌, ◌≢◌, ◌<◌, ℕ, List, [], Bool, get_or, length, map, string_bytes, MatchOption};
ghost use Rattle.std.specs.Str.{bytes_eq};
ghost use Rattle.store_report.specs.Words.{check_words, sessions_words};

use checkpoint_records::is_name;

/// What is asked of a store.
#[derive(Clone, Copy, Debug)]
pub struct Check<'a> {
    /// The path of its file.
    pub store: &'a str,
    /// Whether the answer is JSON.
    pub is_json: bool,
}

/// Whether one of the words is this one.
fn is_word(words: &[String], at: usize, word: &str) -> bool
    requires { at < length words.now }
    ensures { result ≡ bytes_eq (get_or (map string_bytes words.now) at []) word.now }
{
    words[at].as_str() == word
}

/// The path of the store, behind the first two words.
fn store_of(words: &[String]) -> &str
    requires { 2 < length words.now }
    ensures { result.now ≡ get_or (map string_bytes words.now) 2 [] }
{
    words[2].as_str()
}

/// The name of the session behind `--session`, of which what is asked by `store-check` is to tell; it is
/// taken out of the words. Words that aren't so, or name no session, stay as they are.
pub fn take_session(words: &mut Vec<String>) -> Option<String> {
    if words.first().map(String::as_str) != Some("store-check") {
        return None;
    }
    let mut at = 1;
    for _ in 0..words.len() {
        match words.get(at) {
            Some(word) if word.as_str() == "--session" => break,
            Some(word) if word.as_str() == "--json" => at = at.saturating_add(1),
            _ => at = at.saturating_add(2),
        }
    }
    let value = at.saturating_add(1);
    if value >= words.len() {
        return None;
    }
    if !is_name(words[value].as_bytes()) {
        return None;
    }
    let _ = words.remove(at);
    Some(words.remove(at))
}

/// What the words ask of a store, where they are `store-check`, `--store` and its path, and behind
/// them `--json` or nothing.
pub fn read_check(words: &[String]) -> Option<Check<'_>>
    ensures { MatchOption result ((store : List ℕ) (json : Bool) →
        map string_bytes words.now ≢ check_words store json) (λ check.
        map string_bytes words.now ≡ check_words check.store.now check.is_json) }
{
    if words.len() != 3 && words.len() != 4 {
        return None;
    }
    if !is_word(words, 0, "store-check") {
        return None;
    }
    if !is_word(words, 1, "--store") {
        return None;
    }
    let store = store_of(words);
    if words.len() == 3 {
        return Some(Check {
            store,
            is_json: false,
        });
    }
    if !is_word(words, 3, "--json") {
        return None;
    }
    Some(Check {
        store,
        is_json: true,
    })
}

/// The path of the store whose sessions the words ask for, where they are `sessions`, `--store` and
/// this path.
pub fn read_sessions(words: &[String]) -> Option<&str>
    ensures { MatchOption result ((store : List ℕ) →
        map string_bytes words.now ≢ sessions_words store) (λ store.
        map string_bytes words.now ≡ sessions_words store.now) }
{
    if words.len() != 3 || !is_word(words, 0, "sessions") || !is_word(words, 1, "--store") {
        return None;
    }
    Some(store_of(words))
}
