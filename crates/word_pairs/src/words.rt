ghost use Rattle.std.specs.Prelude.{◌≡◌, ◌↔◌, ◌<◌, ◌≤◌, ◌∷◌, ℕ, IsTrue, List, [], get_or, drop, length, map, string_bytes, MatchOption, Some, None};
ghost use Rattle.std.specs.Str.{bytes_eq};
ghost use Rattle.word_pairs.specs.Words.{IsPath, HasPath, option_in, options_of, pairs_of, value_in, words_taken};

/// The most bytes that a path may have.
const PATH_LIMIT: usize = 4096;

/// One of the words.
pub fn word_at(words: &[String], at: usize) -> &str
    requires { at < length words.now }
    ensures { result.now ≡ get_or (map string_bytes words.now) at [] }
{
    words[at].as_str()
}

/// Whether one of the words is this one.
pub fn is_word(words: &[String], at: usize, word: &str) -> bool
    requires { at < length words.now }
    ensures { result ≡ bytes_eq (get_or (map string_bytes words.now) at []) word.now }
{
    word_at(words, at) == word
}

/// The value of the first pair with this name, of the pairs that begin at this word.
pub fn value_from<'a>(words: &'a [String], from: usize, name: &str) -> Option<&'a str>
    ensures { MatchOption result
        (value_in (pairs_of (drop from (map string_bytes words.now))) name.now ≡ None) (λ value.
        value_in (pairs_of (drop from (map string_bytes words.now))) name.now ≡ Some value.now) }
{
    let mut at = from;
    while at < words.len() && words.len() - at >= 2 {
        if is_word(words, at, name) {
            return Some(word_at(words, at + 1));
        }
        at += 2;
    }
    None
}

/// The value of the first pair with this name, of the pairs behind the first word.
pub fn value_of<'a>(words: &'a [String], name: &str) -> Option<&'a str>
    ensures { MatchOption result (option_in (map string_bytes words.now) name.now ≡ None) (λ value.
        option_in (map string_bytes words.now) name.now ≡ Some value.now) }
{
    value_from(words, 1, name)
}

/// How many words an option takes: two where it is named, and else none.
pub fn words_of_option(words: &[String], name: &str) -> usize
    ensures count { result ≡ words_taken (option_in (map string_bytes words.now) name.now) }
    ensures few { result ≤ 2 }
{
    match value_of(words, name) {
        Some(_) => 2,
        None => 0,
    }
}

/// Whether this is the first word.
pub fn begin_with(words: &[String], first: &str) -> bool
    ensures { IsTrue result ↔ (map string_bytes words.now ≡ first.now ∷ drop 1
        (map string_bytes words.now)) }
{
    !words.is_empty() && is_word(words, 0, first)
}

/// Whether a path can be named: it has 1 to 4,096 bytes.
fn is_path(path: &str) -> bool
    ensures { IsTrue result ↔ IsPath path.now }
{
    1 <= path.len() && path.len() <= PATH_LIMIT
}

/// The path that the pairs behind the first word have with this name.
pub fn path_of<'a>(words: &'a [String], name: &str) -> Option<&'a str>
    ensures { MatchOption result ((value : List ℕ) →
        ¬ (HasPath (options_of (map string_bytes words.now)) name.now value)) (λ value.
        HasPath (options_of (map string_bytes words.now)) name.now value.now) }
{
    match value_of(words, name) {
        Some(value) => { if is_path(value) { Some(value) } else { None } }
        None => None,
    }
}
