use checkpoint_records::is_name;
use word_pairs::{begin_with, path_of, value_of, words_of_option};

/// What the words of a restore say.
#[derive(Clone, Copy, Debug, PartialEq, Eq)]
pub struct Order<'a> {
    /// The store's path.
    pub store: &'a str,
    /// The path of what was kept.
    pub kept: &'a str,
    /// What the session is called that is put back; none where all are.
    pub session: Option<&'a str>,
    /// Where the store's book is put first.
    pub beside: Option<&'a str>,
    /// Whether it is only shown what would come back.
    pub looks: bool,
}

/// Which of the words stands alone and is this one, behind the first. All other words stand in
/// pairs but these two.
fn place_of(words: &[String], word: &str) -> Option<usize> {
    let mut at = 1usize;
    for _ in 0..words.len() {
        let here = words.get(at)?.as_str();
        if here == word {
            return Some(at);
        }
        let step = if here == "--all" || here == "--look" {
            1
        } else {
            2
        };
        at = at.saturating_add(step);
    }
    None
}

/// Whether this word stands alone among the words, which is taken out.
fn take_word(words: &mut Vec<String>, word: &str) -> bool {
    let Some(place) = place_of(words.as_slice(), word) else {
        return false;
    };
    if place < words.len() {
        let _ = words.remove(place);
        return true;
    }
    false
}

/// What stands alone among the words of a restore.
#[derive(Clone, Copy, Debug, PartialEq, Eq)]
pub struct Marks {
    all: bool,
    looks: bool,
}

/// Takes `--all` and `--look` out of the words, where these are of a restore.
pub fn take_marks(words: &mut Vec<String>) -> Marks {
    if !begin_with(words.as_slice(), "restore") {
        return Marks {
            all: false,
            looks: false,
        };
    }
    let all = take_word(words, "--all");
    let looks = take_word(words, "--look");
    Marks { all, looks }
}

/// The name that the words say, or else `default`.
pub fn session_of(words: &[String]) -> Option<&str> {
    match value_of(words, "--session") {
        Some(name) => {
            if is_name(name.as_bytes()) {
                Some(name)
            } else {
                None
            }
        }
        None => Some("default"),
    }
}

/// The file that the words name for the store's book; the outer None is for a name that is no path.
fn beside_of(words: &[String]) -> Option<Option<&str>> {
    match value_of(words, "--beside") {
        Some(_) => match path_of(words, "--beside") {
            Some(path) => Some(Some(path)),
            None => None,
        },
        None => Some(None),
    }
}

/// Whether the words begin as those of a restore.
pub fn are_of_restore(words: &[String]) -> bool {
    begin_with(words, "restore")
}

/// What the words of a restore say, from which the marks were taken: `restore` and two to four pairs
/// in any order. Where all sessions are put back none is named.
pub fn read_order(words: &[String], marks: Marks) -> Option<Order<'_>> {
    let named = words_of_option(words, "--session");
    if words.len() != 5 + named + words_of_option(words, "--beside") {
        return None;
    }
    let session = if marks.all {
        if named > 0 {
            return None;
        }
        None
    } else {
        Some(session_of(words)?)
    };
    Some(Order {
        store: path_of(words, "--store")?,
        kept: path_of(words, "--from")?,
        session,
        beside: beside_of(words)?,
        looks: marks.looks,
    })
}
