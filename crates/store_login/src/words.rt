use control_lines::read_number;
use login_plan::Choice;
use owned_lists::NoMemory;
use std::alloc::Global;
use store_return::session_of;
use word_pairs::{begin_with, path_of, value_of, words_of_option};

/// What the words of a login say, or of a look at what is kept.
#[derive(Clone, Copy, Debug, PartialEq, Eq)]
pub struct LoginOrder<'a> {
    /// The store's path.
    pub store: &'a str,
    /// The folder of what is kept.
    pub kept: &'a str,
    /// What the session is called.
    pub session: &'a str,
    /// What was chosen.
    pub choice: Choice,
}

/// The choice that a word says: `stay`, `nobody`, `anew`, or the number of what is kept.
fn choice_in(alloc: Global, word: &str) -> Result<Option<Choice>, NoMemory> {
    if word == "stay" {
        return Ok(Some(Choice::Stay));
    }
    if word == "nobody" {
        return Ok(Some(Choice::Nobody));
    }
    if word == "anew" {
        return Ok(Some(Choice::Anew));
    }
    match read_number(alloc, word.as_bytes())? {
        Some(number) => Ok(Some(Choice::Back(number))),
        None => Ok(None),
    }
}

fn choice_of(alloc: Global, words: &[String]) -> Result<Option<Choice>, NoMemory> {
    match value_of(words, "--choice") {
        Some(word) => choice_in(alloc, word),
        None => Ok(Some(Choice::Unasked)),
    }
}

/// Whether the words begin as those of a login.
pub fn are_of_login(words: &[String]) -> bool {
    begin_with(words, "login")
}

/// Whether the words begin as those of a look at what is kept.
pub fn are_of_kept(words: &[String]) -> bool {
    begin_with(words, "kept")
}

fn order_of<'a>(words: &'a [String], choice: Choice) -> Option<LoginOrder<'a>> {
    let store = path_of(words, "--store")?;
    let kept = path_of(words, "--kept")?;
    let session = session_of(words)?;
    Some(LoginOrder {
        store,
        kept,
        session,
        choice,
    })
}

/// What the words of a login say: `login` and two to four pairs in any order.
pub fn read_login(alloc: Global, words: &[String]) -> Result<Option<LoginOrder<'_>>, NoMemory> {
    let some = words_of_option(words, "--session");
    if words.len() != 5 + some + words_of_option(words, "--choice") {
        return Ok(None);
    }
    match choice_of(alloc, words)? {
        Some(choice) => Ok(order_of(words, choice)),
        None => Ok(None),
    }
}

/// What the words of a look at what is kept say: `kept` and two or three pairs in any order.
pub fn read_kept_order(words: &[String]) -> Option<LoginOrder<'_>> {
    if words.len() != 5 + words_of_option(words, "--session") {
        return None;
    }
    order_of(words, Choice::Unasked)
}
