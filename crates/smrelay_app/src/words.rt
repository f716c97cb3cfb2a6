ghost use Rattle.std.specs.Prelude.{◌≡◌, ◌≢◌, List, ℕ, [], ◌∷◌, map, string_bytes, codes, MatchOption};
ghost use Rattle.ice_values.specs.declared.numbers.Endian.{Endian as AnyEndian};
ghost use Rattle.smrelay_app.specs.Words.{Places, AreServe, order_word};

use ice_values::Endian;
use word_pairs::{is_word, path_of, value_of, word_at};

/// Between whom a relay stands, and in which order it writes to both.
#[derive(Clone, Copy, Debug)]
pub struct Route<'a> {
    /// The socket at which it lets clients in.
    pub socket: &'a str,
    /// The manager's socket, to which it leads each of them.
    pub to: &'a str,
    pub order: Endian,
}

/// The order that a word names.
fn order_of(word: &str) -> Option<Endian>
    ensures { MatchOption result ((order : AnyEndian) → word.now ≢ order_word order) (λ order.
        word.now ≡ order_word order) }
{
    if word == "lsb" {
        Some(Endian::Lsb)
    } else if word == "msb" {
        Some(Endian::Msb)
    } else {
        None
    }
}

/// The order of a rehearsal, where the words are `rehearse` and that order.
pub fn read_rehearsal(words: &[String]) -> Option<Endian>
    ensures { MatchOption result ((order : AnyEndian) →
        map string_bytes words.now ≢ codes "rehearse" ∷ order_word order ∷ []) (λ order.
        map string_bytes words.now ≡ codes "rehearse" ∷ order_word order ∷ []) }
{
    if words.len() != 2 || !is_word(words, 0, "rehearse") {
        return None;
    }
    order_of(word_at(words, 1))
}

/// The route of a relay, where the words are `serve` and three pairs: one with each of the names, in
/// any order.
pub fn read_route(words: &[String]) -> Option<Route<'_>>
    ensures { MatchOption result ((order : AnyEndian) (places : Places) →
        ¬ (AreServe (map string_bytes words.now) order places)) (λ route.
        AreServe (map string_bytes words.now) route.order
        (record { socket = route.socket.now; to = route.to.now })) }
{
    if words.len() != 7 || !is_word(words, 0, "serve") {
        return None;
    }
    let socket = path_of(words, "--socket")?;
    let to = path_of(words, "--to")?;
    let order = order_of(value_of(words, "--order")?)?;
    Some(Route { socket, to, order })
}
