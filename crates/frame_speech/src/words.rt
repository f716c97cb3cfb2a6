ghost use Rattle.std.specs.Prelude.{◌≡◌, position, ◌==◌};
ghost use Rattle.frame_speech.specs.Words.{without_nul};

fn first_nul(word: &[u8]) -> Option<usize>
    ensures { result ≡ position (λ b. b == 0) word.now }
{
    word.iter().position(|byte| *byte == 0)
}

/// The word without the NUL at its end, where it has no other. Programs on Xt end each word so.
pub fn without_nul(word: &[u8]) -> &[u8]
    ensures { result.now ≡ without_nul word.now }
{
    match first_nul(word) {
        Some(place) if place + 1 == word.len() => &word[..place],
        Some(_) => word,
        None => word,
    }
}
