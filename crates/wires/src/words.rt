ghost use Rattle.std.specs.Prelude.{◌≡◌, ◌==◌, ◌<◌, ◌∷◌, [], IfNone, IfSome, length, position};
ghost use Rattle.wires.specs.PathWords.{words_of};

/// The first word and what stands behind the space after it, or nothing where no space is left.
pub fn split_first_word(words: &[u8]) -> Option<(&[u8], &[u8])>
    ensures first { IfSome result (λ p. words_of words.now ≡ p.0.now ∷ words_of p.1.now) }
    ensures shorter { IfSome result (λ p. length p.1.now < length words.now) }
    ensures last { IfNone result (words_of words.now ≡ words.now ∷ []) }
{
    match first_space(words) {
        Some(at) => Some((&words[..at], &words[at + 1..])),
        None => None,
    }
}

fn first_space(words: &[u8]) -> Option<usize>
    ensures { result ≡ position (λ b. b == 32) words.now }
{
    words.iter().position(|b| *b == b' ')
}
