ghost use Rattle.std.specs.Prelude.{◌≡◌};
ghost use Rattle.lef_forms.specs.Numbers.{is_number};

/// Whether the word is a decimal, of whatever size.
#[tactic(auto, unfolding(crate::specs::Numbers::is_number))]
pub fn is_number(word: &[u8]) -> bool
    ensures { result ≡ is_number word.now }
{
    ld_words::is_number(word)
}
