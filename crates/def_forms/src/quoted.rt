ghost use Rattle.std.specs.Prelude.{◌≡◌};
ghost use Rattle.std.specs.Option.{option_map};
ghost use Rattle.def_forms.specs.Quoted.{bus_in, divider_in, is_mark};

fn is_mark(byte: u8) -> bool
    ensures { result ≡ is_mark byte }
{
    byte >= b'!' && byte <= b'~' && byte != b'"'
}

/// The divider that a word has between its quotes (DIVIDERCHAR).
#[tactic(auto, unfolding(crate::specs::Quoted::divider_in))]
pub fn divider_of(word: &[u8]) -> Option<&[u8]>
    ensures { option_map (λ d. d.now) result ≡ divider_in word.now }
{
    match word {
        [b'"', mark, b'"'] if is_mark(*mark) => Some(&word[1..2]),
        _ => None,
    }
}

/// The two characters that a word has between its quotes (BUSBITCHARS).
#[tactic(auto, unfolding(crate::specs::Quoted::bus_in))]
pub fn bus_of(word: &[u8]) -> Option<&[u8]>
    ensures { option_map (λ d. d.now) result ≡ bus_in word.now }
{
    match word {
        [b'"', first, second, b'"'] if is_mark(*first) && is_mark(*second) => { Some(&word[1..3]) }
        _ => None,
    }
}
