ghost use Rattle.std.specs.Prelude.{◌≡◌, if◌then◌else◌};
ghost use Rattle.lef_forms.specs.Classes.{fits_or, judged};

use crate::keyword::Keyword;
use crate::kind::LefKind;
use crate::number::is_number;
use crate::word_set::WordSet;
use ld_forms::{Judged, is_name, is_via_name, per_micron_of};

/// A class of words, of which a place takes one.
#[derive(Clone, Copy, Debug, PartialEq, Eq)]
pub enum Class {
    /// This word alone.
    Word(Keyword),
    /// A decimal.
    Number,
    /// The database units per micron.
    PerMicron,
    /// A lawful name.
    Name,
    /// A lawful name of a via.
    ViaName,
    /// A word of the set.
    OneOf(WordSet),
    /// Any word.
    Every,
}

/// What a word is to a class.
#[tactic(auto, unfolding(crate::specs::Classes::judged))]
pub fn judge(class: Class, word: &[u8]) -> Judged<LefKind>
    ensures { result ≡ judged class word.now }
{
    match class {
        Class::Word(keyword) => fits_or(keyword.is(word), Judged::Other),
        Class::Number => fits_or(is_number(word), Judged::Bad(LefKind::BadNumber)),
        Class::PerMicron => fits_or(
            per_micron_of(word).is_some(),
            Judged::Bad(LefKind::BadNumber),
        ),
        Class::Name => fits_or(is_name(word), Judged::Bad(LefKind::BadName)),
        Class::ViaName => fits_or(is_via_name(word), Judged::Bad(LefKind::BadName)),
        Class::OneOf(set) => fits_or(set.has(word), Judged::Other),
        Class::Every => Judged::Fits,
    }
}

fn fits_or(fits: bool, other: Judged<LefKind>) -> Judged<LefKind>
    ensures { result ≡ fits_or fits other }
{
    if fits { Judged::Fits } else { other }
}
