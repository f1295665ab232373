ghost use Rattle.ld_words.specs.Laws.{LinesAreCounted, RoundsToNearest, SpacedWordsAreRead};

/// A text without a fault ends on the line whose number is one more than that of its line feeds.
#[tactic(auto, using(crate::proofs::Counted::lines_counted))]
pub fn lines_are_counted()
    ensures { LinesAreCounted }
{}

/// A text of plain and quoted words with a blank behind each has just these words, each with its line.
#[tactic(auto, using(crate::proofs::Spaced::spaced_words_read))]
pub fn spaced_words_are_read()
    ensures { SpacedWordsAreRead }
{}

/// The rounding of [`to_units`](crate::to_units) is to the nearest whole number, and of two that are equally
/// near to the greater.
pub fn rounding_is_nearest()
    ensures { RoundsToNearest }
{}
