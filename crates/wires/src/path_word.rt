ghost use Rattle.std.specs.Prelude.{◌≡◌};
ghost use Rattle.wires.specs.PathWords.{is, is_unsupported, orient_from, text_of};

use odb_base::{Orient, Worded, same_bytes};

/// A word that stands for itself in the paths of DEF.
#[derive(Clone, Copy, Debug, PartialEq, Eq)]
pub enum PathWord {
    New,
    Taper,
    TaperRule,
    Plus,
    Shape,
    Open,
    Close,
    Star,
    Rect,
    Mask,
    Style,
    Virtual,
    Do,
}

impl PathWord {
    #[inline]
    fn text(self) -> &'static [u8]
        ensures { result.now ≡ text_of self }
    {
        match self {
            PathWord::New => b"NEW",
            PathWord::Taper => b"TAPER",
            PathWord::TaperRule => b"TAPERRULE",
            PathWord::Plus => b"+",
            PathWord::Shape => b"SHAPE",
            PathWord::Open => b"(",
            PathWord::Close => b")",
            PathWord::Star => b"*",
            PathWord::Rect => b"RECT",
            PathWord::Mask => b"MASK",
            PathWord::Style => b"STYLE",
            PathWord::Virtual => b"VIRTUAL",
            PathWord::Do => b"DO",
        }
    }

    /// Whether these bytes are the word.
    #[inline]
    #[tactic(auto, unfolding(crate::specs::PathWords::is))]
    pub fn is(self, bytes: &[u8]) -> bool
        ensures { result ≡ is self bytes.now }
    {
        same_bytes(bytes, self.text())
    }
}

/// Whether these bytes are a word by which something begins that paths can't have here.
#[tactic(auto, unfolding(crate::specs::PathWords::is_unsupported))]
pub fn is_unsupported_word(bytes: &[u8]) -> bool
    ensures { result ≡ is_unsupported bytes.now }
{
    PathWord::Mask.is(bytes)
        || PathWord::Style.is(bytes)
        || PathWord::Virtual.is(bytes)
        || PathWord::Do.is(bytes)
}

/// The orientation of a word.
#[tactic(auto, unfolding(crate::specs::PathWords::orient_from))]
pub fn orient_of_word(bytes: &[u8]) -> Option<Orient>
    ensures { result ≡ orient_from bytes.now }
{
    Orient::from_word(bytes)
}
