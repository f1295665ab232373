ghost use Rattle.std.specs.Prelude.{◌≡◌};
ghost use Rattle.ld_forms.specs.Worded.{usage_in};

use odb_base::{Usage, Worded};

/// The use of a pin or a net that a word names (LEF Macro Pin, DEF PINS and NETS, USE).
#[tactic(auto, unfolding(crate::specs::Worded::usage_in))]
pub fn usage_of(word: &[u8]) -> Option<Usage>
    ensures { result ≡ usage_in word.now }
{
    Usage::named_among(
        &[
            Usage::Signal,
            Usage::Analog,
            Usage::Power,
            Usage::Ground,
            Usage::Clock,
            Usage::Reset,
            Usage::Scan,
            Usage::TieOff,
        ],
        word,
    )
}
