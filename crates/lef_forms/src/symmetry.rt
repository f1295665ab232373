ghost use Rattle.std.specs.Prelude.{◌≡◌};
ghost use Rattle.lef_forms.specs.Symmetry.{symmetries, symmetry_code, symmetry_word};

use odb_base::{Coded, Worded};

/// How a site or a macro may be turned (LEF/DEF 5.8 Language Reference, Site and Macro, SYMMETRY). The codes
/// are bits, whose sum stands for several.
#[derive(Clone, Copy, Debug, PartialEq, Eq)]
pub enum Symmetry {
    /// Mirrored about the x axis.
    X = 1,
    /// Mirrored about the y axis.
    Y = 2,
    /// Turned by 90 degrees.
    R90 = 4,
}

impl Coded for Symmetry {
    ghost every = { symmetries };

    ghost code_of = { symmetry_code };

    fn every() -> &'static [Symmetry] {
        &[Symmetry::X, Symmetry::Y, Symmetry::R90]
    }

    fn code(self) -> u8 {
        self as u8
    }
}

impl Worded for Symmetry {
    ghost word_of = { symmetry_word };

    #[tactic(auto, unfolding(crate::specs::Symmetry::symmetry_word))]
    fn word(self) -> &'static [u8] {
        match self {
            Symmetry::X => b"X",
            Symmetry::Y => b"Y",
            Symmetry::R90 => b"R90",
        }
    }
}
