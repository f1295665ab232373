ghost use Rattle.std.specs.Prelude.{⊤, ◌≡◌, [], ◌∷◌, codes};

use bitflags::{Flag, Flags, bitflag_items};

/// Under which turns something may be placed: a set of mirrorings and of the turn by 90 degrees (LEF/DEF 5.8 Language
/// Reference, `SYMMETRY`). Its bits are the sum of 1 for X, 2 for Y and 4 for R90.
#[derive(Clone, Copy, Debug, PartialEq, Eq)]
pub struct Symmetry(u8);

bitflag_items! {
    impl Symmetry: u8 {
        const X = 1;
        const Y = 2;
        const R90 = 4;
    }
}

impl Flags for Symmetry {
    type Bits = u8;

    ghost exact = { ⊤ };

    ghost table = { (codes "X", 1) ∷ (codes "Y", 2) ∷ (codes "R90", 4) ∷ [] };

    ghost set_of = { λ s. s.0 };

    fn flags<'a>() -> &'a [Flag<Symmetry>] {
        Symmetry::FLAGS
    }

    fn bits(&self) -> u8 {
        self.0
    }

    fn from_bits_retain(bits: u8) -> Symmetry {
        Symmetry(bits)
    }
}
