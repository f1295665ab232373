ghost use Rattle.std.specs.Prelude.{◌≡◌};
ghost use Rattle.wires.specs.Pieces.{vias_of};

/// How many layers and vias there are, for the numbers in a code to name one.
#[derive(Clone, Copy, Debug, PartialEq, Eq)]
pub struct Limits {
    pub layers: u32,
    pub tech_vias: u32,
    pub block_vias: u32,
}

impl Limits {
    /// Each number from 1 names one.
    pub const WIDEST: Limits = Limits {
        layers: u32::MAX,
        tech_vias: u32::MAX,
        block_vias: u32::MAX,
    };

    /// How many vias of the block or of the technology there are.
    pub fn vias(self, block: bool) -> u32
        ensures { result ≡ vias_of self block }
    {
        if block {
            self.block_vias
        } else {
            self.tech_vias
        }
    }
}
