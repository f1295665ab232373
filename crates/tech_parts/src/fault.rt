ghost use Rattle.std.specs.Prelude.{◌≡◌};
ghost use Rattle.tech_parts.specs.Adding.{fault_at};
ghost use Rattle.tech_parts.specs.declared.fault.PartFault.TheVariants.{Memory};

use std::alloc::AllocError;

/// Why a part isn't entered.
#[derive(Clone, Copy, Debug, PartialEq, Eq)]
pub enum PartCause {
    /// Other units stand already.
    UnitsChanged { had: u32, got: u32 },
    /// A part of its sort has the name of this one.
    NameTaken,
    /// A value of the part is outside its set or its limit, it names a layer or a site that isn't there, or two
    /// terminals of a master have one name.
    BadPart,
    /// The list of the part's sort is full.
    Full,
}

/// Why parts aren't entered: the cause of the first part that isn't, with its place from 1.
#[derive(Clone, Copy, Debug, PartialEq, Eq)]
pub enum PartFault {
    /// Other units stand already.
    UnitsChanged { had: u32, got: u32 },
    /// A part of its sort has the name of this one.
    NameTaken { at: u64 },
    /// A value of the part is outside its set or its limit, it names a layer or a site that isn't there, or two
    /// terminals of a master have one name.
    BadPart { at: u64 },
    /// The list of the part's sort is full.
    Full { at: u64 },
    /// There is no memory for the parts.
    Memory,
}

impl PartCause {
    /// The fault of the part at this place, from 1.
    pub fn at(self, at: u64) -> PartFault
        ensures { result ≡ fault_at at self }
    {
        match self {
            PartCause::UnitsChanged { had, got } => PartFault::UnitsChanged { had, got },
            PartCause::NameTaken => PartFault::NameTaken { at },
            PartCause::BadPart => PartFault::BadPart { at },
            PartCause::Full => PartFault::Full { at },
        }
    }
}

impl From<AllocError> for PartFault {
    ghost from_gives = { λ _ fault. fault ≡ Memory };

    fn from(_: AllocError) -> Self {
        PartFault::Memory
    }
}
