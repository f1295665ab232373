ghost use Rattle.std.specs.Prelude.{◌≡◌};
ghost use Rattle.slot_pool.specs.declared.fault.PoolFault.TheVariants.{Memory};

use std::alloc::AllocError;

/// Why room for some takes isn't there.
#[derive(Clone, Copy, Debug, PartialEq, Eq)]
pub enum PoolFault {
    /// The free ids and the slots that the cap still allows are fewer.
    Full,
    /// There is no memory for the slots.
    Memory,
}

impl From<AllocError> for PoolFault {
    ghost from_gives = { λ _ fault. fault ≡ Memory };

    fn from(_: AllocError) -> PoolFault {
        PoolFault::Memory
    }
}
