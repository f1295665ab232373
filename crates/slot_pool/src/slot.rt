ghost use Rattle.std.specs.Prelude.{◌≡◌, Some, IsSome};
ghost use Rattle.std.specs.Borrow.{sem};

/// A slot of a pool.
#[derive(Drop)]
pub enum Slot<T> {
    /// It has this record.
    Live(T),
    /// It is empty.
    Free {
        /// The id that stands next below its own in the free list, 0 for the last.
        below: u32,
    },
}

impl<T> Slot<T> {
    ghost use Rattle.slot_pool.specs.LendingSlots.{LendsLive};
    ghost use Rattle.slot_pool.specs.Stacking.{content};

    // The record for writing.
    pub(crate) fn record_mut(&mut self) -> &mut T
        requires { IsSome (content self.old) }
        ensures* writes_back { sem 𝓛 (LendsLive T.row self.entry result) }
        ensures value { content self.old ≡ Some result.now }
    {
        match self {
            Slot::Live(record) => record,
            Slot::Free { below: _ } => unreachable!(),
        }
    }
}
