// The parts of a memo. One that has no such part gives a first value.
ghost use Rattle.std.specs.Prelude.{◌≡◌};
ghost use Rattle.steps_net.specs.Back.{direction_moved, grew_of, grown_of, next_moved, place_moved, usage_moved};

use edit_words::Memo;
use odb_base::{Direction, Placement, Usage};

// Whether the slot of a new object was added to its table.
pub(crate) fn grew(memo: &Memo) -> bool
    ensures { result ≡ grew_of memo.now }
{
    match memo {
        Memo::Grown { object, .. } => *object,
        _ => false,
    }
}

// How many slots were added for the terminals of a new instance.
pub(crate) fn grown(memo: &Memo) -> u32
    ensures { result ≡ grown_of memo.now }
{
    match memo {
        Memo::Grown { terminals, .. } => *terminals,
        _ => 0,
    }
}

// The placement that an object had.
pub(crate) fn place_before(memo: &Memo) -> Placement
    ensures { result ≡ place_moved memo.now }
{
    match memo {
        Memo::Place(place) => *place,
        _ => Placement::UNPLACED,
    }
}

// The use that an object had.
pub(crate) fn usage_before(memo: &Memo) -> Usage
    ensures { result ≡ usage_moved memo.now }
{
    match memo {
        Memo::Usage(usage) => *usage,
        _ => Usage::None,
    }
}

// The direction that a terminal had.
pub(crate) fn direction_before(memo: &Memo) -> Direction
    ensures { result ≡ direction_moved memo.now }
{
    match memo {
        Memo::Direction(direction) => *direction,
        _ => Direction::None,
    }
}

// The number of the terminal that stood after one that was parted.
pub(crate) fn next(memo: &Memo) -> Option<u32>
    ensures { result ≡ next_moved memo.now }
{
    match memo {
        Memo::Next(next) => *next,
        _ => None,
    }
}
