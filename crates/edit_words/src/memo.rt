use block_records::{Record, Terminals};
use odb_base::{Direction, Name, Placement, Usage};

/// What a step moved out of the block: with it and the step's tag the step can be taken back.
#[derive(Debug, Drop)]
pub enum Memo {
    /// Nothing.
    Nothing,
    /// Of a new object: whether its slot was added to its table, and how many slots were added to the table of
    /// instance terminals.
    Grown { object: bool, terminals: u32 },
    /// The record of an object that went, and the member that stood after it in the list that it left, or none
    /// where it was the last or stood in no list.
    Record { record: Record, next: Option<u32> },
    /// The name that an object had.
    Name(Name),
    /// The master that an instance had, and its terminals in the order of that master.
    Swapped { master: u32, terminals: Terminals },
    /// The placement that an object had.
    Place(Placement),
    /// The use that an object had.
    Usage(Usage),
    /// The direction that a terminal had.
    Direction(Direction),
    /// The member that stood after one that left its list, or none where it was the last.
    Next(Option<u32>),
}
