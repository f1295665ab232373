ghost use Rattle.std.specs.Prelude.{◌≡◌, ◌<◌, ◌↔◌, IsTrue};
ghost use Rattle.edits.specs.Checks.{allowed as is_allowed, holds_or, lawful as is_lawful, live as is_live, no_fault, nobody, nothing_lacks, unheld as is_unheld};
ghost use Rattle.steps_net.specs.Room.{lacking, lacks};
ghost use Rattle.block_store.specs.Block.{left_in};
ghost use Rattle.edits.specs.Plan.{coordinate as is_coordinate_at};

use block_store::Block;
use edit_words::{Refusal, Step};
use odb_base::{Kind, is_coordinate, name_fault};

/// The identifier has an object of the kind.
pub fn live(block: &Block, kind: Kind, id: u32) -> Result<(), Refusal>
    ensures { result ≡ is_live block.now.block kind id }
{
    if block.live(kind, id) {
        Ok(())
    } else {
        Err(Refusal::NotLive { kind, id })
    }
}

/// The value of the word at this place of the line is in its set and its limit.
pub fn allowed(holds: bool, at: u32) -> Result<(), Refusal>
    ensures { result ≡ is_allowed holds at }
{
    if holds {
        Ok(())
    } else {
        Err(Refusal::BadValue { at })
    }
}

/// The number at this place of the line, where it is within the limit of coordinates.
pub fn coordinate(n: i64, at: u32) -> Result<i32, Refusal>
    ensures { result ≡ is_coordinate_at n at }
{
    if is_coordinate(n) {
        Ok(n as i32)
    } else {
        Err(Refusal::BadValue { at })
    }
}

/// The word at this place of the line is a lawful name.
pub fn lawful(name: &[u8], at: u32) -> Result<(), Refusal>
    ensures { result ≡ is_lawful name.now at }
{
    match name_fault(name) {
        None => Ok(()),
        Some(_) => Err(Refusal::BadName { at }),
    }
}

/// No object of the kind has the name.
pub fn unheld(block: &Block, kind: Kind, name: &[u8]) -> Result<(), Refusal>
    ensures { result ≡ is_unheld block.now.block kind name.now }
{
    match block.find(kind, name) {
        None => Ok(()),
        Some(id) => Err(Refusal::NameTaken { id }),
    }
}

/// The tables allow so many new objects of a kind.
pub fn room(block: &Block, kind: Kind, n: u32) -> Result<(), Refusal>
    ensures { result ≡ nothing_lacks (lacking kind n block.now.cap block.now.block None) }
{
    if block.left(kind) < n {
        Err(Refusal::TableFull { kind })
    } else {
        Ok(())
    }
}
