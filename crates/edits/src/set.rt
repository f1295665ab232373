ghost use Rattle.std.specs.Prelude.{◌≡◌};
ghost use Rattle.block_store.specs.Fields.{net_in};
ghost use Rattle.edits.specs.Plan.{fits_status, is_north, joined, plan_join, plan_make_special, plan_part, plan_place, plan_rename, plan_set_dir, plan_set_use, unjoined};
ghost use Rattle.edits.specs.Planning.{IsPlanned};

use crate::checks::{allowed, coordinate, lawful, live, unheld};
use crate::make::{name_of, one};
use block_store::Block;
use edit_words::{Refusal, Step};
use odb_base::{BTermId, Direction, ITermId, Kind, NetId, Orient, PlaceStatus, Placement, Usage};
use std::alloc::Global;

/// The plan of another name for an object.
pub fn plan_rename(
    alloc: Global,
    block: &Block,
    kind: Kind,
    id: u32,
    name: &[u8],
) -> Result<Vec<Step>, Refusal>
    ensures { IsPlanned (plan_rename block.now.block kind id name.now) result }
{
    live(block, kind, id)?;
    allowed(kind.has_names(), 1)?;
    lawful(name, 3)?;
    unheld(block, kind, name)?;
    let name = name_of(alloc, name)?;
    Ok(one(alloc, Step::Rename { kind, id, name })?)
}

/// The plan of a placement for an object.
pub fn plan_place(
    alloc: Global,
    block: &Block,
    kind: Kind,
    id: u32,
    status: PlaceStatus,
    x: i64,
    y: i64,
    orientation: Orient,
) -> Result<Vec<Step>, Refusal>
    ensures { IsPlanned (plan_place block.now.block kind id status x y orientation) result }
{
    live(block, kind, id)?;
    allowed(kind.has_place(), 1)?;
    allowed(fits_status(status, x, y, orientation), 3)?;
    let place = Placement {
        status,
        x: coordinate(x, 4)?,
        y: coordinate(y, 5)?,
        orientation,
    };
    Ok(one(alloc, Step::Place { kind, id, place })?)
}

// What is unplaced stands at 0, 0 and is turned N.
fn fits_status(status: PlaceStatus, x: i64, y: i64, orientation: Orient) -> bool
    ensures { result ≡ fits_status status x y orientation }
{
    match status {
        PlaceStatus::Unplaced => x == 0 && y == 0 && is_north(orientation),
        _ => true,
    }
}

fn is_north(orientation: Orient) -> bool
    ensures { result ≡ is_north orientation }
{
    matches!(orientation, Orient::N)
}

/// The plan of a use for a net or a block terminal.
pub fn plan_set_use(
    alloc: Global,
    block: &Block,
    kind: Kind,
    id: u32,
    usage: Usage,
) -> Result<Vec<Step>, Refusal>
    ensures { IsPlanned (plan_set_use block.now.block kind id usage) result }
{
    live(block, kind, id)?;
    allowed(kind.has_usage(), 1)?;
    Ok(one(alloc, Step::SetUse { kind, id, usage })?)
}

/// The plan of a direction for a block terminal.
pub fn plan_set_dir(
    alloc: Global,
    block: &Block,
    bterm: u32,
    direction: Direction,
) -> Result<Vec<Step>, Refusal>
    ensures { IsPlanned (plan_set_dir block.now.block bterm direction) result }
{
    live(block, Kind::BTerm, bterm)?;
    allowed(direction.fits_bterm(), 2)?;
    Ok(one(alloc, Step::SetDir { bterm, direction })?)
}

/// The plan of a net that becomes special.
pub fn plan_make_special(alloc: Global, block: &Block, net: u32) -> Result<Vec<Step>, Refusal>
    ensures { IsPlanned (plan_make_special block.now.block net) result }
{
    live(block, Kind::Net, net)?;
    match block.net(NetId(net)) {
        Some(record) if record.special => Err(Refusal::Special),
        _ => Ok(one(alloc, Step::MakeSpecial { net })?),
    }
}

/// The plan of a terminal that is joined to a net.
pub fn plan_join(
    alloc: Global,
    block: &Block,
    kind: Kind,
    id: u32,
    net: u32,
) -> Result<Vec<Step>, Refusal>
    ensures { IsPlanned (plan_join block.now.block kind id net) result }
{
    live(block, kind, id)?;
    live(block, Kind::Net, net)?;
    allowed(kind.is_terminal(), 1)?;
    unjoined(net_of(block, kind, id))?;
    Ok(one(alloc, Step::Join { kind, id, net })?)
}

/// The plan of a terminal that is parted from its net.
pub fn plan_part(alloc: Global, block: &Block, kind: Kind, id: u32) -> Result<Vec<Step>, Refusal>
    ensures { IsPlanned (plan_part block.now.block kind id) result }
{
    live(block, kind, id)?;
    allowed(kind.is_terminal(), 1)?;
    let net = joined(net_of(block, kind, id))?;
    Ok(one(alloc, Step::Part { kind, id, net })?)
}

/// The net that a terminal is joined to, 0 for none. What is no terminal has none.
pub fn net_of(block: &Block, kind: Kind, id: u32) -> Option<u32>
    ensures { result ≡ net_in kind id block.now.block }
{
    match kind {
        Kind::ITerm => Some(block.iterm(ITermId(id))?.net),
        Kind::BTerm => Some(block.bterm(BTermId(id))?.net),
        _ => None,
    }
}

// A terminal that is joined to a net isn't joined to another.
fn unjoined(net: Option<u32>) -> Result<(), Refusal>
    ensures { result ≡ unjoined net }
{
    match net {
        None | Some(0) => Ok(()),
        Some(net) => Err(Refusal::Joined { net }),
    }
}

// The net that a terminal is joined to.
fn joined(net: Option<u32>) -> Result<u32, Refusal>
    ensures { result ≡ joined net }
{
    match net {
        None | Some(0) => Err(Refusal::NotJoined),
        Some(net) => Ok(net),
    }
}
