ghost use Rattle.std.specs.Prelude.{◌≡◌};
ghost use Rattle.std.specs.Iterator.{YieldsFirst, item_count};
ghost use Rattle.block_cells.specs.Cells.{free_in};

use crate::cells::{BTermCell, GroupCell, InstCell, NetCell, RegionCell, RowCell};
use crate::pools::Pools;
use block_records::{BlockageRec, ITermRec, PinRec, PropRec, TrackRec, WireRec};
use linked_pool::Linked;
use named_pool::NameCell;
use odb_base::Kind;
use slot_pool::FreeIds as PoolFreeIds;
use std::marker::Model;

/// The free identifiers of a kind that are left, top first. Contracts see their list.
#[derive(Drop)]
pub struct FreeIds<'a> {
    left: Left<'a>,
}

// The free identifiers in the pool of a kind.
#[derive(Drop)]
pub(crate) enum Left<'a> {
    Inst(PoolFreeIds<'a, NameCell<Linked<InstCell>>>),
    ITerm(PoolFreeIds<'a, Linked<ITermRec>>),
    Net(PoolFreeIds<'a, NameCell<NetCell>>),
    BTerm(PoolFreeIds<'a, NameCell<Linked<BTermCell>>>),
    Pin(PoolFreeIds<'a, Linked<PinRec>>),
    Row(PoolFreeIds<'a, NameCell<RowCell>>),
    Track(PoolFreeIds<'a, TrackRec>),
    Wire(PoolFreeIds<'a, Linked<WireRec>>),
    Blockage(PoolFreeIds<'a, BlockageRec>),
    Region(PoolFreeIds<'a, NameCell<RegionCell>>),
    Group(PoolFreeIds<'a, NameCell<Linked<GroupCell>>>),
    Prop(PoolFreeIds<'a, Linked<PropRec>>),
}

impl<'a> Model for FreeIds<'a> {
    ghost use Rattle.std.specs.Prelude.{ℕ, List};

    ghost Value = { List ℕ };

    ghost use Rattle.block_cells.specs.FreeIds.{left_ids};

    ghost view = { λ ids. left_ids ids.left };
}

impl<'a> Iterator for FreeIds<'a> {
    type Item = u32;

    ghost next_gives = { YieldsFirst (λ ids. ids) };

    ghost remaining = { item_count (λ ids. ids) };

    fn next(&mut self) -> Option<u32> {
        match &mut self.left {
            Left::Inst(ids) => ids.next(),
            Left::ITerm(ids) => ids.next(),
            Left::Net(ids) => ids.next(),
            Left::BTerm(ids) => ids.next(),
            Left::Pin(ids) => ids.next(),
            Left::Row(ids) => ids.next(),
            Left::Track(ids) => ids.next(),
            Left::Wire(ids) => ids.next(),
            Left::Blockage(ids) => ids.next(),
            Left::Region(ids) => ids.next(),
            Left::Group(ids) => ids.next(),
            Left::Prop(ids) => ids.next(),
        }
    }
}

impl Pools {
    /// The free identifiers of a kind, top first: the next new object gets the first of them.
    pub fn free_ids(&self, kind: Kind) -> FreeIds<'_>
        ensures { result ≡ free_in kind self.now.cells }
    {
        let left = match kind {
            Kind::Inst => Left::Inst(self.inst.pool.free()),
            Kind::ITerm => Left::ITerm(self.terms.first.free()),
            Kind::Net => Left::Net(self.net.free()),
            Kind::BTerm => Left::BTerm(self.terms.second.free()),
            Kind::Pin => Left::Pin(self.pin.pool.free()),
            Kind::Row => Left::Row(self.row.free()),
            Kind::Track => Left::Track(self.track.free()),
            Kind::Wire => Left::Wire(self.wire.pool.free()),
            Kind::Blockage => Left::Blockage(self.blockage.free()),
            Kind::Region => Left::Region(self.region.free()),
            Kind::Group => Left::Group(self.group.pool.free()),
            Kind::Prop => Left::Prop(self.prop.pool.free()),
        };
        FreeIds { left }
    }
}
