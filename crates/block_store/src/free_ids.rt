ghost use Rattle.std.specs.Prelude.{◌≡◌};
ghost use Rattle.std.specs.Iterator.{YieldsFirst, item_count};
ghost use Rattle.block_store.specs.Block.{free_in};

use crate::block::Block;
use crate::entry::{BTermEntry, GroupEntry, InstEntry, NetEntry, RegionEntry, RowEntry};
use block_records::{BlockageRec, ITermRec, PinRec, PropRec, TrackRec, WireRec};
use named_pool::NameCell;
use odb_base::Kind;
use slot_pool::FreeIds as PoolFreeIds;
use std::marker::Model;

/// The free identifiers of a kind that are left, top first. Contracts see their list.
#[derive(Drop)]
pub struct FreeIds<'a> {
    left: Left<'a>,
}

// The free identifiers in the pool of a kind.
#[derive(Drop)]
pub(crate) enum Left<'a> {
    Inst(PoolFreeIds<'a, NameCell<InstEntry>>),
    ITerm(PoolFreeIds<'a, ITermRec>),
    Net(PoolFreeIds<'a, NameCell<NetEntry>>),
    BTerm(PoolFreeIds<'a, NameCell<BTermEntry>>),
    Pin(PoolFreeIds<'a, PinRec>),
    Row(PoolFreeIds<'a, NameCell<RowEntry>>),
    Track(PoolFreeIds<'a, TrackRec>),
    Wire(PoolFreeIds<'a, WireRec>),
    Blockage(PoolFreeIds<'a, BlockageRec>),
    Region(PoolFreeIds<'a, NameCell<RegionEntry>>),
    Group(PoolFreeIds<'a, NameCell<GroupEntry>>),
    Prop(PoolFreeIds<'a, PropRec>),
}

impl<'a> Model for FreeIds<'a> {
    ghost use Rattle.std.specs.Prelude.{ℕ, List};

    ghost Value = { List ℕ };

    ghost use Rattle.block_store.specs.FreeIds.{left_ids};

    ghost view = { λ ids. left_ids ids.left };
}

impl<'a> Iterator for FreeIds<'a> {
    type Item = u32;

    ghost next_gives = { YieldsFirst (λ ids. ids) };

    ghost remaining = { item_count (λ ids. ids) };

    fn next(&mut self) -> Option<u32> {
        match &mut self.left {
            Left::Inst(ids) => ids.next(),
            Left::ITerm(ids) => ids.next(),
            Left::Net(ids) => ids.next(),
            Left::BTerm(ids) => ids.next(),
            Left::Pin(ids) => ids.next(),
            Left::Row(ids) => ids.next(),
            Left::Track(ids) => ids.next(),
            Left::Wire(ids) => ids.next(),
            Left::Blockage(ids) => ids.next(),
            Left::Region(ids) => ids.next(),
            Left::Group(ids) => ids.next(),
            Left::Prop(ids) => ids.next(),
        }
    }
}

impl Block {
    /// The free identifiers of a kind, top first: the next new object gets the first of them.
    pub fn free_ids(&self, kind: Kind) -> FreeIds<'_>
        ensures { result ≡ free_in kind self.now.block }
    {
        let left = match kind {
            Kind::Inst => Left::Inst(self.pools.inst.free()),
            Kind::ITerm => Left::ITerm(self.pools.iterm.free()),
            Kind::Net => Left::Net(self.pools.net.free()),
            Kind::BTerm => Left::BTerm(self.pools.bterm.free()),
            Kind::Pin => Left::Pin(self.pools.pin.free()),
            Kind::Row => Left::Row(self.pools.row.free()),
            Kind::Track => Left::Track(self.pools.track.free()),
            Kind::Wire => Left::Wire(self.pools.wire.free()),
            Kind::Blockage => Left::Blockage(self.pools.blockage.free()),
            Kind::Region => Left::Region(self.pools.region.free()),
            Kind::Group => Left::Group(self.pools.group.free()),
            Kind::Prop => Left::Prop(self.pools.prop.free()),
        };
        FreeIds { left }
    }
}
