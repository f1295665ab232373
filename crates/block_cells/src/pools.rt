ghost use Rattle.std.specs.Prelude.{◌≡◌, ◌≤◌, IfOk};
ghost use Rattle.block_records.specs.Header.{new_header};
ghost use Rattle.block_cells.specs.Cells.{empty_cells, live_in, slots_in};
ghost use Rattle.block_cells.specs.Rooms.{IsRoomBounded};

use crate::cells::{BTermCell, GroupCell, InstCell, NetCell, RegionCell, RowCell};
use crate::every_kind::by_kind;
use block_records::{BlockageRec, Header, ITermRec, PinRec, PropRec, TrackRec, WireRec};
use linked_pool::{LinkedNames, LinkedPool, PairedPools};
use named_pool::NamedPool;
use odb_base::Kind;
use slot_pool::SlotPool;
use std::alloc::{AllocError, Global};
use std::marker::Model;

/// A header and one pool for each kind of objects, all with one cap.
#[derive(Drop)]
pub struct Pools {
    pub(crate) header: Header,
    pub(crate) inst: LinkedNames<InstCell>,
    // The terminals of instances and those of the block, which stand in the lists of nets.
    pub(crate) terms: PairedPools<ITermRec, BTermCell>,
    pub(crate) net: NamedPool<NetCell>,
    pub(crate) pin: LinkedPool<PinRec>,
    pub(crate) row: NamedPool<RowCell>,
    pub(crate) track: SlotPool<TrackRec>,
    pub(crate) wire: LinkedPool<WireRec>,
    pub(crate) blockage: SlotPool<BlockageRec>,
    pub(crate) region: NamedPool<RegionCell>,
    pub(crate) group: LinkedNames<GroupCell>,
    pub(crate) prop: LinkedPool<PropRec>,
    pub(crate) cap: u32,
}

impl Model for Pools {
    ghost use Rattle.std.specs.Prelude.{◌≡◌, ◌≤◌};
    ghost use Rattle.block_cells.specs.Rooms.{CellStore};

    ghost Value = { CellStore };

    ghost view = { λ s. record {
      cells = record {
        header = s.header;
        inst = s.inst.pool.table;
        iterm = s.terms.first.table;
        net = s.net.table;
        bterm = s.terms.second.table;
        pin = s.pin.pool.table;
        row = s.row.table;
        track = s.track.table;
        wire = s.wire.pool.table;
        blockage = s.blockage.table;
        region = s.region.table;
        group = s.group.pool.table;
        prop = s.prop.pool.table;
      };
      cap = s.cap;
      room = record {
        inst = s.inst.pool.spare;
        iterm = s.terms.first.spare;
        net = s.net.spare;
        bterm = s.terms.second.spare;
        pin = s.pin.pool.spare;
        row = s.row.spare;
        track = s.track.spare;
        wire = s.wire.pool.spare;
        blockage = s.blockage.spare;
        region = s.region.spare;
        group = s.group.pool.spare;
        prop = s.prop.pool.spare;
      };
    } };

    ghost invariant = { λ s. (s.inst.pool.cap ≡ s.cap) × (s.terms.first.cap ≡ s.cap) × (s.net.cap ≡ s.cap) × (s.terms.second.cap ≡ s.cap) × (s.pin.pool.cap ≡ s.cap) × (s.row.cap ≡ s.cap) × (s.track.cap ≡ s.cap) × (s.wire.pool.cap ≡ s.cap) × (s.blockage.cap ≡ s.cap) × (s.region.cap ≡ s.cap) × (s.group.pool.cap ≡ s.cap) × (s.prop.pool.cap ≡ s.cap) × (s.cap ≤ 16777215) };
}

impl Pools {
    /// Pools without objects.
    pub fn new(alloc: Global, cap: u32) -> Result<Pools, AllocError>
        requires { cap ≤ 16777215 }
        ensures cells { IfOk result (λ p. p.cells ≡ empty_cells new_header) }
        ensures cap { IfOk result (λ p. p.cap ≡ cap) }
    {
        Ok(Pools {
            header: Header::new(alloc)?,
            inst: LinkedNames {
                pool: NamedPool::new(alloc, cap),
            },
            terms: PairedPools {
                first: SlotPool::new(alloc, cap),
                second: NamedPool::new(alloc, cap),
            },
            net: NamedPool::new(alloc, cap),
            pin: LinkedPool {
                pool: SlotPool::new(alloc, cap),
            },
            row: NamedPool::new(alloc, cap),
            track: SlotPool::new(alloc, cap),
            wire: LinkedPool {
                pool: SlotPool::new(alloc, cap),
            },
            blockage: SlotPool::new(alloc, cap),
            region: NamedPool::new(alloc, cap),
            group: LinkedNames {
                pool: NamedPool::new(alloc, cap),
            },
            prop: LinkedPool {
                pool: SlotPool::new(alloc, cap),
            },
            cap,
        })
    }

    /// The greatest number of slots of a pool.
    pub fn cap(&self) -> u32
        ensures cap { result ≡ self.now.cap }
        ensures limit { result ≤ 16777215 }
    {
        self.cap
    }

    /// What the block has apart from its objects.
    pub fn header(&self) -> &Header
        ensures { result.now ≡ self.now.cells.header }
    {
        &self.header
    }

    /// The number of slots of a kind, with an object or empty.
    pub fn slots(&self, kind: Kind) -> u32
        ensures count { result ≡ slots_in kind self.now.cells }
        ensures within { slots_in kind self.now.cells ≤ self.now.cap }
        ensures limit { self.now.cap ≤ 16777215 }
        ensures bounds { IsRoomBounded kind self.now }
    {
        by_kind!(self, kind, pool => pool.slots())
    }

    /// Whether the identifier has an object of the kind.
    pub fn live(&self, kind: Kind, id: u32) -> bool
        ensures { result ≡ live_in kind id self.now.cells }
    {
        by_kind!(self, kind, pool => pool.live(id))
    }
}
