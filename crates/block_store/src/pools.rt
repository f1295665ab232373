ghost use Rattle.std.specs.Prelude.{◌≡◌, ◌≤◌, [], IfOk};
ghost use Rattle.block_records.specs.Header.{new_header};
ghost use Rattle.block_store.specs.Block.{empty_block};
ghost use Rattle.named_pool.specs.Names.{AreNamed};
ghost use Rattle.block_store.specs.PlainTables.{AreTables, HaveDistinctNames};
ghost use Rattle.block_store.specs.Tables.{IsTable};

use crate::entry::{BTermEntry, GroupEntry, InstEntry, NetEntry, RegionEntry, RowEntry};
use crate::tables::{PlainTable, Tables};
use block_records::{BlockageRec, Header, ITermRec, PinRec, PropRec, TrackRec, WireRec};
use named_pool::{Named, NamedPool};
use slot_pool::SlotPool;
use std::alloc::{AllocError, Global};
use std::marker::Model;

mod fields;
mod lists;
mod objects;
mod rooms;

/// A header and one table for each kind, of which only this is known: each table is good, and within one cap, and no
/// two objects of a kind have one name. Contracts see a `Store`, as those of a block do.
#[derive(Drop)]
pub(crate) struct Pools {
    pub(crate) header: Header,
    pub(crate) inst: NamedPool<InstEntry>,
    pub(crate) iterm: SlotPool<ITermRec>,
    pub(crate) net: NamedPool<NetEntry>,
    pub(crate) bterm: NamedPool<BTermEntry>,
    pub(crate) pin: SlotPool<PinRec>,
    pub(crate) row: NamedPool<RowEntry>,
    pub(crate) track: SlotPool<TrackRec>,
    pub(crate) wire: SlotPool<WireRec>,
    pub(crate) blockage: SlotPool<BlockageRec>,
    pub(crate) region: NamedPool<RegionEntry>,
    pub(crate) group: NamedPool<GroupEntry>,
    pub(crate) prop: SlotPool<PropRec>,
    pub(crate) cap: u32,
    // An empty vector, which takes the members of a list that is full and gets one more.
    pub(crate) spare: Vec<u32>,
}

impl Model for Pools {
    ghost use Rattle.std.specs.Prelude.{◌≡◌, ◌≤◌, [], vec_capacity};
    ghost use Rattle.block_store.specs.Store.{Store};

    ghost Value = { Store };

    ghost view = { λ s. record {
      block = record {
        header = s.header;
        inst = s.inst.table;
        iterm = s.iterm.table;
        net = s.net.table;
        bterm = s.bterm.table;
        pin = s.pin.table;
        row = s.row.table;
        track = s.track.table;
        wire = s.wire.table;
        blockage = s.blockage.table;
        region = s.region.table;
        group = s.group.table;
        prop = s.prop.table;
      };
      cap = s.cap;
      room = record {
        inst = s.inst.spare;
        iterm = s.iterm.spare;
        net = s.net.spare;
        bterm = s.bterm.spare;
        pin = s.pin.spare;
        row = s.row.spare;
        track = s.track.spare;
        wire = s.wire.spare;
        blockage = s.blockage.spare;
        region = s.region.spare;
        group = s.group.spare;
        prop = s.prop.spare;
        list = vec_capacity s.spare;
      };
    } };

    ghost invariant = { λ s. (s.inst.cap ≡ s.cap) × (s.iterm.cap ≡ s.cap) × (s.net.cap ≡ s.cap) × (s.bterm.cap ≡ s.cap) × (s.pin.cap ≡ s.cap) × (s.row.cap ≡ s.cap) × (s.track.cap ≡ s.cap) × (s.wire.cap ≡ s.cap) × (s.blockage.cap ≡ s.cap) × (s.region.cap ≡ s.cap) × (s.group.cap ≡ s.cap) × (s.prop.cap ≡ s.cap) × (s.spare.items ≡ []) × (s.cap ≤ 16777215) };
}

impl Pools {
    // Tables without objects.
    pub(crate) fn new(alloc: Global, cap: u32) -> Result<Pools, AllocError>
        requires { cap ≤ 16777215 }
        ensures block { IfOk result (λ b. b.block ≡ empty_block new_header) }
        ensures cap { IfOk result (λ b. b.cap ≡ cap) }
    {
        Ok(Pools {
            header: Header::new(alloc)?,
            inst: NamedPool::new(alloc, cap),
            iterm: SlotPool::new(alloc, cap),
            net: NamedPool::new(alloc, cap),
            bterm: NamedPool::new(alloc, cap),
            pin: SlotPool::new(alloc, cap),
            row: NamedPool::new(alloc, cap),
            track: SlotPool::new(alloc, cap),
            wire: SlotPool::new(alloc, cap),
            blockage: SlotPool::new(alloc, cap),
            region: NamedPool::new(alloc, cap),
            group: NamedPool::new(alloc, cap),
            prop: SlotPool::new(alloc, cap),
            cap,
            spare: Vec::new(alloc),
        })
    }

    // The pools of these tables.
    pub(crate) fn with_tables(alloc: Global, tables: Tables, cap: u32) -> Result<Pools, AllocError>
        requires good { AreTables cap tables }
        requires names { HaveDistinctNames tables }
        requires limit { cap ≤ 16777215 }
        ensures block { IfOk result (λ b. b.block ≡ tables) }
        ensures cap { IfOk result (λ b. b.cap ≡ cap) }
    {
        let Tables {
            header,
            inst,
            iterm,
            net,
            bterm,
            pin,
            row,
            track,
            wire,
            blockage,
            region,
            group,
            prop,
        } = tables;
        let first = three_named_pools(inst, net, bterm, cap);
        let second = three_named_pools(row, region, group, cap);
        let third = three_pools(iterm, pin, track, cap);
        let fourth = three_pools(wire, blockage, prop, cap);
        match all(first, second, third, fourth) {
            Ok(pools) => {
                let (first, second, third, fourth) = pools;
                let (inst, net, bterm) = first;
                let (row, region, group) = second;
                let (iterm, pin, track) = third;
                let (wire, blockage, prop) = fourth;
                Ok(Pools {
                    header,
                    inst,
                    iterm,
                    net,
                    bterm,
                    pin,
                    row,
                    track,
                    wire,
                    blockage,
                    region,
                    group,
                    prop,
                    cap,
                    spare: Vec::new(alloc),
                })
            }
            Err(fault) => {
                drop(header);
                Err(fault)
            }
        }
    }
}

// Three tables at a time: where memory is wanted, all that was made before has to be given back, and the fewer ways
// there are out of a call, the shorter is its proof.
fn three_pools<A: Drop, B: Drop, C: Drop>(
    a: PlainTable<A>,
    b: PlainTable<B>,
    c: PlainTable<C>,
    cap: u32,
) -> Result<(SlotPool<A>, SlotPool<B>, SlotPool<C>), AllocError>
    requires first { IsTable cap a }
    requires second { IsTable cap b }
    requires third { IsTable cap c }
    ensures tables { IfOk result (λ pools. (pools.0.table ≡ a) × (pools.1.table ≡ b) × (pools.2.table ≡ c)) }
    ensures caps { IfOk result (λ pools. (pools.0.cap ≡ cap) × (pools.1.cap ≡ cap) × (pools.2.cap ≡ cap)) }
{
    Ok((a.into_pool(cap)?, b.into_pool(cap)?, c.into_pool(cap)?))
}

// Three tables of objects with names.
fn three_named_pools<A: Named + Drop, B: Named + Drop, C: Named + Drop>(
    a: PlainTable<A>,
    b: PlainTable<B>,
    c: PlainTable<C>,
    cap: u32,
) -> Result<(NamedPool<A>, NamedPool<B>, NamedPool<C>), AllocError>
    requires first { IsTable cap a }
    requires second { IsTable cap b }
    requires third { IsTable cap c }
    requires names { AreNamed A.own_name a × AreNamed B.own_name b × AreNamed C.own_name c }
    ensures tables { IfOk result (λ pools. (pools.0.table ≡ a) × (pools.1.table ≡ b) × (pools.2.table ≡ c)) }
    ensures caps { IfOk result (λ pools. (pools.0.cap ≡ cap) × (pools.1.cap ≡ cap) × (pools.2.cap ≡ cap)) }
{
    Ok((
        a.into_named_pool(cap)?,
        b.into_named_pool(cap)?,
        c.into_named_pool(cap)?,
    ))
}

// All four, where there was memory for each.
fn all<A: Drop, B: Drop, C: Drop, D: Drop>(
    a: Result<A, AllocError>,
    b: Result<B, AllocError>,
    c: Result<C, AllocError>,
    d: Result<D, AllocError>,
) -> Result<(A, B, C, D), AllocError>
    ensures { IfOk result (λ all. (a ≡ Ok all.0) × (b ≡ Ok all.1) × (c ≡ Ok all.2) × (d ≡ Ok all.3)) }
{
    Ok((a?, b?, c?, d?))
}
