ghost use Rattle.std.specs.Prelude.{◌≡◌, ◌↔◌, IfOk, IsTrue, option_copied};
ghost use Rattle.slot_pool.specs.Table.{record_at};
ghost use Rattle.named_pool.specs.Names.{AreNamed};
ghost use Rattle.block_store.specs.Block.{empty_table, slots_in};
ghost use Rattle.block_store.specs.Tables.{IsTable};

use crate::entry::{BTermEntry, GroupEntry, InstEntry, NetEntry, RegionEntry, RowEntry};
use crate::every_kind::by_kind;
use block_records::{BlockageRec, Header, ITermRec, PinRec, PropRec, TrackRec, WireRec};
use named_pool::{Named, NamedPool};
use odb_base::Kind;
use slot_pool::SlotPool;
use std::alloc::AllocError;
use std::marker::Model;

/// The slots of a kind and its free identifiers, top first, before anything is known of them. Contracts see a
/// `Table`.
#[derive(Drop)]
pub struct PlainTable<T> {
    pub slots: Vec<Option<T>>,
    pub free: Vec<u32>,
}

impl<T> Model for PlainTable<T> {
    ghost use Rattle.slot_pool.specs.Table.{Table};

    ghost Value = { Table T };

    ghost view = { λ t. record { slots = t.slots.items; free = t.free.items } };
}

impl<T> PlainTable<T> {
    /// The slots, each with a record or empty.
    pub fn slots(&self) -> &[Option<T>]
        ensures { result.now ≡ self.now.slots }
    {
        &self.slots
    }

    /// The free identifiers, top first.
    pub fn free(&self) -> &[u32]
        ensures { result.now ≡ self.now.free }
    {
        &self.free
    }

    /// The record of an identifier. There is none for 0, for an identifier past the slots, and for an empty slot.
    pub fn get(&self, id: u32) -> Option<&T>
        ensures { option_copied result ≡ record_at self.now id }
    {
        let place = id.checked_sub(1)?;
        self.slots.get(place as usize)?.as_ref()
    }

    /// Whether there are neither slots nor free identifiers.
    pub fn is_empty(&self) -> bool
        ensures { IsTrue result ↔ (self.now ≡ empty_table) }
    {
        self.slots.is_empty() && self.free.is_empty()
    }
}

impl<T: Drop> PlainTable<T> {
    // The pool of the table, with this cap.
    pub(crate) fn into_pool(self, cap: u32) -> Result<SlotPool<T>, AllocError>
        requires { IsTable cap self }
        ensures table { IfOk result (λ pool. pool.table ≡ self) }
        ensures cap { IfOk result (λ pool. pool.cap ≡ cap) }
    {
        let PlainTable { slots, free } = self;
        SlotPool::from_parts(slots, free, cap)
    }
}

impl<T: Named + Drop> PlainTable<T> {
    // The pool of the table, in which objects are found by their names.
    pub(crate) fn into_named_pool(self, cap: u32) -> Result<NamedPool<T>, AllocError>
        requires good { IsTable cap self }
        requires names { AreNamed T.own_name self }
        ensures table { IfOk result (λ pool. pool.table ≡ self) }
        ensures cap { IfOk result (λ pool. pool.cap ≡ cap) }
    {
        let PlainTable { slots, free } = self;
        NamedPool::from_parts(slots, free, cap)
    }
}

/// A header and twelve tables, of which a block is made. Contracts see the block as a model.
#[derive(Drop)]
pub struct Tables {
    pub header: Header,
    pub inst: PlainTable<InstEntry>,
    pub iterm: PlainTable<ITermRec>,
    pub net: PlainTable<NetEntry>,
    pub bterm: PlainTable<BTermEntry>,
    pub pin: PlainTable<PinRec>,
    pub row: PlainTable<RowEntry>,
    pub track: PlainTable<TrackRec>,
    pub wire: PlainTable<WireRec>,
    pub blockage: PlainTable<BlockageRec>,
    pub region: PlainTable<RegionEntry>,
    pub group: PlainTable<GroupEntry>,
    pub prop: PlainTable<PropRec>,
}

impl Model for Tables {
    ghost use Rattle.block_store.specs.Block as model;

    ghost Value = { model.Block };

    ghost view = { λ t. record {
      header = t.header;
      inst = t.inst;
      iterm = t.iterm;
      net = t.net;
      bterm = t.bterm;
      pin = t.pin;
      row = t.row;
      track = t.track;
      wire = t.wire;
      blockage = t.blockage;
      region = t.region;
      group = t.group;
      prop = t.prop;
    } };
}

impl Tables {
    /// The number of slots in the table of a kind, with an object or empty.
    pub fn slots(&self, kind: Kind) -> usize
        ensures { result ≡ slots_in kind self.now }
    {
        by_kind!(self, kind, table => table.slots.len())
    }
}
