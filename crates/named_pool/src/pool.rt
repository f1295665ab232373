ghost use Rattle.std.specs.Prelude.{◌≡◌, ◌↔◌, ◌+◌, ◌<◌, ◌≤◌, ◌^◌, [], IsTrue, IfOk, OnOk, length, option_copied};
ghost use Rattle.std.specs.Prelude.{Some, option_map};

use crate::cells::{NameCell, NameCells};
use crate::loading::{cells_of, hold_all};
use crate::named::{Field, Named};
use name_index::NameIndex;
use odb_base::{Name, Steps};
use slot_pool::{FreeIds, PoolFault, SlotPool, Taken};
use std::alloc::{AllocError, Global};
use std::marker::{Brand, Model};
use std::sync::ledger::{Blank, Ledger};

/// Objects in numbered slots, from 1, up to a cap, no two of one name.
#[derive(Drop)]
pub struct NamedPool<R: Named> {
    cells: NameCells<R>,
    index: NameIndex,
}

impl<R: Named> Model for NamedPool<R> {
    ghost use Rattle.slot_pool.specs.Table.{Pool};
    ghost use Rattle.named_pool.specs.Held.{IsNamed, pool_of};

    ghost Value = { Pool R };

    ghost view = { λ s. pool_of s.cells s.index };

    ghost invariant = { λ s. IsNamed R.own_name s.cells s.index };
}

impl<R: Named> NamedPool<R> {
    ghost use Rattle.slot_pool.specs.Mapped.{on_record};
    ghost use Rattle.slot_pool.specs.Table.{IsGood, IsSpareBounded, CanUntake, CanUngive};
    ghost use Rattle.slot_pool.specs.Table.{record_at, is_live, live_count, next_id, takes_left};
    ghost use Rattle.slot_pool.specs.Table.{once_more, taken, given, untaken, ungiven};
    ghost use Rattle.named_pool.specs.Names.{AreNamed, IsFree, IsFreeBut, find_by};

    /// A pool with no slots, which will have at most `cap`. It takes no memory.
    pub fn new(alloc: Global, cap: u32) -> NamedPool<R>
        ensures table { result.table ≡ record { slots = []; free = [] } }
        ensures cap { result.cap ≡ cap }
    {
        NamedPool {
            cells: NameCells {
                pool: SlotPool::new(alloc, cap),
            },
            index: NameIndex::new(alloc),
        }
    }

    /// The pool with these slots, these free ids, top first, and this cap. The table has to be good, with at
    /// most `cap` slots and no two objects of one name.
    pub fn from_parts(
        slots: Vec<Option<R>>,
        free: Vec<u32>,
        cap: u32,
    ) -> Result<NamedPool<R>, AllocError>
    where
        R: Drop,
        requires good { IsGood (record { slots = slots.items; free = free.items }) }
        requires within { length slots.items ≤ cap }
        requires names { AreNamed R.own_name (record { slots = slots.items; free = free.items }) }
        ensures table { IfOk result (λ pool. pool.table ≡ record { slots = slots.items; free = free.items }) }
        ensures cap { IfOk result (λ pool. pool.cap ≡ cap) }
    {
        let alloc = *slots.allocator();
        let pool = SlotPool::from_parts(cells_of(alloc, slots)?, free, cap)?;
        let mut cells = NameCells { pool };
        let mut index = NameIndex::new(alloc);
        hold_all::<R, Brand>(&mut cells, &mut index, Blank::new(1))?;
        Ok(NamedPool { cells, index })
    }

    /// The greatest number of slots.
    pub fn cap(&self) -> u32
        ensures cap { result ≡ self.now.cap }
        ensures within { length self.now.table.slots ≤ self.now.cap }
    {
        self.cells.pool.cap()
    }

    /// The number of slots, with an object or empty.
    pub fn slots(&self) -> u32
        ensures count { result ≡ length self.now.table.slots }
        ensures good { IsGood self.now.table }
        ensures within { length self.now.table.slots ≤ self.now.cap }
        ensures bounds { IsSpareBounded self.now }
        ensures names { AreNamed R.own_name self.now.table }
    {
        self.cells.pool.slots()
    }

    /// Whether the id has an object.
    pub fn live(&self, id: u32) -> bool
        ensures { result ≡ is_live self.now.table id }
    {
        self.cells.pool.live(id)
    }

    /// The object of an id. There is none for 0, for an id past the slots, and for an empty slot.
    pub fn get(&self, id: u32) -> Option<&R>
        ensures { option_copied result ≡ record_at self.now.table id }
    {
        Some(&self.cells.pool.get(id)?.value)
    }

    /// The number of slots with an object.
    pub fn live_count(&self) -> u32
        ensures count { result ≡ live_count self.now.table }
        ensures others { result + length self.now.table.free ≡ length self.now.table.slots }
    {
        self.cells.pool.live_count()
    }

    /// The free ids, top first.
    pub fn free(&self) -> FreeIds<'_, NameCell<R>>
        ensures { result ≡ self.now.table.free }
    {
        self.cells.pool.free()
    }

    /// The id that the take after `k` further takes would give.
    pub fn next_id(&self, k: u32) -> u64
        ensures id { result ≡ next_id self.now.table k }
        ensures within { k < takes_left self.now → result ≤ self.now.cap }
        ensures fits { k < takes_left self.now → result < 2 ^ 32 }
    {
        self.cells.pool.next_id(k)
    }

    /// The object of this name. It is the only one, and so the first.
    pub fn find(&self, name: &[u8]) -> Option<u32>
        ensures { result ≡ find_by R.own_name name.now self.now.table }
    {
        self.index.find(&self.cells, name)
    }

    /// Makes `spare` at least `n`. `Full` comes exactly where the free ids and the slots that the cap still
    /// allows are fewer than `n`. After a fault the table stays too.
    pub fn reserve(&mut self, n: u32) -> Result<(), PoolFault>
        ensures ok { OnOk result (n ≤ self.new.spare) }
        ensures full { (result ≡ Err PoolFault.Full) ↔ (takes_left self.old < n) }
        ensures table { self.new.table ≡ self.old.table }
        ensures cap { self.new.cap ≡ self.old.cap }
        ensures spare { self.old.spare ≤ self.new.spare }
    {
        self.cells.pool.reserve(n)?;
        self.index.reserve(&mut self.cells, n)?;
        Ok(())
    }

    /// Puts an object, whose name no other has, into the slot of the top free id, or into a slot that it adds
    /// where no id is free.
    pub fn take<L: Ledger>(&mut self, value: R, moves: &mut Steps<L>) -> Taken
        requires room { 1 ≤ self.old.spare }
        requires name { IsFree R.own_name (R.own_name value) self.old.table }
        ensures id { result.id ≡ next_id self.old.table 0 }
        ensures grew { IsTrue result.grew ↔ (self.old.table.free ≡ []) }
        ensures table { self.new.table ≡ taken value self.old.table }
        ensures cap { self.new.cap ≡ self.old.cap }
        ensures spare { self.old.spare ≤ self.new.spare + 1 }
        ensures least { moves.old ≤ moves.new }
        ensures most { moves.new ≤ moves.old + 2 }
        ensures back { untaken result.id result.grew self.new.table ≡ self.old.table }
        ensures can { CanUntake self.new.table result.id result.grew }
    {
        let taken = self.cells.pool.take(NameCell { value, chain: 0 }, moves);
        self.index.add(&mut self.cells, taken.id, moves);
        taken
    }

    /// Takes the object out of its slot, and puts the id on top of the free ids.
    pub fn give<L: Ledger>(&mut self, id: u32, moves: &mut Steps<L>) -> R
        requires { IsTrue (is_live self.old.table id) }
        ensures value { record_at self.old.table id ≡ Some result }
        ensures table { self.new.table ≡ given id self.old.table }
        ensures cap { self.new.cap ≡ self.old.cap }
        ensures spare { self.old.spare + 1 ≤ self.new.spare }
        ensures least { moves.old ≤ moves.new }
        ensures most { moves.new ≤ moves.old + 3 }
        ensures back { ungiven result self.new.table ≡ self.old.table }
        ensures can { CanUngive self.new.table }
    {
        self.index.drop_name(&mut self.cells, id, moves);
        self.cells.pool.give(id, moves).value
    }

    /// Takes back the take that gave this id last: its slot goes where the take added it (`grew`), and else
    /// the id goes on top of the free ids.
    pub fn untake<L: Ledger>(&mut self, id: u32, grew: bool, moves: &mut Steps<L>) -> R
        requires { CanUntake self.old.table id grew }
        ensures value { record_at self.old.table id ≡ Some result }
        ensures table { self.new.table ≡ untaken id grew self.old.table }
        ensures cap { self.new.cap ≡ self.old.cap }
        ensures spare { self.old.spare + 1 ≤ self.new.spare }
        ensures least { moves.old ≤ moves.new }
        ensures most { moves.new ≤ moves.old + 3 }
    {
        self.index.drop_name(&mut self.cells, id, moves);
        self.cells.pool.untake(id, grew, moves).value
    }

    /// Takes back the give that came last: its id, which is the top free id, gets the object, whose name no
    /// other has.
    pub fn ungive<L: Ledger>(&mut self, value: R, moves: &mut Steps<L>) -> u32
        requires can { CanUngive self.old.table }
        requires name { IsFree R.own_name (R.own_name value) self.old.table }
        ensures id { result ≡ next_id self.old.table 0 }
        ensures table { self.new.table ≡ ungiven value self.old.table }
        ensures cap { self.new.cap ≡ self.old.cap }
        ensures spare { self.old.spare ≤ self.new.spare + 1 }
        ensures least { moves.old ≤ moves.new }
        ensures most { moves.new ≤ moves.old + 2 }
        ensures back { given result self.new.table ≡ self.old.table }
        ensures live { IsTrue (is_live self.new.table result) }
    {
        let id = self.cells.pool.ungive(NameCell { value, chain: 0 }, moves);
        self.index.add(&mut self.cells, id, moves);
        id
    }

    /// Sets the name of an object to one that no other has, and answers the one that it had.
    pub fn rename<L: Ledger>(&mut self, id: u32, name: Name, moves: &mut Steps<L>) -> Name
        requires live { IsTrue (is_live self.old.table id) }
        requires name { IsFreeBut R.own_name id name self.old.table }
        ensures value { option_map R.own_name (record_at self.old.table id) ≡ Some result }
        ensures table { self.new.table ≡ on_record (R.with_name name) id self.old.table }
        ensures cap { self.new.cap ≡ self.old.cap }
        ensures spare { self.new.spare ≡ self.old.spare }
        ensures least { moves.old ≤ moves.new }
        ensures most { moves.new ≤ moves.old + 4 }
    {
        self.index.drop_name(&mut self.cells, id, moves);
        let old = self.cells.pool.change(id, moves).value.set_name(name);
        self.index.add(&mut self.cells, id, moves);
        old
    }

    /// Sets a field of an object that is not its name, and answers the value that it had.
    pub fn set<F: Field<R>, L: Ledger>(
        &mut self,
        id: u32,
        value: F::Value,
        moves: &mut Steps<L>,
    ) -> F::Value
        requires { IsTrue (is_live self.old.table id) }
        ensures value { option_map F.value_of (record_at self.old.table id) ≡ Some result }
        ensures table { self.new.table ≡ on_record (F.with_value value) id self.old.table }
        ensures cap { self.new.cap ≡ self.old.cap }
        ensures spare { self.new.spare ≡ self.old.spare }
        ensures moved { self.new.moved ≡ once_more self.old.moved }
        ensures moves { moves.new ≡ moves.old + 1 }
    {
        F::set(&mut self.cells.pool.change(id, moves).value, value)
    }
}
