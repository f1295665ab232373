ghost use Rattle.std.specs.Prelude.{◌≡◌, ◌≤◌, ◌+◌, ◌≢◌, [], IsTrue, Some};
ghost use Rattle.slot_pool.specs.Table.{CanUntake};
ghost use Rattle.block_records.specs.Record.{kind_of};
ghost use Rattle.block_store.specs.Alone.{IsAlone, IsNew};
ghost use Rattle.block_store.specs.Block.{free_in, is_empty, live_in, next_in, record_of};
ghost use Rattle.block_store.specs.Moves.{CanUntakeIn, given_in, taken_in, ungiven_in, untaken_in};
ghost use Rattle.block_store.specs.Store.{ChangesRoom, room_of};

use crate::block::Block;
use block_records::Record;
use odb_base::{Kind, Steps};
use slot_pool::Taken;
use std::alloc::Global;
use std::sync::ledger::Ledger;

impl Block {
    /// Where the block has its memory from.
    pub fn allocator(&self) -> Global {
        *self.spare.allocator()
    }

    /// Puts a new object into its table, with empty lists.
    pub fn take<L: Ledger>(&mut self, object: Record, moves: &mut Steps<L>) -> Taken
        requires room { 1 ≤ room_of (kind_of object) self.old.room }
        requires name { IsNew object self.old.block }
        ensures id { result.id ≡ next_in (kind_of object) self.old.block }
        ensures grew { result.grew ≡ is_empty (free_in (kind_of object) self.old.block) }
        ensures block { self.new.block ≡ taken_in object self.old.block }
        ensures cap { self.new.cap ≡ self.old.cap }
        ensures room { room_of (kind_of object) self.old.room ≤ room_of (kind_of object) self.new.room + 1 }
        ensures others { ChangesRoom (kind_of object) self.old.room self.new.room }
    {
        self.pools.take(object, moves)
    }

    /// Takes an object out of its table, and answers its record.
    pub fn give<L: Ledger>(&mut self, kind: Kind, id: u32, moves: &mut Steps<L>) -> Record
        requires live { IsTrue (live_in kind id self.old.block) }
        requires alone { IsAlone kind id self.old.block }
        ensures value { record_of kind id self.old.block ≡ Some result }
        ensures block { self.new.block ≡ given_in kind id self.old.block }
        ensures cap { self.new.cap ≡ self.old.cap }
        ensures room { room_of kind self.old.room + 1 ≤ room_of kind self.new.room }
        ensures others { ChangesRoom kind self.old.room self.new.room }
    {
        self.pools.give(kind, id, moves)
    }

    /// Takes back the take that gave this id last, and answers the object's record. `grew` says whether that
    /// take added a slot.
    pub fn untake<L: Ledger>(
        &mut self,
        kind: Kind,
        id: u32,
        grew: bool,
        moves: &mut Steps<L>,
    ) -> Record
        requires can { CanUntakeIn kind id grew self.old.block }
        requires alone { IsAlone kind id self.old.block }
        ensures value { record_of kind id self.old.block ≡ Some result }
        ensures block { self.new.block ≡ untaken_in kind id grew self.old.block }
        ensures cap { self.new.cap ≡ self.old.cap }
        ensures room { room_of kind self.old.room + 1 ≤ room_of kind self.new.room }
        ensures others { ChangesRoom kind self.old.room self.new.room }
    {
        self.pools.untake(kind, id, grew, moves)
    }

    /// Takes back the give that came last, and answers the id under which the object is there again, with
    /// empty lists.
    pub fn ungive<L: Ledger>(&mut self, object: Record, moves: &mut Steps<L>) -> u32
        requires free { free_in (kind_of object) self.old.block ≢ [] }
        requires name { IsNew object self.old.block }
        ensures id { result ≡ next_in (kind_of object) self.old.block }
        ensures block { self.new.block ≡ ungiven_in object self.old.block }
        ensures cap { self.new.cap ≡ self.old.cap }
        ensures room { room_of (kind_of object) self.old.room ≤ room_of (kind_of object) self.new.room + 1 }
        ensures others { ChangesRoom (kind_of object) self.old.room self.new.room }
    {
        self.pools.ungive(object, moves)
    }
}
