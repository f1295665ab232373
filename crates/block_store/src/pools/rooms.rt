ghost use Rattle.std.specs.Prelude.{◌≡◌, ◌≤◌, ◌<◌, [], IfErr, OnOk, vec_capacity, Err, ◌↔◌};
ghost use Rattle.odb_base.specs.declared.codes.kind.Kind.{Kind as AnyKind};
ghost use Rattle.block_store.specs.Block.{left_in};
ghost use Rattle.block_store.specs.Store.{ChangesRoom, room_of};

use crate::every_kind::by_kind;
use crate::fault::RoomFault;
use crate::pools::Pools;
use odb_base::Kind;
use slot_pool::PoolFault;
use std::alloc::AllocError;
use std::mem;

impl Pools {
    // Makes room for `n` new objects of a kind. `Full` comes exactly where the cap doesn't allow so many.
    // After a fault there is the room that there was.
    pub(crate) fn room(&mut self, kind: Kind, n: u32) -> Result<(), RoomFault>
        ensures ok { OnOk result (n ≤ room_of kind self.new.room) }
        ensures full { (result ≡ Err (RoomFault.Full kind)) ↔ (left_in kind self.old.cap self.old.block < n) }
        ensures kind { IfErr result (λ fault. (k : AnyKind) → fault ≡ RoomFault.Full k → k ≡ kind) }
        ensures block { self.new.block ≡ self.old.block }
        ensures cap { self.new.cap ≡ self.old.cap }
        ensures room { room_of kind self.old.room ≤ room_of kind self.new.room }
        ensures others { ChangesRoom kind self.old.room self.new.room }
    {
        let made = by_kind!(mut self, kind, table => table.reserve(n));
        match made {
            Ok(()) => Ok(()),
            Err(PoolFault::Full) => Err(RoomFault::Full { kind }),
            Err(PoolFault::Memory) => Err(RoomFault::Memory),
        }
    }

    // Makes room for so many members of a list.
    pub(crate) fn room_for(&mut self, count: usize) -> Result<(), AllocError>
        ensures ok { OnOk result (count ≤ self.new.room.list) }
        ensures block { self.new.block ≡ self.old.block }
        ensures cap { self.new.cap ≡ self.old.cap }
        ensures room { self.new.room ≡ record self.old.room { list = self.new.room.list } }
    {
        self.spare.reserve(count)
    }

    // Moves the room for the members of a list out of the block, as an empty vector.
    pub(crate) fn take_room(&mut self) -> Vec<u32>
        ensures empty { result.items ≡ [] }
        ensures capacity { self.old.room.list ≤ vec_capacity result }
        ensures block { self.new.block ≡ self.old.block }
        ensures cap { self.new.cap ≡ self.old.cap }
        ensures room { self.new.room ≡ record self.old.room { list = self.new.room.list } }
    {
        let alloc = self.allocator();
        mem::replace(&mut self.spare, Vec::new(alloc))
    }
}
