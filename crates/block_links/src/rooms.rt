ghost use Rattle.std.specs.Prelude.{◌≡◌, ◌≤◌, ◌+◌, [], IsTrue, OnOk, vec_capacity};
ghost use Rattle.block_store.specs.Block.{live_in};
ghost use Rattle.block_store.specs.Lists.{term_number};

use crate::block::Block;
use odb_base::Kind;
use std::alloc::AllocError;
use std::mem;

impl Block {
    /// Makes room for a list of so many identifiers. After a refusal the block stands as it stood.
    pub fn room_for(&mut self, count: usize) -> Result<(), AllocError>
        ensures ok { OnOk result (count ≤ self.new.room.list) }
        ensures block { self.new.block ≡ self.old.block }
        ensures cap { self.new.cap ≡ self.old.cap }
        ensures room { self.new.room ≡ record self.old.room { list = self.new.room.list } }
    {
        self.spare.reserve(count)
    }

    /// Moves the room for a list out of the block, as an empty vector.
    pub fn take_room(&mut self) -> Vec<u32>
        ensures empty { result.items ≡ [] }
        ensures capacity { self.old.room.list ≤ vec_capacity result }
        ensures block { self.new.block ≡ self.old.block }
        ensures cap { self.new.cap ≡ self.old.cap }
        ensures room { self.new.room ≡ record self.old.room { list = self.new.room.list } }
    {
        let alloc = self.allocator();
        mem::replace(&mut self.spare, Vec::new(alloc))
    }

    /// The number that stands for a terminal in the list of a net.
    #[tactic(auto, using(block_store::proofs::Limits::live_in_slots))]
    pub fn term_number(&self, kind: Kind, id: u32) -> u32
        requires { IsTrue (live_in kind id self.now.block) }
        ensures { result ≡ term_number kind id }
    {
        let last = self.slots(kind);
        prove!(id <= last && last <= self.cap());
        match kind {
            Kind::BTerm => 2 * id + 1,
            _ => 2 * id,
        }
    }
}
