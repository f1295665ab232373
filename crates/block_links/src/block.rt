ghost use Rattle.std.specs.Prelude.{◌≡◌, ◌≤◌, ◌<◌, ◌+◌, IfErr, IfOk, IsTrue, OnOk, Err, ◌↔◌};
ghost use Rattle.odb_base.specs.declared.codes.kind.Kind.{Kind as AnyKind};
ghost use Rattle.block_records.specs.Header.{new_header};
ghost use Rattle.block_store.specs.Block.{empty_block, left_in, live_in, slots_in};
ghost use Rattle.block_store.specs.Store.{ChangesRoom, IsRoomBounded, room_of};

use block_cells::Pools;
use block_records::Header;
use block_store::RoomFault;
use odb_base::Kind;
use slot_pool::PoolFault;
use std::alloc::{AllocError, Global};
use std::marker::Model;

/// The objects of a design in cells whose lists are linked: a header, and one table for each kind. Contracts see a `Store`: the block, the cap
/// of its tables, and for what there is room in memory. Each block is consistent: its tables are good, no two objects of
/// a kind have one name, and each member of a list is there and stands in one place of one list of its sort.
#[derive(Drop)]
pub struct Block {
    pub(crate) pools: Pools,
    // An empty vector, which takes the terminals that an instance gets.
    pub(crate) spare: Vec<u32>,
}

impl Model for Block {
    ghost use Rattle.std.specs.Prelude.{◌≡◌, [], vec_capacity};
    ghost use Rattle.block_store.specs.Store.{Store};
    ghost use Rattle.block_links.specs.Stores.{IsBlock, store_of};

    ghost Value = { Store };

    ghost view = { λ s. store_of s.pools (vec_capacity s.spare) };

    ghost invariant = { λ s. IsBlock s.pools.cells × (s.spare.items ≡ []) };
}

impl Block {
    /// A block without objects, whose tables have at most `cap` slots each, at most 16,777,215.
    pub fn new(alloc: Global, cap: u32) -> Result<Block, AllocError>
        requires { cap ≤ 16777215 }
        ensures block { IfOk result (λ b. b.block ≡ empty_block new_header) }
        ensures cap { IfOk result (λ b. b.cap ≡ cap) }
    {
        Ok(Block {
            pools: Pools::new(alloc, cap)?,
            spare: Vec::new(alloc),
        })
    }

    /// The greatest number of slots in a table.
    pub fn cap(&self) -> u32
        ensures cap { result ≡ self.now.cap }
        ensures limit { result ≤ 16777215 }
    {
        self.pools.cap()
    }

    /// What the block has apart from its objects.
    pub fn header(&self) -> &Header
        ensures { result.now ≡ self.now.block.header }
    {
        self.pools.header()
    }

    /// The number of slots in the table of a kind, with an object or empty.
    pub fn slots(&self, kind: Kind) -> u32
        ensures count { result ≡ slots_in kind self.now.block }
        ensures within { slots_in kind self.now.block ≤ self.now.cap }
        ensures limit { self.now.cap ≤ 16777215 }
        ensures bounds { IsRoomBounded kind self.now }
    {
        self.pools.slots(kind)
    }

    /// Whether the identifier has an object of the kind.
    pub fn live(&self, kind: Kind, id: u32) -> bool
        ensures { result ≡ live_in kind id self.now.block }
    {
        self.pools.live(kind, id)
    }

    /// Makes room for `n` new objects of a kind. `Full` comes exactly where the cap doesn't allow so many.
    /// After a fault there is the room that there was.
    pub fn room(&mut self, kind: Kind, n: u32) -> Result<(), RoomFault>
        ensures ok { OnOk result (n ≤ room_of kind self.new.room) }
        ensures full { (result ≡ Err (RoomFault.Full kind)) ↔ (left_in kind self.old.cap self.old.block < n) }
        ensures kind { IfErr result (λ fault. (k : AnyKind) → fault ≡ RoomFault.Full k → k ≡ kind) }
        ensures block { self.new.block ≡ self.old.block }
        ensures cap { self.new.cap ≡ self.old.cap }
        ensures room { room_of kind self.old.room ≤ room_of kind self.new.room }
        ensures others { ChangesRoom kind self.old.room self.new.room }
    {
        match self.pools.room(kind, n) {
            Ok(()) => Ok(()),
            Err(PoolFault::Full) => Err(RoomFault::Full { kind }),
            Err(PoolFault::Memory) => Err(RoomFault::Memory),
        }
    }
}
