ghost use Rattle.std.specs.Prelude.{◌≡◌, ◌≤◌, ◌<◌, ◌+◌, IfErr, IfOk, IsTrue, OnOk, Err, ◌↔◌};
ghost use Rattle.odb_base.specs.declared.codes.kind.Kind.{Kind as AnyKind};
ghost use Rattle.block_records.specs.Header.{new_header};
ghost use Rattle.block_store.specs.Block.{empty_block, left_in, live_in, slots_in};
ghost use Rattle.block_store.specs.Consistent.{IsConsistent};
ghost use Rattle.block_store.specs.PlainTables.{AreTables};
ghost use Rattle.block_store.specs.Store.{ChangesRoom, IsRoomBounded, room_of};

use crate::every_kind::by_kind;
use crate::fault::RoomFault;
use crate::pools::Pools;
use crate::tables::Tables;
use block_records::Header;
use odb_base::Kind;
use std::alloc::{AllocError, Global};
use std::marker::Model;

/// The greatest number of slots that a table may have.
pub const SLOT_LIMIT: u32 = 16_777_215;

/// The objects of a design: a header, and one table for each kind. Contracts see a `Store`: the block, the cap
/// of its tables, and for what there is room in memory. Each block is consistent: its tables are good, no two objects of
/// a kind have one name, and each member of a list is there and stands in one place of one list of its sort.
#[derive(Drop)]
pub struct Block {
    pub(crate) pools: Pools,
}

impl Model for Block {
    ghost use Rattle.block_store.specs.Consistent.{IsConsistent};
    ghost use Rattle.block_store.specs.Store.{Store};

    ghost Value = { Store };

    ghost view = { λ s. s.pools };

    ghost invariant = { λ s. IsConsistent s.pools.block };
}

impl Block {
    /// A block without objects, whose tables have at most `cap` slots each, at most [`SLOT_LIMIT`].
    pub fn new(alloc: Global, cap: u32) -> Result<Block, AllocError>
        requires { cap ≤ 16777215 }
        ensures block { IfOk result (λ b. b.block ≡ empty_block new_header) }
        ensures cap { IfOk result (λ b. b.cap ≡ cap) }
    {
        Ok(Block {
            pools: Pools::new(alloc, cap)?,
        })
    }

    /// The block of these tables, each of which has to be good, with at most `cap` slots, and which have
    /// to be consistent together; the cap is at most [`SLOT_LIMIT`].
    pub fn with_tables(alloc: Global, tables: Tables, cap: u32) -> Result<Block, AllocError>
        requires good { AreTables cap tables }
        requires consistent { IsConsistent tables }
        requires limit { cap ≤ 16777215 }
        ensures block { IfOk result (λ b. b.block ≡ tables) }
        ensures cap { IfOk result (λ b. b.cap ≡ cap) }
    {
        Ok(Block {
            pools: Pools::with_tables(alloc, tables, cap)?,
        })
    }

    /// The greatest number of slots in a table.
    pub fn cap(&self) -> u32
        ensures cap { result ≡ self.now.cap }
        ensures limit { result ≤ 16777215 }
    {
        self.pools.cap
    }

    /// What the block has apart from its objects.
    pub fn header(&self) -> &Header
        ensures { result.now ≡ self.now.block.header }
    {
        &self.pools.header
    }

    /// The number of slots in the table of a kind, with an object or empty.
    pub fn slots(&self, kind: Kind) -> u32
        ensures count { result ≡ slots_in kind self.now.block }
        ensures within { slots_in kind self.now.block ≤ self.now.cap }
        ensures limit { self.now.cap ≤ 16777215 }
        ensures bounds { IsRoomBounded kind self.now }
    {
        let pools = &self.pools;
        by_kind!(pools, kind, table => table.slots())
    }

    /// Whether the identifier has an object of the kind.
    pub fn live(&self, kind: Kind, id: u32) -> bool
        ensures { result ≡ live_in kind id self.now.block }
    {
        let pools = &self.pools;
        by_kind!(pools, kind, table => table.live(id))
    }

    /// Makes room for `n` new objects of a kind. `Full` comes exactly where the cap doesn't allow so many.
    /// After a fault there is the room that there was.
    pub fn room(&mut self, kind: Kind, n: u32) -> Result<(), RoomFault>
        ensures ok { OnOk result (n ≤ room_of kind self.new.room) }
        ensures full { (result ≡ Err (RoomFault.Full kind)) ↔ (left_in kind self.old.cap self.old.block < n) }
        ensures kind { IfErr result (λ fault. (k : AnyKind) → fault ≡ RoomFault.Full k → k ≡ kind) }
        ensures block { self.new.block ≡ self.old.block }
        ensures cap { self.new.cap ≡ self.old.cap }
        ensures room { room_of kind self.old.room ≤ room_of kind self.new.room }
        ensures others { ChangesRoom kind self.old.room self.new.room }
    {
        self.pools.room(kind, n)
    }
}
