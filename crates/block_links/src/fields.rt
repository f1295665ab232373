ghost use Rattle.std.specs.Prelude.{◌≡◌, IsTrue, Some};
ghost use Rattle.slot_pool.specs.Table.{is_live};
ghost use Rattle.block_store.specs.Block.{live_in};
ghost use Rattle.block_store.specs.Fields.{HasNet, HasPlace, HasUsage, direction_in, index_in, master_in, net_in, place_in, special_in, terminals_in, usage_in};
ghost use Rattle.block_store.specs.Moves.{with_direction, with_index, with_master, with_name, with_net, with_place, with_special, with_terminals, with_usage};
ghost use Rattle.block_store.specs.Names.{HasNames, IsFreeBut, name_in};

use crate::block::Block;
use block_records::Terminals;
use odb_base::{Direction, Kind, Name, Placement, Steps, Usage};
use std::sync::ledger::Ledger;

// Each of these sets one field of an object, and answers what it had.
impl Block {
    /// The net that a terminal is joined to, 0 for none.
    pub fn set_net<L: Ledger>(&mut self, kind: Kind, id: u32, net: u32, moves: &mut Steps<L>) -> u32
        requires live { IsTrue (live_in kind id self.old.block) }
        requires kind { HasNet kind }
        ensures value { net_in kind id self.old.block ≡ Some result }
        ensures block { self.new.block ≡ with_net kind id net self.old.block }
        ensures cap { self.new.cap ≡ self.old.cap }
        ensures room { self.new.room ≡ self.old.room }
    {
        self.pools.set_net(kind, id, net, moves)
    }

    /// The placement of an instance or a pin.
    pub fn set_place<L: Ledger>(
        &mut self,
        kind: Kind,
        id: u32,
        place: Placement,
        moves: &mut Steps<L>,
    ) -> Placement
        requires live { IsTrue (live_in kind id self.old.block) }
        requires kind { HasPlace kind }
        ensures value { place_in kind id self.old.block ≡ Some result }
        ensures block { self.new.block ≡ with_place kind id place self.old.block }
        ensures cap { self.new.cap ≡ self.old.cap }
        ensures room { self.new.room ≡ self.old.room }
    {
        self.pools.set_place(kind, id, place, moves)
    }

    /// The use of a net or a block terminal.
    pub fn set_usage<L: Ledger>(
        &mut self,
        kind: Kind,
        id: u32,
        usage: Usage,
        moves: &mut Steps<L>,
    ) -> Usage
        requires live { IsTrue (live_in kind id self.old.block) }
        requires kind { HasUsage kind }
        ensures value { usage_in kind id self.old.block ≡ Some result }
        ensures block { self.new.block ≡ with_usage kind id usage self.old.block }
        ensures cap { self.new.cap ≡ self.old.cap }
        ensures room { self.new.room ≡ self.old.room }
    {
        self.pools.set_usage(kind, id, usage, moves)
    }

    /// The direction of a block terminal.
    pub fn set_direction<L: Ledger>(
        &mut self,
        id: u32,
        direction: Direction,
        moves: &mut Steps<L>,
    ) -> Direction
        requires { IsTrue (is_live self.old.block.bterm id) }
        ensures value { direction_in id self.old.block ≡ Some result }
        ensures block { self.new.block ≡ with_direction id direction self.old.block }
        ensures cap { self.new.cap ≡ self.old.cap }
        ensures room { self.new.room ≡ self.old.room }
    {
        self.pools.set_direction(id, direction, moves)
    }

    /// Whether a net is special.
    pub fn set_special<L: Ledger>(&mut self, id: u32, special: bool, moves: &mut Steps<L>) -> bool
        requires { IsTrue (is_live self.old.block.net id) }
        ensures value { special_in id self.old.block ≡ Some result }
        ensures block { self.new.block ≡ with_special id special self.old.block }
        ensures cap { self.new.cap ≡ self.old.cap }
        ensures room { self.new.room ≡ self.old.room }
    {
        self.pools.set_special(id, special, moves)
    }

    /// The number of the master of an instance.
    pub fn set_master<L: Ledger>(&mut self, id: u32, master: u32, moves: &mut Steps<L>) -> u32
        requires { IsTrue (is_live self.old.block.inst id) }
        ensures value { master_in id self.old.block ≡ Some result }
        ensures block { self.new.block ≡ with_master id master self.old.block }
        ensures cap { self.new.cap ≡ self.old.cap }
        ensures room { self.new.room ≡ self.old.room }
    {
        self.pools.set_master(id, master, moves)
    }

    /// The terminals of an instance.
    pub fn set_terminals<L: Ledger>(
        &mut self,
        id: u32,
        terminals: Terminals,
        moves: &mut Steps<L>,
    ) -> Terminals
        requires { IsTrue (is_live self.old.block.inst id) }
        ensures value { terminals_in id self.old.block ≡ Some result }
        ensures block { self.new.block ≡ with_terminals id terminals self.old.block }
        ensures cap { self.new.cap ≡ self.old.cap }
        ensures room { self.new.room ≡ self.old.room }
    {
        self.pools.set_terminals(id, terminals, moves)
    }

    /// The place of an instance terminal among those of its instance.
    pub fn set_index<L: Ledger>(&mut self, id: u32, index: u32, moves: &mut Steps<L>) -> u32
        requires { IsTrue (is_live self.old.block.iterm id) }
        ensures value { index_in id self.old.block ≡ Some result }
        ensures block { self.new.block ≡ with_index id index self.old.block }
        ensures cap { self.new.cap ≡ self.old.cap }
        ensures room { self.new.room ≡ self.old.room }
    {
        self.pools.set_index(id, index, moves)
    }

    /// The name of an object.
    pub fn rename<L: Ledger>(
        &mut self,
        kind: Kind,
        id: u32,
        name: Name,
        moves: &mut Steps<L>,
    ) -> Name
        requires live { IsTrue (live_in kind id self.old.block) }
        requires named { HasNames kind }
        requires free { IsFreeBut kind id name self.old.block }
        ensures value { name_in kind id self.old.block ≡ Some result }
        ensures block { self.new.block ≡ with_name kind id name self.old.block }
        ensures cap { self.new.cap ≡ self.old.cap }
        ensures room { self.new.room ≡ self.old.room }
    {
        self.pools.rename(kind, id, name, moves)
    }
}
