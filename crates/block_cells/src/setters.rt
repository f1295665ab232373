ghost use Rattle.std.specs.Prelude.{◌≡◌, IsTrue, Some};
ghost use Rattle.odb_base.specs.Kind.{has_names, has_place, has_usage, is_terminal};
ghost use Rattle.slot_pool.specs.Table.{is_live};
ghost use Rattle.block_cells.specs.Cells.{live_in};
ghost use Rattle.block_cells.specs.Names.{IsFreeBut, name_in};
ghost use Rattle.block_cells.specs.Setting.{direction_in, index_in, master_in, net_in, place_in, special_in, terminals_in, usage_in};
ghost use Rattle.block_cells.specs.Setting.{with_direction, with_index, with_master, with_name, with_net, with_place, with_special, with_terminals, with_usage};

use crate::cell_fields::{
    BTermDirection, BTermNet, BTermUsage, InstMaster, InstPlace, InstTerminals, NetSpecial,
    NetUsage,
};
use crate::pools::Pools;
use block_records::Terminals;
use linked_pool::Within;
use odb_base::{Direction, Kind, Name, Placement, Steps, Usage};
use std::mem;
use std::sync::ledger::Ledger;

// Each of these sets one field of an object, and answers what it had.
impl Pools {
    /// The net that a terminal is joined to, 0 for none.
    pub fn set_net<L: Ledger>(&mut self, kind: Kind, id: u32, net: u32, moves: &mut Steps<L>) -> u32
        requires live { IsTrue (live_in kind id self.old.cells) }
        requires kind { IsTrue (is_terminal kind) }
        ensures value { net_in kind id self.old.cells ≡ Some result }
        ensures cells { self.new.cells ≡ with_net kind id net self.old.cells }
        ensures cap { self.new.cap ≡ self.old.cap }
        ensures room { self.new.room ≡ self.old.room }
    {
        match kind {
            Kind::ITerm => mem::replace(&mut self.terms.first.change(id, moves).value.net, net),
            Kind::BTerm => self.terms.second.set::<Within<BTermNet>, _>(id, net, moves),
            _ => unreachable!(),
        }
    }

    /// The placement of an instance or a pin.
    pub fn set_place<L: Ledger>(
        &mut self,
        kind: Kind,
        id: u32,
        place: Placement,
        moves: &mut Steps<L>,
    ) -> Placement
        requires live { IsTrue (live_in kind id self.old.cells) }
        requires kind { IsTrue (has_place kind) }
        ensures value { place_in kind id self.old.cells ≡ Some result }
        ensures cells { self.new.cells ≡ with_place kind id place self.old.cells }
        ensures cap { self.new.cap ≡ self.old.cap }
        ensures room { self.new.room ≡ self.old.room }
    {
        match kind {
            Kind::Inst => self.inst.pool.set::<Within<InstPlace>, _>(id, place, moves),
            Kind::Pin => mem::replace(&mut self.pin.pool.change(id, moves).value.place, place),
            _ => unreachable!(),
        }
    }

    /// The use of a net or a block terminal.
    pub fn set_usage<L: Ledger>(
        &mut self,
        kind: Kind,
        id: u32,
        usage: Usage,
        moves: &mut Steps<L>,
    ) -> Usage
        requires live { IsTrue (live_in kind id self.old.cells) }
        requires kind { IsTrue (has_usage kind) }
        ensures value { usage_in kind id self.old.cells ≡ Some result }
        ensures cells { self.new.cells ≡ with_usage kind id usage self.old.cells }
        ensures cap { self.new.cap ≡ self.old.cap }
        ensures room { self.new.room ≡ self.old.room }
    {
        match kind {
            Kind::Net => self.net.set::<NetUsage, _>(id, usage, moves),
            Kind::BTerm => self
                .terms
                .second
                .set::<Within<BTermUsage>, _>(id, usage, moves),
            _ => unreachable!(),
        }
    }

    /// The direction of a block terminal.
    pub fn set_direction<L: Ledger>(
        &mut self,
        id: u32,
        direction: Direction,
        moves: &mut Steps<L>,
    ) -> Direction
        requires { IsTrue (is_live self.old.cells.bterm id) }
        ensures value { direction_in id self.old.cells ≡ Some result }
        ensures cells { self.new.cells ≡ with_direction id direction self.old.cells }
        ensures cap { self.new.cap ≡ self.old.cap }
        ensures room { self.new.room ≡ self.old.room }
    {
        self.terms
            .second
            .set::<Within<BTermDirection>, _>(id, direction, moves)
    }

    /// Whether a net is special.
    pub fn set_special<L: Ledger>(&mut self, id: u32, special: bool, moves: &mut Steps<L>) -> bool
        requires { IsTrue (is_live self.old.cells.net id) }
        ensures value { special_in id self.old.cells ≡ Some result }
        ensures cells { self.new.cells ≡ with_special id special self.old.cells }
        ensures cap { self.new.cap ≡ self.old.cap }
        ensures room { self.new.room ≡ self.old.room }
    {
        self.net.set::<NetSpecial, _>(id, special, moves)
    }

    /// The number of the master of an instance.
    pub fn set_master<L: Ledger>(&mut self, id: u32, master: u32, moves: &mut Steps<L>) -> u32
        requires { IsTrue (is_live self.old.cells.inst id) }
        ensures value { master_in id self.old.cells ≡ Some result }
        ensures cells { self.new.cells ≡ with_master id master self.old.cells }
        ensures cap { self.new.cap ≡ self.old.cap }
        ensures room { self.new.room ≡ self.old.room }
    {
        self.inst
            .pool
            .set::<Within<InstMaster>, _>(id, master, moves)
    }

    /// The terminals of an instance.
    pub fn set_terminals<L: Ledger>(
        &mut self,
        id: u32,
        terminals: Terminals,
        moves: &mut Steps<L>,
    ) -> Terminals
        requires { IsTrue (is_live self.old.cells.inst id) }
        ensures value { terminals_in id self.old.cells ≡ Some result }
        ensures cells { self.new.cells ≡ with_terminals id terminals self.old.cells }
        ensures cap { self.new.cap ≡ self.old.cap }
        ensures room { self.new.room ≡ self.old.room }
    {
        self.inst
            .pool
            .set::<Within<InstTerminals>, _>(id, terminals, moves)
    }

    /// The place of an instance terminal among those of its instance.
    pub fn set_index<L: Ledger>(&mut self, id: u32, index: u32, moves: &mut Steps<L>) -> u32
        requires { IsTrue (is_live self.old.cells.iterm id) }
        ensures value { index_in id self.old.cells ≡ Some result }
        ensures cells { self.new.cells ≡ with_index id index self.old.cells }
        ensures cap { self.new.cap ≡ self.old.cap }
        ensures room { self.new.room ≡ self.old.room }
    {
        mem::replace(&mut self.terms.first.change(id, moves).value.index, index)
    }

    /// The name of an object.
    pub fn rename<L: Ledger>(
        &mut self,
        kind: Kind,
        id: u32,
        name: Name,
        moves: &mut Steps<L>,
    ) -> Name
        requires live { IsTrue (live_in kind id self.old.cells) }
        requires named { IsTrue (has_names kind) }
        requires free { IsFreeBut kind id name self.old.cells }
        ensures value { name_in kind id self.old.cells ≡ Some result }
        ensures cells { self.new.cells ≡ with_name kind id name self.old.cells }
        ensures cap { self.new.cap ≡ self.old.cap }
        ensures room { self.new.room ≡ self.old.room }
    {
        match kind {
            Kind::Inst => self.inst.pool.rename(id, name, moves),
            Kind::Net => self.net.rename(id, name, moves),
            Kind::BTerm => self.terms.second.rename(id, name, moves),
            Kind::Row => self.row.rename(id, name, moves),
            Kind::Region => self.region.rename(id, name, moves),
            Kind::Group => self.group.pool.rename(id, name, moves),
            _ => unreachable!(),
        }
    }
}
