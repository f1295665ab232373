ghost use Rattle.std.specs.Prelude.{◌≡◌, IsTrue, List, ℕ};
ghost use Rattle.link_list.specs.Standing.{OthersStand, Stands};
ghost use Rattle.linked_pool.specs.Changes.{CanChange, changed, members_around, next_after, with_links};
ghost use Rattle.block_cells.specs.Lists.{HasList, HasProps, IsLinked, head_at, is_cell, link_at, props_at, sort_of, with_head, with_link, with_props};

use crate::cell_fields::{
    BTermPins, GroupMembers, GroupProps, InstProps, NetProps, NetTerms, NetWires, RegionGroups,
    RegionProps, RowProps,
};
use crate::cells::NO_HEAD;
use crate::list_of::ListOf;
use crate::pools::Pools;
use link_list::{Head, Link, LinkCells};
use linked_pool::{Change, Within};
use odb_base::{Kind, Steps};
use std::sync::ledger::Ledger;

impl Pools {
    /// The head of a list. An object that isn't there has none.
    pub fn head(&self, list: ListOf) -> Head
        ensures { result ≡ head_at list self.now.cells }
    {
        match list {
            ListOf::Props(kind, id) => self.props(kind, id),
            ListOf::InstTerms(_) => NO_HEAD,
            ListOf::Terms(net) => match self.net.get(net.0) {
                Some(cell) => cell.terms,
                None => NO_HEAD,
            },
            ListOf::Wires(net) => match self.net.get(net.0) {
                Some(cell) => cell.wires,
                None => NO_HEAD,
            },
            ListOf::Members(group) => match self.group.pool.get(group.0) {
                Some(cell) => cell.value.members,
                None => NO_HEAD,
            },
            ListOf::Pins(bterm) => match self.terms.second.get(bterm.0) {
                Some(cell) => cell.value.pins,
                None => NO_HEAD,
            },
            ListOf::Groups(region) => match self.region.get(region.0) {
                Some(cell) => cell.groups,
                None => NO_HEAD,
            },
        }
    }

    // The head of the properties of an object.
    fn props(&self, kind: Kind, id: u32) -> Head
        ensures { result ≡ props_at kind id self.now.cells }
    {
        match kind {
            Kind::Inst => match self.inst.pool.get(id) {
                Some(cell) => cell.value.props,
                None => NO_HEAD,
            },
            Kind::Net => match self.net.get(id) {
                Some(cell) => cell.props,
                None => NO_HEAD,
            },
            Kind::Row => match self.row.get(id) {
                Some(cell) => cell.props,
                None => NO_HEAD,
            },
            Kind::Region => match self.region.get(id) {
                Some(cell) => cell.props,
                None => NO_HEAD,
            },
            Kind::Group => match self.group.pool.get(id) {
                Some(cell) => cell.value.props,
                None => NO_HEAD,
            },
            _ => NO_HEAD,
        }
    }

    /// Sets the head of a list.
    pub fn set_head<L: Ledger>(&mut self, list: ListOf, head: Head, moves: &mut Steps<L>)
        requires { HasList list self.old.cells }
        ensures cells { self.new.cells ≡ with_head list head self.old.cells }
        ensures cap { self.new.cap ≡ self.old.cap }
        ensures room { self.new.room ≡ self.old.room }
    {
        match list {
            ListOf::Props(kind, id) => self.set_props(kind, id, head, moves),
            ListOf::InstTerms(_) => unreachable!(),
            ListOf::Terms(net) => {
                self.net.set::<NetTerms, _>(net.0, head, moves);
            }
            ListOf::Wires(net) => {
                self.net.set::<NetWires, _>(net.0, head, moves);
            }
            ListOf::Members(group) => {
                self.group
                    .pool
                    .set::<Within<GroupMembers>, _>(group.0, head, moves);
            }
            ListOf::Pins(bterm) => {
                self.terms
                    .second
                    .set::<Within<BTermPins>, _>(bterm.0, head, moves);
            }
            ListOf::Groups(region) => {
                self.region.set::<RegionGroups, _>(region.0, head, moves);
            }
        }
    }

    fn set_props<L: Ledger>(&mut self, kind: Kind, id: u32, head: Head, moves: &mut Steps<L>)
        requires { HasProps kind id self.old.cells }
        ensures cells { self.new.cells ≡ with_props kind id head self.old.cells }
        ensures cap { self.new.cap ≡ self.old.cap }
        ensures room { self.new.room ≡ self.old.room }
    {
        match kind {
            Kind::Inst => {
                self.inst.pool.set::<Within<InstProps>, _>(id, head, moves);
            }
            Kind::Net => {
                self.net.set::<NetProps, _>(id, head, moves);
            }
            Kind::Row => {
                self.row.set::<RowProps, _>(id, head, moves);
            }
            Kind::Region => {
                self.region.set::<RegionProps, _>(id, head, moves);
            }
            Kind::Group => {
                self.group
                    .pool
                    .set::<Within<GroupProps>, _>(id, head, moves);
            }
            _ => unreachable!(),
        }
    }

    /// The link of a member of a list of this sort.
    pub fn link(&self, list: ListOf, member: u32) -> Link
        requires { IsTrue (is_cell (sort_of list) self.now.cells member) }
        ensures { result ≡ link_at (sort_of list) self.now.cells member }
    {
        match list {
            ListOf::Terms(_) => self.terms.link(member),
            ListOf::Wires(_) => self.wire.link(member),
            ListOf::Members(_) => self.inst.link(member),
            ListOf::Pins(_) => self.pin.link(member),
            ListOf::Groups(_) => self.group.link(member),
            ListOf::Props(_, _) => self.prop.link(member),
            ListOf::InstTerms(_) => unreachable!(),
        }
    }

    /// Changes the links of a list, whose head is at hand, and answers the member that stood after one that left. The
    /// head in the cell of the list's object stays.
    pub fn change_links<L: Ledger>(
        &mut self,
        list: ListOf,
        head: &mut Head,
        change: Change,
        moves: &mut Steps<L>,
    ) -> Option<u32>
        ghost ids: { List ℕ }
        requires linked { IsLinked list }
        requires list { Stands (is_cell (sort_of list) self.old.cells) (link_at (sort_of list) self.old.cells) head.old ids }
        requires can { CanChange (is_cell (sort_of list) self.old.cells) change ids }
        ensures list { Stands (is_cell (sort_of list) self.new.cells) (link_at (sort_of list) self.new.cells) head.new (changed change ids) }
        ensures next { result ≡ next_after change ids }
        ensures others { OthersStand (is_cell (sort_of list) self.old.cells) (link_at (sort_of list) self.old.cells)
            (is_cell (sort_of list) self.new.cells) (link_at (sort_of list) self.new.cells) (members_around change ids) }
        ensures cells { self.new.cells ≡ with_links (with_link (sort_of list)) (link_at (sort_of list)) change ids self.old.cells }
        ensures cap { self.new.cap ≡ self.old.cap }
        ensures room { self.new.room ≡ self.old.room }
    {
        match list {
            ListOf::Terms(_) => self.terms.change_list(head, change, moves),
            ListOf::Wires(_) => self.wire.change_list(head, change, moves),
            ListOf::Members(_) => self.inst.change_list(head, change, moves),
            ListOf::Pins(_) => self.pin.change_list(head, change, moves),
            ListOf::Groups(_) => self.group.change_list(head, change, moves),
            ListOf::Props(_, _) => self.prop.change_list(head, change, moves),
            ListOf::InstTerms(_) => unreachable!(),
        }
    }
}
