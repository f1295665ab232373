ghost use Rattle.std.specs.Prelude.{◌≡◌, ◌≤◌, ◌+◌, [], IsTrue, OnErr, OnOk, length, vec_capacity};
ghost use Rattle.block_store.specs.Block.{live_in};
ghost use Rattle.block_store.specs.Lists.{list_at, props_at, term_number};

use crate::block::Block;
use crate::list_of::ListOf;
use odb_base::Kind;
use std::alloc::AllocError;

impl Block {
    /// The members of a list in their order. An object that isn't there has none.
    pub fn members(&self, list: ListOf) -> &[u32]
        ensures { result.now ≡ list_at list self.now.block }
    {
        match list {
            ListOf::Terms(net) => match self.pools.net.get(net.0) {
                Some(entry) => entry.terms.items(),
                None => &[],
            },
            ListOf::Wires(net) => match self.pools.net.get(net.0) {
                Some(entry) => entry.wires.items(),
                None => &[],
            },
            ListOf::Members(group) => match self.pools.group.get(group.0) {
                Some(entry) => entry.members.items(),
                None => &[],
            },
            ListOf::Pins(bterm) => match self.pools.bterm.get(bterm.0) {
                Some(entry) => entry.pins.items(),
                None => &[],
            },
            ListOf::Groups(region) => match self.pools.region.get(region.0) {
                Some(entry) => entry.groups.items(),
                None => &[],
            },
            ListOf::Props(kind, id) => self.props(kind, id),
            ListOf::InstTerms(inst) => match self.pools.inst.get(inst.0) {
                Some(entry) => entry.fields.terminals.items(),
                None => &[],
            },
        }
    }

    // The properties of an object. An object that isn't there, or of a kind without properties, has none.
    fn props(&self, kind: Kind, id: u32) -> &[u32]
        ensures { result.now ≡ props_at kind id self.now.block }
    {
        match kind {
            Kind::Inst => match self.pools.inst.get(id) {
                Some(entry) => entry.props.items(),
                None => &[],
            },
            Kind::Net => match self.pools.net.get(id) {
                Some(entry) => entry.props.items(),
                None => &[],
            },
            Kind::Row => match self.pools.row.get(id) {
                Some(entry) => entry.props.items(),
                None => &[],
            },
            Kind::Region => match self.pools.region.get(id) {
                Some(entry) => entry.props.items(),
                None => &[],
            },
            Kind::Group => match self.pools.group.get(id) {
                Some(entry) => entry.props.items(),
                None => &[],
            },
            _ => &[],
        }
    }

    /// Makes room for one more member of a list. After a refusal the block stands as it stood.
    pub fn room_in(&mut self, list: ListOf) -> Result<(), AllocError>
        ensures ok { OnOk result (length (list_at list self.old.block) + 1 ≤ self.new.room.list) }
        ensures block { self.new.block ≡ self.old.block }
        ensures cap { self.new.cap ≡ self.old.cap }
        ensures room { self.new.room ≡ record self.old.room { list = self.new.room.list } }
    {
        let count = self.members(list).len();
        self.pools.room_for(count + 1)
    }

    /// The number that stands for a terminal in the list of a net.
    #[tactic(auto, using(crate::proofs::Limits::live_in_slots))]
    pub fn term_number(&self, kind: Kind, id: u32) -> u32
        requires { IsTrue (live_in kind id self.now.block) }
        ensures { result ≡ term_number kind id }
    {
        let last = self.slots(kind);
        prove!(id <= last && last <= self.cap());
        match kind {
            Kind::BTerm => 2 * id + 1,
            _ => 2 * id,
        }
    }

    /// Moves the room for the members of a list out of the block, as an empty vector.
    pub fn take_room(&mut self) -> Vec<u32>
        ensures empty { result.items ≡ [] }
        ensures capacity { self.old.room.list ≤ vec_capacity result }
        ensures block { self.new.block ≡ self.old.block }
        ensures cap { self.new.cap ≡ self.old.cap }
        ensures room { self.new.room ≡ record self.old.room { list = self.new.room.list } }
    {
        self.pools.take_room()
    }
}
