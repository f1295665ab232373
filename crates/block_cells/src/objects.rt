ghost use Rattle.std.specs.Prelude.{◌≡◌, ◌≤◌, ◌+◌, ◌≢◌, [], IsTrue, Some};
ghost use Rattle.block_records.specs.Record.{kind_of, name_of};
ghost use Rattle.block_cells.specs.Cells.{CanUntakeCell, free_in, given_cell, is_empty, later_in, live_in, record_of, taken_cell, ungiven_cell, untaken_cell};
ghost use Rattle.block_cells.specs.Names.{IsNameFree};
ghost use Rattle.block_cells.specs.Rooms.{ChangesRoom, room_of};

use crate::cells::{BTermCell, GroupCell, InstCell, NetCell, RegionCell, RowCell};
use crate::pools::Pools;
use block_records::Record;
use linked_pool::Linked;
use odb_base::{Kind, Steps};
use slot_pool::Taken;
use std::sync::ledger::Ledger;

impl Pools {
    /// Puts a new object into its pool, with empty lists and in no list.
    pub fn take<L: Ledger>(&mut self, object: Record, moves: &mut Steps<L>) -> Taken
        requires room { 1 ≤ room_of (kind_of object) self.old.room }
        requires name { IsNameFree (kind_of object) (name_of object) self.old.cells }
        ensures id { result.id ≡ later_in (kind_of object) 0 self.old.cells }
        ensures grew { result.grew ≡ is_empty (free_in (kind_of object) self.old.cells) }
        ensures cells { self.new.cells ≡ taken_cell object self.old.cells }
        ensures cap { self.new.cap ≡ self.old.cap }
        ensures room { room_of (kind_of object) self.old.room ≤ room_of (kind_of object) self.new.room + 1 }
        ensures others { ChangesRoom (kind_of object) self.old.room self.new.room }
    {
        match object {
            Record::Inst(record) => self
                .inst
                .pool
                .take(Linked::new(InstCell::new(record)), moves),
            Record::ITerm(record) => self.terms.first.take(Linked::new(record), moves),
            Record::Net(record) => self.net.take(NetCell::new(record), moves),
            Record::BTerm(record) => self
                .terms
                .second
                .take(Linked::new(BTermCell::new(record)), moves),
            Record::Pin(record) => self.pin.pool.take(Linked::new(record), moves),
            Record::Row(record) => self.row.take(RowCell::new(record), moves),
            Record::Track(record) => self.track.take(record, moves),
            Record::Wire(record) => self.wire.pool.take(Linked::new(record), moves),
            Record::Blockage(record) => self.blockage.take(record, moves),
            Record::Region(record) => self.region.take(RegionCell::new(record), moves),
            Record::Group(record) => self
                .group
                .pool
                .take(Linked::new(GroupCell::new(record)), moves),
            Record::Prop(record) => self.prop.pool.take(Linked::new(record), moves),
        }
    }

    /// Takes an object out of its pool, and answers its record.
    pub fn give<L: Ledger>(&mut self, kind: Kind, id: u32, moves: &mut Steps<L>) -> Record
        requires live { IsTrue (live_in kind id self.old.cells) }
        ensures value { record_of kind id self.old.cells ≡ Some result }
        ensures cells { self.new.cells ≡ given_cell kind id self.old.cells }
        ensures cap { self.new.cap ≡ self.old.cap }
        ensures room { room_of kind self.old.room + 1 ≤ room_of kind self.new.room }
        ensures others { ChangesRoom kind self.old.room self.new.room }
    {
        match kind {
            Kind::Inst => Record::Inst(self.inst.pool.give(id, moves).value.fields),
            Kind::ITerm => Record::ITerm(self.terms.first.give(id, moves).value),
            Kind::Net => Record::Net(self.net.give(id, moves).fields),
            Kind::BTerm => Record::BTerm(self.terms.second.give(id, moves).value.fields),
            Kind::Pin => Record::Pin(self.pin.pool.give(id, moves).value),
            Kind::Row => Record::Row(self.row.give(id, moves).fields),
            Kind::Track => Record::Track(self.track.give(id, moves)),
            Kind::Wire => Record::Wire(self.wire.pool.give(id, moves).value),
            Kind::Blockage => Record::Blockage(self.blockage.give(id, moves)),
            Kind::Region => Record::Region(self.region.give(id, moves).fields),
            Kind::Group => Record::Group(self.group.pool.give(id, moves).value.fields),
            Kind::Prop => Record::Prop(self.prop.pool.give(id, moves).value),
        }
    }

    /// Takes back the take that gave this identifier last, and answers the object's record. `grew` says whether that
    /// take added a slot.
    pub fn untake<L: Ledger>(
        &mut self,
        kind: Kind,
        id: u32,
        grew: bool,
        moves: &mut Steps<L>,
    ) -> Record
        requires can { CanUntakeCell kind id grew self.old.cells }
        ensures value { record_of kind id self.old.cells ≡ Some result }
        ensures cells { self.new.cells ≡ untaken_cell kind id grew self.old.cells }
        ensures cap { self.new.cap ≡ self.old.cap }
        ensures room { room_of kind self.old.room + 1 ≤ room_of kind self.new.room }
        ensures others { ChangesRoom kind self.old.room self.new.room }
    {
        match kind {
            Kind::Inst => Record::Inst(self.inst.pool.untake(id, grew, moves).value.fields),
            Kind::ITerm => Record::ITerm(self.terms.first.untake(id, grew, moves).value),
            Kind::Net => Record::Net(self.net.untake(id, grew, moves).fields),
            Kind::BTerm => Record::BTerm(self.terms.second.untake(id, grew, moves).value.fields),
            Kind::Pin => Record::Pin(self.pin.pool.untake(id, grew, moves).value),
            Kind::Row => Record::Row(self.row.untake(id, grew, moves).fields),
            Kind::Track => Record::Track(self.track.untake(id, grew, moves)),
            Kind::Wire => Record::Wire(self.wire.pool.untake(id, grew, moves).value),
            Kind::Blockage => Record::Blockage(self.blockage.untake(id, grew, moves)),
            Kind::Region => Record::Region(self.region.untake(id, grew, moves).fields),
            Kind::Group => Record::Group(self.group.pool.untake(id, grew, moves).value.fields),
            Kind::Prop => Record::Prop(self.prop.pool.untake(id, grew, moves).value),
        }
    }

    /// Takes back the give that came last, and answers the identifier under which the object is there again, with empty
    /// lists and in no list.
    pub fn ungive<L: Ledger>(&mut self, object: Record, moves: &mut Steps<L>) -> u32
        requires free { free_in (kind_of object) self.old.cells ≢ [] }
        requires name { IsNameFree (kind_of object) (name_of object) self.old.cells }
        ensures id { result ≡ later_in (kind_of object) 0 self.old.cells }
        ensures cells { self.new.cells ≡ ungiven_cell object self.old.cells }
        ensures cap { self.new.cap ≡ self.old.cap }
        ensures room { room_of (kind_of object) self.old.room ≤ room_of (kind_of object) self.new.room + 1 }
        ensures others { ChangesRoom (kind_of object) self.old.room self.new.room }
    {
        match object {
            Record::Inst(record) => self
                .inst
                .pool
                .ungive(Linked::new(InstCell::new(record)), moves),
            Record::ITerm(record) => self.terms.first.ungive(Linked::new(record), moves),
            Record::Net(record) => self.net.ungive(NetCell::new(record), moves),
            Record::BTerm(record) => self
                .terms
                .second
                .ungive(Linked::new(BTermCell::new(record)), moves),
            Record::Pin(record) => self.pin.pool.ungive(Linked::new(record), moves),
            Record::Row(record) => self.row.ungive(RowCell::new(record), moves),
            Record::Track(record) => self.track.ungive(record, moves),
            Record::Wire(record) => self.wire.pool.ungive(Linked::new(record), moves),
            Record::Blockage(record) => self.blockage.ungive(record, moves),
            Record::Region(record) => self.region.ungive(RegionCell::new(record), moves),
            Record::Group(record) => self
                .group
                .pool
                .ungive(Linked::new(GroupCell::new(record)), moves),
            Record::Prop(record) => self.prop.pool.ungive(Linked::new(record), moves),
        }
    }
}
