ghost use Rattle.std.specs.Prelude.{◌≡◌, ◌≤◌, ◌+◌, ◌≢◌, [], IsTrue, Some};
ghost use Rattle.slot_pool.specs.Table.{CanUntake};
ghost use Rattle.block_records.specs.Record.{kind_of};
ghost use Rattle.block_store.specs.Alone.{IsNew};
ghost use Rattle.block_store.specs.Block.{free_in, is_empty, live_in, next_in, record_of};
ghost use Rattle.block_store.specs.Moves.{CanUntakeIn, given_in, taken_in, ungiven_in, untaken_in};
ghost use Rattle.block_store.specs.Store.{ChangesRoom, room_of};

use crate::entry::{BTermEntry, GroupEntry, InstEntry, NetEntry, RegionEntry, RowEntry};
use crate::pools::Pools;
use block_records::Record;
use odb_base::{Kind, Steps};
use slot_pool::Taken;
use std::alloc::Global;
use std::sync::ledger::Ledger;

impl Pools {
    // Where the block has its memory from.
    pub(crate) fn allocator(&self) -> Global {
        *self.spare.allocator()
    }

    // Puts a new object into its table, with empty lists.
    pub(crate) fn take<L: Ledger>(&mut self, object: Record, moves: &mut Steps<L>) -> Taken
        requires room { 1 ≤ room_of (kind_of object) self.old.room }
        requires name { IsNew object self.old.block }
        ensures id { result.id ≡ next_in (kind_of object) self.old.block }
        ensures grew { result.grew ≡ is_empty (free_in (kind_of object) self.old.block) }
        ensures block { self.new.block ≡ taken_in object self.old.block }
        ensures cap { self.new.cap ≡ self.old.cap }
        ensures room { room_of (kind_of object) self.old.room ≤ room_of (kind_of object) self.new.room + 1 }
        ensures others { ChangesRoom (kind_of object) self.old.room self.new.room }
    {
        let alloc = self.allocator();
        match object {
            Record::Inst(record) => self.inst.take(InstEntry::new(alloc, record), moves),
            Record::ITerm(record) => self.iterm.take(record, moves),
            Record::Net(record) => self.net.take(NetEntry::new(alloc, record), moves),
            Record::BTerm(record) => self.bterm.take(BTermEntry::new(alloc, record), moves),
            Record::Pin(record) => self.pin.take(record, moves),
            Record::Row(record) => self.row.take(RowEntry::new(alloc, record), moves),
            Record::Track(record) => self.track.take(record, moves),
            Record::Wire(record) => self.wire.take(record, moves),
            Record::Blockage(record) => self.blockage.take(record, moves),
            Record::Region(record) => self.region.take(RegionEntry::new(alloc, record), moves),
            Record::Group(record) => self.group.take(GroupEntry::new(alloc, record), moves),
            Record::Prop(record) => self.prop.take(record, moves),
        }
    }

    // Takes an object out of its table, and answers its record.
    pub(crate) fn give<L: Ledger>(&mut self, kind: Kind, id: u32, moves: &mut Steps<L>) -> Record
        requires live { IsTrue (live_in kind id self.old.block) }
        ensures value { record_of kind id self.old.block ≡ Some result }
        ensures block { self.new.block ≡ given_in kind id self.old.block }
        ensures cap { self.new.cap ≡ self.old.cap }
        ensures room { room_of kind self.old.room + 1 ≤ room_of kind self.new.room }
        ensures others { ChangesRoom kind self.old.room self.new.room }
    {
        match kind {
            Kind::Inst => Record::Inst(self.inst.give(id, moves).into_record()),
            Kind::ITerm => Record::ITerm(self.iterm.give(id, moves)),
            Kind::Net => Record::Net(self.net.give(id, moves).into_record()),
            Kind::BTerm => Record::BTerm(self.bterm.give(id, moves).into_record()),
            Kind::Pin => Record::Pin(self.pin.give(id, moves)),
            Kind::Row => Record::Row(self.row.give(id, moves).into_record()),
            Kind::Track => Record::Track(self.track.give(id, moves)),
            Kind::Wire => Record::Wire(self.wire.give(id, moves)),
            Kind::Blockage => Record::Blockage(self.blockage.give(id, moves)),
            Kind::Region => Record::Region(self.region.give(id, moves).into_record()),
            Kind::Group => Record::Group(self.group.give(id, moves).into_record()),
            Kind::Prop => Record::Prop(self.prop.give(id, moves)),
        }
    }

    // Takes back the take that gave this id last, and answers the object's record. `grew` says whether that
    // take added a slot.
    pub(crate) fn untake<L: Ledger>(
        &mut self,
        kind: Kind,
        id: u32,
        grew: bool,
        moves: &mut Steps<L>,
    ) -> Record
        requires can { CanUntakeIn kind id grew self.old.block }
        ensures value { record_of kind id self.old.block ≡ Some result }
        ensures block { self.new.block ≡ untaken_in kind id grew self.old.block }
        ensures cap { self.new.cap ≡ self.old.cap }
        ensures room { room_of kind self.old.room + 1 ≤ room_of kind self.new.room }
        ensures others { ChangesRoom kind self.old.room self.new.room }
    {
        match kind {
            Kind::Inst => Record::Inst(self.inst.untake(id, grew, moves).into_record()),
            Kind::ITerm => Record::ITerm(self.iterm.untake(id, grew, moves)),
            Kind::Net => Record::Net(self.net.untake(id, grew, moves).into_record()),
            Kind::BTerm => Record::BTerm(self.bterm.untake(id, grew, moves).into_record()),
            Kind::Pin => Record::Pin(self.pin.untake(id, grew, moves)),
            Kind::Row => Record::Row(self.row.untake(id, grew, moves).into_record()),
            Kind::Track => Record::Track(self.track.untake(id, grew, moves)),
            Kind::Wire => Record::Wire(self.wire.untake(id, grew, moves)),
            Kind::Blockage => Record::Blockage(self.blockage.untake(id, grew, moves)),
            Kind::Region => Record::Region(self.region.untake(id, grew, moves).into_record()),
            Kind::Group => Record::Group(self.group.untake(id, grew, moves).into_record()),
            Kind::Prop => Record::Prop(self.prop.untake(id, grew, moves)),
        }
    }

    // Takes back the give that came last, and answers the id under which the object is there again, with
    // empty lists.
    pub(crate) fn ungive<L: Ledger>(&mut self, object: Record, moves: &mut Steps<L>) -> u32
        requires free { free_in (kind_of object) self.old.block ≢ [] }
        requires name { IsNew object self.old.block }
        ensures id { result ≡ next_in (kind_of object) self.old.block }
        ensures block { self.new.block ≡ ungiven_in object self.old.block }
        ensures cap { self.new.cap ≡ self.old.cap }
        ensures room { room_of (kind_of object) self.old.room ≤ room_of (kind_of object) self.new.room + 1 }
        ensures others { ChangesRoom (kind_of object) self.old.room self.new.room }
    {
        let alloc = self.allocator();
        match object {
            Record::Inst(record) => self.inst.ungive(InstEntry::new(alloc, record), moves),
            Record::ITerm(record) => self.iterm.ungive(record, moves),
            Record::Net(record) => self.net.ungive(NetEntry::new(alloc, record), moves),
            Record::BTerm(record) => self.bterm.ungive(BTermEntry::new(alloc, record), moves),
            Record::Pin(record) => self.pin.ungive(record, moves),
            Record::Row(record) => self.row.ungive(RowEntry::new(alloc, record), moves),
            Record::Track(record) => self.track.ungive(record, moves),
            Record::Wire(record) => self.wire.ungive(record, moves),
            Record::Blockage(record) => self.blockage.ungive(record, moves),
            Record::Region(record) => self.region.ungive(RegionEntry::new(alloc, record), moves),
            Record::Group(record) => self.group.ungive(GroupEntry::new(alloc, record), moves),
            Record::Prop(record) => self.prop.ungive(record, moves),
        }
    }
}
