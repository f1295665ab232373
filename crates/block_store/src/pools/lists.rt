ghost use Rattle.std.specs.Prelude.{◌≡◌, [], IsTrue, vec_capacity};
ghost use Rattle.slot_pool.specs.Mapped.{on_record};
ghost use Rattle.slot_pool.specs.Table.{is_live, record_at};
ghost use Rattle.block_store.specs.Changes.{CanChange, changed, next_after};
ghost use Rattle.block_store.specs.Lists.{HasList, HasProps, list_at, list_in, on_list, on_props, props_at};

use crate::entry_fields::{
    BTermPins, GroupMembers, GroupProps, InstProps, NetProps, NetTerms, NetWires, RegionGroups,
    RegionProps, RowProps,
};
use crate::ids::{Change, Ids};
use crate::list_of::ListOf;
use crate::pools::Pools;
use named_pool::{Field, Named, NamedPool};
use odb_base::{Kind, Steps};
use std::sync::ledger::Ledger;

impl Pools {
    // Changes a list by one member, and answers the member that stood after one that left.
    pub(crate) fn change_list<L: Ledger>(
        &mut self,
        list: ListOf,
        change: Change,
        moves: &mut Steps<L>,
    ) -> Option<u32>
        requires has { HasList list self.old.block }
        requires can { CanChange change (list_at list self.old.block) self.old.room.list }
        ensures next { result ≡ next_after change (list_at list self.old.block) }
        ensures block { self.new.block ≡ on_list (changed change) list self.old.block }
        ensures cap { self.new.cap ≡ self.old.cap }
        ensures room { self.new.room ≡ record self.old.room { list = self.new.room.list } }
    {
        let spare = &mut self.spare;
        match list {
            ListOf::Terms(net) => change_in::<_, NetTerms, _>(
                &mut self.net,
                net.0,
                change,
                spare,
                moves,
            ),
            ListOf::Wires(net) => change_in::<_, NetWires, _>(
                &mut self.net,
                net.0,
                change,
                spare,
                moves,
            ),
            ListOf::Members(group) => change_in::<_, GroupMembers, _>(
                &mut self.group,
                group.0,
                change,
                spare,
                moves,
            ),
            ListOf::Pins(bterm) => change_in::<_, BTermPins, _>(
                &mut self.bterm,
                bterm.0,
                change,
                spare,
                moves,
            ),
            ListOf::Groups(region) => change_in::<_, RegionGroups, _>(
                &mut self.region,
                region.0,
                change,
                spare,
                moves,
            ),
            ListOf::Props(kind, id) => self.change_props(kind, id, change, moves),
            ListOf::InstTerms(_) => unreachable!(),
        }
    }

    fn change_props<L: Ledger>(
        &mut self,
        kind: Kind,
        id: u32,
        change: Change,
        moves: &mut Steps<L>,
    ) -> Option<u32>
        requires has { HasProps kind id self.old.block }
        requires can { CanChange change (props_at kind id self.old.block) self.old.room.list }
        ensures next { result ≡ next_after change (props_at kind id self.old.block) }
        ensures block { self.new.block ≡ on_props (changed change) kind id self.old.block }
        ensures cap { self.new.cap ≡ self.old.cap }
        ensures room { self.new.room ≡ record self.old.room { list = self.new.room.list } }
    {
        let spare = &mut self.spare;
        match kind {
            Kind::Inst => change_in::<_, InstProps, _>(&mut self.inst, id, change, spare, moves),
            Kind::Net => change_in::<_, NetProps, _>(&mut self.net, id, change, spare, moves),
            Kind::Row => change_in::<_, RowProps, _>(&mut self.row, id, change, spare, moves),
            Kind::Region => change_in::<_, RegionProps, _>(
                &mut self.region,
                id,
                change,
                spare,
                moves,
            ),
            Kind::Group => change_in::<_, GroupProps, _>(&mut self.group, id, change, spare, moves),
            _ => unreachable!(),
        }
    }
}

// Changes a list that an object has: the list is taken out of the object, and put back.
fn change_in<R: Named, F: Field<R, Value = Ids>, L: Ledger>(
    pool: &mut NamedPool<R>,
    id: u32,
    change: Change,
    spare: &mut Vec<u32>,
    moves: &mut Steps<L>,
) -> Option<u32>
    requires live { IsTrue (is_live pool.old.table id) }
    requires can { CanChange change (list_in F.value_of (record_at pool.old.table id)) (vec_capacity spare.old) }
    requires empty { spare.old.items ≡ [] }
    ensures next { result ≡ next_after change (list_in F.value_of (record_at pool.old.table id)) }
    ensures table { pool.new.table ≡ on_record (λ e. F.with_value (changed change (F.value_of e)) e) id pool.old.table }
    ensures cap { pool.new.cap ≡ pool.old.cap }
    ensures spare { pool.new.spare ≡ pool.old.spare }
    ensures empty { spare.new.items ≡ [] }
{
    let mut members = pool.set::<F, L>(id, Ids::new(*spare.allocator()), moves);
    let next = members.change(change, spare);
    let taken_out = pool.set::<F, L>(id, members, moves);
    drop(taken_out);
    next
}
