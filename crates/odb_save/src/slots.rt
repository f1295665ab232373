ghost use Rattle.std.specs.Prelude.{◌≡◌, ◌++◌, IfSome, OnOk, option_copied};
ghost use Rattle.odb_fields.specs.Putting.{KeepsVector, bytes_in};
ghost use Rattle.saved_fields.specs.Bytes.{option_bytes};
ghost use Rattle.odb_save.specs.Kinds.{slot_in};

use block_store::{Block, Database};
use odb_base::{
    BTermId, BlockageId, GroupId, ITermId, InstId, Kind, NetId, PinId, PropId, RegionId, RowId,
    TrackId, WireId,
};
use odb_fields::Put;
use saved_reader::saves::SavesObject;
use std::alloc::AllocError;

// What a slot begins with.
const EMPTY: u8 = 0;

const FILLED: u8 = 1;

// The slot of an identifier: empty, or with the record of its object.
#[tactic(auto, unfolding(crate::specs::Kinds::slot_in))]
pub fn put_slot(put: &mut Put<'_>, db: &Database, kind: Kind, id: u32) -> Result<(), AllocError>
    ensures ok { OnOk result (bytes_in put.new ≡ bytes_in put.old ++ slot_in kind id db.now.block) }
    ensures vector { KeepsVector put.old put.new }
{
    let block = &db.block;
    match kind {
        Kind::Inst => put_object(put, block, id, block.inst(InstId(id))),
        Kind::ITerm => put_object(put, block, id, block.iterm(ITermId(id))),
        Kind::Net => put_object(put, block, id, block.net(NetId(id))),
        Kind::BTerm => put_object(put, block, id, block.bterm(BTermId(id))),
        Kind::Pin => put_object(put, block, id, block.pin(PinId(id))),
        Kind::Row => put_object(put, block, id, block.row(RowId(id))),
        Kind::Track => put_object(put, block, id, block.track(TrackId(id))),
        Kind::Wire => put_object(put, block, id, block.wire(WireId(id))),
        Kind::Blockage => put_object(put, block, id, block.blockage(BlockageId(id))),
        Kind::Region => put_object(put, block, id, block.region(RegionId(id))),
        Kind::Group => put_object(put, block, id, block.group(GroupId(id))),
        Kind::Prop => put_object(put, block, id, block.prop(PropId(id))),
    }
}

#[tactic(auto, unfolding(saved_fields::specs::Bytes::option_bytes))]
fn put_object<T: SavesObject>(
    put: &mut Put<'_>,
    block: &Block,
    id: u32,
    object: Option<&T>,
) -> Result<(), AllocError>
    requires { IfSome object (λ r. T.fits id r.now block.now.block) }
    ensures ok { OnOk result (bytes_in put.new ≡ bytes_in put.old ++ option_bytes (λ r. T.bytes_of id r block.now.block) (option_copied object.entry)) }
    ensures vector { KeepsVector put.old put.new }
{
    match object {
        None => put.put_u8(EMPTY),
        Some(record) => {
            put.put_u8(FILLED)?;
            record.put(put, block, id)
        }
    }
}
