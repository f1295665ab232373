ghost use Rattle.std.specs.Prelude.{◌≡◌, ◌++◌, ◌<◌, ◌^◌, OnOk, Some, length, slice_get};
ghost use Rattle.odb_fields.specs.Fields.{u32_bytes};
ghost use Rattle.odb_fields.specs.Putting.{KeepsVector, bytes_in};
ghost use Rattle.block_store.specs.Block.{free_in};
ghost use Rattle.lawful_parts.specs.Lawful.{AreAll};
ghost use Rattle.saved_fields.specs.Bytes.{list_bytes};
ghost use Rattle.saved_reader.specs.Fits.{IsShort};

use block_store::Block;
use named_list::{Named, NamedList};
use odb_base::Kind;
use odb_fields::Put;
use saved_reader::saves::Saves;
use std::alloc::AllocError;

// Things with names, in the order of their identifiers.
#[tactic(auto, unfolding(saved_fields::specs::Bytes::list_bytes))]
pub fn put_named<T: Named + Saves + Drop>(
    put: &mut Put<'_>,
    things: &NamedList<T>,
) -> Result<(), AllocError>
    requires { AreAll T.fits things.now }
    ensures ok { OnOk result (bytes_in put.new ≡ bytes_in put.old ++ list_bytes T.bytes_of things.now) }
    ensures vector { KeepsVector put.old put.new }
{
    put.put_u32(things.count())?;
    for place in 0..things.count() {
        thing_at(things, place).put(put)?;
    }
    Ok(())
}

// What stands at a place, from 0.
fn thing_at<T: Named + Drop>(things: &NamedList<T>, place: u32) -> &T
    requires few { length things.now < 2 ^ 32 }
    requires within { place < length things.now }
    ensures { slice_get things.now place ≡ Some result.now }
{
    match things.get(place + 1) {
        None => unreachable!(),
        Some(thing) => thing,
    }
}

// The free identifiers of a kind, top first.
#[tactic(auto, unfolding(saved_fields::specs::Bytes::list_bytes))]
pub fn put_free(put: &mut Put<'_>, block: &Block, kind: Kind) -> Result<(), AllocError>
    requires { IsShort (free_in kind block.now.block) }
    ensures ok { OnOk result (bytes_in put.new ≡ bytes_in put.old ++ list_bytes u32_bytes (free_in kind block.now.block)) }
    ensures vector { KeepsVector put.old put.new }
{
    put.put_u32(count_free(block, kind))?;
    for id in block.free_ids(kind) {
        put.put_u32(id)?;
    }
    Ok(())
}

fn count_free(block: &Block, kind: Kind) -> u32
    requires { IsShort (free_in kind block.now.block) }
    ensures { result ≡ length (free_in kind block.now.block) }
{
    block.free_ids(kind).count() as u32
}
