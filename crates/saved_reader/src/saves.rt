ghost use Rattle.std.specs.Prelude.{◌≡◌, ◌++◌, List, ℕ, OnOk, Some, length, slice_get};
ghost use Rattle.odb_fields.specs.Fields.{u32_bytes};
ghost use Rattle.odb_fields.specs.Putting.{KeepsVector, bytes_in};
ghost use Rattle.block_store.specs.Block.{Block as Objects};
ghost use Rattle.block_store.specs.Lists.{list_at};
ghost use Rattle.saved_fields.specs.Bytes.{list_bytes, term_bytes};
ghost use Rattle.saved_reader.specs.Fits.{IsShort};

use block_store::{Block, ListOf};
use odb_base::NetId;
use odb_fields::Put;
use saved_fields::parts::put_term;
use std::alloc::AllocError;

/// What stands in the saved stream by itself: an item of a list, or a thing with a name.
pub trait Saves {
    // The bytes of the value.
    ghost bytes_of: { Self → List ℕ };

    // The counts in it fit.
    ghost fits: { Self → Type 0 };

    /// Appends the bytes of the value.
    fn put(&self, put: &mut Put<'_>) -> Result<(), AllocError>
        requires { fits self.now }
        ensures ok { OnOk result (bytes_in put.new ≡ bytes_in put.old ++ bytes_of self.now) }
        ensures vector { KeepsVector put.old put.new };
}

/// The record of an object. It stands in a slot with the lists that the block has for the object.
pub trait SavesObject {
    // The bytes of the record under this identifier, with the lists of the block.
    ghost bytes_of: { ℕ → Self → Objects → List ℕ };

    // The fields are lawful.
    ghost fits: { ℕ → Self → Objects → Type 0 };

    /// Appends the bytes of the record of the object with this identifier.
    fn put(&self, put: &mut Put<'_>, block: &Block, id: u32) -> Result<(), AllocError>
        requires { fits id self.now block.now.block }
        ensures ok { OnOk result (bytes_in put.new ≡ bytes_in put.old ++ bytes_of id self.now block.now.block) }
        ensures vector { KeepsVector put.old put.new };
}

impl Saves for u32 {
    ghost bytes_of = { u32_bytes };

    ghost fits = { λ _. Unit {0} };

    fn put(&self, put: &mut Put<'_>) -> Result<(), AllocError> {
        put.put_u32(*self)
    }
}

/// Appends a list: how many items it has, and each.
#[tactic(auto, unfolding(saved_fields::specs::Bytes::list_bytes))]
pub fn put_list<T: Saves>(put: &mut Put<'_>, items: &[T]) -> Result<(), AllocError>
    requires short { IsShort items.now }
    requires fits { (place : ℕ) (x : T) → slice_get items.now place ≡ Some x → T.fits x }
    ensures ok { OnOk result (bytes_in put.new ≡ bytes_in put.old ++ list_bytes T.bytes_of items.now) }
    ensures vector { KeepsVector put.old put.new }
{
    put.put_u32(items.len() as u32)?;
    for item in items {
        item.put(put)?;
    }
    Ok(())
}

/// Appends the members of a list of a block.
#[tactic(auto, unfolding(saved_fields::specs::Bytes::list_bytes))]
pub fn put_members(put: &mut Put<'_>, block: &Block, list: ListOf) -> Result<(), AllocError>
    requires { IsShort (list_at list block.now.block) }
    ensures ok { OnOk result (bytes_in put.new ≡ bytes_in put.old ++ list_bytes u32_bytes (list_at list block.now.block)) }
    ensures vector { KeepsVector put.old put.new }
{
    put.put_u32(count_members(block, list))?;
    for member in block.walk(list) {
        put.put_u32(member)?;
    }
    Ok(())
}

/// Appends the terminals of a net.
#[tactic(auto, unfolding(saved_fields::specs::Bytes::list_bytes))]
pub fn put_terms(put: &mut Put<'_>, block: &Block, net: NetId) -> Result<(), AllocError>
    requires { IsShort (list_at (ListOf.Terms net) block.now.block) }
    ensures ok { OnOk result (bytes_in put.new ≡ bytes_in put.old ++ list_bytes term_bytes (list_at (ListOf.Terms net) block.now.block)) }
    ensures vector { KeepsVector put.old put.new }
{
    put.put_u32(count_members(block, ListOf::Terms(net)))?;
    for term in block.walk(ListOf::Terms(net)) {
        put_term(put, term)?;
    }
    Ok(())
}

fn count_members(block: &Block, list: ListOf) -> u32
    requires { IsShort (list_at list block.now.block) }
    ensures { result ≡ length (list_at list block.now.block) }
{
    block.walk(list).count() as u32
}
