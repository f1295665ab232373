ghost use Rattle.std.specs.Prelude.{◌≡◌};
ghost use Rattle.saved_reader.specs.Entries.{bterm_entry, inst_entry, net_entry};
ghost use Rattle.saved_reader.specs.Objects.{block_direction_field, bterm_format, inst_format, iterm_format, net_format};
ghost use Rattle.saved_fields.specs.Reading.{Reads};

use crate::lists::{Spelled, get_ids, get_list, get_terms};
use crate::saves::{SavesObject, put_list, put_members, put_terms};
use block_records::{BTermRec, ITermRec, InstRec, NetRec};
use block_store::{BTermEntry, Block, InstEntry, ListOf, NetEntry};
use odb_base::{BTermId, Coded, Direction, Kind, NetId};
use odb_fields::{Get, Put};
use saved_fields::ReadFault;
use saved_fields::fields::{
    get_coded, get_flag, get_id, get_name, get_no_text, get_number, put_flag,
};
use saved_fields::parts::{get_place, put_place};
use std::alloc::{AllocError, Global};

impl Spelled for InstEntry {
    ghost format = { inst_format };

    #[tactic(auto, unfolding(crate::specs::Objects::inst_format))]
    fn get(alloc: Global, input: &mut Get<'_>) -> Result<InstEntry, ReadFault> {
        let name = get_name(alloc, input)?;
        let master = get_id(input)?;
        let place = get_place(input)?;
        let group = get_number(input, 0, 0)?;
        let terminals = get_list(alloc, input, u32::MAX)?;
        let props = get_ids(alloc, input, 0)?;
        let kept = get_no_text(alloc, input)?;
        let fields = InstRec {
            name,
            master,
            place,
            group,
            terminals,
            kept,
        };
        Ok(InstEntry { fields, props })
    }
}

impl SavesObject for InstRec {
    ghost bytes_of = { λ id r b. inst_format.bytes (inst_entry id r b) };

    ghost fits = { λ id r b. inst_format.Has (inst_entry id r b) };

    #[tactic(auto, unfolding(crate::specs::Objects::inst_format))]
    fn put(&self, put: &mut Put<'_>, block: &Block, id: u32) -> Result<(), AllocError> {
        put.put_text(self.name.bytes())?;
        put.put_u32(self.master)?;
        put_place(put, &self.place)?;
        put.put_u32(self.group)?;
        put_list(put, self.terminals.items())?;
        put_members(put, block, ListOf::Props(Kind::Inst, id))?;
        put.put_text(self.kept.bytes())?;
        Ok(())
    }
}

impl Spelled for ITermRec {
    ghost format = { iterm_format };

    #[tactic(auto, unfolding(crate::specs::Objects::iterm_format))]
    fn get(_alloc: Global, input: &mut Get<'_>) -> Result<ITermRec, ReadFault> {
        let inst = get_id(input)?;
        let index = get_id(input)?;
        let net = get_id(input)?;
        Ok(ITermRec { inst, index, net })
    }
}

impl SavesObject for ITermRec {
    ghost bytes_of = { λ _ r _. iterm_format.bytes r };

    ghost fits = { λ _ r _. iterm_format.Has r };

    #[tactic(auto, unfolding(crate::specs::Objects::iterm_format))]
    fn put(&self, put: &mut Put<'_>, _block: &Block, _id: u32) -> Result<(), AllocError> {
        put.put_u32(self.inst)?;
        put.put_u32(self.index)?;
        put.put_u32(self.net)?;
        Ok(())
    }
}

impl Spelled for NetEntry {
    ghost format = { net_format };

    #[tactic(auto, unfolding(crate::specs::Objects::net_format))]
    fn get(alloc: Global, input: &mut Get<'_>) -> Result<NetEntry, ReadFault> {
        let name = get_name(alloc, input)?;
        let usage = get_coded(input)?;
        let special = get_flag(input)?;
        let terms = get_terms(alloc, input)?;
        let wires = get_ids(alloc, input, 0)?;
        let props = get_ids(alloc, input, 0)?;
        let kept = get_no_text(alloc, input)?;
        let special_kept = get_no_text(alloc, input)?;
        let fields = NetRec {
            name,
            usage,
            special,
            kept,
            special_kept,
        };
        Ok(NetEntry {
            fields,
            terms,
            wires,
            props,
        })
    }
}

impl SavesObject for NetRec {
    ghost bytes_of = { λ id r b. net_format.bytes (net_entry id r b) };

    ghost fits = { λ id r b. net_format.Has (net_entry id r b) };

    #[tactic(auto, unfolding(crate::specs::Objects::net_format))]
    fn put(&self, put: &mut Put<'_>, block: &Block, id: u32) -> Result<(), AllocError> {
        put.put_text(self.name.bytes())?;
        put.put_u8(self.usage.code())?;
        put_flag(put, self.special)?;
        put_terms(put, block, NetId(id))?;
        put_members(put, block, ListOf::Wires(NetId(id)))?;
        put_members(put, block, ListOf::Props(Kind::Net, id))?;
        put.put_text(self.kept.bytes())?;
        put.put_text(self.special_kept.bytes())?;
        Ok(())
    }
}

impl Spelled for BTermEntry {
    ghost format = { bterm_format };

    #[tactic(auto, unfolding(crate::specs::Objects::bterm_format))]
    fn get(alloc: Global, input: &mut Get<'_>) -> Result<BTermEntry, ReadFault> {
        let name = get_name(alloc, input)?;
        let net = get_id(input)?;
        let direction = get_block_direction(input)?;
        let usage = get_coded(input)?;
        let pins = get_ids(alloc, input, 0)?;
        let kept = get_no_text(alloc, input)?;
        let fields = BTermRec {
            name,
            net,
            direction,
            usage,
            kept,
        };
        Ok(BTermEntry { fields, pins })
    }
}

impl SavesObject for BTermRec {
    ghost bytes_of = { λ id r b. bterm_format.bytes (bterm_entry id r b) };

    ghost fits = { λ id r b. bterm_format.Has (bterm_entry id r b) };

    #[tactic(auto, unfolding(crate::specs::Objects::bterm_format, crate::specs::Objects::block_direction_field))]
    fn put(&self, put: &mut Put<'_>, block: &Block, id: u32) -> Result<(), AllocError> {
        put.put_text(self.name.bytes())?;
        put.put_u32(self.net)?;
        put.put_u8(self.direction.code())?;
        put.put_u8(self.usage.code())?;
        put_members(put, block, ListOf::Pins(BTermId(id)))?;
        put.put_text(self.kept.bytes())?;
        Ok(())
    }
}

// Reads a direction that a terminal of the block may have.
#[tactic(auto, unfolding(crate::specs::Objects::block_direction_field))]
fn get_block_direction(input: &mut Get<'_>) -> Result<Direction, ReadFault>
    ensures { Reads result (block_direction_field.at input.old) input.new }
{
    let at = input.place();
    let direction: Direction = get_coded(input)?;
    if direction.fits_bterm() {
        Ok(direction)
    } else {
        Err(ReadFault::BadField { at })
    }
}
