ghost use Rattle.std.specs.Prelude.{◌≡◌, ◌++◌, OnOk};
ghost use Rattle.odb_fields.specs.Putting.{KeepsVector, bytes_in};
ghost use Rattle.block_records.specs.Header.{new_header};
ghost use Rattle.saved_fields.specs.Bytes.{option_bytes, rect_bytes};
ghost use Rattle.saved_reader.specs.Fits.{IsShort};
ghost use Rattle.saved_reader.specs.Header.{definition_bytes, header_format, via_bytes};
ghost use Rattle.saved_fields.specs.Reading.{Reads};

use crate::lists::get_no_list;
use crate::saves::{Saves, put_list};
use block_records::{BlockVia, Header, PropDef};
use odb_base::{Coded, Rect};
use odb_fields::{Get, Put};
use saved_fields::ReadFault;
use saved_fields::fields::{get_no_text, get_word};
use saved_fields::parts::{get_absent, put_rect};
use std::alloc::{AllocError, Global};

/// Reads the header, which is that of a new block yet.
#[tactic(auto, unfolding(crate::specs::Header::header_format))]
pub fn get_header(alloc: Global, input: &mut Get<'_>) -> Result<Header, ReadFault>
    ensures { Reads result (header_format.at input.old) input.new }
{
    let design = get_no_text(alloc, input)?;
    let divider = get_word(alloc, input, b"/")?;
    let bus = get_word(alloc, input, b"[]")?;
    let die = get_absent(input)?;
    let definitions = get_no_list(alloc, input)?;
    let vias = get_no_list(alloc, input)?;
    Ok(Header {
        design,
        divider,
        bus,
        die,
        definitions,
        vias,
    })
}

/// Appends the header.
#[tactic(auto, unfolding(crate::specs::Header::header_format))]
pub fn put_header(put: &mut Put<'_>, header: &Header) -> Result<(), AllocError>
    requires { header.now ≡ new_header }
    ensures ok { OnOk result (bytes_in put.new ≡ bytes_in put.old ++ header_format.bytes header.now) }
    ensures vector { KeepsVector put.old put.new }
{
    put.put_text(header.design.bytes())?;
    put.put_text(header.divider.bytes())?;
    put.put_text(header.bus.bytes())?;
    put_die(put, &header.die)?;
    put_list(put, header.definitions.items())?;
    put_list(put, header.vias.items())?;
    Ok(())
}

#[tactic(auto, unfolding(saved_fields::specs::Bytes::option_bytes))]
fn put_die(put: &mut Put<'_>, die: &Option<Rect>) -> Result<(), AllocError>
    ensures ok { OnOk result (bytes_in put.new ≡ bytes_in put.old ++ option_bytes rect_bytes die.now) }
    ensures vector { KeepsVector put.old put.new }
{
    match die {
        None => put.put_u8(0),
        Some(rect) => {
            put.put_u8(1)?;
            put_rect(put, rect)
        }
    }
}

impl Saves for PropDef {
    ghost bytes_of = { definition_bytes };

    ghost fits = { λ definition. IsShort definition.rest };

    #[tactic(auto, unfolding(crate::specs::Header::definition_bytes))]
    fn put(&self, put: &mut Put<'_>) -> Result<(), AllocError> {
        put.put_u8(self.owner.code())?;
        put.put_u8(self.sort.code())?;
        put.put_text(self.name.bytes())?;
        put.put_text(self.rest.bytes())?;
        Ok(())
    }
}

impl Saves for BlockVia {
    ghost bytes_of = { via_bytes };

    ghost fits = { λ via. IsShort via.kept };

    #[tactic(auto, unfolding(crate::specs::Header::via_bytes))]
    fn put(&self, put: &mut Put<'_>) -> Result<(), AllocError> {
        put.put_text(self.name.bytes())?;
        put.put_text(self.kept.bytes())?;
        Ok(())
    }
}
