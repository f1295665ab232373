ghost use Rattle.std.specs.Prelude.{◌≡◌, ◌++◌, OnOk};
ghost use Rattle.lawful_parts.specs.Lawful.{IsTechnology};
ghost use Rattle.odb_fields.specs.Putting.{KeepsVector, bytes_in};
ghost use Rattle.saved_reader.specs.Technology.{tech_format};

use crate::lists::put_named;
use odb_fields::Put;
use std::alloc::AllocError;
use tech::Tech;

// The units, and layers, vias and sites.
#[tactic(auto, unfolding(saved_reader::specs::Technology::tech_format))]
pub fn put_tech(put: &mut Put<'_>, tech: &Tech) -> Result<(), AllocError>
    requires { IsTechnology tech.now }
    ensures ok { OnOk result (bytes_in put.new ≡ bytes_in put.old ++ tech_format.bytes tech.now) }
    ensures vector { KeepsVector put.old put.new }
{
    put.put_u32(tech.units())?;
    put_named(put, tech.layers())?;
    put_named(put, tech.vias())?;
    put_named(put, tech.sites())?;
    Ok(())
}
