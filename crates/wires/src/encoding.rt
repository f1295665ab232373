ghost use Rattle.std.specs.Prelude.{◌≡◌, ◌++◌, ◌<◌, ◌^◌, All, IfOk, OnOk, length};
ghost use Rattle.odb_fields.specs.Fields.{i32_bytes};
ghost use Rattle.odb_fields.specs.Putting.{bytes_in, KeepsVector};
ghost use Rattle.wires.specs.Paths.{IsShort, element_piece, head_of, path_bytes, paths_bytes, taper_code, taper_rule};
ghost use Rattle.wires.specs.Pieces.{Point, Rect, ext_bytes, field_bytes, orient_byte, piece_bytes};

use crate::path::{Element, Path, Paths, Taper, ViaRef};
use odb_base::{Coded, Orient, WireCode};
use odb_fields::Put;
use std::alloc::{AllocError, Global};

/// The code of paths: the elements of each, one after another, each as a byte that says which and its fields.
pub fn encode(alloc: Global, paths: &Paths) -> Result<WireCode, AllocError>
    requires { All IsShort paths.now }
    ensures { IfOk result (λ code. code ≡ paths_bytes paths.now) }
{
    let mut bytes = Vec::new(alloc);
    for path in paths.items() {
        put_path(&mut bytes, path)?;
    }
    Ok(WireCode::from_vec(bytes))
}

fn put_path(out: &mut Vec<u8>, path: &Path<u32, ViaRef>) -> Result<(), AllocError>
    requires { IsShort path.now }
    ensures { OnOk result (out.new.items ≡ out.old.items ++ path_bytes path.now) }
{
    put_head(out, path)?;
    for element in path.elements.items() {
        put_element(out, element)?;
    }
    Ok(())
}

// A path without its elements.
#[tactic(auto, unfolding(crate::specs::Pieces::field_bytes))]
fn put_head(out: &mut Vec<u8>, path: &Path<u32, ViaRef>) -> Result<(), AllocError>
    requires { IsShort path.now }
    ensures { OnOk result (out.new.items ≡ out.old.items ++ piece_bytes (head_of path.now)) }
{
    let (taper, rule) = taper_fields(&path.taper);
    let mut fields = Put::new(out);
    fields.put_u8(1)?;
    fields.put_u32(path.layer)?;
    fields.put_i32(path.width)?;
    fields.put_text(path.shape.bytes())?;
    fields.put_u8(taper)?;
    fields.put_text(rule)
}

// The number of a taper and its rule, which is empty for none.
fn taper_fields(taper: &Taper) -> (u8, &[u8])
    ensures code { result.0 ≡ taper_code taper.now }
    ensures rule { result.1.now ≡ taper_rule taper.now }
{
    match taper {
        Taper::None => (0, &[]),
        Taper::Layer => (1, &[]),
        Taper::Rule(rule) => (2, rule.bytes()),
    }
}

fn put_element(out: &mut Vec<u8>, element: &Element<ViaRef>) -> Result<(), AllocError>
    ensures { OnOk result (out.new.items ≡ out.old.items ++ piece_bytes (element_piece element.now)) }
{
    let mut fields = Put::new(out);
    match element {
        Element::Point { x, y, ext } => {
            fields.put_u8(2)?;
            put_point(&mut fields, x, y, *ext)
        }
        Element::Via { via, orient } => {
            fields.put_u8(3)?;
            put_via(&mut fields, *via, *orient)
        }
        Element::Rect { dx1, dy1, dx2, dy2 } => {
            fields.put_u8(4)?;
            put_rect(&mut fields, dx1, dy1, dx2, dy2)
        }
    }
}

#[tactic(auto, unfolding(crate::specs::Pieces::field_bytes))]
fn put_point(fields: &mut Put<'_>, x: &i32, y: &i32, ext: Option<i32>) -> Result<(), AllocError>
    ensures ok { OnOk result (bytes_in fields.new
        ≡ bytes_in fields.old ++ field_bytes (Point x.now y.now ext)) }
    ensures vector { KeepsVector fields.old fields.new }
{
    put_pair(fields, x, y)?;
    put_ext(fields, ext)
}

#[tactic(auto, unfolding(crate::specs::Pieces::field_bytes))]
fn put_rect(
    fields: &mut Put<'_>,
    dx1: &i32,
    dy1: &i32,
    dx2: &i32,
    dy2: &i32,
) -> Result<(), AllocError>
    ensures ok { OnOk result (bytes_in fields.new
        ≡ bytes_in fields.old ++ field_bytes (Rect dx1.now dy1.now dx2.now dy2.now)) }
    ensures vector { KeepsVector fields.old fields.new }
{
    put_pair(fields, dx1, dy1)?;
    put_pair(fields, dx2, dy2)
}

fn put_pair(fields: &mut Put<'_>, x: &i32, y: &i32) -> Result<(), AllocError>
    ensures ok { OnOk result (bytes_in fields.new
        ≡ bytes_in fields.old ++ (i32_bytes x.now ++ i32_bytes y.now)) }
    ensures vector { KeepsVector fields.old fields.new }
{
    fields.put_i32(*x)?;
    fields.put_i32(*y)
}

fn put_ext(fields: &mut Put<'_>, ext: Option<i32>) -> Result<(), AllocError>
    ensures ok { OnOk result (bytes_in fields.new ≡ bytes_in fields.old ++ ext_bytes ext) }
    ensures vector { KeepsVector fields.old fields.new }
{
    match ext {
        None => fields.put_u8(0),
        Some(ext) => {
            fields.put_u8(1)?;
            fields.put_i32(ext)
        }
    }
}

#[tactic(auto, unfolding(crate::specs::Pieces::field_bytes))]
fn put_via(fields: &mut Put<'_>, via: ViaRef, orient: Option<Orient>) -> Result<(), AllocError>
    ensures ok { OnOk result (bytes_in fields.new ≡ bytes_in fields.old ++ field_bytes (element_piece (Element.Via via orient))) }
    ensures vector { KeepsVector fields.old fields.new }
{
    match via {
        ViaRef::Tech(via) => {
            fields.put_u8(0)?;
            fields.put_u32(via)?;
        }
        ViaRef::Block(via) => {
            fields.put_u8(1)?;
            fields.put_u32(via)?;
        }
    }
    fields.put_u8(byte_of_orient(orient))
}

fn byte_of_orient(orient: Option<Orient>) -> u8
    ensures { result ≡ orient_byte orient }
{
    match orient {
        None => 0,
        Some(orient) => orient.code() + 1,
    }
}
