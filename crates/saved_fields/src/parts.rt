ghost use Rattle.std.specs.Prelude.{◌≡◌, ◌++◌, OnOk};
ghost use Rattle.odb_fields.specs.Putting.{KeepsVector, bytes_in};
ghost use Rattle.saved_fields.specs.Bytes.{place_bytes, rect_bytes, term_bytes};
ghost use Rattle.saved_fields.specs.Fields.{distance_at};
ghost use Rattle.saved_fields.specs.Parts.{absent_at, may_be_turned, may_stand, place_at, rect_at, term_at, term_number, turn_at, fitting as fitting_number};
ghost use Rattle.saved_fields.specs.Reading.{Reads};

use crate::fault::ReadFault;
use crate::fields::{get_coded, get_coordinate, get_from, get_id, in_limit, put_distance};
use odb_base::{Coded, Kind, Orient, PlaceStatus, Placement, Rect};
use odb_fields::{Get, Put};
use std::alloc::AllocError;

/// Reads a rectangle: its lower left corner, and its upper right one, which is neither left of it nor below it.
#[tactic(auto, unfolding(crate::specs::Parts::rect_at))]
pub fn get_rect(input: &mut Get<'_>) -> Result<Rect, ReadFault>
    ensures { Reads result (rect_at input.old) input.new }
{
    let xl = get_coordinate(input)?;
    let yl = get_coordinate(input)?;
    let xh = get_from(input, xl)?;
    let yh = get_from(input, yl)?;
    Ok(Rect { xl, yl, xh, yh })
}

/// Reads a placement: the status, the point, and the orientation.
#[tactic(auto, unfolding(crate::specs::Parts::place_at))]
pub fn get_place(input: &mut Get<'_>) -> Result<Placement, ReadFault>
    ensures { Reads result (place_at input.old) input.new }
{
    let status = get_coded(input)?;
    let x = get_stand(input, status)?;
    let y = get_stand(input, status)?;
    let orientation = get_turn(input, status)?;
    Ok(Placement {
        status,
        x,
        y,
        orientation,
    })
}

// Reads a coordinate of what has this status.
#[tactic(auto, unfolding(crate::specs::Fields::distance_at))]
fn get_stand(input: &mut Get<'_>, status: PlaceStatus) -> Result<i32, ReadFault>
    ensures { Reads result (distance_at (may_stand status) input.old) input.new }
{
    let at = input.place();
    let n = input.get_i32()?;
    if stands_at(status, n) {
        Ok(n)
    } else {
        Err(ReadFault::BadField { at })
    }
}

fn stands_at(status: PlaceStatus, n: i32) -> bool
    ensures { result ≡ may_stand status n }
{
    match status {
        PlaceStatus::Unplaced => n == 0,
        PlaceStatus::Placed => in_limit(n),
        PlaceStatus::Fixed => in_limit(n),
        PlaceStatus::Cover => in_limit(n),
    }
}

// Reads an orientation of what has this status.
#[tactic(auto, unfolding(crate::specs::Parts::turn_at))]
fn get_turn(input: &mut Get<'_>, status: PlaceStatus) -> Result<Orient, ReadFault>
    ensures { Reads result (turn_at status input.old) input.new }
{
    let at = input.place();
    let orientation = get_coded(input)?;
    if is_turned(status, orientation) {
        Ok(orientation)
    } else {
        Err(ReadFault::BadField { at })
    }
}

fn is_turned(status: PlaceStatus, orientation: Orient) -> bool
    ensures { result ≡ may_be_turned status orientation }
{
    match status {
        PlaceStatus::Unplaced => orientation as u8 == 0,
        PlaceStatus::Placed => true,
        PlaceStatus::Fixed => true,
        PlaceStatus::Cover => true,
    }
}

/// Reads a flag that says that nothing is stated yet.
#[tactic(auto, unfolding(crate::specs::Parts::absent_at))]
pub fn get_absent<T>(input: &mut Get<'_>) -> Result<Option<T>, ReadFault>
    ensures { Reads result (absent_at input.old) input.new }
{
    let at = input.place();
    let flag = input.get_u8()?;
    if flag == 0 {
        Ok(None)
    } else {
        Err(ReadFault::BadField { at })
    }
}

/// Reads a terminal of a net: its kind, and its identifier. What can't be a terminal has the number 0.
#[tactic(auto, unfolding(crate::specs::Parts::term_at))]
pub fn get_term(input: &mut Get<'_>) -> Result<u32, ReadFault>
    ensures { Reads result (term_at input.old) input.new }
{
    let kind = get_coded(input)?;
    let id = get_id(input)?;
    Ok(number_of(kind, id))
}

fn number_of(kind: Kind, id: u32) -> u32
    ensures { result ≡ term_number (kind, id) }
{
    match kind {
        Kind::ITerm => fitting(2 * id as u64),
        Kind::BTerm => fitting(2 * id as u64 + 1),
        _ => 0,
    }
}

fn fitting(number: u64) -> u32
    ensures { result ≡ fitting_number number }
{
    if number <= u32::MAX as u64 {
        number as u32
    } else {
        0
    }
}

/// Appends a rectangle.
#[tactic(auto, unfolding(crate::specs::Bytes::rect_bytes))]
pub fn put_rect(put: &mut Put<'_>, rect: &Rect) -> Result<(), AllocError>
    ensures ok { OnOk result (bytes_in put.new ≡ bytes_in put.old ++ rect_bytes rect.now) }
    ensures vector { KeepsVector put.old put.new }
{
    put_distance(put, &rect.xl)?;
    put_distance(put, &rect.yl)?;
    put_distance(put, &rect.xh)?;
    put_distance(put, &rect.yh)?;
    Ok(())
}

/// Appends a placement.
#[tactic(auto, unfolding(crate::specs::Bytes::place_bytes))]
pub fn put_place(put: &mut Put<'_>, place: &Placement) -> Result<(), AllocError>
    ensures ok { OnOk result (bytes_in put.new ≡ bytes_in put.old ++ place_bytes place.now) }
    ensures vector { KeepsVector put.old put.new }
{
    put.put_u8(place.status.code())?;
    put_distance(put, &place.x)?;
    put_distance(put, &place.y)?;
    put.put_u8(place.orientation.code())?;
    Ok(())
}

/// Appends a terminal of a net: an even number is twice an instance terminal, an odd one is of the block.
#[tactic(auto, unfolding(crate::specs::Bytes::term_bytes))]
pub fn put_term(put: &mut Put<'_>, number: u32) -> Result<(), AllocError>
    ensures ok { OnOk result (bytes_in put.new ≡ bytes_in put.old ++ term_bytes number) }
    ensures vector { KeepsVector put.old put.new }
{
    let kind = if number % 2 == 0 {
        Kind::ITerm
    } else {
        Kind::BTerm
    };
    put.put_u8(kind.code())?;
    put.put_u32(number / 2)?;
    Ok(())
}
