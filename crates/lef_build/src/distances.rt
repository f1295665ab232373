ghost use Rattle.std.specs.Prelude.{◌≡◌, ◌≢◌, Some};
ghost use Rattle.lef_build.specs.Answers.{IsMade};
ghost use Rattle.lef_build.specs.Distances.{distance_of, has_corners, in_units, is_distance, is_size, rect_of};

use crate::fault::BuildFault;
use ld_forms::ShortText;
use ld_words::to_units;
use lef_tree::LefRect;
use odb_base::{Name, Rect};

/// A distance of the item of this name in database units, 0 where none is stated.
#[tactic(auto, unfolding(crate::specs::Distances::is_distance, crate::specs::Distances::in_units))]
pub fn distance(units: u32, name: &Name, stated: &Option<ShortText>) -> Result<i32, BuildFault>
    ensures { IsMade name.now (is_distance units stated.now) (in_units units stated.now) result }
{
    match stated {
        Some(word) => coordinate(units, name, word),
        None => Ok(0),
    }
}

/// The same where one is stated.
#[tactic(auto, unfolding(crate::specs::Distances::is_distance, crate::specs::Distances::in_units))]
pub fn coordinate(units: u32, name: &Name, word: &ShortText) -> Result<i32, BuildFault>
    ensures { IsMade name.now (is_distance units (Some word.now)) (in_units units (Some word.now)) result }
{
    match number(units, word) {
        Some(number) => Ok(number),
        None => Err(bad_value(name)),
    }
}

fn number(units: u32, word: &ShortText) -> Option<i32>
    ensures { result ≡ distance_of units (Some word.now) }
{
    let number = to_units(word.bytes(), units).ok()?;
    i32::try_from(number).ok()
}

/// A size of the item of this name: a distance that isn't negative.
#[tactic(auto, unfolding(crate::specs::Distances::is_size))]
pub fn size(units: u32, name: &Name, stated: &Option<ShortText>) -> Result<i32, BuildFault>
    ensures { IsMade name.now (is_size units stated.now) (in_units units stated.now) result }
{
    let number = distance(units, name, stated)?;
    if number < 0 {
        return Err(bad_value(name));
    }
    Ok(number)
}

/// The rectangle of two corners, which come in any order.
#[tactic(auto, unfolding(crate::specs::Distances::has_corners, crate::specs::Distances::rect_of))]
pub fn rect(units: u32, name: &Name, corners: &LefRect) -> Result<Rect, BuildFault>
    ensures { IsMade name.now (has_corners units corners.now) (rect_of units corners.now) result }
{
    let x1 = coordinate(units, name, &corners.x1)?;
    let y1 = coordinate(units, name, &corners.y1)?;
    let x2 = coordinate(units, name, &corners.x2)?;
    let y2 = coordinate(units, name, &corners.y2)?;
    Ok(Rect {
        xl: x1.min(x2),
        yl: y1.min(y2),
        xh: x1.max(x2),
        yh: y1.max(y2),
    })
}

// A value of the item of this name isn't good.
fn bad_value(name: &Name) -> BuildFault
    ensures { result ≢ BuildFault.Memory → result ≡ BuildFault.BadValue name.now }
{
    match name.try_clone() {
        Ok(name) => BuildFault::BadValue { name },
        Err(_) => BuildFault::Memory,
    }
}
