ghost use Rattle.std.specs.Prelude.{◌≡◌, ◌==◌, ◌-◌, ◌<◌, IfNone, IfOk, IfSome, length};
ghost use Rattle.odb_fields.specs.Bytes.{AreBytes};
ghost use Rattle.wires.specs.Fields.{Reads};
ghost use Rattle.wires.specs.Pieces.{orient_of, piece_of};
ghost use Rattle.wires.specs.Reading.{coordinate_at, due_after as after, ext_at, item_at, kinds, layer_at, point_at, rect_at, stated_at, via_at};

use crate::fault::WireFault;
use crate::fields::{LIMIT, TextSort, get_byte, get_distance, get_id, get_text};
use crate::item::Item;
use crate::limits::Limits;
use odb_base::{Coded, Orient};
use odb_fields::Get;

/// Which elements may stand next in a code.
#[derive(Clone, Copy, Debug, PartialEq, Eq)]
pub enum Due {
    /// A layer, at the beginning.
    Layer,
    /// A point, after a layer.
    Point,
    /// Any, and the code may end.
    Any,
}

impl Due {
    /// The least and the greatest byte by which an element may begin that stands next.
    fn kinds(self) -> (u8, u8)
        ensures { result ≡ kinds self }
    {
        match self {
            Due::Layer => (1, 1),
            Due::Point => (2, 2),
            Due::Any => (1, 4),
        }
    }

    /// What must follow an element.
    pub fn after(item: &Item<'_>) -> Due
        ensures { result ≡ after (piece_of item.now) }
    {
        match item {
            Item::Layer { .. } => Due::Point,
            Item::Point { .. } | Item::Via { .. } | Item::Rect { .. } => Due::Any,
        }
    }
}

/// The elements of a code, one after another, by limits for the numbers in it.
#[derive(Debug, Drop)]
pub struct Elements<'a> {
    input: Get<'a>,
    size: u64,
    due: Due,
    ghost whole: { size ≡ length input.bytes },
    ghost are: { AreBytes input.bytes },
}

impl<'a> Elements<'a> {
    ghost use Rattle.wires.specs.Reading.{Ends, GivesItem};

    /// Stands before the first element.
    pub fn new(code: &'a [u8]) -> Elements<'a>
        ensures input { result.input ≡ record { bytes = code.now; place = 0 } }
        ensures due { result.due ≡ Due.Layer }
    {
        Elements {
            input: Get::new(code),
            size: code.len() as u64,
            due: Due::Layer,
        }
    }

    /// The next element, or nothing at the end. After a fault nothing is promised of the next one.
    pub fn next(&mut self, limits: Limits) -> Result<Option<Item<'a>>, WireFault>
        ensures value { GivesItem limits self.old.due self.old.input result self.new.due self.new.input }
        ensures falls { IfOk result (λ o. IfSome o (λ _.
            length self.new.input.bytes - self.new.input.place < length self.old.input.bytes - self.old.input.place)) }
        ensures stays { IfOk result (λ o. IfNone o ((self.new.input ≡ self.old.input) × (self.new.due ≡ self.old.due))) }
    {
        if self.input.place() == self.size {
            return self.end();
        }
        let item = get_item(&mut self.input, limits, self.due)?;
        self.due = Due::after(&item);
        Ok(Some(item))
    }

    // The end of the code, where nothing more may be due.
    fn end(&self) -> Result<Option<Item<'a>>, WireFault>
        ensures { Ends self.now.due self.now.input result }
    {
        match self.due {
            Due::Any => Ok(None),
            Due::Layer | Due::Point => Err(WireFault::At {
                at: self.input.place(),
            }),
        }
    }
}

/// Reads an element of those that may stand next.
#[tactic(auto, unfolding(crate::specs::Reading::item_at))]
pub fn get_item<'a>(input: &mut Get<'a>, limits: Limits, due: Due) -> Result<Item<'a>, WireFault>
    ensures value { Reads piece_of result (item_at limits due input.old) input.new }
    ensures bytes { input.new.bytes ≡ input.old.bytes }
{
    let (least, most) = due.kinds();
    let kind = get_byte(input, least, most)?;
    match kind {
        1 => get_layer(input, limits),
        2 => get_point(input),
        3 => get_via(input, limits),
        _ => get_rect(input),
    }
}

#[tactic(auto, unfolding(crate::specs::Reading::layer_at))]
fn get_layer<'a>(input: &mut Get<'a>, limits: Limits) -> Result<Item<'a>, WireFault>
    ensures value { Reads piece_of result (layer_at limits input.old) input.new }
    ensures bytes { input.new.bytes ≡ input.old.bytes }
{
    let layer = get_id(input, limits.layers)?;
    let width = get_distance(input, 0)?;
    let shape = get_text(input, TextSort::NameOrEmpty)?;
    let taper = get_byte(input, 0, 2)?;
    let sort = if taper == 2 {
        TextSort::Name
    } else {
        TextSort::Empty
    };
    let rule = get_text(input, sort)?;
    Ok(Item::Layer {
        layer,
        width,
        shape,
        taper,
        rule,
    })
}

#[tactic(auto, unfolding(crate::specs::Reading::point_at))]
fn get_point<'a>(input: &mut Get<'a>) -> Result<Item<'a>, WireFault>
    ensures value { Reads piece_of result (point_at input.old) input.new }
    ensures bytes { input.new.bytes ≡ input.old.bytes }
{
    let x = get_coordinate(input)?;
    let y = get_coordinate(input)?;
    let ext = get_ext(input)?;
    Ok(Item::Point { x, y, ext })
}

#[tactic(auto, unfolding(crate::specs::Reading::ext_at))]
fn get_ext(input: &mut Get<'_>) -> Result<Option<i32>, WireFault>
    ensures value { Reads (λ ext. ext) result (ext_at input.old) input.new }
    ensures bytes { input.new.bytes ≡ input.old.bytes }
{
    if get_byte(input, 0, 1)? == 1 {
        get_stated(input)
    } else {
        Ok(None)
    }
}

#[tactic(auto, unfolding(crate::specs::Reading::stated_at))]
fn get_stated(input: &mut Get<'_>) -> Result<Option<i32>, WireFault>
    ensures value { Reads (λ ext. ext) result (stated_at input.old) input.new }
    ensures bytes { input.new.bytes ≡ input.old.bytes }
{
    let ext = get_distance(input, 0)?;
    Ok(Some(ext))
}

#[tactic(auto, unfolding(crate::specs::Reading::coordinate_at))]
fn get_coordinate(input: &mut Get<'_>) -> Result<i32, WireFault>
    ensures value { Reads (λ z. z) result (coordinate_at input.old) input.new }
    ensures bytes { input.new.bytes ≡ input.old.bytes }
{
    get_distance(input, -LIMIT)
}

#[tactic(auto, unfolding(crate::specs::Reading::via_at))]
fn get_via<'a>(input: &mut Get<'a>, limits: Limits) -> Result<Item<'a>, WireFault>
    ensures value { Reads piece_of result (via_at limits input.old) input.new }
    ensures bytes { input.new.bytes ≡ input.old.bytes }
{
    let block = get_byte(input, 0, 1)? == 1;
    let via = get_id(input, limits.vias(block))?;
    let orient = orient_of_byte(get_byte(input, 0, 8)?);
    Ok(Item::Via { block, via, orient })
}

fn orient_of_byte(byte: u8) -> Option<Orient>
    ensures { result ≡ orient_of byte }
{
    if byte == 0 {
        None
    } else {
        Orient::from_code(byte - 1)
    }
}

#[tactic(auto, unfolding(crate::specs::Reading::rect_at))]
fn get_rect<'a>(input: &mut Get<'a>) -> Result<Item<'a>, WireFault>
    ensures value { Reads piece_of result (rect_at input.old) input.new }
    ensures bytes { input.new.bytes ≡ input.old.bytes }
{
    let dx1 = get_coordinate(input)?;
    let dy1 = get_coordinate(input)?;
    let dx2 = get_coordinate(input)?;
    let dy2 = get_coordinate(input)?;
    Ok(Item::Rect { dx1, dy1, dx2, dy2 })
}
