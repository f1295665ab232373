ghost use Rattle.saved_fields.specs.FieldFormats.{id_field};
ghost use Rattle.saved_fields.specs.Fields.{id_at};
ghost use Rattle.saved_fields.specs.Format.{Format};
ghost use Rattle.saved_fields.specs.PartFormats.{optional, rect_field, shape_format};
ghost use Rattle.saved_fields.specs.Parts.{filled_list_at, list_at, no_list_at, term_at};
ghost use Rattle.saved_fields.specs.Reading.{Reads, ReadsAs, many_at};

use crate::saves::Saves;
use block_store::Ids;
use odb_base::{LayerId, List, Rect, Shape};
use odb_fields::{Get, Put};
use saved_fields::ReadFault;
use saved_fields::fields::{get_flag, get_id, get_number};
use saved_fields::parts::{get_rect, get_term, put_rect};
use std::alloc::{AllocError, Global};

/// The greatest number of rectangles in one list, by themselves or on layers.
pub const RECT_LIMIT: u32 = 1_000_000;

/// What stands in the saved stream as an item of a list.
pub trait Spelled: Drop {
    // Its fields, and how they are read.
    ghost format: { Format Self };

    /// Reads an item.
    fn get(alloc: Global, input: &mut Get<'_>) -> Result<Self, ReadFault>
        ensures { Reads result (format.at input.old) input.new };
}

impl Spelled for u32 {
    ghost format = { id_field };

    fn get(_alloc: Global, input: &mut Get<'_>) -> Result<u32, ReadFault> {
        get_id(input)
    }
}

impl Spelled for Rect {
    ghost format = { rect_field };

    fn get(_alloc: Global, input: &mut Get<'_>) -> Result<Rect, ReadFault> {
        get_rect(input)
    }
}

impl Spelled for Shape {
    ghost format = { shape_format };

    #[tactic(auto, unfolding(saved_fields::specs::PartFormats::shape_format))]
    fn get(_alloc: Global, input: &mut Get<'_>) -> Result<Shape, ReadFault> {
        let layer = get_id(input)?;
        let rect = get_rect(input)?;
        Ok(Shape {
            layer: LayerId(layer),
            rect,
        })
    }
}

impl Saves for Shape {
    ghost bytes_of = { shape_format.bytes };

    ghost fits = { λ _. Unit {0} };

    #[tactic(auto, unfolding(saved_fields::specs::PartFormats::shape_format))]
    fn put(&self, put: &mut Put<'_>) -> Result<(), AllocError> {
        put.put_u32(self.layer.0)?;
        put_rect(put, &self.rect)?;
        Ok(())
    }
}

impl Saves for Rect {
    ghost bytes_of = { rect_field.bytes };

    ghost fits = { λ _. Unit {0} };

    fn put(&self, put: &mut Put<'_>) -> Result<(), AllocError> {
        put_rect(put, self)
    }
}

impl<T: Spelled> Spelled for Option<T> {
    ghost format = { optional T.format };

    #[tactic(auto, unfolding(saved_fields::specs::Parts::option_at))]
    fn get(alloc: Global, input: &mut Get<'_>) -> Result<Option<T>, ReadFault> {
        if get_flag(input)? {
            Ok(Some(T::get(alloc, input)?))
        } else {
            Ok(None)
        }
    }
}

/// Reads so many items. Room is made as they come, and not for all that are said to.
pub fn get_many<T: Spelled>(
    alloc: Global,
    input: &mut Get<'_>,
    count: u32,
) -> Result<Vec<T>, ReadFault>
    ensures { ReadsAs (λ items. items.items) result (many_at count T.format.at input.old) input.new }
{
    let mut items = Vec::new(alloc);
    for _ in 0..count {
        let item = T::get(alloc, input)?;
        items.push(item)?;
    }
    Ok(items)
}

/// Reads a list of at most so many items. Their number is judged before they are looked for.
#[tactic(auto, unfolding(saved_fields::specs::Parts::list_at))]
pub fn get_list<T: Spelled>(
    alloc: Global,
    input: &mut Get<'_>,
    most: u32,
) -> Result<List<T>, ReadFault>
    ensures { Reads result (list_at most T.format.at input.old) input.new }
{
    let count = get_number(input, 0, most)?;
    let items = get_many(alloc, input, count)?;
    Ok(List::from_vec(items))
}

/// Reads a list of at least one item, and of at most so many.
#[tactic(auto, unfolding(saved_fields::specs::Parts::filled_list_at))]
pub fn get_filled_list<T: Spelled>(
    alloc: Global,
    input: &mut Get<'_>,
    most: u32,
) -> Result<List<T>, ReadFault>
    ensures { Reads result (filled_list_at most T.format.at input.old) input.new }
{
    let count = get_number(input, 1, most)?;
    let items = get_many(alloc, input, count)?;
    Ok(List::from_vec(items))
}

/// Reads a list of at most so many identifiers.
#[tactic(auto, unfolding(saved_fields::specs::Parts::list_at))]
pub fn get_ids(alloc: Global, input: &mut Get<'_>, most: u32) -> Result<Ids, ReadFault>
    ensures { Reads result (list_at most id_at input.old) input.new }
{
    let count = get_number(input, 0, most)?;
    let ids = get_many(alloc, input, count)?;
    Ok(Ids::from_vec(ids))
}

/// Reads a list that has no items yet.
#[tactic(auto, unfolding(saved_fields::specs::Parts::no_list_at))]
pub fn get_no_list<T>(alloc: Global, input: &mut Get<'_>) -> Result<List<T>, ReadFault>
    ensures { Reads result (no_list_at input.old) input.new }
{
    get_number(input, 0, 0)?;
    Ok(List::new(alloc))
}

/// Reads the terminals of a net.
#[tactic(auto, unfolding(saved_fields::specs::Parts::list_at))]
pub fn get_terms(alloc: Global, input: &mut Get<'_>) -> Result<Ids, ReadFault>
    ensures { Reads result (list_at u32.MAX term_at input.old) input.new }
{
    let count = get_number(input, 0, u32::MAX)?;
    let numbers = get_term_numbers(alloc, input, count)?;
    Ok(Ids::from_vec(numbers))
}

fn get_term_numbers(alloc: Global, input: &mut Get<'_>, count: u32) -> Result<Vec<u32>, ReadFault>
    ensures { ReadsAs (λ numbers. numbers.items) result (many_at count term_at input.old) input.new }
{
    let mut numbers = Vec::new(alloc);
    for _ in 0..count {
        let number = get_term(input)?;
        numbers.push(number)?;
    }
    Ok(numbers)
}
