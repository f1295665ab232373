ghost use Rattle.std.specs.Prelude.{◌≡◌, IfOk};
ghost use Rattle.lef_drafts.specs.Drafts.{is_default, new_layer, new_macro, new_pin, new_site, new_via, opened, opened_by_name, opened_with_name};
ghost use Rattle.lef_drafts.specs.Values.{second_of};

use crate::draft::Draft;
use crate::values::name;
use ld_forms::Kept;
use lef_forms::{Keyword, Statement};
use lef_tree::{LefLayer, LefMacro, LefPin, LefPins, LefSite, LefVia};
use odb_base::{Direction, LayerDirection, LayerType, List, Name, SiteClass, Text, Usage};
use std::alloc::{AllocError, Global};

/// The section that a header at the top opens.
#[tactic(auto, unfolding(crate::specs::Drafts::opened))]
pub fn opened(alloc: Global, statement: Statement, values: &Kept) -> Result<Draft, AllocError>
    ensures { IfOk result (λ draft. draft ≡ opened statement values.now) }
{
    match statement {
        Statement::Units => Ok(Draft::Units(None)),
        _ => opened_by_name(alloc, statement, values),
    }
}

// The same of a header that has a name.
fn opened_by_name(alloc: Global, statement: Statement, values: &Kept) -> Result<Draft, AllocError>
    ensures { IfOk result (λ draft. draft ≡ opened_by_name statement values.now) }
{
    let default = has_default(values);
    match name(alloc, values)? {
        Some(name) => Ok(opened_with_name(alloc, statement, default, name)),
        None => Ok(Draft::Top),
    }
}

// Whether DEFAULT stands behind the name.
fn has_default(values: &Kept) -> bool
    ensures { result ≡ is_default (second_of values.now) }
{
    match values.get(1) {
        Some(word) => Keyword::Default.is(word),
        None => false,
    }
}

fn opened_with_name(alloc: Global, statement: Statement, default: bool, name: Name) -> Draft
    ensures { result ≡ opened_with_name statement default name }
{
    match statement {
        Statement::Layer => Draft::Layer(new_layer(name)),
        Statement::Via => Draft::Via {
            via: new_via(alloc, name, default),
            layer: None,
        },
        Statement::Site => Draft::Site(new_site(name)),
        Statement::Macro => Draft::Macro(new_macro(alloc, name)),
        _ => Draft::Top,
    }
}

// A layer of which only the name is stated.
fn new_layer(name: Name) -> LefLayer
    ensures { result ≡ new_layer name }
{
    LefLayer {
        name,
        sort: LayerType::Other,
        direction: LayerDirection::None,
        pitch_x: None,
        pitch_y: None,
        width: None,
        spacing: None,
    }
}

// A via without shapes.
fn new_via(alloc: Global, name: Name, default: bool) -> LefVia
    ensures { result ≡ new_via name default }
{
    LefVia {
        name,
        default,
        shapes: List::new(alloc),
    }
}

// A site of which only the name is stated.
fn new_site(name: Name) -> LefSite
    ensures { result ≡ new_site name }
{
    LefSite {
        name,
        class: SiteClass::Core,
        symmetry: 0,
        width: None,
        height: None,
    }
}

// A macro of which only the name is stated.
fn new_macro(alloc: Global, name: Name) -> LefMacro
    ensures { result ≡ new_macro name }
{
    LefMacro {
        name,
        class: Text::from_vec(Vec::new(alloc)),
        origin_x: None,
        origin_y: None,
        width: None,
        height: None,
        symmetry: 0,
        site: None,
        foreign: Text::from_vec(Vec::new(alloc)),
        terminals: LefPins::new(alloc),
        obstructions: List::new(alloc),
    }
}

/// A pin of which only the name is stated.
pub fn new_pin(alloc: Global, name: Name) -> LefPin
    ensures { result ≡ new_pin name }
{
    LefPin {
        name,
        direction: Direction::None,
        usage: Usage::None,
        shapes: List::new(alloc),
    }
}
