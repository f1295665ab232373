ghost use Rattle.std.specs.Prelude.{◌≡◌, IfOk, OnOk};
ghost use Rattle.lef_drafts.specs.Drafts.{layer_set, macro_set, macro_stated, pin_opened, pin_set, shapes_set, site_set, units_set, with_rect};

use crate::draft::Draft;
use crate::opening::new_pin;
use crate::values::{name, one_or_two, rect, symmetries, two, word};
use crate::worded::{
    layer_direction_named, layer_type_named, pin_direction_named, pin_use_named, site_class_named,
};
use ld_forms::{Kept, per_micron_of};
use lef_forms::Statement;
use lef_tree::{LefLayer, LefMacro, LefPin, LefShape, LefSite};
use odb_base::{List, Name};
use std::alloc::{AllocError, Global};

/// The units that are stated with one more statement.
#[tactic(auto, unfolding(crate::specs::Drafts::units_set))]
pub fn units_with(statement: Statement, values: &Kept, units: Option<u32>) -> Option<u32>
    ensures { result ≡ units_set statement values.now units }
{
    match statement {
        Statement::Database => match values.get(0) {
            Some(word) => per_micron_of(word),
            None => None,
        },
        _ => units,
    }
}

/// Puts what a statement says into its layer.
#[tactic(auto, unfolding(crate::specs::Drafts::layer_set))]
pub fn state_layer(
    alloc: Global,
    statement: Statement,
    values: &Kept,
    layer: &mut LefLayer,
) -> Result<(), AllocError>
    ensures { OnOk result (layer.new ≡ layer_set statement values.now layer.old) }
{
    match statement {
        Statement::LayerType => layer.sort = layer_type_named(values),
        Statement::LayerDirection => layer.direction = layer_direction_named(values),
        Statement::Pitch => (layer.pitch_x, layer.pitch_y) = one_or_two(alloc, values)?,
        Statement::Width => layer.width = word(alloc, values, 0)?,
        Statement::Spacing => {
            let spacing = word(alloc, values, 0)?;
            if layer.spacing.is_none() {
                layer.spacing = spacing;
            }
        }
        _ => {}
    }
    Ok(())
}

/// Puts what a statement says into its site.
#[tactic(auto, unfolding(crate::specs::Drafts::site_set))]
pub fn state_site(
    alloc: Global,
    statement: Statement,
    values: &Kept,
    site: &mut LefSite,
) -> Result<(), AllocError>
    ensures { OnOk result (site.new ≡ site_set statement values.now site.old) }
{
    match statement {
        Statement::SiteClass => site.class = site_class_named(values),
        Statement::Symmetry => site.symmetry = symmetries(values),
        Statement::Size => (site.width, site.height) = two(alloc, values)?,
        _ => {}
    }
    Ok(())
}

/// A macro with one more statement, or the section in it that the statement opens.
#[tactic(auto, unfolding(crate::specs::Drafts::macro_set))]
pub fn macro_with(
    alloc: Global,
    statement: Statement,
    values: &Kept,
    body: LefMacro,
) -> Result<Draft, AllocError>
    ensures { IfOk result (λ draft. draft ≡ macro_set statement values.now body) }
{
    match statement {
        Statement::Pin => pin_opened(alloc, values, body),
        Statement::Obs => Ok(Draft::Obs { body, layer: None }),
        _ => macro_stated(alloc, statement, values, body),
    }
}

// A macro in which a pin is open.
fn pin_opened(alloc: Global, values: &Kept, body: LefMacro) -> Result<Draft, AllocError>
    ensures { IfOk result (λ draft. draft ≡ pin_opened values.now body) }
{
    match name(alloc, values) {
        Ok(Some(name)) => Ok(Draft::Pin {
            body,
            pin: new_pin(alloc, name),
        }),
        Ok(None) => Ok(Draft::Macro(body)),
        Err(fault) => {
            drop(body);
            Err(fault)
        }
    }
}

// A macro with one more statement, which opens nothing.
fn macro_stated(
    alloc: Global,
    statement: Statement,
    values: &Kept,
    mut body: LefMacro,
) -> Result<Draft, AllocError>
    ensures { IfOk result (λ draft. draft ≡ Draft.Macro (macro_stated statement values.now body)) }
{
    match state(alloc, statement, values, &mut body) {
        Ok(()) => Ok(Draft::Macro(body)),
        Err(fault) => {
            drop(body);
            Err(fault)
        }
    }
}

// Puts what a statement says into its macro.
fn state(
    alloc: Global,
    statement: Statement,
    values: &Kept,
    body: &mut LefMacro,
) -> Result<(), AllocError>
    ensures { OnOk result (body.new ≡ macro_stated statement values.now body.old) }
{
    match statement {
        Statement::MacroClass => body.class = values.joined(alloc)?,
        Statement::Foreign => body.foreign = values.joined(alloc)?,
        Statement::Origin => (body.origin_x, body.origin_y) = two(alloc, values)?,
        Statement::Size => (body.width, body.height) = two(alloc, values)?,
        Statement::Symmetry => body.symmetry = symmetries(values),
        Statement::MacroSite => {
            let name = name(alloc, values)?;
            if body.site.is_none() {
                body.site = name;
            }
        }
        _ => {}
    }
    Ok(())
}

/// A pin with one more statement, or the port in it that the statement opens.
#[tactic(auto, unfolding(crate::specs::Drafts::pin_set))]
pub fn pin_with(statement: Statement, values: &Kept, body: LefMacro, pin: LefPin) -> Draft
    ensures { result ≡ pin_set statement values.now body pin }
{
    match statement {
        Statement::PinDirection => Draft::Pin {
            body,
            pin: LefPin {
                direction: pin_direction_named(values),
                ..pin
            },
        },
        Statement::PinUse => Draft::Pin {
            body,
            pin: LefPin {
                usage: pin_use_named(values),
                ..pin
            },
        },
        Statement::Port => Draft::Port {
            body,
            pin,
            layer: None,
        },
        _ => Draft::Pin { body, pin },
    }
}

/// Puts what a statement says of shapes behind them, or the layer that it names in the place of the last.
#[tactic(auto, unfolding(crate::specs::Drafts::shapes_set))]
pub fn draw(
    alloc: Global,
    statement: Statement,
    values: &Kept,
    layer: &mut Option<Name>,
    shapes: &mut List<LefShape>,
) -> Result<(), AllocError>
    ensures layer { OnOk result (layer.new ≡ (shapes_set statement values.now layer.old shapes.old).0) }
    ensures shapes { OnOk result (shapes.new ≡ (shapes_set statement values.now layer.old shapes.old).1) }
{
    match statement {
        Statement::ViaLayer | Statement::ShapeLayer => *layer = name(alloc, values)?,
        Statement::Rect => draw_rect(alloc, values, layer, shapes)?,
        _ => {}
    }
    Ok(())
}

// Puts a rectangle on the layer behind the shapes.
fn draw_rect(
    alloc: Global,
    values: &Kept,
    layer: &Option<Name>,
    shapes: &mut List<LefShape>,
) -> Result<(), AllocError>
    ensures { OnOk result (shapes.new ≡ with_rect values.now layer.now shapes.old) }
{
    let Some(layer) = layer else {
        return Ok(());
    };
    let Some(rect) = rect(alloc, values)? else {
        return Ok(());
    };
    let layer = layer.try_clone()?;
    shapes.push(LefShape { layer, rect })
}
