//! A tree as one line of words, so that tables of texts can state it.

use ld_forms::ShortText;
use lef_tree::{LefItem, LefLayer, LefMacro, LefPin, LefShape, LefSite, LefTree, LefVia};
use odb_base::{Coded, Name};
use std::alloc::{AllocError, Global};

/// Each item as words, a `/` behind each.
pub fn shown(alloc: Global, tree: &LefTree) -> Result<String, AllocError> {
    let mut line = String::new(alloc);
    for item in tree.items.items() {
        show_item(&mut line, item)?;
        line.push_str("/")?;
    }
    Ok(line)
}

fn show_item(line: &mut String, item: &LefItem) -> Result<(), AllocError> {
    match item {
        LefItem::Units(units) => write!(line, "units {units} "),
        LefItem::Layer(layer) => show_layer(line, layer),
        LefItem::Via(via) => show_via(line, via),
        LefItem::Site(site) => show_site(line, site),
        LefItem::Macro(body) => show_macro(line, body),
    }
}

fn show_layer(line: &mut String, layer: &LefLayer) -> Result<(), AllocError> {
    line.push_str("layer ")?;
    show_word(line, layer.name.bytes())?;
    let sort = layer.sort.code();
    let direction = layer.direction.code();
    write!(line, "{sort} {direction} ")?;
    show_number(line, &layer.pitch_x)?;
    show_number(line, &layer.pitch_y)?;
    show_number(line, &layer.width)?;
    show_number(line, &layer.spacing)
}

fn show_via(line: &mut String, via: &LefVia) -> Result<(), AllocError> {
    line.push_str("via ")?;
    show_word(line, via.name.bytes())?;
    if via.default {
        line.push_str("default ")?;
    }
    show_shapes(line, via.shapes.items())
}

fn show_site(line: &mut String, site: &LefSite) -> Result<(), AllocError> {
    line.push_str("site ")?;
    show_word(line, site.name.bytes())?;
    let class = site.class.code();
    let symmetry = site.symmetry;
    write!(line, "{class} {symmetry} ")?;
    show_number(line, &site.width)?;
    show_number(line, &site.height)
}

fn show_macro(line: &mut String, body: &LefMacro) -> Result<(), AllocError> {
    line.push_str("macro ")?;
    show_word(line, body.name.bytes())?;
    show_word(line, body.class.bytes())?;
    show_number(line, &body.origin_x)?;
    show_number(line, &body.origin_y)?;
    show_number(line, &body.width)?;
    show_number(line, &body.height)?;
    let symmetry = body.symmetry;
    write!(line, "{symmetry} ")?;
    match &body.site {
        Some(site) => show_word(line, site.bytes())?,
        None => line.push_str("- ")?,
    }
    show_word(line, body.foreign.bytes())?;
    for pin in body.terminals.items() {
        show_pin(line, pin)?;
    }
    line.push_str("obs ")?;
    show_shapes(line, body.obstructions.items())
}

fn show_pin(line: &mut String, pin: &LefPin) -> Result<(), AllocError> {
    line.push_str("pin ")?;
    show_word(line, pin.name.bytes())?;
    let direction = pin.direction.code();
    let usage = pin.usage.code();
    write!(line, "{direction} {usage} ")?;
    show_shapes(line, pin.shapes.items())
}

fn show_shapes(line: &mut String, shapes: &[LefShape]) -> Result<(), AllocError> {
    for shape in shapes {
        show_word(line, shape.layer.bytes())?;
        show_word(line, shape.rect.x1.bytes())?;
        show_word(line, shape.rect.y1.bytes())?;
        show_word(line, shape.rect.x2.bytes())?;
        show_word(line, shape.rect.y2.bytes())?;
    }
    Ok(())
}

fn show_number(line: &mut String, number: &Option<ShortText>) -> Result<(), AllocError> {
    match number {
        Some(number) => show_word(line, number.bytes()),
        None => line.push_str("- "),
    }
}

fn show_word(line: &mut String, word: &[u8]) -> Result<(), AllocError> {
    for byte in word {
        line.push(char::from(*byte))?;
    }
    line.push_str(" ")
}
