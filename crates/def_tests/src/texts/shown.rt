//! A tree as one line of words, so that tables of texts can state it.

use def_tree::{
    ByName, Connections, DefBlockage, DefComponent, DefDefinition, DefGroup, DefNet, DefPin,
    DefPort, DefRegion, DefRow, DefTrack, DefTree, DefWire,
};
use odb_base::{Name, Owner, Placement, Rect, Text, Worded};
use std::alloc::{AllocError, Global};
use wires::{Element, NamedPaths, Path, Taper};

/// Each element as the words that state it, a `/` behind each. A header as that of an empty block is left out.
pub fn shown(alloc: Global, tree: &DefTree) -> Result<String, AllocError> {
    let mut line = String::new(alloc);
    show_header(&mut line, tree)?;
    show_definitions(&mut line, tree)?;
    for (name, row) in tree.rows.iter() {
        show_row(&mut line, name.as_slice(), row)?;
    }
    for track in tree.tracks.items() {
        show_track(&mut line, track)?;
    }
    for (name, kept) in tree.vias.iter() {
        line.push_str("via ")?;
        show_word(&mut line, name.as_slice())?;
        show_text(&mut line, kept)?;
        line.push_str("/")?;
    }
    for (name, region) in tree.regions.iter() {
        show_region(&mut line, name.as_slice(), region)?;
    }
    show_objects(&mut line, tree)?;
    Ok(line)
}

fn show_objects(line: &mut String, tree: &DefTree) -> Result<(), AllocError> {
    for (name, component) in tree.components.iter() {
        show_component(line, name.as_slice(), component)?;
    }
    for (name, pin) in tree.pins.iter() {
        show_pin(line, name.as_slice(), pin)?;
    }
    for blockage in tree.blockages.items() {
        show_blockage(line, blockage)?;
    }
    for (name, net) in tree.nets.iter() {
        show_net(line, name.as_slice(), net)?;
    }
    for (name, group) in tree.groups.iter() {
        show_group(line, name.as_slice(), group)?;
    }
    Ok(())
}

fn show_header(line: &mut String, tree: &DefTree) -> Result<(), AllocError> {
    if !tree.design.bytes().is_empty() {
        line.push_str("design ")?;
        show_text(line, &tree.design)?;
        line.push_str("/")?;
    }
    if tree.divider.bytes() != b"/".as_slice() || tree.bus.bytes() != b"[]".as_slice() {
        line.push_str("chars ")?;
        show_text(line, &tree.divider)?;
        show_text(line, &tree.bus)?;
        line.push_str("/")?;
    }
    if tree.units != 0 {
        let units = tree.units;
        write!(line, "units {units} /")?;
    }
    if let Some(die) = &tree.die {
        line.push_str("die ")?;
        show_rect(line, die)?;
        line.push_str("/")?;
    }
    Ok(())
}

fn show_definitions(line: &mut String, tree: &DefTree) -> Result<(), AllocError> {
    for owner in &OWNERS {
        for (name, definition) in tree.definitions.of(*owner).iter() {
            show_definition(line, *owner, name.as_slice(), definition)?;
        }
    }
    Ok(())
}

const OWNERS: [Owner; 8] = [
    Owner::Design,
    Owner::Component,
    Owner::Net,
    Owner::SpecialNet,
    Owner::Row,
    Owner::Region,
    Owner::Group,
    Owner::ComponentPin,
];

fn show_definition(
    line: &mut String,
    owner: Owner,
    name: &[u8],
    definition: &DefDefinition,
) -> Result<(), AllocError> {
    line.push_str("definition ")?;
    show_word(line, owner.word())?;
    show_word(line, name)?;
    show_word(line, definition.sort.word())?;
    show_text(line, &definition.rest)?;
    line.push_str("/")
}

fn show_row(line: &mut String, name: &[u8], row: &DefRow) -> Result<(), AllocError> {
    line.push_str("row ")?;
    show_word(line, name)?;
    show_word(line, row.site.bytes())?;
    let (x, y) = (row.x, row.y);
    write!(line, "{x} {y} ")?;
    show_word(line, row.orientation.word())?;
    let (nx, ny, sx, sy) = (row.nx, row.ny, row.sx, row.sy);
    write!(line, "{nx} {ny} {sx} {sy} ")?;
    show_props(line, &row.props)?;
    line.push_str("/")
}

fn show_track(line: &mut String, track: &DefTrack) -> Result<(), AllocError> {
    line.push_str("track ")?;
    show_word(line, track.axis.word())?;
    let (start, count, step) = (track.start, track.count, track.step);
    write!(line, "{start} {count} {step} ")?;
    for layer in track.layers.items() {
        show_word(line, layer.bytes())?;
    }
    line.push_str("/")
}

fn show_region(line: &mut String, name: &[u8], region: &DefRegion) -> Result<(), AllocError> {
    line.push_str("region ")?;
    show_word(line, name)?;
    show_word(line, region.sort.word())?;
    for rect in region.rects.items() {
        show_rect(line, rect)?;
    }
    show_text(line, &region.kept)?;
    show_props(line, &region.props)?;
    line.push_str("/")
}

fn show_component(
    line: &mut String,
    name: &[u8],
    component: &DefComponent,
) -> Result<(), AllocError> {
    line.push_str("component ")?;
    show_word(line, name)?;
    show_word(line, component.master.bytes())?;
    show_place(line, &component.place)?;
    show_text(line, &component.kept)?;
    show_props(line, &component.props)?;
    line.push_str("/")
}

fn show_pin(line: &mut String, name: &[u8], pin: &DefPin) -> Result<(), AllocError> {
    line.push_str("pin ")?;
    show_word(line, name)?;
    show_option(line, &pin.net)?;
    show_word(line, pin.direction.word())?;
    show_word(line, pin.usage.word())?;
    show_text(line, &pin.kept)?;
    for port in pin.ports.items() {
        show_port(line, port)?;
    }
    line.push_str("/")
}

fn show_port(line: &mut String, port: &DefPort) -> Result<(), AllocError> {
    line.push_str("port ")?;
    for shape in port.boxes.items() {
        show_word(line, shape.layer.bytes())?;
        show_rect(line, &shape.rect)?;
    }
    show_place(line, &port.place)?;
    show_text(line, &port.kept)
}

fn show_blockage(line: &mut String, blockage: &DefBlockage) -> Result<(), AllocError> {
    line.push_str("blockage ")?;
    show_option(line, &blockage.layer)?;
    for rect in blockage.rects.items() {
        show_rect(line, rect)?;
    }
    show_text(line, &blockage.kept)?;
    line.push_str("/")
}

fn show_net(line: &mut String, name: &[u8], net: &DefNet) -> Result<(), AllocError> {
    line.push_str(if net.special { "special " } else { "net " })?;
    show_word(line, name)?;
    show_connections(line, &net.connections)?;
    show_word(line, net.usage.word())?;
    show_text(line, &net.special_kept)?;
    for wire in net.special_wires.items() {
        show_wire(line, true, wire)?;
    }
    show_props(line, &net.special_props)?;
    show_text(line, &net.kept)?;
    for wire in net.wires.items() {
        show_wire(line, false, wire)?;
    }
    show_props(line, &net.props)?;
    line.push_str("/")
}

fn show_connections(line: &mut String, connections: &Connections) -> Result<(), AllocError> {
    for (pin, _) in connections.pins.iter() {
        line.push_str("PIN ")?;
        show_word(line, pin.as_slice())?;
    }
    for (names, _) in connections.terminals.iter() {
        show_word(line, names.0.as_slice())?;
        show_word(line, names.1.as_slice())?;
    }
    for (terminal, _) in connections.every.iter() {
        line.push_str("* ")?;
        show_word(line, terminal.as_slice())?;
    }
    Ok(())
}

fn show_wire(line: &mut String, special: bool, wire: &DefWire) -> Result<(), AllocError> {
    show_word(line, wire.status.word())?;
    show_paths(line, special, &wire.paths)
}

fn show_paths(line: &mut String, special: bool, paths: &NamedPaths) -> Result<(), AllocError> {
    for path in paths.items() {
        line.push_str("path ")?;
        show_path(line, special, path)?;
    }
    Ok(())
}

fn show_path(line: &mut String, special: bool, path: &Path<Name, Name>) -> Result<(), AllocError> {
    show_word(line, path.layer.bytes())?;
    if special {
        let width = path.width;
        write!(line, "{width} ")?;
        show_text(line, &path.shape)?;
    }
    match &path.taper {
        Taper::None => {}
        Taper::Layer => line.push_str("TAPER ")?,
        Taper::Rule(rule) => show_word(line, rule.bytes())?,
    }
    for element in path.elements.items() {
        show_element(line, element)?;
    }
    Ok(())
}

fn show_element(line: &mut String, element: &Element<Name>) -> Result<(), AllocError> {
    match element {
        Element::Point { x, y, ext: None } => write!(line, "( {x} {y} ) "),
        Element::Point {
            x,
            y,
            ext: Some(ext),
        } => write!(line, "( {x} {y} {ext} ) "),
        Element::Via { via, orient } => {
            show_word(line, via.bytes())?;
            match orient {
                Some(orient) => show_word(line, orient.word()),
                None => Ok(()),
            }
        }
        Element::Rect { dx1, dy1, dx2, dy2 } => write!(line, "RECT {dx1} {dy1} {dx2} {dy2} "),
    }
}

fn show_group(line: &mut String, name: &[u8], group: &DefGroup) -> Result<(), AllocError> {
    line.push_str("group ")?;
    show_word(line, name)?;
    for (member, _) in group.members.iter() {
        show_word(line, member.as_slice())?;
    }
    show_option(line, &group.region)?;
    show_text(line, &group.kept)?;
    show_props(line, &group.props)?;
    line.push_str("/")
}

fn show_props(line: &mut String, props: &ByName<Text>) -> Result<(), AllocError> {
    for (name, value) in props.iter() {
        line.push_str("property ")?;
        show_word(line, name.as_slice())?;
        show_text(line, value)?;
    }
    Ok(())
}

fn show_option(line: &mut String, name: &Option<Name>) -> Result<(), AllocError> {
    match name {
        Some(name) => show_word(line, name.bytes()),
        None => line.push_str("- "),
    }
}

fn show_place(line: &mut String, place: &Placement) -> Result<(), AllocError> {
    show_word(line, place.status.word())?;
    let (x, y) = (place.x, place.y);
    write!(line, "{x} {y} ")?;
    show_word(line, place.orientation.word())
}

fn show_rect(line: &mut String, rect: &Rect) -> Result<(), AllocError> {
    let (xl, yl, xh, yh) = (rect.xl, rect.yl, rect.xh, rect.yh);
    write!(line, "( {xl} {yl} {xh} {yh} ) ")
}

// Kept words and values, where there are any.
fn show_text(line: &mut String, text: &Text) -> Result<(), AllocError> {
    if text.bytes().is_empty() {
        return Ok(());
    }
    show_word(line, text.bytes())
}

fn show_word(line: &mut String, word: &[u8]) -> Result<(), AllocError> {
    for byte in word {
        line.push(char::from(*byte))?;
    }
    line.push_str(" ")
}
