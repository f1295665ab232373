use edit_words::TechPart;
use ld_forms::ShortText;
use lef_build::{BuildFault, Parts, parts_of};
use lef_tree::{LefItem, LefLayer, LefMacro, LefPins, LefRect, LefShape, LefSite, LefTree, LefVia};
use library::{Library, Master};
use odb_base::{LayerDirection, LayerType, List, Name, Rect, SiteClass, Text};
use std::alloc::{AllocError, Global};
use std::process::Abort;
use std::test::Fail;
use tech::{Layer, Site, Tech, TechVia};

#[test]
fn a_site_and_a_macro_in_units(rt: HostRuntime) -> Result<(), Fail> {
    let alloc = rt.alloc();
    let mut items = List::new(alloc);
    if let Err(fault) = state_cells(alloc, &mut items) {
        drop(items);
        return Err(fault);
    }
    let built = built(alloc, items);
    let told = expect_cells(&rt, &built);
    drop(built);
    told
}

fn state_cells(alloc: Global, items: &mut List<LefItem>) -> Result<(), Fail> {
    items.push(LefItem::Units(1000))?;
    items.push(site(alloc, b"s", [b"0.46", b"2.72"])?)?;
    items.push(cell(alloc, b"s", [b"-0.0005", b"0.0004", b"1.38", b"2.72"])?)?;
    items.push(cell(alloc, b"t", [b"0", b"0", b"-1", b"."])?)?;
    Ok(())
}

fn expect_cells(rt: &impl Abort, built: &Result<Parts, BuildFault>) -> Result<(), Fail> {
    let Ok(Parts { parts, passed }) = built else {
        return Err("no parts".into());
    };
    assert_eq!(rt; *passed, 8);
    let [
        TechPart::Units(1000),
        TechPart::Site(site),
        TechPart::Master(master),
    ] = parts.items()
    else {
        return Err("other parts".into());
    };
    assert!(rt; is_site(site, [460, 2720]));
    assert!(rt; is_master(master, [-1, 0, 1380, 2720]));
    Ok(())
}

#[test]
fn layers_and_a_via_on_one(rt: HostRuntime) -> Result<(), Fail> {
    let alloc = rt.alloc();
    let mut items = List::new(alloc);
    if let Err(fault) = state_layers(alloc, &mut items) {
        drop(items);
        return Err(fault);
    }
    let built = built(alloc, items);
    let told = expect_layers(&rt, &built);
    drop(built);
    told
}

fn state_layers(alloc: Global, items: &mut List<LefItem>) -> Result<(), Fail> {
    items.push(LefItem::Units(2000))?;
    items.push(layer(alloc, b"met1", b"0.34")?)?;
    items.push(layer(alloc, b"met2", b"0.46")?)?;
    items.push(layer(alloc, b"met1", b".")?)?;
    items.push(via(alloc, b"met2")?)?;
    Ok(())
}

fn expect_layers(rt: &impl Abort, built: &Result<Parts, BuildFault>) -> Result<(), Fail> {
    let Ok(Parts { parts, passed }) = built else {
        return Err("no parts".into());
    };
    assert_eq!(rt; *passed, 8);
    let [
        TechPart::Units(2000),
        TechPart::Layer(first),
        TechPart::Layer(second),
        TechPart::Via(via),
    ] = parts.items()
    else {
        return Err("other parts".into());
    };
    assert!(rt; is_layer(first, b"met1", 680));
    assert!(rt; is_layer(second, b"met2", 920));
    assert!(rt; is_via(via));
    Ok(())
}

#[test]
fn each_fault_once(rt: HostRuntime) -> Result<(), Fail> {
    let alloc = rt.alloc();
    let ones: [&[u8]; 4] = [b"1", b"1", b"1", b"1"];
    expect_fault(
        &rt,
        alloc,
        0,
        site(alloc, b"s", [b"1", b"1"])?,
        "units",
        b"",
    )?;
    expect_fault(&rt, alloc, 1000, LefItem::Units(2000), "changed", b"")?;
    expect_fault(&rt, alloc, 1000, via(alloc, b"met1")?, "layer", b"met1")?;
    expect_fault(&rt, alloc, 1000, cell(alloc, b"t", ones)?, "site", b"t")?;
    expect_fault(
        &rt,
        alloc,
        1000,
        site(alloc, b"s", [b"1", b"-1"])?,
        "value",
        b"s",
    )
}

// The fault of an item where these units stand, in a word, and the name that it tells.
fn expect_fault(
    rt: &impl Abort,
    alloc: Global,
    units: u32,
    item: LefItem,
    word: &str,
    name: &[u8],
) -> Result<(), Fail> {
    let mut items = List::new(alloc);
    let stated = state_fault(&mut items, units, item);
    let fault = built(alloc, items).err().ok_or("no fault")?;
    let (told, of) = told(&fault);
    assert_eq!(rt; told, word);
    assert!(rt; of == name);
    Ok(stated?)
}

fn state_fault(items: &mut List<LefItem>, units: u32, item: LefItem) -> Result<(), AllocError> {
    if units > 0 && items.push(LefItem::Units(units)).is_err() {
        drop(item);
        return Err(AllocError);
    }
    items.push(item)
}

fn told(fault: &BuildFault) -> (&str, &[u8]) {
    match fault {
        BuildFault::NoUnits => ("units", b""),
        BuildFault::UnitsChanged {
            had: 1000,
            got: 2000,
        } => ("changed", b""),
        BuildFault::UnitsChanged { .. } => ("other units", b""),
        BuildFault::UnknownLayer { name } => ("layer", name.bytes()),
        BuildFault::UnknownSite { name } => ("site", name.bytes()),
        BuildFault::BadValue { name } => ("value", name.bytes()),
        BuildFault::Memory => ("memory", b""),
    }
}

fn built(alloc: Global, items: List<LefItem>) -> Result<Parts, BuildFault> {
    let tech = Tech::new(alloc);
    let library = Library::new(alloc);
    let tree = LefTree { items, passed: 7 };
    let parts = parts_of(alloc, &tech, &library, &tree);
    drop(tree);
    drop(library);
    drop(tech);
    parts
}

fn is_name(name: &Name, bytes: &[u8]) -> bool {
    name.bytes() == bytes
}

fn is_site(site: &Site, [width, height]: [i32; 2]) -> bool {
    is_name(&site.name, b"s") && site.width == width && site.height == height
}

fn is_master(master: &Master, [x, y, width, height]: [i32; 4]) -> bool {
    master.origin_x == x
        && master.origin_y == y
        && master.width == width
        && master.height == height
        && master.site == 1
}

fn is_layer(layer: &Layer, name: &[u8], pitch: i32) -> bool {
    is_name(&layer.name, name)
        && layer.pitch_x == pitch
        && layer.pitch_y == 0
        && layer.width == 280
        && layer.spacing == 0
}

fn is_via(via: &TechVia) -> bool {
    let whole = Rect {
        xl: 0,
        yl: 0,
        xh: 2000,
        yh: 2000,
    };
    is_name(&via.name, b"v")
        && via.default
        && matches!(via.shapes.items(), [shape] if shape.layer.0 == 2 && shape.rect == whole)
}

// In the items below a distance that finds no memory isn't stated, and the test fails by its values.
fn layer(alloc: Global, name: &[u8], pitch: &[u8]) -> Result<LefItem, Fail> {
    Ok(LefItem::Layer(LefLayer {
        name: Name::new(alloc, name)?,
        sort: LayerType::Routing,
        direction: LayerDirection::Vertical,
        pitch_x: ShortText::new(alloc, pitch).ok(),
        pitch_y: None,
        width: ShortText::new(alloc, b"0.14").ok(),
        spacing: None,
    }))
}

fn site(alloc: Global, name: &[u8], [width, height]: [&[u8]; 2]) -> Result<LefItem, Fail> {
    Ok(LefItem::Site(LefSite {
        name: Name::new(alloc, name)?,
        class: SiteClass::Core,
        symmetry: 2,
        width: ShortText::new(alloc, width).ok(),
        height: ShortText::new(alloc, height).ok(),
    }))
}

// A macro m that stands on a site.
fn cell(alloc: Global, site: &[u8], [x, y, width, height]: [&[u8]; 4]) -> Result<LefItem, Fail> {
    Ok(LefItem::Macro(LefMacro {
        name: Name::new(alloc, b"m")?,
        class: Text::from_vec(Vec::new(alloc)),
        origin_x: ShortText::new(alloc, x).ok(),
        origin_y: ShortText::new(alloc, y).ok(),
        width: ShortText::new(alloc, width).ok(),
        height: ShortText::new(alloc, height).ok(),
        symmetry: 3,
        site: Name::new(alloc, site).ok(),
        foreign: Text::from_vec(Vec::new(alloc)),
        terminals: LefPins::new(alloc),
        obstructions: List::new(alloc),
    }))
}

// A via v with a rectangle on a layer.
fn via(alloc: Global, layer: &[u8]) -> Result<LefItem, Fail> {
    let name = Name::new(alloc, b"v")?;
    let mut shapes = List::new(alloc);
    shapes.push(LefShape {
        layer: Name::new(alloc, layer)?,
        rect: square(alloc)?,
    })?;
    Ok(LefItem::Via(LefVia {
        name,
        default: true,
        shapes,
    }))
}

fn square(alloc: Global) -> Result<LefRect, AllocError> {
    Ok(LefRect {
        x1: ShortText::new(alloc, b"1")?,
        y1: ShortText::new(alloc, b"1")?,
        x2: ShortText::new(alloc, b"0")?,
        y2: ShortText::new(alloc, b"0")?,
    })
}
