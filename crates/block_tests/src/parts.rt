use block_store::Database;
use edit_words::TechPart;
use library::{MTerm, Master};
use odb_base::{
    Direction, LayerDirection, LayerId, LayerType, List, Name, Rect, Shape, SiteClass, Text, Usage,
};
use std::alloc::Global;
use std::process::Abort;
use std::test::Fail;
use tech::{Layer, Site, Symmetry, TechVia};
use tech_parts::{Added, PartFault, add_parts};

#[test]
fn parts_are_entered_all_or_none(rt: HostRuntime) -> Result<(), Fail> {
    let mut db = Database::new(rt.alloc(), 10)?;
    let done = enters_all_or_none(&rt, rt.alloc(), &mut db);
    drop(db);
    done
}

fn enters_all_or_none(rt: &impl Abort, alloc: Global, db: &mut Database) -> Result<(), Fail> {
    let added = Added {
        layers: 1,
        vias: 1,
        sites: 1,
        masters: 1,
        last: 1,
    };
    assert_eq!(rt; add_parts(db, one_of_each(alloc)?), Ok(added));
    assert_eq!(rt; db.tech.units(), 2000);
    // The second of two is refused, and the first goes with it.
    let parts = vec![in alloc; wide(alloc, b"met2", 0)?, wide(alloc, b"met1", 0)?]?;
    assert_eq!(rt; add_parts(db, parts), Err(PartFault::NameTaken { at: 2 }));
    assert_eq!(rt; db.tech.counts(), [1, 1, 1]);
    Ok(())
}

fn one_of_each(alloc: Global) -> Result<Vec<TechPart>, Fail> {
    let mut parts = Vec::new(alloc);
    parts.push(TechPart::Units(2000))?;
    parts.push(wide(alloc, b"met1", 480)?)?;
    parts.push(TechPart::Via(via(alloc, b"v1", 1)?))?;
    parts.push(TechPart::Site(site(alloc, b"core")?))?;
    parts.push(TechPart::Master(master(alloc, b"INVX1", 1, 0)?))?;
    Ok(parts)
}

#[test]
fn parts_are_refused_by_the_first_reason(rt: HostRuntime) -> Result<(), Fail> {
    let mut db = Database::new(rt.alloc(), 10)?;
    let done = refuses(&rt, rt.alloc(), &mut db);
    drop(db);
    done
}

fn refuses(rt: &impl Abort, alloc: Global, db: &mut Database) -> Result<(), Fail> {
    let bad = Err(PartFault::BadPart { at: 1 });
    let changed = Err(PartFault::UnitsChanged {
        had: 100_000,
        got: 2000,
    });
    assert_eq!(rt; entered(alloc, db, TechPart::Units(0))?, bad);
    assert_eq!(rt; entered(alloc, db, TechPart::Units(100_001))?, bad);
    assert!(rt; entered(alloc, db, TechPart::Units(100_000))?.is_ok());
    assert_eq!(rt; entered(alloc, db, TechPart::Units(2000))?, changed);
    // A layer and a site that aren't there.
    assert_eq!(rt;
        entered(alloc, db, TechPart::Via(via(alloc, b"v1", 1)?))?,
        bad
    );
    assert_eq!(rt;
        entered(alloc, db, TechPart::Master(master(alloc, b"M", 1, 0)?))?,
        bad
    );
    Ok(())
}

#[test]
fn parts_are_entered_up_to_their_limits(rt: HostRuntime) -> Result<(), Fail> {
    let mut db = Database::new(rt.alloc(), 10)?;
    let done = enters_up_to_limits(&rt, rt.alloc(), &mut db);
    drop(db);
    done
}

fn enters_up_to_limits(rt: &impl Abort, alloc: Global, db: &mut Database) -> Result<(), Fail> {
    let rows: [(&[u8], i32, bool); 4] = [
        (b"far", 2_000_000_000, true),
        (b"low", -2_000_000_000, true),
        (b"farther", 2_000_000_001, false),
        (b"lower", -2_000_000_001, false),
    ];
    for (name, width, accepted) in rows.iter() {
        assert_eq!(rt;
            entered(alloc, db, wide(alloc, name, *width)?)?.is_ok(),
            *accepted
        );
    }
    for (shapes, accepted) in [(1_000_000, true), (1_000_001, false)].iter() {
        let part = TechPart::Via(via(alloc, b"v1", *shapes)?);
        assert_eq!(rt; entered(alloc, db, part)?.is_ok(), *accepted);
    }
    for (terminals, accepted) in [(65_536, false), (65_535, true)].iter() {
        let part = TechPart::Master(master(alloc, b"M", 0, *terminals)?);
        assert_eq!(rt; entered(alloc, db, part)?.is_ok(), *accepted);
    }
    Ok(())
}

// What becomes of one part.
fn entered(
    alloc: Global,
    db: &mut Database,
    part: TechPart,
) -> Result<Result<Added, PartFault>, Fail> {
    let mut parts = Vec::new(alloc);
    parts.push(part)?;
    Ok(add_parts(db, parts))
}

// A layer whose wires are this wide.
fn wide(alloc: Global, name: &[u8], width: i32) -> Result<TechPart, Fail> {
    Ok(TechPart::Layer(Layer {
        name: Name::new(alloc, name)?,
        sort: LayerType::Routing,
        direction: LayerDirection::None,
        pitch_x: 480,
        pitch_y: 480,
        width,
        spacing: 0,
    }))
}

// A via of so many shapes on the first layer.
fn via(alloc: Global, name: &[u8], shapes: u32) -> Result<TechVia, Fail> {
    Ok(TechVia {
        name: Name::new(alloc, name)?,
        default: false,
        shapes: shapes_on_first(alloc, shapes)?,
    })
}

fn shapes_on_first(alloc: Global, count: u32) -> Result<List<Shape>, Fail> {
    let mut shapes = List::new(alloc);
    for _ in 0..count {
        shapes.push(Shape {
            layer: LayerId(1),
            rect: Rect {
                xl: -70,
                yl: -70,
                xh: 70,
                yh: 70,
            },
        })?;
    }
    Ok(shapes)
}

fn site(alloc: Global, name: &[u8]) -> Result<Site, Fail> {
    Ok(Site {
        name: Name::new(alloc, name)?,
        class: SiteClass::Core,
        symmetry: Symmetry::Y,
        width: 460,
        height: 2720,
    })
}

// A master of this site, with so many terminals.
fn master(alloc: Global, name: &[u8], site: u32, terminals: u32) -> Result<Master, Fail> {
    Ok(Master {
        name: Name::new(alloc, name)?,
        class: Text::new(alloc, b"CORE")?,
        origin_x: 0,
        origin_y: 0,
        width: 1380,
        height: 2720,
        symmetry: 3,
        site,
        foreign: Text::new(alloc, b"")?,
        terminals: numbered(alloc, terminals)?,
        obstructions: List::new(alloc),
    })
}

// Terminals whose names are their numbers, from 0.
fn numbered(alloc: Global, count: u32) -> Result<List<MTerm>, Fail> {
    let mut terminals = List::new(alloc);
    for number in 0..count {
        terminals.push(MTerm {
            name: Name::new(alloc, format!(in alloc; "{number}")?.as_bytes())?,
            direction: Direction::Input,
            usage: Usage::Signal,
            shapes: List::new(alloc),
        })?;
    }
    Ok(terminals)
}
