ghost use Rattle.std.specs.Prelude.{◌≡◌, IfOk};

use library::{Library, MASTER_LIMIT, MTerm, Master, Shape};
use odb_base::{Direction, LayerId, List, MasterId, Name, Rect, Text, Usage};
use std::alloc::Global;
use std::process::Abort;
use std::test::Fail;

#[test]
fn masters_by_id_and_by_name(rt: HostRuntime) -> Result<(), Fail> {
    let mut library = Library::new(rt.alloc());
    let entered = entered_and_cut(&rt, rt.alloc(), &mut library);
    drop(library);
    entered
}

fn entered_and_cut(rt: &impl Abort, alloc: Global, library: &mut Library) -> Result<(), Fail> {
    library.cut(0);
    let rows: [(&[u8], u32); 4] = [(b"INVX1", 1), (b"NAND2", 2), (b"INVX", 3), (b"invx1", 4)];
    for (name, id) in rows.iter() {
        is_entered(rt, alloc, library, *name, *id)?;
    }
    for (name, id) in rows.iter() {
        is_found(rt, library, *name, *id);
    }
    has_no_other(rt, library);
    assert_eq!(rt; library.count(), 4);
    library.cut(4);
    assert_eq!(rt; library.count(), 4);
    library.cut(1);
    assert_eq!(rt; library.count(), 1);
    is_found(rt, library, b"INVX1", 1);
    is_entered(rt, alloc, library, b"INVX", 2)
}

// A master that isn't there is entered, and has the next identifier.
fn is_entered(
    rt: &impl Abort,
    alloc: Global,
    library: &mut Library,
    name: &[u8],
    id: u32,
) -> Result<(), Fail> {
    assert!(rt; library.find_master(name).is_none());
    assert!(rt; library.master(MasterId(id)).is_none());
    assert!(rt; library.count() < MASTER_LIMIT);
    let entered = library.add_master(master(alloc, name)?)?;
    assert_eq!(rt; entered, MasterId(id));
    assert_eq!(rt; library.count(), id);
    Ok(())
}

fn is_found(rt: &impl Abort, library: &Library, name: &[u8], id: u32) {
    assert_eq!(rt; library.find_master(name), Some(MasterId(id)));
    assert!(rt;
        library
            .master(MasterId(id))
            .is_some_and(|found| found.name.bytes() == name)
    );
}

fn has_no_other(rt: &impl Abort, library: &Library) {
    let names: [&[u8]; 3] = [b"", b"INVX12", b"NAND"];
    for name in names.iter() {
        assert_eq!(rt; library.find_master(*name), None);
    }
    let ids = [0, 5, u32::MAX];
    for id in ids.iter() {
        assert!(rt; library.master(MasterId(*id)).is_none());
    }
}

#[test]
fn terminals_by_name(rt: HostRuntime) -> Result<(), Fail> {
    let mut gate = master(rt.alloc(), b"NAND2")?;
    let named = terminals_named(&rt, rt.alloc(), &mut gate);
    drop(gate);
    named
}

// Of two terminals of one name the first is found.
fn terminals_named(rt: &impl Abort, alloc: Global, gate: &mut Master) -> Result<(), Fail> {
    let names: [&[u8]; 4] = [b"A", b"Y", b"VDD", b"Y"];
    for name in names.iter() {
        gate.terminals.push(terminal(alloc, *name)?)?;
    }
    let rows: [(&[u8], Option<u32>); 5] = [
        (b"A", Some(0)),
        (b"Y", Some(1)),
        (b"VDD", Some(2)),
        (b"VD", None),
        (b"", None),
    ];
    for (name, place) in rows.iter() {
        assert_eq!(rt; gate.term_index(*name), *place);
    }
    Ok(())
}

fn master(alloc: Global, name: &[u8]) -> Result<Master, Fail>
    ensures { IfOk result (λ master. master.name ≡ name.now) }
{
    Ok(Master {
        name: Name::new(alloc, name)?,
        class: Text::new(alloc, b"CORE")?,
        origin_x: 0,
        origin_y: -5,
        width: 1380,
        height: 2720,
        symmetry: 3,
        site: 0,
        foreign: Text::new(alloc, b"")?,
        terminals: List::new(alloc),
        obstructions: List::new(alloc),
    })
}

fn terminal(alloc: Global, name: &[u8]) -> Result<MTerm, Fail> {
    let mut shapes = List::new(alloc);
    shapes.push(Shape {
        layer: LayerId(1),
        rect: Rect {
            xl: 0,
            yl: 0,
            xh: 10,
            yh: 20,
        },
    })?;
    Ok(MTerm {
        name: Name::new(alloc, name)?,
        direction: Direction::Input,
        usage: Usage::Signal,
        shapes,
    })
}
