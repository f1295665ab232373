use named_list::{Named, NamedList};
use odb_base::Name;
use std::alloc::Global;
use std::process::Abort;
use std::test::Fail;

#[derive(Drop)]
struct Cell {
    name: Name,
    height: u32,
}

impl Named for Cell {
    ghost name_of = { λ c. c.name };

    fn name(&self) -> &Name {
        &self.name
    }
}

#[test]
fn things_by_identifier_and_by_name(rt: HostRuntime) -> Result<(), Fail> {
    let mut cells: NamedList<Cell> = NamedList::new(rt.alloc());
    let entered = entered_and_cut(&rt, rt.alloc(), &mut cells);
    drop(cells);
    entered
}

fn entered_and_cut(
    rt: &impl Abort,
    alloc: Global,
    cells: &mut NamedList<Cell>,
) -> Result<(), Fail> {
    let rows: [(&[u8], u32); 3] = [(b"INVX1", 1), (b"NAND2", 2), (b"invx1", 3)];
    for (name, id) in rows.iter() {
        is_entered(rt, alloc, cells, *name, *id)?;
    }
    for (name, id) in rows.iter() {
        assert_eq!(rt; cells.find(*name), Some(*id));
        assert!(rt; cells.get(*id).is_some_and(|cell| cell.height == 10 * *id));
    }
    assert!(rt; cells.get(0).is_none());
    assert_eq!(rt; cells.find(b"NAND"), None);
    assert!(rt; cells.count() == 3);
    cells.cut(1);
    assert_eq!(rt; cells.count(), 1);
    assert_eq!(rt; cells.find(b"invx1"), None);
    is_entered(rt, alloc, cells, b"NAND2", 2)
}

// A cell of a height of ten times its identifier isn't there, and is entered.
fn is_entered(
    rt: &impl Abort,
    alloc: Global,
    cells: &mut NamedList<Cell>,
    name: &[u8],
    id: u32,
) -> Result<(), Fail> {
    assert!(rt; cells.find(name).is_none() && cells.get(id).is_none());
    assert!(rt; cells.count() < 1000 && id < 1000);
    let name = Name::new(alloc, name)?;
    let cell = Cell {
        name,
        height: 10 * id,
    };
    let entered = cells.push(cell)?;
    assert_eq!(rt; entered, id);
    Ok(())
}
