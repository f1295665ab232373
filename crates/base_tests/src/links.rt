ghost use Rattle.std.specs.Prelude.{◌≡◌, IfOk, IfSome, length, refl};
ghost use Rattle.odb_base.specs.Ids.{holds};
ghost use Rattle.link_list.specs.VecLinks.{is_place, cell as cell_in, link_of as link_in, with_link as with_link_in};

use link_list::{Head, Link, LinkCells, insert_before, push_front, unlink};
use odb_base::Steps;
use std::alloc::{AllocError, Global};
use std::marker::{Brand, Model};
use std::sync::ledger::{Blank, Ledger};
use std::test::Fail;

/// Links in a vector: the cell of an identifier is the one at its place, counted from 1.
#[derive(Drop)]
struct Links {
    links: Vec<Link>,
}

impl Model for Links {
    ghost use Rattle.std.specs.Prelude.{List};
    ghost use Rattle.link_list.specs.declared.link.Link.{Link};

    ghost Value = { List Link };

    ghost view = { λ s. s.links.items };
}

impl LinkCells for Links {
    ghost cell = { cell_in };

    ghost link_of = { link_in };

    ghost with_link = { with_link_in };

    fn link(&self, id: u32) -> Link {
        self.links[id as usize - 1]
    }

    fn set_link<L: Ledger>(&mut self, id: u32, link: Link, moves: &mut Steps<L>) {
        self.links[id as usize - 1] = link;
        moves.tick();
    }

    ghost use Rattle.link_list.specs.VecLinks.{cell-with_link, link_of-others, link_of-set};

    ghost none = { λ cells. refl };

    ghost kept = { cell-with_link };

    ghost set = { link_of-set };

    ghost others = { link_of-others };
}

impl Links {
    /// Whether an identifier names a cell.
    fn has(&self, id: u32) -> bool
        ensures { result ≡ cell_in self.now id }
    {
        id != 0 && id as usize <= self.links.len()
    }

    /// The member after another, 0 for none.
    fn after(&self, id: u32) -> u32
        ensures { result ≡ (link_in self.now id).after }
    {
        if self.has(id) { self.link(id).after } else { 0 }
    }

    fn len(&self) -> usize
        ensures { result ≡ length self.now }
    {
        self.links.len()
    }
}

/// A list over cells of its own. Contracts see the members that are read off the links.
#[derive(Drop)]
struct Row {
    cells: Links,
    head: Head,
}

impl Model for Row {
    ghost use Rattle.std.specs.Prelude.{List, ℕ};
    ghost use Rattle.link_list.specs.VecLinks.{IsList, members};

    ghost Value = { List ℕ };

    ghost view = { λ r. members r.cells r.head };

    ghost invariant = { λ r. IsList r.cells r.head };
}

impl Row {
    /// An empty list over so many cells.
    fn new(alloc: Global, cells: usize) -> Result<Row, AllocError> {
        let none = Link {
            before: 0,
            after: 0,
        };
        let cells = Links {
            links: vec![in alloc; none; cells]?,
        };
        Ok(Row {
            cells,
            head: Head { first: 0 },
        })
    }

    /// The members in order.
    fn list(&self, alloc: Global) -> Result<Vec<u32>, AllocError>
        ensures { IfOk result (λ list. list.items ≡ self.now) }
    {
        let mut list = Vec::new(alloc);
        let mut next = self.head.first;
        while next != 0 && list.len() < self.cells.len() {
            list.push(next)?;
            next = self.cells.after(next);
        }
        Ok(list)
    }

    fn holds(&self, alloc: Global, id: u32) -> Result<bool, AllocError>
        ensures { IfOk result (λ found. found ≡ holds self.now id) }
    {
        let list = self.list(alloc)?;
        Ok(list.contains(&id))
    }

    /// Does an edit of an object that may take part in it, and answers what it answers.
    fn apply<L: Ledger>(
        &mut self,
        alloc: Global,
        edit: Edit,
        moves: &mut Steps<L>,
    ) -> Result<Option<u32>, AllocError> {
        match edit {
            Edit::Front(id) => self.enter_front(alloc, id, moves),
            Edit::Out(id) => self.leave(alloc, id, moves),
            Edit::Last(id) => self.enter(alloc, id, None, moves),
            Edit::Before(id, next) => self.enter(alloc, id, Some(next), moves),
        }
    }

    fn enter_front<L: Ledger>(
        &mut self,
        alloc: Global,
        id: u32,
        moves: &mut Steps<L>,
    ) -> Result<Option<u32>, AllocError> {
        if self.cells.has(id) && !self.holds(alloc, id)? {
            push_front(&mut self.cells, &mut self.head, id, moves);
        }
        Ok(None)
    }

    fn leave<L: Ledger>(
        &mut self,
        alloc: Global,
        id: u32,
        moves: &mut Steps<L>,
    ) -> Result<Option<u32>, AllocError> {
        if self.holds(alloc, id)? {
            return Ok(unlink(&mut self.cells, &mut self.head, id, moves));
        }
        Ok(None)
    }

    fn enter<L: Ledger>(
        &mut self,
        alloc: Global,
        id: u32,
        next: Option<u32>,
        moves: &mut Steps<L>,
    ) -> Result<Option<u32>, AllocError> {
        if self.may_precede(alloc, next)? && self.cells.has(id) && !self.holds(alloc, id)? {
            insert_before(&mut self.cells, &mut self.head, id, next, moves);
        }
        Ok(None)
    }

    fn may_precede(&self, alloc: Global, next: Option<u32>) -> Result<bool, AllocError>
        ensures { IfOk result (λ can. can ≡ is_place self.now next) }
    {
        match next {
            Some(next) => self.holds(alloc, next),
            None => Ok(true),
        }
    }
}

#[derive(Clone, Copy)]
enum Edit {
    Front(u32),
    Out(u32),
    Last(u32),
    Before(u32, u32),
}

/// The number of edits that answer and leave what they should, up to the first that doesn't.
fn right_edits<L: Ledger>(
    alloc: Global,
    edits: &[(Edit, Option<u32>, &[u32])],
    blank: Blank,
) -> Result<usize, AllocError>
    requires name { blank.name ≡ L.name }
    requires parts { blank.parts ≡ L.parts }
    requires some { blank.parts ≡ 1 }
{
    let moves = &mut Steps::<L>::new(blank);
    let mut row = Row::new(alloc, 5)?;
    for (number, (edit, answer, list)) in edits.iter().enumerate() {
        if row.apply(alloc, *edit, moves)? != *answer || row.list(alloc)?.as_slice() != *list {
            return Ok(number);
        }
    }
    Ok(edits.len())
}

#[test]
fn edits_of_one_list(rt: HostRuntime) -> Result<(), Fail> {
    let edits: [(Edit, Option<u32>, &[u32]); 12] = [
        (Edit::Front(3), None, &[3]),
        (Edit::Front(1), None, &[1, 3]),
        (Edit::Last(4), None, &[1, 3, 4]),
        (Edit::Before(2, 3), None, &[1, 2, 3, 4]),
        (Edit::Before(5, 1), None, &[5, 1, 2, 3, 4]),
        (Edit::Out(2), Some(3), &[5, 1, 3, 4]),
        (Edit::Out(4), None, &[5, 1, 3]),
        (Edit::Out(5), Some(1), &[1, 3]),
        (Edit::Before(2, 3), None, &[1, 2, 3]),
        (Edit::Out(1), Some(2), &[2, 3]),
        (Edit::Out(3), None, &[2]),
        (Edit::Out(2), None, &[]),
    ];
    assert_eq!(rt;
        right_edits::<Brand>(rt.alloc(), &edits, Blank::new(1))?,
        edits.len()
    );
    Ok(())
}
