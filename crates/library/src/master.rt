ghost use Rattle.std.specs.Prelude.{◌≡◌, ◌≤◌, ◌^◌, length};
ghost use Rattle.named_list.specs.Naming.{place_named};
ghost use Rattle.library.specs.Terminals.{in_u32, term_index};

use crate::mterm::MTerm;
use named_list::Named;
use odb_base::{List, Name, Shape, Text};

/// A master: what LEF calls a macro, with the fields of that statement (LEF/DEF 5.8 Language Reference, MACRO).
#[derive(Debug, Drop)]
pub struct Master {
    pub name: Name,
    /// The words of `CLASS` with one space between them, empty where nothing is said.
    pub class: Text,
    /// How far the shapes are shifted before the master is placed, in database units (`ORIGIN`).
    pub origin_x: i32,
    pub origin_y: i32,
    /// In database units (`SIZE`).
    pub width: i32,
    pub height: i32,
    /// Under which turns the master may be placed: the sum of 1 for X, 2 for Y and 4 for R90.
    pub symmetry: u8,
    /// The number of the site's identifier, 0 where none is named.
    pub site: u32,
    /// The words of `FOREIGN` with one space between them, empty where nothing is said.
    pub foreign: Text,
    /// In the order of entry; an instance's terminals are numbered by their places here.
    pub terminals: List<MTerm>,
    /// The shapes of `OBS`, in the order of entry.
    pub obstructions: List<Shape>,
}

impl Named for Master {
    ghost name_of = { λ m. m.name };

    fn name(&self) -> &Name {
        &self.name
    }
}

impl Master {
    /// The place, from 0, of the first terminal of this name. `None` where no terminal has it, or where the
    /// place is past what the answer can hold.
    pub fn term_index(&self, name: &[u8]) -> Option<u32>
        ensures place { result ≡ in_u32 (term_index self.now name.now) }
        ensures few { length self.now.terminals ≤ 2 ^ 32 → result ≡ term_index self.now name.now }
    {
        let place = place_of(self.terminals.items(), name)?;
        u32::try_from(place).ok()
    }
}

fn place_of(terminals: &[MTerm], name: &[u8]) -> Option<usize>
    ensures { result ≡ place_named (λ terminal. terminal.name) terminals.now name.now }
{
    terminals
        .iter()
        .position(|terminal| name == terminal.name.bytes())
}
