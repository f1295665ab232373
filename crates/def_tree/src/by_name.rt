ghost use Rattle.std.specs.Prelude.{◌≡◌, [], OnErr, OnOk, is_some, length};
ghost use Rattle.std.specs.Option.{option_copied};

use odb_base::Name;
use std::alloc::{AllocError, Global};
use std::collections::BTreeMap;
use std::collections::btree_map::Iter;
use std::marker::Model;

/// Things by their names, in the order of the names, by the values of their bytes. Contracts see the list of names with
/// their things.
#[derive(Drop)]
pub struct ByName<T> {
    things: BTreeMap<Vec<u8>, T>,
}

/// Names in their order.
pub type Names = ByName<()>;

impl<T> Model for ByName<T> {
    ghost use Rattle.std.specs.Prelude.{List, ℕ};
    ghost use Rattle.def_tree.specs.ByName.{named};

    ghost Value = { List (List ℕ × T) };

    ghost view = { λ b. named b.things.entries };
}

impl<T> ByName<T> {
    ghost use Rattle.def_tree.specs.ByName.{found, named, put, without};

    /// Nothing. It takes no memory.
    pub fn new(alloc: Global) -> ByName<T>
        ensures { result ≡ [] }
    {
        ByName {
            things: BTreeMap::new(alloc),
        }
    }

    /// How many things there are.
    pub fn count(&self) -> usize
        ensures { result ≡ length self.now }
    {
        self.things.len()
    }

    /// The thing of this name, `None` where none has it.
    pub fn get(&self, name: &[u8]) -> Option<&T>
        ensures { option_copied result ≡ found name.now self.now }
    {
        self.things.get(name)
    }

    /// Whether a thing has this name.
    pub fn has(&self, name: &[u8]) -> bool
        ensures { result ≡ is_some (found name.now self.now) }
    {
        self.get(name).is_some()
    }

    /// The names with their things, in their order.
    pub fn iter(&self) -> Iter<'_, Vec<u8>, T>
        ensures { named result ≡ self.now }
    {
        self.things.iter()
    }

    /// Puts a thing under a copy of its name, in the place of the one that had it. A refusal leaves all as it was.
    pub fn put(&mut self, alloc: Global, name: &[u8], thing: T) -> Result<(), AllocError>
    where
        T: Drop,
        ensures ok { OnOk result (self.new ≡ put name.now thing self.old) }
        ensures err { OnErr result (self.new ≡ self.old) }
    {
        let name = name.to_vec(alloc)?;
        match self.things.insert(name, thing) {
            Ok(_) => Ok(()),
            Err(_) => Err(AllocError),
        }
    }

    /// Takes the thing of this name out, if there is one.
    pub fn take(&mut self, name: &[u8]) -> Option<T>
        ensures thing { result ≡ found name.now self.old }
        ensures left { self.new ≡ without name.now self.old }
    {
        self.things.remove(name)
    }
}
