ghost use Rattle.std.specs.Prelude.{◌≡◌, ◌+◌, ◌<◌, ◌≤◌, ◌^◌, ◌++◌, ◌∷◌, [], None, IfOk, OnErr, OnOk, length, slice_get, take};
ghost use Rattle.std.specs.Option.{option_copied, option_map};
ghost use Rattle.named_list.specs.Naming.{AreNamesDistinct, at_id, id_named};

use crate::named::Named;
use indexmap::IndexMap;
use std::alloc::{AllocError, Global};
use std::marker::Model;

/// Things with names in the order of their entry. Contracts see the list of them; the identifier of one is its place
/// from 1. No two have one name, and there are fewer than 2^32.
#[derive(Drop)]
pub struct NamedList<T: Named + Drop> {
    // Under the bytes of its name.
    things: IndexMap<Vec<u8>, T>,
}

impl<T: Named + Drop> Model for NamedList<T> {
    ghost use Rattle.std.specs.Prelude.{List};
    ghost use Rattle.std.specs.Map.{values_of};
    ghost use Rattle.named_list.specs.Kept.{IsKept};

    ghost Value = { List T };

    ghost view = { λ l. values_of l.things.entries };

    ghost invariant = { λ l. IsKept T.name_of l.things.entries };
}

impl<T: Named + Drop> NamedList<T> {
    /// A list without things. It takes no memory.
    pub fn new(alloc: Global) -> NamedList<T>
        ensures { result ≡ [] }
    {
        NamedList {
            things: IndexMap::new(alloc),
        }
    }

    /// How many things there are.
    pub fn count(&self) -> u32
        ensures count { result ≡ length self.now }
        ensures distinct { AreNamesDistinct T.name_of self.now }
    {
        self.things.len() as u32
    }

    /// The thing of this identifier, `None` where none has it.
    pub fn get(&self, id: u32) -> Option<&T>
        ensures { option_copied result ≡ at_id self.now id }
    {
        let place = id.checked_sub(1)?;
        let (_, thing) = self.things.get_index(place as usize)?;
        Some(thing)
    }

    /// The identifier of the thing of this name, `None` where none has it.
    pub fn find(&self, name: &[u8]) -> Option<u32>
        ensures { result ≡ id_named T.name_of self.now name.now }
    {
        let place = self.things.get_index_of(name)?;
        Some(place as u32 + 1)
    }

    /// Puts a thing last, and gives its identifier. No other may have its name, and there must be fewer than 2^32 - 1.
    /// A refusal leaves the list as it was, and the thing is dropped.
    pub fn push(&mut self, thing: T) -> Result<u32, AllocError>
        requires new { id_named T.name_of self.old (T.name_of thing) ≡ None }
        requires room { length self.old + 1 < 2 ^ 32 }
        ensures ok { OnOk result (self.new ≡ self.old ++ thing ∷ []) }
        ensures id { IfOk result (λ id. id ≡ length self.old + 1) }
        ensures err { OnErr result (self.new ≡ self.old) }
    {
        let name = thing.name().bytes().to_vec(*self.things.allocator())?;
        match self.things.insert(name, thing) {
            Ok(_) => Ok(self.things.len() as u32),
            Err(_) => Err(AllocError),
        }
    }

    /// Keeps so many first things, of which there must be at least so many. It takes no memory.
    pub fn cut(&mut self, count: u32)
        requires { count ≤ length self.old }
        ensures { self.new ≡ take count self.old }
    {
        self.things.truncate(count as usize);
    }
}
