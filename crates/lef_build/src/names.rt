ghost use Rattle.std.specs.Prelude.{◌≡◌, ◌≤◌, ◌+◌, ◌∷◌, ◌++◌, [], None, OnErr, OnOk};
ghost use Rattle.std.specs.Option.{option_map};
ghost use Rattle.named_list.specs.Naming.{place_named};

use indexmap::IndexSet;
use std::alloc::{AllocError, Global};
use std::marker::Model;

/// The greatest number of names in a list, so that identifiers behind those of a technology have 32 bits.
const NAME_LIMIT: usize = 4_000_000_000;

/// Names of things of one sort in the order of their entry. Contracts see the list of them.
#[derive(Drop)]
pub struct Names<'a> {
    names: IndexSet<&'a [u8]>,
}

impl<'a> Model for Names<'a> {
    ghost use Rattle.std.specs.Prelude.{◌≤◌, List, ℕ, length, map};

    ghost Value = { List (List ℕ) };

    ghost view = { λ n. map (λ name. name.now) n.names.keys };

    ghost invariant = { λ n. length n.names.keys ≤ 4000000000 };
}

impl<'a> Names<'a> {
    /// No names. It takes no memory.
    pub fn new(alloc: Global) -> Names<'a>
        ensures { result ≡ [] }
    {
        Names {
            names: IndexSet::new(alloc),
        }
    }

    /// The identifier that the thing of this name has where `before` things stand in front of these.
    pub fn id_behind(&self, before: u32, name: &[u8]) -> Option<u32>
        requires { before ≤ 1000000 }
        ensures { result ≡ option_map (λ place. before + place + 1) (place_named (λ n. n) self.now name.now) }
    {
        let place = self.names.get_index_of(&name)?;
        Some(before + place as u32 + 1)
    }

    /// Puts a name last that isn't there. It also fails where there are [`NAME_LIMIT`] of them. A refusal leaves the
    /// names as they were.
    pub fn enter(&mut self, name: &'a [u8]) -> Result<(), AllocError>
        requires { place_named (λ n. n) self.old name.now ≡ None }
        ensures ok { OnOk result (self.new ≡ self.old ++ name.now ∷ []) }
        ensures err { OnErr result (self.new ≡ self.old) }
    {
        if self.names.len() == NAME_LIMIT {
            return Err(AllocError);
        }
        self.names.insert(name)?;
        Ok(())
    }
}
