ghost use Rattle.std.specs.Prelude.{◌≡◌, [], OnErr, OnOk};

use crate::by_name::Names;
use std::alloc::{AllocError, Global};
use std::collections::BTreeMap;
use std::collections::btree_map::Iter;
use std::marker::Model;

/// Terminals of components, each once, in the order of the components' names and then of their own. Contracts see the
/// list of the pairs of names.
#[derive(Drop)]
pub struct Terminals {
    pairs: BTreeMap<(Vec<u8>, Vec<u8>), ()>,
}

impl Model for Terminals {
    ghost use Rattle.std.specs.Prelude.{List, ℕ};
    ghost use Rattle.def_tree.specs.Pairs.{pairs_of};

    ghost Value = { List (List ℕ × List ℕ) };

    ghost view = { λ t. pairs_of t.pairs.entries };
}

impl Terminals {
    ghost use Rattle.def_tree.specs.Pairs.{pairs_of, with_pair};

    /// None. It takes no memory.
    pub fn new(alloc: Global) -> Terminals
        ensures { result ≡ [] }
    {
        Terminals {
            pairs: BTreeMap::new(alloc),
        }
    }

    /// The pairs of names, in their order.
    pub fn iter(&self) -> Iter<'_, (Vec<u8>, Vec<u8>), ()>
        ensures { pairs_of result ≡ self.now }
    {
        self.pairs.iter()
    }

    /// Enters a terminal, if it isn't there. A refusal leaves all as it was.
    pub fn put(
        &mut self,
        alloc: Global,
        component: &[u8],
        terminal: &[u8],
    ) -> Result<(), AllocError>
        ensures ok { OnOk result (self.new ≡ with_pair component.now terminal.now self.old) }
        ensures err { OnErr result (self.new ≡ self.old) }
    {
        let component = component.to_vec(alloc)?;
        let terminal = terminal.to_vec(alloc)?;
        self.pairs.insert((component, terminal), ())?;
        Ok(())
    }
}

/// What a net joins.
#[derive(Drop)]
pub struct Connections {
    /// The names of pins, as `( PIN pin )` has them.
    pub pins: Names,
    /// Terminals of components, as `( component terminal )` has them.
    pub terminals: Terminals,
    /// The names of terminals that each component has joined which has one and doesn't join it otherwise, as
    /// `( * terminal )` has them.
    pub every: Names,
}

impl Connections {
    ghost use Rattle.def_tree.specs.Connections.{no_connections};

    /// Nothing. It takes no memory.
    pub fn new(alloc: Global) -> Connections
        ensures { result ≡ no_connections }
    {
        Connections {
            pins: Names::new(alloc),
            terminals: Terminals::new(alloc),
            every: Names::new(alloc),
        }
    }
}
