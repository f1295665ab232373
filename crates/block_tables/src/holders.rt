ghost use Rattle.std.specs.Prelude.{◌≡◌, ◌+◌, List, ℕ, OnOk, min, if◌then◌else◌};
ghost use Rattle.std.specs.Str.{bytes_eq};
ghost use Rattle.block_tables.specs.Counting.{holders_in};

use std::alloc::{AllocError, Global};
use std::collections::HashMap;

// How many objects have each name, counted up to two.
#[derive(Drop)]
pub struct Holders<'a> {
    counts: HashMap<&'a [u8], u8>,
}

impl<'a> Holders<'a> {
    // No object has a name.
    pub fn new(alloc: Global) -> Holders<'a>
        ensures { (name : List ℕ) → holders_in result.counts name ≡ 0 }
    {
        Holders {
            counts: HashMap::new(alloc),
        }
    }

    // How many have the name.
    pub fn of(&self, name: &[u8]) -> u8
        ensures { result ≡ holders_in self.now.counts name.now }
    {
        match self.counts.get(&name) {
            Some(count) => *count,
            None => 0,
        }
    }

    // One more has the name.
    pub fn enter(&mut self, name: &'a [u8]) -> Result<(), AllocError>
        ensures ok { OnOk result ((other : List ℕ) → holders_in self.new.counts other ≡ (if bytes_eq name.now other then min 2 (holders_in self.old.counts other + 1) else holders_in self.old.counts other)) }
    {
        let count = if self.of(name) == 0 { 1 } else { 2 };
        self.counts.insert(name, count)?;
        Ok(())
    }
}
