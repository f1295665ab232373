ghost use Rattle.std.specs.Prelude.{◌≡◌, option_copied};
ghost use Rattle.block_store.specs.Names.{find_in, name_in};

use crate::block::Block;
use odb_base::{Kind, Name};

impl Block {
    /// The object of a kind that has this name. Kinds without names have none.
    pub fn find(&self, kind: Kind, name: &[u8]) -> Option<u32>
        ensures { result ≡ find_in kind name.now self.now.block }
    {
        self.pools.find(kind, name)
    }

    /// The name of an object. There is none for an identifier without an object, and for kinds without names.
    pub fn name_of(&self, kind: Kind, id: u32) -> Option<&Name>
        ensures { option_copied result ≡ name_in kind id self.now.block }
    {
        self.pools.name_of(kind, id)
    }
}
