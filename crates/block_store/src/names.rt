ghost use Rattle.std.specs.Prelude.{◌≡◌, option_copied};
ghost use Rattle.named_pool.specs.Names.{name_by};
ghost use Rattle.block_store.specs.Names.{find_in, name_in};

use crate::block::Block;
use crate::entry::{BTermEntry, GroupEntry, InstEntry, NetEntry, RegionEntry, RowEntry};
use named_pool::{Named, NamedPool};
use odb_base::{Kind, Name};
use std::mem;

impl Named for InstEntry {
    ghost use Rattle.std.specs.Prelude.{refl};

    ghost own_name = { λ e. e.fields.name };

    ghost with_name = { λ name e. record e { fields = record e.fields { name = name } } };

    fn name(&self) -> &Name {
        &self.fields.name
    }

    fn set_name(&mut self, name: Name) -> Name {
        mem::replace(&mut self.fields.name, name)
    }

    ghost named = { λ e name. refl };
}

impl Named for NetEntry {
    ghost use Rattle.std.specs.Prelude.{refl};

    ghost own_name = { λ e. e.fields.name };

    ghost with_name = { λ name e. record e { fields = record e.fields { name = name } } };

    fn name(&self) -> &Name {
        &self.fields.name
    }

    fn set_name(&mut self, name: Name) -> Name {
        mem::replace(&mut self.fields.name, name)
    }

    ghost named = { λ e name. refl };
}

impl Named for BTermEntry {
    ghost use Rattle.std.specs.Prelude.{refl};

    ghost own_name = { λ e. e.fields.name };

    ghost with_name = { λ name e. record e { fields = record e.fields { name = name } } };

    fn name(&self) -> &Name {
        &self.fields.name
    }

    fn set_name(&mut self, name: Name) -> Name {
        mem::replace(&mut self.fields.name, name)
    }

    ghost named = { λ e name. refl };
}

impl Named for RowEntry {
    ghost use Rattle.std.specs.Prelude.{refl};

    ghost own_name = { λ e. e.fields.name };

    ghost with_name = { λ name e. record e { fields = record e.fields { name = name } } };

    fn name(&self) -> &Name {
        &self.fields.name
    }

    fn set_name(&mut self, name: Name) -> Name {
        mem::replace(&mut self.fields.name, name)
    }

    ghost named = { λ e name. refl };
}

impl Named for RegionEntry {
    ghost use Rattle.std.specs.Prelude.{refl};

    ghost own_name = { λ e. e.fields.name };

    ghost with_name = { λ name e. record e { fields = record e.fields { name = name } } };

    fn name(&self) -> &Name {
        &self.fields.name
    }

    fn set_name(&mut self, name: Name) -> Name {
        mem::replace(&mut self.fields.name, name)
    }

    ghost named = { λ e name. refl };
}

impl Named for GroupEntry {
    ghost use Rattle.std.specs.Prelude.{refl};

    ghost own_name = { λ e. e.fields.name };

    ghost with_name = { λ name e. record e { fields = record e.fields { name = name } } };

    fn name(&self) -> &Name {
        &self.fields.name
    }

    fn set_name(&mut self, name: Name) -> Name {
        mem::replace(&mut self.fields.name, name)
    }

    ghost named = { λ e name. refl };
}

// The name of an object in a pool.
fn name_in_pool<T: Named>(pool: &NamedPool<T>, id: u32) -> Option<&Name>
    ensures { option_copied result ≡ name_by T.own_name id pool.now.table }
{
    Some(pool.get(id)?.name())
}

impl Block {
    /// The object of a kind that has this name. Kinds without names have none.
    pub fn find(&self, kind: Kind, name: &[u8]) -> Option<u32>
        ensures { result ≡ find_in kind name.now self.now.block }
    {
        match kind {
            Kind::Inst => self.pools.inst.find(name),
            Kind::Net => self.pools.net.find(name),
            Kind::BTerm => self.pools.bterm.find(name),
            Kind::Row => self.pools.row.find(name),
            Kind::Region => self.pools.region.find(name),
            Kind::Group => self.pools.group.find(name),
            Kind::ITerm | Kind::Pin | Kind::Track | Kind::Wire | Kind::Blockage | Kind::Prop =>
                None,
        }
    }

    /// The name of an object. There is none for an identifier without an object, and for kinds without names.
    pub fn name_of(&self, kind: Kind, id: u32) -> Option<&Name>
        ensures { option_copied result ≡ name_in kind id self.now.block }
    {
        match kind {
            Kind::Inst => name_in_pool(&self.pools.inst, id),
            Kind::Net => name_in_pool(&self.pools.net, id),
            Kind::BTerm => name_in_pool(&self.pools.bterm, id),
            Kind::Row => name_in_pool(&self.pools.row, id),
            Kind::Region => name_in_pool(&self.pools.region, id),
            Kind::Group => name_in_pool(&self.pools.group, id),
            Kind::ITerm | Kind::Pin | Kind::Track | Kind::Wire | Kind::Blockage | Kind::Prop =>
                None,
        }
    }
}
