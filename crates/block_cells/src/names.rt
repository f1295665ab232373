ghost use Rattle.std.specs.Prelude.{◌≡◌, option_copied};
ghost use Rattle.named_pool.specs.Names.{name_by};
ghost use Rattle.block_cells.specs.Names.{find_in, name_in};

use crate::pools::Pools;
use named_pool::{Named, NamedPool};
use odb_base::{Kind, Name};

// The name of an object in a pool.
fn name_in_pool<T: Named>(pool: &NamedPool<T>, id: u32) -> Option<&Name>
    ensures { option_copied result ≡ name_by T.own_name id pool.now.table }
{
    Some(pool.get(id)?.name())
}

impl Pools {
    /// The object of a kind that has this name. Kinds without names have none.
    pub fn find(&self, kind: Kind, name: &[u8]) -> Option<u32>
        ensures { result ≡ find_in kind name.now self.now.cells }
    {
        match kind {
            Kind::Inst => self.inst.pool.find(name),
            Kind::Net => self.net.find(name),
            Kind::BTerm => self.terms.second.find(name),
            Kind::Row => self.row.find(name),
            Kind::Region => self.region.find(name),
            Kind::Group => self.group.pool.find(name),
            Kind::ITerm | Kind::Pin | Kind::Track | Kind::Wire | Kind::Blockage | Kind::Prop =>
                None,
        }
    }

    /// The name of an object. There is none for an identifier without an object, and for kinds without names.
    pub fn name_of(&self, kind: Kind, id: u32) -> Option<&Name>
        ensures { option_copied result ≡ name_in kind id self.now.cells }
    {
        match kind {
            Kind::Inst => name_in_pool(&self.inst.pool, id),
            Kind::Net => name_in_pool(&self.net, id),
            Kind::BTerm => name_in_pool(&self.terms.second, id),
            Kind::Row => name_in_pool(&self.row, id),
            Kind::Region => name_in_pool(&self.region, id),
            Kind::Group => name_in_pool(&self.group.pool, id),
            Kind::ITerm | Kind::Pin | Kind::Track | Kind::Wire | Kind::Blockage | Kind::Prop =>
                None,
        }
    }
}
