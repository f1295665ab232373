// The cells of the kinds whose objects have lists.
ghost use Rattle.std.specs.Prelude.{◌≡◌};
ghost use Rattle.block_cells.specs.Cells.{no_head};

use block_records::{BTermRec, GroupRec, InstRec, NetRec, RegionRec, RowRec};
use link_list::Head;
use named_pool::Named;
use odb_base::Name;
use std::mem;

/// A head of no members.
pub const NO_HEAD: Head = Head { first: 0 };

/// An instance: its record, and the first of its properties.
#[derive(Drop)]
pub struct InstCell {
    pub fields: InstRec,
    pub props: Head,
}

impl InstCell {
    /// The record with empty lists.
    pub fn new(fields: InstRec) -> InstCell
        ensures { result ≡ record { fields = fields; props = no_head } }
    {
        InstCell {
            fields,
            props: NO_HEAD,
        }
    }
}

impl Named for InstCell {
    ghost use Rattle.std.specs.Prelude.{refl};

    ghost own_name = { λ x. x.fields.name };

    ghost with_name = { λ name x. record x { fields = record x.fields { name = name } } };

    fn name(&self) -> &Name {
        &self.fields.name
    }

    fn set_name(&mut self, name: Name) -> Name {
        mem::replace(&mut self.fields.name, name)
    }

    ghost named = { λ x name. refl };
}

/// A net: its record, and the first of its terminals, wires and its properties.
#[derive(Drop)]
pub struct NetCell {
    pub fields: NetRec,
    pub terms: Head,
    pub wires: Head,
    pub props: Head,
}

impl NetCell {
    /// The record with empty lists.
    pub fn new(fields: NetRec) -> NetCell
        ensures { result ≡ record { fields = fields; terms = no_head; wires = no_head; props = no_head } }
    {
        NetCell {
            fields,
            terms: NO_HEAD,
            wires: NO_HEAD,
            props: NO_HEAD,
        }
    }
}

impl Named for NetCell {
    ghost use Rattle.std.specs.Prelude.{refl};

    ghost own_name = { λ x. x.fields.name };

    ghost with_name = { λ name x. record x { fields = record x.fields { name = name } } };

    fn name(&self) -> &Name {
        &self.fields.name
    }

    fn set_name(&mut self, name: Name) -> Name {
        mem::replace(&mut self.fields.name, name)
    }

    ghost named = { λ x name. refl };
}

/// A block terminal: its record, and the first of its pins.
#[derive(Drop)]
pub struct BTermCell {
    pub fields: BTermRec,
    pub pins: Head,
}

impl BTermCell {
    /// The record with empty lists.
    pub fn new(fields: BTermRec) -> BTermCell
        ensures { result ≡ record { fields = fields; pins = no_head } }
    {
        BTermCell {
            fields,
            pins: NO_HEAD,
        }
    }
}

impl Named for BTermCell {
    ghost use Rattle.std.specs.Prelude.{refl};

    ghost own_name = { λ x. x.fields.name };

    ghost with_name = { λ name x. record x { fields = record x.fields { name = name } } };

    fn name(&self) -> &Name {
        &self.fields.name
    }

    fn set_name(&mut self, name: Name) -> Name {
        mem::replace(&mut self.fields.name, name)
    }

    ghost named = { λ x name. refl };
}

/// A row: its record, and the first of its properties.
#[derive(Drop)]
pub struct RowCell {
    pub fields: RowRec,
    pub props: Head,
}

impl RowCell {
    /// The record with empty lists.
    pub fn new(fields: RowRec) -> RowCell
        ensures { result ≡ record { fields = fields; props = no_head } }
    {
        RowCell {
            fields,
            props: NO_HEAD,
        }
    }
}

impl Named for RowCell {
    ghost use Rattle.std.specs.Prelude.{refl};

    ghost own_name = { λ x. x.fields.name };

    ghost with_name = { λ name x. record x { fields = record x.fields { name = name } } };

    fn name(&self) -> &Name {
        &self.fields.name
    }

    fn set_name(&mut self, name: Name) -> Name {
        mem::replace(&mut self.fields.name, name)
    }

    ghost named = { λ x name. refl };
}

/// A region: its record, and the first of its groups and its properties.
#[derive(Drop)]
pub struct RegionCell {
    pub fields: RegionRec,
    pub groups: Head,
    pub props: Head,
}

impl RegionCell {
    /// The record with empty lists.
    pub fn new(fields: RegionRec) -> RegionCell
        ensures { result ≡ record { fields = fields; groups = no_head; props = no_head } }
    {
        RegionCell {
            fields,
            groups: NO_HEAD,
            props: NO_HEAD,
        }
    }
}

impl Named for RegionCell {
    ghost use Rattle.std.specs.Prelude.{refl};

    ghost own_name = { λ x. x.fields.name };

    ghost with_name = { λ name x. record x { fields = record x.fields { name = name } } };

    fn name(&self) -> &Name {
        &self.fields.name
    }

    fn set_name(&mut self, name: Name) -> Name {
        mem::replace(&mut self.fields.name, name)
    }

    ghost named = { λ x name. refl };
}

/// A group: its record, and the first of its members and its properties.
#[derive(Drop)]
pub struct GroupCell {
    pub fields: GroupRec,
    pub members: Head,
    pub props: Head,
}

impl GroupCell {
    /// The record with empty lists.
    pub fn new(fields: GroupRec) -> GroupCell
        ensures { result ≡ record { fields = fields; members = no_head; props = no_head } }
    {
        GroupCell {
            fields,
            members: NO_HEAD,
            props: NO_HEAD,
        }
    }
}

impl Named for GroupCell {
    ghost use Rattle.std.specs.Prelude.{refl};

    ghost own_name = { λ x. x.fields.name };

    ghost with_name = { λ name x. record x { fields = record x.fields { name = name } } };

    fn name(&self) -> &Name {
        &self.fields.name
    }

    fn set_name(&mut self, name: Name) -> Name {
        mem::replace(&mut self.fields.name, name)
    }

    ghost named = { λ x name. refl };
}
