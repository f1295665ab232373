ghost use Rattle.std.specs.Prelude.{◌≡◌};
ghost use Rattle.block_store.specs.Moves.{new_bterm, new_group, new_inst, new_net, new_region, new_row};

use crate::ids::Ids;
use block_records::{BTermRec, GroupRec, InstRec, NetRec, RegionRec, RowRec};
use std::alloc::Global;

/// An instance in its table: its record, and its properties.
#[derive(Debug, Drop)]
pub struct InstEntry {
    pub fields: InstRec,
    pub props: Ids,
}

/// A net in its table: its record, its terminals (twice the identifier of an instance terminal, and one more
/// than twice that of a block terminal), its wires and its properties.
#[derive(Debug, Drop)]
pub struct NetEntry {
    pub fields: NetRec,
    pub terms: Ids,
    pub wires: Ids,
    pub props: Ids,
}

/// A block terminal in its table: its record, and its pins.
#[derive(Debug, Drop)]
pub struct BTermEntry {
    pub fields: BTermRec,
    pub pins: Ids,
}

/// A row in its table: its record, and its properties.
#[derive(Debug, Drop)]
pub struct RowEntry {
    pub fields: RowRec,
    pub props: Ids,
}

/// A region in its table: its record, the groups that are for it, and its properties.
#[derive(Debug, Drop)]
pub struct RegionEntry {
    pub fields: RegionRec,
    pub groups: Ids,
    pub props: Ids,
}

/// A group in its table: its record, its members, and its properties.
#[derive(Debug, Drop)]
pub struct GroupEntry {
    pub fields: GroupRec,
    pub members: Ids,
    pub props: Ids,
}

impl InstEntry {
    /// The record with empty lists. It takes no memory.
    pub fn new(alloc: Global, fields: InstRec) -> InstEntry
        ensures { result ≡ new_inst fields }
    {
        InstEntry {
            fields,
            props: Ids::new(alloc),
        }
    }

    /// The record, without the lists.
    pub fn into_record(self) -> InstRec
        ensures { result ≡ self.fields }
    {
        self.fields
    }
}

impl NetEntry {
    /// The record with empty lists. It takes no memory.
    pub fn new(alloc: Global, fields: NetRec) -> NetEntry
        ensures { result ≡ new_net fields }
    {
        NetEntry {
            fields,
            terms: Ids::new(alloc),
            wires: Ids::new(alloc),
            props: Ids::new(alloc),
        }
    }

    /// The record, without the lists.
    pub fn into_record(self) -> NetRec
        ensures { result ≡ self.fields }
    {
        self.fields
    }
}

impl BTermEntry {
    /// The record with empty lists. It takes no memory.
    pub fn new(alloc: Global, fields: BTermRec) -> BTermEntry
        ensures { result ≡ new_bterm fields }
    {
        BTermEntry {
            fields,
            pins: Ids::new(alloc),
        }
    }

    /// The record, without the lists.
    pub fn into_record(self) -> BTermRec
        ensures { result ≡ self.fields }
    {
        self.fields
    }
}

impl RowEntry {
    /// The record with empty lists. It takes no memory.
    pub fn new(alloc: Global, fields: RowRec) -> RowEntry
        ensures { result ≡ new_row fields }
    {
        RowEntry {
            fields,
            props: Ids::new(alloc),
        }
    }

    /// The record, without the lists.
    pub fn into_record(self) -> RowRec
        ensures { result ≡ self.fields }
    {
        self.fields
    }
}

impl RegionEntry {
    /// The record with empty lists. It takes no memory.
    pub fn new(alloc: Global, fields: RegionRec) -> RegionEntry
        ensures { result ≡ new_region fields }
    {
        RegionEntry {
            fields,
            groups: Ids::new(alloc),
            props: Ids::new(alloc),
        }
    }

    /// The record, without the lists.
    pub fn into_record(self) -> RegionRec
        ensures { result ≡ self.fields }
    {
        self.fields
    }
}

impl GroupEntry {
    /// The record with empty lists. It takes no memory.
    pub fn new(alloc: Global, fields: GroupRec) -> GroupEntry
        ensures { result ≡ new_group fields }
    {
        GroupEntry {
            fields,
            members: Ids::new(alloc),
            props: Ids::new(alloc),
        }
    }

    /// The record, without the lists.
    pub fn into_record(self) -> GroupRec
        ensures { result ≡ self.fields }
    {
        self.fields
    }
}
