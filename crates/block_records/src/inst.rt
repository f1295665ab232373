use odb_base::{List, Name, Placement, Text};

/// Identifiers of instance terminals, in the order of the master's terminals.
pub type Terminals = List<u32>;

/// An instance of a master.
#[derive(Debug, Drop)]
pub struct InstRec {
    pub name: Name,
    /// The number of its master in the library, from 1.
    pub master: u32,
    pub place: Placement,
    /// The group that it is a member of, or 0.
    pub group: u32,
    /// Its terminals, one for each terminal of its master and in their order.
    pub terminals: Terminals,
    /// Words of DEF that are kept as they are.
    pub kept: Text,
}
