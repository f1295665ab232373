use odb_base::{Name, Text};

/// A group of instances.
#[derive(Debug, Drop)]
pub struct GroupRec {
    pub name: Name,
    /// The region that the group is for, or 0.
    pub region: u32,
    /// Words of DEF that are kept as they are.
    pub kept: Text,
}
