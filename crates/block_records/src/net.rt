use odb_base::{Name, Text, Usage};

/// A net.
#[derive(Debug, Drop)]
pub struct NetRec {
    pub name: Name,
    pub usage: Usage,
    /// Whether it is a special net, whose wires have widths of their own.
    pub special: bool,
    /// Words of DEF that are kept as they are, from the section NETS.
    pub kept: Text,
    /// Words of DEF that are kept as they are, from the section SPECIALNETS.
    pub special_kept: Text,
}
