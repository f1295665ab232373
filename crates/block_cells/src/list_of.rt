use odb_base::{BTermId, GroupId, InstId, Kind, NetId, RegionId};

/// A list of objects that an object has. The members are identifiers; of the terminals of a net they are
/// twice the identifier of an instance terminal, and one more than twice that of a terminal of the block.
#[derive(Clone, Copy, Debug, PartialEq, Eq)]
pub enum ListOf {
    /// The terminals that are joined to a net.
    Terms(NetId),
    /// The wires of a net.
    Wires(NetId),
    /// The properties of an instance, a net, a row, a region or a group.
    Props(Kind, u32),
    /// The instances in a group.
    Members(GroupId),
    /// The pins of a block terminal.
    Pins(BTermId),
    /// The groups that are for a region.
    Groups(RegionId),
    /// The terminals of an instance, in the order of its master's terminals.
    InstTerms(InstId),
}
