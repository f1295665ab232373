/// The identifier of an instance: the number of its slot in the table of instances, from 1.
#[derive(Clone, Copy, Debug, PartialEq, Eq)]
pub struct InstId(pub u32);

/// The identifier of a terminal of an instance: the number of its slot in the table of instance terminals, from 1.
#[derive(Clone, Copy, Debug, PartialEq, Eq)]
pub struct ITermId(pub u32);

/// The identifier of a net: the number of its slot in the table of nets, from 1.
#[derive(Clone, Copy, Debug, PartialEq, Eq)]
pub struct NetId(pub u32);

/// The identifier of a terminal of the block: the number of its slot in the table of block terminals, from 1.
#[derive(Clone, Copy, Debug, PartialEq, Eq)]
pub struct BTermId(pub u32);

/// The identifier of a pin of a block terminal: the number of its slot in the table of pins, from 1.
#[derive(Clone, Copy, Debug, PartialEq, Eq)]
pub struct PinId(pub u32);

/// The identifier of a row: the number of its slot in the table of rows, from 1.
#[derive(Clone, Copy, Debug, PartialEq, Eq)]
pub struct RowId(pub u32);

/// The identifier of tracks: the number of its slot in the table of tracks, from 1.
#[derive(Clone, Copy, Debug, PartialEq, Eq)]
pub struct TrackId(pub u32);

/// The identifier of a wire: the number of its slot in the table of wires, from 1.
#[derive(Clone, Copy, Debug, PartialEq, Eq)]
pub struct WireId(pub u32);

/// The identifier of a blockage: the number of its slot in the table of blockages, from 1.
#[derive(Clone, Copy, Debug, PartialEq, Eq)]
pub struct BlockageId(pub u32);

/// The identifier of a region: the number of its slot in the table of regions, from 1.
#[derive(Clone, Copy, Debug, PartialEq, Eq)]
pub struct RegionId(pub u32);

/// The identifier of a group: the number of its slot in the table of groups, from 1.
#[derive(Clone, Copy, Debug, PartialEq, Eq)]
pub struct GroupId(pub u32);

/// The identifier of a property: the number of its slot in the table of properties, from 1.
#[derive(Clone, Copy, Debug, PartialEq, Eq)]
pub struct PropId(pub u32);

/// The identifier of a layer: its place in the list of layers, from 1.
#[derive(Clone, Copy, Debug, PartialEq, Eq)]
pub struct LayerId(pub u32);

/// The identifier of a via of the technology: its place in the list of vias, from 1.
#[derive(Clone, Copy, Debug, PartialEq, Eq)]
pub struct ViaId(pub u32);

/// The identifier of a site: its place in the list of sites, from 1.
#[derive(Clone, Copy, Debug, PartialEq, Eq)]
pub struct SiteId(pub u32);

/// The identifier of a master: its place in the list of masters, from 1.
#[derive(Clone, Copy, Debug, PartialEq, Eq)]
pub struct MasterId(pub u32);
