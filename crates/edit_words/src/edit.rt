use odb_base::{Direction, Kind, Orient, PlaceStatus, Text, Usage};

/// A change of a block that a line or a watcher asks for. Whether it can be done is judged by its plan: names
/// may be unlawful, identifiers may name nothing, and numbers may be outside their limits.
#[derive(Debug, Drop)]
pub enum Edit {
    /// A new instance of the master of this name.
    NewInst {
        name: Text,
        master: Text,
    },
    /// A new net.
    NewNet {
        name: Text,
    },
    /// A new terminal of the block, joined to a net where one is given.
    NewBTerm {
        name: Text,
        net: Option<u32>,
    },
    /// A new row of sites of this name, in database units.
    NewRow {
        name: Text,
        site: Text,
        x: i64,
        y: i64,
        orientation: Orient,
        sites: RowSites,
    },
    /// An object goes, and first what hangs on it.
    Destroy {
        kind: Kind,
        id: u32,
    },
    /// An object gets another name.
    Rename {
        kind: Kind,
        id: u32,
        name: Text,
    },
    /// An instance gets the master of this name, whose terminals have the same names.
    Swap {
        inst: u32,
        master: Text,
    },
    /// An instance or a pin gets a placement, in database units.
    Place {
        kind: Kind,
        id: u32,
        status: PlaceStatus,
        x: i64,
        y: i64,
        orientation: Orient,
    },
    /// A net or a terminal of the block gets a use.
    SetUse {
        kind: Kind,
        id: u32,
        usage: Usage,
    },
    /// A terminal of the block gets a direction.
    SetDir {
        bterm: u32,
        direction: Direction,
    },
    /// A net becomes special.
    MakeSpecial {
        net: u32,
    },
    /// A terminal is joined to a net.
    Join {
        kind: Kind,
        id: u32,
        net: u32,
    },
    /// A terminal is parted from its net.
    Part {
        kind: Kind,
        id: u32,
    },
}

/// How often the site of a new row is repeated, as far as that is spelled out.
#[derive(Clone, Copy, Debug, PartialEq, Eq)]
pub enum RowSites {
    /// One site.
    One,
    /// So many along x and along y, side by side.
    Counted { nx: i64, ny: i64 },
    /// So many along x and along y, at these steps in database units.
    Stepped { nx: i64, ny: i64, sx: i64, sy: i64 },
}
