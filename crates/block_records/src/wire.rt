use odb_base::{WireCode, WireStatus};

/// A wire of a net.
#[derive(Debug, Drop)]
pub struct WireRec {
    pub net: u32,
    pub status: WireStatus,
    /// Whether it is a special wire, which stands in SPECIALNETS of DEF.
    pub special: bool,
    pub code: WireCode,
}
