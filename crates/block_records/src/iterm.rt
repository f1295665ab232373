/// A terminal of an instance.
#[derive(Clone, Copy, Debug, PartialEq, Eq)]
pub struct ITermRec {
    pub inst: u32,
    /// Its place among the terminals of the instance's master, from 0.
    pub index: u32,
    /// The net that it is joined to, or 0.
    pub net: u32,
}
