/// A part of a DEF text that has elements of one sort, from its word to `END` and that word.
#[derive(Clone, Copy, Debug, PartialEq, Eq)]
pub enum Section {
    /// `PROPERTYDEFINITIONS`, which has no count.
    Definitions,
    Vias,
    Regions,
    Components,
    Pins,
    Blockages,
    SpecialNets,
    Nets,
    Groups,
}
