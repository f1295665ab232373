/// What an accepted edit came to.
#[derive(Clone, Copy, Debug, PartialEq, Eq)]
pub struct Outcome {
    /// The identifier of the object that was made, 0 where the edit makes none.
    pub id: u32,
    /// How many edits were accepted, with this one.
    pub accepted: u32,
    /// How many nested edits were refused.
    pub refused: u32,
    /// How many nested edits were cut off for their depth.
    pub deep: u32,
    /// How many nested edits were cut off for their number.
    pub many: u32,
}
