/// What may be wrong with a word of a DEF text.
#[derive(Clone, Copy, Debug, PartialEq, Eq)]
pub enum Flaw {
    /// The word can't stand where it does.
    Unexpected,
    /// A number is due, and the word is none, or one outside the limit of its place.
    BadNumber,
    /// A name is due, and the word is none.
    BadName,
    /// By the word something begins that isn't read here.
    Unsupported,
    /// Something has this name already.
    Duplicate,
    /// The text ends within a statement or a section, or before `END DESIGN`.
    Cut,
}
