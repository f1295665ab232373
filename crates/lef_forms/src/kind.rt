use thiserror::Error;

/// What is wrong with a LEF text.
#[derive(Clone, Copy, Debug, PartialEq, Eq, Error)]
pub enum LefKind {
    /// The word can't stand where it does.
    #[error("unexpected word")]
    Unexpected,
    /// A number is due, and the word is none.
    #[error("bad number")]
    BadNumber,
    /// A name is due, and the word is none.
    #[error("bad name")]
    BadName,
    /// The text ends within a statement or a section.
    #[error("the text ends too early")]
    Cut,
}
