use odb_base::Text;
use thiserror::Error;

/// The greatest number of bytes in a word.
pub const WORD_LIMIT: usize = 65_535;

/// The greatest number of bytes in a text.
pub const TEXT_LIMIT: u64 = 4_294_967_295;

/// A word of a LEF or DEF text, and the line, from 1, on which it begins. A quoted word has its quotes.
#[derive(Debug, Drop)]
pub struct Word {
    pub bytes: Text,
    pub line: u64,
}

/// Why there is no next word.
#[derive(Clone, Copy, Debug, PartialEq, Eq, Error)]
pub enum WordFault {
    /// The text ends within the quoted word that begins on this line.
    #[error("line {line}: the quoted word does not end")]
    OpenQuote { line: u64 },
    /// The word that begins on this line has more than [`WORD_LIMIT`] bytes.
    #[error("line {line}: the word is longer than 65535 bytes")]
    LongWord { line: u64 },
    /// The text has more than [`TEXT_LIMIT`] bytes. The first byte too many is on this line.
    #[error("line {line}: the text is longer than 4294967295 bytes")]
    TooLong { line: u64 },
    /// The source failed, and has counted the fault.
    #[error("the text cannot be read")]
    ReadFault,
    /// There is no memory for the word.
    #[error("out of memory")]
    Memory,
}
