use def_tree::DefTree;
use ld_reader::TextFault;
use odb_base::Text;

/// What is wrong with a DEF text.
#[derive(Debug, Drop)]
pub enum DefKind {
    /// The word can't stand where it does.
    Unexpected,
    /// A number is due, and the word is none, or one outside the limit of its place.
    BadNumber,
    /// A name is due, and the word is none.
    BadName,
    /// By this word something begins that isn't read here.
    Unsupported { word: Text },
    /// Something has this name already.
    Duplicate,
    /// The text ends within a statement or a section, or before `END DESIGN`.
    Cut,
}

/// Why a DEF text isn't read.
pub type DefFault = TextFault<DefKind>;

/// What was read of a DEF text.
#[derive(Drop)]
pub struct DefRead {
    pub tree: DefTree,
    /// How many parts were passed over. It stops at 2^64 - 1.
    pub passed: u64,
    /// How many sections had another number of elements than they state. It stops at 2^64 - 1.
    pub miscounted: u64,
}
