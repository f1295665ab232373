ghost use Rattle.std.specs.Prelude.{◌≡◌};
ghost use Rattle.lef_files.specs.Texts.{kind_of, outcome_of, word_outcome};

use ld_words::WordFault;
use lef_reader::{LefFault, LefKind};
use lef_tree::LefTree;
use shelf_files::FileFault;

/// What reading a LEF file gave.
#[derive(Drop)]
pub enum LefFileRead {
    /// What its text holds.
    Tree(LefTree),
    /// There is no file of the name.
    NoFile,
    /// Its text has this fault, which is the first one, on this line, from 1.
    Refused { line: u64, kind: LefFileFault },
}

/// What is wrong with the text of a LEF file. The line that goes with it is that of the word in question.
#[derive(Clone, Copy, Debug, PartialEq, Eq)]
pub enum LefFileFault {
    /// The word can't stand where it does.
    Unexpected,
    /// A number is due, and the word is none.
    BadNumber,
    /// A name is due, and the word is none.
    BadName,
    /// The text ends, on this line, within a statement or a section.
    Cut,
    /// The text ends within the quoted word.
    OpenQuote,
    /// The word has more than 65,535 bytes.
    LongWord,
    /// The text has more than 4,294,967,295 bytes. The first byte too many is on this line.
    TooLong,
}

impl From<LefKind> for LefFileFault {
    ghost from_gives = { λ kind e. e ≡ kind_of kind };

    fn from(kind: LefKind) -> LefFileFault {
        match kind {
            LefKind::Unexpected => LefFileFault::Unexpected,
            LefKind::BadNumber => LefFileFault::BadNumber,
            LefKind::BadName => LefFileFault::BadName,
            LefKind::Cut => LefFileFault::Cut,
        }
    }
}

/// What an answer for the text of a file says of the file.
pub fn outcome(answer: Result<LefTree, LefFault>) -> Result<LefFileRead, FileFault>
    ensures { result ≡ outcome_of answer }
{
    match answer {
        Ok(tree) => Ok(LefFileRead::Tree(tree)),
        Err(LefFault::At { line, kind }) => Ok(refused(line, LefFileFault::from(kind))),
        Err(LefFault::Word(fault)) => outcome_by_word(fault),
        Err(LefFault::Memory) => Err(FileFault::Memory),
    }
}

fn outcome_by_word(fault: WordFault) -> Result<LefFileRead, FileFault>
    ensures { result ≡ word_outcome fault }
{
    match fault {
        WordFault::OpenQuote { line } => Ok(refused(line, LefFileFault::OpenQuote)),
        WordFault::LongWord { line } => Ok(refused(line, LefFileFault::LongWord)),
        WordFault::TooLong { line } => Ok(refused(line, LefFileFault::TooLong)),
        WordFault::ReadFault => Err(FileFault::Failed),
        WordFault::Memory => Err(FileFault::Memory),
    }
}

fn refused(line: u64, kind: LefFileFault) -> LefFileRead
    ensures { result ≡ LefFileRead.Refused line kind }
{
    LefFileRead::Refused { line, kind }
}
