ghost use Rattle.std.specs.Prelude.{◌≡◌, ◌≤◌, None, Err, IfOk, IsErrOf, IsTrue, false};
ghost use Rattle.std.specs.Option.{option_map};
ghost use Rattle.odb_outside.specs.Outside.{Rose};
ghost use Rattle.ld_words.specs.Cause.{is_read_fault};
ghost use Rattle.ld_words.specs.Words.{fault_of, reading_left, source_of};
ghost use Rattle.ld_reader.specs.Answers.{IsAnswer, IsKept, IsLeft};
ghost use Rattle.def_reader.specs.Answer.{IsRead, def_of, kind_of, left_of, read_in};

use crate::fault::{DefFault, DefKind, DefRead};
use crate::so_far::SoFar;
use def_forms::{Class, Flaw, Statement};
use ld_reader::{Reader, TextFault, read_text};
use ld_words::{WordFault, Words};
use odb_base::Text;
use odb_outside::Source;
use std::alloc::{AllocError, Global};

/// Reads a DEF text (LEF/DEF 5.8 Language Reference, DEF Syntax) from the words that are left of it, up to `END DESIGN`.
/// Words behind that aren't looked at.
///
/// What is taken stands in the tables of `def_forms`. Outside sections, every other statement is passed over and counted,
/// and so is one whose words aren't of its form, unless one of them is no number or name where that is due. In sections
/// such a word is a fault, and options that the tables don't have are kept as they are.
///
/// `At` comes exactly at the first word that its place doesn't take, with its line, or with the line on which the text ends
/// where it ends too early (`Cut`). `Word` hands on a fault of the words.
///
/// The words behind `END DESIGN`, or behind the word at fault, are left to be read. After `Memory` no fault is kept in
/// `words` but one that stood there, or want of memory for a word.
pub fn read_def<S: Source + Drop>(alloc: Global, words: &mut Words<S>) -> Result<DefRead, DefFault>
    ensures answer { IsAnswer (option_map def_of (reading_left words.old)) result }
    ensures left { IsLeft (option_map left_of (reading_left words.old)) (reading_left words.new) result }

    // `Word` comes exactly where the words answered the fault, which is kept there.
    ensures kept { IsKept (fault_of words.old) (fault_of words.new) result }
    ensures failed { IsErrOf result (TextFault.Word WordFault.ReadFault) → fault_of words.old ≡ None
        → Rose (S.faults (source_of words.old)) (S.faults (source_of words.new)) }
    ensures later { S.faults (source_of words.old) ≤ S.faults (source_of words.new) }
    ensures ready { is_read_fault (fault_of words.new) ≡ false → IsTrue (S.ready (source_of words.new)) }
    ensures rest { S.rest (source_of words.new) ≡ S.rest (source_of words.old) }
{
    let so_far = SoFar::new(alloc)?;
    let read = read_text(alloc, words, so_far);
    into_read(alloc, words.word(), read)
}

// What was read, or the fault with the word that is at hand.
fn into_read(
    alloc: Global,
    word: &[u8],
    read: Result<Reader<SoFar, Class, Statement>, TextFault<Flaw>>,
) -> Result<DefRead, TextFault<DefKind>>
    ensures { IsRead read (read_in word.now read) result }
{
    match read {
        Ok(reader) => {
            let Reader {
                so_far,
                kept,
                due: _,
            } = reader;
            drop(kept);
            Ok(so_far.into_read())
        }
        Err(TextFault::Word(fault)) => Err(TextFault::Word(fault)),
        Err(TextFault::Memory) => Err(TextFault::Memory),
        Err(TextFault::At { line, kind }) => match kind_of(alloc, kind, word) {
            Ok(kind) => Err(TextFault::At { line, kind }),
            Err(AllocError) => Err(TextFault::Memory),
        },
    }
}

// What is wrong with a word.
fn kind_of(alloc: Global, flaw: Flaw, word: &[u8]) -> Result<DefKind, AllocError>
    ensures { IfOk result (λ kind. kind ≡ kind_of flaw word.now) }
{
    Ok(match flaw {
        Flaw::Unexpected => DefKind::Unexpected,
        Flaw::BadNumber => DefKind::BadNumber,
        Flaw::BadName => DefKind::BadName,
        Flaw::Unsupported => DefKind::Unsupported {
            word: Text::new(alloc, word)?,
        },
        Flaw::Duplicate => DefKind::Duplicate,
        Flaw::Cut => DefKind::Cut,
    })
}
