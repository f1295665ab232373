ghost use Rattle.std.specs.Prelude.{◌≡◌, ◌≤◌, None, Err, IsErrOf, IsTrue, false};
ghost use Rattle.std.specs.Option.{option_map};
ghost use Rattle.odb_outside.specs.Outside.{Rose};
ghost use Rattle.ld_words.specs.Cause.{is_read_fault};
ghost use Rattle.ld_words.specs.Words.{fault_of, reading_left, source_of};
ghost use Rattle.ld_reader.specs.Answers.{IsAnswer, IsKept, IsLeft};
ghost use Rattle.lef_reader.specs.Reading.{lef_of, left_of, tree_in};

use crate::fault::LefFault;
use crate::so_far::SoFar;
use ld_reader::{Reader, TextFault, read_text};
use ld_words::{WordFault, Words};
use lef_forms::{Class, LefKind, Statement};
use lef_tree::LefTree;
use odb_outside::Source;
use std::alloc::Global;

/// Reads a LEF text (LEF/DEF 5.8 Language Reference, LEF Syntax) from the words that are left of it, up to
/// `END LIBRARY` or to the end of the text at the top. Words behind `END LIBRARY` aren't looked at.
///
/// What is taken stands in the tables of `lef_forms`; every other statement is passed over and counted, and so
/// is one whose words aren't of its form, unless one of them is no number or name where that is due. A
/// second pin of a name in one macro is left out and counted; layers, vias, sites and macros stay, whatever
/// their names.
///
/// `At` comes exactly at the first word that its place doesn't take, with its line, or with the line on which
/// the text ends where it ends too early (`Cut`). `Word` hands on a fault of the words.
///
/// The words behind `END LIBRARY`, or behind the word at fault, are left to be read. After `Memory` no fault is kept
/// in `words` but one that stood there, or want of memory for a word.
pub fn read_lef<S: Source + Drop>(alloc: Global, words: &mut Words<S>) -> Result<LefTree, LefFault>
    ensures answer { IsAnswer (option_map lef_of (reading_left words.old)) result }
    ensures left { IsLeft (option_map left_of (reading_left words.old)) (reading_left words.new) result }

    // `Word` comes exactly where the words answered the fault, which is kept there.
    ensures kept { IsKept (fault_of words.old) (fault_of words.new) result }
    ensures failed { IsErrOf result (TextFault.Word WordFault.ReadFault) → fault_of words.old ≡ None
        → Rose (S.faults (source_of words.old)) (S.faults (source_of words.new)) }
    ensures later { S.faults (source_of words.old) ≤ S.faults (source_of words.new) }
    ensures ready { is_read_fault (fault_of words.new) ≡ false → IsTrue (S.ready (source_of words.new)) }
    ensures rest { S.rest (source_of words.new) ≡ S.rest (source_of words.old) }
{
    let read = read_text(alloc, words, SoFar::new(alloc));
    into_tree(read)
}

// The tree of what was read.
fn into_tree(
    read: Result<Reader<SoFar, Class, Statement>, TextFault<LefKind>>,
) -> Result<LefTree, TextFault<LefKind>>
    ensures { result ≡ tree_in read }
{
    match read {
        Ok(reader) => {
            let Reader {
                so_far,
                kept,
                due: _,
            } = reader;
            drop(kept);
            Ok(so_far.into_tree())
        }
        Err(fault) => Err(fault),
    }
}
