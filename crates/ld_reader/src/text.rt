ghost use Rattle.std.specs.Prelude.{◌≡◌, ◌≤◌, None, Err, IsErrOf, IsTrue, false};
ghost use Rattle.std.specs.Option.{option_map};
ghost use Rattle.odb_outside.specs.Outside.{Rose};
ghost use Rattle.ld_words.specs.Cause.{is_read_fault};
ghost use Rattle.ld_words.specs.Reading.{Done};
ghost use Rattle.ld_words.specs.Words.{fault_of, reading_left, source_of, word_of};
ghost use Rattle.ld_reader.specs.Answers.{GivesOn, IsAnswer, IsBlamed, IsKept, IsLeft, fault_in};
ghost use Rattle.ld_reader.specs.Reading.{at_ending, blamed_of, left_of, step_of, text_of};

use crate::fault::{Stop, TextFault};
use crate::language::Language;
use crate::reader::Reader;
use ld_words::{WordFault, Words};
use odb_outside::Source;
use std::alloc::Global;

/// Reads a text from the words that are left of it, until its language is done or the text ends where it may. Words
/// behind that aren't looked at.
///
/// `At` comes exactly at the first word that its place doesn't take, with its line, or with the line on which the text
/// ends where it ends too early. `Word` hands on a fault of the words.
///
/// The word that its place doesn't take is still at hand then.
///
/// The words behind the last one that was due, or behind the word at fault, are left to be read. After `Memory` no fault
/// is kept in `words` but one that stood there, or want of memory for a word.
pub fn read_text<L: Language, S: Source + Drop>(
    alloc: Global,
    words: &mut Words<S>,
    so_far: L,
) -> Result<Reader<L, L::Class, L::Statement>, TextFault<L::Kind>>
    requires { L.rules.is_done so_far ≡ false }
    ensures answer { IsAnswer (option_map (text_of L.rules so_far) (reading_left words.old)) result }
    ensures blamed { IsBlamed (option_map (blamed_of L.rules so_far) (reading_left words.old)) (word_of words.new).bytes result }
    ensures left { IsLeft (option_map (left_of L.rules so_far) (reading_left words.old)) (reading_left words.new) result }

    // `Word` comes exactly where `advance` answered the fault, which is kept there.
    ensures kept { IsKept (fault_of words.old) (fault_of words.new) result }
    ensures failed { IsErrOf result (TextFault.Word WordFault.ReadFault) → fault_of words.old ≡ None
        → Rose (S.faults (source_of words.old)) (S.faults (source_of words.new)) }
    ensures later { S.faults (source_of words.old) ≤ S.faults (source_of words.new) }
    ensures ready { is_read_fault (fault_of words.new) ≡ false → IsTrue (S.ready (source_of words.new)) }
    ensures rest { S.rest (source_of words.new) ≡ S.rest (source_of words.old) }
{
    let mut reader = Reader::new(alloc, so_far);
    'reading: while !reader.is_done() {
        match words.advance() {
            Ok(true) => match with_word(&mut reader, alloc, words.word(), words.word_line()) {
                Ok(()) => {}
                Err(fault) => return refused(reader, fault),
            },
            Ok(false) => return ended(reader, words.line()),
            Err(fault) => return refused(reader, in_text(fault)),
        }
    }
    Ok(reader)
}

// With one more word. A fault has its line.
fn with_word<L: Language>(
    reader: &mut Reader<L, L::Class, L::Statement>,
    alloc: Global,
    word: &[u8],
    line: u64,
) -> Result<(), TextFault<L::Kind>>
    ensures { GivesOn line (step_of L.rules reader.old word.now) reader.new result }
{
    match reader.step(alloc, word) {
        Ok(()) => Ok(()),
        Err(Stop::Fault(kind)) => Err(TextFault::At { line, kind }),
        Err(Stop::Memory) => Err(TextFault::Memory),
    }
}

// Where the text ends on this line.
fn ended<L: Language>(
    reader: Reader<L, L::Class, L::Statement>,
    line: u64,
) -> Result<Reader<L, L::Class, L::Statement>, TextFault<L::Kind>>
    ensures { result ≡ at_ending L.rules reader (Done line) }
{
    if reader.may_end() {
        return Ok(reader);
    }
    let kind = L::cut();
    refused(reader, TextFault::At { line, kind })
}

// What was read is given up.
fn refused<L: Language>(
    reader: Reader<L, L::Class, L::Statement>,
    fault: TextFault<L::Kind>,
) -> Result<Reader<L, L::Class, L::Statement>, TextFault<L::Kind>>
    ensures { result ≡ Err fault }
{
    let Reader {
        so_far,
        kept,
        due: _,
    } = reader;
    drop(so_far);
    drop(kept);
    Err(fault)
}

fn in_text<K: Copy>(fault: WordFault) -> TextFault<K>
    ensures { result ≡ fault_in fault }
{
    match fault {
        WordFault::Memory => TextFault::Memory,
        WordFault::OpenQuote { .. }
        | WordFault::LongWord { .. }
        | WordFault::TooLong { .. }
        | WordFault::ReadFault => TextFault::Word(fault),
    }
}
