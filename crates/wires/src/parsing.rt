ghost use Rattle.std.specs.Prelude.{All, IfOk};
ghost use Rattle.wires.specs.Paths.{IsShort};
ghost use Rattle.wires.specs.PathReading.{AreShort, Parses, ReadsWords, paths_of, read_all, step_of, with_fault};
ghost use Rattle.wires.specs.PathWords.{words_of};

use crate::fault::{PathFault, PathFlaw, PathStop};
use crate::path::NamedPaths;
use crate::path_reader::PathReader;
use crate::words::split_first_word;
use odb_base::Text;
use std::alloc::Global;

/// The paths of words that single spaces part, as a special wire has them or a plain one. The words, each point
/// written whole, are at most 1,000,000 bytes.
pub fn parse(alloc: Global, words: &[u8], special: bool) -> Result<NamedPaths, PathFault>
    ensures value { Parses (paths_of special (words_of words.now)) result }
    ensures short { IfOk result (All IsShort) }
{
    let mut reader = PathReader::new(alloc, special);
    if let Err(fault) = read_words(&mut reader, alloc, words) {
        drop(reader);
        return Err(fault);
    }
    match reader.finish() {
        Ok(paths) => Ok(paths),
        Err(PathStop::Flaw(_)) => Err(PathFault::Bad),
        Err(PathStop::Memory) => Err(PathFault::Memory),
    }
}

// Reads words that single spaces part.
fn read_words(reader: &mut PathReader, alloc: Global, words: &[u8]) -> Result<(), PathFault>
    ensures value { ReadsWords (read_all reader.old (words_of words.now)) reader.new result }
    ensures short { AreShort reader.old → AreShort reader.new }
{
    let mut rest = words;
    'words: while let Some((word, others)) = split_first_word(rest) {
        read_word(reader, alloc, word)?;
        rest = others;
    }
    read_word(reader, alloc, rest)
}

fn read_word(reader: &mut PathReader, alloc: Global, word: &[u8]) -> Result<(), PathFault>
    ensures value { ReadsWords (with_fault word.now (step_of reader.old word.now)) reader.new result }
    ensures short { AreShort reader.old → AreShort reader.new }
{
    match reader.step(alloc, word) {
        Ok(()) => Ok(()),
        Err(PathStop::Flaw(PathFlaw::Unsupported)) => Err(PathFault::Unsupported {
            word: Text::new(alloc, word)?,
        }),
        Err(PathStop::Flaw(PathFlaw::BadNumber | PathFlaw::BadName | PathFlaw::Unexpected)) => {
            Err(PathFault::Bad)
        }
        Err(PathStop::Memory) => Err(PathFault::Memory),
    }
}
