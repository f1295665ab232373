//! Runs of whole scripts over objects in memory.

ghost use Rattle.std.specs.Prelude.{◌≡◌, IfOk};
ghost use Rattle.odb_outside.specs.declared.shelf.Hand.TheVariants as hands;

mod faults;
mod files;
mod lef;
mod limits;
mod rows;
mod words;

use odb_base::Text;
use odb_outside::{MemoryShelf, MemorySink, MemorySource};
use odb_run::{Status, odb_main};
use rows::{ROWS, Row, Saved};
use std::alloc::{AllocError, Global};
use std::process::Abort;
use std::test::Fail;

/// What a run is given beside its script.
#[derive(Clone, Copy)]
pub struct Given<'a> {
    /// The words of the command line.
    pub words: &'a [&'a [u8]],
    /// How many bytes of the script a read gives at most, and how many of the replies a write takes.
    pub pieces: (u32, u32),
    /// The number of the call that fails, 0 for none: of the script, of the sink and of the shelf.
    pub failing: (u32, u32, u32),
}

/// What a run came to: its status, what was written, and what the file `f` holds.
#[derive(Drop)]
pub struct Outcome {
    pub status: Status,
    pub replies: Vec<u8>,
    pub file: Vec<u8>,
}

/// Runs a script over a shelf with this file `f`, of which a call moves at most 100 bytes.
pub fn run(
    alloc: Global,
    given: Given<'_>,
    script: &[u8],
    file: &[u8],
) -> Result<Outcome, AllocError> {
    let words = words_of(alloc, given.words)?;
    let (reads, writes) = given.pieces;
    let (read, write, call) = given.failing;
    let mut source = source(alloc, script, reads, read)?;
    let mut sink = sink(alloc, writes, write)?;
    let mut shelf = shelf(alloc, file, call)?;
    let status = odb_main(alloc, &words, &mut source, &mut sink, &mut shelf);
    let file = match shelf.file("f") {
        Some(bytes) => bytes.to_vec(alloc)?,
        None => Vec::new(alloc),
    };
    Ok(Outcome {
        status,
        replies: sink.bytes().to_vec(alloc)?,
        file,
    })
}

fn source(
    alloc: Global,
    script: &[u8],
    piece: u32,
    failing: u32,
) -> Result<MemorySource, AllocError> {
    let failing = vec![in alloc; failing as u64]?;
    Ok(MemorySource::new(script.to_vec(alloc)?, piece.max(1) as usize, failing))
}

fn sink(alloc: Global, piece: u32, failing: u32) -> Result<MemorySink, AllocError> {
    let failing = vec![in alloc; failing as u64]?;
    Ok(MemorySink::new(alloc, piece.max(1) as usize, failing))
}

fn shelf(alloc: Global, file: &[u8], failing: u32) -> Result<MemoryShelf, AllocError>
    ensures { IfOk result (λ shelf. shelf.hand ≡ hands.Nothing) }
{
    let failing = vec![in alloc; failing as u64]?;
    let mut shelf = MemoryShelf::new(alloc, 100, failing);
    shelf.put("f", file.to_vec(alloc)?)?;
    Ok(shelf)
}

// The words of a command line.
fn words_of(alloc: Global, words: &[&[u8]]) -> Result<Vec<Text>, AllocError> {
    let mut texts = Vec::new(alloc);
    for word in words {
        texts.push(Text::new(alloc, *word)?)?;
    }
    Ok(texts)
}

// The replies of a row: those to the commands, and the saved bytes.
fn wanted(alloc: Global, row: &Row) -> Result<Vec<u8>, AllocError> {
    let mut text = row.replies.to_vec(alloc)?;
    let net: &[u8] = match row.saved {
        Saved::Nothing => return Ok(text),
        Saved::NoNet => b"",
        Saved::OneNet => b"01000000010100000061",
    };
    let (bytes, behind): (&[u8], usize) = if net.is_empty() {
        (b"ok 148 ", 80)
    } else {
        (b"ok 176 ", 98)
    };
    text.extend_from_slice(bytes)?;
    text.extend_from_slice(b"4f44425301000000")?;
    push_zeros(&mut text, 24)?;
    text.extend_from_slice(b"010000002f020000005b5d")?;
    push_zeros(&mut text, 25)?;
    text.extend_from_slice(net)?;
    push_zeros(&mut text, behind)?;
    text.extend_from_slice(b"\n")?;
    Ok(text)
}

// Appends the hexadecimal digits of so many bytes of 0.
fn push_zeros(text: &mut Vec<u8>, count: usize) -> Result<(), AllocError> {
    for _ in 0..count {
        text.extend_from_slice(b"00")?;
    }
    Ok(())
}

/// What is given without words and where nothing fails, with pieces of this size.
pub fn plain(piece: u32) -> Given<'static> {
    Given {
        words: &[],
        pieces: (piece, piece),
        failing: (0, 0, 0),
    }
}

fn answers_in_pieces(rt: &impl Abort, alloc: Global, row: &Row, piece: u32) -> Result<(), Fail> {
    let outcome = run(alloc, plain(piece), row.script, b"")?;
    assert_eq!(rt; outcome.status, row.status);
    assert!(rt; outcome.replies == wanted(alloc, row)?);
    Ok(())
}

#[test]
fn scripts_are_answered(rt: HostRuntime) -> Result<(), Fail> {
    for row in ROWS.iter() {
        answers_in_pieces(&rt, rt.alloc(), row, 100_000)?;
        answers_in_pieces(&rt, rt.alloc(), row, 7)?;
        answers_in_pieces(&rt, rt.alloc(), row, 1)?;
    }
    Ok(())
}
