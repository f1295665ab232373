ghost use Rattle.std.specs.Prelude.{◌<◌};

mod rows;
mod shown;

use def_reader::{DefFault, DefKind, DefRead, read_def};
use ld_reader::TextFault;
use ld_words::{WordFault, Words};
use odb_outside::MemorySource;
use rows::{
    BLOCKAGES, COMPONENTS, DEFINITIONS, FAULTS_OF_NETS, GROUPS, HEADERS, Kind, NETS, PINS,
    ROWS_AND_TRACKS, Read, Row, SECTIONS, VIAS_AND_REGIONS, WHOLE,
};
use shown::shown;
use std::alloc::Global;
use std::process::Abort;
use std::test::Fail;

// Reads a text that comes in pieces.
fn expect(rt: &impl Abort, alloc: Global, text: &[u8], piece: usize, read: Read) -> Result<(), Fail>
    requires { 0 < piece }
{
    let source = MemorySource::new(text.to_vec(alloc)?, piece, Vec::new(alloc));
    let mut words = Words::new(alloc, source)?;
    let answer = read_def(alloc, &mut words);
    drop(words);
    let told = expect_answer(rt, alloc, &answer, read);
    drop(answer);
    told
}

fn expect_answer(
    rt: &impl Abort,
    alloc: Global,
    answer: &Result<DefRead, DefFault>,
    read: Read,
) -> Result<(), Fail> {
    match (answer, read) {
        (Ok(found), Read::Tree(line, passed, miscounted)) => {
            assert_eq!(rt; shown(alloc, &found.tree)?.as_str(), line);
            assert_eq!(rt; (found.passed, found.miscounted), (passed, miscounted));
        }
        (Err(TextFault::At { line, kind }), Read::Fault(due, what)) => {
            assert_eq!(rt; *line, due);
            expect_kind(rt, kind, what);
        }
        (Ok(_), Read::Fault(line, _)) => panic!(rt; "no fault on line {line}"),
        (Err(fault), _) => panic!(rt; "a fault: {fault:?}"),
    }
    Ok(())
}

fn expect_kind(rt: &impl Abort, kind: &DefKind, due: Kind) {
    match (kind, due) {
        (DefKind::Unexpected, Kind::Unexpected)
        | (DefKind::BadNumber, Kind::BadNumber)
        | (DefKind::BadName, Kind::BadName)
        | (DefKind::Duplicate, Kind::Duplicate)
        | (DefKind::Cut, Kind::Cut) => {}
        (DefKind::Unsupported { word }, Kind::Unsupported(due)) => {
            assert!(rt; word.bytes() == due.as_bytes());
        }
        (kind, _) => panic!(rt; "another fault: {kind:?}"),
    }
}

fn expect_all(rt: &impl Abort, alloc: Global, rows: &[Row]) -> Result<(), Fail> {
    for row in rows {
        expect(rt, alloc, row.text, 1, row.read)?;
        expect(rt, alloc, row.text, 7, row.read)?;
        expect(rt, alloc, row.text, 10_000, row.read)?;
    }
    Ok(())
}

#[test]
fn headers_and_floorplans_are_read(rt: HostRuntime) -> Result<(), Fail> {
    expect_all(&rt, rt.alloc(), &HEADERS)?;
    expect_all(&rt, rt.alloc(), &DEFINITIONS)?;
    expect_all(&rt, rt.alloc(), &ROWS_AND_TRACKS)?;
    expect_all(&rt, rt.alloc(), &SECTIONS)?;
    expect_all(&rt, rt.alloc(), &VIAS_AND_REGIONS)
}

#[test]
fn objects_are_read(rt: HostRuntime) -> Result<(), Fail> {
    expect_all(&rt, rt.alloc(), &COMPONENTS)?;
    expect_all(&rt, rt.alloc(), &PINS)?;
    expect_all(&rt, rt.alloc(), &BLOCKAGES)?;
    expect_all(&rt, rt.alloc(), &GROUPS)
}

#[test]
fn nets_are_read(rt: HostRuntime) -> Result<(), Fail> {
    expect_all(&rt, rt.alloc(), &NETS)?;
    expect_all(&rt, rt.alloc(), &FAULTS_OF_NETS)?;
    expect_all(&rt, rt.alloc(), &WHOLE)
}

// The word that is left behind what was read of a text.
fn expect_left(
    rt: &impl Abort,
    alloc: Global,
    text: &[u8],
    left: Option<&[u8]>,
) -> Result<(), Fail> {
    let source = MemorySource::new(text.to_vec(alloc)?, 5, Vec::new(alloc));
    let mut words = Words::new(alloc, source)?;
    let read = read_def(alloc, &mut words);
    drop(read);
    let next = words.next();
    drop(words);
    match (next?, left) {
        (Some(word), Some(bytes)) => assert!(rt; word.bytes.bytes() == bytes),
        (word, left) => assert!(rt; word.is_none() && left.is_none()),
    }
    Ok(())
}

#[test]
fn words_behind_are_left(rt: HostRuntime) -> Result<(), Fail> {
    expect_left(&rt, rt.alloc(), b"END DESIGN what ever", Some(b"what"))?;
    expect_left(&rt, rt.alloc(), b"END DESIGN", None)?;
    expect_left(&rt, rt.alloc(), b"DESIGN a*b ; END DESIGN", Some(b";"))?;
    expect_left(&rt, rt.alloc(), b"DESIGN a", None)
}

#[test]
fn faults_of_words_are_handed_on(rt: HostRuntime) -> Result<(), Fail> {
    let alloc = rt.alloc();
    let source = MemorySource::new(b"DESIGN a ;\n\"x".to_vec(alloc)?, 3, Vec::new(alloc));
    let mut words = Words::new(alloc, source)?;
    let fault = read_def(alloc, &mut words).err();
    drop(words);
    let told = match &fault {
        Some(TextFault::Word(fault)) => Some(*fault),
        _ => None,
    };
    drop(fault);
    assert_eq!(rt; told, Some(WordFault::OpenQuote { line: 2 }));
    Ok(())
}
