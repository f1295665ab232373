ghost use Rattle.std.specs.Prelude.{◌<◌, IsTrue};
ghost use Rattle.std.specs.List.{list_all};
ghost use Rattle.odb_outside.specs.Calls.{is_call_number};

mod rows;
mod shown;

use ld_words::{WordFault, Words};
use lef_reader::{LefFault, LefKind, read_lef};
use lef_tree::LefTree;
use odb_base::{Coded, Orient, Worded};
use odb_outside::MemorySource;
use rows::{ROWS, Read};
use shown::shown;
use std::alloc::Global;
use std::process::Abort;
use std::test::Fail;

// Reads a text that comes in pieces.
fn expect(rt: &impl Abort, alloc: Global, text: &[u8], piece: usize, read: Read) -> Result<(), Fail>
    requires { 0 < piece }
{
    let source = MemorySource::new(text.to_vec(alloc)?, piece, Vec::new(alloc));
    let mut words = Words::new(alloc, source)?;
    let answer = read_lef(alloc, &mut words);
    drop(words);
    let told = expect_answer(rt, alloc, &answer, read);
    drop(answer);
    told
}

fn expect_answer(
    rt: &impl Abort,
    alloc: Global,
    answer: &Result<LefTree, LefFault>,
    read: Read,
) -> Result<(), Fail> {
    match (answer, read) {
        (Ok(tree), Read::Tree(line, passed)) => {
            assert_eq!(rt; shown(alloc, tree)?.as_str(), line);
            assert_eq!(rt; tree.passed, passed);
        }
        (Err(fault), Read::Fault(line, kind)) => {
            assert_eq!(rt; *fault, LefFault::At { line, kind });
        }
        (Ok(_), Read::Fault(line, _)) => panic!(rt; "no fault on line {line}"),
        (Err(fault), Read::Tree(..)) => panic!(rt; "a fault: {fault:?}"),
    }
    Ok(())
}

#[test]
fn texts_are_read(rt: HostRuntime) -> Result<(), Fail> {
    for row in &ROWS {
        expect(&rt, rt.alloc(), row.text, 1, row.read)?;
        expect(&rt, rt.alloc(), row.text, 7, row.read)?;
        expect(&rt, rt.alloc(), row.text, 10_000, row.read)?;
    }
    Ok(())
}

// The fault of a text that comes in pieces. The reads of these numbers fail.
fn fault_of(
    alloc: Global,
    text: &[u8],
    piece: usize,
    failing: Vec<u64>,
) -> Result<Option<LefFault>, Fail>
    requires piece { 0 < piece }
    requires failing { IsTrue (list_all is_call_number failing.items) }
{
    let source = MemorySource::new(text.to_vec(alloc)?, piece, failing);
    let mut words = Words::new(alloc, source)?;
    let fault = read_lef(alloc, &mut words).err();
    drop(words);
    Ok(fault)
}

#[test]
fn faults_of_words_are_handed_on(rt: HostRuntime) -> Result<(), Fail> {
    let alloc = rt.alloc();
    let open = LefFault::Word(WordFault::OpenQuote { line: 2 });
    assert_eq!(rt;
        fault_of(alloc, b"LAYER m\n\"x", 3, Vec::new(alloc))?,
        Some(open)
    );
    let failed = LefFault::Word(WordFault::ReadFault);
    assert_eq!(rt;
        fault_of(alloc, b"LAYER", 2, vec![in alloc; 2]?)?,
        Some(failed)
    );
    Ok(())
}

// The fault of a text, and the word that is left behind what was read.
fn expect_left(
    rt: &impl Abort,
    alloc: Global,
    text: &[u8],
    fault: Option<LefKind>,
    left: Option<&[u8]>,
) -> Result<(), Fail> {
    let source = MemorySource::new(text.to_vec(alloc)?, 5, Vec::new(alloc));
    let mut words = Words::new(alloc, source)?;
    let told = read_lef(alloc, &mut words).err();
    let next = words.next();
    drop(words);
    assert_eq!(rt; told, fault.map(|kind| LefFault::At { line: 1, kind }));
    match (next?, left) {
        (Some(word), Some(bytes)) => assert!(rt; word.bytes.bytes() == bytes),
        (word, left) => assert!(rt; word.is_none() && left.is_none()),
    }
    Ok(())
}

#[test]
fn words_behind_are_left(rt: HostRuntime) -> Result<(), Fail> {
    let rows: [(&[u8], Option<LefKind>, Option<&[u8]>); 5] = [
        (b"VIA v END v END LIBRARY what ever", None, Some(b"what")),
        (b"END LIBRARY", None, None),
        (b"SITE s END s", None, None),
        (b"LAYER a*b TYPE", Some(LefKind::BadName), Some(b"TYPE")),
        (b"LAYER m", Some(LefKind::Cut), None),
    ];
    for (text, fault, left) in rows.iter() {
        expect_left(&rt, rt.alloc(), *text, *fault, *left)?;
    }
    Ok(())
}

// Whether a part of this name is read.
fn is_named(alloc: Global, keyword: &[u8], name: &[u8]) -> Result<bool, Fail> {
    let mut text = keyword.to_vec(alloc)?;
    text.extend_from_slice(name)?;
    text.extend_from_slice(b" END ")?;
    text.extend_from_slice(name)?;
    match fault_of(alloc, &text, 1000, Vec::new(alloc))? {
        None => Ok(true),
        Some(
            LefFault::At {
                line: 1,
                kind: LefKind::BadName,
            },
        ) => Ok(false),
        Some(_) => Err(Fail::from("another fault")),
    }
}

#[test]
fn names_at_their_limits(rt: HostRuntime) -> Result<(), Fail> {
    let alloc = rt.alloc();
    let longest = vec![in alloc; b'a'; 4_095]?;
    let longer = vec![in alloc; b'a'; 4_096]?;
    let keywords: [&[u8]; 4] = [b"LAYER ", b"VIA ", b"SITE ", b"MACRO "];
    for keyword in keywords.iter() {
        assert!(rt; is_named(alloc, *keyword, &longest)?);
        assert!(rt; !is_named(alloc, *keyword, &longer)?);
    }
    for orientation in Orient::every() {
        assert!(rt; is_named(alloc, b"LAYER ", orientation.word())?);
        assert!(rt; !is_named(alloc, b"VIA ", orientation.word())?);
    }
    Ok(())
}
