ghost use Rattle.std.specs.Prelude.{◌<◌, IsTrue};
ghost use Rattle.std.specs.List.{list_all};
ghost use Rattle.odb_outside.specs.Calls.{is_call_number};

use lef_files::{LefFileFault, LefFileRead, read_lef_file, texts_have_outcomes};
use odb_outside::MemoryShelf;
use shelf_files::FileFault;
use std::alloc::Global;
use std::process::Abort;
use std::test::Fail;

// Reads a file with this text from a shelf that moves so many bytes at once. The calls of these numbers fail.
fn read_of(
    alloc: Global,
    text: &[u8],
    piece: usize,
    failing: Vec<u64>,
) -> Result<Result<LefFileRead, FileFault>, Fail>
    requires piece { 0 < piece }
    requires failing { IsTrue (list_all is_call_number failing.items) }
{
    let bytes = text.to_vec(alloc)?;
    let mut shelf = MemoryShelf::new(alloc, piece, failing);
    let put = shelf.put("a.lef", bytes);
    let read = read_lef_file(alloc, &mut shelf, "a.lef");
    drop(shelf);
    match put {
        Ok(()) => Ok(read),
        Err(fault) => {
            drop(read);
            Err(Fail::from(fault))
        }
    }
}

// What is read of a text: how many items and how many parts that were passed over, or the line and kind of a fault.
#[derive(Clone, Copy)]
enum Read {
    Tree(usize, u64),
    Refused(u64, LefFileFault),
}

const ROWS: [(&[u8], Read); 8] = [
    (
        b"VERSION 5.8 ; SITE core SIZE 1 BY 2 ; END core MACRO inv SITE core ; END inv END LIBRARY \"",
        Read::Tree(2, 1),
    ),
    (b"", Read::Tree(0, 0)),
    (
        b"SITE s END s\n;",
        Read::Refused(2, LefFileFault::Unexpected),
    ),
    (
        b"LAYER m WIDTH\n1e3 ;",
        Read::Refused(2, LefFileFault::BadNumber),
    ),
    (b"\n\nLAYER a*b", Read::Refused(3, LefFileFault::BadName)),
    (b"VIA N END N", Read::Refused(1, LefFileFault::BadName)),
    (b"MACRO m\n\n", Read::Refused(3, LefFileFault::Cut)),
    (
        b"MACRO m\nCLASS \"a\n",
        Read::Refused(2, LefFileFault::OpenQuote),
    ),
];

fn expect(rt: &impl Abort, alloc: Global, text: &[u8], piece: usize, read: Read) -> Result<(), Fail>
    requires { 0 < piece }
{
    let given = read_of(alloc, text, piece, Vec::new(alloc))?;
    let told = expect_read(rt, &given, read);
    drop(given);
    told
}

fn expect_read(
    rt: &impl Abort,
    given: &Result<LefFileRead, FileFault>,
    read: Read,
) -> Result<(), Fail> {
    match (given, read) {
        (Ok(LefFileRead::Tree(tree)), Read::Tree(items, passed)) => {
            assert_eq!(rt; tree.items.items().len(), items);
            assert_eq!(rt; tree.passed, passed);
        }
        (Ok(LefFileRead::Refused { line, kind }), Read::Refused(at, fault)) => {
            assert_eq!(rt; *line, at);
            assert_eq!(rt; *kind, fault);
        }
        _ => return Err(Fail::from("another answer")),
    }
    Ok(())
}

#[test]
fn files_are_read(rt: HostRuntime) -> Result<(), Fail> {
    let alloc = rt.alloc();
    for (text, read) in ROWS.iter() {
        expect(&rt, alloc, *text, 1, *read)?;
        expect(&rt, alloc, *text, 7, *read)?;
        expect(&rt, alloc, *text, 10_000, *read)?;
    }
    let mut long = vec![in alloc; b'a'; 65_537]?;
    long[0] = b'\n';
    expect(
        &rt,
        alloc,
        &long,
        10_000,
        Read::Refused(2, LefFileFault::LongWord),
    )?;
    texts_have_outcomes();
    Ok(())
}

// Whether a file isn't read where the calls of these numbers fail: one opens it, one reads it, and one puts it back.
fn fails(alloc: Global, failing: Vec<u64>) -> Result<bool, Fail>
    requires { IsTrue (list_all is_call_number failing.items) }
{
    let fault = read_of(alloc, b"END LIBRARY \"", 100, failing)?.err();
    Ok(fault == Some(FileFault::Failed))
}

#[test]
fn failing_calls_are_told(rt: HostRuntime) -> Result<(), Fail> {
    let alloc = rt.alloc();
    assert!(rt; fails(alloc, vec![in alloc; 1]?)?);
    assert!(rt; fails(alloc, vec![in alloc; 2]?)?);
    assert!(rt; fails(alloc, vec![in alloc; 3]?)?);
    assert!(rt; !fails(alloc, vec![in alloc; 4]?)?);
    Ok(())
}

#[test]
fn a_missing_file_is_told(rt: HostRuntime) {
    let alloc = rt.alloc();
    let mut shelf = MemoryShelf::new(alloc, 3, Vec::new(alloc));
    let read = read_lef_file(alloc, &mut shelf, "a.lef");
    let is_missing = matches!(&read, Ok(LefFileRead::NoFile));
    drop(read);
    drop(shelf);
    assert!(rt; is_missing);
}
