ghost use Rattle.std.specs.Prelude.{◌≡◌};
ghost use Rattle.odb_outside.specs.declared.shelf.Hand.{Hand as AnyHand};

use odb_outside::{
    Failed, Hand, MemoryShelf, MemorySink, MemorySource, OpenFault, Shelf, ShelfSink, ShelfSource,
    Sink, Source, WriteFault, write_all,
};
use std::process::Abort;
use std::test::Fail;

#[test]
fn a_source_gives_its_bytes_in_pieces(rt: HostRuntime) -> Result<(), Fail> {
    let alloc = rt.alloc();
    let bytes = b"abcde".to_vec(alloc)?;
    let failing = vec![in alloc; 2, 5]?;
    let mut source = MemorySource::new(bytes, 2, failing);
    let mut room = [b'.'; 3];
    let calls: [(Result<usize, Failed>, &[u8]); 6] = [
        (Ok(2), b"ab."),
        (Err(Failed), b"ab."),
        (Ok(2), b"cd."),
        (Ok(1), b"ed."),
        (Err(Failed), b"ed."),
        (Ok(0), b"ed."),
    ];
    for (answer, piece) in calls.iter() {
        assert_eq!(rt; source.read(&mut room), *answer);
        assert!(rt; room.as_slice() == *piece);
    }
    drop(source);
    Ok(())
}

#[test]
fn a_sink_takes_bytes_in_pieces(rt: HostRuntime) -> Result<(), Fail> {
    let alloc = rt.alloc();
    let failing = vec![in alloc; 3]?;
    let mut sink = MemorySink::new(alloc, 2, failing);
    let some = sink.write(b"abc");
    let failed = write_all(&mut sink, b"cde");
    assert_eq!(rt; (some, failed), (Ok(2), Err(WriteFault::Failed)));
    assert!(rt; sink.bytes() == b"abcd".as_slice());
    let all = write_all(&mut sink, b"efg");
    let none = write_all(&mut sink, b"");
    assert_eq!(rt; (all, none), (Ok(()), Ok(())));
    assert!(rt; sink.bytes() == b"abcdefg".as_slice());
    drop(sink);
    Ok(())
}

// Writes a file whole.
fn write_file(rt: &impl Abort, shelf: &mut MemoryShelf, name: &str, bytes: &[u8])
    requires { shelf.old.hand ≡ Hand.Nothing }
    ensures { shelf.new.hand ≡ Hand.Nothing }
{
    assert!(rt; shelf.create(name).is_ok());
    assert!(rt; write_all(&mut ShelfSink::new(shelf), bytes).is_ok());
    assert!(rt; shelf.close().is_ok());
}

// Reads the first bytes of a file.
fn reads(rt: &impl Abort, shelf: &mut MemoryShelf, name: &str, wanted: &[u8])
    requires { shelf.old.hand ≡ Hand.Nothing }
    ensures { shelf.new.hand ≡ Hand.Nothing }
{
    let mut room = [b'.'; 4];
    assert!(rt; shelf.open(name).is_ok());
    assert!(rt; ShelfSource::new(shelf).read(&mut room).is_ok());
    assert!(rt; room.as_slice() == wanted);
    assert!(rt; shelf.close().is_ok());
}

#[test]
fn a_shelf_keeps_its_files(rt: HostRuntime) -> Result<(), Fail> {
    let alloc = rt.alloc();
    let bytes = b"z".to_vec(alloc)?;
    let mut shelf = MemoryShelf::new(alloc, 3, Vec::new(alloc));
    write_file(&rt, &mut shelf, "b", b"12345");
    write_file(&rt, &mut shelf, "a", b"xy");
    reads(&rt, &mut shelf, "b", b"123.");
    reads(&rt, &mut shelf, "a", b"xy..");
    write_file(&rt, &mut shelf, "b", b"");
    assert!(rt; shelf.put("c", bytes).is_ok());
    reads(&rt, &mut shelf, "c", b"z...");
    assert!(rt; shelf.file("b") == Some(b"".as_slice()));
    assert!(rt; shelf.file("d").is_none());
    assert_eq!(rt; shelf.open("d"), Err(OpenFault::NoFile));
    drop(shelf);
    Ok(())
}

#[test]
fn a_shelf_fails_at_its_calls(rt: HostRuntime) -> Result<(), Fail> {
    let alloc = rt.alloc();
    let failing = vec![in alloc; 1, 4]?;
    let mut shelf = MemoryShelf::new(alloc, 3, failing);
    assert_eq!(rt; shelf.create("a"), Err(WriteFault::Failed));
    assert!(rt; shelf.file("a").is_none());
    assert_eq!(rt; shelf.create("a"), Ok(()));
    assert_eq!(rt; shelf.write(b"wxyz"), Ok(3));
    assert_eq!(rt; shelf.write(b"z"), Err(WriteFault::Failed));
    assert!(rt; shelf.file("a") == Some(b"wxy".as_slice()));
    drop(shelf);
    Ok(())
}
