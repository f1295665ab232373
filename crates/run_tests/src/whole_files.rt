//! Files that are read and written whole, where calls fail.

ghost use Rattle.std.specs.Prelude.{◌≡◌, IsTrue, OnOk};
ghost use Rattle.std.specs.List.{list_all};
ghost use Rattle.odb_outside.specs.Calls.{is_call_number};
ghost use Rattle.odb_outside.specs.declared.shelf.Hand.TheVariants as hands;

use odb_outside::MemoryShelf;
use shelf_files::{FileFault, FileRead, read_file, write_file};
use std::alloc::Global;
use std::process::Abort;
use std::test::Fail;

// A file that is written is read as it was written.
fn is_kept(
    rt: &impl Abort,
    alloc: Global,
    shelf: &mut MemoryShelf,
    bytes: &[u8],
) -> Result<(), Fail>
    requires { shelf.old.hand ≡ hands.Nothing }
    ensures { OnOk result (shelf.new.hand ≡ hands.Nothing) }
{
    if write_file(shelf, "a", bytes).is_err() {
        return Err(Fail::from("not written"));
    }
    match read_file(alloc, shelf, "a") {
        Ok(FileRead::Bytes(read)) => assert!(rt; read.as_slice() == bytes),
        _ => return Err(Fail::from("not read")),
    }
    Ok(())
}

#[test]
fn a_file_is_read_as_it_was_written(rt: HostRuntime) -> Result<(), Fail> {
    let alloc = rt.alloc();
    let mut shelf = MemoryShelf::new(alloc, 3, Vec::new(alloc));
    is_kept(&rt, alloc, &mut shelf, b"longer")?;
    is_kept(&rt, alloc, &mut shelf, b"abc")?;
    is_kept(&rt, alloc, &mut shelf, b"")?;
    match read_file(alloc, &mut shelf, "b") {
        Ok(FileRead::NoFile) => Ok(()),
        _ => Err(Fail::from("a file that isn't there")),
    }
}

// What is left of six bytes, written in pieces of three, where the calls of these numbers fail.
fn left(alloc: Global, failing: Vec<u64>) -> Result<Option<Vec<u8>>, Fail>
    requires { IsTrue (list_all is_call_number failing.items) }
{
    let mut shelf = MemoryShelf::new(alloc, 3, failing);
    match write_file(&mut shelf, "a", b"sixsix") {
        Err(FileFault::Failed) => {}
        _ => return Err(Fail::from("no fault")),
    }
    match shelf.file("a") {
        Some(bytes) => Ok(Some(bytes.to_vec(alloc)?)),
        None => Ok(None),
    }
}

// The calls are one that makes the file, two that write, and one that puts it back.
#[test]
fn a_failing_write_leaves_a_prefix(rt: HostRuntime) -> Result<(), Fail> {
    let alloc = rt.alloc();
    assert!(rt; left(alloc, vec![in alloc; 1]?)?.is_none());
    assert!(rt; left(alloc, vec![in alloc; 2]?)? == Some(b"".to_vec(alloc)?));
    assert!(rt; left(alloc, vec![in alloc; 3]?)? == Some(b"six".to_vec(alloc)?));
    assert!(rt; left(alloc, vec![in alloc; 4]?)? == Some(b"sixsix".to_vec(alloc)?));
    Ok(())
}
