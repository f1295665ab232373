//! Files of saved bytes, and of bytes that are no saved database.

use super::{Given, plain, run};
use odb_run::Status;
use std::alloc::{AllocError, Global};
use std::process::Abort;
use std::test::Fail;

// The saved bytes of the database with the net `a`.
fn one_net(alloc: Global) -> Result<Vec<u8>, AllocError> {
    let mut bytes = b"ODBS\x01\x00\x00\x00".to_vec(alloc)?;
    push_zeros(&mut bytes, 24)?;
    bytes.extend_from_slice(b"\x01\x00\x00\x00/\x02\x00\x00\x00[]")?;
    push_zeros(&mut bytes, 25)?;
    bytes.extend_from_slice(b"\x01\x00\x00\x00\x01\x01\x00\x00\x00a")?;
    push_zeros(&mut bytes, 98)?;
    Ok(bytes)
}

fn push_zeros(bytes: &mut Vec<u8>, count: usize) -> Result<(), AllocError> {
    for _ in 0..count {
        bytes.push(0)?;
    }
    Ok(())
}

// The reply to a file of these bytes, which is refused.
fn refuses(rt: &impl Abort, alloc: Global, bytes: &[u8], reply: &[u8]) -> Result<(), Fail> {
    let outcome = run(alloc, plain(1), b"load f\nlist net\n", bytes)?;
    let mut wanted = b"refused 34 SavedText ".to_vec(alloc)?;
    wanted.extend_from_slice(reply)?;
    wanted.extend_from_slice(b"\nok 0\n")?;
    assert_eq!(rt; outcome.status, Status::Refused);
    assert!(rt; outcome.replies == wanted);
    assert!(rt; outcome.file.as_slice() == bytes);
    Ok(())
}

// The first bytes of the saved net, so many, and then others.
fn front(alloc: Global, count: usize, others: &[u8]) -> Result<Vec<u8>, AllocError> {
    let mut bytes = one_net(alloc)?;
    bytes.truncate(count);
    bytes.extend_from_slice(others)?;
    Ok(bytes)
}

// The bytes of the saved net with another byte at a place.
fn changed(alloc: Global, at: usize, byte: u8) -> Result<Vec<u8>, AllocError> {
    let mut bytes = one_net(alloc)?;
    if let Some(place) = bytes.get_mut(at) {
        *place = byte;
    }
    Ok(bytes)
}

#[test]
fn what_is_no_saved_database_is_refused(rt: HostRuntime) -> Result<(), Fail> {
    let alloc = rt.alloc();
    refuses(&rt, alloc, b"ODB", b"NotSaved")?;
    refuses(&rt, alloc, &front(alloc, 175, b"")?, b"Cut 175")?;
    refuses(&rt, alloc, &front(alloc, 176, b"\0")?, b"Trailing 176")?;
    refuses(&rt, alloc, &changed(alloc, 4, 2)?, b"Version 2")?;
    refuses(&rt, alloc, &changed(alloc, 79, 2)?, b"BadField 79")?;
    refuses(&rt, alloc, &free_twice(alloc)?, b"Unsound net 0")
}

// The bytes of a net table with an empty slot whose identifier is free twice.
fn free_twice(alloc: Global) -> Result<Vec<u8>, AllocError> {
    let table = b"\x01\0\0\0\0\x02\0\0\0\x01\0\0\0\x01\0\0\0";
    let mut bytes = front(alloc, 68, table)?;
    push_zeros(&mut bytes, 72)?;
    Ok(bytes)
}

// The database has the cap of the command line, whatever the one that was saved had.
#[test]
fn a_loaded_database_has_the_cap_of_the_command_line(rt: HostRuntime) -> Result<(), Fail> {
    let alloc = rt.alloc();
    let words: [&[u8]; 2] = [b"--slots", b"1"];
    let given = Given {
        words: &words,
        pieces: (1000, 1000),
        failing: (0, 0, 0),
    };
    let outcome = run(
        alloc,
        given,
        b"load f\nnew_net b\nsave f\n",
        &one_net(alloc)?,
    )?;
    assert_eq!(rt; outcome.status, Status::Refused);
    assert!(rt;
        outcome.replies.as_slice() == b"ok 176\nrefused 15 TableFull net\nok 176\n".as_slice()
    );
    assert!(rt; outcome.file == one_net(alloc)?);
    Ok(())
}
