//! Lines as long as they may be, and longer by one.

use super::{plain, run};
use odb_run::Status;
use std::alloc::AllocError;
use std::test::Fail;

// A line of a text and so many letters behind it, and its reply.
struct Row {
    text: &'static [u8],
    letters: usize,
    reply: &'static [u8],
}

const ROWS: [Row; 8] = [
    // A file name has at most 255 bytes.
    Row {
        text: b"save ",
        letters: 255,
        reply: b"ok 148\n",
    },
    Row {
        text: b"save ",
        letters: 256,
        reply: b"refused 22 BadWords\n",
    },
    // A name has at most 4,095.
    Row {
        text: b"new_net ",
        letters: 4_095,
        reply: b"ok 1 1 0 0 0\n",
    },
    Row {
        text: b"new_net ",
        letters: 4_096,
        reply: b"refused 4 BadName 1\n",
    },
    // A line has at most 65,535. A longer one is refused, be it a comment.
    Row {
        text: b"",
        letters: 65_535,
        reply: b"refused 21 UnknownCommand\n",
    },
    Row {
        text: b"",
        letters: 65_536,
        reply: b"refused 23 LongLine\n",
    },
    Row {
        text: b"#",
        letters: 65_534,
        reply: b"",
    },
    Row {
        text: b"#",
        letters: 65_535,
        reply: b"refused 23 LongLine\n",
    },
];

fn push_line(script: &mut Vec<u8>, row: &Row) -> Result<(), AllocError> {
    script.extend_from_slice(row.text)?;
    for _ in 0..row.letters {
        script.push(b'a')?;
    }
    script.push(b'\n')?;
    Ok(())
}

#[test]
fn lines_are_answered_up_to_their_limits(rt: HostRuntime) -> Result<(), Fail> {
    let alloc = rt.alloc();
    let mut script = Vec::new(alloc);
    let mut replies = Vec::new(alloc);
    for row in ROWS.iter() {
        push_line(&mut script, row)?;
        replies.extend_from_slice(row.reply)?;
    }
    let outcome = run(alloc, plain(10_000), &script, b"")?;
    assert_eq!(rt; outcome.status, Status::Refused);
    assert!(rt; outcome.replies == replies);
    Ok(())
}
