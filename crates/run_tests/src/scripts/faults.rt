//! Runs that a fault ends.

use super::{Given, run};
use odb_run::Status;
use std::alloc::Global;
use std::process::Abort;
use std::test::Fail;

// Where calls fail, over a file `f` of the three bytes `old`, and what the run comes to.
struct Row {
    pieces: (u32, u32),
    failing: (u32, u32, u32),
    script: &'static [u8],
    status: Status,
    replies: &'static [u8],
    // How many bytes the file has then.
    held: usize,
}

const ROWS: [Row; 16] = [
    // Reading fails after the first line and a part of the second.
    Row {
        pieces: (12, 100),
        failing: (2, 0, 0),
        script: b"new_net a\nnew_net b\n",
        status: Status::ScriptFault,
        replies: b"ok 1 1 0 0 0\n",
        held: 3,
    },
    // Reading fails at once.
    Row {
        pieces: (12, 100),
        failing: (1, 0, 0),
        script: b"new_net a\nnew_net b\n",
        status: Status::ScriptFault,
        replies: b"",
        held: 3,
    },
    // Writing fails after five bytes of a reply.
    Row {
        pieces: (100, 5),
        failing: (0, 2, 0),
        script: b"new_net a\nnew_net b\n",
        status: Status::OutFault,
        replies: b"ok 1 ",
        held: 3,
    },
    // A save fails where it makes the file, writes its first and its second piece, and puts it back. The replies to the lines before
    // it are written, also those of the same piece of the script.
    Row {
        pieces: (1000, 1000),
        failing: (0, 0, 1),
        script: b"new_net a\nnew_net b\nsave f\nnew_net c\n",
        status: Status::FileFault,
        replies: b"ok 1 1 0 0 0\nok 2 1 0 0 0\n",
        held: 3,
    },
    Row {
        pieces: (1000, 1000),
        failing: (0, 0, 2),
        script: b"new_net a\nsave f\nnew_net c\n",
        status: Status::FileFault,
        replies: b"ok 1 1 0 0 0\n",
        held: 0,
    },
    Row {
        pieces: (1, 1000),
        failing: (0, 0, 3),
        script: b"new_net a\nsave f\nnew_net c\n",
        status: Status::FileFault,
        replies: b"ok 1 1 0 0 0\n",
        held: 100,
    },
    Row {
        pieces: (1000, 1000),
        failing: (0, 0, 4),
        script: b"new_net a\nsave f\n",
        status: Status::FileFault,
        replies: b"ok 1 1 0 0 0\n",
        held: 176,
    },
    // A load fails where it opens the file, reads it, and puts it back.
    Row {
        pieces: (1000, 1000),
        failing: (0, 0, 1),
        script: b"new_net a\nload f\n",
        status: Status::FileFault,
        replies: b"ok 1 1 0 0 0\n",
        held: 3,
    },
    Row {
        pieces: (1, 1000),
        failing: (0, 0, 2),
        script: b"new_net a\nload f\n",
        status: Status::FileFault,
        replies: b"ok 1 1 0 0 0\n",
        held: 3,
    },
    Row {
        pieces: (1000, 1000),
        failing: (0, 0, 3),
        script: b"new_net a\nload f\n",
        status: Status::FileFault,
        replies: b"ok 1 1 0 0 0\n",
        held: 3,
    },
    Row {
        pieces: (1000, 1000),
        failing: (0, 0, 4),
        script: b"new_net a\nload f\n",
        status: Status::FileFault,
        replies: b"ok 1 1 0 0 0\n",
        held: 3,
    },
    // A LEF file fails.
    Row {
        pieces: (1000, 1000),
        failing: (0, 0, 1),
        script: b"new_net a\nread_lef f\n",
        status: Status::FileFault,
        replies: b"ok 1 1 0 0 0\n",
        held: 3,
    },
    Row {
        pieces: (1000, 1000),
        failing: (0, 0, 2),
        script: b"new_net a\nread_lef f\n",
        status: Status::FileFault,
        replies: b"ok 1 1 0 0 0\n",
        held: 3,
    },
    // A file fails at a last line without LF.
    Row {
        pieces: (1000, 1000),
        failing: (0, 0, 1),
        script: b"new_net a\nsave f",
        status: Status::FileFault,
        replies: b"ok 1 1 0 0 0\n",
        held: 3,
    },
    // A file fails, and then the writing of the replies to the lines before.
    Row {
        pieces: (1000, 1000),
        failing: (0, 1, 1),
        script: b"new_net a\nsave f\n",
        status: Status::OutFault,
        replies: b"",
        held: 3,
    },
    Row {
        pieces: (1000, 5),
        failing: (0, 2, 1),
        script: b"new_net a\nsave f\n",
        status: Status::OutFault,
        replies: b"ok 1 ",
        held: 3,
    },
];

fn ends(rt: &impl Abort, alloc: Global, row: &Row) -> Result<(), Fail> {
    let given = Given {
        words: &[],
        pieces: row.pieces,
        failing: row.failing,
    };
    let outcome = run(alloc, given, row.script, b"old")?;
    assert_eq!(rt; outcome.status, row.status);
    assert!(rt; outcome.replies.as_slice() == row.replies);
    assert_eq!(rt; outcome.file.len(), row.held);
    Ok(())
}

#[test]
fn faults_end_a_run(rt: HostRuntime) -> Result<(), Fail> {
    for row in ROWS.iter() {
        ends(&rt, rt.alloc(), row)?;
    }
    Ok(())
}
