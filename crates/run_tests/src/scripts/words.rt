//! Command lines.

use super::{Given, run};
use odb_run::Status;
use std::alloc::Global;
use std::process::Abort;
use std::test::Fail;

const TWO_NETS: &[u8] = b"new_net a\nnew_net b\n";

// Command lines that aren't lawful.
const UNLAWFUL: [&[&[u8]]; 7] = [
    &[b"--stop"],
    &[b"--slots"],
    &[b"--slots", b"0"],
    &[b"--slots", b"16777216"],
    &[b"--slots", b"02"],
    &[b"--slot", b"2"],
    &[b"--slots", b"2", b"2"],
];

#[test]
fn unlawful_words_are_a_usage_fault(rt: HostRuntime) -> Result<(), Fail> {
    for words in UNLAWFUL.iter() {
        is_answered(&rt, rt.alloc(), *words, TWO_NETS, b"", Status::Usage)?;
    }
    Ok(())
}

// With these words the script has these replies, and the run this status.
fn is_answered(
    rt: &impl Abort,
    alloc: Global,
    words: &[&[u8]],
    script: &[u8],
    replies: &[u8],
    status: Status,
) -> Result<(), Fail> {
    let given = Given {
        words,
        pieces: (100, 100),
        failing: (0, 0, 0),
    };
    let outcome = run(alloc, given, script, b"")?;
    assert_eq!(rt; outcome.status, status);
    assert!(rt; outcome.replies.as_slice() == replies);
    Ok(())
}

// How many slots a table has at most, a script, and the replies to it.
struct Row {
    slots: &'static [u8],
    script: &'static [u8],
    replies: &'static [u8],
    status: Status,
}

const ROWS: [Row; 4] = [
    Row {
        slots: b"16777215",
        script: TWO_NETS,
        replies: b"ok 1 1 0 0 0\nok 2 1 0 0 0\n",
        status: Status::Done,
    },
    // A full table refuses, and a slot that is freed is taken again.
    Row {
        slots: b"2",
        script: b"new_net a\nnew_net b\nnew_net c\ndestroy net 1\nnew_net c\n",
        replies: b"ok 1 1 0 0 0\nok 2 1 0 0 0\nrefused 15 TableFull net\nok 0 1 0 0 0\nok 1 1 0 0 0\n",
        status: Status::Refused,
    },
    Row {
        slots: b"2",
        script: b"master M 1 1 A - B - C -\nnew_inst i M\n",
        replies: b"ok 1\nrefused 15 TableFull iterm\n",
        status: Status::Refused,
    },
    // An undo gives a slot back.
    Row {
        slots: b"2",
        script: b"new_net a\neco_begin\nnew_net b\nnew_net c\nnew_net a\neco_undo\nnew_net c\n",
        replies: b"ok 1 1 0 0 0\nok\nok 2 1 0 0 0\nrefused 15 TableFull net\nrefused 6 NameTaken 1\nok 1\nok 2 1 0 0 0\n",
        status: Status::Refused,
    },
];

#[test]
fn tables_have_the_slots_of_the_command_line(rt: HostRuntime) -> Result<(), Fail> {
    for row in ROWS.iter() {
        let words: [&[u8]; 2] = [b"--slots", row.slots];
        is_answered(&rt, rt.alloc(), &words, row.script, row.replies, row.status)?;
    }
    Ok(())
}
