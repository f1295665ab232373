use block_records::Terminals;
use edit_words::{Step, Tag};
use odb_base::{Kind, Name, Placement};
use std::alloc::Global;
use std::process::Abort;
use std::test::Fail;

#[test]
fn tags_and_copies(rt: HostRuntime) -> Result<(), Fail> {
    let alloc = rt.alloc();
    let mut terminals = Terminals::new(alloc);
    terminals.push(4)?;
    let name = Name::new(alloc, b"u1")?;
    let made = Step::NewInst {
        id: 2,
        name,
        master: 3,
        terminals,
    };
    has_tag(&rt, made, Tag::NewInst { id: 2, master: 3 });
    let kind = Kind::Inst;
    let place = Placement::UNPLACED;
    let placed = Step::Place { kind, id: 2, place };
    has_tag(&rt, placed, Tag::Place { kind, id: 2 });
    let kind = Kind::ITerm;
    let joined = Step::Join {
        kind,
        id: 5,
        net: 1,
    };
    has_tag(
        &rt,
        joined,
        Tag::Join {
            kind,
            id: 5,
            net: 1,
        },
    );
    Ok(())
}

// A step has this tag, and so has a copy of it.
fn has_tag(rt: &impl Abort, step: Step, tag: Tag) {
    assert_eq!(rt; step.tag(), tag);
    match step.try_clone() {
        Ok(copy) => is_tagged(rt, copy, tag),
        Err(_) => panic!(rt; "no memory for a copy"),
    }
    drop(step);
}

fn is_tagged(rt: &impl Abort, step: Step, tag: Tag) {
    assert_eq!(rt; step.tag(), tag);
    drop(step);
}
