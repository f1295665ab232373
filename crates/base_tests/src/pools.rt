ghost use Rattle.std.specs.Prelude.{◌≡◌};

use odb_base::Steps;
use slot_pool::{PoolFault, Slot, SlotPool, Taken};
use std::alloc::Global;
use std::marker::Brand;
use std::process::Abort;
use std::sync::ledger::{Blank, Ledger};
use std::test::Fail;

#[test]
fn ids_are_taken_again(rt: HostRuntime) -> Result<(), Fail> {
    taken_again::<Brand>(&rt, rt.alloc(), Blank::new(1))?;
    untaken::<Brand>(&rt, rt.alloc(), Blank::new(1))
}

fn grown(id: u32) -> Taken {
    Taken { id, grew: true }
}

fn again(id: u32) -> Taken {
    Taken { id, grew: false }
}

// Three takes and two gives: which ids come next.
fn taken_again<L: Ledger>(rt: &impl Abort, alloc: Global, blank: Blank) -> Result<(), Fail>
    requires name { blank.name ≡ L.name }
    requires parts { blank.parts ≡ L.parts }
    requires some { blank.parts ≡ 1 }
{
    let mut moves = Steps::<L>::new(blank);
    let mut pool = SlotPool::new(alloc, 10);
    pool.reserve(3)?;
    let taken = [
        pool.take(b'a', &mut moves),
        pool.take(b'b', &mut moves),
        pool.take(b'c', &mut moves),
    ];
    assert_eq!(rt; taken, [grown(1), grown(2), grown(3)]);
    assert!(rt; pool.live(2));
    assert_eq!(rt; pool.give(2, &mut moves), b'b');
    assert!(rt; pool.live(1));
    assert_eq!(rt; pool.give(1, &mut moves), b'a');
    let next = [
        pool.next_id(0),
        pool.next_id(1),
        pool.next_id(2),
        pool.next_id(3),
    ];
    assert_eq!(rt; next, [1, 2, 4, 5]);
    assert_eq!(rt; (pool.slots(), pool.live_count(), pool.cap()), (3, 1, 10));
    Ok(())
}

// Two takes of ids that were given, and their ways back.
fn untaken<L: Ledger>(rt: &impl Abort, alloc: Global, blank: Blank) -> Result<(), Fail>
    requires name { blank.name ≡ L.name }
    requires parts { blank.parts ≡ L.parts }
    requires some { blank.parts ≡ 1 }
{
    let mut moves = Steps::<L>::new(blank);
    let mut pool = SlotPool::new(alloc, 10);
    pool.reserve(2)?;
    pool.take(b'a', &mut moves);
    pool.take(b'b', &mut moves);
    assert!(rt; pool.live(2));
    pool.give(2, &mut moves);
    assert!(rt; pool.live(1));
    pool.give(1, &mut moves);
    let first = pool.take(b'd', &mut moves);
    let second = pool.take(b'e', &mut moves);
    assert_eq!(rt; (first, second), (again(1), again(2)));
    let last = pool.untake(second.id, second.grew, &mut moves);
    let before = pool.untake(first.id, first.grew, &mut moves);
    assert_eq!(rt; (last, before), (b'e', b'd'));
    let free: Vec<u32> = pool.free().collect(alloc)?;
    assert_eq!(rt; free.as_slice(), [1, 2].as_slice());
    Ok(())
}

#[test]
fn room_and_records(rt: HostRuntime) -> Result<(), Fail> {
    full_pool::<Brand>(&rt, rt.alloc(), Blank::new(1))?;
    kept_record::<Brand>(&rt, rt.alloc(), Blank::new(1))
}

// Two slots at most: when a take has no room.
fn full_pool<L: Ledger>(rt: &impl Abort, alloc: Global, blank: Blank) -> Result<(), Fail>
    requires name { blank.name ≡ L.name }
    requires parts { blank.parts ≡ L.parts }
    requires some { blank.parts ≡ 1 }
{
    let mut moves = Steps::<L>::new(blank);
    let mut pool = SlotPool::new(alloc, 2);
    pool.reserve(1)?;
    let first = pool.take(10u8, &mut moves);
    pool.reserve(1)?;
    let second = pool.take(20u8, &mut moves);
    assert_eq!(rt; pool.reserve(1), Err(PoolFault::Full));
    assert_eq!(rt; pool.untake(second.id, second.grew, &mut moves), 20);
    assert_eq!(rt;
        (first.id, second.id, pool.slots(), pool.next_id(0)),
        (1, 2, 1, 2)
    );
    Ok(())
}

// What is read, replaced and given.
fn kept_record<L: Ledger>(rt: &impl Abort, alloc: Global, blank: Blank) -> Result<(), Fail>
    requires name { blank.name ≡ L.name }
    requires parts { blank.parts ≡ L.parts }
    requires some { blank.parts ≡ 1 }
{
    let mut moves = Steps::<L>::new(blank);
    let mut pool = SlotPool::new(alloc, 2);
    pool.reserve(1)?;
    let first = pool.take(10u8, &mut moves);
    assert_eq!(rt; pool.replace(first.id, 11, &mut moves), 10);
    *pool.change(first.id, &mut moves) = 12;
    assert_eq!(rt; pool.give(first.id, &mut moves), 12);
    assert_eq!(rt;
        (pool.live(1), pool.get(1).copied(), pool.live_count()),
        (false, None, 0)
    );
    assert_eq!(rt; pool.ungive(13, &mut moves), 1);
    assert_eq!(rt;
        (
            pool.get(0).copied(),
            pool.get(1).copied(),
            pool.get(2).copied()
        ),
        (None, Some(13), None)
    );
    Ok(())
}

#[test]
fn slots_lie_in_pages(rt: HostRuntime) -> Result<(), Fail> {
    three_pages::<Brand>(&rt, rt.alloc(), Blank::new(1))
}

// A record, or the id below an empty slot's in the free list.
#[derive(Clone, Copy, Debug, PartialEq, Eq)]
enum Held {
    Record(u8),
    Below(u32),
}

fn held_by(slot: &Slot<u8>) -> Held {
    match slot {
        Slot::Live(record) => Held::Record(*record),
        Slot::Free { below } => Held::Below(*below),
    }
}

// 257 slots, one of each page empty: what the pages lend.
fn three_pages<L: Ledger>(rt: &impl Abort, alloc: Global, blank: Blank) -> Result<(), Fail>
    requires name { blank.name ≡ L.name }
    requires parts { blank.parts ≡ L.parts }
    requires some { blank.parts ≡ 1 }
{
    let mut moves = Steps::<L>::new(blank);
    let mut pool = SlotPool::new(alloc, 300);
    for _ in 0..257 {
        pool.reserve(1)?;
        pool.take(b'a', &mut moves);
    }
    for id in [129, 1, 257] {
        assert!(rt; pool.live(id));
        pool.give(id, &mut moves);
    }
    assert_eq!(rt; (pool.slots(), pool.moved()), (257, 260));
    let rows = [
        (0, 128, Held::Below(129)),
        (1, 128, Held::Below(0)),
        (2, 1, Held::Below(1)),
    ];
    for (k, slots, first) in rows {
        let page = pool.page(k).slots();
        assert_eq!(rt;
            (page.len(), page.first().map(held_by)),
            (slots, Some(first))
        );
    }
    let last = pool.page(0).slots().last().map(held_by);
    assert_eq!(rt; last, Some(Held::Record(b'a')));
    Ok(())
}
