ghost use Rattle.std.specs.Prelude.{◌≡◌, ◌<◌, ◌*◌, ℕ, IfOk, IfSome, IsTrue};
ghost use Rattle.block_store.specs.Alone.{CanEnter, InNoTerms, IsAlone};
ghost use Rattle.block_store.specs.Lists.{list_at};
ghost use Rattle.block_store.specs.Names.{IsFree, IsFreeBut};
ghost use Rattle.odb_base.specs.Ids.{holds};
ghost use Rattle.odb_base.specs.declared.codes.kind.Kind.TheVariants as kind;

use block_records::{ITermRec, InstRec, NetRec, Record};
use block_store::{Block, ListOf, RoomFault, SLOT_LIMIT};
use odb_base::codes::Coded;
use odb_base::{ITermId, InstId, Kind, List, Name, NetId, Placement, Steps, Text, Usage};
use slot_pool::Taken;
use std::alloc::Global;
use std::marker::Brand;
use std::process::Abort;
use std::sync::ledger::{Blank, Ledger};
use std::test::Fail;

#[test]
fn each_kind_has_room_up_to_the_cap(rt: HostRuntime) -> Result<(), Fail> {
    let mut block = Block::new(rt.alloc(), 2)?;
    has_room_for_two(&rt, &mut block);
    drop(block);
    let mut block = Block::new(rt.alloc(), SLOT_LIMIT)?;
    has_room_up_to_the_limit(&rt, &mut block);
    drop(block);
    Ok(())
}

fn has_room_for_two(rt: &impl Abort, block: &mut Block) {
    assert_eq!(rt; block.cap(), 2);
    for kind in Kind::every() {
        assert_eq!(rt; block.room(*kind, 2), Ok(()));
        let full = RoomFault::Full { kind: *kind };
        assert_eq!(rt; block.room(*kind, 3), Err(full));
        is_without(rt, block, *kind);
    }
}

// A table may have 16,777,215 slots. Of the twelve that of the instance terminals takes the least memory.
fn has_room_up_to_the_limit(rt: &impl Abort, block: &mut Block) {
    let kind = Kind::ITerm;
    let full = RoomFault::Full { kind };
    assert_eq!(rt; block.room(kind, 16_777_216), Err(full));
    assert_eq!(rt; block.room(kind, 16_777_215), Ok(()));
}

fn is_without(rt: &impl Abort, block: &Block, kind: Kind) {
    assert_eq!(rt; (block.slots(kind), block.live_count(kind)), (0, 0));
    let ids = (block.ids(kind).next(), block.free_ids(kind).next());
    assert_eq!(rt; ids, (None, None));
    assert!(rt; block.find(kind, b"a").is_none() && block.name_of(kind, 1).is_none());
}

#[test]
fn nets_come_and_go(rt: HostRuntime) -> Result<(), Fail> {
    nets_with_names::<Brand>(&rt, rt.alloc(), Blank::new(1))
}

// Three nets, of which one is renamed, one goes and is back, and one is taken back.
fn nets_with_names<L: Ledger>(rt: &impl Abort, alloc: Global, blank: Blank) -> Result<(), Fail>
    requires name { blank.name ≡ L.name }
    requires parts { blank.parts ≡ L.parts }
    requires some { blank.parts ≡ 1 }
{
    let mut moves = Steps::<L>::new(blank);
    let mut block = Block::new(alloc, 10)?;
    let done = take_and_change_nets(rt, alloc, &mut block, &mut moves);
    drop(block);
    done
}

fn take_and_change_nets<L: Ledger>(
    rt: &impl Abort,
    alloc: Global,
    block: &mut Block,
    moves: &mut Steps<L>,
) -> Result<(), Fail> {
    take_net(rt, alloc, block, b"a", 1, moves)?;
    take_net(rt, alloc, block, b"b", 2, moves)?;
    take_net(rt, alloc, block, b"c", 3, moves)?;
    change_nets(rt, alloc, block, moves)
}

fn change_nets<L: Ledger>(
    rt: &impl Abort,
    alloc: Global,
    block: &mut Block,
    moves: &mut Steps<L>,
) -> Result<(), Fail> {
    rename_net(rt, alloc, block, 2, b"d", moves)?;
    finds(rt, block);
    let gone = give_net(rt, block, 2, moves);
    has_one_gone(rt, block);
    ungive_net(rt, block, gone, moves);
    finds(rt, block);
    untake_net(rt, block, 3, moves);
    Ok(())
}

fn finds(rt: &impl Abort, block: &Block) {
    let found = (block.find(Kind::Net, b"d"), block.find(Kind::Net, b"b"));
    assert_eq!(rt; found, (Some(2), None));
    assert!(rt; block.find(Kind::Inst, b"d").is_none());
    assert!(rt;
        block
            .name_of(Kind::Net, 2)
            .is_some_and(|name| name.bytes() == b"d".as_slice())
    );
}

fn has_one_gone(rt: &impl Abort, block: &Block) {
    let mut live = block.ids(Kind::Net);
    assert_eq!(rt;
        (live.next(), live.next(), live.next()),
        (Some(1), Some(3), None)
    );
    let mut free = block.free_ids(Kind::Net);
    assert_eq!(rt; (free.next(), free.next()), (Some(2), None));
    assert!(rt; block.live_count(Kind::Net) == 2 && block.net(NetId(2)).is_none());
}

#[test]
fn terminals_of_a_net(rt: HostRuntime) -> Result<(), Fail> {
    joined_terminals::<Brand>(&rt, rt.alloc(), Blank::new(1))
}

// Three terminals of an instance enter the list of a net; two of them leave it, and are back at their places.
fn joined_terminals<L: Ledger>(rt: &impl Abort, alloc: Global, blank: Blank) -> Result<(), Fail>
    requires name { blank.name ≡ L.name }
    requires parts { blank.parts ≡ L.parts }
    requires some { blank.parts ≡ 1 }
{
    let mut moves = Steps::<L>::new(blank);
    let mut block = Block::new(alloc, 10)?;
    let done = join_terminals(rt, alloc, &mut block, &mut moves);
    drop(block);
    done
}

fn join_terminals<L: Ledger>(
    rt: &impl Abort,
    alloc: Global,
    block: &mut Block,
    moves: &mut Steps<L>,
) -> Result<(), Fail> {
    take_inst(rt, alloc, block, b"u1", moves)?;
    take_net(rt, alloc, block, b"n1", 1, moves)?;
    join_three(rt, block, moves)?;
    has_all_terms(rt, block);
    part_and_back(rt, block, 2, Some(2), moves)?;
    has_all_terms(rt, block);
    part_and_back(rt, block, 1, None, moves)?;
    has_all_terms(rt, block);
    Ok(())
}

fn join_three<L: Ledger>(
    rt: &impl Abort,
    block: &mut Block,
    moves: &mut Steps<L>,
) -> Result<(), Fail> {
    take_iterm(rt, block, 1, moves)?;
    join(rt, block, 1, moves)?;
    take_iterm(rt, block, 2, moves)?;
    join(rt, block, 2, moves)?;
    take_iterm(rt, block, 3, moves)?;
    join(rt, block, 3, moves)
}

fn has_all_terms(rt: &impl Abort, block: &Block) {
    let mut terms = block.walk(ListOf::Terms(NetId(1)));
    let members = (terms.next(), terms.next(), terms.next(), terms.next());
    assert_eq!(rt; members, (Some(6), Some(4), Some(2), None));
    assert!(rt; block.inst(InstId(1)).is_some());
    assert!(rt; block.iterm(ITermId(3)).is_some_and(|r| r.net == 1));
    assert!(rt; block.walk(ListOf::InstTerms(InstId(1))).next().is_none());
}

// The calls below check what the block's calls need, and make them.

fn take_net<L: Ledger>(
    rt: &impl Abort,
    alloc: Global,
    block: &mut Block,
    name: &[u8],
    id: u32,
    moves: &mut Steps<L>,
) -> Result<(), Fail> {
    block.room(Kind::Net, 1)?;
    let record = net(alloc, name)?;
    assert!(rt; is_free(block, Kind::Net, &record.name));
    assert_eq!(rt;
        block.take(Record::Net(record), moves),
        Taken { id, grew: true }
    );
    Ok(())
}

fn take_inst<L: Ledger>(
    rt: &impl Abort,
    alloc: Global,
    block: &mut Block,
    name: &[u8],
    moves: &mut Steps<L>,
) -> Result<(), Fail> {
    block.room(Kind::Inst, 1)?;
    let record = inst(alloc, name)?;
    assert!(rt; is_free(block, Kind::Inst, &record.name));
    assert_eq!(rt; block.take(Record::Inst(record), moves).id, 1);
    Ok(())
}

fn take_iterm<L: Ledger>(
    rt: &impl Abort,
    block: &mut Block,
    id: u32,
    moves: &mut Steps<L>,
) -> Result<(), Fail> {
    block.room(Kind::ITerm, 1)?;
    let record = ITermRec {
        inst: 1,
        index: 0,
        net: 0,
    };
    assert_eq!(rt; block.take(Record::ITerm(record), moves).id, id);
    Ok(())
}

fn rename_net<L: Ledger>(
    rt: &impl Abort,
    alloc: Global,
    block: &mut Block,
    id: u32,
    name: &[u8],
    moves: &mut Steps<L>,
) -> Result<(), Fail> {
    let name = Name::new(alloc, name)?;
    assert!(rt; block.live(Kind::Net, id));
    assert!(rt; is_free(block, Kind::Net, &name));
    let had = block.rename(Kind::Net, id, name, moves);
    assert_eq!(rt; had.bytes(), b"b".as_slice());
    Ok(())
}

fn give_net<L: Ledger>(
    rt: &impl Abort,
    block: &mut Block,
    id: u32,
    moves: &mut Steps<L>,
) -> NetRec {
    assert!(rt; block.live(Kind::Net, id));
    assert!(rt; has_no_lists(block, id));
    match block.give(Kind::Net, id, moves) {
        Record::Net(net) => net,
        _ => unreachable!(),
    }
}

fn ungive_net<L: Ledger>(rt: &impl Abort, block: &mut Block, net: NetRec, moves: &mut Steps<L>) {
    assert_eq!(rt; block.free_ids(Kind::Net).next(), Some(2));
    assert!(rt; is_free(block, Kind::Net, &net.name));
    assert_eq!(rt; block.ungive(Record::Net(net), moves), 2);
}

fn untake_net<L: Ledger>(rt: &impl Abort, block: &mut Block, id: u32, moves: &mut Steps<L>) {
    assert!(rt; block.live(Kind::Net, id));
    assert!(rt; has_no_lists(block, id));
    assert!(rt; block.slots(Kind::Net) == id);
    assert!(rt; block.free_ids(Kind::Net).next().is_none());
    drop(block.untake(Kind::Net, id, true, moves));
}

// A terminal of an instance enters the list of net 1 in front.
fn join<L: Ledger>(
    rt: &impl Abort,
    block: &mut Block,
    iterm: u32,
    moves: &mut Steps<L>,
) -> Result<(), Fail>
    requires { iterm < 100 }
{
    let list = ListOf::Terms(NetId(1));
    block.room_in(list)?;
    assert!(rt; can_enter(block, iterm));
    block.link(list, 2 * iterm, moves);
    assert!(rt; block.live(Kind::ITerm, iterm));
    assert_eq!(rt; block.set_net(Kind::ITerm, iterm, 1, moves), 0);
    Ok(())
}

// A terminal of an instance leaves the list of net 1, and is back before the member after it.
fn part_and_back<L: Ledger>(
    rt: &impl Abort,
    block: &mut Block,
    iterm: u32,
    next: Option<u32>,
    moves: &mut Steps<L>,
) -> Result<(), Fail>
    requires { iterm < 100 }
{
    assert_eq!(rt; part(rt, block, iterm, moves), next);
    join_before(rt, block, iterm, next, moves)
}

// A terminal of an instance leaves the list of net 1.
fn part<L: Ledger>(
    rt: &impl Abort,
    block: &mut Block,
    iterm: u32,
    moves: &mut Steps<L>,
) -> Option<u32>
    requires { iterm < 100 }
{
    let list = ListOf::Terms(NetId(1));
    assert!(rt; block.live(Kind::Net, 1));
    assert!(rt; is_member(block, list, 2 * iterm));
    block.unlink(list, 2 * iterm, moves)
}

fn join_before<L: Ledger>(
    rt: &impl Abort,
    block: &mut Block,
    iterm: u32,
    next: Option<u32>,
    moves: &mut Steps<L>,
) -> Result<(), Fail>
    requires { iterm < 100 }
{
    let list = ListOf::Terms(NetId(1));
    block.room_in(list)?;
    assert!(rt; can_enter(block, iterm));
    assert!(rt; is_place(block, list, next));
    block.relink(list, 2 * iterm, next, moves);
    Ok(())
}

fn is_place(block: &Block, list: ListOf, next: Option<u32>) -> bool
    ensures { IsTrue result → IfSome next (λ other. IsTrue (holds (list_at list block.now.block) other)) }
{
    match next {
        Some(other) => is_member(block, list, other),
        None => true,
    }
}

// Whether a terminal of an instance may enter the list of net 1.
fn can_enter(block: &Block, iterm: u32) -> bool
    requires { iterm < 100 }
    ensures { IsTrue result → CanEnter (ListOf.Terms (record { 0 = 1 })) (2 * iterm) block.now.block }
{
    if block.live(Kind::Net, 1) {
        if block.live(Kind::ITerm, iterm) {
            return is_in_no_terms(block, 2 * iterm);
        }
    }
    false
}

fn is_free(block: &Block, kind: Kind, name: &Name) -> bool
    ensures free { IsTrue result → IsFree kind name.now block.now.block }
    ensures but { IsTrue result → (id : ℕ) → IsFreeBut kind id name.now block.now.block }
{
    match block.find(kind, name.bytes()) {
        None => true,
        Some(_) => false,
    }
}

fn has_no_lists(block: &Block, net: u32) -> bool
    ensures { IsTrue result → IsAlone kind.Net net block.now.block }
{
    block.walk(ListOf::Terms(NetId(net))).next().is_none()
        && block.walk(ListOf::Wires(NetId(net))).next().is_none()
        && block.walk(ListOf::Props(Kind::Net, net)).next().is_none()
}

fn is_member(block: &Block, list: ListOf, member: u32) -> bool
    ensures { result ≡ holds (list_at list block.now.block) member }
{
    is_among(block.members(list), member)
}

fn is_among(members: &[u32], member: u32) -> bool
    ensures { result ≡ holds members.now member }
{
    members.iter().any(|other| *other == member)
}

fn is_in_no_terms(block: &Block, member: u32) -> bool
    ensures { IsTrue result → InNoTerms member block.now.block }
{
    for net in 0..block.slots(Kind::Net) {
        if is_member(block, ListOf::Terms(NetId(net + 1)), member) {
            return false;
        }
    }
    true
}

fn net(alloc: Global, name: &[u8]) -> Result<NetRec, Fail>
    ensures { IfOk result (λ net. net.name ≡ name.now) }
{
    Ok(NetRec {
        name: Name::new(alloc, name)?,
        usage: Usage::Signal,
        special: false,
        kept: Text::new(alloc, b"")?,
        special_kept: Text::new(alloc, b"")?,
    })
}

fn inst(alloc: Global, name: &[u8]) -> Result<InstRec, Fail>
    ensures { IfOk result (λ inst. inst.name ≡ name.now) }
{
    Ok(InstRec {
        name: Name::new(alloc, name)?,
        master: 1,
        place: Placement::UNPLACED,
        group: 0,
        terminals: List::new(alloc),
        kept: Text::new(alloc, b"")?,
    })
}
