ghost use Rattle.std.specs.Prelude.{◌≡◌, ◌↔◌, ℕ, IsErr, IsOk, IsSome, IsTrue, List, Some, false, length};
ghost use Rattle.slot_pool.specs.Table.{is_live, next_id};
ghost use Rattle.odb_base.specs.Direction.{is_bterm_direction};
ghost use Rattle.odb_base.specs.declared.codes.kind.Kind.TheVariants as kind;
ghost use Rattle.library.specs.Terminals.{term_index};
ghost use Rattle.block_store.specs.Block.{live_in};
ghost use Rattle.block_store.specs.Fields.{net_in, special_in};
ghost use Rattle.block_store.specs.Names.{HasNames};
ghost use Rattle.block_store.specs.Instances.{term_count};
ghost use Rattle.block_store.specs.Rows.{IsRowRec};
ghost use Rattle.block_store.specs.Sound.{IsSound, iterm_net};
ghost use Rattle.steps_net.specs.Can.{AreNext, AreUnjoined, Can, CanDel, CanJoin, CanName, CanNewInst, CanPart, CanPlace, CanRename, CanSetUse, CanSwap};

use crate::masters::master_of;
use block_records::RowRec;
use block_store::block::Block;
use block_store::list_of::ListOf;
use block_store::values::{is_placement, is_row};
use edit_words::Step;
use library::{Library, Master};
use odb_base::{BTermId, Direction, ITermId, InstId, Kind, MasterId, Name, NetId, Placement};
use tech::Tech;

/// The step can't be done.
#[derive(Clone, Copy, Debug, PartialEq, Eq)]
pub struct Misfit;

/// Whether a step may be done. The cap of the tables is no part of it.
pub fn can(block: &Block, tech: &Tech, library: &Library, step: &Step) -> Result<(), Misfit>
    requires { IsSound tech.now library.now block.now.cap block.now.block }
    ensures ok { IsOk result → Can tech.now library.now block.now.block step.now }
    ensures misfit { IsErr result → Can tech.now library.now block.now.block step.now → ⊥ }
{
    if fits(block, tech, library, step) {
        Ok(())
    } else {
        Err(Misfit)
    }
}

fn fits(block: &Block, tech: &Tech, library: &Library, step: &Step) -> bool
    ensures { IsTrue result ↔ Can tech.now library.now block.now.block step.now }
{
    match step {
        Step::NewInst {
            id,
            name,
            master,
            terminals,
        } => can_new_inst(block, library, *id, name, *master, terminals.items()),
        Step::NewNet { id, name } => can_name(block, Kind::Net, *id, name),
        Step::NewBTerm { id, name } => can_name(block, Kind::BTerm, *id, name),
        Step::NewRow { id, row } => can_new_row(block, tech, *id, row),
        Step::Del { kind, id } => can_del(block, *kind, *id),
        Step::Rename { kind, id, name } => can_rename(block, *kind, *id, name),
        Step::Swap { inst, master } => can_swap(block, library, *inst, *master),
        Step::Place { kind, id, place } => can_place(block, *kind, *id, *place),
        Step::SetUse { kind, id, .. } => can_set_use(block, *kind, *id),
        Step::SetDir { bterm, direction } => can_set_direction(block, *bterm, *direction),
        Step::MakeSpecial { net } => can_make_special(block, *net),
        Step::Join { kind, id, net } => can_join(block, *kind, *id, *net),
        Step::Part { kind, id, net } => can_part(block, *kind, *id, *net),
    }
}

fn can_name(block: &Block, kind: Kind, id: u32, name: &Name) -> bool
    ensures { IsTrue result ↔ CanName kind block.now.block id name.now }
{
    u64::from(id) == block.next_id(kind, 0) && block.find(kind, name.bytes()).is_none()
}

fn can_new_inst(
    block: &Block,
    library: &Library,
    id: u32,
    name: &Name,
    master: u32,
    terminals: &[u32],
) -> bool
    ensures { IsTrue result ↔ CanNewInst library.now block.now.block id name.now master terminals.now }
{
    can_name(block, Kind::Inst, id, name)
        && has_terms(library, master, terminals.len())
        && are_next(block, terminals)
}

fn can_new_row(block: &Block, tech: &Tech, id: u32, row: &RowRec) -> bool
    ensures { IsTrue result ↔ CanName kind.Row block.now.block id row.now.name × IsRowRec tech.now row.now }
{
    let named = can_name(block, Kind::Row, id, &row.name);
    named && is_row(tech, row)
}

// A master is in the library and has so many terminals.
fn has_terms(library: &Library, master: u32, count: usize) -> bool
    ensures { IsTrue result ↔ (term_count library.now master ≡ Some count) }
{
    match library.master(MasterId(master)) {
        Some(master) => master.terminals.items().len() == count,
        None => false,
    }
}

// These are the identifiers that new terminals of instances get, in their order.
fn are_next(block: &Block, terminals: &[u32]) -> bool
    ensures { IsTrue result ↔ AreNext terminals.now block.now.block.iterm }
{
    let mut next = block.next_ids(Kind::ITerm);
    let mut are_next = true;
    for id in terminals {
        are_next = are_next && next.next() == Some(*id);
    }
    drop(next);
    are_next
}

fn can_del(block: &Block, kind: Kind, id: u32) -> bool
    ensures { IsTrue result ↔ CanDel block.now.block kind id }
{
    match kind {
        Kind::Inst => block.live(Kind::Inst, id)
            && are_unjoined(block, block.members(ListOf::InstTerms(InstId(id)))),
        Kind::Net => block.live(Kind::Net, id)
            && block.members(ListOf::Terms(NetId(id))).is_empty(),
        Kind::BTerm => net_of(block, Kind::BTerm, id) == Some(0),
        Kind::ITerm => false,
        _ => block.live(kind, id),
    }
}

// None of these terminals of instances is joined.
fn are_unjoined(block: &Block, terminals: &[u32]) -> bool
    ensures { IsTrue result ↔ AreUnjoined terminals.now block.now.block }
{
    for id in terminals {
        if net_of_iterm(block, *id) != 0 {
            return false;
        }
    }
    true
}

fn net_of_iterm(block: &Block, id: u32) -> u32
    ensures { result ≡ iterm_net block.now.block id }
{
    match block.iterm(ITermId(id)) {
        Some(iterm) => iterm.net,
        None => 0,
    }
}

// The net that a terminal is joined to, 0 for none.
fn net_of(block: &Block, kind: Kind, id: u32) -> Option<u32>
    ensures { result ≡ net_in kind id block.now.block }
{
    match kind {
        Kind::ITerm => Some(block.iterm(ITermId(id))?.net),
        Kind::BTerm => Some(block.bterm(BTermId(id))?.net),
        _ => None,
    }
}

fn can_rename(block: &Block, kind: Kind, id: u32, name: &Name) -> bool
    ensures { IsTrue result ↔ CanRename block.now.block kind id name.now }
{
    has_name(block, kind, id) && block.find(kind, name.bytes()).is_none()
}

// An object that is there, of a kind with names.
fn has_name(block: &Block, kind: Kind, id: u32) -> bool
    ensures { IsTrue result ↔ HasNames kind × IsTrue (live_in kind id block.now.block) }
{
    kind.has_names() && block.live(kind, id)
}

fn can_place(block: &Block, kind: Kind, id: u32, place: Placement) -> bool
    ensures { IsTrue result ↔ CanPlace block.now.block kind id place }
{
    kind.has_place() && block.live(kind, id) && is_placement(place)
}

fn can_set_use(block: &Block, kind: Kind, id: u32) -> bool
    ensures { IsTrue result ↔ CanSetUse block.now.block kind id }
{
    kind.has_usage() && block.live(kind, id)
}

fn can_set_direction(block: &Block, bterm: u32, direction: Direction) -> bool
    ensures { IsTrue result ↔ IsTrue (is_live block.now.block.bterm bterm) × IsTrue (is_bterm_direction direction) }
{
    block.live(Kind::BTerm, bterm) && direction.fits_bterm()
}

fn can_make_special(block: &Block, net: u32) -> bool
    ensures { IsTrue result ↔ (special_in net block.now.block ≡ Some false) }
{
    match block.net(NetId(net)) {
        Some(net) => !net.special,
        None => false,
    }
}

fn can_join(block: &Block, kind: Kind, id: u32, net: u32) -> bool
    ensures { IsTrue result ↔ CanJoin block.now.block kind id net }
{
    net_of(block, kind, id) == Some(0) && block.live(Kind::Net, net)
}

fn can_part(block: &Block, kind: Kind, id: u32, net: u32) -> bool
    ensures { IsTrue result ↔ CanPart block.now.block kind id net }
{
    net != 0 && net_of(block, kind, id) == Some(net)
}

fn can_swap(block: &Block, library: &Library, inst: u32, master: u32) -> bool
    ensures { IsTrue result ↔ CanSwap library.now block.now.block inst master }
{
    match (
        master_of(block, library, inst),
        library.master(MasterId(master)),
    ) {
        (Some(old), Some(new)) => names_within(old, new) && names_within(new, old),
        _ => false,
    }
}

// Each name of a terminal of one master is that of a terminal of the other.
fn names_within(one: &Master, other: &Master) -> bool
    ensures { IsTrue result ↔ ((name : List ℕ) → IsSome (term_index one.now name) → IsSome (term_index other.now name)) }
{
    for term in one.terminals.items() {
        if !has_term(other, term.name.bytes()) {
            return false;
        }
    }
    true
}

fn has_term(master: &Master, name: &[u8]) -> bool
    ensures { IsTrue result ↔ IsSome (term_index master.now name.now) }
{
    place_of(master, name).is_some()
}

// The place, from 0, of the first terminal of this name.
fn place_of(master: &Master, name: &[u8]) -> Option<usize>
    ensures { result ≡ term_index master.now name.now }
{
    master
        .terminals
        .items()
        .iter()
        .position(|terminal| name == terminal.name.bytes())
}
