ghost use Rattle.std.specs.Prelude.{◌≡◌, ◌∷◌, ◌≤◌, [], IfOk, OnOk, unwrap_or};
ghost use Rattle.odb_base.specs.Name.{IsName};
ghost use Rattle.block_store.specs.Block.{left_in};
ghost use Rattle.block_store.specs.Instances.{term_count};
ghost use Rattle.steps_net.specs.Room.{lacking};
ghost use Rattle.edits.specs.Checks.{nothing_lacks};
ghost use Rattle.edits.specs.Plan.{given_net as is_given_net, joined_to, next_ids, plan_new_bterm, plan_new_inst, plan_new_net};
ghost use Rattle.edits.specs.Planning.{HasFewTerminals, IsPlanned};

use crate::checks::{lawful, live, room, unheld};
use block_records::Terminals;
use block_store::Block;
use edit_words::{Refusal, Step};
use library::Library;
use odb_base::{Kind, List, MasterId, Name, NameFault};
use std::alloc::{AllocError, Global};

/// A plan of one step.
pub fn one(alloc: Global, step: Step) -> Result<Vec<Step>, AllocError>
    ensures { IfOk result (λ steps. steps.items ≡ step ∷ []) }
{
    let mut steps = Vec::new(alloc);
    steps.push(step)?;
    Ok(steps)
}

/// A copy of bytes that are a name.
pub fn name_of(alloc: Global, bytes: &[u8]) -> Result<Name, AllocError>
    requires { IsName bytes.now }
    ensures { IfOk result (λ name. name ≡ bytes.now) }
{
    match Name::new(alloc, bytes) {
        Ok(name) => Ok(name),
        Err(NameFault::Memory) => Err(AllocError),
        Err(_) => unreachable!(),
    }
}

/// The plan of a new net.
pub fn plan_net(alloc: Global, block: &Block, name: &[u8]) -> Result<Vec<Step>, Refusal>
    ensures { IsPlanned (plan_new_net block.now.cap block.now.block name.now) result }
{
    lawful(name, 1)?;
    unheld(block, Kind::Net, name)?;
    room(block, Kind::Net, 1)?;
    let step = Step::NewNet {
        id: block.next_id(Kind::Net, 0) as u32,
        name: name_of(alloc, name)?,
    };
    Ok(one(alloc, step)?)
}

/// The plan of a new block terminal, which is joined to a net where one is given.
pub fn plan_bterm(
    alloc: Global,
    block: &Block,
    name: &[u8],
    net: Option<u32>,
) -> Result<Vec<Step>, Refusal>
    ensures { IsPlanned (plan_new_bterm block.now.cap block.now.block name.now net) result }
{
    given_net(block, net)?;
    lawful(name, 1)?;
    unheld(block, Kind::BTerm, name)?;
    room(block, Kind::BTerm, 1)?;
    let id = block.next_id(Kind::BTerm, 0) as u32;
    let step = Step::NewBTerm {
        id,
        name: name_of(alloc, name)?,
    };
    Ok(with_join(alloc, step, id, net)?)
}

// The net that is given, if one is, has to be there.
fn given_net(block: &Block, net: Option<u32>) -> Result<(), Refusal>
    ensures { result ≡ is_given_net block.now.block net }
{
    match net {
        None => Ok(()),
        Some(net) => live(block, Kind::Net, net),
    }
}

// The step of a new block terminal, and that of its join where a net is given.
fn with_join(alloc: Global, step: Step, id: u32, net: Option<u32>) -> Result<Vec<Step>, AllocError>
    ensures { IfOk result (λ steps. steps.items ≡ step ∷ joined_to id net) }
{
    let mut steps = one(alloc, step)?;
    if let Some(net) = net {
        let kind = Kind::BTerm;
        steps.push(Step::Join { kind, id, net })?;
        return Ok(steps);
    }
    Ok(steps)
}

/// The plan of a new instance of the master of a name.
#[tactic(auto, using(crate::proofs::Ids::count_next_ids))]
pub fn plan_inst(
    alloc: Global,
    block: &Block,
    library: &Library,
    name: &[u8],
    master: &[u8],
) -> Result<Vec<Step>, Refusal>
    requires { HasFewTerminals library.now }
    ensures { IsPlanned (plan_new_inst library.now block.now.cap block.now.block name.now master.now) result }
{
    lawful(name, 1)?;
    let Some(id) = library.find_master(master) else {
        return Err(Refusal::Unknown { at: 2 });
    };
    unheld(block, Kind::Inst, name)?;
    let count = term_count_of(library, id);
    room_for_inst(block, count)?;
    let step = Step::NewInst {
        id: block.next_id(Kind::Inst, 0) as u32,
        name: name_of(alloc, name)?,
        master: id.0,
        terminals: next_terminals(alloc, block, count)?,
    };
    Ok(one(alloc, step)?)
}

// The tables allow a new instance with so many terminals.
fn room_for_inst(block: &Block, count: u32) -> Result<(), Refusal>
    ensures question { result ≡ nothing_lacks (lacking Kind.Inst 1 block.now.cap block.now.block (lacking Kind.ITerm count block.now.cap block.now.block None)) }
    ensures room { OnOk result (count ≤ left_in Kind.ITerm block.now.cap block.now.block) }
{
    room(block, Kind::Inst, 1)?;
    room(block, Kind::ITerm, count)
}

// How many terminals the master has.
fn term_count_of(library: &Library, id: MasterId) -> u32
    requires { HasFewTerminals library.now }
    ensures count { result ≡ unwrap_or (term_count library.now id.0) 0 }
{
    match library.master(id) {
        Some(master) => master.terminals.items().len() as u32,
        None => 0,
    }
}

// So many identifiers that the table of instance terminals gives next.
fn next_terminals(alloc: Global, block: &Block, count: u32) -> Result<Terminals, AllocError>
    requires { count ≤ left_in Kind.ITerm block.now.cap block.now.block }
    ensures { IfOk result (λ ids. ids ≡ next_ids 0 count block.now.block.iterm) }
{
    let ids = block
        .next_ids(Kind::ITerm)
        .take(count as usize)
        .collect(alloc)?;
    Ok(List::from_vec(ids))
}
