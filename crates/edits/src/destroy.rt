ghost use Rattle.std.specs.Prelude.{◌≡◌, ◌++◌, ◌∷◌, [], OnOk};
ghost use Rattle.block_store.specs.Sound.{inst_terms, net_terms};
ghost use Rattle.edits.specs.Plan.{kind_of_number, parted, parted_members, parted_terms, plan_destroyed};
ghost use Rattle.edits.specs.Planning.{IsPlanned};

use crate::checks::live;
use crate::set::net_of;
use block_store::{Block, ListOf};
use edit_words::{Refusal, Step};
use odb_base::{InstId, Kind, NetId};
use std::alloc::{AllocError, Global};

/// The plan of an object that goes: first its terminals are parted from their nets, or those of a net from it.
pub fn plan_destroyed(
    alloc: Global,
    block: &Block,
    kind: Kind,
    id: u32,
) -> Result<Vec<Step>, Refusal>
    ensures { IsPlanned (plan_destroyed block.now.block kind id) result }
{
    live(block, kind, id)?;
    let mut steps = Vec::new(alloc);
    match kind {
        Kind::Inst => part_terms(&mut steps, block, id)?,
        Kind::ITerm => return Err(Refusal::BadValue { at: 1 }),
        Kind::Net => part_members(&mut steps, block, id)?,
        Kind::BTerm => part(&mut steps, block, kind, id)?,
        _ => {}
    }
    push(&mut steps, Step::Del { kind, id })?;
    Ok(steps)
}

// A step more.
fn push(steps: &mut Vec<Step>, step: Step) -> Result<(), AllocError>
    ensures { OnOk result (steps.new.items ≡ steps.old.items ++ step ∷ []) }
{
    steps.push(step)?;
    Ok(())
}

// The terminals of an instance are parted where they are joined, in their order.
fn part_terms(steps: &mut Vec<Step>, block: &Block, inst: u32) -> Result<(), AllocError>
    ensures { OnOk result (steps.new.items ≡ steps.old.items ++ parted_terms block.now.block (inst_terms block.now.block inst)) }
{
    for iterm in block.members(ListOf::InstTerms(InstId(inst))) {
        part(steps, block, Kind::ITerm, *iterm)?;
    }
    Ok(())
}

// The terminals of a net are parted, in the order of its list.
fn part_members(steps: &mut Vec<Step>, block: &Block, net: u32) -> Result<(), AllocError>
    ensures { OnOk result (steps.new.items ≡ steps.old.items ++ parted_members net (net_terms block.now.block net)) }
{
    for number in block.members(ListOf::Terms(NetId(net))) {
        let kind = kind_of_number(*number);
        let id = *number / 2;
        push(steps, Step::Part { kind, id, net })?;
    }
    Ok(())
}

// The list of a net has a number for each of its terminals, even for those of instances.
fn kind_of_number(number: u32) -> Kind
    ensures { result ≡ kind_of_number number }
{
    if number % 2 == 0 {
        Kind::ITerm
    } else {
        Kind::BTerm
    }
}

// A terminal is parted where it is joined.
fn part(steps: &mut Vec<Step>, block: &Block, kind: Kind, id: u32) -> Result<(), AllocError>
    ensures { OnOk result (steps.new.items ≡ steps.old.items ++ parted block.now.block kind id) }
{
    match net_of(block, kind, id) {
        None | Some(0) => {}
        Some(net) => push(steps, Step::Part { kind, id, net })?,
    }
    Ok(())
}
