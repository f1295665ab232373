ghost use Rattle.std.specs.Prelude.{◌≡◌, ◌≤◌, ◌^◌, length, option_copied};
ghost use Rattle.library.specs.Masters.{master_at};
ghost use Rattle.steps_net.specs.Can.{inst_master};
ghost use Rattle.edits.specs.Plan.{differing, first_differing, first_lacking, plan_swap};
ghost use Rattle.edits.specs.Planning.{HasFewTerminals, IsPlanned};

use crate::checks::live;
use crate::make::one;
use block_store::Block;
use edit_words::{Refusal, Step};
use library::{Library, MTerm, Master};
use odb_base::{InstId, Kind, MasterId, Name};
use std::alloc::Global;

/// The plan of another master for an instance, whose terminals have the same names.
pub fn plan_swap(
    alloc: Global,
    block: &Block,
    library: &Library,
    inst: u32,
    master: &[u8],
) -> Result<Vec<Step>, Refusal>
    requires { HasFewTerminals library.now }
    ensures { IsPlanned (plan_swap library.now block.now.block inst master.now) result }
{
    live(block, Kind::Inst, inst)?;
    let Some(id) = library.find_master(master) else {
        return Err(Refusal::Unknown { at: 2 });
    };
    if let Some(name) = differing(block, library, inst, id) {
        let name = name.try_clone()?;
        return Err(Refusal::TermsDiffer { name });
    }
    Ok(one(alloc, Step::Swap { inst, master: id.0 })?)
}

// The name of the first terminal that only one of an instance's master and another master has.
fn differing<'a>(block: &Block, library: &'a Library, inst: u32, id: MasterId) -> Option<&'a Name>
    requires { HasFewTerminals library.now }
    ensures { option_copied result ≡ differing (inst_master library.now block.now.block inst) (master_at library.now id.0) }
{
    let record = block.inst(InstId(inst))?;
    let old = library.master(MasterId(record.master))?;
    let new = library.master(id)?;
    first_differing(old, new)
}

// Terminals of the old master come before those of the new one.
fn first_differing<'a>(old: &'a Master, new: &'a Master) -> Option<&'a Name>
    requires old { length old.now.terminals ≤ 2 ^ 32 }
    requires new { length new.now.terminals ≤ 2 ^ 32 }
    ensures { option_copied result ≡ first_differing old.now new.now }
{
    match first_lacking(new, old.terminals.items()) {
        Some(name) => Some(name),
        None => first_lacking(old, new.terminals.items()),
    }
}

// The name of the first of these terminals whose name the master has no terminal of.
fn first_lacking<'a>(master: &Master, terminals: &'a [MTerm]) -> Option<&'a Name>
    requires { length master.now.terminals ≤ 2 ^ 32 }
    ensures { option_copied result ≡ first_lacking master.now terminals.now }
{
    for terminal in terminals {
        if master.term_index(terminal.name.bytes()).is_none() {
            return Some(&terminal.name);
        }
    }
    None
}
