ghost use Rattle.std.specs.Prelude.{IfOk};
ghost use Rattle.lawful_parts.specs.Lawful.{IsLibrary};
ghost use Rattle.block_store.specs.Sound.{IsSound};
ghost use Rattle.edits.specs.Plan.{CanAll, plan};
ghost use Rattle.edits.specs.Planning.{HasFewTerminals, IsPlanned};

use crate::destroy::plan_destroyed;
use crate::make::{plan_bterm, plan_inst, plan_net};
use crate::rows::plan_row;
use crate::set::{
    plan_join, plan_make_special, plan_part, plan_place, plan_rename, plan_set_dir, plan_set_use,
};
use crate::swap::plan_swap;
use block_store::Block;
use edit_words::{Edit, Refusal, Step};
use library::Library;
use std::alloc::Global;
use tech::Tech;

/// The plan of an edit: its steps in the order in which they are done, or its one refusal. Over a sound block the
/// steps can be done one after the other, and the tables allow their new objects. [`Refusal::Memory`] says
/// nothing of the edit.
pub fn plan(
    alloc: Global,
    block: &Block,
    tech: &Tech,
    library: &Library,
    edit: &Edit,
) -> Result<Vec<Step>, Refusal>
    requires sound { IsSound tech.now library.now block.now.cap block.now.block }
    requires library { IsLibrary tech.now library.now }
    ensures plan { IsPlanned (plan tech.now library.now block.now.cap block.now.block edit.now) result }
    ensures can { IfOk result (λ steps. CanAll tech.now library.now block.now.cap block.now.block steps.items) }
{
    plan_by_edit(alloc, block, tech, library, edit)
}

#[tactic(auto, unfolding(crate::specs::Plan::plan))]
fn plan_by_edit(
    alloc: Global,
    block: &Block,
    tech: &Tech,
    library: &Library,
    edit: &Edit,
) -> Result<Vec<Step>, Refusal>
    requires { HasFewTerminals library.now }
    ensures { IsPlanned (plan tech.now library.now block.now.cap block.now.block edit.now) result }
{
    match edit {
        Edit::NewInst { name, master } => plan_inst(
            alloc,
            block,
            library,
            name.bytes(),
            master.bytes(),
        ),
        Edit::NewNet { name } => plan_net(alloc, block, name.bytes()),
        Edit::NewBTerm { name, net } => plan_bterm(alloc, block, name.bytes(), *net),
        Edit::NewRow {
            name,
            site,
            x,
            y,
            orientation,
            sites,
        } => plan_row(
            alloc,
            block,
            tech,
            name.bytes(),
            site.bytes(),
            *x,
            *y,
            *orientation,
            *sites,
        ),
        Edit::Destroy { kind, id } => plan_destroyed(alloc, block, *kind, *id),
        Edit::Rename { kind, id, name } => plan_rename(alloc, block, *kind, *id, name.bytes()),
        Edit::Swap { inst, master } => plan_swap(alloc, block, library, *inst, master.bytes()),
        Edit::Place {
            kind,
            id,
            status,
            x,
            y,
            orientation,
        } => plan_place(alloc, block, *kind, *id, *status, *x, *y, *orientation),
        Edit::SetUse { kind, id, usage } => plan_set_use(alloc, block, *kind, *id, *usage),
        Edit::SetDir { bterm, direction } => plan_set_dir(alloc, block, *bterm, *direction),
        Edit::MakeSpecial { net } => plan_make_special(alloc, block, *net),
        Edit::Join { kind, id, net } => plan_join(alloc, block, *kind, *id, *net),
        Edit::Part { kind, id } => plan_part(alloc, block, *kind, *id),
    }
}
