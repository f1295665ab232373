ghost use Rattle.std.specs.Prelude.{◌≡◌, option_copied};
ghost use Rattle.steps_net.specs.Can.{inst_master};

use block_store::block::Block;
use library::{Library, Master};
use odb_base::{InstId, MasterId};

// The master of an instance.
pub(crate) fn master_of<'a>(block: &Block, library: &'a Library, inst: u32) -> Option<&'a Master>
    ensures { option_copied result ≡ inst_master library.now block.now.block inst }
{
    let inst = block.inst(InstId(inst))?;
    library.master(MasterId(inst.master))
}
