ghost use Rattle.lef_build.specs.Answers.{IsAnswer};
ghost use Rattle.lef_build.specs.Building.{built_of};

use crate::builder::Builder;
use crate::fault::BuildFault;
use edit_words::TechPart;
use lef_tree::LefTree;
use library::Library;
use odb_base::List;
use std::alloc::Global;
use tech::Tech;

/// The parts that a LEF text holds, in the order of the text.
#[derive(Drop)]
pub struct Parts {
    pub parts: List<TechPart>,
    /// How many parts of the text were passed over or left out. It stops at 2^64 - 1.
    pub passed: u64,
}

/// The parts that a tree stands for beside a technology and a library, or its first fault.
///
/// The items are taken in order. A layer, a via, a site or a macro whose name stands already is left out and counted
/// with those that were passed over; nothing else of it is looked at. An identifier of a layer or a site is the one
/// that it has once the parts before are entered into the technology.
///
/// `Memory` comes only where there is none, or where a sort would have more than 4,000,000,000 names.
pub fn parts_of(
    alloc: Global,
    tech: &Tech,
    library: &Library,
    tree: &LefTree,
) -> Result<Parts, BuildFault>
    ensures { IsAnswer (built_of tech.now library.now tree.now) result }
{
    let mut builder = Builder::new(alloc, tech, library, tree.passed);
    match builder.take_all(tree.items.items()) {
        Ok(()) => Ok(builder.into_parts()),
        Err(fault) => {
            drop(builder);
            Err(fault)
        }
    }
}
