ghost use Rattle.std.specs.Prelude.{◌≡◌, ◌↔◌, List, ℕ, IfOk, IfSome, IsTrue};
ghost use Rattle.library.specs.Masters.{master_at};
ghost use Rattle.named_list.specs.Naming.{AreNamesDistinct};
ghost use Rattle.library.specs.Terminals.{HasDistinctTerminals};
ghost use Rattle.block_store.specs.Sound.{HasLawfulMasters};
ghost use Rattle.block_tables.specs.Indexes.{CountsNames};
ghost use Rattle.block_tables.specs.Rules.{IsSoundHeader};

use crate::holders::Holders;
use crate::values::is_new_header;
use block_store::Tables;
use library::{Library, MTerm};
use odb_base::MasterId;
use std::alloc::{AllocError, Global};
use tech::Tech;

// Whether no master has two terminals of one name, and the header is that of a new block.
#[tactic(auto, using(crate::proofs::Masters::sound_header))]
pub(crate) fn is_sound_header(
    alloc: Global,
    tables: &Tables,
    tech: &Tech,
    library: &Library,
) -> Result<bool, AllocError>
    ensures { IfOk result (λ sound. IsTrue sound ↔ IsSoundHeader tech.now library.now tables.now) }
{
    // Nothing in a header names a part of the technology yet.
    let _tech = tech;
    let distinct = have_distinct_terminals(alloc, library)?;
    Ok(distinct && is_new_header(&tables.header))
}

fn have_distinct_terminals(alloc: Global, library: &Library) -> Result<bool, AllocError>
    ensures { IfOk result (λ distinct. IsTrue distinct ↔ HasLawfulMasters library.now) }
{
    for place in 0..library.count() {
        if !has_distinct_terminals(alloc, library, place + 1)? {
            return Ok(false);
        }
    }
    Ok(true)
}

fn has_distinct_terminals(alloc: Global, library: &Library, id: u32) -> Result<bool, AllocError>
    ensures { IfOk result (λ distinct. IsTrue distinct ↔ IfSome (master_at library.now id) (λ m. HasDistinctTerminals m)) }
{
    match library.master(MasterId(id)) {
        Some(master) => are_distinct(alloc, master.terminals.items()),
        None => Ok(true),
    }
}

fn are_distinct(alloc: Global, terminals: &[MTerm]) -> Result<bool, AllocError>
    ensures { IfOk result (λ distinct. IsTrue distinct ↔ AreNamesDistinct (λ t. t.name) terminals.now) }
{
    let holders = holders_of(alloc, terminals)?;
    Ok(are_alone(&holders, terminals))
}

// How many terminals have each name.
fn holders_of(alloc: Global, terminals: &[MTerm]) -> Result<Holders<'_>, AllocError>
    ensures { IfOk result (λ holders. CountsNames (λ t. t.name) terminals.now holders.counts) }
{
    let mut holders = Holders::new(alloc);
    for terminal in terminals {
        holders.enter(terminal.name.bytes())?;
    }
    Ok(holders)
}

fn are_alone(holders: &Holders<'_>, terminals: &[MTerm]) -> bool
    requires { CountsNames (λ t. t.name) terminals.now holders.now.counts }
    ensures { IsTrue result ↔ AreNamesDistinct (λ t. t.name) terminals.now }
{
    for terminal in terminals {
        if holders.of(terminal.name.bytes()) != 1 {
            return false;
        }
    }
    true
}
