ghost use Rattle.std.specs.Prelude.{◌≡◌, ◌++◌, OnOk, option_copied};
ghost use Rattle.std.specs.List.{flat_map};
ghost use Rattle.odb_base.specs.Kind.{kinds};
ghost use Rattle.block_store.specs.Block.{free_in};
ghost use Rattle.block_store.specs.Live.{live_count_in, live_ids};
ghost use Rattle.block_store.specs.Sound.{net_terms};
ghost use Rattle.reports.specs.Reports.{bterm_line, iterm_line, iterm_name, iterm_words, name_or_dash, object_line, or_empty, term_line};
ghost use Rattle.reports.specs.Texts.{value};
ghost use Rattle.block_store.specs.Names.{name_in};

use crate::text::{end_line, put_number, put_value, put_word};
use block_records::ITermRec;
use block_store::{Block, ListOf};
use library::Library;
use odb_base::{Coded, ITermId, InstId, Kind, MasterId, Name, NetId};
use std::alloc::AllocError;

/// Appends a line for each object of a kind by identifier.
pub fn put_objects(out: &mut Vec<u8>, block: &Block, kind: Kind) -> Result<(), AllocError>
    ensures { OnOk result (out.new.items ≡ out.old.items ++ flat_map (object_line kind block.now.block) (live_ids kind block.now.block)) }
{
    for id in block.ids(kind) {
        put_object(out, block, kind, id)?;
    }
    Ok(())
}

#[tactic(auto, unfolding(crate::specs::Reports::object_line))]
fn put_object(out: &mut Vec<u8>, block: &Block, kind: Kind, id: u32) -> Result<(), AllocError>
    ensures { OnOk result (out.new.items ≡ out.old.items ++ object_line kind block.now.block id) }
{
    put_number(out, id as u64)?;
    put_word(out, name_or_dash(block, kind, id))?;
    end_line(out)?;
    Ok(())
}

// The name of an object, `-` where its kind has no names.
fn name_or_dash(block: &Block, kind: Kind, id: u32) -> &[u8]
    ensures { result.now ≡ name_or_dash (name_in kind id block.now.block) }
{
    match block.name_of(kind, id) {
        Some(name) => name.bytes(),
        None => b"-",
    }
}

/// Appends the free identifiers of a kind, top first.
pub fn put_free(out: &mut Vec<u8>, block: &Block, kind: Kind) -> Result<(), AllocError>
    ensures { OnOk result (out.new.items ≡ out.old.items ++ flat_map value (free_in kind block.now.block)) }
{
    for id in block.free_ids(kind) {
        put_value(out, id as u64)?;
    }
    Ok(())
}

/// Appends the number of objects of each kind.
pub fn put_counts(out: &mut Vec<u8>, block: &Block) -> Result<(), AllocError>
    ensures { OnOk result (out.new.items ≡ out.old.items ++ flat_map (λ k. value (live_count_in k block.now.block)) kinds) }
{
    let kinds = Kind::every();
    for kind in kinds {
        put_value(out, block.live_count(*kind) as u64)?;
    }
    Ok(())
}

/// Appends a line for each terminal of a net in the order of its list.
pub fn put_terms(
    out: &mut Vec<u8>,
    block: &Block,
    library: &Library,
    net: u32,
) -> Result<(), AllocError>
    ensures { OnOk result (out.new.items ≡ out.old.items ++ flat_map (term_line library.now block.now.block) (net_terms block.now.block net)) }
{
    for number in block.walk(ListOf::Terms(NetId(net))) {
        put_term(out, block, library, number)?;
    }
    Ok(())
}

fn put_term(
    out: &mut Vec<u8>,
    block: &Block,
    library: &Library,
    number: u32,
) -> Result<(), AllocError>
    ensures { OnOk result (out.new.items ≡ out.old.items ++ term_line library.now block.now.block number) }
{
    if number % 2 == 0 {
        put_iterm(out, block, library, number / 2)
    } else {
        put_bterm(out, block, number / 2)
    }
}

#[tactic(auto, unfolding(crate::specs::Reports::bterm_line))]
fn put_bterm(out: &mut Vec<u8>, block: &Block, id: u32) -> Result<(), AllocError>
    ensures { OnOk result (out.new.items ≡ out.old.items ++ bterm_line block.now.block id) }
{
    out.extend_from_slice(b"bterm")?;
    put_value(out, id as u64)?;
    put_word(out, name_or_empty(block.name_of(Kind::BTerm, id)))?;
    end_line(out)?;
    Ok(())
}

#[tactic(auto, unfolding(crate::specs::Reports::iterm_line))]
fn put_iterm(out: &mut Vec<u8>, block: &Block, library: &Library, id: u32) -> Result<(), AllocError>
    ensures { OnOk result (out.new.items ≡ out.old.items ++ iterm_line library.now block.now.block id) }
{
    out.extend_from_slice(b"iterm")?;
    put_value(out, id as u64)?;
    put_iterm_words(out, block, library, block.iterm(ITermId(id)))?;
    end_line(out)?;
    Ok(())
}

// Appends the instance and the name of an instance terminal.
fn put_iterm_words(
    out: &mut Vec<u8>,
    block: &Block,
    library: &Library,
    terminal: Option<&ITermRec>,
) -> Result<(), AllocError>
    ensures { OnOk result (out.new.items ≡ out.old.items ++ iterm_words library.now block.now.block (option_copied terminal.entry)) }
{
    let Some(terminal) = terminal else {
        return Ok(());
    };
    put_word(out, name_or_empty(block.name_of(Kind::Inst, terminal.inst)))?;
    put_word(out, name_or_empty(iterm_name(block, library, terminal)))?;
    Ok(())
}

// The name of a terminal of an instance, by the instance's master.
fn iterm_name<'a>(block: &Block, library: &'a Library, terminal: &ITermRec) -> Option<&'a Name>
    ensures { option_copied result ≡ iterm_name library.now block.now.block terminal.now }
{
    let inst = block.inst(InstId(terminal.inst))?;
    let master = library.master(MasterId(inst.master))?;
    let named = master.terminals.items().get(terminal.index as usize)?;
    Some(&named.name)
}

// The bytes of a name, none where there is none.
fn name_or_empty(name: Option<&Name>) -> &[u8]
    ensures { result.now ≡ or_empty (option_copied name.entry) }
{
    match name {
        Some(name) => name.bytes(),
        None => b"",
    }
}
