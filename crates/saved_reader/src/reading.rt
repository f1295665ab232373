ghost use Rattle.std.specs.Prelude.{◌≤◌, IfOk};
ghost use Rattle.odb_base.specs.declared.codes.kind.Kind.{Kind as AnyKind};
ghost use Rattle.block_store.specs.Block.{slots_in};
ghost use Rattle.saved_fields.specs.Reading.{Reads, ReadsAs};
ghost use Rattle.saved_reader.specs.Saved.{Answers, block_format, built_format, mark_at, others_format, saved_at, saved_in, version_at};

use crate::header::get_header;
use crate::masters::get_library;
use crate::saved::Saved;
use crate::tables::get_table;
use crate::technology::get_tech;
use block_records::{BlockageRec, ITermRec, PinRec, PropRec, TrackRec, WireRec};
use block_store::{
    BTermEntry, GroupEntry, InstEntry, NetEntry, PlainTable, RegionEntry, RowEntry, Tables,
};
use odb_base::Kind;
use odb_fields::Get;
use saved_fields::ReadFault;
use std::alloc::Global;

const MARK: &[u8] = b"ODBS";

const VERSION: u32 = 1;

/// What the bytes spell as a saved database whose tables have at most `cap` slots each, or their first fault.
pub fn read_saved(alloc: Global, bytes: &[u8], cap: u32) -> Result<Saved, ReadFault>
    ensures answer { Answers result (saved_in cap bytes.now) }
    ensures within { IfOk result (λ saved. (k : AnyKind) → slots_in k saved.tables ≤ cap) }
    ensures units { IfOk result (λ saved. saved.tech.units ≤ 100000) }
{
    read_all(alloc, bytes, cap)
}

#[tactic(auto, unfolding(crate::specs::Saved::saved_in))]
fn read_all(alloc: Global, bytes: &[u8], cap: u32) -> Result<Saved, ReadFault>
    ensures { Answers result (saved_in cap bytes.now) }
{
    let mut input = Get::new(bytes);
    let saved = get_saved(alloc, &mut input, cap)?;
    let at = input.place();
    if at == bytes.len() as u64 {
        Ok(saved)
    } else {
        drop(saved);
        Err(ReadFault::Trailing { at })
    }
}

#[tactic(auto, unfolding(crate::specs::Saved::saved_at))]
fn get_saved(alloc: Global, input: &mut Get<'_>, cap: u32) -> Result<Saved, ReadFault>
    ensures { Reads result (saved_at cap input.old) input.new }
{
    get_mark(input)?;
    get_version(input)?;
    let tech = get_tech(alloc, input)?;
    let library = get_library(alloc, input)?;
    let tables = get_tables(alloc, input, cap)?;
    Ok(Saved {
        tech,
        library,
        tables,
    })
}

#[tactic(auto, unfolding(crate::specs::Saved::mark_at))]
fn get_mark(input: &mut Get<'_>) -> Result<(), ReadFault>
    ensures { ReadsAs (λ _. tt) result (mark_at input.old) input.new }
{
    match input.get_bytes(MARK.len()) {
        Ok(mark) if mark == MARK => Ok(()),
        _ => Err(ReadFault::NotSaved),
    }
}

#[tactic(auto, unfolding(crate::specs::Saved::version_at))]
fn get_version(input: &mut Get<'_>) -> Result<(), ReadFault>
    ensures { ReadsAs (λ _. tt) result (version_at input.old) input.new }
{
    let got = input.get_u32()?;
    if got == VERSION {
        Ok(())
    } else {
        Err(ReadFault::Version { got })
    }
}

#[tactic(auto, unfolding(crate::specs::Saved::block_format))]
fn get_tables(alloc: Global, input: &mut Get<'_>, cap: u32) -> Result<Tables, ReadFault>
    ensures { Reads result ((block_format cap).at input.old) input.new }
{
    let header = get_header(alloc, input)?;
    let built = get_built(alloc, input, cap)?;
    let others = get_others(alloc, input, cap)?;
    Ok(Tables {
        header,
        inst: built.inst,
        iterm: built.iterm,
        net: built.net,
        bterm: built.bterm,
        pin: others.pin,
        row: others.row,
        track: others.track,
        wire: others.wire,
        blockage: others.blockage,
        region: others.region,
        group: others.group,
        prop: others.prop,
    })
}

// The tables of the kinds that there are.
#[derive(Drop)]
struct Built {
    inst: PlainTable<InstEntry>,
    iterm: PlainTable<ITermRec>,
    net: PlainTable<NetEntry>,
    bterm: PlainTable<BTermEntry>,
}

#[tactic(auto, unfolding(crate::specs::Saved::built_format))]
fn get_built(alloc: Global, input: &mut Get<'_>, cap: u32) -> Result<Built, ReadFault>
    ensures { ReadsAs (λ b. (((b.inst, b.iterm), b.net), b.bterm)) result ((built_format cap).at input.old) input.new }
{
    let inst = get_table(alloc, input, Kind::Inst, cap)?;
    let iterm = get_table(alloc, input, Kind::ITerm, cap)?;
    let net = get_table(alloc, input, Kind::Net, cap)?;
    let bterm = get_table(alloc, input, Kind::BTerm, cap)?;
    Ok(Built {
        inst,
        iterm,
        net,
        bterm,
    })
}

// The tables of the kinds that are still to come.
#[derive(Drop)]
struct Others {
    pin: PlainTable<PinRec>,
    row: PlainTable<RowEntry>,
    track: PlainTable<TrackRec>,
    wire: PlainTable<WireRec>,
    blockage: PlainTable<BlockageRec>,
    region: PlainTable<RegionEntry>,
    group: PlainTable<GroupEntry>,
    prop: PlainTable<PropRec>,
}

#[tactic(auto, unfolding(crate::specs::Saved::others_format))]
fn get_others(alloc: Global, input: &mut Get<'_>, cap: u32) -> Result<Others, ReadFault>
    ensures { ReadsAs (λ o. (((((((o.pin, o.row), o.track), o.wire), o.blockage), o.region), o.group), o.prop)) result ((others_format cap).at input.old) input.new }
{
    let pin = get_table(alloc, input, Kind::Pin, cap)?;
    let row = get_table(alloc, input, Kind::Row, cap)?;
    let track = get_table(alloc, input, Kind::Track, cap)?;
    let wire = get_table(alloc, input, Kind::Wire, cap)?;
    let blockage = get_table(alloc, input, Kind::Blockage, cap)?;
    let region = get_table(alloc, input, Kind::Region, cap)?;
    let group = get_table(alloc, input, Kind::Group, cap)?;
    let prop = get_table(alloc, input, Kind::Prop, cap)?;
    Ok(Others {
        pin,
        row,
        track,
        wire,
        blockage,
        region,
        group,
        prop,
    })
}
