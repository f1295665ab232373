ghost use Rattle.std.specs.Prelude.{◌≤◌};
ghost use Rattle.odb_base.specs.declared.codes.kind.Kind.{Kind as AnyKind};
ghost use Rattle.block_store.specs.Block.{slots_in};

use block_records::{BTermRec, Header, NetRec};
use block_store::{BTermEntry, Block, Ids, NetEntry, PlainTable, Tables};
use block_tables::{FromTables, TablesFault, fits};
use library::Library;
use odb_base::{Direction, Kind, Name, Text, Usage};
use std::alloc::{AllocError, Global};
use std::test::Fail;
use tech::Tech;

type Place = Option<(Option<Kind>, u32)>;

#[test]
fn free_lists(rt: HostRuntime) -> Result<(), Fail> {
    let table = Some((Some(Kind::Net), 0));
    let rows: [(&[u32], Place); 5] = [
        (&[2], None),
        (&[], table),
        (&[2, 2], table),
        (&[2, 1], table),
        (&[2, 3], table),
    ];
    for (free, place) in rows.iter() {
        assert_eq!(rt; with_free(rt.alloc(), free)?, *place, "of {free:?}");
    }
    Ok(())
}

// A net, and an empty slot.
fn with_free(alloc: Global, free: &[u32]) -> Result<Place, Fail> {
    let nets = vec![in alloc; Some(net(alloc, b"a", &[])?), None]?;
    judged(alloc, tables(alloc, nets, free, Vec::new(alloc))?)
}

#[test]
fn names_lists_and_headers(rt: HostRuntime) -> Result<(), Fail> {
    let net = Some((Some(Kind::Net), 1));
    let bterm = Some((Some(Kind::BTerm), 1));
    let rows: [(&[u8], &[u32], u32, Place); 7] = [
        (b"b", &[3], 1, None),
        // The lesser of two nets of one name.
        (b"a", &[3], 1, net),
        // A terminal that its net doesn't have, has twice, or has though it names another net.
        (b"b", &[], 1, bterm),
        (b"b", &[3, 3], 1, net),
        (b"b", &[3], 2, net),
        // A terminal that isn't there, and a net that isn't there.
        (b"b", &[2], 0, net),
        (b"b", &[], 3, bterm),
    ];
    for (name, terms, joined, place) in rows.iter() {
        assert_eq!(rt; with_list(rt.alloc(), name, terms, *joined)?, *place);
    }
    assert_eq!(rt; with_design(rt.alloc(), b"top")?, Some((None, 0)));
    Ok(())
}

// Two nets, `a` with this list and one of this name without terminals, and a terminal of the block.
fn with_list(alloc: Global, name: &[u8], terms: &[u32], joined: u32) -> Result<Place, Fail> {
    let first = net(alloc, b"a", terms)?;
    let second = net(alloc, name, &[])?;
    let nets = vec![in alloc; Some(first), Some(second)]?;
    let bterms = vec![in alloc; Some(bterm(alloc, joined)?)]?;
    judged(alloc, tables(alloc, nets, &[], bterms)?)
}

// Tables without objects, and a design of this name.
fn with_design(alloc: Global, design: &[u8]) -> Result<Place, Fail> {
    let design = Text::new(alloc, design)?;
    let mut named = tables(alloc, Vec::new(alloc), &[], Vec::new(alloc))?;
    named.header.design = design;
    judged(alloc, named)
}

// The least place that isn't sound.
fn judged(alloc: Global, tables: Tables) -> Result<Place, Fail> {
    if !fits(&tables, 100) {
        drop(tables);
        return Ok(None);
    }
    place_in(made(alloc, tables))
}

// The block of tables that fit, beside a technology and a library without entries.
fn made(alloc: Global, tables: Tables) -> Result<Block, TablesFault>
    requires { (k : AnyKind) → slots_in k tables ≤ 100 }
{
    let tech = Tech::new(alloc);
    let library = Library::new(alloc);
    let made = Block::from_tables(alloc, tables, &tech, &library, 100);
    drop(tech);
    drop(library);
    made
}

fn place_in(made: Result<Block, TablesFault>) -> Result<Place, Fail> {
    match made {
        Ok(block) => {
            drop(block);
            Ok(None)
        }
        Err(TablesFault::Unsound { kind, id }) => Ok(Some((kind, id))),
        Err(TablesFault::Memory) => Err(TablesFault::Memory)?,
    }
}

fn net(alloc: Global, name: &[u8], terms: &[u32]) -> Result<NetEntry, Fail> {
    Ok(NetEntry {
        fields: NetRec {
            name: Name::new(alloc, name)?,
            usage: Usage::Signal,
            special: false,
            kept: Text::new(alloc, b"")?,
            special_kept: Text::new(alloc, b"")?,
        },
        terms: Ids::from_vec(terms.to_vec(alloc)?),
        wires: Ids::new(alloc),
        props: Ids::new(alloc),
    })
}

fn bterm(alloc: Global, net: u32) -> Result<BTermEntry, Fail> {
    Ok(BTermEntry {
        fields: BTermRec {
            name: Name::new(alloc, b"t")?,
            net,
            direction: Direction::Input,
            usage: Usage::Signal,
            kept: Text::new(alloc, b"")?,
        },
        pins: Ids::new(alloc),
    })
}

fn tables(
    alloc: Global,
    nets: Vec<Option<NetEntry>>,
    free: &[u32],
    bterms: Vec<Option<BTermEntry>>,
) -> Result<Tables, AllocError> {
    Ok(Tables {
        header: Header::new(alloc)?,
        inst: empty(alloc),
        iterm: empty(alloc),
        net: PlainTable {
            slots: nets,
            free: free.to_vec(alloc)?,
        },
        bterm: PlainTable {
            slots: bterms,
            free: Vec::new(alloc),
        },
        pin: empty(alloc),
        row: empty(alloc),
        track: empty(alloc),
        wire: empty(alloc),
        blockage: empty(alloc),
        region: empty(alloc),
        group: empty(alloc),
        prop: empty(alloc),
    })
}

fn empty<T>(alloc: Global) -> PlainTable<T> {
    PlainTable {
        slots: Vec::new(alloc),
        free: Vec::new(alloc),
    }
}
