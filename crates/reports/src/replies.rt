ghost use Rattle.std.specs.Prelude.{◌≡◌, ◌++◌, Ok, Err, IfOk, OnErr, OnOk};
ghost use Rattle.reports.specs.Reports.{counts_text, find_text, free_text, list_text, of_live, report_of, terms_text};
ghost use Rattle.reports.specs.Reporting.{Puts, Reports};

use crate::lines::{put_counts, put_free, put_objects, put_terms};
use crate::query::{Query, ReportFault};
use crate::text::{end_line, put_value};
use block_store::{Block, Database, ListOf};
use library::Library;
use odb_base::{Kind, NetId};
use std::alloc::AllocError;

/// Appends the whole reply to a query. A refusal appends nothing.
pub fn report(db: &Database, query: &Query, out: &mut Vec<u8>) -> Result<(), ReportFault>
    ensures { Reports (report_of db.now query.now) result out.old.items out.new.items }
{
    let mut text = Vec::new(*out.allocator());
    put_report(&mut text, db, query)?;
    out.extend_from_slice(&text)?;
    Ok(())
}

// Appends the whole reply to a query; for want of memory a part of it.
fn put_report(out: &mut Vec<u8>, db: &Database, query: &Query) -> Result<(), ReportFault>
    ensures { Puts (report_of db.now query.now) result out.old.items out.new.items }
{
    match query {
        Query::Find { kind, name } => Ok(put_find(out, &db.block, *kind, name.bytes())?),
        Query::List { kind } => Ok(put_list(out, &db.block, *kind)?),
        Query::Free { kind } => Ok(put_free_ids(out, &db.block, *kind)?),
        Query::Counts => Ok(put_all_counts(out, &db.block)?),
        Query::Terms { net } => put_net(out, db, *net),
    }
}

#[tactic(auto, unfolding(crate::specs::Reports::find_text))]
fn put_find(out: &mut Vec<u8>, block: &Block, kind: Kind, name: &[u8]) -> Result<(), AllocError>
    ensures { OnOk result (out.new.items ≡ out.old.items ++ find_text kind name.now block.now.block) }
{
    out.extend_from_slice(b"ok")?;
    put_value(out, block.find(kind, name).unwrap_or(0) as u64)?;
    end_line(out)?;
    Ok(())
}

#[tactic(auto, unfolding(crate::specs::Reports::list_text))]
fn put_list(out: &mut Vec<u8>, block: &Block, kind: Kind) -> Result<(), AllocError>
    ensures { OnOk result (out.new.items ≡ out.old.items ++ list_text kind block.now.block) }
{
    out.extend_from_slice(b"ok")?;
    put_value(out, block.live_count(kind) as u64)?;
    end_line(out)?;
    put_objects(out, block, kind)?;
    Ok(())
}

#[tactic(auto, unfolding(crate::specs::Reports::free_text))]
fn put_free_ids(out: &mut Vec<u8>, block: &Block, kind: Kind) -> Result<(), AllocError>
    ensures { OnOk result (out.new.items ≡ out.old.items ++ free_text kind block.now.block) }
{
    out.extend_from_slice(b"ok")?;
    put_value(out, block.slots(kind) as u64)?;
    put_value(out, block.live_count(kind) as u64)?;
    put_free(out, block, kind)?;
    end_line(out)?;
    Ok(())
}

#[tactic(auto, unfolding(crate::specs::Reports::counts_text))]
fn put_all_counts(out: &mut Vec<u8>, block: &Block) -> Result<(), AllocError>
    ensures { OnOk result (out.new.items ≡ out.old.items ++ counts_text block.now.block) }
{
    out.extend_from_slice(b"ok")?;
    put_counts(out, block)?;
    end_line(out)?;
    Ok(())
}

fn put_net(out: &mut Vec<u8>, db: &Database, net: u32) -> Result<(), ReportFault>
    ensures { Puts (of_live Kind.Net net db.now.block (terms_text db.now.library db.now.block net)) result out.old.items out.new.items }
{
    let kind = Kind::Net;
    if !db.block.live(kind, net) {
        return Err(ReportFault::NotLive { kind, id: net });
    }
    put_live_net(out, &db.block, &db.library, net)?;
    Ok(())
}

#[tactic(auto, unfolding(crate::specs::Reports::terms_text))]
fn put_live_net(
    out: &mut Vec<u8>,
    block: &Block,
    library: &Library,
    net: u32,
) -> Result<(), AllocError>
    ensures { OnOk result (out.new.items ≡ out.old.items ++ terms_text library.now block.now.block net) }
{
    out.extend_from_slice(b"ok")?;
    put_value(out, block.members(ListOf::Terms(NetId(net))).len() as u64)?;
    end_line(out)?;
    put_terms(out, block, library, net)?;
    Ok(())
}
