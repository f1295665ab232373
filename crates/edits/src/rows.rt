// The plans of rows.
ghost use Rattle.std.specs.Prelude.{◌≡◌, option_map};
ghost use Rattle.edits.specs.Plan.{plan_new_row, repeat_of, row_of, site_count};
ghost use Rattle.edits.specs.Planning.{IsPlanned};

use crate::checks::{coordinate, lawful, room, unheld};
use crate::make::{name_of, one};
use block_records::RowRec;
use block_store::{Block, SITE_LIMIT};
use edit_words::{Refusal, RowSites, Step};
use odb_base::{Kind, Name, Orient, RowForm, SiteId};
use std::alloc::Global;
use tech::Tech;

/// How the sites of a row are repeated: how far that is spelled out in DEF, how many stand along x and along y, and
/// the steps along both in database units.
#[derive(Clone, Copy, Debug, PartialEq, Eq)]
pub struct Repeat {
    pub form: RowForm,
    pub nx: u32,
    pub ny: u32,
    pub sx: i32,
    pub sy: i32,
}

/// The plan of a new row of the site of a name.
pub fn plan_row(
    alloc: Global,
    block: &Block,
    tech: &Tech,
    name: &[u8],
    site: &[u8],
    x: i64,
    y: i64,
    orientation: Orient,
    sites: RowSites,
) -> Result<Vec<Step>, Refusal>
    ensures { IsPlanned (plan_new_row tech.now block.now.cap block.now.block name.now site.now x y orientation sites) result }
{
    let x = coordinate(x, 3)?;
    let y = coordinate(y, 4)?;
    let repeat = repeat_of(sites)?;
    lawful(name, 1)?;
    let Some(site) = tech.find_site(site) else {
        return Err(Refusal::Unknown { at: 2 });
    };
    unheld(block, Kind::Row, name)?;
    room(block, Kind::Row, 1)?;
    let row = row_of(name_of(alloc, name)?, site, x, y, orientation, repeat);
    let id = block.next_id(Kind::Row, 0) as u32;
    Ok(one(alloc, Step::NewRow { id, row })?)
}

// How the sites are repeated, where each count and each step is within its limit.
fn repeat_of(sites: RowSites) -> Result<Repeat, Refusal>
    ensures { result ≡ repeat_of sites }
{
    match sites {
        RowSites::One => Ok(Repeat {
            form: RowForm::Bare,
            nx: 1,
            ny: 1,
            sx: 0,
            sy: 0,
        }),
        RowSites::Counted { nx, ny } => Ok(Repeat {
            form: RowForm::Do,
            nx: site_count(nx, 6)?,
            ny: site_count(ny, 7)?,
            sx: 0,
            sy: 0,
        }),
        RowSites::Stepped { nx, ny, sx, sy } => Ok(Repeat {
            form: RowForm::DoStep,
            nx: site_count(nx, 6)?,
            ny: site_count(ny, 7)?,
            sx: coordinate(sx, 8)?,
            sy: coordinate(sy, 9)?,
        }),
    }
}

// The number of sites at this place of the line.
fn site_count(n: i64, at: u32) -> Result<u32, Refusal>
    ensures { result ≡ site_count n at }
{
    if 1 <= n && n <= i64::from(SITE_LIMIT) {
        Ok(n as u32)
    } else {
        Err(Refusal::BadValue { at })
    }
}

// The row of this name, site, place, orientation and repetition.
fn row_of(name: Name, site: SiteId, x: i32, y: i32, orientation: Orient, repeat: Repeat) -> RowRec
    ensures { result ≡ row_of name site.0 x y orientation repeat }
{
    RowRec {
        name,
        site: site.0,
        x,
        y,
        orientation,
        form: repeat.form,
        nx: repeat.nx,
        ny: repeat.ny,
        sx: repeat.sx,
        sy: repeat.sy,
    }
}
