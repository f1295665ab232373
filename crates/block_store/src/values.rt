// Tests of values that objects have.
ghost use Rattle.std.specs.Prelude.{◌≡◌, ◌↔◌, ◌≤◌, IsTrue, length};
ghost use Rattle.odb_base.specs.Geometry.{IsCoordinate};
ghost use Rattle.block_store.specs.Placements.{IsPlacement, unplaced};
ghost use Rattle.block_store.specs.Rows.{IsRepeated, IsRowRec, IsSiteCount};
ghost use Rattle.block_store.specs.View.{is_built};

use block_records::RowRec;
use odb_base::{Kind, PlaceStatus, Placement, RowForm, is_coordinate};
use tech::Tech;

/// The greatest number of sites of a row along an axis.
pub const SITE_LIMIT: u32 = 1_000_000;

/// Whether objects of the kind can be made. The tables of other kinds are empty in every sound block.
pub fn is_built(kind: Kind) -> bool
    ensures { result ≡ is_built kind }
{
    match kind {
        Kind::Inst | Kind::ITerm | Kind::Net | Kind::BTerm | Kind::Row => true,
        Kind::Pin
        | Kind::Track
        | Kind::Wire
        | Kind::Blockage
        | Kind::Region
        | Kind::Group
        | Kind::Prop => false,
    }
}

/// Whether the coordinates are within their limit, and what has no place stands at 0, 0 and is turned N.
pub fn is_placement(place: Placement) -> bool
    ensures { IsTrue result ↔ IsPlacement place }
{
    let stands = are_coordinates(place.x, place.y);
    let rests = rests(place);
    stands && rests
}

fn rests(place: Placement) -> bool
    ensures { IsTrue result ↔ (place.status ≡ PlaceStatus.Unplaced → place ≡ unplaced) }
{
    match place.status {
        PlaceStatus::Unplaced => place == Placement::UNPLACED,
        PlaceStatus::Placed | PlaceStatus::Fixed | PlaceStatus::Cover => true,
    }
}

/// Whether the fields of a row are lawful: its site is one of the technology, and its counts and steps are within
/// their limits and as its form says.
pub fn is_row(tech: &Tech, row: &RowRec) -> bool
    ensures { IsTrue result ↔ IsRowRec tech.now row.now }
{
    let _name = row.name.bytes();
    is_site(tech, row.site) && are_coordinates(row.x, row.y) && are_sites(row)
}

// Whether the counts and the steps of a row are within their limits and as its form says.
fn are_sites(row: &RowRec) -> bool
    ensures { IsTrue result ↔ (IsSiteCount row.now.nx × IsSiteCount row.now.ny × IsCoordinate row.now.sx × IsCoordinate row.now.sy × IsRepeated row.now.form row.now.nx row.now.ny row.now.sx row.now.sy) }
{
    are_site_counts(row.nx, row.ny) && are_coordinates(row.sx, row.sy) && is_repeated(row)
}

// Whether the technology has a site of this number.
fn is_site(tech: &Tech, site: u32) -> bool
    ensures { IsTrue result ↔ ((1 ≤ site) × (site ≤ length tech.now.sites)) }
{
    1 <= site && site <= tech.sites().count()
}

fn are_coordinates(x: i32, y: i32) -> bool
    ensures { IsTrue result ↔ (IsCoordinate x × IsCoordinate y) }
{
    is_coordinate(x as i64) && is_coordinate(y as i64)
}

fn are_site_counts(nx: u32, ny: u32) -> bool
    ensures { IsTrue result ↔ (IsSiteCount nx × IsSiteCount ny) }
{
    is_site_count(nx) && is_site_count(ny)
}

/// Whether a row may have so many sites along an axis: 1 to [`SITE_LIMIT`].
pub fn is_site_count(n: u32) -> bool
    ensures { IsTrue result ↔ IsSiteCount n }
{
    1 <= n && n <= SITE_LIMIT
}

// Without DO the site stands once, and without STEP the steps are 0.
fn is_repeated(row: &RowRec) -> bool
    ensures { IsTrue result ↔ IsRepeated row.now.form row.now.nx row.now.ny row.now.sx row.now.sy }
{
    match row.form {
        RowForm::Bare => row.nx == 1 && row.ny == 1 && row.sx == 0 && row.sy == 0,
        RowForm::Do => row.sx == 0 && row.sy == 0,
        RowForm::DoStep => true,
    }
}
