ghost use Rattle.std.specs.Prelude.{◌≡◌, ◌++◌, OnOk};
ghost use Rattle.odb_fields.specs.Putting.{KeepsVector, bytes_in};
ghost use Rattle.saved_reader.specs.Entries.{row_entry};
ghost use Rattle.saved_fields.specs.Fields.{distance_at, no_text_at};
ghost use Rattle.saved_reader.specs.Physical.{blockage_format, pin_format, row_format, track_format, wire_format};
ghost use Rattle.saved_fields.specs.Reading.{Reads, ReadsAs};
ghost use Rattle.saved_fields.specs.Sites.{may_step, most_sites as most_sites_of, sites_at, sites_bytes, sites_of};

use crate::lists::{RECT_LIMIT, Spelled, get_filled_list, get_ids, get_list};
use crate::saves::{SavesObject, put_list, put_members};
use block_records::{BlockageRec, PinRec, RowRec, TrackRec, WireRec};
use block_store::{Block, ListOf, RowEntry};
use odb_base::{Coded, Kind, RowForm, WireCode};
use odb_fields::{Get, Put};
use saved_fields::ReadFault;
use saved_fields::fields::{
    get_coded, get_coordinate, get_flag, get_from, get_id, get_name, get_no_text, get_number,
    get_text, in_limit, put_distance, put_flag,
};
use saved_fields::parts::{get_place, put_place};
use std::alloc::{AllocError, Global};

// The greatest number of sites of a row along an axis.
const SITE_LIMIT: u32 = 1_000_000;

// The greatest number of tracks that stand in one record.
const TRACK_LIMIT: u32 = 1_000_000;

// The greatest number of layers that tracks are for.
const LAYER_LIMIT: u32 = 1_000_000;

impl Spelled for PinRec {
    ghost format = { pin_format };

    #[tactic(auto, unfolding(crate::specs::Physical::pin_format))]
    fn get(alloc: Global, input: &mut Get<'_>) -> Result<PinRec, ReadFault> {
        let bterm = get_id(input)?;
        let place = get_place(input)?;
        let boxes = get_list(alloc, input, RECT_LIMIT)?;
        let kept = get_no_text(alloc, input)?;
        Ok(PinRec {
            bterm,
            place,
            boxes,
            kept,
        })
    }
}

impl SavesObject for PinRec {
    ghost bytes_of = { λ _ r _. pin_format.bytes r };

    ghost fits = { λ _ r _. pin_format.Has r };

    #[tactic(auto, unfolding(crate::specs::Physical::pin_format))]
    fn put(&self, put: &mut Put<'_>, _block: &Block, _id: u32) -> Result<(), AllocError> {
        put.put_u32(self.bterm)?;
        put_place(put, &self.place)?;
        put_list(put, self.boxes.items())?;
        put.put_text(self.kept.bytes())?;
        Ok(())
    }
}

impl Spelled for RowEntry {
    ghost format = { row_format };

    #[tactic(auto, unfolding(crate::specs::Physical::row_format))]
    fn get(alloc: Global, input: &mut Get<'_>) -> Result<RowEntry, ReadFault> {
        let name = get_name(alloc, input)?;
        let site = get_id(input)?;
        let x = get_coordinate(input)?;
        let y = get_coordinate(input)?;
        let orientation = get_coded(input)?;
        let sites = get_sites(input)?;
        let props = get_ids(alloc, input, 0)?;
        let fields = RowRec {
            name,
            site,
            x,
            y,
            orientation,
            form: sites.form,
            nx: sites.nx,
            ny: sites.ny,
            sx: sites.sx,
            sy: sites.sy,
        };
        Ok(RowEntry { fields, props })
    }
}

impl SavesObject for RowRec {
    ghost bytes_of = { λ id r b. row_format.bytes (row_entry id r b) };

    ghost fits = { λ id r b. row_format.Has (row_entry id r b) };

    #[tactic(auto, unfolding(crate::specs::Physical::row_format))]
    fn put(&self, put: &mut Put<'_>, block: &Block, id: u32) -> Result<(), AllocError> {
        put.put_text(self.name.bytes())?;
        put.put_u32(self.site)?;
        put_distance(put, &self.x)?;
        put_distance(put, &self.y)?;
        put.put_u8(self.orientation.code())?;
        put_sites(put, self)?;
        put_members(put, block, ListOf::Props(Kind::Row, id))?;
        Ok(())
    }
}

// The sites of a row: the form, how many stand along x and along y, and the steps along both.
#[derive(Clone, Copy)]
struct Sites {
    form: RowForm,
    nx: u32,
    ny: u32,
    sx: i32,
    sy: i32,
}

#[tactic(auto, unfolding(saved_fields::specs::Sites::sites_at))]
fn get_sites(input: &mut Get<'_>) -> Result<Sites, ReadFault>
    ensures { ReadsAs (λ s. ((((s.form, s.nx), s.ny), s.sx), s.sy)) result (sites_at input.old) input.new }
{
    let form = get_coded(input)?;
    let most = most_sites(form);
    let nx = get_number(input, 1, most)?;
    let ny = get_number(input, 1, most)?;
    let sx = get_step(input, form)?;
    let sy = get_step(input, form)?;
    Ok(Sites {
        form,
        nx,
        ny,
        sx,
        sy,
    })
}

fn most_sites(form: RowForm) -> u32
    ensures { result ≡ most_sites_of form }
{
    match form {
        RowForm::Bare => 1,
        RowForm::Do | RowForm::DoStep => SITE_LIMIT,
    }
}

// Reads a step from site to site of a row of this form.
#[tactic(auto, unfolding(saved_fields::specs::Fields::distance_at))]
fn get_step(input: &mut Get<'_>, form: RowForm) -> Result<i32, ReadFault>
    ensures { Reads result (distance_at (may_step form) input.old) input.new }
{
    let at = input.place();
    let n = input.get_i32()?;
    if is_step(form, n) {
        Ok(n)
    } else {
        Err(ReadFault::BadField { at })
    }
}

fn is_step(form: RowForm, n: i32) -> bool
    ensures { result ≡ may_step form n }
{
    match form {
        RowForm::Bare | RowForm::Do => n == 0,
        RowForm::DoStep => in_limit(n),
    }
}

#[tactic(auto, unfolding(saved_fields::specs::Sites::sites_bytes))]
fn put_sites(put: &mut Put<'_>, row: &RowRec) -> Result<(), AllocError>
    ensures ok { OnOk result (bytes_in put.new ≡ bytes_in put.old ++ sites_bytes (sites_of row.now)) }
    ensures vector { KeepsVector put.old put.new }
{
    put.put_u8(row.form.code())?;
    put.put_u32(row.nx)?;
    put.put_u32(row.ny)?;
    put_distance(put, &row.sx)?;
    put_distance(put, &row.sy)?;
    Ok(())
}

impl Spelled for TrackRec {
    ghost format = { track_format };

    #[tactic(auto, unfolding(crate::specs::Physical::track_format))]
    fn get(alloc: Global, input: &mut Get<'_>) -> Result<TrackRec, ReadFault> {
        let axis = get_coded(input)?;
        let start = get_coordinate(input)?;
        let count = get_number(input, 1, TRACK_LIMIT)?;
        let step = get_from(input, 1)?;
        let layers = get_list(alloc, input, LAYER_LIMIT)?;
        Ok(TrackRec {
            axis,
            start,
            count,
            step,
            layers,
        })
    }
}

impl SavesObject for TrackRec {
    ghost bytes_of = { λ _ r _. track_format.bytes r };

    ghost fits = { λ _ r _. track_format.Has r };

    #[tactic(auto, unfolding(crate::specs::Physical::track_format))]
    fn put(&self, put: &mut Put<'_>, _block: &Block, _id: u32) -> Result<(), AllocError> {
        put.put_u8(self.axis.code())?;
        put_distance(put, &self.start)?;
        put.put_u32(self.count)?;
        put_distance(put, &self.step)?;
        put_list(put, self.layers.items())?;
        Ok(())
    }
}

impl Spelled for WireRec {
    ghost format = { wire_format };

    #[tactic(auto, unfolding(crate::specs::Physical::wire_format))]
    fn get(alloc: Global, input: &mut Get<'_>) -> Result<WireRec, ReadFault> {
        let net = get_id(input)?;
        let status = get_coded(input)?;
        let special = get_flag(input)?;
        let code = get_no_code(alloc, input)?;
        Ok(WireRec {
            net,
            status,
            special,
            code,
        })
    }
}

impl SavesObject for WireRec {
    ghost bytes_of = { λ _ r _. wire_format.bytes r };

    ghost fits = { λ _ r _. wire_format.Has r };

    #[tactic(auto, unfolding(crate::specs::Physical::wire_format))]
    fn put(&self, put: &mut Put<'_>, _block: &Block, _id: u32) -> Result<(), AllocError> {
        put.put_u32(self.net)?;
        put.put_u8(self.status.code())?;
        put_flag(put, self.special)?;
        put.put_text(self.code.bytes())?;
        Ok(())
    }
}

// Reads the code of a wire, which is empty yet.
fn get_no_code(alloc: Global, input: &mut Get<'_>) -> Result<WireCode, ReadFault>
    ensures { Reads result (no_text_at input.old) input.new }
{
    let code = get_text(input, 0, 0)?;
    Ok(WireCode::new(alloc, code)?)
}

impl Spelled for BlockageRec {
    ghost format = { blockage_format };

    #[tactic(auto, unfolding(crate::specs::Physical::blockage_format))]
    fn get(alloc: Global, input: &mut Get<'_>) -> Result<BlockageRec, ReadFault> {
        let layer = get_id(input)?;
        let rects = get_filled_list(alloc, input, RECT_LIMIT)?;
        let kept = get_no_text(alloc, input)?;
        Ok(BlockageRec { layer, rects, kept })
    }
}

impl SavesObject for BlockageRec {
    ghost bytes_of = { λ _ r _. blockage_format.bytes r };

    ghost fits = { λ _ r _. blockage_format.Has r };

    #[tactic(auto, unfolding(crate::specs::Physical::blockage_format))]
    fn put(&self, put: &mut Put<'_>, _block: &Block, _id: u32) -> Result<(), AllocError> {
        put.put_u32(self.layer)?;
        put_list(put, self.rects.items())?;
        put.put_text(self.kept.bytes())?;
        Ok(())
    }
}
