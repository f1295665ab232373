ghost use Rattle.saved_reader.specs.Entries.{group_entry, region_entry};
ghost use Rattle.saved_reader.specs.Grouping.{group_format, prop_format, region_format};

use crate::lists::{RECT_LIMIT, Spelled, get_filled_list, get_ids};
use crate::saves::{SavesObject, put_list, put_members};
use block_records::{GroupRec, PropRec, RegionRec};
use block_store::{Block, GroupEntry, ListOf, RegionEntry};
use odb_base::{Coded, GroupId, Kind, RegionId};
use odb_fields::{Get, Put};
use saved_fields::ReadFault;
use saved_fields::fields::{get_coded, get_id, get_name, get_no_text};
use std::alloc::{AllocError, Global};

impl Spelled for RegionEntry {
    ghost format = { region_format };

    #[tactic(auto, unfolding(crate::specs::Grouping::region_format))]
    fn get(alloc: Global, input: &mut Get<'_>) -> Result<RegionEntry, ReadFault> {
        let name = get_name(alloc, input)?;
        let sort = get_coded(input)?;
        let rects = get_filled_list(alloc, input, RECT_LIMIT)?;
        let groups = get_ids(alloc, input, 0)?;
        let props = get_ids(alloc, input, 0)?;
        let kept = get_no_text(alloc, input)?;
        let fields = RegionRec {
            name,
            sort,
            rects,
            kept,
        };
        Ok(RegionEntry {
            fields,
            groups,
            props,
        })
    }
}

impl SavesObject for RegionRec {
    ghost bytes_of = { λ id r b. region_format.bytes (region_entry id r b) };

    ghost fits = { λ id r b. region_format.Has (region_entry id r b) };

    #[tactic(auto, unfolding(crate::specs::Grouping::region_format))]
    fn put(&self, put: &mut Put<'_>, block: &Block, id: u32) -> Result<(), AllocError> {
        put.put_text(self.name.bytes())?;
        put.put_u8(self.sort.code())?;
        put_list(put, self.rects.items())?;
        put_members(put, block, ListOf::Groups(RegionId(id)))?;
        put_members(put, block, ListOf::Props(Kind::Region, id))?;
        put.put_text(self.kept.bytes())?;
        Ok(())
    }
}

impl Spelled for GroupEntry {
    ghost format = { group_format };

    #[tactic(auto, unfolding(crate::specs::Grouping::group_format))]
    fn get(alloc: Global, input: &mut Get<'_>) -> Result<GroupEntry, ReadFault> {
        let name = get_name(alloc, input)?;
        let region = get_id(input)?;
        let members = get_ids(alloc, input, u32::MAX)?;
        let props = get_ids(alloc, input, 0)?;
        let kept = get_no_text(alloc, input)?;
        let fields = GroupRec { name, region, kept };
        Ok(GroupEntry {
            fields,
            members,
            props,
        })
    }
}

impl SavesObject for GroupRec {
    ghost bytes_of = { λ id r b. group_format.bytes (group_entry id r b) };

    ghost fits = { λ id r b. group_format.Has (group_entry id r b) };

    #[tactic(auto, unfolding(crate::specs::Grouping::group_format))]
    fn put(&self, put: &mut Put<'_>, block: &Block, id: u32) -> Result<(), AllocError> {
        put.put_text(self.name.bytes())?;
        put.put_u32(self.region)?;
        put_members(put, block, ListOf::Members(GroupId(id)))?;
        put_members(put, block, ListOf::Props(Kind::Group, id))?;
        put.put_text(self.kept.bytes())?;
        Ok(())
    }
}

impl Spelled for PropRec {
    ghost format = { prop_format };

    #[tactic(auto, unfolding(crate::specs::Grouping::prop_format))]
    fn get(alloc: Global, input: &mut Get<'_>) -> Result<PropRec, ReadFault> {
        let definition = get_id(input)?;
        let object = get_id(input)?;
        let value = get_no_text(alloc, input)?;
        Ok(PropRec {
            definition,
            object,
            value,
        })
    }
}

impl SavesObject for PropRec {
    ghost bytes_of = { λ _ r _. prop_format.bytes r };

    ghost fits = { λ _ r _. prop_format.Has r };

    #[tactic(auto, unfolding(crate::specs::Grouping::prop_format))]
    fn put(&self, put: &mut Put<'_>, _block: &Block, _id: u32) -> Result<(), AllocError> {
        put.put_u32(self.definition)?;
        put.put_u32(self.object)?;
        put.put_text(self.value.bytes())?;
        Ok(())
    }
}
