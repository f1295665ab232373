use odb_base::{
    Coded, Direction, Kind, LayerDirection, LayerType, Name, Orient, Owner, PlaceStatus, PropType,
    RegionType, RowForm, SiteClass, TrackAxis, Usage, WireStatus,
};
use slot_pool::SlotPool;
use std::alloc::{AllocError, Global};
use std::test::Fail;

#[test]
fn limits_and_one_beyond(rt: HostRuntime) -> Result<(), Fail> {
    let alloc = rt.alloc();
    let longest = is_name(alloc, 4095)?;
    let too_long = is_name(alloc, 4096)?;
    let rows = [
        ("bytes of a name", (longest, too_long)),
        (
            "slots of a pool",
            (has_room(alloc, 3, 3), has_room(alloc, 3, 4)),
        ),
        (
            "slots of a pool of none",
            (has_room(alloc, 0, 0), has_room(alloc, 0, 1)),
        ),
        ("direction", codes::<Direction>(0, 5)),
        ("kind", codes::<Kind>(1, 12)),
        ("layer direction", codes::<LayerDirection>(0, 2)),
        ("layer type", codes::<LayerType>(0, 5)),
        ("orientation", codes::<Orient>(0, 7)),
        ("owner", codes::<Owner>(1, 8)),
        ("placement", codes::<PlaceStatus>(0, 3)),
        ("type of a property", codes::<PropType>(1, 3)),
        ("type of a region", codes::<RegionType>(0, 2)),
        ("form of a row", codes::<RowForm>(0, 2)),
        ("class of a site", codes::<SiteClass>(1, 2)),
        ("axis of a track", codes::<TrackAxis>(0, 1)),
        ("use of a net", codes::<Usage>(0, 8)),
        ("status of a wire", codes::<WireStatus>(0, 2)),
    ];
    for (what, found) in rows.iter() {
        assert_eq!(rt; (*what, *found), (*what, (true, false)));
    }
    Ok(())
}

fn is_name(alloc: Global, bytes: usize) -> Result<bool, AllocError> {
    let name = vec![in alloc; b'n'; bytes]?;
    Ok(Name::new(alloc, &name).is_ok())
}

fn has_room(alloc: Global, cap: u32, takes: u32) -> bool {
    let mut pool: SlotPool<u8> = SlotPool::new(alloc, cap);
    pool.reserve(takes).is_ok()
}

// Whether the least and the last code have values, and whether the codes beside them do.
fn codes<C: Coded>(least: u8, last: u8) -> (bool, bool) {
    let at = C::from_code(least).is_some() && C::from_code(last).is_some();
    let above = C::from_code(last.saturating_add(1)).is_some();
    let below = least > 0 && C::from_code(least - 1).is_some();
    (at, above || below)
}
