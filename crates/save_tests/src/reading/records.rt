//! The records of the kinds that are still to come, each by itself.

use super::Stream;
use block_records::{BlockageRec, PinRec, PropRec, TrackRec, WireRec};
use block_store::{GroupEntry, RegionEntry, RowEntry};
use odb_base::{Coded, LayerId, Rect, Shape};
use odb_fields::Get;
use saved_reader::ReadFault;
use saved_reader::lists::Spelled;
use std::alloc::{AllocError, Global};
use std::process::Abort;
use std::test::Fail;

// The fields of each record, every one with a value that it may not have, or with nothing where it may have any.
const PIN: [(&[u8], &[u8]); 12] = [
    (b"\x05\0\0\0", b""),
    (b"\x02", b"\x04"),
    (b"\x0a\0\0\0", b"\x01\x94\x35\x77"),
    (b"\xf6\xff\xff\xff", b"\xff\x6b\xca\x88"),
    (b"\x04", b"\x08"),
    (b"\x01\0\0\0", b"\x41\x42\x0f\0"),
    (b"\x03\0\0\0", b""),
    (b"\xff\xff\xff\xff", b"\x01\x94\x35\x77"),
    (b"\0\0\0\0", b"\xff\x6b\xca\x88"),
    (b"\xff\xff\xff\xff", b"\xfe\xff\xff\xff"),
    (b"\x02\0\0\0", b"\xff\xff\xff\xff"),
    (b"\0\0\0\0", b"\x01\0\0\0k"),
];

const ROW: [(&[u8], &[u8]); 11] = [
    (b"\x01\0\0\0r", b"\x01\0\0\0*"),
    (b"\x02\0\0\0", b""),
    (b"\x0a\0\0\0", b"\x01\x94\x35\x77"),
    (b"\xf6\xff\xff\xff", b"\xff\x6b\xca\x88"),
    (b"\x05", b"\x08"),
    (b"\x02", b"\x03"),
    (b"\x40\x42\x0f\0", b"\x41\x42\x0f\0"),
    (b"\x01\0\0\0", b"\0\0\0\0"),
    (b"\0\x6c\xca\x88", b"\xff\x6b\xca\x88"),
    (b"\0\x94\x35\x77", b"\x01\x94\x35\x77"),
    (b"\0\0\0\0", b"\x01\0\0\0"),
];

const ROW_WITHOUT_STEP: [(&[u8], &[u8]); 11] = [
    (b"\x01\0\0\0r", b"\0\0\0\0"),
    (b"\x02\0\0\0", b""),
    (b"\x0a\0\0\0", b"\xff\x6b\xca\x88"),
    (b"\xf6\xff\xff\xff", b"\x01\x94\x35\x77"),
    (b"\x05", b"\xff"),
    (b"\x01", b"\xff"),
    (b"\x40\x42\x0f\0", b"\0\0\0\0"),
    (b"\x02\0\0\0", b"\x41\x42\x0f\0"),
    (b"\0\0\0\0", b"\x01\0\0\0"),
    (b"\0\0\0\0", b"\xff\xff\xff\xff"),
    (b"\0\0\0\0", b"\x01\0\0\0"),
];

const ROW_OF_ONE_SITE: [(&[u8], &[u8]); 11] = [
    (b"\x01\0\0\0r", b"\x01\0\0\0;"),
    (b"\x02\0\0\0", b""),
    (b"\x0a\0\0\0", b"\x01\x94\x35\x77"),
    (b"\xf6\xff\xff\xff", b"\xff\x6b\xca\x88"),
    (b"\x05", b"\x08"),
    (b"\0", b"\x03"),
    (b"\x01\0\0\0", b"\x02\0\0\0"),
    (b"\x01\0\0\0", b"\0\0\0\0"),
    (b"\0\0\0\0", b"\xff\xff\xff\xff"),
    (b"\0\0\0\0", b"\x01\0\0\0"),
    (b"\0\0\0\0", b"\x01\0\0\0"),
];

const TRACK: [(&[u8], &[u8]); 7] = [
    (b"\x01", b"\x02"),
    (b"\xf6\xff\xff\xff", b"\xff\x6b\xca\x88"),
    (b"\x40\x42\x0f\0", b"\x41\x42\x0f\0"),
    (b"\x01\0\0\0", b"\0\0\0\0"),
    (b"\x02\0\0\0", b"\x41\x42\x0f\0"),
    (b"\x07\0\0\0", b""),
    (b"\x03\0\0\0", b""),
];

const WIRE: [(&[u8], &[u8]); 4] = [
    (b"\x09\0\0\0", b""),
    (b"\x02", b"\x03"),
    (b"\x01", b"\x02"),
    (b"\0\0\0\0", b"\x01\0\0\0c"),
];

const BLOCKAGE: [(&[u8], &[u8]); 7] = [
    (b"\0\0\0\0", b""),
    (b"\x01\0\0\0", b"\x41\x42\x0f\0"),
    (b"\x01\0\0\0", b"\x01\x94\x35\x77"),
    (b"\x02\0\0\0", b"\xff\x6b\xca\x88"),
    (b"\x03\0\0\0", b"\0\0\0\0"),
    (b"\x04\0\0\0", b"\x01\0\0\0"),
    (b"\0\0\0\0", b"\x01\0\0\0k"),
];

const REGION: [(&[u8], &[u8]); 10] = [
    (b"\x01\0\0\0f", b"\x01\0\0\0\x7f"),
    (b"\x02", b"\x03"),
    (b"\x01\0\0\0", b"\0\0\0\0"),
    (b"\x01\0\0\0", b"\x01\x94\x35\x77"),
    (b"\x02\0\0\0", b"\xff\x6b\xca\x88"),
    (b"\x03\0\0\0", b"\0\0\0\0"),
    (b"\x04\0\0\0", b"\x01\0\0\0"),
    (b"\0\0\0\0", b"\x01\0\0\0"),
    (b"\0\0\0\0", b"\x01\0\0\0"),
    (b"\0\0\0\0", b"\x01\0\0\0k"),
];

const GROUP: [(&[u8], &[u8]); 7] = [
    (b"\x01\0\0\0g", b"\xff\xff\xff\xff"),
    (b"\x04\0\0\0", b""),
    (b"\x02\0\0\0", b""),
    (b"\x08\0\0\0", b""),
    (b"\x06\0\0\0", b""),
    (b"\0\0\0\0", b"\x01\0\0\0"),
    (b"\0\0\0\0", b"\x01\0\0\0k"),
];

const PROP: [(&[u8], &[u8]); 3] = [
    (b"\x03\0\0\0", b""),
    (b"\x0b\0\0\0", b""),
    (b"\0\0\0\0", b"\x01\0\0\0v"),
];

// The fields, of which that of this number, from 1, has another value; 0 for none.
fn stream_of(
    alloc: Global,
    fields: &[(&[u8], &[u8])],
    number: usize,
) -> Result<Stream, AllocError> {
    let mut stream = Stream {
        bytes: Vec::new(alloc),
        left: number,
        at: 0,
        any: true,
    };
    stream.put(fields)?;
    Ok(stream)
}

// Tries each value that a field may not have, and answers how many there are.
fn judged<T: Spelled>(
    rt: &impl Abort,
    alloc: Global,
    fields: &[(&[u8], &[u8])],
) -> Result<u32, AllocError> {
    let mut count = 0u32;
    for number in 0..fields.len() {
        let changed = stream_of(alloc, fields, number + 1)?;
        if !changed.any {
            count = count.saturating_add(1);
            let read = T::get(alloc, &mut Get::new(&changed.bytes));
            assert_eq!(rt; read.err(), Some(ReadFault::BadField { at: changed.at }));
        }
    }
    Ok(count)
}

#[test]
fn each_field_of_each_record_is_judged(rt: HostRuntime) -> Result<(), Fail> {
    let alloc = rt.alloc();
    assert_eq!(rt; judged::<PinRec>(&rt, alloc, &PIN)?, 10);
    assert_eq!(rt; judged::<RowEntry>(&rt, alloc, &ROW)?, 10);
    assert_eq!(rt; judged::<RowEntry>(&rt, alloc, &ROW_WITHOUT_STEP)?, 10);
    assert_eq!(rt; judged::<RowEntry>(&rt, alloc, &ROW_OF_ONE_SITE)?, 10);
    assert_eq!(rt; judged::<TrackRec>(&rt, alloc, &TRACK)?, 5);
    assert_eq!(rt; judged::<WireRec>(&rt, alloc, &WIRE)?, 3);
    assert_eq!(rt; judged::<BlockageRec>(&rt, alloc, &BLOCKAGE)?, 6);
    assert_eq!(rt; judged::<RegionEntry>(&rt, alloc, &REGION)?, 10);
    assert_eq!(rt; judged::<GroupEntry>(&rt, alloc, &GROUP)?, 3);
    assert_eq!(rt; judged::<PropRec>(&rt, alloc, &PROP)?, 1);
    Ok(())
}

// What lawful fields are read as, and that nothing of them is left.
fn whole<T: Spelled>(
    rt: &impl Abort,
    alloc: Global,
    fields: &[(&[u8], &[u8])],
) -> Result<T, ReadFault> {
    let lawful = stream_of(alloc, fields, 0)?;
    let mut input = Get::new(&lawful.bytes);
    let read = T::get(alloc, &mut input)?;
    assert_eq!(rt; input.place(), lawful.bytes.len() as u64);
    Ok(read)
}

#[test]
fn pins(rt: HostRuntime) -> Result<(), Fail> {
    let pin: PinRec = whole(&rt, rt.alloc(), &PIN)?;
    assert_eq!(rt;
        (pin.bterm, pin.place.status.code(), pin.place.x),
        (5, 2, 10)
    );
    assert_eq!(rt; (pin.place.y, pin.place.orientation.code()), (-10, 4));
    let box_on_3 = Shape {
        layer: LayerId(3),
        rect: Rect {
            xl: -1,
            yl: 0,
            xh: -1,
            yh: 2,
        },
    };
    assert!(rt; pin.boxes.items() == [box_on_3].as_slice());
    Ok(())
}

#[test]
fn rows(rt: HostRuntime) -> Result<(), Fail> {
    full_row(&rt, rt.alloc())?;
    short_row(&rt, rt.alloc(), &ROW_OF_ONE_SITE, (0, 1, 1))?;
    short_row(&rt, rt.alloc(), &ROW_WITHOUT_STEP, (1, 1_000_000, 2))
}

fn full_row(rt: &impl Abort, alloc: Global) -> Result<(), Fail> {
    let row: RowEntry = whole(rt, alloc, &ROW)?;
    assert!(rt; row.fields.name.bytes() == b"r".as_slice());
    assert_eq!(rt; (row.fields.site, row.fields.x, row.fields.y), (2, 10, -10));
    assert_eq!(rt;
        (row.fields.orientation.code(), row.fields.form.code()),
        (5, 2)
    );
    assert_eq!(rt; (row.fields.nx, row.fields.ny), (1_000_000, 1));
    assert_eq!(rt;
        (row.fields.sx, row.fields.sy),
        (-2_000_000_000, 2_000_000_000)
    );
    Ok(())
}

// A row without a step, of this form and with so many sites along each axis.
fn short_row(
    rt: &impl Abort,
    alloc: Global,
    fields: &[(&[u8], &[u8])],
    read: (u8, u32, u32),
) -> Result<(), Fail> {
    let row: RowEntry = whole(rt, alloc, fields)?;
    assert_eq!(rt;
        (row.fields.form.code(), row.fields.nx, row.fields.ny),
        read
    );
    assert_eq!(rt; (row.fields.sx, row.fields.sy), (0, 0));
    Ok(())
}

#[test]
fn tracks(rt: HostRuntime) -> Result<(), Fail> {
    let track: TrackRec = whole(&rt, rt.alloc(), &TRACK)?;
    assert_eq!(rt; (track.axis.code(), track.start), (1, -10));
    assert_eq!(rt; (track.count, track.step), (1_000_000, 1));
    assert!(rt; track.layers.items() == [7, 3].as_slice());
    Ok(())
}

#[test]
fn wires(rt: HostRuntime) -> Result<(), Fail> {
    let wire: WireRec = whole(&rt, rt.alloc(), &WIRE)?;
    assert_eq!(rt; (wire.net, wire.status.code(), wire.special), (9, 2, true));
    Ok(())
}

#[test]
fn blockages(rt: HostRuntime) -> Result<(), Fail> {
    let blockage: BlockageRec = whole(&rt, rt.alloc(), &BLOCKAGE)?;
    assert_eq!(rt; blockage.layer, 0);
    assert!(rt; blockage.rects.items() == [FIELD].as_slice());
    Ok(())
}

// The rectangle of the blockage and of the region.
const FIELD: Rect = Rect {
    xl: 1,
    yl: 2,
    xh: 3,
    yh: 4,
};

#[test]
fn regions(rt: HostRuntime) -> Result<(), Fail> {
    let region: RegionEntry = whole(&rt, rt.alloc(), &REGION)?;
    assert!(rt; region.fields.name.bytes() == b"f".as_slice());
    assert_eq!(rt; region.fields.sort.code(), 2);
    assert!(rt; region.fields.rects.items() == [FIELD].as_slice());
    Ok(())
}

#[test]
fn groups(rt: HostRuntime) -> Result<(), Fail> {
    let group: GroupEntry = whole(&rt, rt.alloc(), &GROUP)?;
    assert!(rt; group.fields.name.bytes() == b"g".as_slice());
    assert_eq!(rt; group.fields.region, 4);
    assert!(rt; group.members.items() == [8, 6].as_slice());
    Ok(())
}

#[test]
fn properties(rt: HostRuntime) -> Result<(), Fail> {
    let prop: PropRec = whole(&rt, rt.alloc(), &PROP)?;
    assert_eq!(rt; (prop.definition, prop.object), (3, 11));
    Ok(())
}
