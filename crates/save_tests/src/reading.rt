use odb_base::Kind;
use saved_reader::{ReadFault, read_saved};
use std::alloc::{AllocError, Global};
use std::test::Fail;

mod records;

// The fields of a saved database in their order, each with a value that it may not have, or with nothing where it may
// have any. There are a layer, a via and a site, a master with a terminal and an obstruction, an instance of it, a net
// that joins the instance's terminal and one of the block, two empty slots behind that net, and a row.
const TECHNOLOGY: [(&[u8], &[u8]); 24] = [
    (b"\xa0\x86\x01\0", b"\xa1\x86\x01\0"),
    (b"\x01\0\0\0", b"\x41\x42\x0f\0"),
    (b"\x01\0\0\0m", b"\x01\0\0\0;"),
    (b"\x01", b"\x06"),
    (b"\x02", b"\x03"),
    (b"\x0a\0\0\0", b"\x01\x94\x35\x77"),
    (b"\xf6\xff\xff\xff", b"\xff\x6b\xca\x88"),
    (b"\0\x94\x35\x77", b"\x01\x94\x35\x77"),
    (b"\0\x6c\xca\x88", b"\xff\x6b\xca\x88"),
    (b"\x01\0\0\0", b"\x41\x42\x0f\0"),
    (b"\x01\0\0\0v", b"\x01\0\0\0N"),
    (b"\x01", b"\x02"),
    (b"\x01\0\0\0", b"\x41\x42\x0f\0"),
    (b"\x01\0\0\0", b""),
    (b"\xff\xff\xff\xff", b"\x01\x94\x35\x77"),
    (b"\0\0\0\0", b"\xff\x6b\xca\x88"),
    (b"\xff\xff\xff\xff", b"\xfe\xff\xff\xff"),
    (b"\x02\0\0\0", b"\xff\xff\xff\xff"),
    (b"\x01\0\0\0", b"\x41\x42\x0f\0"),
    (b"\x01\0\0\0s", b"\0\0\0\0"),
    (b"\x02", b"\x03"),
    (b"\x07", b"\x08"),
    (b"\x0a\0\0\0", b"\x01\x94\x35\x77"),
    (b"\xf6\xff\xff\xff", b"\xff\x6b\xca\x88"),
];

const LIBRARY: [(&[u8], &[u8]); 21] = [
    (b"\x01\0\0\0", b"\x41\x42\x0f\0"),
    (b"\x01\0\0\0M", b"\x01\0\0\0*"),
    (b"\x04\0\0\0CORE", b""),
    (b"\xfb\xff\xff\xff", b"\x01\x94\x35\x77"),
    (b"\0\0\0\0", b"\xff\x6b\xca\x88"),
    (b"\x0a\0\0\0", b"\x01\x94\x35\x77"),
    (b"\x14\0\0\0", b"\xff\x6b\xca\x88"),
    (b"\x03", b"\x08"),
    (b"\0\0\0\0", b""),
    (b"\0\0\0\0", b""),
    (b"\x01\0\0\0", b"\0\0\x01\0"),
    (b"\x01\0\0\0A", b"\0\0\0\0"),
    (b"\x01", b"\x06"),
    (b"\x01", b"\x09"),
    (b"\0\0\0\0", b"\x41\x42\x0f\0"),
    (b"\x01\0\0\0", b"\x41\x42\x0f\0"),
    (b"\x01\0\0\0", b""),
    (b"\0\0\0\0", b"\x01\x94\x35\x77"),
    (b"\0\0\0\0", b"\x01\x94\x35\x77"),
    (b"\x01\0\0\0", b"\xff\xff\xff\xff"),
    (b"\x01\0\0\0", b"\xff\xff\xff\xff"),
];

const HEADER: [(&[u8], &[u8]); 6] = [
    (b"\0\0\0\0", b"\x01\0\0\0d"),
    (b"\x01\0\0\0/", b"\x01\0\0\0|"),
    (b"\x02\0\0\0[]", b"\x02\0\0\0()"),
    (b"\0", b"\x01"),
    (b"\0\0\0\0", b"\x01\0\0\0"),
    (b"\0\0\0\0", b"\x01\0\0\0"),
];

const INSTANCES: [(&[u8], &[u8]); 14] = [
    (b"\x01\0\0\0", b""),
    (b"\x01", b"\x02"),
    (b"\x01\0\0\0i", b"\x01\0\0\0;"),
    (b"\x01\0\0\0", b""),
    (b"\x01", b"\x04"),
    (b"\x07\0\0\0", b"\x01\x94\x35\x77"),
    (b"\xfe\xff\xff\xff", b"\xff\x6b\xca\x88"),
    (b"\x02", b"\x08"),
    (b"\0\0\0\0", b"\x01\0\0\0"),
    (b"\x01\0\0\0", b""),
    (b"\x01\0\0\0", b""),
    (b"\0\0\0\0", b"\x01\0\0\0"),
    (b"\0\0\0\0", b"\x01\0\0\0k"),
    (b"\0\0\0\0", b""),
];

const INSTANCE_TERMINALS: [(&[u8], &[u8]); 6] = [
    (b"\x01\0\0\0", b""),
    (b"\x01", b"\x02"),
    (b"\x01\0\0\0", b""),
    (b"\0\0\0\0", b""),
    (b"\x01\0\0\0", b""),
    (b"\0\0\0\0", b""),
];

const NETS: [(&[u8], &[u8]); 19] = [
    (b"\x03\0\0\0", b""),
    (b"\x01", b"\xff"),
    (b"\x01\0\0\0n", b"\xff\xff\xff\xff"),
    (b"\x05", b"\x09"),
    (b"\x01", b"\x02"),
    (b"\x02\0\0\0", b""),
    (b"\x04", b"\0"),
    (b"\x01\0\0\0", b""),
    (b"\x02", b"\x0d"),
    (b"\x01\0\0\0", b""),
    (b"\0\0\0\0", b"\x01\0\0\0"),
    (b"\0\0\0\0", b"\x01\0\0\0"),
    (b"\0\0\0\0", b"\x01\0\0\0k"),
    (b"\0\0\0\0", b"\x01\0\0\0k"),
    (b"\0", b"\x02"),
    (b"\0", b"\x02"),
    (b"\x02\0\0\0", b""),
    (b"\x03\0\0\0", b""),
    (b"\x02\0\0\0", b""),
];

const BLOCK_TERMINALS: [(&[u8], &[u8]); 9] = [
    (b"\x01\0\0\0", b""),
    (b"\x01", b"\x02"),
    (b"\x01\0\0\0p", b"\x01\0\0\0\x7f"),
    (b"\x01\0\0\0", b""),
    (b"\x02", b"\x03"),
    (b"\0", b"\x09"),
    (b"\0\0\0\0", b"\x01\0\0\0"),
    (b"\0\0\0\0", b"\x01\0\0\0k"),
    (b"\0\0\0\0", b""),
];

// A row of one site.
const ROWS: [(&[u8], &[u8]); 14] = [
    (b"\x01\0\0\0", b""),
    (b"\x01", b"\x02"),
    (b"\x01\0\0\0r", b"\x01\0\0\0;"),
    (b"\x01\0\0\0", b""),
    (b"\x0a\0\0\0", b"\x01\x94\x35\x77"),
    (b"\xf6\xff\xff\xff", b"\xff\x6b\xca\x88"),
    (b"\x05", b"\x08"),
    (b"\0", b"\x03"),
    (b"\x01\0\0\0", b"\x02\0\0\0"),
    (b"\x01\0\0\0", b"\0\0\0\0"),
    (b"\0\0\0\0", b"\x01\0\0\0"),
    (b"\0\0\0\0", b"\xff\xff\xff\xff"),
    (b"\0\0\0\0", b"\x01\0\0\0"),
    (b"\0\0\0\0", b""),
];

// A table without slots and free identifiers, of a kind whose objects are still to come.
const OTHER: [(&[u8], &[u8]); 2] = [(b"\0\0\0\0", b"\x01\0\0\0"), (b"\0\0\0\0", b"\x01\0\0\0")];

// Bytes under construction, in which one field gets another value.
#[derive(Drop)]
struct Stream {
    bytes: Vec<u8>,
    // The field that is to get it, of those that are still to come.
    left: usize,
    // Where that field begins.
    at: u64,
    // Whether that field may have any value.
    any: bool,
}

impl Stream {
    fn put(&mut self, fields: &[(&[u8], &[u8])]) -> Result<(), AllocError> {
        for (bytes, other) in fields.iter() {
            if self.left == 1 && !other.is_empty() {
                self.at = self.bytes.len() as u64;
                self.any = false;
                self.bytes.extend_from_slice(other)?;
            } else {
                self.bytes.extend_from_slice(bytes)?;
            }
            self.left = self.left.saturating_sub(1);
        }
        Ok(())
    }
}

// The bytes where the field of this number, from 1, has another value; 0 for none.
fn stream_with(alloc: Global, number: usize) -> Result<Stream, AllocError> {
    let mut stream = Stream {
        bytes: b"ODBS\x01\0\0\0".to_vec(alloc)?,
        left: number,
        at: 0,
        any: true,
    };
    stream.put(&TECHNOLOGY)?;
    stream.put(&LIBRARY)?;
    stream.put(&HEADER)?;
    stream.put(&INSTANCES)?;
    stream.put(&INSTANCE_TERMINALS)?;
    stream.put(&NETS)?;
    stream.put(&BLOCK_TERMINALS)?;
    stream.put(&OTHER)?;
    stream.put(&ROWS)?;
    for _ in 0..6 {
        stream.put(&OTHER)?;
    }
    Ok(stream)
}

fn fault(alloc: Global, bytes: &[u8], cap: u32) -> Option<ReadFault> {
    read_saved(alloc, bytes, cap).err()
}

#[test]
fn a_cut_at_every_length(rt: HostRuntime) -> Result<(), Fail> {
    let alloc = rt.alloc();
    let whole = stream_with(alloc, 0)?;
    let bytes = whole.bytes.as_slice();
    for n in 0..bytes.len() {
        let expected = if n < 4 {
            ReadFault::NotSaved
        } else {
            ReadFault::Cut { at: n as u64 }
        };
        assert_eq!(rt; fault(alloc, &bytes[..n], 3), Some(expected));
    }
    assert_eq!(rt; fault(alloc, bytes, 3), None);
    Ok(())
}

#[test]
fn each_field_is_judged(rt: HostRuntime) -> Result<(), Fail> {
    let alloc = rt.alloc();
    let mut judged = 0u32;
    for number in 1..128 {
        let changed = stream_with(alloc, number)?;
        if !changed.any {
            judged = judged.saturating_add(1);
            assert_eq!(rt;
                fault(alloc, &changed.bytes, 3),
                Some(ReadFault::BadField { at: changed.at })
            );
        }
    }
    assert_eq!(rt; judged, 99);
    Ok(())
}

#[test]
fn a_placement_is_at_fault_at_the_later_field(rt: HostRuntime) -> Result<(), Fail> {
    let alloc = rt.alloc();
    // The status of the instance is its fifth field.
    let at = stream_with(alloc, 56)?.at;
    let mut whole = stream_with(alloc, 0)?;
    if let Some(status) = whole.bytes.get_mut(at as usize) {
        *status = 0;
    }
    let expected = ReadFault::BadField {
        at: at.saturating_add(1),
    };
    assert_eq!(rt; fault(alloc, &whole.bytes, 3), Some(expected));
    Ok(())
}

#[test]
fn the_mark_the_version_and_the_end(rt: HostRuntime) -> Result<(), Fail> {
    let alloc = rt.alloc();
    let rows: [(&[u8], ReadFault); 4] = [
        (b"", ReadFault::NotSaved),
        (b"ODBT\x01\0\0\0", ReadFault::NotSaved),
        (b"ODBS\x02\0\0\0", ReadFault::Version { got: 2 }),
        (b"ODBS\x01\0\0", ReadFault::Cut { at: 7 }),
    ];
    for (bytes, expected) in rows.iter() {
        assert_eq!(rt; fault(alloc, bytes, 3), Some(*expected));
    }
    let mut longer = stream_with(alloc, 0)?;
    let at = longer.bytes.len() as u64;
    longer.bytes.push(0)?;
    assert_eq!(rt;
        fault(alloc, &longer.bytes, 3),
        Some(ReadFault::Trailing { at })
    );
    Ok(())
}

#[test]
fn counts_are_judged_before_what_they_count(rt: HostRuntime) -> Result<(), Fail> {
    let alloc = rt.alloc();
    let whole = stream_with(alloc, 0)?;
    let over = ReadFault::OverCap { kind: Kind::Net };
    assert_eq!(rt; fault(alloc, &whole.bytes, 2), Some(over));

    // Three masters or more than may be, and the bytes end.
    let mut few = b"ODBS\x01\0\0\0".to_vec(alloc)?;
    few.extend_from_slice(&[0; 16])?;
    few.extend_from_slice(b"\xff\xff\xff\xff")?;
    assert_eq!(rt; fault(alloc, &few, 3), Some(ReadFault::BadField { at: 24 }));
    Ok(())
}

// The numbers of the fields that count layers, vias, shapes of a via, sites, masters, terminals of a master, and
// shapes of a terminal and of obstructions, each with the greatest value that it may have.
const GREATEST_COUNTS: [(usize, &[u8]); 8] = [
    (2, b"\x40\x42\x0f\0"),
    (10, b"\x40\x42\x0f\0"),
    (13, b"\x40\x42\x0f\0"),
    (19, b"\x40\x42\x0f\0"),
    (25, b"\x40\x42\x0f\0"),
    (35, b"\xff\xff\0\0"),
    (39, b"\x40\x42\x0f\0"),
    (40, b"\x40\x42\x0f\0"),
];

#[test]
fn counts_reach_their_limits(rt: HostRuntime) -> Result<(), Fail> {
    let alloc = rt.alloc();
    for (number, greatest) in GREATEST_COUNTS.iter() {
        let bytes = cut_behind(alloc, *number, greatest)?;
        let cut = ReadFault::Cut {
            at: bytes.len() as u64,
        };
        assert_eq!(rt; fault(alloc, &bytes, 3), Some(cut), "of field {number}");
    }
    // 16,777,215 slots of instances, and one more.
    let slots = with_slots(alloc, b"\xff\xff\xff\0")?;
    let cut = ReadFault::Cut {
        at: slots.len() as u64,
    };
    assert_eq!(rt; fault(alloc, &slots, 16_777_215), Some(cut));
    let over = ReadFault::OverCap { kind: Kind::Inst };
    let slots = with_slots(alloc, b"\0\0\0\x01")?;
    assert_eq!(rt; fault(alloc, &slots, 16_777_215), Some(over));
    Ok(())
}

// The bytes up to the field of this number, which has this value.
fn cut_behind(alloc: Global, number: usize, value: &[u8]) -> Result<Vec<u8>, AllocError> {
    let mut stream = stream_with(alloc, number)?;
    stream.bytes.truncate(stream.at as usize);
    stream.bytes.extend_from_slice(value)?;
    Ok(stream.bytes)
}

// The bytes up to the number of slots of the first table.
fn with_slots(alloc: Global, count: &[u8]) -> Result<Vec<u8>, AllocError> {
    let mut stream = Stream {
        bytes: b"ODBS\x01\0\0\0".to_vec(alloc)?,
        left: 0,
        at: 0,
        any: true,
    };
    stream.put(&TECHNOLOGY)?;
    stream.put(&LIBRARY)?;
    stream.put(&HEADER)?;
    stream.bytes.extend_from_slice(count)?;
    Ok(stream.bytes)
}
