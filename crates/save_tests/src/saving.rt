use block_store::Database;
use odb_base::Kind;
use odb_save::{LoadFault, load, save};
use std::alloc::{AllocError, Global};
use std::test::Fail;

// What is expected, piece by piece.
#[derive(Drop)]
struct Expected {
    bytes: Vec<u8>,
}

impl Expected {
    fn text(&mut self, text: &[u8]) -> Result<(), AllocError> {
        self.bytes.extend_from_slice(text)?;
        Ok(())
    }

    fn zeros(&mut self, count: usize) -> Result<(), AllocError> {
        for _ in 0..count {
            self.bytes.push(0)?;
        }
        Ok(())
    }

    // The divider and the bus characters, and all behind them where there is no object.
    fn rest(&mut self) -> Result<(), AllocError> {
        self.text(b"\x01\0\0\0/\x02\0\0\0[]")?;
        self.zeros(105)
    }
}

#[test]
fn the_empty_database(rt: HostRuntime) -> Result<(), Fail> {
    let alloc = rt.alloc();
    let mut expected = Expected {
        bytes: Vec::new(alloc),
    };
    expected.text(b"ODBS\x01\0\0\0")?;
    expected.zeros(24)?;
    expected.rest()?;
    let bytes = saved(alloc, Database::new(alloc, 10)?)?;
    assert_eq!(rt; bytes.len(), 148);
    assert!(rt; bytes.as_slice() == expected.bytes.as_slice());
    Ok(())
}

// The saved bytes of a database, which is given up.
fn saved(alloc: Global, db: Database) -> Result<Vec<u8>, AllocError> {
    let bytes = save(alloc, &db);
    drop(db);
    bytes
}

// One slot with the net `a`, and no free identifier.
const ONE_NET: &[u8] =
    b"\x01\0\0\0\x01\x01\0\0\0a\0\0\0\0\0\0\0\0\0\0\0\0\0\0\0\0\0\0\0\0\0\0\0\0\0\0";

// An empty slot, which is free twice.
const FREE_TWICE: &[u8] = b"\x01\0\0\0\0\x02\0\0\0\x01\0\0\0\x01\0\0\0";

// The bytes of a database in which all but this table of nets is empty.
fn saved_with(alloc: Global, nets: &[u8]) -> Result<Vec<u8>, AllocError> {
    let mut expected = Expected {
        bytes: Vec::new(alloc),
    };
    expected.text(b"ODBS\x01\0\0\0")?;
    expected.zeros(24)?;
    expected.text(b"\x01\0\0\0/\x02\0\0\0[]")?;
    expected.zeros(25)?;
    expected.text(nets)?;
    expected.zeros(72)?;
    Ok(expected.bytes)
}

fn load_fault(alloc: Global, bytes: &[u8], cap: u8) -> Option<LoadFault> {
    load(alloc, bytes, cap as u32).err()
}

// Whether the bytes are refused, or are those that their database saves.
fn is_refused_or_saved(alloc: Global, bytes: &[u8]) -> Result<bool, AllocError> {
    match load(alloc, bytes, 10) {
        Err(fault) => Ok(fault != LoadFault::Memory),
        Ok(db) => Ok(saved(alloc, db)?.as_slice() == bytes),
    }
}

#[test]
fn one_net_is_loaded(rt: HostRuntime) -> Result<(), Fail> {
    let alloc = rt.alloc();
    let bytes = saved_with(alloc, ONE_NET)?;
    assert_eq!(rt; bytes.len(), 176);
    let db = load(alloc, &bytes, 10)?;
    assert_eq!(rt; db.block.slots(Kind::Net), 1);
    assert!(rt; saved(alloc, db)?.as_slice() == bytes.as_slice());
    Ok(())
}

#[test]
fn a_load_of_the_first_bytes(rt: HostRuntime) -> Result<(), Fail> {
    let alloc = rt.alloc();
    let mut bytes = saved_with(alloc, ONE_NET)?;
    for n in 0..bytes.len() {
        let expected = if n < 4 {
            LoadFault::NotSaved
        } else {
            LoadFault::Cut { at: n as u64 }
        };
        assert_eq!(rt; load_fault(alloc, &bytes[..n], 10), Some(expected));
    }
    bytes.push(0)?;
    let expected = LoadFault::Trailing { at: 176 };
    assert_eq!(rt; load_fault(alloc, &bytes, 10), Some(expected));
    Ok(())
}

#[test]
fn what_is_not_loaded(rt: HostRuntime) -> Result<(), Fail> {
    let alloc = rt.alloc();
    let rows: [(usize, u8, LoadFault); 3] = [
        (0, 0, LoadFault::NotSaved),
        (4, 2, LoadFault::Version { got: 2 }),
        (79, 2, LoadFault::BadField { at: 79 }),
    ];
    for (place, byte, expected) in rows.iter() {
        let mut bytes = saved_with(alloc, ONE_NET)?;
        if let Some(field) = bytes.get_mut(*place) {
            *field = *byte;
        }
        assert_eq!(rt; load_fault(alloc, &bytes, 10), Some(*expected));
    }
    let over = LoadFault::OverCap { kind: Kind::Net };
    assert_eq!(rt;
        load_fault(alloc, &saved_with(alloc, ONE_NET)?, 0),
        Some(over)
    );
    let unsound = LoadFault::Unsound {
        kind: Some(Kind::Net),
        id: 0,
    };
    assert_eq!(rt;
        load_fault(alloc, &saved_with(alloc, FREE_TWICE)?, 10),
        Some(unsound)
    );
    Ok(())
}

#[test]
fn each_byte_counts(rt: HostRuntime) -> Result<(), Fail> {
    let alloc = rt.alloc();
    for place in 0..176 {
        for change in [1, 2, 128, 255].iter() {
            let mut bytes = saved_with(alloc, ONE_NET)?;
            if let Some(byte) = bytes.get_mut(place) {
                *byte ^= *change;
            }
            assert!(rt; is_refused_or_saved(alloc, &bytes)?);
        }
    }
    Ok(())
}

// The bytes of a database with so many masters `M`.
fn with_masters(alloc: Global, count: u8) -> Result<Vec<u8>, AllocError> {
    let mut expected = Expected {
        bytes: Vec::new(alloc),
    };
    expected.text(b"ODBS\x01\0\0\0")?;
    expected.zeros(16)?;
    expected.text(&[count, 0, 0, 0])?;
    for _ in 0..count {
        expected.text(b"\x01\0\0\0M")?;
        expected.zeros(37)?;
    }
    expected.zeros(4)?;
    expected.rest()?;
    Ok(expected.bytes)
}

#[test]
fn a_name_of_two_masters(rt: HostRuntime) -> Result<(), Fail> {
    let alloc = rt.alloc();
    assert_eq!(rt; load_fault(alloc, &with_masters(alloc, 1)?, 10), None);
    let unsound = LoadFault::Unsound { kind: None, id: 0 };
    assert_eq!(rt;
        load_fault(alloc, &with_masters(alloc, 2)?, 10),
        Some(unsound)
    );
    Ok(())
}
