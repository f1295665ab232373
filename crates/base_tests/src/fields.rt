use odb_fields::{Cut, Get, Put};
use std::alloc::{AllocError, Global};
use std::process::Abort;
use std::test::Fail;

#[derive(Clone, Copy, Debug, PartialEq, Eq)]
enum Field<'a> {
    U8(u8),
    U32(u32),
    U64(u64),
    I32(i32),
    Text(&'a [u8]),
}

fn put(rt: &impl Abort, out: &mut Put<'_>, field: Field<'_>) -> Result<(), AllocError> {
    match field {
        Field::U8(value) => out.put_u8(value),
        Field::U32(value) => out.put_u32(value),
        Field::U64(value) => out.put_u64(value),
        Field::I32(value) => out.put_i32(value),
        Field::Text(bytes) => {
            assert!(rt; bytes.len() < 1 << 32);
            out.put_text(bytes)
        }
    }
}

// Reads a field of the same kind.
fn get<'a>(input: &mut Get<'a>, field: Field<'_>) -> Result<Field<'a>, Cut> {
    match field {
        Field::U8(_) => Ok(Field::U8(input.get_u8()?)),
        Field::U32(_) => Ok(Field::U32(input.get_u32()?)),
        Field::U64(_) => Ok(Field::U64(input.get_u64()?)),
        Field::I32(_) => Ok(Field::I32(input.get_i32()?)),
        Field::Text(_) => Ok(Field::Text(input.get_text()?)),
    }
}

#[test]
fn fields_and_their_bytes(rt: HostRuntime) -> Result<(), Fail> {
    let rows: [(Field<'_>, &[u8]); 15] = [
        (Field::U8(0), b"\x00"),
        (Field::U8(255), b"\xff"),
        (Field::U32(1), b"\x01\x00\x00\x00"),
        (Field::U32(0x1234_5678), b"\x78\x56\x34\x12"),
        (Field::U32(1 << 31), b"\x00\x00\x00\x80"),
        (Field::U32(u32::MAX), b"\xff\xff\xff\xff"),
        (Field::U64(255), b"\xff\x00\x00\x00\x00\x00\x00\x00"),
        (Field::U64(1 << 32), b"\x00\x00\x00\x00\x01\x00\x00\x00"),
        (Field::U64(u64::MAX), b"\xff\xff\xff\xff\xff\xff\xff\xff"),
        (Field::I32(258), b"\x02\x01\x00\x00"),
        (Field::I32(-1), b"\xff\xff\xff\xff"),
        (Field::I32(i32::MAX), b"\xff\xff\xff\x7f"),
        (Field::I32(i32::MIN), b"\x00\x00\x00\x80"),
        (Field::Text(b""), b"\x00\x00\x00\x00"),
        (Field::Text(b"net"), b"\x03\x00\x00\x00net"),
    ];
    for (field, bytes) in rows.iter() {
        let written = between_marks(&rt, rt.alloc(), *field)?;
        assert!(rt; written.len() == bytes.len() + 2 && written[1..].starts_with(*bytes));
        is_read_back(&rt, &written, *field, bytes.len() as u64 + 1);
        cut_at_every_length(&rt, *field, *bytes);
    }
    Ok(())
}

fn between_marks(rt: &impl Abort, alloc: Global, field: Field<'_>) -> Result<Vec<u8>, AllocError> {
    let mut out = vec![in alloc; b'<']?;
    put(rt, &mut Put::new(&mut out), field)?;
    out.push(b'>')?;
    Ok(out)
}

fn is_read_back(rt: &impl Abort, written: &[u8], field: Field<'_>, end: u64) {
    let mut input = Get::new(written);
    assert_eq!(rt; input.get_u8(), Ok(b'<'));
    assert_eq!(rt; get(&mut input, field), Ok(field));
    assert_eq!(rt; (input.place(), input.get_u8()), (end, Ok(b'>')));
    assert_eq!(rt; input.place(), written.len() as u64);
}

// No front of a field's bytes is the field, and after each cut its first byte is still to be read.
fn cut_at_every_length(rt: &impl Abort, field: Field<'_>, bytes: &[u8]) {
    for n in 0..bytes.len() {
        let mut input = Get::new(&bytes[..n]);
        assert_eq!(rt; get(&mut input, field), Err(Cut { at: n as u64 }));
        assert_eq!(rt; input.place(), 0);
        assert_eq!(rt; input.get_u8().ok(), bytes[..n].first().copied());
    }
}

#[test]
fn a_cut_field_leaves_those_before_it_read(rt: HostRuntime) -> Result<(), Fail> {
    let mut out = Vec::new(rt.alloc());
    let mut fields = Put::new(&mut out);
    fields.put_u32(7)?;
    fields.put_text(b"abc")?;
    assert_eq!(rt; out.len(), 11);
    let mut input = Get::new(&out.as_slice()[..10]);
    assert_eq!(rt; input.get_u32(), Ok(7));
    assert_eq!(rt; input.get_text().err(), Some(Cut { at: 10 }));
    assert_eq!(rt;
        (input.place(), input.get_u32(), input.get_u8()),
        (4, Ok(3), Ok(b'a'))
    );
    Ok(())
}
