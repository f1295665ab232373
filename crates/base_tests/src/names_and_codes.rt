use odb_base::{
    Coded, Direction, EcoState, Kind, List, Name, NameFault, NetId, Orient, Owner, Placement,
    Point, RowForm, Text, Usage, WireCode, Worded, name_fault, oriented_size,
};
use std::alloc::Global;
use std::process::Abort;
use std::test::Fail;

#[test]
fn names_and_their_first_faults(rt: HostRuntime) -> Result<(), Fail> {
    let alloc = rt.alloc();
    let longest = vec![in alloc; b'n'; 4095]?;
    let too_long = vec![in alloc; b'*'; 4096]?;
    let rows: [(&[u8], Option<NameFault>); 15] = [
        (b"n", None),
        (b"core/u1[3]#", None),
        (longest.as_slice(), None),
        (b"PINS", None),
        (b"", Some(NameFault::Empty)),
        (too_long.as_slice(), Some(NameFault::TooLong)),
        (b"a b", Some(NameFault::BadByte { at: 1 })),
        (b"ab*", Some(NameFault::BadByte { at: 2 })),
        (b"#n", Some(NameFault::BadByte { at: 0 })),
        (b"\"n\"", Some(NameFault::BadByte { at: 0 })),
        (b"n\x7f", Some(NameFault::BadByte { at: 1 })),
        (b";", Some(NameFault::Reserved)),
        (b"-", Some(NameFault::Reserved)),
        (b"TAPERRULE", Some(NameFault::Reserved)),
        (b"DO", Some(NameFault::Reserved)),
    ];
    for (bytes, fault) in rows.iter() {
        has_fault(&rt, alloc, *bytes, *fault);
    }
    Ok(())
}

// The bytes have this fault, or are a name, which can be copied.
fn has_fault(rt: &impl Abort, alloc: Global, bytes: &[u8], fault: Option<NameFault>) {
    assert_eq!(rt; name_fault(bytes), fault);
    match Name::new(alloc, bytes) {
        Ok(name) => {
            assert!(rt; fault.is_none());
            assert!(rt; name.try_clone().is_ok_and(|copy| copy.bytes() == bytes));
        }
        Err(found) => assert_eq!(rt; Some(found), fault),
    }
}

#[test]
fn texts_and_lists(rt: HostRuntime) -> Result<(), Fail> {
    let alloc = rt.alloc();
    copies_of_bytes(&rt, alloc)?;
    assert!(rt; EcoState::Ended.word() == b"Ended".as_slice());
    let mut list = List::new(alloc);
    list.push(NetId(3))?;
    list.push(NetId(1))?;
    let copy = list.try_clone()?;
    assert!(rt; copy.items() == [NetId(3), NetId(1)].as_slice());
    assert_eq!(rt; list.into_vec().len(), 2);
    Ok(())
}

fn copies_of_bytes(rt: &impl Abort, alloc: Global) -> Result<(), Fail> {
    let text = Text::new(alloc, b"\"any bytes\" \x00")?.try_clone()?;
    assert!(rt; text.bytes() == b"\"any bytes\" \x00".as_slice());
    let code = WireCode::from_vec(vec![in alloc; 1, 0, 255]?).try_clone()?;
    assert!(rt; code.bytes() == [1, 0, 255].as_slice());
    Ok(())
}

#[test]
fn codes_and_words(rt: HostRuntime) {
    let orientations: [(u8, &[u8], Orient); 8] = [
        (0, b"N", Orient::N),
        (1, b"S", Orient::S),
        (2, b"W", Orient::W),
        (3, b"E", Orient::E),
        (4, b"FN", Orient::FN),
        (5, b"FS", Orient::FS),
        (6, b"FW", Orient::FW),
        (7, b"FE", Orient::FE),
    ];
    for (code, word, orientation) in orientations.iter() {
        is_coded(&rt, *orientation, *code, *word);
    }
    assert_eq!(rt; Orient::from_word(b"n"), None);
    is_coded(&rt, Kind::ITerm, 2, b"iterm");
    is_coded(&rt, Direction::Tristate, 3, b"TRISTATE");
    is_coded(&rt, Usage::None, 0, b"-");
    is_coded(&rt, Usage::TieOff, 8, b"TIEOFF");
    is_coded(&rt, Owner::ComponentPin, 8, b"COMPONENTPIN");
    assert_eq!(rt; RowForm::from_code(2), Some(RowForm::DoStep));
}

// A value has this code and this word, and they have it.
fn is_coded<C: Coded + Worded + PartialEq>(rt: &impl Abort, value: C, code: u8, word: &[u8]) {
    assert!(rt; value.code() == code && value.word() == word);
    assert!(rt; C::from_code(code) == Some(value));
    assert!(rt; C::from_word(word) == Some(value));
}

#[test]
fn turned_sizes(rt: HostRuntime) {
    assert_eq!(rt; oriented_size(Orient::FS, 10, 20), (10, 20));
    assert_eq!(rt; oriented_size(Orient::FE, 10, 20), (20, 10));
    assert_eq!(rt; Placement::UNPLACED.orientation, Orient::N);
    assert_eq!(rt; Point { x: 1, y: -1 }, Point { x: 1, y: -1 });
}
