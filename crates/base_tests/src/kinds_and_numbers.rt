use odb_base::{Kind, is_coordinate, is_digit, is_negative, with_digits};

#[test]
fn what_the_objects_of_a_kind_have(rt: HostRuntime) {
    // Names, a placement, a use, that they are terminals, properties.
    let rows = [
        (Kind::Inst, [true, true, false, false, true]),
        (Kind::ITerm, [false, false, false, true, false]),
        (Kind::Net, [true, false, true, false, true]),
        (Kind::BTerm, [true, false, true, true, false]),
        (Kind::Pin, [false, true, false, false, false]),
        (Kind::Row, [true, false, false, false, true]),
        (Kind::Track, [false, false, false, false, false]),
        (Kind::Wire, [false, false, false, false, false]),
        (Kind::Blockage, [false, false, false, false, false]),
        (Kind::Region, [true, false, false, false, true]),
        (Kind::Group, [true, false, false, false, true]),
        (Kind::Prop, [false, false, false, false, false]),
    ];
    for (kind, has) in rows.iter() {
        let found = [
            kind.has_names(),
            kind.has_place(),
            kind.has_usage(),
            kind.is_terminal(),
            kind.has_props(),
        ];
        assert!(rt; found.as_slice() == has.as_slice());
    }
}

#[test]
fn numbers_and_their_digits(rt: HostRuntime) {
    assert_eq!(rt; with_digits(0, b"0420"), Some(420));
    assert_eq!(rt; with_digits(7, b"1"), Some(71));
    assert_eq!(rt; with_digits(7, b""), Some(7));
    assert_eq!(rt; with_digits(0, b"4."), None);
    assert!(rt; is_digit(b'0') && is_digit(b'9') && !is_digit(b'/') && !is_digit(b':'));
    assert!(rt; is_negative(b"-1") && !is_negative(b"1") && !is_negative(b""));
    assert!(rt; is_coordinate(2_000_000_000) && is_coordinate(-2_000_000_000));
    assert!(rt; !is_coordinate(2_000_000_001) && !is_coordinate(-2_000_000_001));
    assert!(rt; !is_coordinate(i64::MIN));
}
