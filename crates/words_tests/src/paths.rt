use odb_base::{Name, Orient, Worded};
use std::alloc::Global;
use std::process::Abort;
use std::test::Fail;
use wires::{
    Element, Item, Items, NamedPaths, Path, PathFault, PathFlaw, PathReader, PathStop, Taper,
    WireFault, decode, encode, lawful, parse,
};

fn put_word(out: &mut Vec<u8>, word: &[u8]) -> Result<(), Fail> {
    if !out.is_empty() {
        out.push(b' ')?;
    }
    out.extend_from_slice(word)?;
    Ok(())
}

fn put_number(alloc: Global, out: &mut Vec<u8>, number: i32) -> Result<(), Fail> {
    let digits = format!(in alloc; "{number}")?;
    put_word(out, digits.as_bytes())
}

fn put_head(
    alloc: Global,
    out: &mut Vec<u8>,
    path: &Path<Name, Name>,
    special: bool,
) -> Result<(), Fail> {
    put_word(out, path.layer.bytes())?;
    if special {
        put_number(alloc, out, path.width)?;
    }
    if !path.shape.bytes().is_empty() {
        put_word(out, b"+ SHAPE")?;
        put_word(out, path.shape.bytes())?;
    }
    match &path.taper {
        Taper::None => Ok(()),
        Taper::Layer => put_word(out, b"TAPER"),
        Taper::Rule(rule) => {
            put_word(out, b"TAPERRULE")?;
            put_word(out, rule.bytes())
        }
    }
}

fn put_element(alloc: Global, out: &mut Vec<u8>, element: &Element<Name>) -> Result<(), Fail> {
    match element {
        Element::Point { x, y, ext } => {
            put_word(out, b"(")?;
            put_number(alloc, out, *x)?;
            put_number(alloc, out, *y)?;
            if let Some(ext) = ext {
                put_number(alloc, out, *ext)?;
            }
            put_word(out, b")")
        }
        Element::Via { via, orient } => {
            put_word(out, via.bytes())?;
            match orient {
                Some(orient) => put_word(out, orient.word()),
                None => Ok(()),
            }
        }
        Element::Rect { dx1, dy1, dx2, dy2 } => {
            put_word(out, b"RECT (")?;
            for distance in [*dx1, *dy1, *dx2, *dy2] {
                put_number(alloc, out, distance)?;
            }
            put_word(out, b")")
        }
    }
}

/// The words of paths, each number and coordinate written whole.
fn words_of(alloc: Global, paths: &NamedPaths, special: bool) -> Result<Vec<u8>, Fail> {
    let mut out = Vec::new(alloc);
    for (i, path) in paths.items().iter().enumerate() {
        if i > 0 {
            put_word(&mut out, b"NEW")?;
        }
        put_head(alloc, &mut out, path, special)?;
        for element in path.elements.items() {
            put_element(alloc, &mut out, element)?;
        }
    }
    Ok(out)
}

/// Words of paths of a special wire or a plain one, and the same with each number and coordinate written whole.
const PATHS: [(&[u8], bool, &[u8]); 9] = [
    (
        b"met1 ( 0 100 ) ( 300 * ) RECT ( -70 0 70 100 ) NEW met1 ( 300 100 ) v1",
        false,
        b"met1 ( 0 100 ) ( 300 100 ) RECT ( -70 0 70 100 ) NEW met1 ( 300 100 ) v1",
    ),
    (
        b"met4 480 + SHAPE STRIPE ( 500 0 ) ( * 20000 ) NEW met1 0 + SHAPE STRIPE ( 500 0 ) v1",
        true,
        b"met4 480 + SHAPE STRIPE ( 500 0 ) ( 500 20000 ) NEW met1 0 + SHAPE STRIPE ( 500 0 ) v1",
    ),
    (
        b"m TAPER ( 1 2 3 ) v FS ( * * 0 ) v N RECT ( 0 0 1 1 )",
        false,
        b"m TAPER ( 1 2 3 ) v FS ( 1 2 0 ) v N RECT ( 0 0 1 1 )",
    ),
    (b"m TAPERRULE r ( 1 2 )", false, b"m TAPERRULE r ( 1 2 )"),
    (b"N ( 1 2 ) SHAPE E", false, b"N ( 1 2 ) SHAPE E"),
    (b"m ( -0 007 )", false, b"m ( 0 7 )"),
    (
        b"m 7 ( -2000000000 2000000000 )",
        true,
        b"m 7 ( -2000000000 2000000000 )",
    ),
    (
        b"m ( 1 2 ) RECT ( 5 6 7 8 ) v W ( * 9 )",
        false,
        b"m ( 1 2 ) RECT ( 5 6 7 8 ) v W ( 1 9 )",
    ),
    (
        b"m 1 ( 1 2 ) RECT ( 3 4 5 6 )",
        true,
        b"m 1 ( 1 2 ) RECT ( 3 4 5 6 )",
    ),
];

#[test]
fn words_and_their_paths(rt: HostRuntime) -> Result<(), Fail> {
    for (words, special, whole) in PATHS.iter() {
        let paths = parse(rt.alloc(), *words, *special)
            .ok()
            .ok_or("the words are paths")?;
        assert!(rt; words_of(rt.alloc(), &paths, *special)?.as_slice() == *whole);
    }
    Ok(())
}

/// The words are no paths; a word that isn't supported is named.
fn expect_fault(rt: &impl Abort, alloc: Global, words: &[u8], special: bool, unsupported: &[u8]) {
    match parse(alloc, words, special) {
        Ok(_) => panic!(rt; "the words are paths"),
        Err(PathFault::Bad) => assert!(rt; unsupported.is_empty()),
        Err(PathFault::Unsupported { word }) => assert!(rt; word.bytes() == unsupported),
        Err(PathFault::Memory) => panic!(rt; "memory ran out"),
    }
}

/// Words that are no paths, of a special wire or a plain one, and the word that isn't supported, if one isn't.
const BAD_WORDS: [(&[u8], bool, &[u8]); 43] = [
    (b"", false, b""),
    (b" ", false, b""),
    (b"m", false, b""),
    (b"m TAPER", false, b""),
    (b"m TAPERRULE r", false, b""),
    (b"m TAPERRULE TAPER ( 1 2 )", false, b""),
    (b"m 5 ( 1 2 )", false, b""),
    (b"m + SHAPE s ( 1 2 )", false, b""),
    (b"m v", false, b""),
    (b"m RECT ( 1 2 3 4 )", false, b""),
    (b"m ( 1 2", false, b""),
    (b"m ( 1 )", false, b""),
    (b"m ( 1 2 3 4 )", false, b""),
    (b"m ( 1 2 -3 )", false, b""),
    (b"m ( 1 2 * )", false, b""),
    (b"m ( * 2 )", false, b""),
    (b"m ( 1 * )", false, b""),
    (b"m ( 1 2 ) NEW m ( * 2 )", false, b""),
    (b"m ( 1 2 ) NEW", false, b""),
    (b"m NEW m ( 1 2 )", false, b""),
    (b"m ( 1 2 )  v", false, b""),
    (b"m ( 1 2 ) ", false, b""),
    (b"m ( 1 2 ) N", false, b""),
    (b"m ( 1 2 ) v N S", false, b""),
    (b"m ( 1 2 ) RECT 1 2 3 4", false, b""),
    (b"m ( 1 2 ) RECT ( 1 2 3 * )", false, b""),
    (b"m ( 1 2 ) RECT ( 1 2 3 4", false, b""),
    (b"m ( 1 2 ) TAPER", false, b""),
    (b"m ( 1 +2 )", false, b""),
    (b"m ( 1 2.0 )", false, b""),
    (b"m ( 1 - )", false, b""),
    (b"m ( 1 2000000001 )", false, b""),
    (b"m ( 1 -2000000001 )", false, b""),
    (b"m 2000000001 ( 1 2 )", true, b""),
    (b"m ( 1 99999999999999999999999999 )", false, b""),
    (b"m ( 1 2 )", true, b""),
    (b"m -1 ( 1 2 )", true, b""),
    (b"m 1 TAPER ( 1 2 )", true, b""),
    (b"m 1 + SHAPE ( 1 2 )", true, b""),
    (b"m 1 + STYLE 2 ( 1 2 )", true, b"STYLE"),
    (b"m ( MASK 1 2 )", false, b"MASK"),
    (b"m ( 1 2 ) VIRTUAL ( x", false, b"VIRTUAL"),
    (b"m ( 1 2 ) v DO 2 BY 2", false, b"DO"),
];

#[test]
fn words_that_are_no_paths(rt: HostRuntime) {
    for (words, special, unsupported) in BAD_WORDS.iter() {
        expect_fault(&rt, rt.alloc(), *words, *special, *unsupported);
    }
}

/// Words of a special wire or a plain one, and what is wrong with the last of them.
const FLAWS: [(&[&[u8]], bool, PathFlaw); 31] = [
    (&[b"MASK"], false, PathFlaw::Unsupported),
    (&[b"m", b"DO"], false, PathFlaw::Unsupported),
    (&[b"m", b"1", b"+", b"STYLE"], true, PathFlaw::Unsupported),
    (&[b"m", b"(", b"VIRTUAL"], false, PathFlaw::Unsupported),
    (&[b"("], false, PathFlaw::BadName),
    (&[b"NEW"], false, PathFlaw::BadName),
    (&[b"m", b"x"], false, PathFlaw::Unexpected),
    (&[b"m", b"NEW"], false, PathFlaw::Unexpected),
    (&[b"m", b"x"], true, PathFlaw::BadNumber),
    (&[b"m", b"-1"], true, PathFlaw::BadNumber),
    (&[b"m", b"1", b")"], true, PathFlaw::Unexpected),
    (&[b"m", b"1", b"+", b"TAPER"], true, PathFlaw::Unexpected),
    (&[b"m", b"1", b"+", b"SHAPE", b"("], true, PathFlaw::BadName),
    (&[b"m", b"TAPERRULE", b"TAPER"], false, PathFlaw::BadName),
    (&[b"m", b"TAPER", b"RECT"], false, PathFlaw::Unexpected),
    (&[b"m", b"(", b"*"], false, PathFlaw::BadNumber),
    (&[b"m", b"(", b"1", b")"], false, PathFlaw::BadNumber),
    (&[b"m", b"(", b"NEW"], false, PathFlaw::BadNumber),
    (&[b"m", b"(", b"1", b"2", b"-3"], false, PathFlaw::BadNumber),
    (&[b"m", b"(", b"1", b"2", b"*"], false, PathFlaw::BadNumber),
    (
        &[b"m", b"(", b"1", b"2", b"3", b"4"],
        false,
        PathFlaw::Unexpected,
    ),
    (
        &[b"m", b"(", b"1", b"2", b")", b")"],
        false,
        PathFlaw::BadName,
    ),
    (
        &[b"m", b"(", b"1", b"2", b")", b"N"],
        false,
        PathFlaw::BadName,
    ),
    (
        &[b"m", b"(", b"1", b"2", b")", b"v", b"TAPER"],
        false,
        PathFlaw::BadName,
    ),
    (
        &[b"m", b"(", b"1", b"2", b")", b"v", b"N", b"S"],
        false,
        PathFlaw::BadName,
    ),
    (
        &[b"m", b"(", b"1", b"2", b")", b"NEW", b"NEW"],
        false,
        PathFlaw::BadName,
    ),
    (
        &[b"m", b"(", b"1", b"2", b")", b"NEW", b"m", b"(", b"*"],
        false,
        PathFlaw::BadNumber,
    ),
    (
        &[b"m", b"(", b"1", b"2", b")", b"RECT", b"1"],
        false,
        PathFlaw::Unexpected,
    ),
    (
        &[b"m", b"(", b"1", b"2", b")", b"RECT", b"(", b"*"],
        false,
        PathFlaw::BadNumber,
    ),
    (
        &[
            b"m", b"(", b"1", b"2", b")", b"RECT", b"(", b"1", b"2", b"3", b")",
        ],
        false,
        PathFlaw::BadNumber,
    ),
    (
        &[
            b"m", b"(", b"1", b"2", b")", b"RECT", b"(", b"1", b"2", b"3", b"4", b"5",
        ],
        false,
        PathFlaw::Unexpected,
    ),
];

fn take_words(alloc: Global, reader: &mut PathReader, words: &[&[u8]]) -> Result<(), PathStop> {
    for word in words.iter() {
        reader.step(alloc, *word)?;
    }
    Ok(())
}

#[test]
fn words_that_are_not_taken(rt: HostRuntime) -> Result<(), Fail> {
    for (words, special, flaw) in FLAWS.iter() {
        let mut reader = PathReader::new(rt.alloc(), *special);
        let (last, front) = words.split_last().ok_or("there is a word")?;
        assert_eq!(rt; take_words(rt.alloc(), &mut reader, front), Ok(()));
        assert_eq!(rt; reader.step(rt.alloc(), *last), Err(PathStop::Flaw(*flaw)));
        drop(reader);
    }
    Ok(())
}

/// Words that paths have in front, whether they may end, and what is wrong if they do.
const ENDS: [(&[&[u8]], Option<PathFlaw>); 7] = [
    (&[], Some(PathFlaw::BadName)),
    (&[b"m"], Some(PathFlaw::Unexpected)),
    (&[b"m", b"(", b"1"], Some(PathFlaw::BadNumber)),
    (&[b"m", b"(", b"1", b"2", b")"], None),
    (&[b"m", b"(", b"1", b"2", b")", b"v"], None),
    (
        &[b"m", b"(", b"1", b"2", b")", b"NEW"],
        Some(PathFlaw::BadName),
    ),
    (
        &[b"m", b"(", b"1", b"2", b")", b"RECT"],
        Some(PathFlaw::Unexpected),
    ),
];

#[test]
fn where_paths_may_end(rt: HostRuntime) {
    for (words, flaw) in ENDS.iter() {
        let mut reader = PathReader::new(rt.alloc(), false);
        assert_eq!(rt; take_words(rt.alloc(), &mut reader, *words), Ok(()));
        assert_eq!(rt; reader.may_end(), flaw.is_none());
        match reader.finish() {
            Ok(paths) => {
                drop(paths);
                assert!(rt; flaw.is_none());
            }
            Err(stop) => assert_eq!(rt; flaw.map(|f| PathStop::Flaw(f)), Some(stop)),
        }
    }
}

/// Words behind 999,993 bytes of paths and a space, and whether there is room for them.
const LAST_WORDS: [(&[&[u8]], Result<(), PathStop>); 9] = [
    (&[b"vvvvvv"], Ok(())),
    (&[b"vvvvvvv"], Err(PathStop::Flaw(PathFlaw::BadName))),
    (&[b"(", b"1", b"0010"], Ok(())),
    (
        &[b"(", b"1", b"100"],
        Err(PathStop::Flaw(PathFlaw::BadNumber)),
    ),
    (&[b"(", b"*"], Err(PathStop::Flaw(PathFlaw::BadNumber))),
    (&[b"v", b"RECT"], Ok(())),
    (
        &[b"v", b"RECT", b"("],
        Err(PathStop::Flaw(PathFlaw::Unexpected)),
    ),
    (&[b"NEW", b"mm"], Ok(())),
    (&[b"NEW", b"mmm"], Err(PathStop::Flaw(PathFlaw::BadName))),
];

#[test]
fn words_beyond_the_limit(rt: HostRuntime) {
    for (words, told) in LAST_WORDS.iter() {
        let mut reader = PathReader::new(rt.alloc(), false);
        let first: [&[u8]; 5] = [b"m", b"(", b"-2000000000", b"-2000000000", b")"];
        assert_eq!(rt; take_words(rt.alloc(), &mut reader, &first), Ok(()));
        for _ in 0..35_713 {
            let point: [&[u8]; 4] = [b"(", b"*", b"*", b")"];
            assert_eq!(rt; take_words(rt.alloc(), &mut reader, &point), Ok(()));
        }
        assert_eq!(rt; take_words(rt.alloc(), &mut reader, *words), *told);
        drop(reader);
    }
}

/// A layer, two points, a via and a rectangle.
const CODE: [u8; 66] = [
    1, 2, 0, 0, 0, 0, 0, 0, 0, 0, 0, 0, 0, 0, 0, 0, 0, 0, //
    2, 0, 0, 0, 0, 100, 0, 0, 0, 0, //
    2, 44, 1, 0, 0, 100, 0, 0, 0, 1, 5, 0, 0, 0, //
    3, 1, 3, 0, 0, 0, 6, //
    4, 186, 255, 255, 255, 0, 0, 0, 0, 70, 0, 0, 0, 100, 0, 0, 0,
];

/// Where the fields of the code begin.
const STARTS: [usize; 24] = [
    0, 1, 5, 9, 13, 14, 18, 19, 23, 27, 28, 29, 33, 37, 38, 42, 43, 44, 48, 49, 50, 54, 58, 62,
];

/// The place of the field in which a code of so many bytes ends, or which is due there.
fn field_at(n: usize) -> u64 {
    let mut place = 0;
    for start in STARTS.iter() {
        if *start <= n {
            place = *start as u64;
        }
    }
    place
}

#[test]
fn a_code_cut_at_every_length(rt: HostRuntime) {
    for n in 0..66 {
        let whole = n == 28 || n == 42 || n == 49;
        let fault = decode(rt.alloc(), &CODE[..n], 2, 0, 3).err();
        let at = field_at(n);
        assert_eq!(rt;
            fault,
            if whole {
                None
            } else {
                Some(WireFault::At { at })
            }
        );
        assert_eq!(rt; lawful(&CODE[..n], 2, 0, 3, false), whole);
    }
}

/// The elements of the code.
const ELEMENTS: [Item<'static>; 5] = [
    Item::Layer {
        layer: 2,
        width: 0,
        shape: b"",
        taper: 0,
        rule: b"",
    },
    Item::Point {
        x: 0,
        y: 100,
        ext: None,
    },
    Item::Point {
        x: 300,
        y: 100,
        ext: Some(5),
    },
    Item::Via {
        block: true,
        via: 3,
        orient: Some(Orient::FS),
    },
    Item::Rect {
        dx1: -70,
        dy1: 0,
        dx2: 70,
        dy2: 100,
    },
];

#[test]
fn a_code_and_its_elements(rt: HostRuntime) -> Result<(), Fail> {
    match decode(rt.alloc(), &CODE, 2, 0, 3) {
        Ok(paths) => {
            assert!(rt; encode(rt.alloc(), &paths)?.bytes() == CODE.as_slice());
            let mut items = Items::new(&CODE);
            for element in ELEMENTS.iter() {
                assert_eq!(rt; items.next(), Some(*element));
            }
            assert_eq!(rt; items.next(), None);
        }
        Err(_) => panic!(rt; "the code is one"),
    }
    Ok(())
}

#[test]
fn wires_of_each_sort(rt: HostRuntime) -> Result<(), Fail> {
    let named = b"\x01\x01\x00\x00\x00\x07\x00\x00\x00\x01\x00\x00\x00s\x00\x00\x00\x00\x00";
    let tapered = b"\x01\x01\x00\x00\x00\x00\x00\x00\x00\x00\x00\x00\x00\x02\x01\x00\x00\x00r";
    let bare = b"\x01\x01\x00\x00\x00\x00\x00\x00\x00\x00\x00\x00\x00\x00\x00\x00\x00\x00";
    let rows: [(&[u8], bool, bool); 3] = [
        (named, false, true),
        (tapered, true, false),
        (bare, true, true),
    ];
    for (head, plain, special) in rows.iter() {
        let mut code = head.to_vec(rt.alloc())?;
        code.extend_from_slice(b"\x02\x00\x00\x00\x00\x00\x00\x00\x00\x00")?;
        assert!(rt; decode(rt.alloc(), &code, 1, 0, 0).is_ok());
        assert_eq!(rt; lawful(&code, 1, 0, 0, false), *plain);
        assert_eq!(rt; lawful(&code, 1, 0, 0, true), *special);
    }
    Ok(())
}

/// A place of the code with a byte that can't stand there, and where the fault is.
const BAD_FIELDS: [(usize, u8, u64); 19] = [
    (0, 2, 0),
    (0, 5, 0),
    (1, 0, 1),
    (1, 3, 1),
    (8, 255, 5),
    (8, 120, 5),
    (9, 4, 9),
    (12, 255, 9),
    (13, 3, 13),
    (13, 2, 14),
    (14, 1, 14),
    (18, 3, 18),
    (18, 1, 18),
    (22, 128, 19),
    (27, 2, 27),
    (41, 255, 38),
    (43, 0, 44),
    (44, 4, 44),
    (48, 9, 48),
];

#[test]
fn fields_that_cannot_stand(rt: HostRuntime) -> Result<(), Fail> {
    for (place, byte, at) in BAD_FIELDS.iter() {
        let mut code = CODE.to_vec(rt.alloc())?;
        assert!(rt; *place < code.len());
        code[*place] = *byte;
        let fault = decode(rt.alloc(), &code, 2, 0, 3).err();
        assert_eq!(rt; fault, Some(WireFault::At { at: *at }));
    }
    Ok(())
}
