ghost use Rattle.std.specs.Prelude.{◌<◌};

use ld_words::{
    NumberFault, WordFault, Words, is_number, lines_are_counted, rounding_is_nearest,
    spaced_words_are_read, to_units,
};
use odb_outside::{MemorySource, Source};
use std::alloc::Global;
use std::process::Abort;
use std::test::Fail;

// The words of a text with their lines, and the line on which it ends, or its fault, which is then kept.
fn expect_words(
    rt: &impl Abort,
    alloc: Global,
    text: &[u8],
    piece: usize,
    expected: &[(&[u8], u64)],
    ending: Result<u64, WordFault>,
) -> Result<(), Fail>
    requires { 0 < piece }
{
    let source = MemorySource::new(text.to_vec(alloc)?, piece, Vec::new(alloc));
    let mut words = Words::new(alloc, source)?;
    let told = expect_rest(rt, &mut words, expected, ending);
    drop(words);
    told
}

fn expect_rest(
    rt: &impl Abort,
    words: &mut Words<MemorySource>,
    expected: &[(&[u8], u64)],
    ending: Result<u64, WordFault>,
) -> Result<(), Fail> {
    for (bytes, line) in expected.iter() {
        let word = words.next()?.ok_or("a word is missing")?;
        assert!(rt; word.bytes.bytes() == *bytes);
        assert_eq!(rt; word.line, *line);
    }
    expect_end(rt, words, ending);
    expect_end(rt, words, ending);
    Ok(())
}

fn expect_end(rt: &impl Abort, words: &mut Words<MemorySource>, ending: Result<u64, WordFault>) {
    match words.next() {
        Ok(Some(word)) => panic!(rt; "another word on line {}", word.line),
        Ok(None) => assert_eq!(rt; Ok(words.line()), ending),
        Err(fault) => assert_eq!(rt; Err(fault), ending),
    }
}

/// Texts, their words with their lines, and the line on which each ends or its fault.
const TEXTS: [(&[u8], &[(&[u8], u64)], Result<u64, WordFault>); 14] = [
    (b"", &[], Ok(1)),
    (b" \t\r\n", &[], Ok(2)),
    (
        b"SIZE 1 BY 2.5 ;",
        &[(b"SIZE", 1), (b"1", 1), (b"BY", 1), (b"2.5", 1), (b";", 1)],
        Ok(1),
    ),
    (b"a\n\nb\r\n", &[(b"a", 1), (b"b", 3)], Ok(4)),
    (b"a;b (c)", &[(b"a;b", 1), (b"(c)", 1)], Ok(1)),
    (b"# one\na # two \" \nb#c", &[(b"a", 2), (b"b#c", 3)], Ok(3)),
    (b"a # the end", &[(b"a", 1)], Ok(1)),
    (b"#", &[], Ok(1)),
    (b"\"one two\" x", &[(b"\"one two\"", 1), (b"x", 1)], Ok(1)),
    (
        b"p \"a\n#b\n\" q\nr",
        &[(b"p", 1), (b"\"a\n#b\n\"", 1), (b"q", 3), (b"r", 4)],
        Ok(4),
    ),
    (
        b"\"\"\"a\"b\"c",
        &[(b"\"\"", 1), (b"\"a\"", 1), (b"b\"c", 1)],
        Ok(1),
    ),
    (b"\"a\"#b\nc", &[(b"\"a\"", 1), (b"c", 2)], Ok(2)),
    (
        b"a\n \"b\nc",
        &[(b"a", 1)],
        Err(WordFault::OpenQuote { line: 2 }),
    ),
    (b"\"", &[], Err(WordFault::OpenQuote { line: 1 })),
];

#[test]
fn texts_and_their_words(rt: HostRuntime) -> Result<(), Fail> {
    for (text, words, ending) in TEXTS.iter() {
        for piece in [1, 7, 100_000] {
            expect_words(&rt, rt.alloc(), *text, piece, *words, *ending)?;
        }
    }
    Ok(())
}

/// A text that is a line feed, a word of so many bytes between these, and a last word.
fn long_text(alloc: Global, first: &[u8], length: usize, last: &[u8]) -> Result<Vec<u8>, Fail> {
    let middle = vec![in alloc; b'a'; length]?;
    let mut text = b"\n".to_vec(alloc)?;
    text.extend_from_slice(first)?;
    text.extend_from_slice(&middle)?;
    text.extend_from_slice(last)?;
    text.extend_from_slice(b" b")?;
    Ok(text)
}

// In a text of a long word on line 2 and one more word both are read, or the first is too long.
fn expect_long(rt: &impl Abort, alloc: Global, text: &[u8], fits: bool) -> Result<(), Fail> {
    let end = text.len().saturating_sub(2);
    assert!(rt; end > 1);
    let words: [(&[u8], u64); 2] = [(&text[1..end], 2), (b"b", 2)];
    let long = Err(WordFault::LongWord { line: 2 });
    for piece in [1, 7, 100_000] {
        if fits {
            expect_words(rt, alloc, text, piece, &words, Ok(2))?;
        } else {
            expect_words(rt, alloc, text, piece, &[], long)?;
        }
    }
    Ok(())
}

#[test]
fn the_longest_words(rt: HostRuntime) -> Result<(), Fail> {
    let alloc = rt.alloc();
    let rows: [(&[u8], usize, &[u8], bool); 4] = [
        (b"", 65_535, b"", true),
        (b"", 65_536, b"", false),
        (b"\"", 65_533, b"\"", true),
        (b"\"", 65_534, b"\"", false),
    ];
    for (first, length, last, fits) in rows.iter() {
        let text = long_text(alloc, *first, *length, *last)?;
        expect_long(&rt, alloc, &text, *fits)?;
    }
    Ok(())
}

#[test]
fn words_that_are_lent(rt: HostRuntime) -> Result<(), Fail> {
    let alloc = rt.alloc();
    let source = MemorySource::new(b"ab\n\"c\n\" d".to_vec(alloc)?, 3, Vec::new(alloc));
    let mut words = Words::new(alloc, source)?;
    let lent: [(&[u8], u64, u64); 2] = [(b"ab", 1, 1), (b"\"c\n\"", 2, 3)];
    for (bytes, line, line_behind) in lent.iter() {
        assert!(rt; words.advance()?);
        assert!(rt; words.word() == *bytes);
        assert_eq!(rt; words.word_line(), *line);
        assert_eq!(rt; words.line(), *line_behind);
    }
    let last = words.next()?.ok_or("a word is missing")?;
    assert!(rt; last.bytes.bytes() == words.word());
    assert!(rt; !words.advance()?);
    assert!(rt; words.word().is_empty());
    Ok(())
}

#[test]
fn a_read_that_fails(rt: HostRuntime) -> Result<(), Fail> {
    let alloc = rt.alloc();
    let source = MemorySource::new(b"ab cd ef".to_vec(alloc)?, 3, vec![in alloc; 2]?);
    let mut words = Words::new(alloc, source)?;
    let ab: [(&[u8], u64); 1] = [(b"ab", 1)];
    let told = expect_rest(&rt, &mut words, &ab, Err(WordFault::ReadFault));
    drop(words);
    told
}

#[test]
fn a_source_given_back(rt: HostRuntime) -> Result<(), Fail> {
    let alloc = rt.alloc();
    let source = MemorySource::new(b"ab\ncd ef".to_vec(alloc)?, 4, Vec::new(alloc));
    let mut words = Words::new(alloc, source)?;
    assert_eq!(rt; words.line(), 1);
    let found = words.next().map(|word| word.is_some());
    let mut source = words.into_source();
    let mut room = [b'.'; 6];
    let count = source.read(&mut room);
    drop(source);
    assert_eq!(rt; found, Ok(true));
    assert_eq!(rt; count, Ok(4));
    assert!(rt; room.as_slice() == b"d ef..".as_slice());
    Ok(())
}

/// Decimals, so many units a micron, and the number of units that they are.
const DECIMALS: [(&[u8], u32, Result<i64, NumberFault>); 40] = [
    (b"0.0005", 1000, Ok(1)),
    (b"-0.0005", 1000, Ok(-1)),
    (b"0.0004", 1000, Ok(0)),
    (b"-0.0004", 1000, Ok(0)),
    (b"0.0014999", 1000, Ok(1)),
    (b"0.0015", 1000, Ok(2)),
    (b".5", 1000, Ok(500)),
    (b"5.", 1000, Ok(5000)),
    (b"+2", 1000, Ok(2000)),
    (b"-12.34", 2000, Ok(-24_680)),
    (
        b"0.0000000000000000000000000000005",
        1000,
        Err(NumberFault::NotNumber),
    ),
    (b"0.00000000000000000000000000005", 4_294_967_295, Ok(0)),
    (
        b".499999999999999999999999999999",
        4_000_000_000,
        Ok(2_000_000_000),
    ),
    (b".5", 4_000_000_001, Err(NumberFault::OutOfRange)),
    (b"7", 0, Ok(0)),
    (b"2000000", 1000, Ok(2_000_000_000)),
    (b"-2000000", 1000, Ok(-2_000_000_000)),
    (b"2000000000", 1, Ok(2_000_000_000)),
    (b"2000000001", 1, Err(NumberFault::OutOfRange)),
    (b"-2000000000", 1, Ok(-2_000_000_000)),
    (b"-2000000001", 1, Err(NumberFault::OutOfRange)),
    (b"2000000.0004", 1000, Ok(2_000_000_000)),
    (b"2000000.001", 1000, Err(NumberFault::OutOfRange)),
    (b"-2000000.0005", 1000, Err(NumberFault::OutOfRange)),
    (b"000000000000000000000000000001", 1000, Ok(1000)),
    (
        b"999999999999999999999999999999",
        4_294_967_295,
        Err(NumberFault::OutOfRange),
    ),
    (
        b"0000000000000000000000000000001",
        1000,
        Err(NumberFault::NotNumber),
    ),
    (b"00000000000.5", 1000, Ok(500)),
    (b"000000000000.5", 1000, Ok(500)),
    (b"-20000.0000000", 100_000, Ok(-2_000_000_000)),
    (b"20000.00000500", 100_000, Err(NumberFault::OutOfRange)),
    (b"9999999999999", 100_000, Err(NumberFault::OutOfRange)),
    (b"1e3", 1000, Err(NumberFault::NotNumber)),
    (b".", 1000, Err(NumberFault::NotNumber)),
    (b"-", 1000, Err(NumberFault::NotNumber)),
    (b"-.", 1000, Err(NumberFault::NotNumber)),
    (b"", 1000, Err(NumberFault::NotNumber)),
    (b"1.2.3", 1000, Err(NumberFault::NotNumber)),
    (b"--1", 1000, Err(NumberFault::NotNumber)),
    (b"1-", 1000, Err(NumberFault::NotNumber)),
];

#[test]
fn decimals_in_units(rt: HostRuntime) {
    for (word, per_micron, units) in DECIMALS.iter() {
        assert_eq!(rt; to_units(*word, *per_micron), *units);
        let stands = !matches!(*units, Err(NumberFault::NotNumber));
        assert_eq!(rt; is_number(*word), stands);
    }
    lines_are_counted();
    spaced_words_are_read();
    rounding_is_nearest();
}
