ghost use Rattle.std.specs.Prelude.{◌≡◌, ◌≤◌, if◌then◌else◌, length, not, position, take};
ghost use Rattle.std.specs.List.{position_or_len};
ghost use Rattle.ld_words.specs.Reading.{is_blank, is_line_feed, is_quote, line_feeds};

/// Whether the byte parts words.
pub fn is_blank_byte(byte: u8) -> bool
    ensures { result ≡ is_blank byte }
{
    byte == b' ' || byte == b'\t' || byte == b'\r' || byte == b'\n'
}

/// So many bytes, of which so many are line feeds.
#[derive(Clone, Copy, Debug, PartialEq, Eq)]
pub struct Span {
    pub bytes: usize,
    pub lines: usize,
}

impl Span {
    pub const NONE: Span = Span { bytes: 0, lines: 0 };
}

/// The blanks before all other bytes.
pub fn blanks_in(bytes: &[u8]) -> Span
    ensures blanks { result.bytes ≡ position_or_len (λ b. not (is_blank b)) bytes.now }
    ensures lines { result.lines ≡ line_feeds (take result.bytes bytes.now) }
    ensures bound { result.bytes ≤ length bytes.now }
    ensures fewer { result.lines ≤ result.bytes }
{
    let mut rest = bytes;
    let mut blanks = Span::NONE;
    'blanks: while let [byte, others @ ..] = rest {
        if !is_blank_byte(*byte) {
            return blanks;
        }
        blanks.bytes += 1;
        blanks.lines += one_if(*byte == b'\n');
        rest = others;
    }
    blanks
}

/// Where the first blank stands.
pub fn first_blank(bytes: &[u8]) -> Option<usize>
    ensures { result ≡ position is_blank bytes.now }
{
    bytes.iter().position(|b| is_blank_byte(*b))
}

/// Where the first line feed stands.
pub fn first_line_feed(bytes: &[u8]) -> Option<usize>
    ensures { result ≡ position is_line_feed bytes.now }
{
    bytes.iter().position(|b| *b == b'\n')
}

/// Where the first quote stands.
pub fn first_quote(bytes: &[u8]) -> Option<usize>
    ensures { result ≡ position is_quote bytes.now }
{
    bytes.iter().position(|b| *b == b'"')
}

/// How many line feeds there are.
pub fn line_feeds_in(bytes: &[u8]) -> usize
    ensures count { result ≡ line_feeds bytes.now }
    ensures bound { result ≤ length bytes.now }
{
    bytes.iter().filter(|b| **b == b'\n').count()
}

pub fn one_if(test: bool) -> usize
    ensures value { result ≡ (if test then 1 else 0) }
    ensures bound { result ≤ 1 }
{
    if test { 1 } else { 0 }
}
