ghost use Rattle.std.specs.Prelude.{◌≡◌};
ghost use Rattle.std.specs.Str.{bytes_eq};

/// Whether the bytes are those of a word. Most words differ from one another in their length or their first byte.
#[inline]
pub fn same_bytes(bytes: &[u8], word: &[u8]) -> bool
    ensures { result ≡ bytes_eq bytes.now word.now }
{
    if bytes.len() != word.len() {
        return false;
    }
    match (bytes, word) {
        ([byte], [other]) => *byte == *other,
        ([byte, ..], [other, ..]) => *byte == *other && same_to_the_end(bytes, word),
        _ => same_to_the_end(bytes, word),
    }
}

#[inline(never)]
fn same_to_the_end(bytes: &[u8], word: &[u8]) -> bool
    ensures { result ≡ bytes_eq bytes.now word.now }
{
    bytes == word
}
