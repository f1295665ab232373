ghost use Rattle.std.specs.Prelude.{◌≡◌, ◌≢◌, ◌≤◌, ◌<◌, Bool, [], ◌∷◌, drop, false, length, take, true};
ghost use Rattle.std.specs.List.{list_any};
ghost use Rattle.script_words.specs.Words.{IsFirstWord, begins_blank, is_blank, words_of};

/// The first word of a line and what stands behind it, or nothing where the line has no word.
#[tactic(auto, using(crate::proofs::WordLemmas::first_word))]
pub fn next_word(line: &[u8]) -> Option<(&[u8], &[u8])>
    ensures { IsFirstWord line.now result }
{
    let line = after_blanks(line);
    if line.is_empty() {
        return None;
    }
    Some(line.split_at(word_len(line)))
}

// The line from its first byte that is no blank.
fn after_blanks(line: &[u8]) -> &[u8]
    ensures words { words_of result.now ≡ words_of line.now }
    ensures begins { result.now ≢ [] → begins_blank result.now ≡ false }
{
    let mut rest = line;
    while let [first, others @ ..] = rest {
        if !is_blank(*first) {
            break;
        }
        rest = others;
    }
    rest
}

// How many bytes stand before the first blank.
fn word_len(line: &[u8]) -> usize
    ensures within { result ≤ length line.now }
    ensures whole { list_any is_blank (take result line.now) ≡ false }
    ensures ends { begins_blank (drop result line.now) ≡ true }
{
    for (at, byte) in line.iter().enumerate() {
        if is_blank(*byte) {
            return at;
        }
    }
    line.len()
}

// A space or a tab.
fn is_blank(byte: u8) -> bool
    ensures { result ≡ is_blank byte }
{
    byte == b' ' || byte == b'\t'
}
