ghost use Rattle.std.specs.Prelude.{◌≡◌};
ghost use Rattle.std.specs.List.{list_all};
ghost use Rattle.script_words.specs.Answers.{IsNamed};
ghost use Rattle.script_words.specs.Forms.{file_named, is_file_byte, is_file_name as is_name, is_mark};

use crate::fault::LineFault;
use std::alloc::Global;
use std::marker::Model;

/// The greatest number of bytes in the name of a file.
pub const FILE_NAME_LIMIT: usize = 255;

/// The name of a file: 1 to 255 letters, digits, `.`, `_` and `-`, the first neither `.` nor `-`. So it names a
/// file of one folder and is no option of a command. Contracts see the list of its bytes.
#[derive(Debug, Drop)]
pub struct FileName {
    name: String,
}

impl Model for FileName {
    ghost use Rattle.std.specs.Prelude.{List, ℕ, string_bytes};

    ghost Value = { List ℕ };

    ghost view = { λ f. string_bytes f.name };
}

impl FileName {
    /// The name that a word is. `BadWords` comes where it is none.
    #[tactic(auto, unfolding(crate::specs::Forms::file_named))]
    pub fn new(alloc: Global, word: &[u8]) -> Result<FileName, LineFault>
        ensures { IsNamed (file_named word.now) result }
    {
        if !is_file_name(word) {
            return Err(LineFault::BadWords);
        }
        match String::from_utf8(word.to_vec(alloc)?) {
            Ok(name) => Ok(FileName { name }),
            Err(_) => unreachable!(),
        }
    }

    /// The name.
    pub fn as_str(&self) -> &str
        ensures { result.now ≡ self.now }
    {
        self.name.as_str()
    }
}

fn is_file_name(word: &[u8]) -> bool
    ensures { result ≡ is_name word.now }
{
    match word {
        [] => false,
        [first, ..] => !is_mark(*first) && word.len() <= FILE_NAME_LIMIT && are_file_bytes(word),
    }
}

fn are_file_bytes(word: &[u8]) -> bool
    ensures { result ≡ list_all is_file_byte word.now }
{
    word.iter().all(|byte| is_file_byte(*byte))
}

fn is_mark(byte: u8) -> bool
    ensures { result ≡ is_mark byte }
{
    byte == b'.' || byte == b'-'
}

fn is_file_byte(byte: u8) -> bool
    ensures { result ≡ is_file_byte byte }
{
    byte.is_ascii_alphanumeric() || byte == b'.' || byte == b'_' || byte == b'-'
}
