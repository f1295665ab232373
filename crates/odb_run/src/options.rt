ghost use Rattle.std.specs.Prelude.{◌≡◌, ◌≤◌, IfSome, Some};
ghost use Rattle.odb_run.specs.Options.{slots_after, slots_from, slots_of};

use block_store::SLOT_LIMIT;
use odb_base::Text;
use script_words::number::number_named;

/// The greatest number of slots of a table, by the words of the command line; nothing where it isn't lawful.
pub fn slots(words: &[Text]) -> Option<u32>
    ensures slots { result ≡ slots_of words.now }
    ensures limit { IfSome result (λ cap. cap ≤ 16777215) }
{
    match words {
        [] => Some(SLOT_LIMIT),
        [name, word] => named_slots(name.bytes(), word.bytes()),
        _ => None,
    }
}

fn named_slots(name: &[u8], word: &[u8]) -> Option<u32>
    ensures slots { result ≡ slots_after name.now word.now }
    ensures limit { IfSome result (λ cap. cap ≤ 16777215) }
{
    if name == b"--slots".as_slice() {
        let number = number_named(word)?;
        slots_in_limit(number)
    } else {
        None
    }
}

fn slots_in_limit(number: i64) -> Option<u32>
    ensures slots { result ≡ slots_from (Some number) }
    ensures limit { IfSome result (λ cap. cap ≤ 16777215) }
{
    if number >= 1 && number <= SLOT_LIMIT as i64 {
        Some(number as u32)
    } else {
        None
    }
}
