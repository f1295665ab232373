ghost use Rattle.std.specs.Prelude.{◌≡◌, ◌≤◌, ◌⊎◌, Bool, List, ℕ, Some, not, length, position, IfOk, IfErr, IfSome, OnOk};
ghost use Rattle.std.specs.List.{list_any};
ghost use Rattle.std.specs.Str.{bytes_eq};
ghost use Rattle.odb_base.specs.Name.{IsName, bad_place, begins_badly, is_name_byte, is_reserved, marks, wiring_words, name_fault as first_fault};

use crate::sameness::same_bytes;
use std::alloc::{AllocError, Global};
use std::marker::Model;

/// The greatest number of bytes in a name.
pub const NAME_LIMIT: usize = 4095;

/// Why some bytes are no name.
#[derive(Clone, Copy, Debug, PartialEq, Eq)]
pub enum NameFault {
    /// There are none.
    Empty,
    /// There are more than [`NAME_LIMIT`].
    TooLong,
    /// The byte at this place, from 0, may not stand there.
    BadByte { at: u32 },
    /// The bytes are a word that LEF or DEF keeps for itself.
    Reserved,
    /// There is no memory for a copy of the bytes.
    Memory,
}

/// A lawful name: 1 to 4,095 bytes from `!` to `~` with no `*`, the first of them neither `#` nor `"`, that
/// are none of the words which LEF or DEF keeps for itself. Contracts see the list of the bytes.
#[derive(Debug, Drop)]
pub struct Name {
    bytes: Vec<u8>,
}

impl Model for Name {
    ghost Value = { List ℕ };

    ghost view = { λ n. n.bytes.items };

    ghost invariant = { λ n. IsName n.bytes.items };
}

/// The first reason in the order of [`NameFault`] why the bytes are no name; never `Memory`.
#[tactic(auto, unfolding(crate::specs::Name::name_fault))]
pub fn name_fault(bytes: &[u8]) -> Option<NameFault>
    ensures { result ≡ first_fault bytes.now }
{
    if bytes.is_empty() {
        return Some(NameFault::Empty);
    }
    if bytes.len() > NAME_LIMIT {
        return Some(NameFault::TooLong);
    }
    if let Some(at) = bad_place_of(bytes) {
        return Some(NameFault::BadByte { at: at as u32 });
    }
    if is_reserved_word(bytes) {
        return Some(NameFault::Reserved);
    }
    None
}

// Where the first byte stands that may not stand there.
fn bad_place_of(bytes: &[u8]) -> Option<usize>
    ensures place { result ≡ bad_place bytes.now }
    ensures within { IfSome result (λ at. at ≤ length bytes.now) }
{
    if begins_with_mark(bytes) {
        Some(0)
    } else {
        first_unfit(bytes)
    }
}

fn begins_with_mark(bytes: &[u8]) -> bool
    ensures { result ≡ begins_badly bytes.now }
{
    match bytes.first() {
        Some(first) => *first == b'#' || *first == b'"',
        None => false,
    }
}

fn first_unfit(bytes: &[u8]) -> Option<usize>
    ensures place { result ≡ position (λ b. not (is_name_byte b)) bytes.now }
    ensures within { IfSome result (λ at. at ≤ length bytes.now) }
{
    bytes.iter().position(|b| !fits_a_name(*b))
}

fn fits_a_name(byte: u8) -> bool
    ensures { result ≡ is_name_byte byte }
{
    byte >= b'!' && byte <= b'~' && byte != b'*'
}

fn is_reserved_word(bytes: &[u8]) -> bool
    ensures { result ≡ is_reserved bytes.now }
{
    is_mark(bytes) || is_wiring_word(bytes)
}

fn is_mark(bytes: &[u8]) -> bool
    ensures { result ≡ list_any (bytes_eq bytes.now) marks }
{
    same_bytes(bytes, b";")
        || same_bytes(bytes, b"(")
        || same_bytes(bytes, b")")
        || same_bytes(bytes, b"+")
        || same_bytes(bytes, b"-")
}

fn is_wiring_word(bytes: &[u8]) -> bool
    ensures { result ≡ list_any (bytes_eq bytes.now) wiring_words }
{
    same_bytes(bytes, b"PIN")
        || same_bytes(bytes, b"NEW")
        || same_bytes(bytes, b"MUSTJOIN")
        || same_bytes(bytes, b"TAPER")
        || same_bytes(bytes, b"TAPERRULE")
        || same_bytes(bytes, b"STYLE")
        || same_bytes(bytes, b"MASK")
        || same_bytes(bytes, b"RECT")
        || same_bytes(bytes, b"VIRTUAL")
        || same_bytes(bytes, b"DO")
}

impl Name {
    /// The name with these bytes, or the first reason why they are none. `Memory` may come in place of
    /// either; it says nothing of the bytes.
    pub fn new(alloc: Global, bytes: &[u8]) -> Result<Name, NameFault>
        ensures name { IfOk result (λ name. name ≡ bytes.now) }
        ensures lawful { OnOk result (IsName bytes.now) }
        ensures fault { IfErr result (λ fault. (fault ≡ NameFault.Memory) ⊎ (first_fault bytes.now ≡ Some fault)) }
    {
        if let Some(fault) = name_fault(bytes) {
            return Err(fault);
        }
        match bytes.to_vec(alloc) {
            Ok(bytes) => Ok(Name { bytes }),
            Err(AllocError) => Err(NameFault::Memory),
        }
    }

    /// The bytes of the name, 1 to [`NAME_LIMIT`] of them.
    #[tactic(auto, using(crate::proofs::Names::name_is_short))]
    pub fn bytes(&self) -> &[u8]
        ensures value { result.now ≡ self.now }
        ensures lawful { IsName self.now }
        ensures short { length result.now ≤ 4095 }
    {
        &self.bytes
    }

    /// An equal name.
    pub fn try_clone(&self) -> Result<Name, AllocError>
        ensures { IfOk result (λ name. name ≡ self.now) }
    {
        Ok(Name {
            bytes: self.bytes.clone()?,
        })
    }
}
