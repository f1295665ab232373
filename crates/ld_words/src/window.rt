ghost use Rattle.std.specs.Prelude.{◌≡◌, ◌+◌, ◌-◌, ◌<◌, ◌≤◌, [], IsTrue, IfOk, IfSome, OnErr, OnOk, length, slice_range, take, drop};
ghost use Rattle.odb_outside.specs.Outside.{HasCause};
ghost use Rattle.ld_words.specs.Told.{SameIfTold, ahead};

use crate::word::WORD_LIMIT;
use odb_outside::{Failed, Source};
use std::alloc::{AllocError, Global};
use std::marker::Model;

/// The greatest number of bytes that one read asks for.
pub const PIECE: usize = 16_384;

/// The size of the buffer, which has room for a piece behind an unfinished word.
pub const CAPACITY: usize = WORD_LIMIT + PIECE;

/// The bytes of a text that were read and are not used yet. Contracts see the list of them.
#[derive(Debug, Drop)]
pub struct Window {
    bytes: Vec<u8>,
    start: usize,
    end: usize,
}

impl Model for Window {
    ghost use Rattle.std.specs.Prelude.{List, ℕ, slice_range, vec_len};
    ghost use Rattle.ld_words.specs.Window.{IsWindow};

    ghost Value = { List ℕ };

    ghost view = { λ w. slice_range w.bytes.items w.start w.end };

    ghost invariant = { λ w. IsWindow w.start w.end (vec_len w.bytes) };
}

impl Window {
    /// No bytes yet.
    pub fn new(alloc: Global) -> Result<Window, AllocError>
        ensures { IfOk result (λ window. window ≡ []) }
    {
        Ok(Window {
            bytes: vec![in alloc; 0; CAPACITY]?,
            start: 0,
            end: 0,
        })
    }

    /// The bytes at hand, at most [`CAPACITY`] of them.
    pub fn bytes(&self) -> &[u8]
        ensures value { result.now ≡ self.now }
        ensures short { length result.now ≤ CAPACITY }
    {
        &self.bytes[self.start..self.end]
    }

    /// Uses the first bytes up.
    pub fn skip(&mut self, count: usize)
        requires { count ≤ length self.old }
        ensures { self.new ≡ drop count self.old }
    {
        self.start += count;
    }

    /// Reads at most this many bytes behind those at hand, and answers how many; 0 is the end of the text.
    pub fn fill<S: Source>(&mut self, source: &mut S, most: usize) -> Result<usize, Failed>
        requires ready { IsTrue (S.ready source.old) }
        requires room { length self.old ≤ 65535 }
        requires some { 0 < most }
        ensures unread { OnErr result (self.new ≡ self.old) }
        ensures kept { OnOk result (take (length self.old) self.new ≡ self.old) }
        ensures grown { IfOk result (λ n. length self.new ≡ length self.old + n) }
        ensures most { IfOk result (λ n. n ≤ most) }
        ensures bytes { OnOk result
            (SameIfTold (ahead self.old (S.left source.old)) (ahead self.new (S.left source.new))) }
        ensures end { IfOk result (λ n. n ≡ 0 → IfSome (S.left source.old) (λ left. left ≡ [])) }
        ensures ready { OnOk result (IsTrue (S.ready source.new)) }
        ensures cause { HasCause (S.faults source.old) (S.faults source.new) result }
        ensures rest { S.rest source.new ≡ S.rest source.old }
    {
        let held = self.end - self.start;
        move_to_front(&mut self.bytes, self.start, self.end);
        self.start = 0;
        self.end = held;
        let count = source.read(&mut self.bytes[held..held + PIECE.min(most)])?;
        self.end = held + count;
        Ok(count)
    }
}

/// Moves the bytes between two places to the front.
fn move_to_front(bytes: &mut [u8], start: usize, end: usize)
    requires ordered { start ≤ end }
    requires within { end ≤ length bytes.old }
    ensures { slice_range bytes.new 0 (end - start) ≡ slice_range bytes.old start end }
{
    if start > 0 {
        bytes.copy_within(start..end, 0);
    }
}
