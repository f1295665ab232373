ghost use Rattle.std.specs.Prelude.{◌≡◌, ◌+◌, ◌^◌, ◌<◌, ◌≤◌, ◌↔◌, Ok, Err, IfOk, IfErr, IfSome, IsOk, IsSome, OnErr, length, take};
ghost use Rattle.odb_fields.specs.Bytes.{AreBytes};
ghost use Rattle.odb_fields.specs.Fields.{u8_bytes, u32_bytes, u64_bytes, i32_bytes, text_bytes};

use byteorder::{ByteOrder, LittleEndian};
use std::marker::Model;

/// The input ends inside the field that was to be read.
#[derive(Clone, Copy, Debug, PartialEq, Eq)]
pub struct Cut {
    /// The input's length in bytes.
    pub at: u64,
}

/// Reads fields from a slice of bytes, one after another. Contracts see the bytes, and how many of them were
/// read so far. Where a field doesn't fit, nothing is read.
#[derive(Debug, Drop)]
pub struct Get<'a> {
    bytes: &'a [u8],
    place: usize,
}

impl<'a> Model for Get<'a> {
    ghost use Rattle.std.specs.Prelude.{◌≤◌, length};
    ghost use Rattle.odb_fields.specs.Reading.{Cursor};

    ghost Value = { Cursor };

    ghost view = { λ g. record { bytes = g.bytes.now; place = g.place } };

    ghost invariant = { λ g. g.place ≤ length g.bytes.now };
}

impl<'a> Get<'a> {
    ghost use Rattle.odb_fields.specs.Reading.{Takes, bytes_at, cut_of, past, unread};
    ghost use Rattle.odb_fields.specs.Reading.{i32_at, text_at, text_length_at, u8_at, u32_at, u64_at};

    /// Stands at place 0.
    pub fn new(bytes: &'a [u8]) -> Get<'a>
        ensures { result ≡ record { bytes = bytes.now; place = 0 } }
    {
        Get { bytes, place: 0 }
    }

    /// The number of bytes read so far.
    pub fn place(&self) -> u64
        ensures place { result ≡ self.now.place }
        ensures within { self.now.place ≤ length self.now.bytes }
    {
        self.place as u64
    }

    /// Reads a number of one byte.
    #[tactic(auto, unfolding(crate::specs::Reading::u8_at))]
    pub fn get_u8(&mut self) -> Result<u8, Cut>
        ensures value { IfOk result (λ n. u8_at self.old ≡ Ok (n, self.new)) }
        ensures bytes { IfOk result (λ n. Takes self.old (u8_bytes n) self.new) }
        ensures fits { IsOk result ↔ (1 ≤ length (unread self.old)) }
        ensures cut { IfErr result (λ cut. u8_at self.old ≡ Err cut) }
        ensures end { IfErr result (λ cut. cut ≡ cut_of self.old) }
        ensures stays { OnErr result (self.new ≡ self.old) }
    {
        let field = self.get_bytes(1)?;
        Ok(field[0])
    }

    /// Reads a number of four bytes.
    #[tactic(auto, unfolding(crate::specs::Reading::u32_at))]
    pub fn get_u32(&mut self) -> Result<u32, Cut>
        ensures value { IfOk result (λ n. u32_at self.old ≡ Ok (n, self.new)) }
        ensures bytes { IfOk result (λ n. Takes self.old (u32_bytes n) self.new) }
        ensures fits { IsOk result ↔ (4 ≤ length (unread self.old)) }
        ensures cut { IfErr result (λ cut. u32_at self.old ≡ Err cut) }
        ensures end { IfErr result (λ cut. cut ≡ cut_of self.old) }
        ensures stays { OnErr result (self.new ≡ self.old) }
    {
        let field = self.get_bytes(4)?;
        Ok(LittleEndian::read_u32(field))
    }

    /// Reads a number of eight bytes.
    #[tactic(auto, unfolding(crate::specs::Reading::u64_at))]
    pub fn get_u64(&mut self) -> Result<u64, Cut>
        ensures value { IfOk result (λ n. u64_at self.old ≡ Ok (n, self.new)) }
        ensures bytes { IfOk result (λ n. Takes self.old (u64_bytes n) self.new) }
        ensures fits { IsOk result ↔ (8 ≤ length (unread self.old)) }
        ensures cut { IfErr result (λ cut. u64_at self.old ≡ Err cut) }
        ensures end { IfErr result (λ cut. cut ≡ cut_of self.old) }
        ensures stays { OnErr result (self.new ≡ self.old) }
    {
        let field = self.get_bytes(8)?;
        Ok(LittleEndian::read_u64(field))
    }

    /// Reads a signed number of four bytes.
    #[tactic(auto, unfolding(crate::specs::Reading::i32_at))]
    pub fn get_i32(&mut self) -> Result<i32, Cut>
        ensures value { IfOk result (λ z. i32_at self.old ≡ Ok (z, self.new)) }
        ensures bytes { IfOk result (λ z. Takes self.old (i32_bytes z) self.new) }
        ensures fits { IsOk result ↔ (4 ≤ length (unread self.old)) }
        ensures cut { IfErr result (λ cut. i32_at self.old ≡ Err cut) }
        ensures end { IfErr result (λ cut. cut ≡ cut_of self.old) }
        ensures stays { OnErr result (self.new ≡ self.old) }
    {
        let field = self.get_bytes(4)?;
        Ok(LittleEndian::read_i32(field))
    }

    /// Reads a text, and lends its bytes, which stay in the input.
    #[tactic(auto, unfolding(crate::specs::Reading::text_at, crate::specs::Reading::text_length_at, crate::specs::Reading::u32_at))]
    pub fn get_text(&mut self) -> Result<&'a [u8], Cut>
        ensures value { IfOk result (λ text. text_at self.old ≡ Ok (text.now, self.new)) }
        ensures bytes { IfOk result (λ text. Takes self.old (text_bytes text.now) self.new) }
        ensures short { IfOk result (λ text. length text.now < 2 ^ 32) }
        ensures fits { IsOk result ↔ (4 + text_length_at self.old ≤ length (unread self.old)) }
        ensures cut { IfErr result (λ cut. text_at self.old ≡ Err cut) }
        ensures end { IfErr result (λ cut. cut ≡ cut_of self.old) }
        ensures stays { OnErr result (self.new ≡ self.old) }
    {
        let count = LittleEndian::read_u32(self.next(4)?) as usize;
        let field = self.get_bytes(4 + count)?;
        Ok(&field[4..])
    }

    /// Reads the next `n` bytes, and lends them: they stay in the input.
    pub fn get_bytes(&mut self, n: usize) -> Result<&'a [u8], Cut>
        ensures value { IfOk result (λ field. bytes_at n self.old ≡ Ok (field.now, self.new)) }
        ensures taken { IfOk result (λ field. Takes self.old field.now self.new) }
        ensures length { IfOk result (λ field. length field.now ≡ n) }
        ensures bytes { IfOk result (λ field. AreBytes field.now) }
        ensures fits { IsOk result ↔ (n ≤ length (unread self.old)) }
        ensures cut { IfErr result (λ cut. bytes_at n self.old ≡ Err cut) }
        ensures end { IfErr result (λ cut. cut ≡ cut_of self.old) }
        ensures stays { OnErr result (self.new ≡ self.old) }
    {
        let field = self.next(n)?;
        self.place += n;
        Ok(field)
    }

    // The next `n` bytes, which stay unread.
    fn next(&self, n: usize) -> Result<&'a [u8], Cut>
        ensures value { IfOk result (λ field. bytes_at n self.now ≡ Ok (field.now, past n self.now)) }
        ensures taken { IfOk result (λ field. Takes self.now field.now (past n self.now)) }
        ensures length { IfOk result (λ field. length field.now ≡ n) }
        ensures bytes { IfOk result (λ field. AreBytes field.now) }
        ensures fits { IsOk result ↔ (n ≤ length (unread self.now)) }
        ensures cut { IfErr result (λ cut. bytes_at n self.now ≡ Err cut) }
        ensures end { IfErr result (λ cut. cut ≡ cut_of self.now) }
    {
        front(&self.bytes[self.place..], n).ok_or(Cut {
            at: self.bytes.len() as u64,
        })
    }
}

// The first `n` bytes, where there are so many.
fn front(bytes: &[u8], n: usize) -> Option<&[u8]>
    ensures fits { IsSome result ↔ (n ≤ length bytes.now) }
    ensures front { IfSome result (λ front. front.now ≡ take n bytes.now) }
    ensures bytes { IfSome result (λ front. AreBytes front.now) }
{
    bytes.get(..n)
}
