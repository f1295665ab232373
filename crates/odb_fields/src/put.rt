ghost use Rattle.std.specs.Prelude.{◌≡◌, ◌++◌, ◌<◌, ◌^◌, length, OnOk, OnErr};
ghost use Rattle.odb_fields.specs.Fields.{u8_bytes, u32_bytes, u64_bytes, i32_bytes, text_bytes};
ghost use Rattle.odb_fields.specs.Putting.{IsOver, KeepsVector, bytes_in};

use byteorder::{ByteOrder, LittleEndian};
use std::alloc::AllocError;

/// Appends fields to a vector of bytes. Where there is no memory for a field, the vector's bytes stay as they were.
///
/// Contracts see the bytes of the vector, and that it is always the one that was handed in: so the caller knows
/// what its vector holds afterwards.
#[derive(Debug, Drop)]
pub struct Put<'a> {
    out: &'a mut Vec<u8>,
}

impl<'a> Put<'a> {
    /// Fields go to the end of this vector.
    pub fn new(out: &'a mut Vec<u8>) -> Put<'a>
        ensures bytes { bytes_in result ≡ out.old.items }
        ensures vector { IsOver result out.entry }
    {
        Put { out }
    }

    /// Appends a number of one byte.
    #[tactic(auto, unfolding(crate::specs::Fields::u8_bytes))]
    pub fn put_u8(&mut self, value: u8) -> Result<(), AllocError>
        ensures ok { OnOk result (bytes_in self.new ≡ bytes_in self.old ++ u8_bytes value) }
        ensures err { OnErr result (bytes_in self.new ≡ bytes_in self.old) }
        ensures vector { KeepsVector self.old self.new }
    {
        self.out.push(value)?;
        Ok(())
    }

    /// Appends a number of four bytes.
    #[tactic(auto, unfolding(crate::specs::Fields::u32_bytes))]
    pub fn put_u32(&mut self, value: u32) -> Result<(), AllocError>
        ensures ok { OnOk result (bytes_in self.new ≡ bytes_in self.old ++ u32_bytes value) }
        ensures err { OnErr result (bytes_in self.new ≡ bytes_in self.old) }
        ensures vector { KeepsVector self.old self.new }
    {
        let mut field = [0; 4];
        LittleEndian::write_u32(&mut field, value);
        self.out.extend_from_slice(&field)?;
        Ok(())
    }

    /// Appends a number of eight bytes.
    #[tactic(auto, unfolding(crate::specs::Fields::u64_bytes))]
    pub fn put_u64(&mut self, value: u64) -> Result<(), AllocError>
        ensures ok { OnOk result (bytes_in self.new ≡ bytes_in self.old ++ u64_bytes value) }
        ensures err { OnErr result (bytes_in self.new ≡ bytes_in self.old) }
        ensures vector { KeepsVector self.old self.new }
    {
        let mut field = [0; 8];
        LittleEndian::write_u64(&mut field, value);
        self.out.extend_from_slice(&field)?;
        Ok(())
    }

    /// Appends a signed number of four bytes.
    #[tactic(auto, unfolding(crate::specs::Fields::i32_bytes))]
    pub fn put_i32(&mut self, value: i32) -> Result<(), AllocError>
        ensures ok { OnOk result (bytes_in self.new ≡ bytes_in self.old ++ i32_bytes value) }
        ensures err { OnErr result (bytes_in self.new ≡ bytes_in self.old) }
        ensures vector { KeepsVector self.old self.new }
    {
        let mut field = [0; 4];
        LittleEndian::write_i32(&mut field, value);
        self.out.extend_from_slice(&field)?;
        Ok(())
    }

    /// Appends a text of at most 2^32 - 1 bytes: the number of its bytes, in four bytes, and then these.
    #[tactic(auto, unfolding(crate::specs::Fields::text_bytes, crate::specs::Fields::u32_bytes))]
    pub fn put_text(&mut self, bytes: &[u8]) -> Result<(), AllocError>
        requires { length bytes.now < 2 ^ 32 }
        ensures ok { OnOk result (bytes_in self.new ≡ bytes_in self.old ++ text_bytes bytes.now) }
        ensures err { OnErr result (bytes_in self.new ≡ bytes_in self.old) }
        ensures vector { KeepsVector self.old self.new }
    {
        let mut count = [0; 4];
        LittleEndian::write_u32(&mut count, bytes.len() as u32);
        self.out.reserve(4 + bytes.len())?;
        self.out.extend_from_slice(&count)?;
        self.out.extend_from_slice(bytes)?;
        Ok(())
    }
}
