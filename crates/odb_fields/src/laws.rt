ghost use Rattle.std.specs.Prelude.{◌≡◌, ◌+◌, ◌<◌, ◌^◌, List, ℕ, ℤ, length};
ghost use Rattle.std.specs.Int.{w32};
ghost use Rattle.std.specs.Prelude.{FitsSigned};
ghost use Rattle.odb_fields.specs.Fields.{u8_bytes, u32_bytes, u64_bytes, i32_bytes, text_bytes};
ghost use Rattle.odb_fields.specs.Reading.{ReadsBack, ReadsOnly, u8_at, u32_at, u64_at, i32_at, text_at};

/// A field that was written is read back, whatever follows it. It does nothing.
pub fn written_fields()
    ensures u8 { (n : ℕ) → n < 2 ^ 8 → ReadsBack u8_at (u8_bytes n) n }
    ensures u32 { (n : ℕ) → n < 2 ^ 32 → ReadsBack u32_at (u32_bytes n) n }
    ensures u64 { (n : ℕ) → n < 2 ^ 64 → ReadsBack u64_at (u64_bytes n) n }
    ensures i32 { (z : ℤ) → FitsSigned w32 z → ReadsBack i32_at (i32_bytes z) z }
    ensures text { (bytes : List ℕ) → length bytes < 2 ^ 32 → ReadsBack text_at (text_bytes bytes) bytes }
{}

/// A field that is read has just the bytes that would be written: no value has a second spelling. It does nothing.
pub fn read_fields()
    ensures u8 { ReadsOnly u8_at u8_bytes (λ n. n < 2 ^ 8) }
    ensures u32 { ReadsOnly u32_at u32_bytes (λ n. n < 2 ^ 32) }
    ensures u64 { ReadsOnly u64_at u64_bytes (λ n. n < 2 ^ 64) }
    ensures i32 { ReadsOnly i32_at i32_bytes (FitsSigned w32) }
    ensures text { ReadsOnly text_at text_bytes (λ bytes. length bytes < 2 ^ 32) }
{}

/// How many bytes each field has. It does nothing.
pub fn field_lengths()
    ensures u8 { (n : ℕ) → length (u8_bytes n) ≡ 1 }
    ensures u32 { (n : ℕ) → length (u32_bytes n) ≡ 4 }
    ensures u64 { (n : ℕ) → length (u64_bytes n) ≡ 8 }
    ensures i32 { (z : ℤ) → length (i32_bytes z) ≡ 4 }
    ensures text { (bytes : List ℕ) → length (text_bytes bytes) ≡ 4 + length bytes }
{}
