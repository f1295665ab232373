ghost use Rattle.std.specs.Prelude.{◌≡◌, ◌+◌, ◌*◌, ◌^◌, ◌<◌, ◌≤◌, false, IfSome, if◌then◌else◌, length, slice_get};
ghost use Rattle.ld_words.specs.Decimal.{lacks_digits, rounded};

use crate::scan::one_if;
use odb_base::is_digit;

/// The greatest number of bytes of a short decimal, whose products with units fit 64 bits.
pub const SHORT_LIMIT: usize = 13;

/// The greatest number of database units per micron in such a product.
pub const UNITS_LIMIT: u32 = 100_000;

/// A decimal of few bytes without its sign: its digits as one number, and how many of them stand behind the point.
#[derive(Clone, Copy)]
pub struct ShortDecimal {
    number: u64,
    places: usize,
}

impl ShortDecimal {
    ghost use Rattle.ld_words.specs.Scan.{IsShort, decimal_in, scan};

    /// What the bytes are as a decimal, if they are one.
    pub fn new(text: &[u8]) -> Option<ShortDecimal>
        requires { length text.now ≤ 13 }
        ensures value { result ≡ decimal_in text.now }
        ensures short { IfSome result IsShort }
    {
        if lacks_digits(text) {
            return None;
        }
        ShortDecimal::scan(text)
    }

    /// The same where there is a digit, or a byte that belongs to no decimal.
    fn scan(text: &[u8]) -> Option<ShortDecimal>
        requires { length text.now ≤ 13 }
        ensures value { result ≡ scan false 0 0 text.now }
        ensures short { IfSome result IsShort }
    {
        let mut rest = text;
        let mut number = 0;
        let mut places = 0;
        let mut point = false;
        'bytes: while let [byte, others @ ..] = rest {
            if is_digit(*byte) {
                number = number * 10 + (*byte - b'0') as u64;
                places += one_if(point);
            } else if !point && *byte == b'.' {
                point = true;
            } else {
                return None;
            }
            rest = others;
        }
        Some(ShortDecimal { number, places })
    }

    /// The whole number nearest to the decimal times `per_micron`, and the greater of two that are equally near.
    pub fn nearest(&self, per_micron: u32) -> u64
        requires short { IsShort self.now }
        requires units { per_micron ≤ 100000 }
        ensures { result ≡ rounded (self.now.number * per_micron) (10 ^ self.now.places) }
    {
        let divisor = power_of_ten(self.places);
        (2 * (self.number * per_micron as u64) + divisor) / (2 * divisor)
    }
}

/// Whether there is no byte, or a point alone.
fn lacks_digits(text: &[u8]) -> bool
    ensures { result ≡ lacks_digits (slice_get text.now 0) (length text.now) }
{
    match text.first() {
        Some(byte) => text.len() == 1 && *byte == b'.',
        None => true,
    }
}

fn power_of_ten(exponent: usize) -> u64
    requires { exponent ≤ 13 }
    ensures power { result ≡ 10 ^ exponent }
    ensures some { 0 < result }
    ensures bound { result ≤ 10 ^ 13 }
{
    match exponent {
        0 => 1,
        1 => 10,
        2 => 100,
        3 => 1_000,
        4 => 10_000,
        5 => 100_000,
        6 => 1_000_000,
        7 => 10_000_000,
        8 => 100_000_000,
        9 => 1_000_000_000,
        10 => 10_000_000_000,
        11 => 100_000_000_000,
        12 => 1_000_000_000_000,
        _ => 10_000_000_000_000,
    }
}
