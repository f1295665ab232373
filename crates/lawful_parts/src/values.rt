ghost use Rattle.std.specs.Prelude.{◌≡◌, ◌^◌, length, nat_lt};
ghost use Rattle.odb_base.specs.Geometry.{is_coordinate};
ghost use Rattle.lawful_parts.specs.Tests.{is_name as has_lawful_bytes};

use odb_base::{COORDINATE_LIMIT, Name};

// Each name is lawful by its type.
pub fn is_name(name: &Name) -> bool
    ensures { result ≡ has_lawful_bytes name.now }
{
    let _bytes = name.bytes();
    true
}

// The text's length has 32 bits.
pub fn fits(text: &[u8]) -> bool
    ensures { result ≡ nat_lt (length text.now) (2 ^ 32) }
{
    text.len() < 1 << 32
}

// The number is within the limit of coordinates.
pub fn in_limit(n: i32) -> bool
    ensures { result ≡ is_coordinate n }
{
    n.unsigned_abs() <= COORDINATE_LIMIT
}
