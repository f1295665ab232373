ghost use Rattle.std.specs.Prelude.{◌≡◌, IfOk};

use smallvec::SmallVec;
use std::alloc::{AllocError, Global};
use std::marker::Model;

/// Bytes under no rule, of which up to 16 lie in the value itself and take no memory. Contracts see the list of the
/// bytes.
#[derive(Debug, Drop)]
pub struct ShortText {
    bytes: SmallVec<u8, 16>,
}

impl Model for ShortText {
    ghost use Rattle.std.specs.Prelude.{List, ℕ};

    ghost Value = { List ℕ };

    ghost view = { λ t. t.bytes.items };
}

impl ShortText {
    /// A copy of these bytes.
    pub fn new(alloc: Global, bytes: &[u8]) -> Result<ShortText, AllocError>
        ensures { IfOk result (λ text. text ≡ bytes.now) }
    {
        Ok(ShortText {
            bytes: SmallVec::from_slice(alloc, bytes)?,
        })
    }

    /// The bytes of the text.
    pub fn bytes(&self) -> &[u8]
        ensures { result.now ≡ self.now }
    {
        self.bytes.as_slice()
    }
}
