ghost use Rattle.std.specs.Prelude.{◌≡◌, List, ℕ, IfOk};

use std::alloc::{AllocError, Global};
use std::marker::Model;

/// The paths of a wire as bytes. Whether they are paths is judged where the layers and vias are known.
/// Contracts see the list of the bytes.
#[derive(Debug, Drop)]
pub struct WireCode {
    bytes: Vec<u8>,
}

impl Model for WireCode {
    ghost Value = { List ℕ };

    ghost view = { λ t. t.bytes.items };
}

impl WireCode {
    /// A copy of these bytes.
    pub fn new(alloc: Global, bytes: &[u8]) -> Result<WireCode, AllocError>
        ensures { IfOk result (λ code. code ≡ bytes.now) }
    {
        Ok(WireCode {
            bytes: bytes.to_vec(alloc)?,
        })
    }

    /// The code of the bytes of a vector. It takes no memory.
    pub fn from_vec(bytes: Vec<u8>) -> WireCode
        ensures { result ≡ bytes.items }
    {
        WireCode { bytes }
    }

    /// The bytes of the code.
    pub fn bytes(&self) -> &[u8]
        ensures { result.now ≡ self.now }
    {
        &self.bytes
    }

    /// An equal code.
    pub fn try_clone(&self) -> Result<WireCode, AllocError>
        ensures { IfOk result (λ code. code ≡ self.now) }
    {
        Ok(WireCode {
            bytes: self.bytes.clone()?,
        })
    }
}
