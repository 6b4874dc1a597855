//! An owned byte string.

ghost use Rattle.std.specs.Prelude.{◌≡◌, IfOk};

use std::alloc::{AllocError, Global};
use std::marker::Model;

/// Owned bytes, which contracts see as their list.
#[derive(Debug, Drop)]
pub struct PlainBytes {
    bytes: Vec<u8>,
}

impl Model for PlainBytes {
    ghost use Rattle.std.specs.Prelude.{ℕ, List};

    ghost Value = { List ℕ };

    ghost view = { λ b. b.bytes.items };
}

impl PlainBytes {
    /// A copy of the bytes.
    pub fn new(alloc: Global, bytes: &[u8]) -> Result<PlainBytes, AllocError>
        ensures { IfOk result (λ copied. copied ≡ bytes.now) }
    {
        let bytes = bytes.to_vec(alloc)?;
        Ok(PlainBytes { bytes })
    }

    /// The bytes that the vector holds, which takes no memory.
    pub fn from_vec(bytes: Vec<u8>) -> PlainBytes
        ensures { result ≡ bytes.items }
    {
        PlainBytes { bytes }
    }

    /// The bytes as a vector, which takes no memory.
    pub fn into_vec(self) -> Vec<u8>
        ensures { result.items ≡ self }
    {
        self.bytes
    }

    /// The bytes themselves.
    pub fn as_slice(&self) -> &[u8]
        ensures { result.now ≡ self.now }
    {
        self.bytes.as_slice()
    }

    /// Equal bytes with memory of their own.
    pub fn copy(&self) -> Result<PlainBytes, AllocError>
        ensures { IfOk result (λ copied. copied ≡ self.now) }
    {
        let bytes = self.bytes.clone()?;
        Ok(PlainBytes { bytes })
    }
}
