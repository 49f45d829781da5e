//! The bytes that a process wrote.
ghost use Rattle.std.specs.Prelude.{◌≡◌, ◌<◌, ℕ, slice_index};

use crate::TryClone;
use std::alloc::{AllocError, Global};
use std::marker::Model;

/// Holds an output of a process. Contracts see its bytes.
#[derive(Drop)]
pub struct ChildSingleOutput {
    bytes: Vec<u8>,
}

impl Model for ChildSingleOutput {
    ghost use Rattle.std.specs.Prelude.{List, ℕ};

    ghost Value = { List ℕ };

    ghost view = { λ o. o.bytes.items };
}

impl ChildSingleOutput {
    /// Makes the output of these bytes.
    pub fn new(bytes: Vec<u8>) -> ChildSingleOutput
        ensures { result ≡ bytes.items }
    {
        ChildSingleOutput { bytes }
    }

    /// Returns the vector that holds the bytes.
    pub fn into_vec(self) -> Vec<u8>
        ensures { result.items ≡ self }
    {
        self.bytes
    }

    /// Returns the bytes.
    pub fn as_bytes(&self) -> &[u8]
        ensures value { result.now ≡ self.now }
        ensures octets { (i : ℕ) → slice_index self.now i < 256 }
    {
        known_octets(self.bytes.as_slice())
    }
}

/// Returns the same bytes, of which it is known that each is below 256.
fn known_octets(bytes: &[u8]) -> &[u8]
    ensures same { result.now ≡ bytes.now }
    ensures octets { (i : ℕ) → slice_index bytes.now i < 256 }
{
    bytes
}

impl TryClone for ChildSingleOutput {
    fn try_clone(&self, alloc: Global) -> Result<ChildSingleOutput, AllocError> {
        Ok(ChildSingleOutput::new(self.as_bytes().to_vec(alloc)?))
    }
}
