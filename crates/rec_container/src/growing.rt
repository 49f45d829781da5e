//! A sink in memory that grows.
ghost use Rattle.std.specs.Io.KnownBytes.{WriteAppends};
ghost use Rattle.std.specs.Prelude.{◌≡◌, ◌<◌, ◌≤◌, [], length, IfOk, Some};
ghost use Rattle.rec_container.specs.Causes.{Counts, HasCause};

use crate::streams::{Sink, SinkFailed};
use std::alloc::{AllocError, Global};
use std::marker::Model;

/// Keeps what it takes in memory that grows. A write takes the whole piece, and fails only for want
/// of memory.
#[derive(Drop)]
pub struct GrowingSink {
    bytes: Vec<u8>,
    faults: u64,
}

impl Model for GrowingSink {
    ghost use Rattle.rec_container.specs.Memory.{GrowingSinkState};

    ghost Value = { GrowingSinkState };

    ghost view = { λ s. record { bytes = s.bytes.items; faults = s.faults } };
}

impl GrowingSink {
    /// Makes a sink without bytes or faults.
    pub fn new(alloc: Global) -> GrowingSink
        ensures bytes { result.bytes ≡ [] }
        ensures faults { result.faults ≡ 0 }
    {
        GrowingSink {
            bytes: Vec::new(alloc),
            faults: 0,
        }
    }

    /// Makes a sink without bytes or faults, whose first `capacity` bytes need no more memory.
    ///
    /// # Errors
    ///
    /// `AllocError` where memory is short.
    pub fn with_capacity(alloc: Global, capacity: usize) -> Result<GrowingSink, AllocError>
        ensures { IfOk result (λ s. (s.bytes ≡ []) × (s.faults ≡ 0)) }
    {
        Ok(GrowingSink {
            bytes: Vec::with_capacity(alloc, capacity)?,
            faults: 0,
        })
    }

    /// Returns the bytes taken so far.
    pub fn bytes(&self) -> &[u8]
        ensures { result.now ≡ self.now.bytes }
    {
        &self.bytes
    }

    /// Returns the bytes taken, without copying them.
    pub fn into_bytes(self) -> Vec<u8>
        ensures { result.items ≡ self.bytes }
    {
        self.bytes
    }

    /// Returns how many writes have failed.
    pub fn faults(&self) -> u64
        ensures { result ≡ self.now.faults }
    {
        self.faults
    }
}

impl Sink for GrowingSink {
    ghost taken = { λ s. Some s.bytes };

    ghost faults = { λ s. s.faults };

    fn write(&mut self, piece: &[u8]) -> Result<usize, SinkFailed>
        ensures bound { IfOk result (λ n. n ≤ length piece.now) }
        ensures progress { IfOk result (λ n. 0 < length piece.now → 0 < n) }
        ensures bytes { WriteAppends (Some self.old.bytes) (Some self.new.bytes) result piece.now }
        ensures cause { HasCause self.old.faults self.new.faults result }

        // It takes the whole piece.
        ensures whole { IfOk result (λ n. n ≡ length piece.now) }
        ensures counted { Counts self.old.faults self.new.faults result }
    {
        if self.bytes.extend_from_slice(piece).is_err() {
            self.faults = self.faults.saturating_add(1);
            return Err(SinkFailed);
        }
        Ok(piece.len())
    }
}
