//! A source without an end, and a sink in memory that can run full.
ghost use Rattle.std.specs.Io.KnownBytes.{ReadConsumes, WriteAppends};
ghost use Rattle.std.specs.Io.{ReadsAtMost};
ghost use Rattle.std.specs.Prelude.{◌≡◌, ◌<◌, ◌≤◌, ◌+◌, ◌++◌, [], ℕ, length};
ghost use Rattle.std.specs.Prelude.{replicate, IfOk, OnOk, OnErr, Ok, None, Some};
ghost use Rattle.rec_container.specs.Causes.{Counts, HasCause};

use rec_container::{Sink, SinkFailed, Source, SourceFailed};
use std::alloc::{AllocError, Global};
use std::marker::Model;

/// Gives one byte without end. It never fails.
#[derive(Drop)]
pub struct EndlessSource {
    byte: u8,
}

impl Model for EndlessSource {
    ghost Value = { ℕ };

    ghost view = { λ s. s.byte };
}

impl EndlessSource {
    /// Makes a source of this byte, again and again.
    pub fn new(byte: u8) -> EndlessSource
        ensures { result ≡ byte }
    {
        EndlessSource { byte }
    }
}

impl Source for EndlessSource {
    // No list has all the bytes that are left.
    ghost left = { λ _. None };

    ghost faults = { λ _. 0 };

    fn read(&mut self, buf: &mut [u8]) -> Result<usize, SourceFailed>
        ensures bound { ReadsAtMost result buf.new }
        ensures bytes { ReadConsumes None None result buf.new }
        ensures cause { HasCause 0 0 result }
        ensures faultless { OnOk result (◌≡◌ {A = ℕ} 0 0) }

        // It fills the buffer, and goes on as before.
        ensures whole { result ≡ Ok (length buf.old) }
        ensures filled { buf.new ≡ replicate (length buf.old) self.old }
        ensures same { self.new ≡ self.old }
    {
        buf.fill(self.byte);
        Ok(buf.len())
    }
}

/// Keeps what it takes in memory. A write takes the whole piece and no more memory, so it fails
/// where the spare room is too small for it.
#[derive(Drop)]
pub struct MemorySink {
    bytes: Vec<u8>,
    faults: u64,
}

impl Model for MemorySink {
    ghost use Rattle.std.specs.Prelude.{◌-◌, vec_len, vec_capacity};
    ghost use Rattle.rec_memory_streams.specs.Streams.{SinkState};

    ghost Value = { SinkState };

    ghost view = { λ s.
        record {
          bytes = s.bytes.items;
          faults = s.faults;
          room = vec_capacity s.bytes
              - vec_len s.bytes;
        } };
}

impl MemorySink {
    /// Makes a sink without bytes, faults or spare room.
    pub fn new(alloc: Global) -> MemorySink
        ensures bytes { result.bytes ≡ [] }
        ensures faults { result.faults ≡ 0 }
    {
        MemorySink {
            bytes: Vec::new(alloc),
            faults: 0,
        }
    }

    /// Makes the spare room at least `room` bytes.
    ///
    /// # Errors
    ///
    /// `AllocError` means that there was not enough memory. The bytes and the count of faults are
    /// as they were, and the spare room is no smaller.
    pub fn reserve(&mut self, room: usize) -> Result<(), AllocError>
        ensures ok { OnOk result (room ≤ self.new.room) }
        ensures grown { self.old.room ≤ self.new.room }
        ensures same { self.new ≡ record self.old { room = self.new.room } }
    {
        self.bytes.reserve(room)
    }

    /// Returns the bytes taken so far.
    pub fn bytes(&self) -> &[u8]
        ensures { result.now ≡ self.now.bytes }
    {
        &self.bytes
    }

    /// Returns how many writes have failed.
    pub fn faults(&self) -> u64
        ensures { result ≡ self.now.faults }
    {
        self.faults
    }
}

impl Sink for MemorySink {
    ghost taken = { λ s. Some s.bytes };

    ghost faults = { λ s. s.faults };

    fn write(&mut self, piece: &[u8]) -> Result<usize, SinkFailed>
        ensures bound { IfOk result (λ n. n ≤ length piece.now) }
        ensures progress { IfOk result (λ n. 0 < length piece.now → 0 < n) }
        ensures bytes { WriteAppends (Some self.old.bytes) (Some self.new.bytes) result piece.now }
        ensures cause { HasCause self.old.faults self.new.faults result }

        // It takes the whole piece, and fails only where the room is too small.
        ensures whole { IfOk result (λ n. n ≡ length piece.now) }
        ensures within { OnOk result (length piece.now ≤ self.old.room) }
        ensures failed { OnErr result (self.old.room < length piece.now) }
        ensures counted { Counts self.old.faults self.new.faults result }
        ensures spent { OnOk result (self.old.room ≤ self.new.room + length piece.now) }
        ensures kept { OnErr result (self.new.room ≡ self.old.room) }
    {
        let room = self.bytes.capacity() - self.bytes.len();
        if piece.len() > room || self.bytes.extend_from_slice(piece).is_err() {
            self.faults = self.faults.saturating_add(1);
            return Err(SinkFailed);
        }
        Ok(piece.len())
    }
}
