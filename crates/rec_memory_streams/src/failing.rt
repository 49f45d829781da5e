//! A source and a sink in memory that fail at the calls that they are given.
//!
//! Calls of `read` or `write` are numbered from 1. The number stays at u64's greatest once it is
//! there.
ghost use Rattle.std.specs.Io.KnownBytes.{ReadConsumes, WriteAppends};
ghost use Rattle.std.specs.Io.{ReadsAtMost};
ghost use Rattle.std.specs.Prelude.{◌≡◌, ◌<◌, ◌≤◌, ◌+◌, ◌-◌, ◌^◌, ◌++◌, ◌⊎◌, []};
ghost use Rattle.std.specs.Prelude.{length, min, Contains, IfOk, OnOk, OnErr, Some};
ghost use Rattle.rec_container.specs.Causes.{Counts, HasCause, next_count};
ghost use Rattle.rec_memory_streams.specs.Streams.{piece_len};

use rec_container::{Sink, SinkFailed, Source, SourceFailed};
use std::alloc::{AllocError, Global};
use std::marker::Model;

/// Gives at most `piece` bytes a call, 0 meaning no bound, and fails at the calls numbered in
/// `fail_at`.
#[derive(Drop)]
pub struct FailingSource<'a> {
    rest: &'a [u8],
    faults: u64,
    piece: usize,
    calls: u64,
    fail_at: &'a [u64],
}

impl<'a> Model for FailingSource<'a> {
    ghost use Rattle.rec_memory_streams.specs.Streams.{FailingSourceState};

    ghost Value = { FailingSourceState };

    ghost view = { λ s.
        record {
          rest = s.rest.now;
          faults = s.faults;
          piece = s.piece;
          calls = s.calls;
          fail_at = s.fail_at.now;
        } };
}

impl<'a> FailingSource<'a> {
    /// Makes a source of these bytes that was not read yet.
    pub fn new(bytes: &'a [u8], piece: usize, fail_at: &'a [u64]) -> FailingSource<'a>
        ensures rest { result.rest ≡ bytes.now }
        ensures faults { result.faults ≡ 0 }
        ensures piece { result.piece ≡ piece }
        ensures calls { result.calls ≡ 0 }
        ensures fail_at { result.fail_at ≡ fail_at.now }
    {
        FailingSource {
            rest: bytes,
            faults: 0,
            piece,
            calls: 0,
            fail_at,
        }
    }

    /// Returns how many reads have failed.
    pub fn faults(&self) -> u64
        ensures { result ≡ self.now.faults }
    {
        self.faults
    }
}

impl Source for FailingSource<'_> {
    ghost left = { λ s. Some s.rest };

    ghost faults = { λ s. s.faults };

    fn read(&mut self, buf: &mut [u8]) -> Result<usize, SourceFailed>
        ensures bound { ReadsAtMost result buf.new }
        ensures bytes { ReadConsumes (Some self.old.rest) (Some self.new.rest) result buf.new }
        ensures cause { HasCause self.old.faults self.new.faults result }
        ensures faultless { OnOk result (self.new.faults ≡ self.old.faults) }

        // The call's number, what it gives, and when it fails.
        ensures numbered { self.new.calls ≡ next_count self.old.calls }
        ensures whole { IfOk result
            (λ n. n ≡ piece_len (min (length buf.old) (length self.old.rest)) self.old.piece) }
        ensures unlisted { OnOk result (Contains self.old.fail_at self.new.calls → ⊥) }
        ensures failed { OnErr result (Contains self.old.fail_at self.new.calls) }
        ensures counted { Counts self.old.faults self.new.faults result }
        ensures rules { (self.new.piece ≡ self.old.piece) × (self.new.fail_at ≡ self.old.fail_at) }
    {
        self.calls = self.calls.saturating_add(1);
        if self.fail_at.contains(&self.calls) {
            self.faults = self.faults.saturating_add(1);
            return Err(SourceFailed);
        }
        let count = bounded(buf.len().min(self.rest.len()), self.piece);
        let (prefix, rest) = self.rest.split_at(count);
        buf[..count].copy_from_slice(prefix);
        self.rest = rest;
        Ok(count)
    }
}

/// Takes at most `piece` bytes a call, 0 meaning no bound, and fails at the calls numbered in
/// `fail_at`. As a `MemorySink`, it also fails where the spare room is too small.
#[derive(Drop)]
pub struct FailingSink {
    bytes: Vec<u8>,
    faults: u64,
    piece: usize,
    calls: u64,
    fail_at: Vec<u64>,
}

impl Model for FailingSink {
    ghost use Rattle.std.specs.Prelude.{◌-◌, vec_len, vec_capacity};
    ghost use Rattle.rec_memory_streams.specs.Streams.{FailingSinkState};

    ghost Value = { FailingSinkState };

    ghost view = { λ s.
        record {
          bytes = s.bytes.items;
          faults = s.faults;
          room = vec_capacity s.bytes
              - vec_len s.bytes;
          piece = s.piece;
          calls = s.calls;
          fail_at = s.fail_at.items;
        } };
}

impl FailingSink {
    /// Makes a sink without bytes, faults or spare room that was not written to yet.
    pub fn new(alloc: Global, piece: usize, fail_at: Vec<u64>) -> FailingSink
        ensures bytes { result.bytes ≡ [] }
        ensures faults { result.faults ≡ 0 }
        ensures piece { result.piece ≡ piece }
        ensures calls { result.calls ≡ 0 }
        ensures fail_at { result.fail_at ≡ fail_at.items }
    {
        FailingSink {
            bytes: Vec::new(alloc),
            faults: 0,
            piece,
            calls: 0,
            fail_at,
        }
    }

    /// Makes the spare room at least `room` bytes.
    ///
    /// # Errors
    ///
    /// `AllocError` means that there was not enough memory. The spare room is then no smaller, and
    /// all else of the sink is as it was.
    pub fn reserve(&mut self, room: usize) -> Result<(), AllocError>
        ensures ok { OnOk result (room ≤ self.new.room) }
        ensures grown { self.old.room ≤ self.new.room }
        ensures same { self.new ≡ record self.old { room = self.new.room } }
    {
        self.bytes.reserve(room)
    }

    /// Returns the bytes taken so far.
    pub fn bytes(&self) -> &[u8]
        ensures { result.now ≡ self.now.bytes }
    {
        &self.bytes
    }

    /// Returns how many writes have failed.
    pub fn faults(&self) -> u64
        ensures { result ≡ self.now.faults }
    {
        self.faults
    }
}

/// Returns how much a call takes of so many bytes, where 0 is no bound.
fn bounded(len: usize, piece: usize) -> usize
    ensures { result ≡ piece_len len piece }
{
    if piece == 0 { len } else { len.min(piece) }
}

impl Sink for FailingSink {
    ghost taken = { λ s. Some s.bytes };

    ghost faults = { λ s. s.faults };

    fn write(&mut self, piece: &[u8]) -> Result<usize, SinkFailed>
        ensures bound { IfOk result (λ n. n ≤ length piece.now) }
        ensures progress { IfOk result (λ n. 0 < length piece.now → 0 < n) }
        ensures bytes { WriteAppends (Some self.old.bytes) (Some self.new.bytes) result piece.now }
        ensures cause { HasCause self.old.faults self.new.faults result }

        // The call's number, what it takes, and when it fails.
        ensures numbered { self.new.calls ≡ next_count self.old.calls }
        ensures whole { IfOk result (λ n. n ≡ piece_len (length piece.now) self.old.piece) }
        ensures unlisted { OnOk result (Contains self.old.fail_at self.new.calls → ⊥) }
        ensures within { OnOk result (piece_len (length piece.now) self.old.piece ≤ self.old.room) }
        ensures failed { OnErr result
            (Contains self.old.fail_at self.new.calls
            ⊎ (self.old.room < piece_len (length piece.now) self.old.piece)) }
        ensures counted { Counts self.old.faults self.new.faults result }
        ensures spent { OnOk result
            (self.old.room ≤ self.new.room + piece_len (length piece.now) self.old.piece) }
        ensures kept { OnErr result (self.new.room ≡ self.old.room) }
        ensures rules { (self.new.piece ≡ self.old.piece) × (self.new.fail_at ≡ self.old.fail_at) }
    {
        self.calls = self.calls.saturating_add(1);
        if self.fail_at.contains(&self.calls) {
            self.faults = self.faults.saturating_add(1);
            return Err(SinkFailed);
        }
        let count = bounded(piece.len(), self.piece);
        let room = self.bytes.capacity() - self.bytes.len();
        if count > room || self.bytes.extend_from_slice(&piece[..count]).is_err() {
            self.faults = self.faults.saturating_add(1);
            return Err(SinkFailed);
        }
        Ok(count)
    }
}
