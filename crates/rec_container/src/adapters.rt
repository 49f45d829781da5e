//! Real readers, writers and files. Their bytes are unknown, since no contract can say what such a
//! thing holds. Each error counts as a fault, and so does a write that takes nothing of a piece.
ghost use Rattle.std.specs.Io.KnownBytes.{Appends, ReadConsumes, WriteAppends};
ghost use Rattle.std.specs.Io.{ReadsAtMost};
ghost use Rattle.std.specs.Prelude.{◌≡◌, ◌≤◌, ◌<◌, length, take, IfOk, IfSome, OnOk, None};
ghost use Rattle.rec_container.specs.Causes.{Counts, HasCause};

use crate::streams::{Sink, SinkFailed, Source, SourceFailed};
use std::fs;
use std::io::{Read, Write};
use std::rt::Files;

/// Gives what a reader gives. Each error of the reader is a fault.
#[derive(Drop)]
pub struct StdSource<R> {
    reader: R,
    faults: u64,
}

impl<R: Read> StdSource<R> {
    /// Makes a source over the reader, without faults so far.
    pub fn new(reader: R) -> StdSource<R>
        ensures { ⟦<StdSource<R> as Source>⟧.faults result ≡ 0 }
    {
        StdSource { reader, faults: 0 }
    }
}

impl<R: Read> Source for StdSource<R> {
    ghost left = { λ _. None };

    ghost faults = { λ s. s.faults };

    fn read(&mut self, buf: &mut [u8]) -> Result<usize, SourceFailed>
        ensures bound { ReadsAtMost result buf.new }
        ensures bytes { ReadConsumes None None result buf.new }
        ensures cause { HasCause self.old.faults self.new.faults result }
        ensures faultless { OnOk result (self.new.faults ≡ self.old.faults) }

        // It gives what the reader gives, where that is known.
        ensures given { ReadConsumes (R.remaining self.old.reader) (R.remaining self.new.reader)
            result buf.new }
        ensures counted { Counts self.old.faults self.new.faults result }
    {
        match self.reader.read(buf) {
            Ok(count) => Ok(count),
            Err(_) => {
                self.faults = self.faults.saturating_add(1);
                Err(SourceFailed)
            }
        }
    }
}

/// Writes to a writer what it takes. Each write is flushed. An error of either is a fault, and so
/// is a write that takes nothing of a piece.
///
/// After a fault the outside may hold bytes of the piece all the same: a write counts as failed
/// where only its flush failed.
#[derive(Drop)]
pub struct StdSink<W> {
    writer: W,
    faults: u64,
}

impl<W: Write> StdSink<W> {
    /// Makes a sink over the writer, without faults so far.
    pub fn new(writer: W) -> StdSink<W>
        ensures { ⟦<StdSink<W> as Sink>⟧.faults result ≡ 0 }
    {
        StdSink { writer, faults: 0 }
    }
}

/// Writes the first bytes of a piece, flushes, and returns how many: at least one, unless the piece
/// is empty. `None` where the write or the flush failed,
/// or where the write took nothing of a piece.
pub fn write_flushed<W: Write>(writer: &mut W, piece: &[u8]) -> Option<usize>
    ensures bound { IfSome result (λ n. n ≤ length piece.now) }
    ensures progress { IfSome result (λ n. 0 < length piece.now → 0 < n) }
    ensures passed { IfSome result
        (λ n. Appends (W.contents writer.old) (W.contents writer.new) (take n piece.now)) }
{
    match writer.write(piece) {
        Ok(count) if count > 0 || piece.is_empty() => match writer.flush() {
            Ok(()) => Some(count),
            Err(_) => None,
        },
        _ => None,
    }
}

impl<W: Write> Sink for StdSink<W> {
    ghost taken = { λ _. None };

    ghost faults = { λ s. s.faults };

    fn write(&mut self, piece: &[u8]) -> Result<usize, SinkFailed>
        ensures bound { IfOk result (λ n. n ≤ length piece.now) }
        ensures progress { IfOk result (λ n. 0 < length piece.now → 0 < n) }
        ensures bytes { WriteAppends None None result piece.now }
        ensures cause { HasCause self.old.faults self.new.faults result }

        // The writer took what it answers, where that is known.
        ensures passed { IfOk result
            (λ n. Appends (W.contents self.old.writer) (W.contents self.new.writer)
            (take n piece.now)) }
        ensures counted { Counts self.old.faults self.new.faults result }
    {
        match write_flushed(&mut self.writer, piece) {
            Some(count) => Ok(count),
            None => {
                self.faults = self.faults.saturating_add(1);
                Err(SinkFailed)
            }
        }
    }
}

/// Writes to a file what it takes, with faults as [`StdSink`] has them.
///
/// The first write creates the file, or empties the one that is there. Where that fails, the write
/// is a fault, and the next write tries again.
///
/// After a fault the outside may hold bytes of the piece all the same: a write counts as failed
/// where only its flush failed.
#[derive(Drop)]
pub struct FileSink<'r, R: Files> {
    rt: &'r R,
    path: String,
    file: Option<R::File>,
    faults: u64,
}

impl<'r, R: Files> FileSink<'r, R> {
    /// Makes a sink into the file at `path`, which isn't touched yet, without faults so far.
    pub fn new(rt: &'r R, path: String) -> FileSink<'r, R>
        ensures { ⟦<FileSink<'r, R> as Sink>⟧.faults result ≡ 0 }
    {
        FileSink {
            rt,
            path,
            file: None,
            faults: 0,
        }
    }

    /// Writes as `write_flushed` does, to the file,
    /// which it creates first where that isn't done yet.
    fn write_some(&mut self, piece: &[u8]) -> Option<usize>
        ensures bound { IfSome result (λ n. n ≤ length piece.now) }
        ensures progress { IfSome result (λ n. 0 < length piece.now → 0 < n) }
        ensures faults { self.new.faults ≡ self.old.faults }
    {
        if self.file.is_none() {
            self.file = fs::create(self.rt, self.path.as_str()).ok();
        }
        match &mut self.file {
            None => None,
            Some(file) => write_flushed(file, piece),
        }
    }
}

impl<R: Files> Sink for FileSink<'_, R> {
    ghost taken = { λ _. None };

    ghost faults = { λ s. s.faults };

    fn write(&mut self, piece: &[u8]) -> Result<usize, SinkFailed>
        ensures bound { IfOk result (λ n. n ≤ length piece.now) }
        ensures progress { IfOk result (λ n. 0 < length piece.now → 0 < n) }
        ensures bytes { WriteAppends None None result piece.now }
        ensures cause { HasCause self.old.faults self.new.faults result }
        ensures counted { Counts self.old.faults self.new.faults result }
    {
        match self.write_some(piece) {
            Some(count) => Ok(count),
            None => {
                self.faults = self.faults.saturating_add(1);
                Err(SinkFailed)
            }
        }
    }
}
