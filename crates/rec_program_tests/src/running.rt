//! Runs the program over streams that fail, and shows what it did as a text.

use rec_disk::MemoryDisk;
use rec_memory_streams::{FailingSink, FailingSource};
use rec_program::{Ended, RunFiles, Streams, run_program};
use std::alloc::{AllocError, Global};
use std::str;

/// A stream of a run.
#[derive(Clone, Copy)]
pub(crate) enum Stream {
    Source,
    Bundle,
    Out,
    Diag,
}

/// Which call of each stream fails, from 1; none where it is 0.
#[derive(Clone, Copy)]
struct Faults {
    read: u64,
    bundle: u64,
    out: u64,
    diag: u64,
}

/// No call fails.
const SOUND: Faults = Faults {
    read: 0,
    bundle: 0,
    out: 0,
    diag: 0,
};

/// One call of a stream fails.
fn one_fault(stream: Stream, call: u64) -> Faults {
    match stream {
        Stream::Source => Faults {
            read: call,
            ..SOUND
        },
        Stream::Bundle => Faults {
            bundle: call,
            ..SOUND
        },
        Stream::Out => Faults { out: call, ..SOUND },
        Stream::Diag => Faults {
            diag: call,
            ..SOUND
        },
    }
}

/// What the sinks of a run took.
#[derive(Drop)]
struct Sinks {
    bundle: FailingSink,
    out: FailingSink,
    diag: FailingSink,
}

/// A sink with room, which takes at most `piece` bytes a call, and of which a call fails.
fn sink(alloc: Global, piece: usize, fail_at: u64) -> Result<FailingSink, AllocError> {
    let mut sink = FailingSink::new(alloc, piece, vec![in alloc; fail_at]?);
    if sink.reserve(65536).is_ok() {
        Ok(sink)
    } else {
        drop(sink);
        Err(AllocError)
    }
}

/// The sinks of a run.
fn failing_sinks(alloc: Global, piece: usize, faults: Faults) -> Result<Sinks, AllocError> {
    let bundle = sink(alloc, piece, faults.bundle)?;
    let out = sink(alloc, piece, faults.out)?;
    let diag = sink(alloc, piece, faults.diag)?;
    Ok(Sinks { bundle, out, diag })
}

/// The words of a text, with a blank between each two.
fn words_in(alloc: Global, text: &str) -> Result<Vec<String>, AllocError> {
    let mut words = Vec::new(alloc);
    for word in text.split(' ') {
        words.push(String::from_str(alloc, word)?)?;
    }
    Ok(words)
}

/// A sink of which no call fails.
fn sound_sink(alloc: Global) -> FailingSink {
    FailingSink::new(alloc, 0, Vec::new(alloc))
}

/// Runs the program over these bytes in such pieces, of which a read fails, and returns the status.
fn run(
    alloc: Global,
    words: &[String],
    bytes: &[u8],
    piece: usize,
    failed_read: u64,
    sinks: Sinks,
) -> (u8, Sinks) {
    let fail_at = [failed_read];
    let Sinks { bundle, out, diag } = sinks;
    let streams = Streams {
        source: FailingSource::new(bytes, piece, &fail_at),
        bundle,
        files: RunFiles {
            manifest: sound_sink(alloc),
            store: sound_sink(alloc),
            log: sound_sink(alloc),
        },
        disk: MemoryDisk::new(alloc, Vec::new(alloc)),
        out,
        diag,
    };
    let Ended { status, streams } = run_program(alloc, words, streams);
    let Streams {
        bundle,
        out,
        diag,
        ..
    } = streams;
    (status, Sinks { bundle, out, diag })
}

/// The status, how many bytes the bundle and standard output took, and the line. Each took the
/// first bytes of those that it takes where no call fails.
fn shown(alloc: Global, status: u8, sinks: &Sinks, sound: &Sinks) -> Result<String, AllocError> {
    let bundle = sinks.bundle.bytes();
    let out = sinks.out.bytes();
    let is_prefix = sound.bundle.bytes().starts_with(bundle) && sound.out.bytes().starts_with(out);
    let others = if is_prefix { "" } else { " of others" };
    let bundle = bundle.len();
    let out = out.len();
    let line = str::from_utf8(sinks.diag.bytes()).unwrap_or("no text");
    format!(in alloc; "{status} {bundle} {out}{others} {line}")
}

/// What comes of the words of a text over these bytes, where a call of a stream takes at most
/// `piece` bytes and the call of this number fails.
pub(crate) fn outcome(
    alloc: Global,
    text: &str,
    bytes: &[u8],
    piece: usize,
    stream: Stream,
    call: u64,
) -> Result<String, AllocError> {
    let words = words_in(alloc, text)?;
    let faults = one_fault(stream, call);
    let sound = failing_sinks(alloc, 0, SOUND)?;
    let failing = failing_sinks(alloc, piece, faults)?;
    let (_, sound) = run(alloc, &words, bytes, 0, 0, sound);
    let (status, failing) = run(alloc, &words, bytes, piece, faults.read, failing);
    let outcome = shown(alloc, status, &failing, &sound);
    drop(failing);
    drop(sound);
    outcome
}
