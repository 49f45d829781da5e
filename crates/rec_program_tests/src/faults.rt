//! Faults of the source and of the sinks, at each of their calls.

use crate::running::Stream::{self, Bundle, Diag, Out, Source};
use crate::running::outcome;
use crate::texts::{head, manifest, run_paused, run_started, session_of};
use rec_container::GrowingSink;
use rec_store::write_bundle;
use std::alloc::{AllocError, Global};
use std::process::Abort;
use std::test::Fail;

/// The words, the most bytes of a call of a stream, the call that fails, and what comes of it: the
/// status, how many bytes the bundle and standard output took, and the line.
type Row = (&'static str, usize, Stream, u64, &'static str);

/// Asserts what comes of each row over these bytes.
fn check(rt: &impl Abort, alloc: Global, bytes: &[u8], rows: &[Row]) -> Result<(), Fail> {
    for (text, piece, stream, call, expected) in rows {
        let got = outcome(alloc, text, bytes, *piece, *stream, *call)?;
        assert!(rt; got.as_str() == *expected, "{text}, call {call}: {got}");
    }
    Ok(())
}

/// The same over the session of this line.
fn check_session(rt: &impl Abort, alloc: Global, line: &str, rows: &[Row]) -> Result<(), Fail> {
    let session = session_of(alloc, line)?;
    check(rt, alloc, session.as_str().as_bytes(), rows)
}

/// The same over a bundle of a manifest and empty parts, 537 bytes.
fn check_bundle(rt: &impl Abort, alloc: Global, rows: &[Row]) -> Result<(), Fail> {
    let mut sink = GrowingSink::new(alloc);
    let written = write_bundle(&mut sink, manifest().as_bytes(), b"", b"");
    if written.is_err() {
        drop(sink);
        return Err(AllocError.into());
    }
    check(rt, alloc, sink.bytes(), rows)
}

#[test]
fn single_bytes_change_nothing(rt: HostRuntime) -> Result<(), Fail> {
    check_session(
        &rt,
        rt.alloc(),
        run_paused(),
        &[("record b", 1, Source, 0, "0 1194 701 ")],
    )
}

#[test]
fn faults_of_sources(rt: HostRuntime) -> Result<(), Fail> {
    // Each read of a session fails in turn, that of its end too. A made session is not read.
    check(
        &rt,
        rt.alloc(),
        head().as_bytes(),
        &[
            ("record b", 100, Source, 1, "3 0 0 SourceFault\n"),
            ("record b", 100, Source, 2, "3 0 0 SourceFault\n"),
            ("record b", 100, Source, 3, "3 0 0 SourceFault\n"),
            ("record b", 100, Source, 4, "3 0 0 SourceFault\n"),
            ("record b", 100, Source, 5, "3 0 0 SourceFault\n"),
            ("sample 0 b", 100, Source, 1, "0 1877 19 "),
        ],
    )?;
    // And so does each read of a bundle.
    check_bundle(
        &rt,
        rt.alloc(),
        &[
            ("info", 200, Source, 1, "3 0 0 SourceFault\n"),
            ("info", 200, Source, 2, "3 0 0 SourceFault\n"),
            ("info", 200, Source, 3, "3 0 0 SourceFault\n"),
            ("info", 200, Source, 4, "3 0 0 SourceFault\n"),
            ("trace", 200, Source, 1, "3 0 0 SourceFault\n"),
            ("trace", 200, Source, 2, "3 0 0 SourceFault\n"),
            ("trace", 200, Source, 3, "3 0 0 SourceFault\n"),
            ("trace", 200, Source, 4, "3 0 0 SourceFault\n"),
        ],
    )
}

/// How many bytes of a bundle of 1052 bytes each of its writes finds taken, where a write takes at
/// most 100 bytes: the magic; tag and length of the name, name, length and content of the manifest
/// (462 bytes) and of the empty log; those of the store without its content; then the store's own
/// magic, the same of its entries (343, 13, 2 and 19 bytes) and its end mark;
/// and the end mark of the bundle.
fn taken() -> &'static str {
    "0 8 11 24 32 132 232 332 432 494 497 508 516 519 528 536 544 547 568 576 676 776 876 919 \
    922 941 949 962 965 989 997 999 1002 1023 1031 1050 1051"
}

#[test]
fn faults_of_the_bundle_leave_no_trace(rt: HostRuntime) -> Result<(), Fail> {
    let alloc = rt.alloc();
    // Each write of the bundle fails in turn.
    let mut call: u64 = 0;
    for taken in taken().split(' ') {
        call = call.saturating_add(1);
        let got = outcome(alloc, "record b", head().as_bytes(), 100, Bundle, call)?;
        let expected = format!(in alloc; "10 {taken} 0 BundleFault\n")?;
        assert!(rt; got.as_str() == expected.as_str(), "{got}");
    }
    // So do the first of a made session: the magic, tag and length of the name, the name, the
    // length of the content, and its first bytes.
    check(
        &rt,
        alloc,
        b"",
        &[
            ("sample 0 b", 100, Bundle, 1, "10 0 0 BundleFault\n"),
            ("sample 0 b", 100, Bundle, 2, "10 8 0 BundleFault\n"),
            ("sample 0 b", 100, Bundle, 3, "10 11 0 BundleFault\n"),
            ("sample 0 b", 100, Bundle, 4, "10 24 0 BundleFault\n"),
            ("sample 0 b", 100, Bundle, 5, "10 32 0 BundleFault\n"),
            ("sample 0 b", 100, Bundle, 6, "10 132 0 BundleFault\n"),
        ],
    )
}

#[test]
fn faults_of_the_trace_leave_the_bundle_whole(rt: HostRuntime) -> Result<(), Fail> {
    let alloc = rt.alloc();
    // The trace of a head alone has 83 bytes.
    check(
        &rt,
        alloc,
        head().as_bytes(),
        &[
            ("record b", 10, Out, 1, "11 1052 0 TraceFault\n"),
            ("record b", 10, Out, 2, "11 1052 10 TraceFault\n"),
            ("record b", 10, Out, 9, "11 1052 80 TraceFault\n"),
            ("record b", 10, Out, 10, "0 1052 83 "),
        ],
    )?;
    // The manifest of a run that starts has 466 bytes.
    check_session(
        &rt,
        alloc,
        run_started(),
        &[("record b", 100, Out, 2, "11 1244 100 TraceFault\n")],
    )
}

#[test]
fn faults_of_standard_output(rt: HostRuntime) -> Result<(), Fail> {
    let alloc = rt.alloc();
    check_bundle(
        &rt,
        alloc,
        &[
            ("info", 60, Out, 1, "11 0 0 SinkFailed\n"),
            ("info", 60, Out, 8, "11 0 420 SinkFailed\n"),
            ("info", 60, Out, 9, "0 0 463 "),
            ("trace", 60, Out, 1, "11 0 0 SinkFailed\n"),
            ("trace", 60, Out, 2, "11 0 60 SinkFailed\n"),
            ("trace", 60, Out, 3, "0 0 83 "),
        ],
    )?;
    check(
        &rt,
        alloc,
        b"",
        &[
            ("sample 0 b", 10, Out, 1, "11 1877 0 SinkFailed\n"),
            ("sample 0 b", 10, Out, 2, "11 1877 10 SinkFailed\n"),
            ("--help", 10, Out, 1, "11 0 0 SinkFailed\n"),
            ("--help", 10, Out, 4, "11 0 30 SinkFailed\n"),
        ],
    )
}

/// Faults of `diag` change no status.
#[test]
fn faults_of_other_sinks(rt: HostRuntime) -> Result<(), Fail> {
    check(
        &rt,
        rt.alloc(),
        b"",
        &[
            ("record b --output", 4, Diag, 4, "2 0 0 UnknownOptio"),
            ("record b --output", 4, Diag, 6, "2 0 0 UnknownOption at="),
            ("record b --output", 4, Diag, 7, "2 0 0 UnknownOption at=2"),
            ("recor", 0, Diag, 1, "2 0 0 "),
        ],
    )
}
