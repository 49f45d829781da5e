//! The export of a session by a caller of its own: a namer that doesn't tell outputs apart,
//! and counts.

use crate::lines::shown;
use crate::sessions::{session_of, test_lines};
use rec_container::{GrowingSink, SliceSource};
use rec_errors::RecordExportError;
use rec_export::{Settings, record_and_export};
use rec_store::ConstantNamer;
use std::alloc::{AllocError, Global};
use std::process::Abort;
use std::test::Fail;

/// What the sinks of an export took.
#[derive(Drop)]
struct Sinks {
    bundle: GrowingSink,
    trace: GrowingSink,
}

/// Exports a session whose outputs have one name,
/// and returns how many events and outputs were counted.
fn counts(
    alloc: Global,
    session: &str,
    sinks: &mut Sinks,
) -> Result<(u64, u64), RecordExportError> {
    let settings = Settings::default();
    let namer = ConstantNamer { number: 0 };
    let mut source = SliceSource::new(session.as_bytes());
    let exported = record_and_export(
        alloc,
        &settings,
        &namer,
        &mut source,
        &mut sinks.bundle,
        &mut sinks.trace,
    )?;
    Ok((exported.events, exported.outputs))
}

/// The counts, or the status and the line of the refusal.
fn answer(alloc: Global, session: &str, sinks: &mut Sinks) -> Result<String, AllocError> {
    match counts(alloc, session, sinks) {
        Ok((events, outputs)) => format!(in alloc; "{events} events, {outputs} outputs"),
        Err(error) => {
            let text = shown(alloc, &error);
            drop(error);
            text
        }
    }
}

/// The same, and whether both sinks took nothing.
fn exported(alloc: Global, session: &str) -> Result<String, AllocError> {
    let mut sinks = Sinks {
        bundle: GrowingSink::new(alloc),
        trace: GrowingSink::new(alloc),
    };
    let answer = answer(alloc, session, &mut sinks)?;
    let answer = answer.as_str();
    let bundle = sinks.bundle.bytes().is_empty();
    let trace = sinks.trace.bytes().is_empty();
    format!(in alloc; "{answer} {bundle} {trace}")
}

/// What comes of two tests, one after the other, with these outputs.
fn exported_outputs(alloc: Global, first: &str, second: &str) -> Result<String, AllocError> {
    let first = test_lines(alloc, "\"t1\"", first)?;
    let second = test_lines(alloc, "\"t2\"", second)?;
    let lines = format!(in alloc; "{first}\n{second}")?;
    let session = session_of(alloc, lines.as_str())?;
    exported(alloc, session.as_str())
}

/// Asserts what comes of two tests of which the first wrote `abc`, and the second this.
fn check(rt: &impl Abort, alloc: Global, second: &str, expected: &str) -> Result<(), Fail> {
    let got = exported_outputs(alloc, abc(), second)?;
    assert!(rt; got.as_str() == expected, "{got}");
    Ok(())
}

/// `abc` on standard output, and nothing on standard error.
fn abc() -> &'static str {
    r#"{"split":{"stdout":"616263","stderr":""}}"#
}

/// `hello` on standard output.
fn hello() -> &'static str {
    r#"{"split":{"stdout":"68656c6c6f"}}"#
}

#[test]
fn outputs_clash(rt: HostRuntime) -> Result<(), Fail> {
    let alloc = rt.alloc();
    let clash = "6 NameCollision file_name=out/0000000000000000-stdout\n true true";
    check(&rt, alloc, hello(), clash)?;
    check(&rt, alloc, abc(), "4 events, 1 outputs false false")
}
