//! Trace events that are handed on one by one, to a target that takes them all and to one that
//! fails.

use crate::logs::log;
use rec_codec::LineIter;
use rec_events::{RecordingSpec, TestEventSummary, Version};
use rec_trace::{ChromeTraceGroupBy, TraceBuildError, TraceBuilder, TraceEvent, VecTarget};
use std::alloc::{AllocError, Global};
use std::process::Abort;
use std::test::Fail;

/// Names what became of an event.
fn outcome(answer: &Result<(), TraceBuildError>) -> &'static str {
    match answer {
        Ok(()) => "taken, ",
        Err(TraceBuildError::Failed) => "failed, ",
        Err(TraceBuildError::Refused(_)) => "refused, ",
        Err(TraceBuildError::TargetFault) => "target fault, ",
        Err(TraceBuildError::OutOfMemory) => "out of memory, ",
    }
}

/// Names what becomes of an event, which is let go here and by a call.
fn processed(
    builder: &mut TraceBuilder<'_, VecTarget>,
    event: TestEventSummary<RecordingSpec>,
) -> &'static str {
    let result = builder.process_event(&event);
    drop(event);
    let name = outcome(&result);
    drop(result);
    name
}

/// Hands the events of a log to the builder, and names what becomes of each,
/// and in which state the builder is then.
fn handed(
    alloc: Global,
    builder: &mut TraceBuilder<'_, VecTarget>,
    log: &str,
) -> Result<String, AllocError> {
    let mut text = String::new(alloc);
    for event in LineIter::<RecordingSpec>::new(alloc, log.as_bytes(), 1) {
        let name = match event {
            Ok(event) => processed(builder, event),
            Err(_) => "no event, ",
        };
        text.push_str(name)?;
    }
    let state = if builder.is_failed() {
        "failed"
    } else {
        "sound"
    };
    let held = builder.held();
    format!(in alloc; "{text}{state}, holding {held}")
}

/// What a builder ends with.
fn ending(alloc: Global, builder: TraceBuilder<'_, VecTarget>) -> Result<String, AllocError> {
    let other = builder.finish(alloc)?;
    let text = other.to_string(alloc);
    drop(other);
    text
}

/// What becomes of the events of a log, and what the builder ends with.
fn traced(
    alloc: Global,
    version: &Version,
    target: &mut VecTarget,
    log: &str,
) -> Result<String, AllocError> {
    let mut builder = TraceBuilder::new(alloc, version, ChromeTraceGroupBy::Binary, target)?;
    let handed = handed(alloc, &mut builder, log);
    let ending = ending(alloc, builder)?;
    let handed = handed?;
    format!(in alloc; "{handed}, with {ending}")
}

/// The text after another one, or the empty one.
fn text_after<'a>(text: &'a str, before: &str) -> &'a str {
    match text.split_once(before) {
        Some((_, after)) => after,
        None => "",
    }
}

/// The phases of trace events, each of which stands in quotes.
fn phases(alloc: Global, events: &[TraceEvent]) -> Result<String, AllocError> {
    let mut text = String::new(alloc);
    for event in events {
        let phase = text_after(event.as_str(), "\"ph\":\"");
        text.push_str(phase.get(..1).unwrap_or("?"))?;
    }
    Ok(text)
}

/// What becomes of the events of a log, where the target fails at the call of this number,
/// and the phases of what it took.
fn taken(alloc: Global, log: &str, failed: u64) -> Result<String, Fail> {
    let version = Version::parse(alloc, "0.9.111")?;
    let mut target = VecTarget::new(alloc, vec![in alloc; failed]?);
    let traced = traced(alloc, &version, &mut target, log);
    drop(version);
    let phases = phases(alloc, target.events());
    drop(target);
    let traced = traced?;
    let phases = phases?;
    Ok(format!(in alloc; "{traced}; {phases}")?)
}

/// Asserts what becomes of the events of so many first lines,
/// where the target fails at the call of this number.
fn check(
    rt: &impl Abort,
    alloc: Global,
    lines: &str,
    failed: u64,
    rows: &[(usize, &'static str)],
) -> Result<(), Fail> {
    for (count, expected) in rows {
        let log = log(alloc, lines, *count, "")?;
        let got = taken(alloc, log.as_str(), failed)?;
        assert!(rt; got.as_str() == *expected, "{got}");
    }
    Ok(())
}

/// A test that starts, is interrupted by a pause, and ends.
fn interrupted_test() -> &'static str {
    concat!(
        r#"taken 1000 "test-instance":{"binary-id":"alpha::a","test-name":"t1"},"running":1,"#,
        r#""kind":"test-started","slot-assignment":{"global-slot":0,"test-group":"@global"},"#,
        r#""current-stats":$stats$,"command-line":[]"#,
        "\n",
        r#"taken 1001 "kind":"run-paused","setup-scripts-running":0,"running":1"#,
        "\n",
        r#"taken 1002 "kind":"run-continued","setup-scripts-running":0,"running":1"#,
        "\n",
        r#"taken 1003 "test-instance":{"binary-id":"alpha::a","test-name":"t1"},"running":0,"#,
        r#"$passed$,"current-stats":$stats$"#,
        "\n"
    )
}

/// A test that starts, another one that starts on its slot, and the end of the first.
fn busy_slot() -> &'static str {
    concat!(
        r#"taken 1000 "test-instance":{"binary-id":"alpha::a","test-name":"t1"},"running":1,"#,
        r#""kind":"test-started","slot-assignment":{"global-slot":0,"test-group":"@global"},"#,
        r#""current-stats":$stats$,"command-line":[]"#,
        "\n",
        r#"refused 1001 "test-instance":{"binary-id":"alpha::a","test-name":"t2"},"running":2,"#,
        r#""kind":"test-started","slot-assignment":{"global-slot":0,"test-group":"@global"},"#,
        r#""current-stats":$stats$,"command-line":[]"#,
        "\n",
        r#"taken 1002 "test-instance":{"binary-id":"alpha::a","test-name":"t1"},"running":1,"#,
        r#"$passed$,"current-stats":$stats$"#,
        "\n"
    )
}

#[test]
fn each_trace_event_is_handed_on_at_once(rt: HostRuntime) -> Result<(), Fail> {
    check(
        &rt,
        rt.alloc(),
        interrupted_test(),
        0,
        &[
            (
                1,
                "taken, sound, holding 4, with {\"nextest_version\":\"0.9.111\"}; MMMMBC",
            ),
            (
                2,
                concat!(
                    "taken, taken, sound, holding 6,",
                    r#" with {"nextest_version":"0.9.111"}; MMMMBCCEMMMMi"#
                ),
            ),
            (
                3,
                concat!(
                    "taken, taken, taken, sound, holding 6,",
                    r#" with {"nextest_version":"0.9.111"}; MMMMBCCEMMMMiCiB"#
                ),
            ),
            (
                4,
                concat!(
                    "taken, taken, taken, taken, sound, holding 5,",
                    r#" with {"nextest_version":"0.9.111"}; MMMMBCCEMMMMiCiBECC"#
                ),
            ),
        ],
    )
}

#[test]
fn a_target_that_fails_ends_the_trace(rt: HostRuntime) -> Result<(), Fail> {
    check(
        &rt,
        rt.alloc(),
        interrupted_test(),
        3,
        &[(
            4,
            concat!(
                "target fault, failed, failed, failed, failed, holding 0,",
                r#" with {"nextest_version":"0.9.111"}; MM"#
            ),
        )],
    )
}

#[test]
fn a_refused_event_is_not_handed_on(rt: HostRuntime) -> Result<(), Fail> {
    check(
        &rt,
        rt.alloc(),
        busy_slot(),
        0,
        &[(
            3,
            concat!(
                "taken, refused, taken, sound, holding 3,",
                r#" with {"nextest_version":"0.9.111"}; MMMMBCECC"#
            ),
        )],
    )
}
