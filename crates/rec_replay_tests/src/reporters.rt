//! Reporters of live events, behind others, and where the sink fails.

use rec_container::{GrowingSink, Sink};
use rec_events::{Duration, NextestRunMode, Stamp, TestEvent, TestEventKind};
use rec_memory_streams::FailingSink;
use rec_replay::{
    EventReporter, LineReporter, LoadOutput, OutputLoadDecider, ReplayReporterBuilder,
    WriteEventError, write_event_dyn,
};
use std::alloc::Global;
use std::test::Fail;

/// The event of this kind, at second 1002.
fn event(kind: TestEventKind<'static>) -> TestEvent<'static> {
    TestEvent {
        timestamp: Stamp {
            secs: 1002,
            nanos: 0,
            offset: 0,
        },
        elapsed: Duration { secs: 2, nanos: 0 },
        kind,
    }
}

fn paused() -> TestEvent<'static> {
    event(TestEventKind::RunPaused {
        setup_scripts_running: 0,
        running: 1,
    })
}

/// Replays an event to a reporter.
fn replay<R: EventReporter>(
    reporter: &mut R,
    event: TestEvent<'static>,
) -> Result<(), WriteEventError> {
    let mut builder = ReplayReporterBuilder::new();
    builder.set_verbose(true).set_no_output_indent(true);
    let mut replay = builder.build(NextestRunMode::Test, 1, reporter);
    let written = replay.write_event(&event);
    drop(event);
    replay.finish();
    written
}

/// Hands an event to a reporter of any type.
fn write(
    reporter: &mut dyn EventReporter,
    event: TestEvent<'static>,
) -> Result<(), WriteEventError> {
    let written = write_event_dyn(reporter, &event);
    drop(event);
    written
}

/// What comes of a pause that is replayed to a reporter of lines over this sink,
/// and whether the reporter loads outputs.
fn replay_lines<K: Sink>(
    alloc: Global,
    sink: &mut K,
    decider: OutputLoadDecider,
) -> (Result<(), WriteEventError>, LoadOutput) {
    let mut lines = LineReporter::new(alloc, sink, decider);
    let written = replay(&mut lines, paused());
    let loads = lines.decider().should_load_output();
    drop(lines);
    (written, loads)
}

/// Hands an event to a reporter of lines of any type over this sink.
fn write_line(
    alloc: Global,
    sink: &mut GrowingSink,
    event: TestEvent<'static>,
) -> Result<(), WriteEventError> {
    let mut lines = LineReporter::new(alloc, sink, OutputLoadDecider::Always);
    let written = write(&mut lines, event);
    drop(lines);
    written
}

/// A kind of event that only informs.
fn informing(number: u64) -> TestEventKind<'static> {
    match number {
        0 => TestEventKind::InfoStarted,
        1 => TestEventKind::InfoResponse,
        2 => TestEventKind::InfoFinished,
        3 => TestEventKind::InputEnter,
        _ => TestEventKind::RunBeginKill,
    }
}

/// Events that only inform have no line.
#[test]
fn events_are_passed_on(rt: HostRuntime) -> Result<(), Fail> {
    let alloc = rt.alloc();
    let mut sink = GrowingSink::new(alloc);
    let replayed = replay_lines(alloc, &mut sink, OutputLoadDecider::Always);
    assert!(rt; replayed == (Ok(()), LoadOutput::Load));
    for number in 0..5 {
        write_line(alloc, &mut sink, event(informing(number)))?;
    }
    write_line(alloc, &mut sink, paused())?;
    assert!(rt;
        sink.bytes() == b"1002.000000000 run-paused\n1002.000000000 run-paused\n".as_slice()
    );
    Ok(())
}

#[test]
fn faults_are_passed_on(rt: HostRuntime) -> Result<(), Fail> {
    let alloc = rt.alloc();
    let mut sink = FailingSink::new(alloc, 10, vec![in alloc; 2]?);
    sink.reserve(100)?;
    let replayed = replay_lines(alloc, &mut sink, OutputLoadDecider::Never);
    assert!(rt; replayed == (Err(WriteEventError::SinkFault), LoadOutput::Skip));
    assert!(rt; sink.bytes() == b"1002.00000".as_slice());
    Ok(())
}
