//! A recording that is stopped at each of its writes.

use crate::made::run;
use crate::texts::{scope, session};
use rec_codec::event_from_value;
use rec_events::{LiveSpec, NextestRunMode, RecordOpts, TestEventSummary, TestListSummary};
use rec_format::RecordedBuildScope;
use rec_forms::read_text;
use rec_memory_streams::FailingSink;
use rec_salvage::salvage;
use rec_store::{RecorderEnd, RunRecorder, Sha256Namer};
use serde_json::Value;
use std::alloc::{AllocError, Global};
use std::test::Fail;

type Recorder = RunRecorder<'static, FailingSink, FailingSink, Sha256Namer>;

/// A sink that takes 100 bytes at most at each call, and of which a call fails.
fn sink(alloc: Global, fail_at: u64) -> Result<FailingSink, AllocError> {
    let mut sink = FailingSink::new(alloc, 100, vec![in alloc; fail_at]?);
    sink.reserve(16384)?;
    Ok(sink)
}

fn recorder(alloc: Global, log_fails: u64, store_fails: u64) -> Result<Recorder, AllocError> {
    let store = sink(alloc, store_fails)?;
    let log = sink(alloc, log_fails)?;
    Ok(RunRecorder::new(alloc, store, log, &Sha256Namer, 10_000))
}

/// How many of the session's events are accepted, up to the first that isn't,
/// or none where the metadata isn't.
fn accepted(alloc: Global, recorder: &mut Recorder) -> Result<Option<u64>, Fail> {
    if !takes_scope(alloc, recorder)? || !takes_metadata(alloc, recorder)? {
        return Ok(None);
    }
    let mut count = 0u64;
    for line in session().lines() {
        let event = event(alloc, line)?;
        if recorder.write_event(event).is_err() {
            break;
        }
        count = count.saturating_add(1);
    }
    Ok(Some(count))
}

fn takes_scope(alloc: Global, recorder: &mut Recorder) -> Result<bool, Fail> {
    let scope: RecordedBuildScope = read_text(alloc, scope().as_bytes())?;
    let taken = recorder.write_build_scope(&scope).is_ok();
    drop(scope);
    Ok(taken)
}

fn takes_metadata(alloc: Global, recorder: &mut Recorder) -> Result<bool, Fail> {
    let list: TestListSummary = read_text(alloc, br#"{"suites":{}}"#)?;
    let opts = RecordOpts {
        run_mode: NextestRunMode::Test,
    };
    let taken = recorder.write_meta("{}", &list, &opts).is_ok();
    drop(list);
    Ok(taken)
}

fn event(alloc: Global, text: &str) -> Result<TestEventSummary<LiveSpec>, Fail> {
    let value = Value::from_str(alloc, text)?;
    let event = event_from_value(alloc, &value);
    drop(value);
    Ok(event?)
}

/// How many events are salvaged of a log and a store, or none where the metadata isn't there.
fn salvaged(alloc: Global, log: &[u8], store: &[u8]) -> Result<Option<u64>, Fail> {
    let run = run(alloc)?;
    let salvaged = salvage(alloc, &run, log, store).ok();
    drop(run);
    Ok(salvaged.map(|salvaged| salvaged.events))
}

/// Whether as many events are salvaged of what a recorder left as it accepted.
fn gives(
    alloc: Global,
    accepted: Result<Option<u64>, Fail>,
    end: &RecorderEnd<FailingSink, FailingSink>,
) -> Result<bool, Fail> {
    let accepted = accepted?;
    Ok(salvaged(alloc, end.log.bytes(), end.store.bytes())? == accepted)
}

/// Whether all that was accepted is salvaged where these calls of the sinks fail, from 1,
/// and whether none did.
fn stop(alloc: Global, log_fails: u64, store_fails: u64) -> Result<(bool, bool), Fail> {
    let mut recorder = recorder(alloc, log_fails, store_fails)?;
    let accepted = accepted(alloc, &mut recorder);
    let whole = !recorder.is_failed();
    let end = recorder.finish();
    let same = gives(alloc, accepted, &end);
    drop(end);
    Ok((same?, whole))
}

/// The first call of a sink at which something is lost, or that doesn't come.
fn lost_at(alloc: Global, of_log: bool) -> Result<(u64, bool), Fail> {
    for call in 1..200 {
        let (same, whole) = if of_log {
            stop(alloc, call, 0)?
        } else {
            stop(alloc, 0, call)?
        };
        if !same || whole {
            return Ok((call, same));
        }
    }
    Ok((200, false))
}

#[test]
fn nothing_accepted_is_lost(rt: HostRuntime) -> Result<(), Fail> {
    let (calls, same) = lost_at(rt.alloc(), true)?;
    assert!(rt; same, "{calls}");
    assert!(rt; calls > 14, "{calls}");
    let (calls, same) = lost_at(rt.alloc(), false)?;
    assert!(rt; same, "{calls}");
    assert!(rt; calls > 6, "{calls}");
    Ok(())
}
