//! What errors and spans say, which errors become others, and settings as values.

use rec_codec::LineError;
use rec_events::{OwnedTestInstanceId, RustBinaryId, ScriptId, TestCaseName};
use rec_trace::{
    ChromeTraceError, ChromeTraceGroupBy, ChromeTraceMessageFormat, SpanKey, TargetFailed,
    TraceBuildError,
};
use std::alloc::{AllocError, Global};
use std::error::Error;
use std::fmt;
use std::process::Abort;
use std::test::Fail;

/// Asserts that an error has this text, for its reader and for a developer.
fn check_message<E: Error + Drop>(
    rt: &impl Abort,
    alloc: Global,
    error: E,
    message: &str,
) -> Result<(), Fail> {
    let got = format!(in alloc; "{error}, {error:?}");
    drop(error);
    let got = got?;
    let want = format!(in alloc; "{message}, {message}")?;
    assert!(rt; got.as_str() == want.as_str(), "{got}");
    Ok(())
}

fn test(alloc: Global) -> Result<OwnedTestInstanceId, AllocError> {
    Ok(OwnedTestInstanceId {
        binary_id: RustBinaryId::new(String::from_str(alloc, "alpha::a")?),
        test_name: TestCaseName::new(String::from_str(alloc, "t1")?),
    })
}

#[test]
fn errors_of_what_is_not_running(rt: HostRuntime) -> Result<(), Fail> {
    let alloc = rt.alloc();
    let test = test(alloc)?;
    let error = ChromeTraceError::MissingTestStart {
        event: 1,
        binary_id: test.binary_id,
        test_name: test.test_name,
    };
    let message = "event 1 is of alpha::a t1, which isn't running";
    check_message(&rt, alloc, error, message)?;
    let error = ChromeTraceError::MissingScriptStart {
        event: 1,
        script_id: ScriptId::new(String::from_str(alloc, "db1")?),
    };
    let message = "event 1 is of setup script db1, which isn't running";
    check_message(&rt, alloc, error, message)?;
    let error = ChromeTraceError::MissingStressSubRunStart { event: 1 };
    let message = "event 1 ends a sub-run, and none is running";
    check_message(&rt, alloc, error, message)
}

#[test]
fn errors_of_what_is_running(rt: HostRuntime) -> Result<(), Fail> {
    let alloc = rt.alloc();
    let error = ChromeTraceError::SpanAlreadyOpen {
        event: 2,
        span: SpanKey::Run,
    };
    let message = "event 2 starts the run, which is running already";
    check_message(&rt, alloc, error, message)?;
    let error = ChromeTraceError::SpanAlreadyOpen {
        event: 2,
        span: SpanKey::Test(test(alloc)?),
    };
    let message = "event 2 starts alpha::a t1, which is running already";
    check_message(&rt, alloc, error, message)?;
    let error = ChromeTraceError::SlotBusy { event: 2, slot: 0 };
    let message = "event 2 starts on slot 0, on which another is running";
    check_message(&rt, alloc, error, message)
}

#[test]
fn errors_of_a_line(rt: HostRuntime) -> Result<(), Fail> {
    let alloc = rt.alloc();
    let error = ChromeTraceError::from(LineError::ParseEvent { line_number: 1 });
    let message = "the events can't be read: line 1 isn't an event";
    check_message(&rt, alloc, error, message)?;
    let error = ChromeTraceError::from(LineError::OutOfMemory);
    check_message(&rt, alloc, error, "out of memory")
}

#[test]
fn errors_of_a_builder(rt: HostRuntime) -> Result<(), Fail> {
    let alloc = rt.alloc();
    let error = TraceBuildError::Failed;
    check_message(&rt, alloc, error, "an earlier event was not taken")?;
    let busy = ChromeTraceError::SlotBusy { event: 2, slot: 0 };
    let message = "event 2 starts on slot 0, on which another is running";
    check_message(&rt, alloc, TraceBuildError::Refused(busy), message)?;
    let error = TraceBuildError::TargetFault;
    check_message(&rt, alloc, error, "the event was not taken")?;
    check_message(&rt, alloc, TraceBuildError::OutOfMemory, "memory ran out")
}

#[test]
fn an_error_of_a_target(rt: HostRuntime) -> Result<(), Fail> {
    let text = format!(in rt.alloc(); "{}", TargetFailed)?;
    assert!(rt; text.as_str() == "the target failed");
    Ok(())
}

#[test]
fn spans_without_a_test(rt: HostRuntime) -> Result<(), Fail> {
    let sub_run = SpanKey::SubRun;
    let script = SpanKey::Script(3);
    let texts = format!(in rt.alloc(); "{sub_run}, {script}");
    drop(script);
    drop(sub_run);
    assert!(rt; texts?.as_str() == "the sub-run, setup script 3");
    Ok(())
}

/// A copy equals the value, and the value prints for a developer.
fn is_plain<T: Copy + Clone + PartialEq + Eq + fmt::Debug>(
    alloc: Global,
    value: T,
) -> Result<bool, AllocError> {
    let copy = value;
    let text = format!(in alloc; "{copy:?}")?;
    Ok(copy == value && !text.is_empty())
}

#[test]
fn settings_are_plain_values(rt: HostRuntime) -> Result<(), Fail> {
    let alloc = rt.alloc();
    assert!(rt; is_plain(alloc, ChromeTraceGroupBy::Binary)?);
    assert!(rt; is_plain(alloc, ChromeTraceMessageFormat::Json)?);
    assert!(rt; is_plain(alloc, ChromeTraceMessageFormat::JsonPretty)?);
    Ok(())
}
