//! The items that an iterator over lines gives, which go on after a line with a fault.

ghost use Rattle.std.specs.Prelude.{◌+◌, ◌<◌, ◌^◌, length};

use rec_codec::{LineIter, OutputForm};
use rec_events::{LiveSpec, RecordingSpec};
use std::alloc::{AllocError, Global};
use std::test::Fail;

// Shows the items of the lines of a log.
fn shown_items<S: OutputForm>(
    alloc: Global,
    log: &[u8],
    first_line: u64,
) -> Result<String, AllocError>
    requires { first_line + length log.now < 2 ^ 64 }
{
    let mut seen = String::new(alloc);
    for item in LineIter::<S>::new(alloc, log, first_line) {
        match item.err() {
            None => seen.push_str("event;")?,
            Some(error) => seen.push_str(format!(in alloc; "{error};")?.as_str())?,
        }
    }
    Ok(seen)
}

// A log of these lines.
fn log(alloc: Global, lines: &[&[u8]]) -> Result<Vec<u8>, AllocError> {
    let mut bytes = Vec::new(alloc);
    for line in lines {
        bytes.extend_from_slice(line)?;
        bytes.push(b'\n')?;
    }
    Ok(bytes)
}

const RUN_START: &[u8] = b"{\"timestamp\":{\"secs\":1000,\"nanos\":0,\"offset\":0},\
    \"elapsed\":{\"secs\":0,\"nanos\":0},\"kind\":\"run-started\",\
    \"run-id\":\"550e8400-e29b-41d4-a716-446655440000\",\
    \"profile-name\":\"default\",\"cli-args\":[]}";

// A finished test with a captured output.
const CAPTURED: &[u8] = b"{\"current-stats\":{\"exec-failed\":0,\"failed\":0,\"failed-slow\":0,\
    \"failed-timed-out\":0,\"finished-count\":0,\"flaky\":0,\"initial-run-count\":1,\
    \"leaky\":0,\"leaky-failed\":0,\"passed\":0,\"passed-slow\":0,\
    \"passed-timed-out\":0,\"setup-scripts-exec-failed\":0,\
    \"setup-scripts-failed\":0,\"setup-scripts-finished-count\":0,\
    \"setup-scripts-initial-count\":0,\"setup-scripts-passed\":0,\
    \"setup-scripts-timed-out\":0,\"skipped\":0},\"elapsed\":{\"nanos\":0,\"secs\":3},\
    \"failure-output\":\"immediate-final\",\"junit-flaky-fail-status\":\"success\",\
    \"junit-store-failure-output\":true,\"junit-store-success-output\":false,\
    \"kind\":\"test-finished\",\"run-statuses\":{\"flaky-result\":\"fail\",\
    \"statuses\":[{\"delay-before-start\":{\"nanos\":0,\"secs\":0},\"is-slow\":true,\
    \"output\":{\"output\":{\"output\":{\"combined\":\"6f6b\"}}},\
    \"result\":{\"fail\":{\"failure\":{\"exit-code\":-1},\"leaked\":false}},\
    \"retry-data\":{\"attempt\":1,\"total-attempts\":2},\
    \"start-time\":{\"nanos\":0,\"offset\":0,\"secs\":1001},\
    \"time-taken\":{\"nanos\":5,\"secs\":2}}]},\"running\":0,\
    \"success-output\":\"never\",\"test-instance\":{\"binary-id\":\"alpha::a\",\
    \"test-name\":\"t1\"},\"timestamp\":{\"nanos\":0,\"offset\":0,\"secs\":1002}}";

const MIXED: &[&[u8]] = &[
    RUN_START,
    b" \r",
    b"",
    b"\xc2\xa0\t",
    b"\xff",
    CAPTURED,
    b"{}",
    b"",
    RUN_START,
    b" ",
];

// Whether these lines, of which the first is line 5, have these items.
fn have_items<S: OutputForm>(
    alloc: Global,
    lines: &[&[u8]],
    want: &str,
) -> Result<bool, AllocError> {
    let log = log(alloc, lines)?;
    let items = shown_items::<S>(alloc, log.as_slice(), 5);
    drop(log);
    Ok(items?.as_str() == want)
}

#[test]
fn logs_by_their_items(rt: HostRuntime) -> Result<(), Fail> {
    let alloc = rt.alloc();
    let live = "event;line 9 can't be read;event;line 11 isn't an event;event;";
    assert!(rt; have_items::<LiveSpec>(alloc, MIXED, live)?);
    let recorded =
        "event;line 9 can't be read;line 10 isn't an event;line 11 isn't an event;event;";
    assert!(rt; have_items::<RecordingSpec>(alloc, MIXED, recorded)?);
    let faulty = "line 5 isn't an event;line 6 isn't an event;";
    assert!(rt; have_items::<LiveSpec>(alloc, &[b"{", b"}"], faulty)?);
    Ok(())
}
