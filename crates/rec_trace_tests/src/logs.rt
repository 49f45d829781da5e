//! Logs, typed in short lines.

use std::alloc::{AllocError, Global};

/// The counts of a run of one test.
fn stats() -> &'static str {
    concat!(
        r#"{"exec-failed":1,"failed":0,"failed-slow":0,"failed-timed-out":0,"finished-count":0,"#,
        r#""flaky":0,"initial-run-count":1,"leaky":0,"leaky-failed":0,"passed":0,"#,
        r#""passed-slow":0,"passed-timed-out":0,"setup-scripts-exec-failed":0,"#,
        r#""setup-scripts-failed":0,"setup-scripts-finished-count":0,"#,
        r#""setup-scripts-initial-count":0,"setup-scripts-passed":0,"setup-scripts-timed-out":0,"#,
        r#""skipped":0}"#
    )
}

/// What the end of a test that passed has beside the test and counts.
fn passed() -> &'static str {
    concat!(
        r#""kind":"test-finished","success-output":"never","failure-output":"immediate","#,
        r#""junit-store-success-output":false,"junit-store-failure-output":true,"#,
        r#""junit-flaky-fail-status":"failure","#,
        r#""run-statuses":{"statuses":[{"retry-data":{"attempt":1,"total-attempts":1},"#,
        r#""output":{"output":{"output":{"split":{}}}},"result":"pass","#,
        r#""start-time":{"secs":1001,"nanos":0,"offset":0},"time-taken":{"secs":1,"nanos":0},"#,
        r#""is-slow":false,"delay-before-start":{"secs":0,"nanos":0}}],"flaky-result":"pass"}"#
    )
}

/// What an attempt that failed has beside the test and counts.
fn failed() -> &'static str {
    concat!(
        r#""kind":"test-attempt-failed-will-retry","#,
        r#""run-status":{"retry-data":{"attempt":1,"total-attempts":3},"#,
        r#""output":{"start-error":"none"},"result":"exec-fail","#,
        r#""start-time":{"secs":1001,"nanos":0,"offset":0},"time-taken":{"secs":1,"nanos":0},"#,
        r#""is-slow":false,"delay-before-start":{"secs":0,"nanos":0}},"#,
        r#""delay-before-next-attempt":{"secs":0,"nanos":0},"failure-output":"never""#
    )
}

/// The text that a name stands for; any other text stands for itself.
fn named(piece: &str) -> &str {
    if piece == "stats" {
        stats()
    } else if piece == "passed" {
        passed()
    } else if piece == "failed" {
        failed()
    } else {
        piece
    }
}

/// Adds the line of an event, of which the second, a blank and the members are typed,
/// with names between `$`.
fn push_line(text: &mut String, line: &str) -> Result<(), AllocError> {
    let (secs, members) = line.split_once(' ').unwrap_or(("0", line));
    text.push_str("{\"timestamp\":{\"secs\":")?;
    text.push_str(secs)?;
    text.push_str(",\"nanos\":0,\"offset\":0},\"elapsed\":{\"secs\":1,\"nanos\":0},")?;
    for piece in members.split('$') {
        text.push_str(named(piece))?;
    }
    text.push_str("}\n")
}

/// The log of the first lines of a text, each of which says what becomes of it before a blank.
/// Where `only` isn't empty, only lines of which that becomes are in it.
pub(crate) fn log(
    alloc: Global,
    lines: &str,
    count: usize,
    only: &str,
) -> Result<String, AllocError> {
    let mut text = String::new(alloc);
    for line in lines.lines().take(count) {
        let (becomes, line) = line.split_once(' ').unwrap_or(("", line));
        if only.is_empty() || becomes == only {
            push_line(&mut text, line)?;
        }
    }
    Ok(text)
}
