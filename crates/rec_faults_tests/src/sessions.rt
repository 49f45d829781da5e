//! Texts of sessions, hidden after functions, since no proof looks into them.

use std::alloc::{AllocError, Global};

/// A head with nothing in it that may be left out.
fn head() -> &'static str {
    concat!(
        r#"{"run-id":"550e8400-e29b-41d4-a716-446655440000","nextest-version":"0.9.111","#,
        r#""started-at":{"secs":1000,"nanos":0,"offset":0},"#,
        r#""last-written-at":{"secs":1011,"nanos":0,"offset":0},"#,
        r#""status":{"status":"incomplete"},"cargo-metadata":"{}","test-list":{"suites":{}},"#,
        r#""record-opts":{"run-mode":"test"},"build-scope":{"build-kind":"cargo","scope":{}}}"#
    )
}

/// The session of a line after the head.
pub(crate) fn session_of(alloc: Global, line: &str) -> Result<String, AllocError> {
    let head = head();
    format!(in alloc; "{head}\n{line}")
}

/// A started test, up to its name.
fn before_start() -> &'static str {
    concat!(
        r#"{"timestamp":{"secs":1001,"nanos":0,"offset":0},"elapsed":{"secs":1,"nanos":0},"#,
        r#""kind":"test-started","slot-assignment":{"global-slot":0,"test-group":"@global"},"#,
        r#""current-stats":{"initial-run-count":1,"finished-count":0,"#,
        r#""setup-scripts-initial-count":0,"setup-scripts-finished-count":0,"#,
        r#""setup-scripts-passed":0,"setup-scripts-failed":0,"setup-scripts-exec-failed":0,"#,
        r#""setup-scripts-timed-out":0,"passed":0,"passed-slow":0,"passed-timed-out":0,"#,
        r#""flaky":0,"failed":0,"failed-slow":0,"failed-timed-out":0,"leaky":0,"leaky-failed":0,"#,
        r#""exec-failed":0,"skipped":0},"running":1,"command-line":[],"#,
        r#""test-instance":{"binary-id":"alpha::a","test-name":"#
    )
}

/// A finished test, up to its name.
fn before_end() -> &'static str {
    concat!(
        r#"{"timestamp":{"secs":1002,"nanos":0,"offset":0},"elapsed":{"secs":2,"nanos":0},"#,
        r#""kind":"test-finished","success-output":"never","failure-output":"immediate","#,
        r#""junit-store-success-output":false,"junit-store-failure-output":true,"#,
        r#""junit-flaky-fail-status":"failure","#,
        r#""current-stats":{"initial-run-count":1,"finished-count":1,"#,
        r#""setup-scripts-initial-count":0,"setup-scripts-finished-count":0,"#,
        r#""setup-scripts-passed":0,"setup-scripts-failed":0,"setup-scripts-exec-failed":0,"#,
        r#""setup-scripts-timed-out":0,"passed":1,"passed-slow":0,"passed-timed-out":0,"#,
        r#""flaky":0,"failed":0,"failed-slow":0,"failed-timed-out":0,"leaky":0,"leaky-failed":0,"#,
        r#""exec-failed":0,"skipped":0},"running":0,"#,
        r#""test-instance":{"binary-id":"alpha::a","test-name":"#
    )
}

/// The same after its name, up to its outputs.
fn before_outputs() -> &'static str {
    concat!(
        r#"},"run-statuses":{"statuses":[{"retry-data":{"attempt":1,"total-attempts":1},"#,
        r#""result":"pass","start-time":{"secs":1001,"nanos":0,"offset":0},"#,
        r#""time-taken":{"secs":1,"nanos":0},"is-slow":false,"#,
        r#""delay-before-start":{"secs":0,"nanos":0},"output":{"output":{"output":"#
    )
}

fn after_outputs() -> &'static str {
    r#"}}}],"flaky-result":"pass"}}"#
}

/// The lines of a test of this name, as JSON, with these outputs.
pub(crate) fn test_lines(alloc: Global, name: &str, outputs: &str) -> Result<String, AllocError> {
    let before_start = before_start();
    let before_end = before_end();
    let before_outputs = before_outputs();
    let after_outputs = after_outputs();
    format!(in alloc;
        "{before_start}{name}}}}}\n{before_end}{name}{before_outputs}{outputs}{after_outputs}"
    )
}
