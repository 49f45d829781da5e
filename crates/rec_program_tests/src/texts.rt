//! Texts of sessions and bundles, hidden after functions, since no proof looks into them.

use std::alloc::{AllocError, Global};

/// A head with nothing in it that may be left out.
pub(crate) fn head() -> &'static str {
    concat!(
        r#"{"run-id":"550e8400-e29b-41d4-a716-446655440000","nextest-version":"0.9.111","#,
        r#""started-at":{"secs":1000,"nanos":0,"offset":0},"#,
        r#""last-written-at":{"secs":1011,"nanos":0,"offset":0},"#,
        r#""status":{"status":"incomplete"},"cargo-metadata":"{}","test-list":{"suites":{}},"#,
        r#""record-opts":{"run-mode":"test"},"build-scope":{"build-kind":"cargo","scope":{}}}"#
    )
}

/// The manifest of a run with this head and no events, 462 bytes.
pub(crate) fn manifest() -> &'static str {
    concat!(
        r#"{"format-version":{"major":1,"minor":1},"#,
        r#""run":{"cli-args":[],"env-vars":{},"#,
        r#""last-written-at":{"nanos":0,"offset":0,"secs":1011},"nextest-version":"0.9.111","#,
        r#""run-id":"550e8400-e29b-41d4-a716-446655440000","#,
        r#""sizes":{"log":{"compressed":0,"entries":0,"uncompressed":0},"#,
        r#""store":{"compressed":515,"entries":4,"uncompressed":377}},"#,
        r#""started-at":{"nanos":0,"offset":0,"secs":1000},"status":{"status":"incomplete"},"#,
        r#""store-format-minor-version":1,"store-format-version":3}}"#
    )
}

/// A run that starts, which is logged in 188 bytes.
pub(crate) fn run_started() -> &'static str {
    concat!(
        r#"{"timestamp":{"secs":1000,"nanos":0,"offset":0},"elapsed":{"secs":0,"nanos":0},"#,
        r#""kind":"run-started","run-id":"550e8400-e29b-41d4-a716-446655440000","#,
        r#""profile-name":"default","cli-args":[]}"#
    )
}

/// A pause while nothing runs.
pub(crate) fn run_paused() -> &'static str {
    concat!(
        r#"{"timestamp":{"secs":1002,"nanos":0,"offset":0},"elapsed":{"secs":2,"nanos":0},"#,
        r#""kind":"run-paused","setup-scripts-running":0,"running":1}"#
    )
}

/// The session of a line after the head.
pub(crate) fn session_of(alloc: Global, line: &str) -> Result<String, AllocError> {
    let head = head();
    format!(in alloc; "{head}\n{line}")
}
