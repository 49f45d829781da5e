//! The texts of calls and of what they leave. Those of bodies are hidden after functions,
//! since no proof looks into them.

use std::alloc::{AllocError, Global};

fn before_output() -> &'static str {
    concat!(
        r#"{"args":["up"],"elapsed":{"nanos":0,"secs":0},"index":0,"#,
        r#""kind":"setup-script-finished","no-capture":false,"program":"./db.sh","#,
        r#""run-status":{"env-map":{"DB_URL":"db:1"},"is-slow":false,"output":"#
    )
}

fn after_output() -> &'static str {
    concat!(
        r#","result":"pass","start-time":{"nanos":0,"offset":0,"secs":1000},"#,
        r#""time-taken":{"nanos":0,"secs":1}},"script-id":"db","#,
        r#""timestamp":{"nanos":0,"offset":0,"secs":1000},"total":1}"#,
        "\n"
    )
}

/// The lines of setup scripts that ended with these outputs,
/// as they are recorded or as they are logged.
pub(crate) fn lines(alloc: Global, outputs: &[&str]) -> Result<String, AllocError> {
    let mut text = String::new(alloc);
    for output in outputs {
        text.push_str(before_output())?;
        text.push_str(output)?;
        text.push_str(after_output())?;
    }
    Ok(text)
}

/// `abc` on standard output, and where it is stored under the number 0.
pub(crate) const ABC: &str = r#"{"output":{"output":{"split":{"stdout":"616263"}}}}"#;

pub(crate) const ABC_UNDER_ZERO: &str =
    r#"{"output":{"output":{"split":{"stdout":{"full":"0000000000000000-stdout"}}}}}"#;

/// `hello` on standard output.
pub(crate) const HELLO: &str = r#"{"output":{"output":{"split":{"stdout":"68656c6c6f"}}}}"#;

/// Two bytes that are no text, on both streams in one,
/// and where they are stored under the number 0.
pub(crate) const COMBINED: &str = r#"{"output":{"output":{"combined":"00ff"}}}"#;

pub(crate) const COMBINED_UNDER_ZERO: &str =
    r#"{"output":{"output":{"combined":{"full":"0000000000000000-combined"}}}}"#;

/// `hello` on standard error and `abc` on standard output,
/// and where they are stored under the number 7.
pub(crate) const ABC_AND_HELLO: &str =
    r#"{"output":{"output":{"split":{"stderr":"68656c6c6f","stdout":"616263"}}}}"#;

pub(crate) const ABC_AND_HELLO_UNDER_SEVEN: &str = concat!(
    r#"{"output":{"output":{"split":{"stderr":{"full":"0000000000000007-stderr"},"#,
    r#""stdout":{"full":"0000000000000007-stdout"}}}}}"#
);

pub(crate) const NOT_STARTED: &str = r#"{"start-error":"no such file"}"#;

/// An attempt that failed and wrote `hello`.
pub(crate) fn failed_attempt() -> &'static str {
    concat!(
        r#"{"timestamp":{"secs":1001,"nanos":0,"offset":0},"elapsed":{"secs":1,"nanos":0},"#,
        r#""kind":"test-attempt-failed-will-retry","#,
        r#""test-instance":{"binary-id":"b","test-name":"t"},"#,
        r#""run-status":{"retry-data":{"attempt":1,"total-attempts":3},"#,
        r#""output":{"output":{"output":{"combined":"68656c6c6f"}}},"#,
        r#""result":{"fail":{"failure":{"exit-code":1},"leaked":false}},"#,
        r#""start-time":{"secs":1001,"nanos":0,"offset":0},"time-taken":{"secs":1,"nanos":0},"#,
        r#""is-slow":false,"delay-before-start":{"secs":0,"nanos":0}},"#,
        r#""delay-before-next-attempt":{"secs":2,"nanos":0},"failure-output":"never","#,
        r#""running":1}"#
    )
}

/// A finished test, whose attempts are replaced.
pub(crate) fn finished() -> &'static str {
    concat!(
        r#"{"timestamp":{"secs":1004,"nanos":0,"offset":0},"elapsed":{"secs":4,"nanos":0},"#,
        r#""kind":"test-finished","test-instance":{"binary-id":"b","test-name":"t"},"#,
        r#""success-output":"never","failure-output":"never","junit-store-success-output":false,"#,
        r#""junit-store-failure-output":false,"junit-flaky-fail-status":"failure","#,
        r#""run-statuses":{"statuses":[{"retry-data":{"attempt":1,"total-attempts":1},"#,
        r#""output":{"start-error":"no such file"},"result":"pass","#,
        r#""start-time":{"secs":1002,"nanos":0,"offset":0},"time-taken":{"secs":1,"nanos":0},"#,
        r#""is-slow":false,"delay-before-start":{"secs":2,"nanos":0}}],"flaky-result":"pass"},"#,
        r#""current-stats":{"initial-run-count":0,"finished-count":0,"#,
        r#""setup-scripts-initial-count":0,"setup-scripts-finished-count":0,"#,
        r#""setup-scripts-passed":0,"setup-scripts-failed":0,"setup-scripts-exec-failed":0,"#,
        r#""setup-scripts-timed-out":0,"passed":0,"passed-slow":0,"passed-timed-out":0,"#,
        r#""flaky":0,"failed":0,"failed-slow":0,"failed-timed-out":0,"leaky":0,"leaky-failed":0,"#,
        r#""exec-failed":0,"skipped":0},"running":0}"#
    )
}

/// A build scope.
pub(crate) fn scope_text() -> &'static str {
    r#"{"build-kind":"cargo","scope":{}}"#
}

/// A test list.
pub(crate) fn list_text() -> &'static str {
    r#"{"suites":{"b":["t2","t1"],"a":[]}}"#
}

/// What a rerun is of.
pub(crate) fn rerun_text() -> &'static str {
    concat!(
        r#"{"parent-run-id":"550e8400-e29b-41d4-a716-446655440000","#,
        r#""root-info":{"build-scope":{"build-kind":"cargo","scope":{}},"#,
        r#""run-id":"550e8400-e29b-41d4-a716-446655440000"},"test-suites":[]}"#
    )
}

/// What a store of these holds, a line an entry. Each default is written,
/// and the suites are sorted.
pub(crate) const STORED: &str = concat!(
    r#"meta/build-scope.json {"build-kind":"cargo","#,
    r#""scope":{"features":{"all-features":false,"features":[],"no-default-features":false},"#,
    r#""packages":{"exclude":[],"specs":[],"workspace":false},"#,
    r#""targets":{"all-targets":false,"benches":{"all":false,"names":[]},"#,
    r#""bins":{"all":false,"names":[]},"examples":{"all":false,"names":[]},"lib":false,"#,
    r#""tests":{"all":false,"names":[]}}}}"#,
    "\n",
    r#"meta/rerun-info.json {"parent-run-id":"550e8400-e29b-41d4-a716-446655440000","#,
    r#""root-info":{"build-scope":{"build-kind":"cargo","#,
    r#""scope":{"features":{"all-features":false,"features":[],"no-default-features":false},"#,
    r#""packages":{"exclude":[],"specs":[],"workspace":false},"#,
    r#""targets":{"all-targets":false,"benches":{"all":false,"names":[]},"#,
    r#""bins":{"all":false,"names":[]},"examples":{"all":false,"names":[]},"lib":false,"#,
    r#""tests":{"all":false,"names":[]}}}},"run-id":"550e8400-e29b-41d4-a716-446655440000"},"#,
    r#""test-suites":[]}"#,
    "\n",
    r#"meta/test-list.json {"suites":{"a":[],"b":["t2","t1"]}}"#,
    "\n",
    "meta/cargo-metadata.json {}\n",
    "meta/record-opts.json {\"run-mode\":\"benchmark\"}\n"
);
