//! Parts of bundles. Those of bodies are hidden after functions, since no proof looks into them.

/// A manifest between the words of the run and the versions of its store.
pub(crate) fn before_versions() -> &'static str {
    concat!(
        r#""last-written-at":{"nanos":0,"offset":0,"secs":1011},"nextest-version":"0.9.111","#,
        r#""run-id":"550e8400-e29b-41d4-a716-446655440000","#,
        r#""sizes":{"log":{"compressed":1,"entries":3,"uncompressed":2},"#,
        r#""store":{"compressed":4,"entries":6,"uncompressed":5}},"#,
        r#""started-at":{"nanos":0,"offset":0,"secs":1000},"status":{"status":"incomplete"},"#
    )
}

/// The end of a manifest.
pub(crate) fn after_versions() -> &'static str {
    "}}"
}

/// Versions of bundles and of stores.
pub(crate) const FORMAT_1_0: &str = r#"{"major":1,"minor":0}"#;

pub(crate) const FORMAT_1_1: &str = r#"{"major":1,"minor":1}"#;

pub(crate) const FORMAT_2_0: &str = r#"{"major":2,"minor":0}"#;

pub(crate) const STORE_2: &str = r#""store-format-version":2"#;

pub(crate) const STORE_3_0: &str = r#""store-format-minor-version":0,"store-format-version":3"#;

pub(crate) const STORE_3_2: &str = r#""store-format-minor-version":2,"store-format-version":3"#;

/// No words and no variables of a run, as they are written.
pub(crate) const NO_WORDS: &str = r#""cli-args":[],"env-vars":{},"#;

/// A build scope, with all of its defaults.
pub(crate) const SCOPE: &str = concat!(
    r#"{"build-kind":"cargo","scope":{"features":{"all-features":false,"features":[],"#,
    r#""no-default-features":false},"packages":{"exclude":[],"specs":[],"workspace":false},"#,
    r#""targets":{"all-targets":false,"benches":{"all":false,"names":[]},"#,
    r#""bins":{"all":false,"names":[]},"examples":{"all":false,"names":[]},"lib":false,"#,
    r#""tests":{"all":false,"names":[]}}}}"#
);

/// What a rerun is of.
pub(crate) const RERUN: &str = concat!(
    r#"{"parent-run-id":"550e8400-e29b-41d4-a716-446655440000","#,
    r#""root-info":{"build-scope":{"build-kind":"cargo","#,
    r#""scope":{"features":{"all-features":false,"features":[],"no-default-features":false},"#,
    r#""packages":{"exclude":[],"specs":[],"workspace":false},"#,
    r#""targets":{"all-targets":false,"benches":{"all":false,"names":[]},"#,
    r#""bins":{"all":false,"names":[]},"examples":{"all":false,"names":[]},"lib":false,"#,
    r#""tests":{"all":false,"names":[]}}}},"run-id":"550e8400-e29b-41d4-a716-446655440000"},"#,
    r#""test-suites":[]}"#
);

/// The line of an attempt with an output, as it is logged, 590 bytes.
pub(crate) const LINE: &str = concat!(
    r#"{"delay-before-next-attempt":{"nanos":0,"secs":0},"elapsed":{"nanos":0,"secs":2},"#,
    r#""failure-output":"never","kind":"test-attempt-failed-will-retry","#,
    r#""run-status":{"delay-before-start":{"nanos":0,"secs":0},"is-slow":false,"#,
    r#""output":{"output":{"output":{"split":{"stderr":"empty","#,
    r#""stdout":{"full":"ba7816bf8f01cfea-stdout"}}}}},"result":"exec-fail","#,
    r#""retry-data":{"attempt":1,"total-attempts":2},"#,
    r#""start-time":{"nanos":0,"offset":0,"secs":1001},"time-taken":{"nanos":0,"secs":1}},"#,
    r#""running":0,"test-instance":{"binary-id":"alpha::a","test-name":"t1"},"#,
    r#""timestamp":{"nanos":0,"offset":0,"secs":1002}}"#,
    "\n"
);
