//! The texts of a run, hidden after functions, since no proof looks into them.

/// The manifest of the run, as a recording writes it at its start.
pub fn manifest() -> &'static str {
    concat!(
        r#"{"format-version":{"major":1,"minor":1},"#,
        r#""run":{"cli-args":[],"env-vars":{},"#,
        r#""last-written-at":{"nanos":0,"offset":0,"secs":1000},"nextest-version":"0.9.111","#,
        r#""run-id":"550e8400-e29b-41d4-a716-446655440000","#,
        r#""sizes":{"log":{"compressed":0,"entries":0,"uncompressed":0},"#,
        r#""store":{"compressed":0,"entries":0,"uncompressed":0}},"#,
        r#""started-at":{"nanos":0,"offset":0,"secs":1000},"status":{"status":"incomplete"},"#,
        r#""store-format-minor-version":1,"store-format-version":3}}"#
    )
}

/// The build scope of the run.
pub fn scope() -> &'static str {
    r#"{"build-kind":"cargo","scope":{}}"#
}

/// The log of the run, of two events.
pub fn log() -> &'static str {
    concat!(
        r#"{"elapsed":{"nanos":0,"secs":3},"kind":"run-paused","running":1,"#,
        r#""setup-scripts-running":0,"timestamp":{"nanos":0,"offset":0,"secs":1003}}"#,
        "\n",
        r#"{"elapsed":{"nanos":0,"secs":6},"kind":"run-continued","running":1,"#,
        r#""setup-scripts-running":0,"timestamp":{"nanos":0,"offset":0,"secs":1006}}"#,
        "\n"
    )
}

/// A head of the run that says no more than the manifest.
pub fn head() -> &'static str {
    "{\"run-id\":\"550e8400-e29b-41d4-a716-446655440000\",\"nextest-version\":\"0.9.111\",\
    \"started-at\":{\"secs\":1000,\"nanos\":0,\"offset\":0},\
    \"last-written-at\":{\"secs\":1000,\"nanos\":0,\"offset\":0},\
    \"status\":{\"status\":\"incomplete\"},\"cargo-metadata\":\"{}\",\
    \"test-list\":{\"suites\":{}},\"record-opts\":{\"run-mode\":\"test\"},\
    \"build-scope\":{\"build-kind\":\"cargo\",\"scope\":{}}}\n"
}

/// A head that closes the run after 11 seconds.
pub fn closing_head() -> &'static str {
    "{\"run-id\":\"550e8400-e29b-41d4-a716-446655440000\",\"nextest-version\":\"0.9.111\",\
    \"started-at\":{\"secs\":1000,\"nanos\":0,\"offset\":0},\
    \"last-written-at\":{\"secs\":1011,\"nanos\":0,\"offset\":0},\
    \"duration\":{\"secs\":11,\"nanos\":0},\
    \"status\":{\"status\":\"incomplete\"},\"cargo-metadata\":\"{}\",\
    \"test-list\":{\"suites\":{}},\"record-opts\":{\"run-mode\":\"test\"},\
    \"build-scope\":{\"build-kind\":\"cargo\",\"scope\":{}}}\n"
}

/// A head of a run with another id.
pub fn other_id() -> &'static str {
    "{\"run-id\":\"550e8400-e29b-41d4-a716-446655440001\",\"nextest-version\":\"0.9.111\",\
    \"started-at\":{\"secs\":1000,\"nanos\":0,\"offset\":0},\
    \"last-written-at\":{\"secs\":1000,\"nanos\":0,\"offset\":0},\
    \"status\":{\"status\":\"incomplete\"},\"cargo-metadata\":\"{}\",\
    \"test-list\":{\"suites\":{}},\"record-opts\":{\"run-mode\":\"test\"},\
    \"build-scope\":{\"build-kind\":\"cargo\",\"scope\":{}}}\n"
}

/// A head of a run that began a nanosecond later.
pub fn other_start() -> &'static str {
    "{\"run-id\":\"550e8400-e29b-41d4-a716-446655440000\",\"nextest-version\":\"0.9.111\",\
    \"started-at\":{\"secs\":1000,\"nanos\":1,\"offset\":0},\
    \"last-written-at\":{\"secs\":1000,\"nanos\":0,\"offset\":0},\
    \"status\":{\"status\":\"incomplete\"},\"cargo-metadata\":\"{}\",\
    \"test-list\":{\"suites\":{}},\"record-opts\":{\"run-mode\":\"test\"},\
    \"build-scope\":{\"build-kind\":\"cargo\",\"scope\":{}}}\n"
}
