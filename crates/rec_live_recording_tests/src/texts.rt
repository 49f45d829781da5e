//! The lines of sessions.

/// The head of a session.
pub fn head() -> &'static str {
    "{\"run-id\":\"550e8400-e29b-41d4-a716-446655440000\",\"nextest-version\":\"0.9.111\",\
    \"started-at\":{\"secs\":1000,\"nanos\":0,\"offset\":0},\
    \"last-written-at\":{\"secs\":1011,\"nanos\":0,\"offset\":0},\
    \"status\":{\"status\":\"incomplete\"},\"cargo-metadata\":\"{}\",\
    \"test-list\":{\"suites\":{}},\"record-opts\":{\"run-mode\":\"test\"},\
    \"build-scope\":{\"build-kind\":\"cargo\",\"scope\":{}}}\n"
}

/// The line of an event, as a log has it.
pub fn paused() -> &'static str {
    "{\"elapsed\":{\"nanos\":0,\"secs\":3},\"kind\":\"run-paused\",\"running\":1,\
    \"setup-scripts-running\":0,\"timestamp\":{\"nanos\":0,\"offset\":0,\"secs\":1003}}\n"
}

/// The line of another event, as a log has it.
pub fn continued() -> &'static str {
    "{\"elapsed\":{\"nanos\":0,\"secs\":6},\"kind\":\"run-continued\",\"running\":1,\
    \"setup-scripts-running\":0,\"timestamp\":{\"nanos\":0,\"offset\":0,\"secs\":1006}}\n"
}
