//! How the outcome of a test is shown and reported.

/// Says when an output is shown.
#[derive(Clone, Copy, PartialEq, Eq, Drop)]
pub enum TestOutputDisplay {
    /// As soon as the attempt ends.
    Immediate,
    /// At the end of the run.
    Final,
    /// As soon as the attempt ends, and again at the end of the run.
    ImmediateFinal,
    /// Never.
    Never,
}

/// Says how a flaky test that counts as failed stands in a JUnit report.
#[derive(Clone, Copy, PartialEq, Eq, Drop)]
pub enum JunitFlakyFailStatus {
    /// It stands there as failed.
    Failure,
    /// It stands there as passed.
    Success,
}

/// Says why a run was cancelled, from the mildest cause to the gravest.
#[derive(Clone, Copy, PartialEq, Eq, Drop)]
pub enum CancelReason {
    /// A setup script failed.
    SetupScriptFailure,
    /// A test failed.
    TestFailure,
    /// The run could not be reported.
    ReportError,
    /// The time for the whole run was over.
    GlobalTimeout,
    /// A test failed, and what still runs is to be stopped at once.
    TestFailureImmediate,
    /// A signal came that is no interrupt.
    Signal,
    /// An interrupt came.
    Interrupt,
    /// A further signal came after the first.
    SecondSignal,
}
