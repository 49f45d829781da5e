//! The report of a run: suites of cases, as tools for continuous integration read them.
use rec_events::{Duration, Items, ReportUuid, Stamp, Text};

/// Reports a run that ended. `docs/FORMATS.md#report` describes the report and its JSON.
#[derive(Drop)]
pub struct JunitReport {
    /// The name of the report.
    pub name: Text,
    /// The id of the run.
    pub run_id: ReportUuid,
    /// When the run began.
    pub timestamp: Stamp,
    /// How long the run took.
    pub time: Duration,
    /// The suites, in the order in which they first got a case.
    pub suites: Items<JunitSuite>,
}

/// Reports what belongs to one script or binary, in one run of a stress run.
#[derive(Drop)]
pub struct JunitSuite {
    /// The name of the suite: the binary's id or `@setup-script:ID`, with `@stress-0` and so on in
    /// a stress run.
    pub name: Text,
    /// The cases, in the order of their events.
    pub cases: Items<JunitCase>,
    /// What is said of a script: what it runs, and the variables that it set.
    pub properties: Items<JunitProperty>,
}

/// Says one thing of a suite.
#[derive(Drop)]
pub struct JunitProperty {
    /// What is said, as `command` or `output-env:PORT`.
    pub name: Text,
    /// Its value.
    pub value: Text,
}

/// Reports a test or a setup script.
#[derive(Drop)]
pub struct JunitCase {
    /// The name of the test or the script.
    pub name: Text,
    /// The id of the test's binary, or the name of the script's suite.
    pub classname: Text,
    /// When it began, where it ran.
    pub timestamp: Option<Stamp>,
    /// How long it took.
    pub time: Option<Duration>,
    /// How it ended.
    pub status: JunitStatus,
    /// What it wrote to stdout, where that is stored.
    pub system_out: Option<Text>,
    /// What it wrote to stderr, where that is stored.
    pub system_err: Option<Text>,
}

/// Says whether a test failed, or something about it went wrong.
#[derive(Clone, Copy, Drop)]
pub enum JunitKind {
    /// It failed.
    Failure,
    /// Something went wrong, as where it could not be started.
    Error,
}

/// Says what further attempts of a case that did not succeed were: reruns of a failure, or the
/// attempts before a pass.
#[derive(Clone, Copy, Drop)]
pub enum JunitRerunKind {
    /// Reruns of a failure.
    Rerun,
    /// The attempts before a pass.
    Flaky,
}

/// Says how a case ended.
#[derive(Drop)]
pub enum JunitStatus {
    /// It succeeded.
    Success {
        /// The attempts before the one that succeeded.
        reruns: Items<JunitRerun>,
    },
    /// It did not succeed.
    NonSuccess {
        /// Whether it failed, or something went wrong.
        kind: JunitKind,
        /// How it failed, as `test failure with exit code 101`.
        type_text: Text,
        /// What went wrong, shortly, where that is known.
        message: Option<Text>,
        /// What went wrong, at length, where that is known.
        description: Option<Text>,
        /// The other attempts.
        reruns: Items<JunitRerun>,
        /// What the other attempts are.
        rerun_kind: JunitRerunKind,
    },
    /// It doesn't run.
    Skipped {
        /// Why not.
        message: Text,
    },
}

/// Reports a further attempt, which failed.
#[derive(Drop)]
pub struct JunitRerun {
    /// Whether it failed, or something went wrong.
    pub kind: JunitKind,
    /// How it failed, as `test failure with exit code 101`.
    pub type_text: Text,
    /// When it began.
    pub timestamp: Option<Stamp>,
    /// How long it took.
    pub time: Option<Duration>,
    /// What went wrong, shortly, where that is known.
    pub message: Option<Text>,
    /// What went wrong, at length, where that is known.
    pub description: Option<Text>,
    /// What it wrote to stdout, where that is stored.
    pub system_out: Option<Text>,
    /// What it wrote to stderr, where that is stored.
    pub system_err: Option<Text>,
}
