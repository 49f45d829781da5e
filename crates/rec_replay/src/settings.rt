//! How a run is shown.
ghost use Rattle.std.specs.Prelude.{◌≡◌};
ghost use Rattle.rec_replay.specs.Settings.{default_settings};

use rec_events::{NextestRunMode, TestOutputDisplay};

/// Says which tests are shown as they end, from the fewest to all.
#[derive(Clone, Copy, PartialEq, Eq)]
pub enum StatusLevel {
    /// No test.
    None,
    /// Tests that failed.
    Fail,
    /// Besides these, attempts that failed and are tried again.
    Retry,
    /// Besides these, tests that are slow.
    Slow,
    /// Besides these, tests that passed and left an output open.
    Leak,
    /// Besides these, tests that passed.
    Pass,
    /// Besides these, tests that don't run.
    Skip,
    /// All tests.
    All,
}

/// Says which tests are shown at the end of a run, from the fewest to all.
#[derive(Clone, Copy, PartialEq, Eq)]
pub enum FinalStatusLevel {
    /// No test.
    None,
    /// Tests that failed.
    Fail,
    /// Besides these, tests that passed after an attempt that failed.
    Flaky,
    /// Besides these, tests that were slow.
    Slow,
    /// Besides these, tests that didn't run.
    Skip,
    /// Besides these, tests that passed and left an output open.
    Leak,
    /// Besides these, tests that passed.
    Pass,
    /// All tests.
    All,
}

/// Says how the progress of a run is shown.
#[derive(Clone, Copy, PartialEq, Eq)]
pub enum ShowProgress {
    /// As the reporter sees fit.
    Auto,
    /// It is not shown.
    None,
    /// By how many tests have ended.
    Counter,
    /// By that, and by the tests that run.
    Running,
}

/// Says how many of the running tests are shown.
#[derive(Clone, Copy, PartialEq, Eq)]
pub enum MaxProgressRunning {
    /// At most this many.
    Count(usize),
    /// All of them.
    Infinite,
}

/// Says whether a reporter hides what differs between runs of the same tests.
#[derive(Clone, Copy, PartialEq, Eq)]
pub struct Redactor {
    /// Whether that is hidden.
    pub active: bool,
}

/// Says how a run is shown.
#[derive(Clone, Copy, PartialEq, Eq)]
pub struct DisplaySettings {
    /// Which tests are shown as they end.
    pub status_level: StatusLevel,
    /// Which tests are shown at the end of the run.
    pub final_status_level: FinalStatusLevel,
    /// When the output of a test that passed is shown; `None` where each test says it itself.
    pub success_output: Option<TestOutputDisplay>,
    /// When the output of a test that failed is shown; `None` where each test says it itself.
    pub failure_output: Option<TestOutputDisplay>,
    /// Whether colours are used.
    pub should_colorize: bool,
    /// Whether more is shown than usual.
    pub verbose: bool,
    /// How the progress is shown.
    pub show_progress: ShowProgress,
    /// How many of the running tests are shown.
    pub max_progress_running: MaxProgressRunning,
    /// Whether outputs stand without an indent.
    pub no_output_indent: bool,
    /// Whether what differs between runs of the same tests is hidden.
    pub redactor: Redactor,
}

impl DisplaySettings {
    /// Returns the settings that hold where nothing is set.
    pub(crate) fn defaults() -> DisplaySettings
        ensures { result ≡ default_settings }
    {
        DisplaySettings {
            status_level: StatusLevel::Pass,
            final_status_level: FinalStatusLevel::Fail,
            success_output: None,
            failure_output: None,
            should_colorize: false,
            verbose: false,
            show_progress: ShowProgress::Auto,
            max_progress_running: MaxProgressRunning::Count(8),
            no_output_indent: false,
            redactor: Redactor { active: false },
        }
    }
}

/// Holds what a reporter is configured with.
#[derive(Clone, Copy, PartialEq, Eq)]
pub struct Configuration {
    /// How to show the run.
    pub settings: DisplaySettings,
    /// What the run does with its tests.
    pub mode: NextestRunMode,
    /// How many tests it runs.
    pub run_count: usize,
}
