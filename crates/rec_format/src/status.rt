//! How a recorded run ended.
use rec_events::NonZeroCount;

/// Counts the tests of a run that ended.
#[derive(Copy, Clone)]
pub struct CompletedRunStats {
    /// How many tests were to run when the run began.
    pub initial_run_count: usize,
    /// How many tests passed.
    pub passed: usize,
    /// How many tests failed, for whatever reason.
    pub failed: usize,
    /// What the process ended with.
    pub exit_code: i32,
}

/// Counts the sub-runs of a stress run that ended: each runs the tests once.
#[derive(Copy, Clone)]
pub struct StressCompletedRunStats {
    /// How many sub-runs were asked for; `None` where no number was.
    pub initial_iteration_count: Option<NonZeroCount>,
    /// How many sub-runs succeeded.
    pub success_count: u32,
    /// How many sub-runs failed.
    pub failed_count: u32,
    /// What the process ended with.
    pub exit_code: i32,
}

/// Says how a recorded run ended.
#[derive(Copy, Clone)]
pub enum RecordedRunStatus {
    /// The run goes on, or it was cut off.
    Incomplete,
    /// The run came to its end.
    Completed(CompletedRunStats),
    /// The run was cancelled.
    Cancelled(CompletedRunStats),
    /// The stress run came to its end.
    StressCompleted(StressCompletedRunStats),
    /// The stress run was cancelled.
    StressCancelled(StressCompletedRunStats),
    /// A status that this version doesn't know.
    Unknown,
}

/// Holds a `RecordedRunStatus` as it stands in JSON.
#[derive(Copy, Clone)]
pub enum RecordedRunStatusFormat {
    /// The run goes on, or it was cut off.
    Incomplete,
    /// A status that this version doesn't know.
    Unknown,
    /// The run came to its end.
    Completed {
        /// How many tests were to run when the run began.
        initial_run_count: usize,
        /// How many tests passed.
        passed: usize,
        /// How many tests failed, for whatever reason.
        failed: usize,
        /// What the process ended with.
        exit_code: i32,
    },
    /// The run was cancelled.
    Cancelled {
        /// How many tests were to run when the run began.
        initial_run_count: usize,
        /// How many tests passed.
        passed: usize,
        /// How many tests failed, for whatever reason.
        failed: usize,
        /// What the process ended with.
        exit_code: i32,
    },
    /// The stress run came to its end.
    StressCompleted {
        /// How many sub-runs were asked for; `None` where no number was.
        initial_iteration_count: Option<NonZeroCount>,
        /// How many sub-runs succeeded.
        success_count: u32,
        /// How many sub-runs failed.
        failed_count: u32,
        /// What the process ended with.
        exit_code: i32,
    },
    /// The stress run was cancelled.
    StressCancelled {
        /// How many sub-runs were asked for; `None` where no number was.
        initial_iteration_count: Option<NonZeroCount>,
        /// How many sub-runs succeeded.
        success_count: u32,
        /// How many sub-runs failed.
        failed_count: u32,
        /// What the process ended with.
        exit_code: i32,
    },
}

impl From<RecordedRunStatus> for RecordedRunStatusFormat {
    ghost use Rattle.std.specs.Prelude.{◌≡◌};
    ghost use Rattle.rec_format.specs.Status.{status_format};

    ghost from_gives = { λ status format. format ≡ status_format status };

    fn from(status: RecordedRunStatus) -> RecordedRunStatusFormat {
        match status {
            RecordedRunStatus::Incomplete => RecordedRunStatusFormat::Incomplete,
            RecordedRunStatus::Unknown => RecordedRunStatusFormat::Unknown,
            RecordedRunStatus::Completed(stats) => RecordedRunStatusFormat::Completed {
                initial_run_count: stats.initial_run_count,
                passed: stats.passed,
                failed: stats.failed,
                exit_code: stats.exit_code,
            },
            RecordedRunStatus::Cancelled(stats) => RecordedRunStatusFormat::Cancelled {
                initial_run_count: stats.initial_run_count,
                passed: stats.passed,
                failed: stats.failed,
                exit_code: stats.exit_code,
            },
            RecordedRunStatus::StressCompleted(stats) => RecordedRunStatusFormat::StressCompleted {
                initial_iteration_count: stats.initial_iteration_count,
                success_count: stats.success_count,
                failed_count: stats.failed_count,
                exit_code: stats.exit_code,
            },
            RecordedRunStatus::StressCancelled(stats) => RecordedRunStatusFormat::StressCancelled {
                initial_iteration_count: stats.initial_iteration_count,
                success_count: stats.success_count,
                failed_count: stats.failed_count,
                exit_code: stats.exit_code,
            },
        }
    }
}

impl From<RecordedRunStatusFormat> for RecordedRunStatus {
    ghost use Rattle.std.specs.Prelude.{◌≡◌};
    ghost use Rattle.rec_format.specs.Status.{status_of};

    ghost from_gives = { λ format status. status ≡ status_of format };

    fn from(format: RecordedRunStatusFormat) -> RecordedRunStatus {
        match format {
            RecordedRunStatusFormat::Incomplete => RecordedRunStatus::Incomplete,
            RecordedRunStatusFormat::Unknown => RecordedRunStatus::Unknown,
            RecordedRunStatusFormat::Completed {
                initial_run_count,
                passed,
                failed,
                exit_code,
            } => RecordedRunStatus::Completed(CompletedRunStats {
                initial_run_count,
                passed,
                failed,
                exit_code,
            }),
            RecordedRunStatusFormat::Cancelled {
                initial_run_count,
                passed,
                failed,
                exit_code,
            } => RecordedRunStatus::Cancelled(CompletedRunStats {
                initial_run_count,
                passed,
                failed,
                exit_code,
            }),
            RecordedRunStatusFormat::StressCompleted {
                initial_iteration_count,
                success_count,
                failed_count,
                exit_code,
            } => RecordedRunStatus::StressCompleted(StressCompletedRunStats {
                initial_iteration_count,
                success_count,
                failed_count,
                exit_code,
            }),
            RecordedRunStatusFormat::StressCancelled {
                initial_iteration_count,
                success_count,
                failed_count,
                exit_code,
            } => RecordedRunStatus::StressCancelled(StressCompletedRunStats {
                initial_iteration_count,
                success_count,
                failed_count,
                exit_code,
            }),
        }
    }
}
