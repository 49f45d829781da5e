//! How a recorded run ended.
ghost use Rattle.std.specs.Prelude.{◌≡◌};
ghost use Rattle.rec_events.specs.Summaries.{stress_summary, summary};
ghost use Rattle.rec_session.specs.Endings as endings;
ghost use Rattle.rec_session.specs.Endings.{completed_stats, ending_of, stress_stats};

use crate::finalize::RunFinishedInfo;
use rec_events::{
    Duration, FinalRunStats, ReportUuid, RunFinishedStats, RunStats, StressFinalRunStats,
    StressRunStats,
};
use rec_format::{CompletedRunStats, RecordedRunStatus, StressCompletedRunStats};
use rec_store::StoreSizes;

/// Holds what a run is given when it ends.
#[derive(Clone, Copy)]
pub(crate) struct RunEnding {
    pub(crate) run_id: ReportUuid,
    pub(crate) sizes: StoreSizes,
    pub(crate) status: RecordedRunStatus,
    pub(crate) duration: Option<Duration>,
}

impl RunEnding {
    /// Returns the end of a run. One of which no end is known is incomplete.
    pub(crate) fn new(
        run_id: ReportUuid,
        sizes: StoreSizes,
        run_finished: Option<RunFinishedInfo>,
        exit_code: i32,
    ) -> RunEnding
        ensures { result ≡ ending_of run_id sizes run_finished exit_code }
    {
        let Some(finished) = run_finished else {
            return RunEnding {
                run_id,
                sizes,
                status: RecordedRunStatus::Incomplete,
                duration: None,
            };
        };
        RunEnding {
            run_id,
            sizes,
            status: status_of(&finished.stats, exit_code),
            duration: Some(finished.elapsed),
        }
    }
}

/// Returns the status of a run that ended with these counts.
fn status_of(stats: &RunFinishedStats, exit_code: i32) -> RecordedRunStatus
    ensures { result ≡ endings.status_of stats.now exit_code }
{
    match stats {
        RunFinishedStats::Single(stats) => single_status(stats, exit_code),
        RunFinishedStats::Stress(stats) => stress_status(stats, exit_code),
    }
}

/// Returns the status of a run of each test.
fn single_status(stats: &RunStats, exit_code: i32) -> RecordedRunStatus
    ensures { result
        ≡ endings.single_status (summary stats.now) (completed_stats stats.now exit_code) }
{
    let completed = CompletedRunStats {
        initial_run_count: stats.initial_run_count,
        passed: stats.passed,
        failed: stats.failed_count().unwrap_or(usize::MAX),
        exit_code,
    };
    match stats.summarize_final() {
        FinalRunStats::Cancelled => RecordedRunStatus::Cancelled(completed),
        FinalRunStats::Success | FinalRunStats::NoTestsRun | FinalRunStats::Failed => {
            RecordedRunStatus::Completed(completed)
        }
    }
}

/// Returns the status of a stress run.
fn stress_status(stats: &StressRunStats, exit_code: i32) -> RecordedRunStatus
    ensures { result
        ≡ endings.stress_status (stress_summary stats.now) (stress_stats stats.now exit_code) }
{
    let completed = StressCompletedRunStats {
        initial_iteration_count: stats.completed.total,
        success_count: stats.success_count,
        failed_count: stats.failed_count,
        exit_code,
    };
    match stats.summarize_final() {
        StressFinalRunStats::Cancelled => RecordedRunStatus::StressCancelled(completed),
        StressFinalRunStats::Success
        | StressFinalRunStats::NoTestsRun
        | StressFinalRunStats::Failed => RecordedRunStatus::StressCompleted(completed),
    }
}
