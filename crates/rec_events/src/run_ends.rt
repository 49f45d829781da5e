//! How a run ended.
ghost use Rattle.std.specs.Prelude.{◌≡◌};
ghost use Rattle.rec_events.specs.Summaries.{stress_summary};

use crate::{Items, OwnedTestInstanceId, RunStats, StressIndexSummary, TryClone};
use std::alloc::{AllocError, Global};

/// Says how a run ended, over all its tests.
#[derive(Clone, Copy, PartialEq, Eq, Drop)]
pub enum FinalRunStats {
    /// Tests ran, nothing failed, and all that was to run did.
    Success,
    /// There was no test to run, and nothing failed.
    NoTestsRun,
    /// A test or a setup script failed, and no graver reason cancelled the run.
    Failed,
    /// Something failed and a graver reason cancelled the run, or not all ran that was to run.
    Cancelled,
}

/// Says how a stress run ended, over all its runs.
#[derive(Clone, Copy, PartialEq, Eq, Drop)]
pub enum StressFinalRunStats {
    /// No sub-run failed, and the last one was neither cancelled nor without tests.
    Success,
    /// The last sub-run had no tests, and none failed.
    NoTestsRun,
    /// A sub-run failed.
    Failed,
    /// The last sub-run was cancelled, and none failed.
    Cancelled,
}

/// Holds the counts of a stress run.
#[derive(Clone, Copy, Drop)]
pub struct StressRunStats {
    /// The last of its runs.
    pub completed: StressIndexSummary,
    /// How many sub-runs succeeded.
    pub success_count: u32,
    /// How many sub-runs failed.
    pub failed_count: u32,
    /// How the last of its runs ended.
    pub last_final_stats: FinalRunStats,
}

impl StressRunStats {
    /// Returns how the stress run ended: it failed where one of its runs did. Else it was
    /// cancelled, or had no tests, where the last of its runs was or had; else it succeeded.
    pub fn summarize_final(&self) -> StressFinalRunStats
        ensures { result ≡ stress_summary self.now }
    {
        if self.failed_count > 0 {
            return StressFinalRunStats::Failed;
        }
        match self.last_final_stats {
            FinalRunStats::Cancelled => StressFinalRunStats::Cancelled,
            FinalRunStats::NoTestsRun => StressFinalRunStats::NoTestsRun,
            FinalRunStats::Success | FinalRunStats::Failed => StressFinalRunStats::Success,
        }
    }
}

/// Holds the counts of a run that ended.
#[derive(Clone, Copy, Drop)]
pub enum RunFinishedStats {
    /// The counts of a run that is no stress run.
    Single(RunStats),
    /// The counts of a stress run.
    Stress(StressRunStats),
}

/// Names tests that a run didn't come to.
#[derive(Drop)]
pub struct TestsNotSeenSummary {
    /// Some of them.
    pub not_seen: Items<OwnedTestInstanceId>,
    /// How many there are in all.
    pub total_not_seen: usize,
}

impl TryClone for TestsNotSeenSummary {
    fn try_clone(&self, alloc: Global) -> Result<TestsNotSeenSummary, AllocError> {
        Ok(TestsNotSeenSummary {
            not_seen: self.not_seen.try_clone(alloc)?,
            total_not_seen: self.total_not_seen,
        })
    }
}
