//! The counts of a run.
ghost use Rattle.std.specs.Prelude.{◌≡◌, ◌↔◌, ◌<◌, ◌^◌, IsSome, IfSome};
ghost use Rattle.rec_events.specs.Stats.{no_stats, failures};
ghost use Rattle.rec_events.specs.Summaries.{failed_or_cancelled, has_failed_script};
ghost use Rattle.rec_events.specs.Summaries.{has_failed_test, summary};

use crate::{CancelReason, FinalRunStats};

/// Counts the tests and setup scripts that ran, and says how they ended.
#[derive(Clone, Copy, Drop)]
pub struct RunStats {
    /// How many tests were to run when the run began.
    pub initial_run_count: usize,
    /// How many tests ended. Those that were skipped don't count.
    pub finished_count: usize,
    /// How many setup scripts were to run when the run began.
    pub setup_scripts_initial_count: usize,
    /// How many setup scripts ended.
    pub setup_scripts_finished_count: usize,
    /// How many setup scripts passed.
    pub setup_scripts_passed: usize,
    /// How many setup scripts failed, without `setup_scripts_exec_failed` and
    /// `setup_scripts_timed_out`.
    pub setup_scripts_failed: usize,
    /// How many setup scripts could not be started.
    pub setup_scripts_exec_failed: usize,
    /// How many setup scripts were stopped for their time.
    pub setup_scripts_timed_out: usize,
    /// How many tests passed, with those that were slow, timed out but passed, flaky or leaky.
    pub passed: usize,
    /// How many of the tests that passed were slow.
    pub passed_slow: usize,
    /// How many of the tests that passed were stopped for their time.
    pub passed_timed_out: usize,
    /// How many of the tests that passed did so only after an attempt had failed.
    pub flaky: usize,
    /// How many tests failed, with `leaky_failed`, without `failed_timed_out` and `exec_failed`.
    pub failed: usize,
    /// How many of the tests that failed were slow.
    pub failed_slow: usize,
    /// How many tests were stopped for their time and count as failed. `failed` leaves them out.
    pub failed_timed_out: usize,
    /// How many of the tests that passed left an output open.
    pub leaky: usize,
    /// How many of the tests that failed did so for the one reason that they left an output open.
    pub leaky_failed: usize,
    /// How many tests could not be started. `failed` leaves them out.
    pub exec_failed: usize,
    /// How many tests were skipped.
    pub skipped: usize,
    /// Why the run was cancelled; `None` where it wasn't.
    pub cancel_reason: Option<CancelReason>,
}

impl RunStats {
    /// Makes the counts of a run in which nothing ran yet.
    pub fn zero() -> RunStats
        ensures { result ≡ no_stats }
    {
        RunStats {
            initial_run_count: 0,
            finished_count: 0,
            setup_scripts_initial_count: 0,
            setup_scripts_finished_count: 0,
            setup_scripts_passed: 0,
            setup_scripts_failed: 0,
            setup_scripts_exec_failed: 0,
            setup_scripts_timed_out: 0,
            passed: 0,
            passed_slow: 0,
            passed_timed_out: 0,
            flaky: 0,
            failed: 0,
            failed_slow: 0,
            failed_timed_out: 0,
            leaky: 0,
            leaky_failed: 0,
            exec_failed: 0,
            skipped: 0,
            cancel_reason: None,
        }
    }

    /// Returns how many tests failed, could not be started, or failed for their time. `None`
    /// exactly where that is no `usize`.
    pub fn failed_count(&self) -> Option<usize>
        ensures some { IsSome result ↔ (failures self.now < 2 ^ 64) }
        ensures value { IfSome result (λ n. n ≡ failures self.now) }
    {
        self.failed
            .checked_add(self.exec_failed)?
            .checked_add(self.failed_timed_out)
    }

    /// Returns how the run ended. A setup script decides before the tests do, and what failed
    /// before what is missing. A run with a failure counts as cancelled where it was cancelled for
    /// a graver reason than a failed test.
    pub fn summarize_final(&self) -> FinalRunStats
        ensures { result ≡ summary self.now }
    {
        if self.has_failed_script() {
            self.failed_or_cancelled()
        } else if self.setup_scripts_initial_count > self.setup_scripts_finished_count {
            FinalRunStats::Cancelled
        } else if self.has_failed_test() {
            self.failed_or_cancelled()
        } else if self.initial_run_count > self.finished_count {
            FinalRunStats::Cancelled
        } else if self.finished_count == 0 {
            FinalRunStats::NoTestsRun
        } else {
            FinalRunStats::Success
        }
    }

    /// Returns whether a setup script failed, could not be started, or was stopped for its time.
    fn has_failed_script(&self) -> bool
        ensures { result ≡ has_failed_script self.now }
    {
        self.setup_scripts_failed > 0
            || self.setup_scripts_exec_failed > 0
            || self.setup_scripts_timed_out > 0
    }

    /// Returns whether a test failed, could not be started, or failed for its time.
    fn has_failed_test(&self) -> bool
        ensures { result ≡ has_failed_test self.now }
    {
        self.failed > 0 || self.exec_failed > 0 || self.failed_timed_out > 0
    }

    /// Returns how a run ended in which something failed.
    fn failed_or_cancelled(&self) -> FinalRunStats
        ensures { result ≡ failed_or_cancelled self.now.cancel_reason }
    {
        match self.cancel_reason {
            None | Some(CancelReason::SetupScriptFailure | CancelReason::TestFailure) => {
                FinalRunStats::Failed
            }
            Some(_) => FinalRunStats::Cancelled,
        }
    }
}
