//! What the counters of a trace count.
ghost use Rattle.std.specs.Prelude.{◌≡◌, ◌<◌, ◌^◌, ◌↔◌, IsSome, IfSome};
ghost use Rattle.rec_events.specs.Stats.{failures};
ghost use Rattle.rec_trace_events.specs.TraceEvents.{test_counts};

use rec_events::RunStats;

/// Counts the tests and the setup scripts that run, as `docs/FORMATS.md#counters` says.
#[derive(Clone, Copy, Drop)]
pub struct RunningCounts {
    /// How many tests run.
    pub tests: usize,
    /// How many setup scripts run.
    pub scripts: usize,
}

/// Counts the tests that ended, as `docs/FORMATS.md#counters` says.
#[derive(Clone, Copy, Drop)]
pub struct TestCounts {
    /// How many passed.
    pub passed: usize,
    /// How many of these failed at first.
    pub flaky: usize,
    /// How many failed, for any cause.
    pub failed: usize,
}

impl TestCounts {
    /// Takes the counts from those of a run. `None` exactly where the number of tests that failed,
    /// for any cause, is no `usize`.
    pub fn of(stats: &RunStats) -> Option<TestCounts>
        ensures some { IsSome result ↔ (failures stats.now < 2 ^ 64) }
        ensures value { IfSome result (λ counts. counts ≡ test_counts stats.now) }
    {
        let failed = stats.failed_count()?;
        Some(TestCounts {
            passed: stats.passed,
            flaky: stats.flaky,
            failed,
        })
    }
}
