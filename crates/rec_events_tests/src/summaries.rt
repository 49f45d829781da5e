//! How runs are summed up.
use rec_events::{
    CancelReason, FinalRunStats, RunStats, StressFinalRunStats, StressIndexSummary, StressRunStats,
};
use std::process::Abort;

// A run of ten tests and two scripts, all of which finished and passed.
fn passed() -> RunStats {
    RunStats {
        initial_run_count: 10,
        finished_count: 10,
        setup_scripts_initial_count: 2,
        setup_scripts_finished_count: 2,
        setup_scripts_passed: 2,
        passed: 10,
        ..RunStats::zero()
    }
}

/// Names a count of a run, of its tests or of its scripts.
#[derive(Clone, Copy)]
enum Count {
    Finished,
    Failed,
    ExecFailed,
    FailedTimedOut,
    FailedSlow,
    Leaky,
    Skipped,
    ScriptsFinished,
    ScriptsFailed,
    ScriptsExecFailed,
    ScriptsTimedOut,
}

fn set(stats: &mut RunStats, count: Count, number: usize) {
    match count {
        Count::Finished => stats.finished_count = number,
        Count::Failed => stats.failed = number,
        Count::ExecFailed => stats.exec_failed = number,
        Count::FailedTimedOut => stats.failed_timed_out = number,
        Count::FailedSlow => stats.failed_slow = number,
        Count::Leaky => stats.leaky = number,
        Count::Skipped => stats.skipped = number,
        Count::ScriptsFinished => stats.setup_scripts_finished_count = number,
        Count::ScriptsFailed => stats.setup_scripts_failed = number,
        Count::ScriptsExecFailed => stats.setup_scripts_exec_failed = number,
        Count::ScriptsTimedOut => stats.setup_scripts_timed_out = number,
    }
}

// How such a run ends with other counts.
fn ended(counts: &[(Count, usize)]) -> FinalRunStats {
    let mut stats = passed();
    for (count, number) in counts {
        set(&mut stats, *count, *number);
    }
    stats.summarize_final()
}

/// Counts of such a run, and how it ends.
const ENDED: &[(&[(Count, usize)], FinalRunStats)] = &[
    (&[], FinalRunStats::Success),
    // What is slow, leaked or was skipped failed nothing.
    (
        &[
            (Count::FailedSlow, 1),
            (Count::Leaky, 1),
            (Count::Skipped, 1),
        ],
        FinalRunStats::Success,
    ),
    (&[(Count::Failed, 1)], FinalRunStats::Failed),
    (&[(Count::ExecFailed, 1)], FinalRunStats::Failed),
    (&[(Count::FailedTimedOut, 1)], FinalRunStats::Failed),
    (&[(Count::ScriptsFailed, 1)], FinalRunStats::Failed),
    (&[(Count::ScriptsExecFailed, 1)], FinalRunStats::Failed),
    (&[(Count::ScriptsTimedOut, 1)], FinalRunStats::Failed),
    // A failed script counts before a missing one, that before a failed test, and that before a
    // missing test.
    (&[(Count::Finished, 9)], FinalRunStats::Cancelled),
    (
        &[(Count::Finished, 9), (Count::Failed, 1)],
        FinalRunStats::Failed,
    ),
    (
        &[(Count::Finished, 9), (Count::ScriptsFailed, 1)],
        FinalRunStats::Failed,
    ),
    (&[(Count::ScriptsFinished, 1)], FinalRunStats::Cancelled),
    (
        &[(Count::ScriptsFinished, 1), (Count::Failed, 1)],
        FinalRunStats::Cancelled,
    ),
    (
        &[(Count::ScriptsFinished, 1), (Count::ScriptsFailed, 1)],
        FinalRunStats::Failed,
    ),
];

#[test]
fn runs_by_what_failed_and_what_is_missing(rt: HostRuntime) {
    assert!(rt; RunStats::zero().summarize_final() == FinalRunStats::NoTestsRun);
    for (counts, want) in ENDED {
        assert!(rt; ended(counts) == *want);
    }
}

// Such a run that was cancelled for this reason, of which so many tests and scripts failed.
fn of_cancelled(reason: CancelReason, failed: usize, setup_scripts_failed: usize) -> FinalRunStats {
    let stats = RunStats {
        cancel_reason: Some(reason),
        failed,
        setup_scripts_failed,
        ..passed()
    };
    stats.summarize_final()
}

// Such runs end as stands beside the reason where something failed,
// and are a success where nothing did.
fn check_cancelled(rt: &impl Abort, rows: &[(CancelReason, FinalRunStats)]) {
    for (reason, want) in rows {
        assert!(rt; of_cancelled(*reason, 0, 0) == FinalRunStats::Success);
        assert!(rt; of_cancelled(*reason, 1, 0) == *want);
        assert!(rt; of_cancelled(*reason, 1, 1) == *want);
    }
}

#[test]
fn failed_runs_by_what_cancelled_them(rt: HostRuntime) {
    check_cancelled(
        &rt,
        &[
            (CancelReason::SetupScriptFailure, FinalRunStats::Failed),
            (CancelReason::TestFailure, FinalRunStats::Failed),
            (CancelReason::ReportError, FinalRunStats::Cancelled),
            (CancelReason::GlobalTimeout, FinalRunStats::Cancelled),
            (CancelReason::TestFailureImmediate, FinalRunStats::Cancelled),
            (CancelReason::Signal, FinalRunStats::Cancelled),
            (CancelReason::Interrupt, FinalRunStats::Cancelled),
            (CancelReason::SecondSignal, FinalRunStats::Cancelled),
        ],
    );
}

// A stress run of which so many runs failed, and whose last run ended so.
fn of_stress(failed_count: u32, last_final_stats: FinalRunStats) -> StressFinalRunStats {
    let stats = StressRunStats {
        completed: StressIndexSummary {
            current: 2,
            total: None,
        },
        success_count: 1,
        failed_count,
        last_final_stats,
    };
    stats.summarize_final()
}

fn check_stress(rt: &impl Abort, rows: &[(u32, FinalRunStats, StressFinalRunStats)]) {
    for (failed_count, last_final_stats, want) in rows {
        assert!(rt; of_stress(*failed_count, *last_final_stats) == *want);
    }
}

#[test]
fn stress_runs(rt: HostRuntime) {
    check_stress(
        &rt,
        &[
            (0, FinalRunStats::Success, StressFinalRunStats::Success),
            (0, FinalRunStats::Failed, StressFinalRunStats::Success),
            (0, FinalRunStats::Cancelled, StressFinalRunStats::Cancelled),
            (
                0,
                FinalRunStats::NoTestsRun,
                StressFinalRunStats::NoTestsRun,
            ),
            (1, FinalRunStats::Cancelled, StressFinalRunStats::Failed),
            (
                u32::MAX,
                FinalRunStats::Success,
                StressFinalRunStats::Failed,
            ),
        ],
    );
}
