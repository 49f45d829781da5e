//! What comes of sessions, as text.

use rec_format::{CompletedRunStats, RecordedRunInfo, RecordedRunStatus, StressCompletedRunStats};
use rec_memory_streams::FailingSink;
use rec_session::{
    RecordFinalizeResult, RecordSession, RecordSetupError, RecordSetupFailed, RecorderCreateError,
};
use rec_store::RunStoreError;
use std::alloc::AllocError;

/// Tells what a session is named by: its run, its directory, and the run's prefix and the rest.
pub(crate) fn tell_session(session: &RecordSession, text: &mut String) -> Result<(), AllocError> {
    let cut = session.run_id_unique_prefix();
    let (id, dir) = (session.run_id(), session.state_dir());
    write!(text, "{id} {dir} {} {}\n", cut.prefix, cut.rest)
}

/// Tells why no session was set up, and whether something was written.
pub(crate) fn tell_refusal(
    failed: &RecordSetupFailed<FailingSink, FailingSink>,
    text: &mut String,
) -> Result<(), AllocError> {
    let error = error_name(&failed.error);
    let wrote = if failed.store.bytes().is_empty() && failed.log.bytes().is_empty() {
        "nothing"
    } else {
        "something"
    };
    write!(text, "{error}, {wrote} written\n")
}

fn error_name(error: &RecordSetupError) -> &'static str {
    match error {
        RecordSetupError::StateDirNotFound => "the directory",
        RecordSetupError::StoreCreate => "the store",
        RecordSetupError::StoreLock => "the lock",
        RecordSetupError::RecorderCreate(RecorderCreateError::Keeper) => "creating the run",
        RecordSetupError::RecorderCreate(RecorderCreateError::Store(RunStoreError::StoreWrite)) => {
            "writing the store"
        }
        RecordSetupError::RecorderCreate(RecorderCreateError::Store(_)) => "another refusal",
        RecordSetupError::OutOfMemory => "memory",
    }
}

/// Tells the warnings, a line each, and what pruning answered.
pub(crate) fn tell_result(
    answer: &RecordFinalizeResult,
    text: &mut String,
) -> Result<(), AllocError> {
    for warning in answer.warnings.as_slice() {
        write!(text, "{warning}\n")?;
    }
    match &answer.prune_result {
        None => text.push_str("not pruned\n"),
        Some(pruned) => {
            let (deleted, orphans) = (pruned.deleted_count, pruned.orphans_deleted);
            let errors = pruned.errors.as_slice().len();
            write!(text, "pruned {deleted} {orphans} {errors}\n")
        }
    }
}

/// Tells the runs of a keeper, a line each: the id, the status, the bytes of log and store, the
/// seconds, and whether it is a rerun.
pub(crate) fn tell_runs(runs: &[RecordedRunInfo], text: &mut String) -> Result<(), AllocError> {
    for run in runs {
        write!(text, "{} ", run.run_id)?;
        tell_status(&run.status, text)?;
        let (log, store) = (run.sizes.log.compressed, run.sizes.store.compressed);
        let seconds = match run.duration {
            Some(duration) => duration.secs,
            None => 0,
        };
        let kind = if run.parent_run_id.is_some() {
            "rerun"
        } else {
            "run"
        };
        write!(text, " {log} {store} {seconds} {kind}\n")?;
    }
    Ok(())
}

fn tell_status(status: &RecordedRunStatus, text: &mut String) -> Result<(), AllocError> {
    match status {
        RecordedRunStatus::Incomplete => text.push_str("incomplete"),
        RecordedRunStatus::Completed(stats) => tell_tests("completed", stats, text),
        RecordedRunStatus::Cancelled(stats) => tell_tests("cancelled", stats, text),
        RecordedRunStatus::StressCompleted(stats) => tell_rounds("rounds completed", stats, text),
        RecordedRunStatus::StressCancelled(stats) => tell_rounds("rounds cancelled", stats, text),
        RecordedRunStatus::Unknown => text.push_str("unknown"),
    }
}

fn tell_tests(name: &str, stats: &CompletedRunStats, text: &mut String) -> Result<(), AllocError> {
    let (initial, passed) = (stats.initial_run_count, stats.passed);
    let (failed, exit_code) = (stats.failed, stats.exit_code);
    write!(text, "{name} {initial} {passed} {failed} {exit_code}")
}

fn tell_rounds(
    name: &str,
    stats: &StressCompletedRunStats,
    text: &mut String,
) -> Result<(), AllocError> {
    let initial = match stats.initial_iteration_count {
        Some(count) => count.get(),
        None => 0,
    };
    let (succeeded, failed) = (stats.success_count, stats.failed_count);
    let exit_code = stats.exit_code;
    write!(text, "{name} {initial} {succeeded} {failed} {exit_code}")
}
