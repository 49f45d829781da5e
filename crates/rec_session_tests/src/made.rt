//! What the tests set sessions up with, and end them with.

use rec_events::{
    Duration, FinalRunStats, Items, ReportUuid, RunFinishedStats, RunStats, Stamp,
    StressIndexSummary, StressRunStats, TextMap, Version,
};
use rec_format::{ComponentSizes, RecordedBuildScope, RerunInfo, STORE_FORMAT_VERSION};
use rec_forms::read_text;
use rec_memory_streams::FailingSink;
use rec_session::{RecordSessionConfig, RunFinishedInfo};
use rec_store::StoreSizes;
use std::alloc::{AllocError, Global};
use std::test::Fail;

fn scope_text() -> &'static str {
    r#"{"build-kind":"cargo","scope":{}}"#
}

fn rerun_text() -> &'static str {
    concat!(
        r#"{"parent-run-id":"650e8400-e29b-41d4-a716-446655440000","#,
        r#""root-info":{"build-scope":{"build-kind":"cargo","scope":{}},"#,
        r#""run-id":"750e8400-e29b-41d4-a716-446655440000"},"test-suites":[]}"#
    )
}

fn rerun(alloc: Global, is_rerun: bool) -> Result<Option<RerunInfo>, Fail> {
    if !is_rerun {
        return Ok(None);
    }
    Ok(Some(read_text(alloc, rerun_text().as_bytes())?))
}

fn built(alloc: Global) -> Result<(RecordedBuildScope, Version), Fail> {
    let version = Version::parse(alloc, "0.9.200")?;
    Ok((read_text(alloc, scope_text().as_bytes())?, version))
}

/// Makes a run of this id below `/w`, which may be a rerun.
pub(crate) fn config(
    alloc: Global,
    run_id: ReportUuid,
    is_rerun: bool,
) -> Result<RecordSessionConfig<'static>, Fail> {
    let rerun_info = rerun(alloc, is_rerun)?;
    match built(alloc) {
        Ok((build_scope, nextest_version)) => Ok(RecordSessionConfig {
            workspace_root: "/w",
            run_id,
            store_format_version: STORE_FORMAT_VERSION,
            nextest_version,
            started_at: Stamp {
                secs: 1000,
                nanos: 5,
                offset: 60,
            },
            cli_args: Items::empty(alloc),
            build_scope,
            env_vars: TextMap::empty(alloc),
            max_output_size: 1000,
            rerun_info,
        }),
        Err(error) => {
            drop(rerun_info);
            Err(error)
        }
    }
}

fn sink(alloc: Global, fail_at: u64) -> Result<FailingSink, AllocError> {
    let mut sink = FailingSink::new(alloc, 0, vec![in alloc; fail_at]?);
    sink.reserve(4096)?;
    Ok(sink)
}

/// Makes sinks with room, of which these writes fail, counted from 1, or none for 0.
pub(crate) fn sinks(
    alloc: Global,
    store_fails: u64,
    log_fails: u64,
) -> Result<(FailingSink, FailingSink), AllocError> {
    let store = sink(alloc, store_fails)?;
    Ok((store, sink(alloc, log_fails)?))
}

/// The sizes of a log of 10 bytes and a store of 30 that has 20 bytes of contents.
pub(crate) fn sizes() -> StoreSizes {
    StoreSizes {
        log: ComponentSizes {
            compressed: 10,
            uncompressed: 10,
            entries: 1,
        },
        store: ComponentSizes {
            compressed: 30,
            uncompressed: 20,
            entries: 2,
        },
    }
}

/// Says how a run ended.
#[derive(Clone, Copy)]
pub(crate) enum RunEnd {
    /// No end is known.
    Unknown,
    /// Of 5 tests so many ended, 3 passed, so many failed,
    /// and so many each could not be started and timed out.
    Tests {
        ended: usize,
        failed: usize,
        others: usize,
    },
    /// 4 rounds of a stress run succeeded, so many failed, and the last one ended so.
    Rounds {
        failed: u32,
        last: FinalRunStats,
    },
}

/// What a session is given of a run that ended so, after 7 seconds.
pub(crate) fn run_finished(end: RunEnd) -> Option<RunFinishedInfo> {
    let stats = match end {
        RunEnd::Unknown => return None,
        RunEnd::Tests {
            ended,
            failed,
            others,
        } => RunFinishedStats::Single(run_stats(ended, failed, others)),
        RunEnd::Rounds { failed, last } => RunFinishedStats::Stress(stress_stats(failed, last)),
    };
    Some(RunFinishedInfo {
        stats,
        elapsed: Duration { secs: 7, nanos: 0 },
    })
}

fn run_stats(ended: usize, failed: usize, others: usize) -> RunStats {
    let mut stats = RunStats::zero();
    stats.initial_run_count = 5;
    stats.finished_count = ended;
    stats.passed = 3;
    stats.failed = failed;
    stats.exec_failed = others;
    stats.failed_timed_out = others;
    stats
}

fn stress_stats(failed: u32, last: FinalRunStats) -> StressRunStats {
    StressRunStats {
        completed: StressIndexSummary {
            current: 0,
            total: None,
        },
        success_count: 4,
        failed_count: failed,
        last_final_stats: last,
    }
}
