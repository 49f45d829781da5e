//! The start and the end of a run, as they are recorded.
ghost use Rattle.std.specs.Prelude.{◌≡◌, IfOk, option_map};
ghost use Rattle.rec_events.specs.declared.events.CoreEventKind.TheVariants as core;
ghost use Rattle.rec_events.specs.LiveStress.{condition_summary};

use crate::stress::recorded_condition;
use rec_events::{
    CoreEventKind, Duration, Items, ReportUuid, RunFinishedStats, Stamp, StressCondition,
    TestsNotSeenSummary, Text, TryClone, clone_both,
};
use std::alloc::{AllocError, Global};

/// Summarizes the start of a run.
pub(crate) fn run_started(
    alloc: Global,
    run_id: ReportUuid,
    profile_name: &Text,
    cli_args: &Items<Text>,
    stress_condition: &Option<StressCondition>,
) -> Result<CoreEventKind, AllocError>
    ensures { IfOk result
        (λ summary. summary
        ≡ core.RunStarted run_id profile_name.now cli_args.now
        (option_map condition_summary stress_condition.now)) }
{
    let (profile_name, cli_args) = clone_both(alloc, profile_name, cli_args)?;
    Ok(CoreEventKind::RunStarted {
        run_id,
        profile_name,
        cli_args,
        stress_condition: recorded_condition(stress_condition),
    })
}

/// Summarizes the end of a run.
pub(crate) fn run_finished(
    alloc: Global,
    run_id: ReportUuid,
    start_time: Stamp,
    elapsed: Duration,
    run_stats: &RunFinishedStats,
    outstanding_not_seen: &Option<TestsNotSeenSummary>,
) -> Result<CoreEventKind, AllocError>
    ensures { IfOk result
        (λ summary. summary
        ≡ core.RunFinished run_id start_time elapsed run_stats.now outstanding_not_seen.now) }
{
    let outstanding_not_seen = outstanding_not_seen.try_clone(alloc)?;
    Ok(CoreEventKind::RunFinished {
        run_id,
        start_time,
        elapsed,
        run_stats: *run_stats,
        outstanding_not_seen,
    })
}
