//! Recorded events without outputs, as they are replayed.
ghost use Rattle.std.specs.Prelude.{◌≡◌, codes, IfOk, option_map, Some};
ghost use Rattle.rec_events.specs.LiveEvents.{kind_name};
ghost use Rattle.rec_events.specs.Stats.{no_stats};
ghost use Rattle.rec_replay.specs.Conversions.{Converts, condition_refusal, core_refusal};
ghost use Rattle.rec_replay.specs.Registration.{is_registered};
ghost use Rattle.rec_replay.specs.Replaying.{condition_replayed, core_replayed, index_replayed};

use crate::context::ReplayContext;
use crate::conversion_error::ReplayConversionError;
use rec_events::{
    CancelReason, CoreEventKind, Items, NonZeroCount, RunStats, ScriptId, StressCondition,
    StressConditionSummary, StressCount, StressIndex, StressIndexSummary, TestEventKind, Text,
    TryClone, clone_both,
};
use std::alloc::{AllocError, Global};

impl<'a> ReplayContext<'a> {
    /// Replays the start of a run.
    fn run_started<'cx>(
        &'cx self,
        alloc: Global,
        kind: &CoreEventKind,
    ) -> Result<TestEventKind<'cx>, ReplayConversionError>
        requires kind { kind_name (core_replayed self.now.test_list kind.now)
            ≡ codes "run-started" }
        ensures { Converts (core_refusal (is_registered self.now.tests) kind.now)
            (core_replayed self.now.test_list kind.now) result }
    {
        let CoreEventKind::RunStarted {
            run_id,
            profile_name,
            cli_args,
            stress_condition,
        } = kind
        else {
            unreachable!()
        };
        let stress_condition = replay_condition(stress_condition)?;
        let (profile_name, cli_args) = clone_both(alloc, profile_name, cli_args)?;
        Ok(TestEventKind::RunStarted {
            test_list: self.test_list,
            run_id: *run_id,
            profile_name,
            cli_args,
            stress_condition,
        })
    }

    /// Replays the start of a test.
    fn test_started<'cx>(
        &'cx self,
        alloc: Global,
        kind: &CoreEventKind,
    ) -> Result<TestEventKind<'cx>, ReplayConversionError>
        requires kind { kind_name (core_replayed self.now.test_list kind.now)
            ≡ codes "test-started" }
        ensures { Converts (core_refusal (is_registered self.now.tests) kind.now)
            (core_replayed self.now.test_list kind.now) result }
    {
        let CoreEventKind::TestStarted {
            stress_index,
            test_instance,
            slot_assignment,
            current_stats,
            running,
            command_line,
        } = kind
        else {
            unreachable!()
        };
        let test_instance = self.find(alloc, test_instance)?;
        let (slot_assignment, command_line) = clone_both(alloc, slot_assignment, command_line)?;
        Ok(TestEventKind::TestStarted {
            stress_index: replay_index(stress_index),
            test_instance,
            slot_assignment,
            current_stats: *current_stats,
            running: *running,
            command_line,
        })
    }

    /// Replays that a test is slow.
    fn test_slow<'cx>(
        &'cx self,
        alloc: Global,
        kind: &CoreEventKind,
    ) -> Result<TestEventKind<'cx>, ReplayConversionError>
        requires kind { kind_name (core_replayed self.now.test_list kind.now) ≡ codes "test-slow" }
        ensures { Converts (core_refusal (is_registered self.now.tests) kind.now)
            (core_replayed self.now.test_list kind.now) result }
    {
        let CoreEventKind::TestSlow {
            stress_index,
            test_instance,
            retry_data,
            elapsed,
            will_terminate,
        } = kind
        else {
            unreachable!()
        };
        let test_instance = self.find(alloc, test_instance)?;
        Ok(TestEventKind::TestSlow {
            stress_index: replay_index(stress_index),
            test_instance,
            retry_data: *retry_data,
            elapsed: *elapsed,
            will_terminate: *will_terminate,
        })
    }

    /// Replays the start of a further attempt.
    fn retry_started<'cx>(
        &'cx self,
        alloc: Global,
        kind: &CoreEventKind,
    ) -> Result<TestEventKind<'cx>, ReplayConversionError>
        requires kind { kind_name (core_replayed self.now.test_list kind.now)
            ≡ codes "test-retry-started" }
        ensures { Converts (core_refusal (is_registered self.now.tests) kind.now)
            (core_replayed self.now.test_list kind.now) result }
    {
        let CoreEventKind::TestRetryStarted {
            stress_index,
            test_instance,
            slot_assignment,
            retry_data,
            running,
            command_line,
        } = kind
        else {
            unreachable!()
        };
        let test_instance = self.find(alloc, test_instance)?;
        let (slot_assignment, command_line) = clone_both(alloc, slot_assignment, command_line)?;
        Ok(TestEventKind::TestRetryStarted {
            stress_index: replay_index(stress_index),
            test_instance,
            slot_assignment,
            retry_data: *retry_data,
            running: *running,
            command_line,
        })
    }

    /// Replays that a test is skipped.
    fn test_skipped<'cx>(
        &'cx self,
        alloc: Global,
        kind: &CoreEventKind,
    ) -> Result<TestEventKind<'cx>, ReplayConversionError>
        requires kind { kind_name (core_replayed self.now.test_list kind.now)
            ≡ codes "test-skipped" }
        ensures { Converts (core_refusal (is_registered self.now.tests) kind.now)
            (core_replayed self.now.test_list kind.now) result }
    {
        let CoreEventKind::TestSkipped {
            stress_index,
            test_instance,
            reason,
            junit_report_skipped,
        } = kind
        else {
            unreachable!()
        };
        let test_instance = self.find(alloc, test_instance)?;
        Ok(TestEventKind::TestSkipped {
            stress_index: replay_index(stress_index),
            test_instance,
            reason: *reason,
            junit_report_skipped: *junit_report_skipped,
        })
    }

    /// Replays the start of a setup script.
    fn script_started<'cx>(
        &'cx self,
        alloc: Global,
        kind: &CoreEventKind,
    ) -> Result<TestEventKind<'cx>, ReplayConversionError>
        requires kind { kind_name (core_replayed self.now.test_list kind.now)
            ≡ codes "setup-script-started" }
        ensures { Converts (core_refusal (is_registered self.now.tests) kind.now)
            (core_replayed self.now.test_list kind.now) result }
    {
        let CoreEventKind::SetupScriptStarted {
            stress_index,
            index,
            total,
            script_id,
            program,
            args,
            no_capture,
        } = kind
        else {
            unreachable!()
        };
        let (script_id, program, args) = script_copies(alloc, script_id, program, args)?;
        Ok(TestEventKind::SetupScriptStarted {
            stress_index: replay_index(stress_index),
            index: *index,
            total: *total,
            script_id,
            program,
            args,
            no_capture: *no_capture,
        })
    }

    /// Replays that a setup script is slow.
    fn script_slow<'cx>(
        &'cx self,
        alloc: Global,
        kind: &CoreEventKind,
    ) -> Result<TestEventKind<'cx>, ReplayConversionError>
        requires kind { kind_name (core_replayed self.now.test_list kind.now)
            ≡ codes "setup-script-slow" }
        ensures { Converts (core_refusal (is_registered self.now.tests) kind.now)
            (core_replayed self.now.test_list kind.now) result }
    {
        let CoreEventKind::SetupScriptSlow {
            stress_index,
            script_id,
            program,
            args,
            elapsed,
            will_terminate,
        } = kind
        else {
            unreachable!()
        };
        let (script_id, program, args) = script_copies(alloc, script_id, program, args)?;
        Ok(TestEventKind::SetupScriptSlow {
            stress_index: replay_index(stress_index),
            script_id,
            program,
            args,
            elapsed: *elapsed,
            will_terminate: *will_terminate,
        })
    }

    /// Replays the end of a run.
    fn run_finished<'cx>(
        &'cx self,
        alloc: Global,
        kind: &CoreEventKind,
    ) -> Result<TestEventKind<'cx>, ReplayConversionError>
        requires kind { kind_name (core_replayed self.now.test_list kind.now)
            ≡ codes "run-finished" }
        ensures { Converts (core_refusal (is_registered self.now.tests) kind.now)
            (core_replayed self.now.test_list kind.now) result }
    {
        let CoreEventKind::RunFinished {
            run_id,
            start_time,
            elapsed,
            run_stats,
            outstanding_not_seen,
        } = kind
        else {
            unreachable!()
        };
        Ok(TestEventKind::RunFinished {
            run_id: *run_id,
            start_time: *start_time,
            elapsed: *elapsed,
            run_stats: *run_stats,
            outstanding_not_seen: outstanding_not_seen.try_clone(alloc)?,
        })
    }

    /// Replays what happened without outputs.
    pub(crate) fn convert_core<'cx>(
        &'cx self,
        alloc: Global,
        kind: &CoreEventKind,
    ) -> Result<TestEventKind<'cx>, ReplayConversionError>
        ensures { Converts (core_refusal (is_registered self.now.tests) kind.now)
            (core_replayed self.now.test_list kind.now) result }
    {
        match kind {
            CoreEventKind::RunStarted { .. } => self.run_started(alloc, kind),
            CoreEventKind::StressSubRunStarted { progress } => {
                Ok(TestEventKind::StressSubRunStarted {
                    progress: *progress,
                })
            }
            CoreEventKind::SetupScriptStarted { .. } => self.script_started(alloc, kind),
            CoreEventKind::SetupScriptSlow { .. } => self.script_slow(alloc, kind),
            CoreEventKind::TestStarted { .. } => self.test_started(alloc, kind),
            CoreEventKind::TestSlow { .. } => self.test_slow(alloc, kind),
            CoreEventKind::TestRetryStarted { .. } => self.retry_started(alloc, kind),
            CoreEventKind::TestSkipped { .. } => self.test_skipped(alloc, kind),
            CoreEventKind::RunBeginCancel {
                setup_scripts_running,
                running,
                reason,
            } => Ok(TestEventKind::RunBeginCancel {
                setup_scripts_running: *setup_scripts_running,
                running: *running,
                current_stats: cancelled(*reason),
            }),
            CoreEventKind::RunPaused {
                setup_scripts_running,
                running,
            } => Ok(TestEventKind::RunPaused {
                setup_scripts_running: *setup_scripts_running,
                running: *running,
            }),
            CoreEventKind::RunContinued {
                setup_scripts_running,
                running,
            } => Ok(TestEventKind::RunContinued {
                setup_scripts_running: *setup_scripts_running,
                running: *running,
            }),
            CoreEventKind::StressSubRunFinished {
                progress,
                sub_elapsed,
                sub_stats,
            } => Ok(TestEventKind::StressSubRunFinished {
                progress: *progress,
                sub_elapsed: *sub_elapsed,
                sub_stats: *sub_stats,
            }),
            CoreEventKind::RunFinished { .. } => self.run_finished(alloc, kind),
        }
    }
}

/// Copies what names a setup script and what it runs.
pub(crate) fn script_copies(
    alloc: Global,
    script_id: &ScriptId,
    program: &Text,
    args: &Items<Text>,
) -> Result<(ScriptId, Text, Items<Text>), AllocError>
    ensures { IfOk result (λ c. c ≡ (script_id.now, program.now, args.now)) }
{
    let script_id = script_id.try_clone(alloc)?;
    let Ok((program, args)) = clone_both(alloc, program, args) else {
        drop(script_id);
        return Err(AllocError);
    };
    Ok((script_id, program, args))
}

/// Gives the statistics of a cancel: nothing but its reason.
fn cancelled(reason: CancelReason) -> RunStats
    ensures { result ≡ record no_stats { cancel_reason = (Some reason) } }
{
    let mut stats = RunStats::zero();
    stats.cancel_reason = Some(reason);
    stats
}

/// Replays an index that may not be there.
pub(crate) fn replay_index(index: &Option<StressIndexSummary>) -> Option<StressIndex>
    ensures { result ≡ index_replayed index.now }
{
    match index {
        Some(index) => Some(StressIndex {
            current: index.current,
            total: index.total,
        }),
        None => None,
    }
}

/// Replays a condition that may not be there.
fn replay_condition(
    condition: &Option<StressConditionSummary>,
) -> Result<Option<StressCondition>, ReplayConversionError>
    ensures { Converts (condition_refusal condition.now)
        (option_map condition_replayed condition.now) result }
{
    match condition {
        None => Ok(None),
        Some(StressConditionSummary::Count { count: None }) => {
            Ok(Some(StressCondition::Count(StressCount::Infinite)))
        }
        Some(StressConditionSummary::Count { count: Some(count) }) => {
            match NonZeroCount::new(*count) {
                Some(count) => Ok(Some(StressCondition::Count(StressCount::Count { count }))),
                None => Err(ReplayConversionError::InvalidStressCount),
            }
        }
        Some(StressConditionSummary::Duration { duration }) => {
            Ok(Some(StressCondition::Duration(*duration)))
        }
    }
}
