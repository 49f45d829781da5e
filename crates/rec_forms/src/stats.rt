//! The counts of a run, in three parts that follow the order of the keys.
ghost use Rattle.rec_json.specs.Nodes.{members_view};
ghost use Rattle.rec_forms.specs.Gives.{Gives};
ghost use Rattle.rec_forms.specs.ObjectWriting.{Writes};

use crate::fields::optional_field;
use crate::objects::ObjectWriter;
use crate::several::{required_four, required_three};
use crate::{Form, FromValueError};
use rec_events::RunStats;
use rec_json::{JsonText, Node};
use std::alloc::{AllocError, Global};

/// Counts tests, by the keys from `exec-failed` to `flaky`.
#[derive(Drop)]
struct FirstCounts {
    exec_failed: usize,
    failed: usize,
    failed_slow: usize,
    failed_timed_out: usize,
    finished_count: usize,
    flaky: usize,
}

impl FirstCounts {
    ghost use Rattle.rec_forms.specs.Stats.{first_counts_fields, first_counts_form, AreFirstCounts};

    /// Writes this part of `stats`.
    fn write(object: ObjectWriter, text: &mut JsonText, stats: &RunStats) -> ObjectWriter
        ensures { Writes object text.old result text.new
            (first_counts_fields stats.now) (AreFirstCounts stats.now) }
    {
        let object = object.field(text, "exec-failed", &stats.exec_failed);
        let object = object.field(text, "failed", &stats.failed);
        let object = object.field(text, "failed-slow", &stats.failed_slow);
        let object = object.field(text, "failed-timed-out", &stats.failed_timed_out);
        let object = object.field(text, "finished-count", &stats.finished_count);
        object.field(text, "flaky", &stats.flaky)
    }

    /// Reads this part.
    #[tactic(auto, unfolding(crate::specs::Stats::first_counts_form))]
    fn read<'a>(
        alloc: Global,
        object: &[(&'a str, Node<'a>)],
    ) -> Result<FirstCounts, FromValueError>
        ensures { Gives result (first_counts_form (members_view object.now)) }
    {
        let (exec_failed, failed, failed_slow) = required_three(
            alloc,
            object,
            "exec-failed",
            "failed",
            "failed-slow",
        )?;
        let (failed_timed_out, finished_count, flaky) = required_three(
            alloc,
            object,
            "failed-timed-out",
            "finished-count",
            "flaky",
        )?;
        Ok(FirstCounts {
            exec_failed,
            failed,
            failed_slow,
            failed_timed_out,
            finished_count,
            flaky,
        })
    }
}

/// Counts tests, by the keys from `initial-run-count` to `passed-timed-out`.
#[derive(Drop)]
struct MiddleCounts {
    initial_run_count: usize,
    leaky: usize,
    leaky_failed: usize,
    passed: usize,
    passed_slow: usize,
    passed_timed_out: usize,
}

impl MiddleCounts {
    ghost use Rattle.rec_forms.specs.Stats.{
      middle_counts_fields,
      middle_counts_form,
      AreMiddleCounts,
    };

    /// Writes this part of `stats`.
    fn write(object: ObjectWriter, text: &mut JsonText, stats: &RunStats) -> ObjectWriter
        ensures { Writes object text.old result text.new
            (middle_counts_fields stats.now) (AreMiddleCounts stats.now) }
    {
        let object = object.field(text, "initial-run-count", &stats.initial_run_count);
        let object = object.field(text, "leaky", &stats.leaky);
        let object = object.field(text, "leaky-failed", &stats.leaky_failed);
        let object = object.field(text, "passed", &stats.passed);
        let object = object.field(text, "passed-slow", &stats.passed_slow);
        object.field(text, "passed-timed-out", &stats.passed_timed_out)
    }

    /// Reads this part.
    #[tactic(auto, unfolding(crate::specs::Stats::middle_counts_form))]
    fn read<'a>(
        alloc: Global,
        object: &[(&'a str, Node<'a>)],
    ) -> Result<MiddleCounts, FromValueError>
        ensures { Gives result (middle_counts_form (members_view object.now)) }
    {
        let (initial_run_count, leaky, leaky_failed) = required_three(
            alloc,
            object,
            "initial-run-count",
            "leaky",
            "leaky-failed",
        )?;
        let (passed, passed_slow, passed_timed_out) = required_three(
            alloc,
            object,
            "passed",
            "passed-slow",
            "passed-timed-out",
        )?;
        Ok(MiddleCounts {
            initial_run_count,
            leaky,
            leaky_failed,
            passed,
            passed_slow,
            passed_timed_out,
        })
    }
}

/// Counts setup scripts and skipped tests.
#[derive(Drop)]
struct LastCounts {
    setup_scripts_exec_failed: usize,
    setup_scripts_failed: usize,
    setup_scripts_finished_count: usize,
    setup_scripts_initial_count: usize,
    setup_scripts_passed: usize,
    setup_scripts_timed_out: usize,
    skipped: usize,
}

impl LastCounts {
    ghost use Rattle.rec_forms.specs.Stats.{last_counts_fields, last_counts_form, AreLastCounts};

    /// Writes this part of `stats`.
    fn write(object: ObjectWriter, text: &mut JsonText, stats: &RunStats) -> ObjectWriter
        ensures { Writes object text.old result text.new
            (last_counts_fields stats.now) (AreLastCounts stats.now) }
    {
        let object = object.field(
            text,
            "setup-scripts-exec-failed",
            &stats.setup_scripts_exec_failed,
        );
        let object = object.field(text, "setup-scripts-failed", &stats.setup_scripts_failed);
        let object = object.field(
            text,
            "setup-scripts-finished-count",
            &stats.setup_scripts_finished_count,
        );
        let object = object.field(
            text,
            "setup-scripts-initial-count",
            &stats.setup_scripts_initial_count,
        );
        let object = object.field(text, "setup-scripts-passed", &stats.setup_scripts_passed);
        let object = object.field(
            text,
            "setup-scripts-timed-out",
            &stats.setup_scripts_timed_out,
        );
        object.field(text, "skipped", &stats.skipped)
    }

    /// Reads this part.
    #[tactic(auto, unfolding(crate::specs::Stats::last_counts_form))]
    fn read<'a>(alloc: Global, object: &[(&'a str, Node<'a>)]) -> Result<LastCounts, FromValueError>
        ensures { Gives result (last_counts_form (members_view object.now)) }
    {
        let (
            setup_scripts_exec_failed,
            setup_scripts_failed,
            setup_scripts_finished_count,
            setup_scripts_initial_count,
        ) = required_four(
            alloc,
            object,
            "setup-scripts-exec-failed",
            "setup-scripts-failed",
            "setup-scripts-finished-count",
            "setup-scripts-initial-count",
        )?;
        let (setup_scripts_passed, setup_scripts_timed_out, skipped) = required_three(
            alloc,
            object,
            "setup-scripts-passed",
            "setup-scripts-timed-out",
            "skipped",
        )?;
        Ok(LastCounts {
            setup_scripts_exec_failed,
            setup_scripts_failed,
            setup_scripts_finished_count,
            setup_scripts_initial_count,
            setup_scripts_passed,
            setup_scripts_timed_out,
            skipped,
        })
    }
}

impl Form for RunStats {
    ghost use Rattle.std.specs.Prelude.{refl};
    ghost use Rattle.rec_forms.specs.Stats.{run_stats_value, run_stats_form, IsRunStats};
    ghost use Rattle.rec_forms.specs.StatsLaws.{
      run_stats_back,
      run_stats_writable,
      run_stats_well_formed,
    };
    ghost use Rattle.rec_forms.specs.Writable.{within_depth};

    ghost well_formed = { IsRunStats };

    ghost value_of = { run_stats_value };

    ghost form_of = { run_stats_form };

    ghost levels = { 1 };

    ghost reads_back = { run_stats_back };

    ghost reads_well_formed = { run_stats_well_formed };

    ghost writable = { run_stats_writable };

    ghost shallow = { within_depth refl };

    fn write(&self, alloc: Global, text: &mut JsonText) -> Result<(), AllocError> {
        let object = ObjectWriter::begin(alloc, text);
        let object = object.optional(text, "cancel-reason", &self.cancel_reason);
        let object = FirstCounts::write(object, text, self);
        let object = MiddleCounts::write(object, text, self);
        let object = LastCounts::write(object, text, self);
        object.end(text)
    }

    #[tactic(auto, unfolding(crate::specs::Stats::run_stats_form))]
    fn from_node(alloc: Global, node: &Node<'_>) -> Result<RunStats, FromValueError> {
        let Some(object) = node.as_object() else {
            return Err(FromValueError::NotAValue);
        };
        let first = FirstCounts::read(alloc, object)?;
        let middle = MiddleCounts::read(alloc, object)?;
        let last = LastCounts::read(alloc, object)?;
        Ok(RunStats {
            setup_scripts_initial_count: last.setup_scripts_initial_count,
            setup_scripts_finished_count: last.setup_scripts_finished_count,
            setup_scripts_passed: last.setup_scripts_passed,
            setup_scripts_failed: last.setup_scripts_failed,
            setup_scripts_exec_failed: last.setup_scripts_exec_failed,
            setup_scripts_timed_out: last.setup_scripts_timed_out,
            initial_run_count: middle.initial_run_count,
            finished_count: first.finished_count,
            passed: middle.passed,
            passed_slow: middle.passed_slow,
            passed_timed_out: middle.passed_timed_out,
            flaky: first.flaky,
            failed: first.failed,
            failed_slow: first.failed_slow,
            failed_timed_out: first.failed_timed_out,
            leaky: middle.leaky,
            leaky_failed: middle.leaky_failed,
            exec_failed: first.exec_failed,
            skipped: last.skipped,
            cancel_reason: optional_field(alloc, object, "cancel-reason")?,
        })
    }
}
