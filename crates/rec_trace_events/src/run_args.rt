//! The args of the slices of a run, and of the runs of a stress run.
ghost use Rattle.std.specs.Prelude.{[], ◌∷◌, Some, option_map, codes};
ghost use Rattle.rec_forms.specs.ObjectWriting.{Writes};
ghost use Rattle.rec_forms.specs.Writable.{IfWritten, IsWritable};
ghost use Rattle.rec_trace_events.specs.Args.{not_seen_args};

use crate::args::Args;
use rec_events::{
    Duration, Items, ReportUuid, RunFinishedStats, RunStats, StressConditionSummary,
    StressProgress, TestsNotSeenSummary, Text, Version,
};
use rec_forms::ObjectWriter;
use rec_json::JsonText;
use std::alloc::{AllocError, Global};

/// Holds the args of the begin of a run.
#[derive(Drop)]
pub struct RunBeginArgs<'a> {
    /// The version of the runner.
    pub version: &'a Version,
    /// The id of the run.
    pub run_id: &'a ReportUuid,
    /// The name of the profile that the run uses.
    pub profile: &'a str,
    /// The command line of the run.
    pub cli_args: &'a Items<Text>,
    /// What ends the stress run; `None` where the run is none.
    pub stress_condition: &'a Option<StressConditionSummary>,
}

impl<'a> Args for RunBeginArgs<'a> {
    ghost use Rattle.rec_trace_events.specs.Args.{run_begin_args};

    ghost value_of = { λ a. run_begin_args a.version.now a.run_id.now a.profile.now a.cli_args.now
        a.stress_condition.now };

    #[tactic(auto, unfolding(crate::specs::Args::run_begin_args))]
    fn write(&self, alloc: Global, text: &mut JsonText) -> Result<(), AllocError> {
        ObjectWriter::begin(alloc, text)
            .field(text, "cli_args", self.cli_args)
            .field(text, "nextest_version", self.version)
            .text(text, "profile", self.profile)
            .field(text, "run_id", self.run_id)
            .optional(text, "stress_condition", self.stress_condition)
            .end(text)
    }
}

/// Holds the args of the end of a run.
#[derive(Drop)]
pub struct RunEndArgs<'a> {
    /// The version of the runner.
    pub version: &'a Version,
    /// How long the run took.
    pub time_taken: &'a Duration,
    /// The name of the profile that the last start of a run named.
    pub profile: &'a str,
    /// The counts of the run.
    pub run_stats: &'a RunFinishedStats,
    /// The outstanding tests that a rerun didn't come to, where there are any. Their number alone
    /// is written.
    pub outstanding_not_seen: &'a Option<TestsNotSeenSummary>,
}

/// Writes how many tests a run didn't come to.
fn with_not_seen_count(
    object: ObjectWriter,
    text: &mut JsonText,
    not_seen: &TestsNotSeenSummary,
) -> ObjectWriter
    ensures { Writes object text.old result text.new
        ((codes "outstanding_not_seen", Some (not_seen_args not_seen.now)) ∷ [])
        (IsWritable 7 (not_seen_args not_seen.now)) }
{
    object
        .open(text, "outstanding_not_seen")
        .field(text, "total_not_seen", &not_seen.total_not_seen)
        .close(text)
}

/// Writes how many tests a run didn't come to, where that is known.
fn with_not_seen(
    object: ObjectWriter,
    text: &mut JsonText,
    not_seen: &Option<TestsNotSeenSummary>,
) -> ObjectWriter
    ensures { Writes object text.old result text.new
        ((codes "outstanding_not_seen", option_map not_seen_args not_seen.now) ∷ [])
        (IfWritten 7 (option_map not_seen_args not_seen.now)) }
{
    match not_seen {
        Some(not_seen) => with_not_seen_count(object, text, not_seen),
        None => object,
    }
}

impl<'a> Args for RunEndArgs<'a> {
    ghost use Rattle.rec_trace_events.specs.Args.{run_end_args};

    ghost value_of = { λ a. run_end_args a.version.now a.time_taken.now a.profile.now
        a.run_stats.now a.outstanding_not_seen.now };

    #[tactic(auto, unfolding(crate::specs::Args::run_end_args))]
    fn write(&self, alloc: Global, text: &mut JsonText) -> Result<(), AllocError> {
        let object = ObjectWriter::begin(alloc, text);
        let object = object.field(text, "nextest_version", self.version);
        let object = with_not_seen(object, text, self.outstanding_not_seen);
        let object = object.text(text, "profile", self.profile);
        let object = object.field(text, "run_stats", self.run_stats);
        let object = object.field(text, "time_taken", self.time_taken);
        object.end(text)
    }
}

/// Holds the args of the begin of one of a stress run's runs.
#[derive(Drop)]
pub struct SubRunBeginArgs<'a> {
    /// How far the stress run had got by then.
    pub progress: &'a StressProgress,
}

impl<'a> Args for SubRunBeginArgs<'a> {
    ghost use Rattle.rec_trace_events.specs.Args.{sub_run_begin_args};

    ghost value_of = { λ a. sub_run_begin_args a.progress.now };

    #[tactic(auto, unfolding(crate::specs::Args::sub_run_begin_args))]
    fn write(&self, alloc: Global, text: &mut JsonText) -> Result<(), AllocError> {
        ObjectWriter::begin(alloc, text)
            .field(text, "progress", self.progress)
            .end(text)
    }
}

/// Holds the args of the end of one of a stress run's runs.
#[derive(Drop)]
pub struct SubRunEndArgs<'a> {
    /// How far the stress run got, this sub-run included.
    pub progress: &'a StressProgress,
    /// How long the sub-run took.
    pub time_taken: &'a Duration,
    /// The counts of the sub-run.
    pub sub_stats: &'a RunStats,
}

impl<'a> Args for SubRunEndArgs<'a> {
    ghost use Rattle.rec_trace_events.specs.Args.{sub_run_end_args};

    ghost value_of = { λ a. sub_run_end_args a.progress.now a.time_taken.now a.sub_stats.now };

    #[tactic(auto, unfolding(crate::specs::Args::sub_run_end_args))]
    fn write(&self, alloc: Global, text: &mut JsonText) -> Result<(), AllocError> {
        ObjectWriter::begin(alloc, text)
            .field(text, "progress", self.progress)
            .field(text, "sub_stats", self.sub_stats)
            .field(text, "time_taken", self.time_taken)
            .end(text)
    }
}
