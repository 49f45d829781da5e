//! The args of the ends of attempts.
ghost use Rattle.std.specs.Prelude.{◌≡◌, [], ◌∷◌, IfOk, Some, codes, option_copied};
ghost use Rattle.rec_forms.specs.Groups.{test_group_value};
ghost use Rattle.rec_forms.specs.ObjectWriting.{Writes};
ghost use Rattle.rec_forms.specs.Writable.{EachWritten, IsWritable};
ghost use Rattle.rec_trace_events.specs.Args.{counted_flaky_result};
ghost use Rattle.rec_trace_events.specs.AttemptEnds.{first_fields, group_or_global};
ghost use Rattle.rec_trace_events.specs.AttemptEnds.{last_fields, middle_fields};

use crate::args::Args;
use crate::error_args::with_attempt_error;
use crate::members::{with_delay, with_stress_index};
use rec_events::{
    Duration, ExecuteStatus, ExecutionStatuses, FlakyResult, OutputSpec, OwnedTestInstanceId,
    StressIndexSummary, TestGroup,
};
use rec_forms::ObjectWriter;
use rec_json::JsonText;
use std::alloc::{AllocError, Global};

/// Holds the args of the end of an attempt that failed, after which another one follows.
#[derive(Drop)]
pub struct FailedAttemptArgs<'a, S: OutputSpec> {
    /// The test.
    pub test: &'a OwnedTestInstanceId,
    /// Which of a stress run's runs it belongs to.
    pub stress_index: &'a Option<StressIndexSummary>,
    /// The group in which the attempt was started; none stands for the global group.
    pub test_group: Option<&'a TestGroup>,
    /// The attempt that failed.
    pub status: &'a ExecuteStatus<S>,
    /// How long the runner waits before the next attempt.
    pub delay_before_next_attempt: &'a Duration,
}

impl<'a, S: OutputSpec> Args for FailedAttemptArgs<'a, S> {
    ghost use Rattle.std.specs.Prelude.{option_copied};
    ghost use Rattle.rec_trace_events.specs.Args.{failed_attempt_args};
    ghost use Rattle.rec_trace_events.specs.AttemptEnds.{group_or_global};

    ghost value_of = { λ a. failed_attempt_args a.test.now a.stress_index.now
        (group_or_global (option_copied a.test_group)) a.status.now
        a.delay_before_next_attempt.now };

    #[tactic(auto, unfolding(crate::specs::Args::failed_attempt_args))]
    fn write(&self, alloc: Global, text: &mut JsonText) -> Result<(), AllocError> {
        let (test, status) = (self.test, self.status);
        let delay = self.delay_before_next_attempt;
        let object = ObjectWriter::begin(alloc, text);
        let object = with_first_fields(object, text, test, status);
        let object = with_delay(object, text, "delay_before_next_attempt", delay);
        let object = with_middle_fields(object, alloc, text, status, None)?;
        let (index, group) = (self.stress_index, self.test_group);
        let object = with_last_fields(object, text, test, index, group, status);
        object.end(text)
    }
}

/// Holds the args of the end of a test, which is that of its last attempt.
#[derive(Drop)]
pub struct LastAttemptArgs<'a, S: OutputSpec> {
    /// The test.
    pub test: &'a OwnedTestInstanceId,
    /// Which of a stress run's runs it belongs to.
    pub stress_index: &'a Option<StressIndexSummary>,
    /// The group in which the attempt was started; none stands for the global group.
    pub test_group: Option<&'a TestGroup>,
    /// The test's last attempt.
    pub last: &'a ExecuteStatus<S>,
    /// The flaky result of the test, where it counts.
    pub flaky: Option<FlakyResult>,
}

impl<'a, S: OutputSpec> Args for LastAttemptArgs<'a, S> {
    ghost use Rattle.std.specs.Prelude.{option_copied};
    ghost use Rattle.rec_trace_events.specs.Args.{last_attempt_args};
    ghost use Rattle.rec_trace_events.specs.AttemptEnds.{group_or_global};

    ghost value_of = { λ a. last_attempt_args a.test.now a.stress_index.now
        (group_or_global (option_copied a.test_group)) a.last.now a.flaky };

    fn write(&self, alloc: Global, text: &mut JsonText) -> Result<(), AllocError> {
        let (test, last) = (self.test, self.last);
        let object = ObjectWriter::begin(alloc, text);
        let object = with_first_fields(object, text, test, last);
        let object = with_middle_fields(object, alloc, text, last, self.flaky)?;
        let (index, group) = (self.stress_index, self.test_group);
        let object = with_last_fields(object, text, test, index, group, last);
        object.end(text)
    }
}

/// Writes the fields with the keys from `attempt` to `cpu_time`.
fn with_first_fields<S: OutputSpec>(
    object: ObjectWriter,
    text: &mut JsonText,
    test: &OwnedTestInstanceId,
    status: &ExecuteStatus<S>,
) -> ObjectWriter
    ensures { Writes object text.old result text.new
        (first_fields test.now status.now) (EachWritten 7 (first_fields test.now status.now)) }
{
    object
        .field(text, "attempt", &status.retry_data.attempt)
        .field(text, "binary_id", &test.binary_id)
        .optional(text, "cpu_time", &status.cpu_time)
}

/// Writes the fields with the keys from `delay_before_start` to `result`.
///
/// # Errors
///
/// `AllocError` if memory runs out for what is said of a flaky test.
fn with_middle_fields<S: OutputSpec>(
    object: ObjectWriter,
    alloc: Global,
    text: &mut JsonText,
    status: &ExecuteStatus<S>,
    flaky: Option<FlakyResult>,
) -> Result<ObjectWriter, AllocError>
    ensures { IfOk result (λ after. Writes object text.old after text.new
        (middle_fields status.now flaky) (EachWritten 7 (middle_fields status.now flaky))) }
{
    let delay = &status.delay_before_start;
    let object = with_delay(object, text, "delay_before_start", delay);
    let (summary, retry) = (&status.error_summary, &status.retry_data);
    let object = with_attempt_error(object, alloc, text, summary, retry, flaky)?;
    let object = object.optional(text, "flaky_result", &flaky);
    let object = object.field(text, "is_slow", &status.is_slow);
    Ok(object.field(text, "result", &status.result))
}

/// Writes the fields with the keys from `stress_index` to `total_attempts`.
fn with_last_fields<S: OutputSpec>(
    object: ObjectWriter,
    text: &mut JsonText,
    test: &OwnedTestInstanceId,
    stress_index: &Option<StressIndexSummary>,
    test_group: Option<&TestGroup>,
    status: &ExecuteStatus<S>,
) -> ObjectWriter
    ensures { Writes object text.old result text.new
        (last_fields
        test.now stress_index.now (group_or_global (option_copied test_group.entry)) status.now)
        (EachWritten 7 (last_fields
        test.now stress_index.now (group_or_global (option_copied test_group.entry)) status.now)) }
{
    let object = with_stress_index(object, text, stress_index);
    let object = with_group(object, text, test_group);
    let object = object.field(text, "test_name", &test.test_name);
    let object = object.field(text, "time_taken", &status.time_taken);
    object.field(text, "total_attempts", &status.retry_data.total_attempts)
}

/// Writes a group, or else the global one.
fn with_group(object: ObjectWriter, text: &mut JsonText, group: Option<&TestGroup>) -> ObjectWriter
    ensures { Writes object text.old result text.new
        ((codes "test_group", Some (test_group_value (group_or_global (option_copied group.entry))))
        ∷ [])
        (IsWritable 0 (test_group_value (group_or_global (option_copied group.entry)))) }
{
    match group {
        Some(group) => object.field(text, "test_group", group),
        None => object.field(text, "test_group", &TestGroup::Global),
    }
}

/// Returns the flaky result of a test, where it counts: several attempts were made, and the last
/// one succeeded.
pub fn counted_flaky_result<S: OutputSpec>(
    statuses: &ExecutionStatuses<S>,
    last: &ExecuteStatus<S>,
) -> Option<FlakyResult>
    ensures { result ≡ counted_flaky_result statuses.now last.now }
{
    if statuses.len() > 1 && last.result.is_success() {
        Some(statuses.flaky_result())
    } else {
        None
    }
}
