//! The attempts of a test, with their outputs.
ghost use Rattle.std.specs.Prelude.{◌≡◌, ◌++◌, OnOk};
ghost use Rattle.rec_json.specs.Nodes.{members_view, view};
ghost use Rattle.rec_json.specs.Tokens.{value_tokens};
ghost use Rattle.rec_events.specs.declared.outputs.ChildExecutionOutputDescription.TheVariants.{
  Output,
};
ghost use Rattle.rec_forms.specs.Gives.{Gives};
ghost use Rattle.rec_forms.specs.ObjectWriting.{Writes};
ghost use Rattle.rec_forms.specs.Shape.{required};
ghost use Rattle.rec_codec.specs.Status.{description_value, IsDescription, output_case_form};
ghost use Rattle.rec_codec.specs.Status.{before_output, before_output_fields, before_output_form};
ghost use Rattle.rec_codec.specs.Status.{IsBeforeOutput, after_output, after_output_fields};
ghost use Rattle.rec_codec.specs.Status.{after_output_form, IsAfterOutput, attempts_form};
ghost use Rattle.rec_codec.specs.Writes.{WritesLoaded};

use crate::loaded_fields::{begin_field, ended, with_loaded, with_output};
use crate::loaded_form::{LoadedForm, required_loaded, required_some, write_each};
use crate::{OutputForm, ToValueError};
use rec_events::{
    ChildExecutionOutputDescription, Duration, ErrorSummary, ExecuteStatus,
    ExecutionResultDescription, ExecutionStatuses, Items, NonEmpty, OutputErrorSlice, RetryData,
    Stamp, Text,
};
use rec_forms::{
    Form, FromValueError, ObjectWriter, optional_field, optional_two, required_field,
    required_four, required_two, write_tagged,
};
use rec_json::{JsonText, Node, member, only_member};
use std::alloc::Global;

/// Writes the outputs of a process that was started.
fn write_outputs<S: OutputForm>(
    alloc: Global,
    ended: &Option<ExecutionResultDescription>,
    output: &S::ChildOutput,
    errors: &Option<Items<Text>>,
    text: &mut JsonText,
) -> Result<(), ToValueError>
    ensures written { OnOk result (text.new ≡ text.old ++ value_tokens
        (description_value {S = S} S.output_value (Output ended.now output.now errors.now))) }
    ensures loaded { WritesLoaded result (S.loaded output.now) }
    ensures known { OnOk result
        (IsDescription {S = S} S.output_well_formed (Output ended.now output.now errors.now)) }
{
    let object = ObjectWriter::begin_tagged(alloc, text, "output");
    let object = object.optional(text, "errors", errors);
    let object = with_output::<S>(alloc, object, text, "output", output)?;
    let object = object.optional(text, "result", ended);
    Ok(object.end_tagged(text)?)
}

/// Reads an output that has to be there.
fn required_output<'a, S: OutputForm>(
    alloc: Global,
    object: &[(&'a str, Node<'a>)],
    key: &str,
) -> Result<S::ChildOutput, FromValueError>
    ensures { Gives result (required S.output_form key.now (members_view object.now)) }
{
    match member(object, key) {
        Some(node) => S::output_from_node(alloc, node),
        None => Err(FromValueError::NotAValue),
    }
}

/// The outputs of a process that was started.
#[tactic(auto, unfolding(crate::specs::Status::output_case_form))]
fn output_from<S: OutputForm>(
    alloc: Global,
    node: &Node<'_>,
) -> Result<ChildExecutionOutputDescription<S>, FromValueError>
    ensures { Gives result (output_case_form S.output_form (view node.now)) }
{
    let Some(fields) = node.as_object() else {
        return Err(FromValueError::NotAValue);
    };
    let (result, errors) = optional_two(alloc, fields, "result", "errors")?;
    let output = match required_output::<S>(alloc, fields, "output") {
        Ok(output) => output,
        Err(error) => {
            // by a call: in place, each case of what is let go is one of the proof
            drop((result, errors));
            return Err(error);
        }
    };
    Ok(ChildExecutionOutputDescription::Output {
        result,
        output,
        errors,
    })
}

impl<S: OutputForm> LoadedForm for ChildExecutionOutputDescription<S> {
    ghost use Rattle.std.specs.Prelude.{◌+◌};
    ghost use Rattle.rec_codec.specs.Status.{description_value, description_form};
    ghost use Rattle.rec_codec.specs.Status.{description_loaded, IsDescription};
    ghost use Rattle.rec_codec.specs.StatusLaws.{
      description_back,
      description_writable,
      description_well_formed,
    };

    ghost well_formed = { IsDescription S.output_well_formed };

    ghost loaded = { description_loaded S.loaded };

    ghost value_of = { description_value S.output_value };

    ghost form_of = { description_form S.output_form };

    ghost levels = { S.output_levels + 6 };

    ghost reads_back = { description_back S.output_well_formed S.output_value S.output_form
        S.output_reads_back };

    ghost reads_well_formed = { description_well_formed S.output_well_formed S.output_form
        S.output_reads_well_formed };

    ghost writable = { description_writable S.output_well_formed S.output_levels S.output_value
        S.output_writable };

    fn write(&self, alloc: Global, text: &mut JsonText) -> Result<(), ToValueError> {
        match self {
            ChildExecutionOutputDescription::Output {
                result,
                output,
                errors,
            } => write_outputs::<S>(alloc, result, output, errors, text),
            ChildExecutionOutputDescription::StartError { message } => {
                Ok(write_tagged(alloc, text, "start-error", message)?)
            }
        }
    }

    #[tactic(auto, unfolding(crate::specs::Status::description_form), using(rec_forms::specs::VariantLaws::variant_cased))]
    fn from_node(
        alloc: Global,
        node: &Node<'_>,
    ) -> Result<ChildExecutionOutputDescription<S>, FromValueError> {
        let Some(object) = node.as_object() else {
            return Err(FromValueError::NotAValue);
        };
        match only_member(object) {
            Some(("output", node)) => output_from(alloc, node),
            Some(("start-error", node)) => Ok(ChildExecutionOutputDescription::StartError {
                message: Text::from_node(alloc, node)?,
            }),
            _ => Err(FromValueError::NotAValue),
        }
    }
}

/// Holds what stands before the output of an attempt, in the order of the keys.
#[derive(Drop)]
struct BeforeOutput {
    cpu_time: Option<Duration>,
    delay_before_start: Duration,
    error_summary: Option<ErrorSummary>,
    is_slow: bool,
}

impl BeforeOutput {
    #[tactic(auto, unfolding(crate::specs::Status::before_output_form))]
    fn read<'a>(
        alloc: Global,
        object: &[(&'a str, Node<'a>)],
    ) -> Result<BeforeOutput, FromValueError>
        ensures { Gives result (before_output_form (members_view object.now)) }
    {
        let (delay_before_start, is_slow) = required_two(
            alloc,
            object,
            "delay-before-start",
            "is-slow",
        )?;
        let (cpu_time, error_summary) = optional_two(alloc, object, "cpu-time", "error-summary")?;
        Ok(BeforeOutput {
            cpu_time,
            delay_before_start,
            error_summary,
            is_slow,
        })
    }
}

/// Writes what stands before the output of an attempt.
fn with_before_output<S: OutputForm>(
    object: ObjectWriter,
    text: &mut JsonText,
    status: &ExecuteStatus<S>,
) -> ObjectWriter
    ensures { Writes object text.old result text.new
        (before_output_fields (before_output status.now))
        (IsBeforeOutput (before_output status.now)) }
{
    let object = object.optional(text, "cpu-time", &status.cpu_time);
    let object = object.field(text, "delay-before-start", &status.delay_before_start);
    let object = object.optional(text, "error-summary", &status.error_summary);
    object.field(text, "is-slow", &status.is_slow)
}

/// Holds what stands after the output of an attempt, in the order of the keys.
#[derive(Drop)]
struct AfterOutput {
    output_error_slice: Option<OutputErrorSlice>,
    result: ExecutionResultDescription,
    retry_data: RetryData,
    start_time: Stamp,
    time_taken: Duration,
}

impl AfterOutput {
    #[tactic(auto, unfolding(crate::specs::Status::after_output_form))]
    fn read<'a>(
        alloc: Global,
        object: &[(&'a str, Node<'a>)],
    ) -> Result<AfterOutput, FromValueError>
        ensures { Gives result (after_output_form (members_view object.now)) }
    {
        let output_error_slice = optional_field(alloc, object, "output-error-slice")?;
        let (retry_data, start_time, time_taken, result) = required_four(
            alloc,
            object,
            "retry-data",
            "start-time",
            "time-taken",
            "result",
        )?;
        Ok(AfterOutput {
            output_error_slice,
            result,
            retry_data,
            start_time,
            time_taken,
        })
    }
}

/// Writes what stands after the output of an attempt.
fn with_after_output<S: OutputForm>(
    object: ObjectWriter,
    text: &mut JsonText,
    status: &ExecuteStatus<S>,
) -> ObjectWriter
    ensures { Writes object text.old result text.new
        (after_output_fields (after_output status.now))
        (IsAfterOutput (after_output status.now)) }
{
    let object = object.optional(text, "output-error-slice", &status.output_error_slice);
    let object = object.field(text, "result", &status.result);
    let object = object.field(text, "retry-data", &status.retry_data);
    let object = object.field(text, "start-time", &status.start_time);
    object.field(text, "time-taken", &status.time_taken)
}

impl<S: OutputForm> LoadedForm for ExecuteStatus<S> {
    ghost use Rattle.std.specs.Prelude.{◌+◌};
    ghost use Rattle.rec_codec.specs.Status.{status_value, status_form, status_loaded, IsStatus};
    ghost use Rattle.rec_codec.specs.StatusLaws.{status_back, status_writable, status_well_formed};

    ghost well_formed = { IsStatus S.output_well_formed };

    ghost loaded = { status_loaded S.loaded };

    ghost value_of = { status_value S.output_value };

    ghost form_of = { status_form S.output_form };

    ghost levels = { S.output_levels + 7 };

    ghost reads_back = { status_back S.output_well_formed S.output_value S.output_form
        S.output_reads_back };

    ghost reads_well_formed = { status_well_formed S.output_well_formed S.output_form
        S.output_reads_well_formed };

    ghost writable = { status_writable S.output_well_formed S.output_levels S.output_value
        S.output_writable };

    fn write(&self, alloc: Global, text: &mut JsonText) -> Result<(), ToValueError> {
        let object = ObjectWriter::begin(alloc, text);
        let object = with_before_output(object, text, self);
        let object = with_loaded(alloc, object, text, "output", &self.output)?;
        let object = with_after_output(object, text, self);
        ended(object, text)
    }

    #[tactic(auto, unfolding(crate::specs::Status::status_form))]
    fn from_node(alloc: Global, node: &Node<'_>) -> Result<ExecuteStatus<S>, FromValueError> {
        let Some(object) = node.as_object() else {
            return Err(FromValueError::NotAValue);
        };
        let before = BeforeOutput::read(alloc, object)?;
        let after = AfterOutput::read(alloc, object)?;
        let output = match required_loaded(alloc, object, "output") {
            Ok(output) => output,
            Err(error) => {
                // by a call: in place, each case of what is let go is one of the proof
                drop((before, after));
                return Err(error);
            }
        };
        Ok(ExecuteStatus {
            retry_data: after.retry_data,
            output,
            result: after.result,
            start_time: after.start_time,
            time_taken: after.time_taken,
            is_slow: before.is_slow,
            delay_before_start: before.delay_before_start,
            error_summary: before.error_summary,
            output_error_slice: after.output_error_slice,
            cpu_time: before.cpu_time,
        })
    }
}

/// Reads the attempts, of which there is at least one.
#[tactic(auto, unfolding(crate::specs::Status::attempts_form))]
fn attempts_from<'a, S: OutputForm>(
    alloc: Global,
    object: &[(&'a str, Node<'a>)],
    key: &str,
) -> Result<NonEmpty<ExecuteStatus<S>>, FromValueError>
    ensures { Gives result
        (required (attempts_form S.output_form) key.now (members_view object.now)) }
{
    required_some(alloc, object, key)
}

impl<S: OutputForm> LoadedForm for ExecutionStatuses<S> {
    ghost use Rattle.std.specs.Prelude.{◌+◌};
    ghost use Rattle.rec_codec.specs.Status.{statuses_value, statuses_form};
    ghost use Rattle.rec_codec.specs.Status.{statuses_loaded, AreStatuses};
    ghost use Rattle.rec_codec.specs.StatusLaws.{
      statuses_back,
      statuses_writable,
      statuses_well_formed,
    };

    ghost well_formed = { AreStatuses S.output_well_formed };

    ghost loaded = { statuses_loaded S.loaded };

    ghost value_of = { statuses_value S.output_value };

    ghost form_of = { statuses_form S.output_form };

    ghost levels = { S.output_levels + 9 };

    ghost reads_back = { statuses_back S.output_well_formed S.output_value S.output_form
        S.output_reads_back };

    ghost reads_well_formed = { statuses_well_formed S.output_well_formed S.output_form
        S.output_reads_well_formed };

    ghost writable = { statuses_writable S.output_well_formed S.output_levels S.output_value
        S.output_writable };

    fn write(&self, alloc: Global, text: &mut JsonText) -> Result<(), ToValueError> {
        let object = ObjectWriter::begin(alloc, text);
        let object = object.field(text, "flaky-result", &self.flaky_result);
        begin_field(object, text, "statuses")?;
        write_each(alloc, text, self.statuses.as_slice())?;
        ended(ObjectWriter::resume(alloc), text)
    }

    #[tactic(auto, unfolding(crate::specs::Status::statuses_form))]
    fn from_node(alloc: Global, node: &Node<'_>) -> Result<ExecutionStatuses<S>, FromValueError> {
        let Some(object) = node.as_object() else {
            return Err(FromValueError::NotAValue);
        };
        let flaky_result = required_field(alloc, object, "flaky-result")?;
        Ok(ExecutionStatuses {
            statuses: attempts_from(alloc, object, "statuses")?,
            flaky_result,
        })
    }
}
