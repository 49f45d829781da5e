//! The kinds of events that hold outputs.
ghost use Rattle.std.specs.Prelude.{◌≡◌, OnOk, codes};
ghost use Rattle.rec_json.specs.Nodes.{members_view};
ghost use Rattle.rec_json.specs.Tokens.{with_fields};
ghost use Rattle.rec_forms.specs.Gives.{Gives};
ghost use Rattle.rec_codec.specs.OutputKinds.{output_name, reporting_form, output_event_fields};
ghost use Rattle.rec_codec.specs.OutputKinds.{output_loaded, IsOutputEvent, script_finished_form};
ghost use Rattle.rec_codec.specs.OutputKinds.{attempt_failed_form, test_finished_form};
ghost use Rattle.rec_codec.specs.Writes.{WritesLoaded};

use crate::event_parts::{
    with_args_to_index, with_finished, with_reporting, with_script, with_test,
};
use crate::loaded_fields::{left_open, with_loaded};
use crate::loaded_form::required_loaded;
use crate::script_kinds::{Command, Place};
use crate::{OutputForm, ToValueError};
use rec_events::{Duration, JunitFlakyFailStatus, OutputEventKind, Stamp, TestOutputDisplay};
use rec_forms::{
    FromValueError, ObjectWriter, optional_field, required_field, required_five, required_four,
    required_three,
};
use rec_json::{JsonText, Node};
use std::alloc::Global;

/// How a finished test is reported.
#[derive(Drop)]
struct Reporting {
    success_output: TestOutputDisplay,
    failure_output: TestOutputDisplay,
    junit_store_success_output: bool,
    junit_store_failure_output: bool,
    junit_flaky_fail_status: JunitFlakyFailStatus,
}

impl Reporting {
    #[tactic(auto, unfolding(crate::specs::OutputKinds::reporting_form))]
    fn read<'a>(alloc: Global, object: &[(&'a str, Node<'a>)]) -> Result<Reporting, FromValueError>
        ensures { Gives result (reporting_form (members_view object.now)) }
    {
        let (
            success_output,
            failure_output,
            junit_store_success_output,
            junit_store_failure_output,
            junit_flaky_fail_status,
        ) = required_five(
            alloc,
            object,
            "success-output",
            "failure-output",
            "junit-store-success-output",
            "junit-store-failure-output",
            "junit-flaky-fail-status",
        )?;
        Ok(Reporting {
            success_output,
            failure_output,
            junit_store_success_output,
            junit_store_failure_output,
            junit_flaky_fail_status,
        })
    }
}

/// Writes the members of a setup script's end.
fn write_script_finished<S: OutputForm>(
    alloc: Global,
    text: &mut JsonText,
    timestamp: &Stamp,
    elapsed: &Duration,
    kind: &OutputEventKind<S>,
) -> Result<(), ToValueError>
    requires named { output_name kind.now ≡ codes "setup-script-finished" }
    ensures written { OnOk result (text.new
        ≡ with_fields text.old
        (output_event_fields S.output_value timestamp.now elapsed.now kind.now)) }
    ensures loaded { WritesLoaded result (output_loaded S.loaded kind.now) }
    ensures known { OnOk result
        (IsOutputEvent S.output_well_formed timestamp.now elapsed.now kind.now) }
{
    let OutputEventKind::SetupScriptFinished {
        stress_index,
        index,
        total,
        script_id,
        program,
        args,
        no_capture,
        run_status,
    } = kind
    else {
        unreachable!()
    };
    let object = ObjectWriter::resume(alloc);
    let object = with_args_to_index(object, text, args, elapsed, *index);
    let object = object.text(text, "kind", "setup-script-finished");
    let object = object.field(text, "no-capture", no_capture);
    let object = object.field(text, "program", program);
    let object = with_loaded(alloc, object, text, "run-status", run_status)?;
    let object = with_script(object, text, script_id, stress_index, timestamp, *total);
    left_open(object)
}

/// Writes the members of a failed attempt.
fn write_attempt_failed<S: OutputForm>(
    alloc: Global,
    text: &mut JsonText,
    timestamp: &Stamp,
    elapsed: &Duration,
    kind: &OutputEventKind<S>,
) -> Result<(), ToValueError>
    requires named { output_name kind.now ≡ codes "test-attempt-failed-will-retry" }
    ensures written { OnOk result (text.new
        ≡ with_fields text.old
        (output_event_fields S.output_value timestamp.now elapsed.now kind.now)) }
    ensures loaded { WritesLoaded result (output_loaded S.loaded kind.now) }
    ensures known { OnOk result
        (IsOutputEvent S.output_well_formed timestamp.now elapsed.now kind.now) }
{
    let OutputEventKind::TestAttemptFailedWillRetry {
        stress_index,
        test_instance,
        run_status,
        delay_before_next_attempt,
        failure_output,
        running,
    } = kind
    else {
        unreachable!()
    };
    let object = ObjectWriter::resume(alloc);
    let object = object.field(text, "delay-before-next-attempt", delay_before_next_attempt);
    let object = object.field(text, "elapsed", elapsed);
    let object = object.field(text, "failure-output", failure_output);
    let object = object.text(text, "kind", "test-attempt-failed-will-retry");
    let object = with_loaded(alloc, object, text, "run-status", run_status)?;
    let object = object.field(text, "running", running);
    let object = with_test(object, text, stress_index, test_instance, timestamp);
    left_open(object)
}

/// Writes the members of a finished test.
fn write_test_finished<S: OutputForm>(
    alloc: Global,
    text: &mut JsonText,
    timestamp: &Stamp,
    elapsed: &Duration,
    kind: &OutputEventKind<S>,
) -> Result<(), ToValueError>
    requires named { output_name kind.now ≡ codes "test-finished" }
    ensures written { OnOk result (text.new
        ≡ with_fields text.old
        (output_event_fields S.output_value timestamp.now elapsed.now kind.now)) }
    ensures loaded { WritesLoaded result (output_loaded S.loaded kind.now) }
    ensures known { OnOk result
        (IsOutputEvent S.output_well_formed timestamp.now elapsed.now kind.now) }
{
    let OutputEventKind::TestFinished {
        stress_index,
        test_instance,
        success_output,
        failure_output,
        junit_store_success_output,
        junit_store_failure_output,
        junit_flaky_fail_status,
        run_statuses,
        current_stats,
        running,
    } = kind
    else {
        unreachable!()
    };
    let object = ObjectWriter::resume(alloc);
    let object = object.field(text, "current-stats", current_stats);
    let object = object.field(text, "elapsed", elapsed);
    let object = with_reporting(
        object,
        text,
        failure_output,
        junit_flaky_fail_status,
        *junit_store_failure_output,
        *junit_store_success_output,
    );
    let object = object.text(text, "kind", "test-finished");
    let object = with_loaded(alloc, object, text, "run-statuses", run_statuses)?;
    let object = object.field(text, "running", running);
    let object = with_finished(
        object,
        text,
        stress_index,
        success_output,
        test_instance,
        timestamp,
    );
    left_open(object)
}

/// Writes the members of an event of a kind with outputs.
pub fn write_output<S: OutputForm>(
    alloc: Global,
    text: &mut JsonText,
    timestamp: &Stamp,
    elapsed: &Duration,
    kind: &OutputEventKind<S>,
) -> Result<(), ToValueError>
    ensures written { OnOk result (text.new
        ≡ with_fields text.old
        (output_event_fields S.output_value timestamp.now elapsed.now kind.now)) }
    ensures loaded { WritesLoaded result (output_loaded S.loaded kind.now) }
    ensures known { OnOk result
        (IsOutputEvent S.output_well_formed timestamp.now elapsed.now kind.now) }
{
    match kind {
        OutputEventKind::SetupScriptFinished { .. } => write_script_finished(
            alloc, text, timestamp, elapsed, kind,
        ),
        OutputEventKind::TestAttemptFailedWillRetry { .. } => write_attempt_failed(
            alloc, text, timestamp, elapsed, kind,
        ),
        OutputEventKind::TestFinished { .. } => write_test_finished(
            alloc, text, timestamp, elapsed, kind,
        ),
    }
}

/// Reads the members of a setup script's end.
#[tactic(auto, unfolding(crate::specs::OutputKinds::script_finished_form))]
pub fn script_finished_from<'a, S: OutputForm>(
    alloc: Global,
    object: &[(&'a str, Node<'a>)],
) -> Result<OutputEventKind<S>, FromValueError>
    ensures { Gives result (script_finished_form S.output_form (members_view object.now)) }
{
    let place = Place::read(alloc, object)?;
    let no_capture = required_field(alloc, object, "no-capture")?;
    let command = Command::read(alloc, object)?;
    let run_status = match required_loaded(alloc, object, "run-status") {
        Ok(run_status) => run_status,
        Err(error) => {
            // by a call: in place, each case of what is let go is one of the proof
            drop(command);
            return Err(error);
        }
    };
    Ok(OutputEventKind::SetupScriptFinished {
        stress_index: place.stress_index,
        index: place.index,
        total: place.total,
        script_id: command.script_id,
        program: command.program,
        args: command.args,
        no_capture,
        run_status,
    })
}

/// Reads the members of a failed attempt.
#[tactic(auto, unfolding(crate::specs::OutputKinds::attempt_failed_form))]
pub fn attempt_failed_from<'a, S: OutputForm>(
    alloc: Global,
    object: &[(&'a str, Node<'a>)],
) -> Result<OutputEventKind<S>, FromValueError>
    ensures { Gives result (attempt_failed_form S.output_form (members_view object.now)) }
{
    let stress_index = optional_field(alloc, object, "stress-index")?;
    let (delay_before_next_attempt, failure_output, running, test_instance) = required_four(
        alloc,
        object,
        "delay-before-next-attempt",
        "failure-output",
        "running",
        "test-instance",
    )?;
    let run_status = match required_loaded(alloc, object, "run-status") {
        Ok(run_status) => run_status,
        Err(error) => {
            drop(test_instance);
            return Err(error);
        }
    };
    Ok(OutputEventKind::TestAttemptFailedWillRetry {
        stress_index,
        test_instance,
        run_status,
        delay_before_next_attempt,
        failure_output,
        running,
    })
}

/// Reads the members of a finished test.
#[tactic(auto, unfolding(crate::specs::OutputKinds::test_finished_form))]
pub fn test_finished_from<'a, S: OutputForm>(
    alloc: Global,
    object: &[(&'a str, Node<'a>)],
) -> Result<OutputEventKind<S>, FromValueError>
    ensures { Gives result (test_finished_form S.output_form (members_view object.now)) }
{
    let reporting = Reporting::read(alloc, object)?;
    let stress_index = optional_field(alloc, object, "stress-index")?;
    let (current_stats, running, test_instance) = required_three(
        alloc,
        object,
        "current-stats",
        "running",
        "test-instance",
    )?;
    let run_statuses = match required_loaded(alloc, object, "run-statuses") {
        Ok(run_statuses) => run_statuses,
        Err(error) => {
            drop(test_instance);
            return Err(error);
        }
    };
    Ok(OutputEventKind::TestFinished {
        stress_index,
        test_instance,
        success_output: reporting.success_output,
        failure_output: reporting.failure_output,
        junit_store_success_output: reporting.junit_store_success_output,
        junit_store_failure_output: reporting.junit_store_failure_output,
        junit_flaky_fail_status: reporting.junit_flaky_fail_status,
        run_statuses,
        current_stats,
        running,
    })
}
