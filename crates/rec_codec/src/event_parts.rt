//! Members of events that are next to each other in several kinds, in the order in which they are
//! written.
ghost use Rattle.std.specs.Prelude.{◌<◌, ◌^◌, IfSome, ⊤};
ghost use Rattle.rec_events.specs.Names.{IsText, AreTexts};
ghost use Rattle.rec_forms.specs.Instances.{IsStressIndex, IsTestInstance};
ghost use Rattle.rec_forms.specs.ObjectWriting.{Writes};
ghost use Rattle.rec_forms.specs.Times.{IsStamp, IsDuration};
ghost use Rattle.rec_codec.specs.EventParts.{head_part, running_part};
ghost use Rattle.rec_codec.specs.EventParts.{test_part, args_part, script_part};
ghost use Rattle.rec_codec.specs.OutputKinds.{finished_part, reporting_part};

use rec_events::{
    Duration, Items, JunitFlakyFailStatus, OwnedTestInstanceId, ScriptId, Stamp,
    StressIndexSummary, TestOutputDisplay, Text,
};
use rec_forms::ObjectWriter;
use rec_json::JsonText;

/// Writes how long the run had lasted, and the name of the kind.
pub fn with_elapsed_and_kind(
    object: ObjectWriter,
    text: &mut JsonText,
    elapsed: &Duration,
    name: &str,
) -> ObjectWriter
    ensures { Writes object text.old result text.new
        (head_part elapsed.now name.now) (IsDuration elapsed.now) }
{
    let object = object.field(text, "elapsed", elapsed);
    object.text(text, "kind", name)
}

/// Writes how many tests and setup scripts run, and when.
pub fn with_running(
    object: ObjectWriter,
    text: &mut JsonText,
    running: usize,
    setup_scripts_running: usize,
    timestamp: &Stamp,
) -> ObjectWriter
    ensures { Writes object text.old result text.new
        (running_part running setup_scripts_running timestamp.now)
        ((setup_scripts_running < 2 ^ 64) × (running < 2 ^ 64) × IsStamp timestamp.now) }
{
    let object = object.field(text, "running", &running);
    let object = object.field(text, "setup-scripts-running", &setup_scripts_running);
    object.field(text, "timestamp", timestamp)
}

/// Writes which test it is, and when.
pub fn with_test(
    object: ObjectWriter,
    text: &mut JsonText,
    stress_index: &Option<StressIndexSummary>,
    test_instance: &OwnedTestInstanceId,
    timestamp: &Stamp,
) -> ObjectWriter
    ensures { Writes object text.old result text.new
        (test_part stress_index.now test_instance.now timestamp.now)
        (IfSome stress_index.now IsStressIndex
        × IsTestInstance test_instance.now
        × IsStamp timestamp.now) }
{
    let object = object.optional(text, "stress-index", stress_index);
    let object = object.field(text, "test-instance", test_instance);
    object.field(text, "timestamp", timestamp)
}

/// Writes the members of a setup script's start or end from `args` to `index`.
pub fn with_args_to_index(
    object: ObjectWriter,
    text: &mut JsonText,
    args: &Items<Text>,
    elapsed: &Duration,
    index: usize,
) -> ObjectWriter
    ensures { Writes object text.old result text.new
        (args_part args.now elapsed.now index)
        (AreTexts args.now × IsDuration elapsed.now × (index < 2 ^ 64)) }
{
    let object = object.field(text, "args", args);
    let object = object.field(text, "elapsed", elapsed);
    object.field(text, "index", &index)
}

/// Writes the members of a setup script's start or end from `script-id` to `total`.
pub fn with_script(
    object: ObjectWriter,
    text: &mut JsonText,
    script_id: &ScriptId,
    stress_index: &Option<StressIndexSummary>,
    timestamp: &Stamp,
    total: usize,
) -> ObjectWriter
    ensures { Writes object text.old result text.new
        (script_part script_id.now stress_index.now timestamp.now total)
        (IsText script_id.now
        × IfSome stress_index.now IsStressIndex
        × IsStamp timestamp.now
        × (total < 2 ^ 64)) }
{
    let object = object.field(text, "script-id", script_id);
    let object = object.optional(text, "stress-index", stress_index);
    let object = object.field(text, "timestamp", timestamp);
    object.field(text, "total", &total)
}

/// Writes how a finished test is reported, from `failure-output` to `junit-store-success-output`.
pub fn with_reporting(
    object: ObjectWriter,
    text: &mut JsonText,
    failure_output: &TestOutputDisplay,
    flaky_fail_status: &JunitFlakyFailStatus,
    store_failure_output: bool,
    store_success_output: bool,
) -> ObjectWriter
    ensures { Writes object text.old result text.new
        (reporting_part failure_output.now flaky_fail_status.now
        store_failure_output store_success_output)
        ⊤ }
{
    let object = object.field(text, "failure-output", failure_output);
    let object = object.field(text, "junit-flaky-fail-status", flaky_fail_status);
    let object = object.field(text, "junit-store-failure-output", &store_failure_output);
    object.field(text, "junit-store-success-output", &store_success_output)
}

/// Writes which finished test it is, how its output is shown, and when it ended.
pub fn with_finished(
    object: ObjectWriter,
    text: &mut JsonText,
    stress_index: &Option<StressIndexSummary>,
    success_output: &TestOutputDisplay,
    test_instance: &OwnedTestInstanceId,
    timestamp: &Stamp,
) -> ObjectWriter
    ensures { Writes object text.old result text.new
        (finished_part stress_index.now success_output.now test_instance.now timestamp.now)
        (IfSome stress_index.now IsStressIndex
        × IsTestInstance test_instance.now
        × IsStamp timestamp.now) }
{
    let object = object.optional(text, "stress-index", stress_index);
    let object = object.field(text, "success-output", success_output);
    let object = object.field(text, "test-instance", test_instance);
    object.field(text, "timestamp", timestamp)
}
