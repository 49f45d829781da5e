//! The kinds of events of tests that hold no outputs.
ghost use Rattle.std.specs.Prelude.{◌≡◌, OnOk, codes};
ghost use Rattle.rec_json.specs.Nodes.{members_view};
ghost use Rattle.rec_json.specs.Tokens.{with_fields};
ghost use Rattle.rec_forms.specs.Gives.{Gives};
ghost use Rattle.rec_codec.specs.CoreKindForms.{test_started_form, test_slow_form};
ghost use Rattle.rec_codec.specs.CoreKindForms.{test_retry_started_form, test_skipped_form};
ghost use Rattle.rec_codec.specs.CoreKinds.{core_name};
ghost use Rattle.rec_codec.specs.EventParts.{core_event_fields, IsCoreEvent};

use crate::event_parts::{with_elapsed_and_kind, with_test};
use rec_events::{CoreEventKind, Duration, Stamp};
use rec_forms::{
    FromValueError, ObjectWriter, optional_field, required_five, required_four, required_three,
};
use rec_json::{JsonText, Node};
use std::alloc::{AllocError, Global};

/// Writes the members of a test's start.
pub fn write_test_started(
    alloc: Global,
    text: &mut JsonText,
    timestamp: &Stamp,
    elapsed: &Duration,
    kind: &CoreEventKind,
) -> Result<(), AllocError>
    requires named { core_name kind.now ≡ codes "test-started" }
    ensures written { OnOk result (text.new
        ≡ with_fields text.old (core_event_fields timestamp.now elapsed.now kind.now)) }
    ensures known { OnOk result (IsCoreEvent timestamp.now elapsed.now kind.now) }
{
    let CoreEventKind::TestStarted {
        stress_index,
        test_instance,
        slot_assignment,
        current_stats,
        running,
        command_line,
    } = kind
    else {
        unreachable!()
    };
    let object = ObjectWriter::resume(alloc);
    let object = object.field(text, "command-line", command_line);
    let object = object.field(text, "current-stats", current_stats);
    let object = with_elapsed_and_kind(object, text, elapsed, "test-started");
    let object = object.field(text, "running", running);
    let object = object.field(text, "slot-assignment", slot_assignment);
    let object = with_test(object, text, stress_index, test_instance, timestamp);
    object.leave_open()
}

/// Reads the members of a test's start.
#[tactic(auto, unfolding(crate::specs::CoreKindForms::test_started_form))]
pub fn test_started_from<'a>(
    alloc: Global,
    object: &[(&'a str, Node<'a>)],
) -> Result<CoreEventKind, FromValueError>
    ensures { Gives result (test_started_form (members_view object.now)) }
{
    let stress_index = optional_field(alloc, object, "stress-index")?;
    let (test_instance, slot_assignment, current_stats, running, command_line) = required_five(
        alloc,
        object,
        "test-instance",
        "slot-assignment",
        "current-stats",
        "running",
        "command-line",
    )?;
    Ok(CoreEventKind::TestStarted {
        stress_index,
        test_instance,
        slot_assignment,
        current_stats,
        running,
        command_line,
    })
}

/// Writes the members of a slow test.
pub fn write_test_slow(
    alloc: Global,
    text: &mut JsonText,
    timestamp: &Stamp,
    elapsed: &Duration,
    kind: &CoreEventKind,
) -> Result<(), AllocError>
    requires named { core_name kind.now ≡ codes "test-slow" }
    ensures written { OnOk result (text.new
        ≡ with_fields text.old (core_event_fields timestamp.now elapsed.now kind.now)) }
    ensures known { OnOk result (IsCoreEvent timestamp.now elapsed.now kind.now) }
{
    let CoreEventKind::TestSlow {
        stress_index,
        test_instance,
        retry_data,
        elapsed: slow_elapsed,
        will_terminate,
    } = kind
    else {
        unreachable!()
    };
    let object = ObjectWriter::resume(alloc);
    let object = with_elapsed_and_kind(object, text, elapsed, "test-slow");
    let object = object.field(text, "retry-data", retry_data);
    let object = object.field(text, "slow-elapsed", slow_elapsed);
    let object = with_test(object, text, stress_index, test_instance, timestamp);
    let object = object.field(text, "will-terminate", will_terminate);
    object.leave_open()
}

/// Reads the members of a slow test.
#[tactic(auto, unfolding(crate::specs::CoreKindForms::test_slow_form))]
pub fn test_slow_from<'a>(
    alloc: Global,
    object: &[(&'a str, Node<'a>)],
) -> Result<CoreEventKind, FromValueError>
    ensures { Gives result (test_slow_form (members_view object.now)) }
{
    let stress_index = optional_field(alloc, object, "stress-index")?;
    let (test_instance, retry_data, elapsed, will_terminate) = required_four(
        alloc,
        object,
        "test-instance",
        "retry-data",
        "slow-elapsed",
        "will-terminate",
    )?;
    Ok(CoreEventKind::TestSlow {
        stress_index,
        test_instance,
        retry_data,
        elapsed,
        will_terminate,
    })
}

/// Writes the members of the start of a further attempt.
pub fn write_test_retry_started(
    alloc: Global,
    text: &mut JsonText,
    timestamp: &Stamp,
    elapsed: &Duration,
    kind: &CoreEventKind,
) -> Result<(), AllocError>
    requires named { core_name kind.now ≡ codes "test-retry-started" }
    ensures written { OnOk result (text.new
        ≡ with_fields text.old (core_event_fields timestamp.now elapsed.now kind.now)) }
    ensures known { OnOk result (IsCoreEvent timestamp.now elapsed.now kind.now) }
{
    let CoreEventKind::TestRetryStarted {
        stress_index,
        test_instance,
        slot_assignment,
        retry_data,
        running,
        command_line,
    } = kind
    else {
        unreachable!()
    };
    let object = ObjectWriter::resume(alloc);
    let object = object.field(text, "command-line", command_line);
    let object = with_elapsed_and_kind(object, text, elapsed, "test-retry-started");
    let object = object.field(text, "retry-data", retry_data);
    let object = object.field(text, "running", running);
    let object = object.field(text, "slot-assignment", slot_assignment);
    let object = with_test(object, text, stress_index, test_instance, timestamp);
    object.leave_open()
}

/// Reads the members of the start of a further attempt.
#[tactic(auto, unfolding(crate::specs::CoreKindForms::test_retry_started_form))]
pub fn test_retry_started_from<'a>(
    alloc: Global,
    object: &[(&'a str, Node<'a>)],
) -> Result<CoreEventKind, FromValueError>
    ensures { Gives result (test_retry_started_form (members_view object.now)) }
{
    let stress_index = optional_field(alloc, object, "stress-index")?;
    let (test_instance, slot_assignment, retry_data, running, command_line) = required_five(
        alloc,
        object,
        "test-instance",
        "slot-assignment",
        "retry-data",
        "running",
        "command-line",
    )?;
    Ok(CoreEventKind::TestRetryStarted {
        stress_index,
        test_instance,
        slot_assignment,
        retry_data,
        running,
        command_line,
    })
}

/// Writes the members of a skipped test.
pub fn write_test_skipped(
    alloc: Global,
    text: &mut JsonText,
    timestamp: &Stamp,
    elapsed: &Duration,
    kind: &CoreEventKind,
) -> Result<(), AllocError>
    requires named { core_name kind.now ≡ codes "test-skipped" }
    ensures written { OnOk result (text.new
        ≡ with_fields text.old (core_event_fields timestamp.now elapsed.now kind.now)) }
    ensures known { OnOk result (IsCoreEvent timestamp.now elapsed.now kind.now) }
{
    let CoreEventKind::TestSkipped {
        stress_index,
        test_instance,
        reason,
        junit_report_skipped,
    } = kind
    else {
        unreachable!()
    };
    let object = ObjectWriter::resume(alloc);
    let object = object.field(text, "elapsed", elapsed);
    let object = object.field(text, "junit-report-skipped", junit_report_skipped);
    let object = object.text(text, "kind", "test-skipped");
    let object = object.field(text, "reason", reason);
    let object = with_test(object, text, stress_index, test_instance, timestamp);
    object.leave_open()
}

/// Reads the members of a skipped test.
#[tactic(auto, unfolding(crate::specs::CoreKindForms::test_skipped_form))]
pub fn test_skipped_from<'a>(
    alloc: Global,
    object: &[(&'a str, Node<'a>)],
) -> Result<CoreEventKind, FromValueError>
    ensures { Gives result (test_skipped_form (members_view object.now)) }
{
    let stress_index = optional_field(alloc, object, "stress-index")?;
    let (test_instance, reason, junit_report_skipped) = required_three(
        alloc,
        object,
        "test-instance",
        "reason",
        "junit-report-skipped",
    )?;
    Ok(CoreEventKind::TestSkipped {
        stress_index,
        test_instance,
        reason,
        junit_report_skipped,
    })
}
