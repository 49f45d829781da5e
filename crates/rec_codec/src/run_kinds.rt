//! The kinds of events of a whole run.
ghost use Rattle.std.specs.Prelude.{◌≡◌, OnOk, codes};
ghost use Rattle.rec_json.specs.Nodes.{members_view};
ghost use Rattle.rec_json.specs.Tokens.{with_fields};
ghost use Rattle.rec_forms.specs.Gives.{Gives};
ghost use Rattle.rec_codec.specs.CoreKindForms.{
  run_started_form,
  stress_sub_run_started_form,
  run_begin_cancel_form,
  run_paused_form,
  run_continued_form,
  stress_sub_run_finished_form,
  run_finished_form,
};
ghost use Rattle.rec_codec.specs.CoreKinds.{core_name};
ghost use Rattle.rec_codec.specs.EventParts.{core_event_fields, IsCoreEvent};

use crate::event_parts::{with_elapsed_and_kind, with_running};
use rec_events::{CoreEventKind, Duration, Stamp};
use rec_forms::{
    FromValueError, ObjectWriter, optional_field, required_field, required_four, required_three,
    required_two,
};
use rec_json::{JsonText, Node};
use std::alloc::{AllocError, Global};

/// Writes the members of a run's start.
pub fn write_run_started(
    alloc: Global,
    text: &mut JsonText,
    timestamp: &Stamp,
    elapsed: &Duration,
    kind: &CoreEventKind,
) -> Result<(), AllocError>
    requires named { core_name kind.now ≡ codes "run-started" }
    ensures written { OnOk result (text.new
        ≡ with_fields text.old (core_event_fields timestamp.now elapsed.now kind.now)) }
    ensures known { OnOk result (IsCoreEvent timestamp.now elapsed.now kind.now) }
{
    let CoreEventKind::RunStarted {
        run_id,
        profile_name,
        cli_args,
        stress_condition,
    } = kind
    else {
        unreachable!()
    };
    let object = ObjectWriter::resume(alloc);
    let object = object.field(text, "cli-args", cli_args);
    let object = with_elapsed_and_kind(object, text, elapsed, "run-started");
    let object = object.field(text, "profile-name", profile_name);
    let object = object.field(text, "run-id", run_id);
    let object = object.optional(text, "stress-condition", stress_condition);
    let object = object.field(text, "timestamp", timestamp);
    object.leave_open()
}

/// Reads the members of a run's start.
#[tactic(auto, unfolding(crate::specs::CoreKindForms::run_started_form))]
pub fn run_started_from<'a>(
    alloc: Global,
    object: &[(&'a str, Node<'a>)],
) -> Result<CoreEventKind, FromValueError>
    ensures { Gives result (run_started_form (members_view object.now)) }
{
    let stress_condition = optional_field(alloc, object, "stress-condition")?;
    let (run_id, profile_name, cli_args) = required_three(
        alloc,
        object,
        "run-id",
        "profile-name",
        "cli-args",
    )?;
    Ok(CoreEventKind::RunStarted {
        run_id,
        profile_name,
        cli_args,
        stress_condition,
    })
}

/// Writes the members of the start of one of a stress run's runs.
pub fn write_stress_sub_run_started(
    alloc: Global,
    text: &mut JsonText,
    timestamp: &Stamp,
    elapsed: &Duration,
    kind: &CoreEventKind,
) -> Result<(), AllocError>
    requires named { core_name kind.now ≡ codes "stress-sub-run-started" }
    ensures written { OnOk result (text.new
        ≡ with_fields text.old (core_event_fields timestamp.now elapsed.now kind.now)) }
    ensures known { OnOk result (IsCoreEvent timestamp.now elapsed.now kind.now) }
{
    let CoreEventKind::StressSubRunStarted { progress } = kind else {
        unreachable!()
    };
    let object = ObjectWriter::resume(alloc);
    let object = with_elapsed_and_kind(object, text, elapsed, "stress-sub-run-started");
    let object = object.field(text, "progress", progress);
    let object = object.field(text, "timestamp", timestamp);
    object.leave_open()
}

/// Reads the members of the start of one of a stress run's runs.
#[tactic(auto, unfolding(crate::specs::CoreKindForms::stress_sub_run_started_form))]
pub fn stress_sub_run_started_from<'a>(
    alloc: Global,
    object: &[(&'a str, Node<'a>)],
) -> Result<CoreEventKind, FromValueError>
    ensures { Gives result (stress_sub_run_started_form (members_view object.now)) }
{
    Ok(CoreEventKind::StressSubRunStarted {
        progress: required_field(alloc, object, "progress")?,
    })
}

/// Writes the members of a cancel.
pub fn write_run_begin_cancel(
    alloc: Global,
    text: &mut JsonText,
    timestamp: &Stamp,
    elapsed: &Duration,
    kind: &CoreEventKind,
) -> Result<(), AllocError>
    requires named { core_name kind.now ≡ codes "run-begin-cancel" }
    ensures written { OnOk result (text.new
        ≡ with_fields text.old (core_event_fields timestamp.now elapsed.now kind.now)) }
    ensures known { OnOk result (IsCoreEvent timestamp.now elapsed.now kind.now) }
{
    let CoreEventKind::RunBeginCancel {
        setup_scripts_running,
        running,
        reason,
    } = kind
    else {
        unreachable!()
    };
    let object = ObjectWriter::resume(alloc);
    let object = with_elapsed_and_kind(object, text, elapsed, "run-begin-cancel");
    let object = object.field(text, "reason", reason);
    let object = with_running(object, text, *running, *setup_scripts_running, timestamp);
    object.leave_open()
}

/// Reads the members of a cancel.
#[tactic(auto, unfolding(crate::specs::CoreKindForms::run_begin_cancel_form))]
pub fn run_begin_cancel_from<'a>(
    alloc: Global,
    object: &[(&'a str, Node<'a>)],
) -> Result<CoreEventKind, FromValueError>
    ensures { Gives result (run_begin_cancel_form (members_view object.now)) }
{
    let (setup_scripts_running, running, reason) = required_three(
        alloc,
        object,
        "setup-scripts-running",
        "running",
        "reason",
    )?;
    Ok(CoreEventKind::RunBeginCancel {
        setup_scripts_running,
        running,
        reason,
    })
}

/// Writes the members of a pause.
pub fn write_run_paused(
    alloc: Global,
    text: &mut JsonText,
    timestamp: &Stamp,
    elapsed: &Duration,
    kind: &CoreEventKind,
) -> Result<(), AllocError>
    requires named { core_name kind.now ≡ codes "run-paused" }
    ensures written { OnOk result (text.new
        ≡ with_fields text.old (core_event_fields timestamp.now elapsed.now kind.now)) }
    ensures known { OnOk result (IsCoreEvent timestamp.now elapsed.now kind.now) }
{
    let CoreEventKind::RunPaused {
        setup_scripts_running,
        running,
    } = kind
    else {
        unreachable!()
    };
    let object = ObjectWriter::resume(alloc);
    let object = with_elapsed_and_kind(object, text, elapsed, "run-paused");
    let object = with_running(object, text, *running, *setup_scripts_running, timestamp);
    object.leave_open()
}

/// Reads the members of a pause.
#[tactic(auto, unfolding(crate::specs::CoreKindForms::run_paused_form))]
pub fn run_paused_from<'a>(
    alloc: Global,
    object: &[(&'a str, Node<'a>)],
) -> Result<CoreEventKind, FromValueError>
    ensures { Gives result (run_paused_form (members_view object.now)) }
{
    let (setup_scripts_running, running) = required_two(
        alloc,
        object,
        "setup-scripts-running",
        "running",
    )?;
    Ok(CoreEventKind::RunPaused {
        setup_scripts_running,
        running,
    })
}

/// Writes the members of a continuation.
pub fn write_run_continued(
    alloc: Global,
    text: &mut JsonText,
    timestamp: &Stamp,
    elapsed: &Duration,
    kind: &CoreEventKind,
) -> Result<(), AllocError>
    requires named { core_name kind.now ≡ codes "run-continued" }
    ensures written { OnOk result (text.new
        ≡ with_fields text.old (core_event_fields timestamp.now elapsed.now kind.now)) }
    ensures known { OnOk result (IsCoreEvent timestamp.now elapsed.now kind.now) }
{
    let CoreEventKind::RunContinued {
        setup_scripts_running,
        running,
    } = kind
    else {
        unreachable!()
    };
    let object = ObjectWriter::resume(alloc);
    let object = with_elapsed_and_kind(object, text, elapsed, "run-continued");
    let object = with_running(object, text, *running, *setup_scripts_running, timestamp);
    object.leave_open()
}

/// Reads the members of a continuation.
#[tactic(auto, unfolding(crate::specs::CoreKindForms::run_continued_form))]
pub fn run_continued_from<'a>(
    alloc: Global,
    object: &[(&'a str, Node<'a>)],
) -> Result<CoreEventKind, FromValueError>
    ensures { Gives result (run_continued_form (members_view object.now)) }
{
    let (setup_scripts_running, running) = required_two(
        alloc,
        object,
        "setup-scripts-running",
        "running",
    )?;
    Ok(CoreEventKind::RunContinued {
        setup_scripts_running,
        running,
    })
}

/// Writes the members of the end of one of a stress run's runs.
pub fn write_stress_sub_run_finished(
    alloc: Global,
    text: &mut JsonText,
    timestamp: &Stamp,
    elapsed: &Duration,
    kind: &CoreEventKind,
) -> Result<(), AllocError>
    requires named { core_name kind.now ≡ codes "stress-sub-run-finished" }
    ensures written { OnOk result (text.new
        ≡ with_fields text.old (core_event_fields timestamp.now elapsed.now kind.now)) }
    ensures known { OnOk result (IsCoreEvent timestamp.now elapsed.now kind.now) }
{
    let CoreEventKind::StressSubRunFinished {
        progress,
        sub_elapsed,
        sub_stats,
    } = kind
    else {
        unreachable!()
    };
    let object = ObjectWriter::resume(alloc);
    let object = with_elapsed_and_kind(object, text, elapsed, "stress-sub-run-finished");
    let object = object.field(text, "progress", progress);
    let object = object.field(text, "sub-elapsed", sub_elapsed);
    let object = object.field(text, "sub-stats", sub_stats);
    let object = object.field(text, "timestamp", timestamp);
    object.leave_open()
}

/// Reads the members of the end of one of a stress run's runs.
#[tactic(auto, unfolding(crate::specs::CoreKindForms::stress_sub_run_finished_form))]
pub fn stress_sub_run_finished_from<'a>(
    alloc: Global,
    object: &[(&'a str, Node<'a>)],
) -> Result<CoreEventKind, FromValueError>
    ensures { Gives result (stress_sub_run_finished_form (members_view object.now)) }
{
    let (progress, sub_elapsed, sub_stats) = required_three(
        alloc,
        object,
        "progress",
        "sub-elapsed",
        "sub-stats",
    )?;
    Ok(CoreEventKind::StressSubRunFinished {
        progress,
        sub_elapsed,
        sub_stats,
    })
}

/// Writes the members of a run's end.
pub fn write_run_finished(
    alloc: Global,
    text: &mut JsonText,
    timestamp: &Stamp,
    elapsed: &Duration,
    kind: &CoreEventKind,
) -> Result<(), AllocError>
    requires named { core_name kind.now ≡ codes "run-finished" }
    ensures written { OnOk result (text.new
        ≡ with_fields text.old (core_event_fields timestamp.now elapsed.now kind.now)) }
    ensures known { OnOk result (IsCoreEvent timestamp.now elapsed.now kind.now) }
{
    let CoreEventKind::RunFinished {
        run_id,
        start_time,
        elapsed: run_elapsed,
        run_stats,
        outstanding_not_seen,
    } = kind
    else {
        unreachable!()
    };
    let object = ObjectWriter::resume(alloc);
    let object = with_elapsed_and_kind(object, text, elapsed, "run-finished");
    let object = object.optional(text, "outstanding-not-seen", outstanding_not_seen);
    let object = object.field(text, "run-elapsed", run_elapsed);
    let object = object.field(text, "run-id", run_id);
    let object = object.field(text, "run-stats", run_stats);
    let object = object.field(text, "start-time", start_time);
    let object = object.field(text, "timestamp", timestamp);
    object.leave_open()
}

/// Reads the members of a run's end.
#[tactic(auto, unfolding(crate::specs::CoreKindForms::run_finished_form))]
pub fn run_finished_from<'a>(
    alloc: Global,
    object: &[(&'a str, Node<'a>)],
) -> Result<CoreEventKind, FromValueError>
    ensures { Gives result (run_finished_form (members_view object.now)) }
{
    let (run_id, start_time, elapsed, run_stats) = required_four(
        alloc,
        object,
        "run-id",
        "start-time",
        "run-elapsed",
        "run-stats",
    )?;
    let outstanding_not_seen = optional_field(alloc, object, "outstanding-not-seen")?;
    Ok(CoreEventKind::RunFinished {
        run_id,
        start_time,
        elapsed,
        run_stats,
        outstanding_not_seen,
    })
}
