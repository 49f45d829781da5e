//! The kinds of events that hold no outputs.
ghost use Rattle.std.specs.Prelude.{◌≡◌, OnOk, ◌++◌};
ghost use Rattle.rec_json.specs.Nodes.{members_view};
ghost use Rattle.rec_json.specs.Tokens.{with_fields};
ghost use Rattle.rec_forms.specs.Gives.{Gives};
ghost use Rattle.rec_codec.specs.CoreKindForms.{script_kinds, test_kinds, core_kinds, kind_in};
ghost use Rattle.rec_codec.specs.EventParts.{core_event_fields, IsCoreEvent};

use crate::run_kinds::{
    run_begin_cancel_from, run_continued_from, run_finished_from, run_paused_from,
    run_started_from, stress_sub_run_finished_from, stress_sub_run_started_from,
    write_run_begin_cancel, write_run_continued, write_run_finished, write_run_paused,
    write_run_started, write_stress_sub_run_finished, write_stress_sub_run_started,
};
use crate::script_kinds::{
    setup_script_slow_from, setup_script_started_from, write_setup_script_slow,
    write_setup_script_started,
};
use crate::test_kinds::{
    test_retry_started_from, test_skipped_from, test_slow_from, test_started_from,
    write_test_retry_started, write_test_skipped, write_test_slow, write_test_started,
};
use rec_events::{CoreEventKind, Duration, Stamp};
use rec_forms::FromValueError;
use rec_json::{JsonText, Node};
use std::alloc::{AllocError, Global};

/// Writes the members of an event of a kind without outputs.
pub fn write_core(
    alloc: Global,
    text: &mut JsonText,
    timestamp: &Stamp,
    elapsed: &Duration,
    kind: &CoreEventKind,
) -> Result<(), AllocError>
    ensures written { OnOk result (text.new
        ≡ with_fields text.old (core_event_fields timestamp.now elapsed.now kind.now)) }
    ensures known { OnOk result (IsCoreEvent timestamp.now elapsed.now kind.now) }
{
    match kind {
        CoreEventKind::RunStarted { .. } => write_run_started(
            alloc, text, timestamp, elapsed, kind,
        ),
        CoreEventKind::StressSubRunStarted { .. } => write_stress_sub_run_started(
            alloc, text, timestamp, elapsed, kind,
        ),
        CoreEventKind::SetupScriptStarted { .. } => write_setup_script_started(
            alloc, text, timestamp, elapsed, kind,
        ),
        CoreEventKind::SetupScriptSlow { .. } => write_setup_script_slow(
            alloc, text, timestamp, elapsed, kind,
        ),
        CoreEventKind::TestStarted { .. } => write_test_started(
            alloc, text, timestamp, elapsed, kind,
        ),
        CoreEventKind::TestSlow { .. } => write_test_slow(alloc, text, timestamp, elapsed, kind),
        CoreEventKind::TestRetryStarted { .. } => write_test_retry_started(
            alloc, text, timestamp, elapsed, kind,
        ),
        CoreEventKind::TestSkipped { .. } => write_test_skipped(
            alloc, text, timestamp, elapsed, kind,
        ),
        CoreEventKind::RunBeginCancel { .. } => write_run_begin_cancel(
            alloc, text, timestamp, elapsed, kind,
        ),
        CoreEventKind::RunPaused { .. } => write_run_paused(alloc, text, timestamp, elapsed, kind),
        CoreEventKind::RunContinued { .. } => write_run_continued(
            alloc, text, timestamp, elapsed, kind,
        ),
        CoreEventKind::StressSubRunFinished { .. } => write_stress_sub_run_finished(
            alloc, text, timestamp, elapsed, kind,
        ),
        CoreEventKind::RunFinished { .. } => write_run_finished(
            alloc, text, timestamp, elapsed, kind,
        ),
    }
}

/// Reads the members of the kind of this name. Each group of kinds has a function of its own, and
/// the next one takes the names that it doesn't know.
#[tactic(auto, unfolding(crate::specs::CoreKindForms::kind_in))]
pub fn core_from<'a>(
    alloc: Global,
    object: &[(&'a str, Node<'a>)],
    name: &str,
) -> Result<CoreEventKind, FromValueError>
    ensures { Gives result (kind_in core_kinds name.now (members_view object.now)) }
{
    match name {
        "run-started" => run_started_from(alloc, object),
        "stress-sub-run-started" => stress_sub_run_started_from(alloc, object),
        "run-begin-cancel" => run_begin_cancel_from(alloc, object),
        "run-paused" => run_paused_from(alloc, object),
        "run-continued" => run_continued_from(alloc, object),
        "stress-sub-run-finished" => stress_sub_run_finished_from(alloc, object),
        "run-finished" => run_finished_from(alloc, object),
        _ => script_or_test_from(alloc, object, name),
    }
}

/// The kinds of setup scripts, and after them those of tests.
#[tactic(auto, unfolding(crate::specs::CoreKindForms::kind_in))]
fn script_or_test_from<'a>(
    alloc: Global,
    object: &[(&'a str, Node<'a>)],
    name: &str,
) -> Result<CoreEventKind, FromValueError>
    ensures { Gives result
        (kind_in (script_kinds ++ test_kinds) name.now (members_view object.now)) }
{
    match name {
        "setup-script-started" => setup_script_started_from(alloc, object),
        "setup-script-slow" => setup_script_slow_from(alloc, object),
        _ => test_from(alloc, object, name),
    }
}

/// The kinds of tests.
#[tactic(auto, unfolding(crate::specs::CoreKindForms::kind_in))]
fn test_from<'a>(
    alloc: Global,
    object: &[(&'a str, Node<'a>)],
    name: &str,
) -> Result<CoreEventKind, FromValueError>
    ensures { Gives result (kind_in test_kinds name.now (members_view object.now)) }
{
    match name {
        "test-started" => test_started_from(alloc, object),
        "test-slow" => test_slow_from(alloc, object),
        "test-retry-started" => test_retry_started_from(alloc, object),
        "test-skipped" => test_skipped_from(alloc, object),
        _ => Err(FromValueError::NotAValue),
    }
}
