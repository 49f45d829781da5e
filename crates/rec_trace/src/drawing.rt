//! Draws the trace events of an event, as the table of the trace says.
ghost use Rattle.std.specs.Prelude.{◌≡◌, IfOk, OnOk, map};
ghost use Rattle.rec_trace_events.specs.EventTexts.{event_value};
ghost use Rattle.rec_spans.specs.Acts.{act_of, core_act, output_act};
ghost use Rattle.rec_spans.specs.Judged.{IsJudged};
ghost use Rattle.rec_spans.specs.Kinds.{trace_input};
ghost use Rattle.rec_spans.specs.Plain.{plain, plain_kind, plain_output_kind};
ghost use Rattle.rec_trace.specs.Drawing.{Draws, IsJudgedAct, in_sight};
ghost use Rattle.rec_trace.specs.Drawn.{all_events};
ghost use Rattle.rec_trace.specs.KnownNews.{known_in};
ghost use Rattle.rec_trace.specs.Table.{drawn, drawn_core, drawn_kind, drawn_output};

mod attempts;
mod pauses;
mod primitives;
mod runs;
mod scripts;
mod sight;

use crate::known::Known;
use attempts::{
    draw_failed_attempt, draw_retry_start, draw_slow_test, draw_test_end, draw_test_start,
};
use pauses::{draw_cancel, draw_run_continuation, draw_run_pause};
use rec_events::{
    CoreEventKind, OutputEventKind, OutputSpec, TestEventKindSummary, TestEventSummary, Version,
};
use rec_spans::{ChromeTraceGroupBy, JudgedEvent, SpanTracker};
use rec_trace_events::TraceEvent;
use runs::{draw_run_end, draw_run_start, draw_sub_run_end, draw_sub_run_start};
use scripts::{draw_script_end, draw_script_start, draw_slow_script};
use sight::Sight;
use std::alloc::{AllocError, Global};

/// Draws the trace events of an event that was judged, of a run by this version of the runner,
/// where this is open and known before it. `docs/FORMATS.md#what-each-event-draws` says what each
/// kind of event draws.
///
/// # Errors
///
/// `AllocError` if memory runs out.
pub fn draw_event<S: OutputSpec>(
    alloc: Global,
    version: &Version,
    group_by: ChromeTraceGroupBy,
    tracker: &SpanTracker,
    known: &Known,
    judged: &JudgedEvent,
    event: &TestEventSummary<S>,
) -> Result<Vec<TraceEvent>, AllocError>
    requires { IsJudged tracker.now (trace_input group_by tracker.now.binaries (plain event.now))
        judged.now }
    ensures { IfOk result
        (λ events. map event_value events.items
        ≡ all_events
        (drawn version.now group_by tracker.now (known_in known.now) (plain event.now))) }
{
    let sight = Sight {
        alloc,
        version,
        group_by,
        tracker,
        known,
        judged,
    };
    let mut events = Vec::new(alloc);
    let Ok(()) = draw_kind(&sight, &event.kind, &mut events) else {
        drop(events);
        return Err(AllocError);
    };
    Ok(events)
}

/// Draws what a kind of event draws.
fn draw_kind<S: OutputSpec>(
    sight: &Sight<'_>,
    kind: &TestEventKindSummary<S>,
    events: &mut Vec<TraceEvent>,
) -> Result<(), AllocError>
    requires { IsJudgedAct sight.now (act_of (plain_kind kind.now)) }
    ensures { OnOk result
        (Draws (in_sight sight.now drawn_kind (plain_kind kind.now)) events.old.items
        events.new.items) }
{
    match kind {
        TestEventKindSummary::Core(kind) => draw_core(sight, kind, events),
        TestEventKindSummary::Output(kind) => draw_output(sight, kind, events),
    }
}

/// Draws what an event without outputs draws. A test that is skipped is not drawn.
fn draw_core(
    sight: &Sight<'_>,
    kind: &CoreEventKind,
    events: &mut Vec<TraceEvent>,
) -> Result<(), AllocError>
    requires { IsJudgedAct sight.now (core_act kind.now) }
    ensures { OnOk result
        (Draws (in_sight sight.now drawn_core kind.now) events.old.items events.new.items) }
{
    match kind {
        CoreEventKind::RunStarted { .. } => draw_run_start(sight, kind, events),
        CoreEventKind::StressSubRunStarted { .. } => draw_sub_run_start(sight, kind, events),
        CoreEventKind::SetupScriptStarted { .. } => draw_script_start(sight, kind, events),
        CoreEventKind::SetupScriptSlow { .. } => draw_slow_script(sight, kind, events),
        CoreEventKind::TestStarted { .. } => draw_test_start(sight, kind, events),
        CoreEventKind::TestSlow { .. } => draw_slow_test(sight, kind, events),
        CoreEventKind::TestRetryStarted { .. } => draw_retry_start(sight, kind, events),
        CoreEventKind::TestSkipped { .. } => Ok(()),
        CoreEventKind::RunBeginCancel { .. } => draw_cancel(sight, kind, events),
        CoreEventKind::RunPaused { .. } => draw_run_pause(sight, kind, events),
        CoreEventKind::RunContinued { .. } => draw_run_continuation(sight, kind, events),
        CoreEventKind::StressSubRunFinished { .. } => draw_sub_run_end(sight, kind, events),
        CoreEventKind::RunFinished { .. } => draw_run_end(sight, kind, events),
    }
}

/// Draws what an event with outputs draws.
fn draw_output<S: OutputSpec>(
    sight: &Sight<'_>,
    kind: &OutputEventKind<S>,
    events: &mut Vec<TraceEvent>,
) -> Result<(), AllocError>
    requires { IsJudgedAct sight.now (output_act (plain_output_kind kind.now)) }
    ensures { OnOk result
        (Draws (in_sight sight.now drawn_output (plain_output_kind kind.now)) events.old.items
        events.new.items) }
{
    match kind {
        OutputEventKind::SetupScriptFinished { .. } => draw_script_end(sight, kind, events),
        OutputEventKind::TestAttemptFailedWillRetry { .. } => {
            draw_failed_attempt(sight, kind, events)
        }
        OutputEventKind::TestFinished { .. } => draw_test_end(sight, kind, events),
    }
}
