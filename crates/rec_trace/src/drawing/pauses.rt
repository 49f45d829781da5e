//! Draws the pauses of a run, that it goes on, and that it was cancelled.
ghost use Rattle.std.specs.Prelude.{◌≡◌, [], OnOk, codes, if◌then◌else◌};
ghost use Rattle.rec_codec.specs.CoreKinds.{core_name};
ghost use Rattle.rec_spans.specs.declared.spans.Phase.TheVariants as phases;
ghost use Rattle.rec_trace.specs.Drawing.{Draws, in_sight};
ghost use Rattle.rec_trace.specs.Table.{bare, drawn_core};

use crate::drawing::primitives::{draw_all, draw_counter, draw_run_mark};
use crate::drawing::sight::Sight;
use rec_events::CoreEventKind;
use rec_spans::Phase;
use rec_trace_events::{RunMark, TraceEvent};
use std::alloc::AllocError;

/// Draws that a run was cancelled.
pub fn draw_cancel(
    sight: &Sight<'_>,
    kind: &CoreEventKind,
    events: &mut Vec<TraceEvent>,
) -> Result<(), AllocError>
    requires named { core_name kind.now ≡ codes "run-begin-cancel" }
    ensures { OnOk result
        (Draws (in_sight sight.now drawn_core kind.now) events.old.items events.new.items) }
{
    let CoreEventKind::RunBeginCancel {
        setup_scripts_running,
        running,
        reason,
    } = kind
    else {
        unreachable!()
    };
    let (scripts, tests) = (*setup_scripts_running, *running);
    draw_counter(sight, tests, scripts, events)?;
    draw_run_mark(sight, RunMark::Cancelled(*reason), tests, scripts, events)
}

/// Draws the ends of all open spans, unless the run is in a pause already.
fn draw_pause(sight: &Sight<'_>, events: &mut Vec<TraceEvent>) -> Result<(), AllocError>
    ensures { OnOk result
        (Draws
        (if sight.now.tracker.now.in_pause then [] else bare phases.End sight.now.judged.now.at
        sight.now.tracker.now.spans)
        events.old.items events.new.items) }
{
    if sight.tracker.in_pause() {
        return Ok(());
    }
    draw_all(sight, Phase::End, events)
}

/// Draws that a run paused.
pub fn draw_run_pause(
    sight: &Sight<'_>,
    kind: &CoreEventKind,
    events: &mut Vec<TraceEvent>,
) -> Result<(), AllocError>
    requires named { core_name kind.now ≡ codes "run-paused" }
    ensures { OnOk result
        (Draws (in_sight sight.now drawn_core kind.now) events.old.items events.new.items) }
{
    let CoreEventKind::RunPaused {
        setup_scripts_running,
        running,
    } = kind
    else {
        unreachable!()
    };
    let (scripts, tests) = (*setup_scripts_running, *running);
    draw_counter(sight, tests, scripts, events)?;
    draw_pause(sight, events)?;
    draw_run_mark(sight, RunMark::Paused, tests, scripts, events)
}

/// Draws the begins of all open spans, where the run is in a pause.
fn draw_resume(sight: &Sight<'_>, events: &mut Vec<TraceEvent>) -> Result<(), AllocError>
    ensures { OnOk result
        (Draws
        (if sight.now.tracker.now.in_pause then bare phases.Begin sight.now.judged.now.at
        sight.now.tracker.now.spans else [])
        events.old.items events.new.items) }
{
    if !sight.tracker.in_pause() {
        return Ok(());
    }
    draw_all(sight, Phase::Begin, events)
}

/// Draws that a run goes on.
pub fn draw_run_continuation(
    sight: &Sight<'_>,
    kind: &CoreEventKind,
    events: &mut Vec<TraceEvent>,
) -> Result<(), AllocError>
    requires named { core_name kind.now ≡ codes "run-continued" }
    ensures { OnOk result
        (Draws (in_sight sight.now drawn_core kind.now) events.old.items events.new.items) }
{
    let CoreEventKind::RunContinued {
        setup_scripts_running,
        running,
    } = kind
    else {
        unreachable!()
    };
    let (scripts, tests) = (*setup_scripts_running, *running);
    draw_counter(sight, tests, scripts, events)?;
    draw_run_mark(sight, RunMark::Continued, tests, scripts, events)?;
    draw_resume(sight, events)
}
