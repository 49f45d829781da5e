//! Draws the begins and the ends of setup scripts, and slow ones.
ghost use Rattle.std.specs.Prelude.{◌≡◌, OnOk, codes};
ghost use Rattle.rec_codec.specs.CoreKinds.{core_name};
ghost use Rattle.rec_codec.specs.OutputKinds.{output_name};
ghost use Rattle.rec_trace_events.specs.RowNames.{script_name};
ghost use Rattle.rec_spans.specs.Acts.{core_act, output_act};
ghost use Rattle.rec_spans.specs.Plain.{plain_output_kind};
ghost use Rattle.rec_trace.specs.Drawing.{Draws, IsJudgedAct, in_sight};
ghost use Rattle.rec_trace.specs.Table.{drawn_core, drawn_output, naming};

use crate::drawing::primitives::{draw_counter, draw_end, draw_names, draw_slow, draw_start};
use crate::drawing::sight::Sight;
use rec_events::{CoreEventKind, OutputEventKind, OutputSpec};
use rec_trace_events::{
    Category, NoArgs, Row, ScriptEndArgs, SlowScriptArgs, TraceEvent, script_name,
};
use std::alloc::AllocError;

/// Names the process of the setup scripts, and the row of the one of this index,
/// each where it wasn't named before.
fn draw_script_names(
    sight: &Sight<'_>,
    row: Row,
    index: usize,
    events: &mut Vec<TraceEvent>,
) -> Result<(), AllocError>
    ensures { OnOk result
        (Draws (in_sight sight.now naming row (codes "setup-scripts") (script_name index))
        events.old.items events.new.items) }
{
    let name = script_name(sight.alloc, index)?;
    draw_names(sight, row, "setup-scripts", name.as_str(), events)
}

/// Draws that a setup script started.
pub fn draw_script_start(
    sight: &Sight<'_>,
    kind: &CoreEventKind,
    events: &mut Vec<TraceEvent>,
) -> Result<(), AllocError>
    requires named { core_name kind.now ≡ codes "setup-script-started" }
    requires judged { IsJudgedAct sight.now (core_act kind.now) }
    ensures { OnOk result
        (Draws (in_sight sight.now drawn_core kind.now) events.old.items events.new.items) }
{
    let CoreEventKind::SetupScriptStarted { index, .. } = kind else {
        unreachable!()
    };
    let Some(span) = &sight.judged.started else {
        unreachable!()
    };
    draw_script_names(sight, span.row, *index, events)?;
    draw_start(sight, span, None::<&NoArgs>, events)?;
    let (tests, scripts) = (sight.known.running(), sight.judged.running_scripts);
    draw_counter(sight, tests, scripts, events)
}

/// Draws that a setup script is slow: of those that run under its id,
/// the one with the smallest index.
pub fn draw_slow_script(
    sight: &Sight<'_>,
    kind: &CoreEventKind,
    events: &mut Vec<TraceEvent>,
) -> Result<(), AllocError>
    requires named { core_name kind.now ≡ codes "setup-script-slow" }
    ensures { OnOk result
        (Draws (in_sight sight.now drawn_core kind.now) events.old.items events.new.items) }
{
    let CoreEventKind::SetupScriptSlow {
        stress_index,
        script_id,
        elapsed,
        will_terminate,
        ..
    } = kind
    else {
        unreachable!()
    };
    let args = SlowScriptArgs {
        script_id,
        stress_index,
        elapsed,
        will_terminate: *will_terminate,
    };
    let span = sight.tracker.open_spans().some_script(script_id);
    draw_slow(sight, Category::SetupScript, span, &args, events)
}

/// Draws that a setup script ended.
pub fn draw_script_end<S: OutputSpec>(
    sight: &Sight<'_>,
    kind: &OutputEventKind<S>,
    events: &mut Vec<TraceEvent>,
) -> Result<(), AllocError>
    requires named { output_name kind.now ≡ codes "setup-script-finished" }
    requires judged { IsJudgedAct sight.now (output_act (plain_output_kind kind.now)) }
    ensures { OnOk result
        (Draws (in_sight sight.now drawn_output (plain_output_kind kind.now)) events.old.items
        events.new.items) }
{
    let OutputEventKind::SetupScriptFinished {
        stress_index,
        index,
        script_id,
        run_status,
        ..
    } = kind
    else {
        unreachable!()
    };
    let args = ScriptEndArgs {
        script_id,
        stress_index,
        status: run_status,
    };
    let span = sight.tracker.open_spans().script(*index);
    draw_end(sight, span, &args, events)?;
    let (tests, scripts) = (sight.known.running(), sight.judged.running_scripts);
    draw_counter(sight, tests, scripts, events)
}
