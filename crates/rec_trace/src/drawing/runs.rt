//! Draws the begins and the ends of runs, and of the runs of a stress run.
ghost use Rattle.std.specs.Option.{unwrap_or};
ghost use Rattle.std.specs.Prelude.{◌≡◌, [], Some, OnOk, codes, option_map};
ghost use Rattle.rec_codec.specs.CoreKinds.{core_name};
ghost use Rattle.rec_trace_events.specs.RowNames.{run_process_name};
ghost use Rattle.rec_spans.specs.Acts.{core_act};
ghost use Rattle.rec_trace.specs.Drawing.{Draws, IsJudgedAct, in_sight};
ghost use Rattle.rec_trace.specs.KnownNews.{known_in};
ghost use Rattle.rec_trace.specs.Table.{drawn_core, naming};

use crate::drawing::primitives::{draw_end, draw_names, draw_run_names, draw_start};
use crate::drawing::sight::Sight;
use crate::known::Known;
use rec_events::{CoreEventKind, Text};
use rec_trace_events::{
    Row, RunBeginArgs, RunEndArgs, SubRunBeginArgs, SubRunEndArgs, TraceEvent, run_process_name,
};
use std::alloc::{AllocError, Global};

/// Names the process of the run, under the profile that its start names, and its row, each where it
/// wasn't named before.
fn draw_profile_names(
    sight: &Sight<'_>,
    row: Row,
    profile: &Text,
    events: &mut Vec<TraceEvent>,
) -> Result<(), AllocError>
    ensures { OnOk result
        (Draws (in_sight sight.now naming row (run_process_name (Some profile.now)) (codes "run"))
        events.old.items events.new.items) }
{
    let process = run_process_name(sight.alloc, Some(profile))?;
    draw_names(sight, row, process.as_str(), "run", events)
}

/// Draws that a run started.
pub fn draw_run_start(
    sight: &Sight<'_>,
    kind: &CoreEventKind,
    events: &mut Vec<TraceEvent>,
) -> Result<(), AllocError>
    requires named { core_name kind.now ≡ codes "run-started" }
    requires judged { IsJudgedAct sight.now (core_act kind.now) }
    ensures { OnOk result
        (Draws (in_sight sight.now drawn_core kind.now) events.old.items events.new.items) }
{
    let CoreEventKind::RunStarted {
        run_id,
        profile_name,
        cli_args,
        stress_condition,
    } = kind
    else {
        unreachable!()
    };
    let Some(span) = &sight.judged.started else {
        unreachable!()
    };
    draw_profile_names(sight, span.row, profile_name, events)?;
    let args = RunBeginArgs {
        version: sight.version,
        run_id,
        profile: profile_name.as_str(),
        cli_args,
        stress_condition,
    };
    draw_start(sight, span, Some(&args), events)
}

/// Returns the profile of the run that started last, or an empty text.
fn last_profile(known: &Known) -> &str
    ensures { result.now
        ≡ unwrap_or (option_map (λ run. run.profile_name) (known_in known.now).last_run) [] }
{
    match known.last_run() {
        Some(run) => run.profile_name.as_str(),
        None => "",
    }
}

/// Draws that a run ended.
pub fn draw_run_end(
    sight: &Sight<'_>,
    kind: &CoreEventKind,
    events: &mut Vec<TraceEvent>,
) -> Result<(), AllocError>
    requires named { core_name kind.now ≡ codes "run-finished" }
    ensures { OnOk result
        (Draws (in_sight sight.now drawn_core kind.now) events.old.items events.new.items) }
{
    let CoreEventKind::RunFinished {
        elapsed,
        run_stats,
        outstanding_not_seen,
        ..
    } = kind
    else {
        unreachable!()
    };
    let args = RunEndArgs {
        version: sight.version,
        time_taken: elapsed,
        profile: last_profile(sight.known),
        run_stats,
        outstanding_not_seen,
    };
    draw_end(sight, sight.tracker.open_spans().run(), &args, events)
}

/// Draws that one of a stress run's runs started.
pub fn draw_sub_run_start(
    sight: &Sight<'_>,
    kind: &CoreEventKind,
    events: &mut Vec<TraceEvent>,
) -> Result<(), AllocError>
    requires named { core_name kind.now ≡ codes "stress-sub-run-started" }
    requires judged { IsJudgedAct sight.now (core_act kind.now) }
    ensures { OnOk result
        (Draws (in_sight sight.now drawn_core kind.now) events.old.items events.new.items) }
{
    let CoreEventKind::StressSubRunStarted { progress } = kind else {
        unreachable!()
    };
    let Some(span) = &sight.judged.started else {
        unreachable!()
    };
    draw_run_names(sight, span.row, "stress sub-runs", events)?;
    let args = SubRunBeginArgs { progress };
    draw_start(sight, span, Some(&args), events)
}

/// Draws that one of a stress run's runs ended.
pub fn draw_sub_run_end(
    sight: &Sight<'_>,
    kind: &CoreEventKind,
    events: &mut Vec<TraceEvent>,
) -> Result<(), AllocError>
    requires named { core_name kind.now ≡ codes "stress-sub-run-finished" }
    ensures { OnOk result
        (Draws (in_sight sight.now drawn_core kind.now) events.old.items events.new.items) }
{
    let CoreEventKind::StressSubRunFinished {
        progress,
        sub_elapsed,
        sub_stats,
    } = kind
    else {
        unreachable!()
    };
    let args = SubRunEndArgs {
        progress,
        time_taken: sub_elapsed,
        sub_stats,
    };
    draw_end(sight, sight.tracker.open_spans().sub_run(), &args, events)
}
