//! Draws the parts of which the trace events of every kind of event are made.
ghost use Rattle.std.specs.Prelude.{◌≡◌, ◌++◌, [], ◌∷◌, Some, IfOk, OnOk, if◌then◌else◌};
ghost use Rattle.std.specs.Prelude.{map, option_copied, option_map, option_to_list};
ghost use Rattle.serde_json.specs.Data.{Data};
ghost use Rattle.rec_trace_events.specs.EventTexts.{event_value};
ghost use Rattle.rec_trace_events.specs.TraceEvents.{process_row};
ghost use Rattle.rec_spans.specs.Past.{mark};
ghost use Rattle.rec_trace.specs.Drawing.{Draws, in_sight};
ghost use Rattle.rec_trace.specs.Drawn.Drawn.{ArrowStarts, ArrowFinishes, ProcessNamed};
ghost use Rattle.rec_trace.specs.Drawn.Drawn.{Results, RowNamed, Slice, Slow};
ghost use Rattle.rec_trace.specs.Drawn.{category_of};
ghost use Rattle.rec_trace.specs.KnownNews.{known_in};
ghost use Rattle.rec_trace.specs.Table.{bare, closes, counter, naming};
ghost use Rattle.rec_trace.specs.Table.{opens, run_marked, run_process};

use crate::drawing::sight::Sight;
use rec_events::{OwnedTestInstanceId, Text};
use rec_spans::{Phase, Span, SpanKey};
use rec_trace_events::{
    Args, Category, NoArgs, Row, RunMark, RunningCounts, TestCounts, TraceEvent, arrow_finish,
    arrow_start, begin_event, concurrency_event, end_event, mark_event, process_metadata,
    results_event, run_process_name, slow_event, thread_metadata,
};
use std::alloc::AllocError;

/// Puts an event after those so far, where it was made.
fn put(events: &mut Vec<TraceEvent>, made: Result<TraceEvent, AllocError>) -> Result<(), AllocError>
    ensures { (value : Data) → IfOk made (λ e. event_value e ≡ value)
        → OnOk result
        (map event_value events.new.items ≡ map event_value events.old.items ++ value ∷ []) }
{
    events.push(made?)?;
    Ok(())
}

// ---- names

/// Names a process, where it wasn't named before.
fn name_process(
    sight: &Sight<'_>,
    pid: u64,
    name: &str,
    events: &mut Vec<TraceEvent>,
) -> Result<(), AllocError>
    ensures { OnOk result
        (Draws
        (if (known_in sight.now.known.now).is_named (process_row pid) then [] else ProcessNamed pid
        name.now ∷ [])
        events.old.items events.new.items) }
{
    if sight.known.is_named(Row { pid, tid: 0 }) {
        return Ok(());
    }
    let mut names = process_metadata(sight.alloc, pid, name)?;
    events.append(&mut names)
}

/// Names a row, where it wasn't named before.
fn name_row(
    sight: &Sight<'_>,
    row: Row,
    name: &str,
    events: &mut Vec<TraceEvent>,
) -> Result<(), AllocError>
    ensures { OnOk result
        (Draws
        (if (known_in sight.now.known.now).is_named row then [] else RowNamed row name.now ∷ [])
        events.old.items events.new.items) }
{
    if sight.known.is_named(row) {
        return Ok(());
    }
    let mut names = thread_metadata(sight.alloc, row, name)?;
    events.append(&mut names)
}

/// Names the process of a row, and the row, each where it wasn't named before.
pub fn draw_names(
    sight: &Sight<'_>,
    row: Row,
    process: &str,
    name: &str,
    events: &mut Vec<TraceEvent>,
) -> Result<(), AllocError>
    ensures { OnOk result
        (Draws (in_sight sight.now naming row process.now name.now) events.old.items
        events.new.items) }
{
    name_process(sight, row.pid, process, events)?;
    name_row(sight, row, name, events)
}

/// Makes the name of the process of the run, under the profile of the run that started last.
fn run_process(sight: &Sight<'_>) -> Result<Text, AllocError>
    ensures { IfOk result (λ name. name ≡ in_sight sight.now run_process) }
{
    let profile = match sight.known.last_run() {
        Some(run) => Some(&run.profile_name),
        None => None,
    };
    run_process_name(sight.alloc, profile)
}

/// Names the process of the run, and this row of it, each where it wasn't named before.
pub fn draw_run_names(
    sight: &Sight<'_>,
    row: Row,
    name: &str,
    events: &mut Vec<TraceEvent>,
) -> Result<(), AllocError>
    ensures { OnOk result
        (Draws (in_sight sight.now naming row (in_sight sight.now run_process) name.now)
        events.old.items events.new.items) }
{
    let process = run_process(sight)?;
    draw_names(sight, row, process.as_str(), name, events)
}

// ---- slices

/// Returns the category of what a span is of.
fn category_of(key: &SpanKey) -> Category
    ensures { result ≡ category_of key.now }
{
    match key {
        SpanKey::Run => Category::Run,
        SpanKey::SubRun => Category::Stress,
        SpanKey::Script(_) => Category::SetupScript,
        SpanKey::Test(_) => Category::Test,
    }
}

/// Draws the begin or the end of a slice of a span, with these args, where there are some.
pub fn draw_slice<A: Args>(
    sight: &Sight<'_>,
    phase: Phase,
    span: &Span,
    args: Option<&A>,
    events: &mut Vec<TraceEvent>,
) -> Result<(), AllocError>
    ensures { OnOk result
        (Draws
        (Slice (mark phase sight.now.judged.now.at span.now)
        (option_map A.value_of (option_copied args.entry)) ∷ [])
        events.old.items events.new.items) }
{
    let (name, category) = (span.name.as_str(), category_of(&span.key));
    let (row, at) = (span.row, sight.judged.at);
    match phase {
        Phase::Begin => {
            let begin = begin_event(sight.alloc, name, category, row, at, args);
            put(events, begin)
        }
        Phase::End => {
            let end = end_event(sight.alloc, name, category, row, at, args);
            put(events, end)
        }
    }
}

/// Draws in a pause the begin or the end of a slice of a span without args, and else nothing.
pub fn draw_in_pause(
    sight: &Sight<'_>,
    phase: Phase,
    span: &Span,
    events: &mut Vec<TraceEvent>,
) -> Result<(), AllocError>
    ensures { OnOk result
        (Draws
        (if sight.now.tracker.now.in_pause then bare phase sight.now.judged.now.at (span.now ∷ [])
        else [])
        events.old.items events.new.items) }
{
    if !sight.tracker.in_pause() {
        return Ok(());
    }
    draw_slice(sight, phase, span, None::<&NoArgs>, events)
}

/// Draws the begin of a span. In a pause the span ends at once.
pub fn draw_start<A: Args>(
    sight: &Sight<'_>,
    span: &Span,
    args: Option<&A>,
    events: &mut Vec<TraceEvent>,
) -> Result<(), AllocError>
    ensures { OnOk result
        (Draws
        (in_sight sight.now opens span.now (option_map A.value_of (option_copied args.entry)) [])
        events.old.items events.new.items) }
{
    draw_slice(sight, Phase::Begin, span, args, events)?;
    draw_in_pause(sight, Phase::End, span, events)
}

/// Draws the end of a span, where it is open. In a pause the span begins before that.
pub fn draw_end<A: Args>(
    sight: &Sight<'_>,
    span: Option<&Span>,
    args: &A,
    events: &mut Vec<TraceEvent>,
) -> Result<(), AllocError>
    ensures { OnOk result
        (Draws
        (in_sight sight.now closes (option_to_list (option_copied span.entry))
        (Some (A.value_of args.now)))
        events.old.items events.new.items) }
{
    let Some(span) = span else { return Ok(()) };
    draw_in_pause(sight, Phase::Begin, span, events)?;
    draw_slice(sight, Phase::End, span, Some(args), events)
}

/// Draws the begins, or the ends, of all open spans without args.
pub fn draw_all(
    sight: &Sight<'_>,
    phase: Phase,
    events: &mut Vec<TraceEvent>,
) -> Result<(), AllocError>
    ensures { OnOk result
        (Draws (bare phase sight.now.judged.now.at sight.now.tracker.now.spans) events.old.items
        events.new.items) }
{
    for span in sight.tracker.open_spans().iter() {
        draw_slice(sight, phase, span, None::<&NoArgs>, events)?;
    }
    Ok(())
}

// ---- counters and instants

/// Draws how many tests and setup scripts run.
pub fn draw_counter(
    sight: &Sight<'_>,
    tests: usize,
    scripts: usize,
    events: &mut Vec<TraceEvent>,
) -> Result<(), AllocError>
    ensures { OnOk result
        (Draws (in_sight sight.now counter tests scripts ∷ []) events.old.items events.new.items) }
{
    let running = RunningCounts { tests, scripts };
    let counter = concurrency_event(sight.alloc, running, sight.judged.at);
    put(events, counter)
}

/// Draws how many tests ended, and how.
pub fn draw_results(
    sight: &Sight<'_>,
    counts: TestCounts,
    events: &mut Vec<TraceEvent>,
) -> Result<(), AllocError>
    ensures { OnOk result
        (Draws (Results counts sight.now.judged.now.at ∷ []) events.old.items events.new.items) }
{
    let results = results_event(sight.alloc, counts, sight.judged.at);
    put(events, results)
}

/// Draws a mark over the run, with so many tests and setup scripts running.
pub fn draw_run_mark(
    sight: &Sight<'_>,
    what: RunMark,
    tests: usize,
    scripts: usize,
    events: &mut Vec<TraceEvent>,
) -> Result<(), AllocError>
    ensures { OnOk result
        (Draws (in_sight sight.now run_marked what tests scripts) events.old.items
        events.new.items) }
{
    draw_run_names(sight, Row { pid: 0, tid: 1 }, "run", events)?;
    let running = RunningCounts { tests, scripts };
    let mark = mark_event(sight.alloc, what, running, sight.judged.at);
    put(events, mark)
}

/// Draws that a span is slow, where it is open.
pub fn draw_slow<A: Args>(
    sight: &Sight<'_>,
    category: Category,
    span: Option<&Span>,
    args: &A,
    events: &mut Vec<TraceEvent>,
) -> Result<(), AllocError>
    ensures { OnOk result
        (Draws
        (map (λ s. Slow category s.row sight.now.judged.now.at (A.value_of args.now))
        (option_to_list (option_copied span.entry)))
        events.old.items events.new.items) }
{
    match span {
        Some(span) => {
            let slow = slow_event(sight.alloc, category, span.row, sight.judged.at, args);
            put(events, slow)
        }
        None => Ok(()),
    }
}

// ---- arrows

/// Draws the start of the arrow of a test, of the next flow number,
/// on the row of its attempt, where one is open.
pub fn draw_arrow_start(
    sight: &Sight<'_>,
    test: &OwnedTestInstanceId,
    span: Option<&Span>,
    events: &mut Vec<TraceEvent>,
) -> Result<(), AllocError>
    ensures { OnOk result
        (Draws
        (map
        (λ s. ArrowStarts test.now s.row sight.now.judged.now.at sight.now.tracker.now.next_flow)
        (option_to_list (option_copied span.entry)))
        events.old.items events.new.items) }
{
    match span {
        Some(span) => {
            let flow = sight.tracker.next_flow();
            let start = arrow_start(sight.alloc, span.row, sight.judged.at, flow);
            put(events, start)
        }
        None => Ok(()),
    }
}

/// Draws the finish of the arrow of this number, if there is one, for a test on a row.
pub fn draw_arrow_finish(
    sight: &Sight<'_>,
    test: &OwnedTestInstanceId,
    row: Row,
    flow: Option<u64>,
    events: &mut Vec<TraceEvent>,
) -> Result<(), AllocError>
    ensures { OnOk result
        (Draws
        (option_to_list (option_map (ArrowFinishes test.now row sight.now.judged.now.at) flow))
        events.old.items events.new.items) }
{
    match flow {
        Some(flow) => {
            let finish = arrow_finish(sight.alloc, row, sight.judged.at, flow);
            put(events, finish)
        }
        None => Ok(()),
    }
}
