//! Draws the begins and the ends of attempts of tests, and slow tests.
ghost use Rattle.std.specs.Prelude.{◌≡◌, OnOk, codes, option_map, option_to_list};
ghost use Rattle.rec_codec.specs.CoreKinds.{core_name};
ghost use Rattle.rec_codec.specs.OutputKinds.{output_name};
ghost use Rattle.rec_trace_events.specs.RowNames.{slot_name};
ghost use Rattle.rec_spans.specs.Acts.Act.{AttemptStarts};
ghost use Rattle.rec_spans.specs.Acts.{core_act, output_act};
ghost use Rattle.rec_spans.specs.Kinds.{test_span};
ghost use Rattle.rec_spans.specs.Plain.{plain_output_kind};
ghost use Rattle.rec_trace.specs.Drawing.{Draws, IsJudgedAct, in_sight};
ghost use Rattle.rec_trace.specs.Drawn.Drawn.{ArrowFinishes};
ghost use Rattle.rec_trace.specs.Table.{attempt_starts, drawn_core};
ghost use Rattle.rec_trace.specs.Table.{drawn_output, naming, test_process};

use crate::drawing::primitives::{
    draw_arrow_finish, draw_arrow_start, draw_counter, draw_end, draw_in_pause, draw_names,
    draw_results, draw_slice, draw_slow,
};
use crate::drawing::sight::Sight;
use rec_events::{CoreEventKind, OutputEventKind, OutputSpec, OwnedTestInstanceId};
use rec_spans::{ChromeTraceGroupBy, Phase};
use rec_trace_events::{
    Args, Category, FailedAttemptArgs, LastAttemptArgs, RetryBeginArgs, Row, SlowTestArgs,
    TestBeginArgs, TestCounts, TraceEvent, counted_flaky_result, slot_name,
};
use std::alloc::AllocError;

/// Names the process of the row of a test: its binary, or that of all tests.
fn test_process(group_by: ChromeTraceGroupBy, test: &OwnedTestInstanceId) -> &str
    ensures { result.now ≡ test_process group_by test.now }
{
    match group_by {
        ChromeTraceGroupBy::Binary => test.binary_id.as_str(),
        ChromeTraceGroupBy::Slot => "tests",
    }
}

/// Names the process of the row of a test, and the row of this slot,
/// each where it wasn't named before.
fn draw_attempt_names(
    sight: &Sight<'_>,
    row: Row,
    test: &OwnedTestInstanceId,
    slot: u64,
    events: &mut Vec<TraceEvent>,
) -> Result<(), AllocError>
    ensures { OnOk result
        (Draws
        (in_sight sight.now naming row (test_process sight.now.group_by test.now) (slot_name slot))
        events.old.items events.new.items) }
{
    let name = slot_name(sight.alloc, slot)?;
    let process = test_process(sight.group_by, test);
    draw_names(sight, row, process, name.as_str(), events)
}

/// Draws that an attempt of a test started on a slot, at which the arrow of this number finishes,
/// if there is one. `running` is how many tests run with it.
fn draw_attempt_start<A: Args>(
    sight: &Sight<'_>,
    test: &OwnedTestInstanceId,
    slot: u64,
    args: &A,
    flow: Option<u64>,
    running: usize,
    events: &mut Vec<TraceEvent>,
) -> Result<(), AllocError>
    requires { IsJudgedAct sight.now (AttemptStarts test.now slot) }
    ensures { OnOk result
        (Draws (in_sight sight.now attempt_starts test.now slot (A.value_of args.now)
        (option_to_list
        (option_map
        (ArrowFinishes test.now
        (test_span sight.now.group_by sight.now.tracker.now.binaries test.now slot).row
        sight.now.judged.now.at) flow)) running)
        events.old.items events.new.items) }
{
    let Some(span) = &sight.judged.started else {
        unreachable!()
    };
    draw_attempt_names(sight, span.row, test, slot, events)?;
    draw_slice(sight, Phase::Begin, span, Some(args), events)?;
    draw_arrow_finish(sight, test, span.row, flow, events)?;
    draw_in_pause(sight, Phase::End, span, events)?;
    draw_counter(sight, running, sight.judged.running_scripts, events)
}

/// Draws that the first attempt of a test started.
pub fn draw_test_start(
    sight: &Sight<'_>,
    kind: &CoreEventKind,
    events: &mut Vec<TraceEvent>,
) -> Result<(), AllocError>
    requires named { core_name kind.now ≡ codes "test-started" }
    requires judged { IsJudgedAct sight.now (core_act kind.now) }
    ensures { OnOk result
        (Draws (in_sight sight.now drawn_core kind.now) events.old.items events.new.items) }
{
    let CoreEventKind::TestStarted {
        test_instance,
        slot_assignment,
        running,
        command_line,
        ..
    } = kind
    else {
        unreachable!()
    };
    let args = TestBeginArgs {
        test: test_instance,
        command_line,
    };
    let slot = slot_assignment.global_slot;
    draw_attempt_start(sight, test_instance, slot, &args, None, *running, events)
}

/// Draws that a further attempt of a test started.
pub fn draw_retry_start(
    sight: &Sight<'_>,
    kind: &CoreEventKind,
    events: &mut Vec<TraceEvent>,
) -> Result<(), AllocError>
    requires named { core_name kind.now ≡ codes "test-retry-started" }
    requires judged { IsJudgedAct sight.now (core_act kind.now) }
    ensures { OnOk result
        (Draws (in_sight sight.now drawn_core kind.now) events.old.items events.new.items) }
{
    let CoreEventKind::TestRetryStarted {
        test_instance,
        slot_assignment,
        retry_data,
        running,
        command_line,
        ..
    } = kind
    else {
        unreachable!()
    };
    let args = RetryBeginArgs {
        test: test_instance,
        retry_data,
        command_line,
    };
    let slot = slot_assignment.global_slot;
    let flow = sight.known.arrow(test_instance);
    draw_attempt_start(sight, test_instance, slot, &args, flow, *running, events)
}

/// Draws that a test is slow.
pub fn draw_slow_test(
    sight: &Sight<'_>,
    kind: &CoreEventKind,
    events: &mut Vec<TraceEvent>,
) -> Result<(), AllocError>
    requires named { core_name kind.now ≡ codes "test-slow" }
    ensures { OnOk result
        (Draws (in_sight sight.now drawn_core kind.now) events.old.items events.new.items) }
{
    let CoreEventKind::TestSlow {
        stress_index,
        test_instance,
        retry_data,
        elapsed,
        will_terminate,
    } = kind
    else {
        unreachable!()
    };
    let args = SlowTestArgs {
        test: test_instance,
        stress_index,
        retry_data,
        elapsed,
        will_terminate: *will_terminate,
    };
    let span = sight.tracker.open_spans().test(test_instance);
    draw_slow(sight, Category::Test, span, &args, events)
}

/// Draws that an attempt of a test failed, after which another one follows.
pub fn draw_failed_attempt<S: OutputSpec>(
    sight: &Sight<'_>,
    kind: &OutputEventKind<S>,
    events: &mut Vec<TraceEvent>,
) -> Result<(), AllocError>
    requires named { output_name kind.now ≡ codes "test-attempt-failed-will-retry" }
    requires judged { IsJudgedAct sight.now (output_act (plain_output_kind kind.now)) }
    ensures { OnOk result
        (Draws (in_sight sight.now drawn_output (plain_output_kind kind.now)) events.old.items
        events.new.items) }
{
    let OutputEventKind::TestAttemptFailedWillRetry {
        stress_index,
        test_instance,
        run_status,
        delay_before_next_attempt,
        running,
        ..
    } = kind
    else {
        unreachable!()
    };
    let args = FailedAttemptArgs {
        test: test_instance,
        stress_index,
        test_group: sight.known.group(test_instance),
        status: run_status,
        delay_before_next_attempt,
    };
    let span = sight.tracker.open_spans().test(test_instance);
    draw_end(sight, span, &args, events)?;
    draw_arrow_start(sight, test_instance, span, events)?;
    draw_counter(sight, *running, sight.judged.running_scripts, events)
}

/// Draws that the last attempt of a test ended.
pub fn draw_test_end<S: OutputSpec>(
    sight: &Sight<'_>,
    kind: &OutputEventKind<S>,
    events: &mut Vec<TraceEvent>,
) -> Result<(), AllocError>
    requires named { output_name kind.now ≡ codes "test-finished" }
    requires judged { IsJudgedAct sight.now (output_act (plain_output_kind kind.now)) }
    ensures { OnOk result
        (Draws (in_sight sight.now drawn_output (plain_output_kind kind.now)) events.old.items
        events.new.items) }
{
    let OutputEventKind::TestFinished {
        stress_index,
        test_instance,
        run_statuses,
        current_stats,
        running,
        ..
    } = kind
    else {
        unreachable!()
    };
    let Some(counts) = TestCounts::of(current_stats) else {
        unreachable!()
    };
    let last = run_statuses.last_status();
    let args = LastAttemptArgs {
        test: test_instance,
        stress_index,
        test_group: sight.known.group(test_instance),
        last,
        flaky: counted_flaky_result(run_statuses, last),
    };
    let span = sight.tracker.open_spans().test(test_instance);
    draw_end(sight, span, &args, events)?;
    draw_counter(sight, *running, sight.judged.running_scripts, events)?;
    draw_results(sight, counts, events)
}
