//! What each kind of event says that the next one has to know.
ghost use Rattle.std.specs.Prelude.{◌≡◌, IfOk, option_copied, option_map};
ghost use Rattle.rec_trace_events.specs.TraceEvents.{run_row};
ghost use Rattle.rec_spans.specs.Acts.{act_of, core_act};
ghost use Rattle.rec_spans.specs.Plain.{plain_kind, plain_output_kind};
ghost use Rattle.rec_trace.specs.Known.{core_run, core_running, marked_row};
ghost use Rattle.rec_trace.specs.Known.{output_running, run_of, running_of};
ghost use Rattle.rec_trace.specs.KnownMaps.{test_told};
ghost use Rattle.rec_trace.specs.KnownNews.{core_test, news_with, output_test, row_of, test_news};

use crate::run_start::RunStart;
use rec_events::{
    CoreEventKind, OutputEventKind, OutputSpec, OwnedTestInstanceId, TestEventKindSummary,
    TestGroup, TryClone,
};
use rec_spans::Span;
use rec_trace_events::Row;
use std::alloc::{AllocError, Global};

/// Says what becomes of the arrow that is pending for a test.
#[derive(Clone, Copy, Drop)]
pub enum ArrowNews {
    /// It stays, where there is one.
    Stays,
    /// It finishes, and none is pending then.
    Finishes,
    /// An arrow of this number is pending.
    Starts(u64),
}

/// Says what an event decides of a test.
#[derive(Clone, Copy)]
pub struct NewTest<'e> {
    /// The test.
    pub test: &'e OwnedTestInstanceId,
    /// The group of the attempt that it starts; none where it ends one.
    pub group: Option<&'e TestGroup>,
    /// What becomes of its arrow.
    pub arrow: ArrowNews,
}

/// Holds what an event decides of a test.
#[derive(Drop)]
pub struct TestNews {
    /// The test.
    pub test: OwnedTestInstanceId,
    /// The group of the attempt that it starts; none where it ends one.
    pub group: Option<TestGroup>,
    /// What becomes of its arrow.
    pub arrow: ArrowNews,
}

/// Holds what an event decides of the next ones.
#[derive(Drop)]
pub struct News {
    /// The row that it names, if that wasn't named before.
    pub row: Option<Row>,
    /// How many tests run, where it says so.
    pub running: Option<usize>,
    /// The run that it starts.
    pub run: Option<RunStart>,
    /// What it decides of a test, if it is of one.
    pub test: Option<TestNews>,
}

// ---- rows

/// Returns the row that an event names: that of the span that it starts, or that of its mark.
pub fn row_to_name<S: OutputSpec>(
    started: &Option<Span>,
    kind: &TestEventKindSummary<S>,
) -> Option<Row>
    ensures { result ≡ row_of started.now (plain_kind kind.now) }
{
    match started {
        Some(span) => Some(span.row),
        None => marked_row(kind),
    }
}

/// Returns the row of the mark of an event, if it is one over the run.
fn marked_row<S: OutputSpec>(kind: &TestEventKindSummary<S>) -> Option<Row>
    ensures { result ≡ marked_row (act_of (plain_kind kind.now)) }
{
    match kind {
        TestEventKindSummary::Core(kind) => core_mark(kind),
        TestEventKindSummary::Output(_) => None,
    }
}

/// Returns the row of the mark of an event without outputs.
fn core_mark(kind: &CoreEventKind) -> Option<Row>
    ensures { result ≡ marked_row (core_act kind.now) }
{
    match kind {
        CoreEventKind::RunBeginCancel { .. } => Some(run_row()),
        CoreEventKind::RunPaused { .. } => Some(run_row()),
        CoreEventKind::RunContinued { .. } => Some(run_row()),
        _ => None,
    }
}

/// Returns the row of the run.
fn run_row() -> Row
    ensures { result ≡ run_row }
{
    Row { pid: 0, tid: 1 }
}

// ---- counts and runs

/// Returns how many tests run, where an event without outputs says so.
fn core_running(kind: &CoreEventKind) -> Option<usize>
    ensures { result ≡ core_running kind.now }
{
    match kind {
        CoreEventKind::TestStarted { running, .. } => Some(*running),
        CoreEventKind::TestRetryStarted { running, .. } => Some(*running),
        CoreEventKind::RunBeginCancel { running, .. } => Some(*running),
        CoreEventKind::RunPaused { running, .. } => Some(*running),
        CoreEventKind::RunContinued { running, .. } => Some(*running),
        _ => None,
    }
}

/// Returns how many tests run, where an event with outputs says so.
fn output_running<S: OutputSpec>(kind: &OutputEventKind<S>) -> Option<usize>
    ensures { result ≡ output_running (plain_output_kind kind.now) }
{
    match kind {
        OutputEventKind::SetupScriptFinished { .. } => None,
        OutputEventKind::TestAttemptFailedWillRetry { running, .. } => Some(*running),
        OutputEventKind::TestFinished { running, .. } => Some(*running),
    }
}

/// Returns how many tests run, where an event says so.
fn running_of<S: OutputSpec>(kind: &TestEventKindSummary<S>) -> Option<usize>
    ensures { result ≡ running_of (plain_kind kind.now) }
{
    match kind {
        TestEventKindSummary::Core(kind) => core_running(kind),
        TestEventKindSummary::Output(kind) => output_running(kind),
    }
}

/// Makes a copy of the run that an event starts.
fn core_run(alloc: Global, kind: &CoreEventKind) -> Result<Option<RunStart>, AllocError>
    ensures { IfOk result (λ run. run ≡ core_run kind.now) }
{
    let CoreEventKind::RunStarted {
        run_id,
        profile_name,
        cli_args,
        stress_condition,
    } = kind
    else {
        return Ok(None);
    };
    Ok(Some(RunStart {
        run_id: *run_id,
        stress_condition: *stress_condition,
        profile_name: profile_name.try_clone(alloc)?,
        cli_args: cli_args.try_clone(alloc)?,
    }))
}

/// Makes a copy of the run that an event starts.
fn run_of<S: OutputSpec>(
    alloc: Global,
    kind: &TestEventKindSummary<S>,
) -> Result<Option<RunStart>, AllocError>
    ensures { IfOk result (λ run. run ≡ run_of (plain_kind kind.now)) }
{
    match kind {
        TestEventKindSummary::Core(kind) => core_run(alloc, kind),
        TestEventKindSummary::Output(_) => Ok(None),
    }
}

// ---- tests

/// Says what an event without outputs decides of a test.
fn core_test(kind: &CoreEventKind) -> Option<NewTest<'_>>
    ensures { option_map test_told result ≡ core_test kind.now }
{
    match kind {
        CoreEventKind::TestStarted {
            test_instance,
            slot_assignment,
            ..
        } => Some(NewTest {
            test: test_instance,
            group: Some(&slot_assignment.test_group),
            arrow: ArrowNews::Stays,
        }),
        CoreEventKind::TestRetryStarted {
            test_instance,
            slot_assignment,
            ..
        } => Some(NewTest {
            test: test_instance,
            group: Some(&slot_assignment.test_group),
            arrow: ArrowNews::Finishes,
        }),
        _ => None,
    }
}

/// Says what an event with outputs decides of a test. A failed attempt has this flow number.
fn output_test<S: OutputSpec>(flow: u64, kind: &OutputEventKind<S>) -> Option<NewTest<'_>>
    ensures { option_map test_told result ≡ output_test flow (plain_output_kind kind.now) }
{
    match kind {
        OutputEventKind::SetupScriptFinished { .. } => None,
        OutputEventKind::TestAttemptFailedWillRetry { test_instance, .. } => Some(NewTest {
            test: test_instance,
            group: None,
            arrow: ArrowNews::Starts(flow),
        }),
        OutputEventKind::TestFinished { test_instance, .. } => Some(NewTest {
            test: test_instance,
            group: None,
            arrow: ArrowNews::Stays,
        }),
    }
}

/// Says what an event decides of a test. A failed attempt has this flow number.
pub fn new_test<S: OutputSpec>(flow: u64, kind: &TestEventKindSummary<S>) -> Option<NewTest<'_>>
    ensures { option_map test_told result ≡ test_news flow (plain_kind kind.now) }
{
    match kind {
        TestEventKindSummary::Core(kind) => core_test(kind),
        TestEventKindSummary::Output(kind) => output_test(flow, kind),
    }
}

/// Makes a copy of what is decided of a test.
fn test_copied(alloc: Global, test: Option<NewTest<'_>>) -> Result<Option<TestNews>, AllocError>
    ensures { IfOk result (λ news. news ≡ option_map test_told test.entry) }
{
    let Some(news) = test else { return Ok(None) };
    let group = group_copied(alloc, news.group)?;
    let Ok(test) = news.test.try_clone(alloc) else {
        drop(group);
        return Err(AllocError);
    };
    Ok(Some(TestNews {
        test,
        group,
        arrow: news.arrow,
    }))
}

/// Makes a copy of a group.
fn group_copied(alloc: Global, group: Option<&TestGroup>) -> Result<Option<TestGroup>, AllocError>
    ensures { IfOk result (λ copy. copy ≡ option_copied group.entry) }
{
    match group {
        Some(group) => Ok(Some(group.try_clone(alloc)?)),
        None => Ok(None),
    }
}

// ---- all of it

/// Makes the news of an event that names this row and decides this of a test.
pub fn news_of<S: OutputSpec>(
    alloc: Global,
    row: Option<Row>,
    test: Option<NewTest<'_>>,
    kind: &TestEventKindSummary<S>,
) -> Result<News, AllocError>
    ensures { IfOk result
        (λ news. news ≡ news_with row (option_map test_told test.entry) (plain_kind kind.now)) }
{
    let run = run_of(alloc, kind)?;
    let Ok(test) = test_copied(alloc, test) else {
        drop(run);
        return Err(AllocError);
    };
    Ok(News {
        row,
        running: running_of(kind),
        run,
        test,
    })
}
