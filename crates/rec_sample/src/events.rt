//! The events of a session.
ghost use Rattle.std.specs.Prelude.{◌≡◌, ◌≤◌, ◌<◌, ◌*◌, true, IfOk};
ghost use Rattle.rec_codec.specs.EventForms.{kind_loaded};
ghost use Rattle.rec_codec.specs.Live.{is_loaded};
ghost use Rattle.rec_sample.specs.Events.{core_event, run_started_event, test_started_event};
ghost use Rattle.rec_sample.specs.Events.{run_paused_event, run_continued_event};
ghost use Rattle.rec_sample.specs.Events.{test_finished_event, run_finished_event};
ghost use Rattle.rec_sample.specs.Kinds.{run_id, stats, slot_assignment};

use crate::attempts::attempts;
use crate::batches::{batch_size, running_after, slot_of};
use crate::instants::{pause_end, pause_start, run_end, run_start, seconds, test_end, test_start};
use crate::names::test_instance;
use rec_events::{
    CoreEventKind, Items, JunitFlakyFailStatus, LiveSpec, OutputEventKind, ReportUuid,
    RunFinishedStats, RunStats, Stamp, TestEventKindSummary, TestEventSummary, TestGroup,
    TestOutputDisplay, TestSlotAssignment, Text,
};
use std::alloc::{AllocError, Global};
use uuid::Uuid;

/// Returns the number of the run.
#[tactic(auto, unfolding(crate::specs::Kinds::run_id))]
pub(crate) fn run_id() -> ReportUuid
    ensures { result ≡ run_id }
{
    ReportUuid::new(Uuid::from_u128(0x550e8400_e29b_41d4_a716_446655440000))
}

/// Returns the counts of a run of so many tests, of which nothing else is counted.
fn stats(tests: u64) -> RunStats
    ensures { result ≡ stats tests }
{
    let mut stats = RunStats::zero();
    stats.initial_run_count = tests as usize;
    stats
}

/// Returns where a test runs.
fn slot_assignment(i: u64) -> TestSlotAssignment
    ensures { result ≡ slot_assignment i }
{
    TestSlotAssignment {
        global_slot: slot_of(i),
        group_slot: None,
        test_group: TestGroup::Global,
    }
}

/// Makes the event of a kind without outputs.
fn core_event(timestamp: Stamp, kind: CoreEventKind) -> TestEventSummary<LiveSpec>
    ensures { result ≡ core_event timestamp kind }
{
    TestEventSummary {
        timestamp,
        elapsed: seconds(0),
        kind: TestEventKindSummary::Core(kind),
    }
}

/// Makes the start of the run.
#[tactic(auto, unfolding(crate::specs::Events::run_started_event))]
pub(crate) fn run_started(alloc: Global) -> Result<TestEventSummary<LiveSpec>, AllocError>
    ensures value { IfOk result (λ e. e ≡ run_started_event) }
    ensures loaded { IfOk result (λ e. kind_loaded is_loaded e.kind ≡ true) }
{
    let profile_name = Text::from_str(alloc, "default")?;
    let kind = CoreEventKind::RunStarted {
        run_id: run_id(),
        profile_name,
        cli_args: Items::empty(alloc),
        stress_condition: None,
    };
    Ok(core_event(run_start(), kind))
}

/// Makes the start of a test.
#[tactic(auto, unfolding(crate::specs::Events::test_started_event))]
pub(crate) fn test_started(
    alloc: Global,
    tests: u64,
    i: u64,
) -> Result<TestEventSummary<LiveSpec>, AllocError>
    requires { i ≤ 10000 }
    ensures value { IfOk result (λ e. e ≡ test_started_event tests i) }
    ensures loaded { IfOk result (λ e. kind_loaded is_loaded e.kind ≡ true) }
{
    let test_instance = test_instance(alloc, i)?;
    let kind = CoreEventKind::TestStarted {
        stress_index: None,
        test_instance,
        slot_assignment: slot_assignment(i),
        current_stats: stats(tests),
        running: slot_of(i) as usize + 1,
        command_line: Items::empty(alloc),
    };
    Ok(core_event(test_start(i), kind))
}

/// Makes the pause of the run in a batch.
#[tactic(auto, unfolding(crate::specs::Events::run_paused_event))]
pub(crate) fn run_paused(tests: u64, batch: u64) -> TestEventSummary<LiveSpec>
    requires bound { tests ≤ 10000 }
    requires within { 8 * batch ≤ tests }
    ensures value { result ≡ run_paused_event tests batch }
    ensures loaded { kind_loaded is_loaded result.kind ≡ true }
{
    let kind = CoreEventKind::RunPaused {
        setup_scripts_running: 0,
        running: batch_size(tests, batch) as usize,
    };
    core_event(pause_start(batch), kind)
}

/// Makes the continuation of the run in a batch.
#[tactic(auto, unfolding(crate::specs::Events::run_continued_event))]
pub(crate) fn run_continued(tests: u64, batch: u64) -> TestEventSummary<LiveSpec>
    requires bound { tests ≤ 10000 }
    requires within { 8 * batch ≤ tests }
    ensures value { result ≡ run_continued_event tests batch }
    ensures loaded { kind_loaded is_loaded result.kind ≡ true }
{
    let kind = CoreEventKind::RunContinued {
        setup_scripts_running: 0,
        running: batch_size(tests, batch) as usize,
    };
    core_event(pause_end(batch), kind)
}

/// Makes the end of a test.
#[tactic(auto, unfolding(crate::specs::Events::test_finished_event))]
pub(crate) fn test_finished(
    alloc: Global,
    tests: u64,
    i: u64,
) -> Result<TestEventSummary<LiveSpec>, AllocError>
    requires bound { tests ≤ 10000 }
    requires within { i < tests }
    ensures value { IfOk result (λ e. e ≡ test_finished_event tests i) }
    ensures loaded { IfOk result (λ e. kind_loaded is_loaded e.kind ≡ true) }
{
    let test_instance = test_instance(alloc, i)?;
    let run_statuses = attempts(alloc, i)?;
    let kind = OutputEventKind::TestFinished {
        stress_index: None,
        test_instance,
        success_output: TestOutputDisplay::Never,
        failure_output: TestOutputDisplay::Never,
        junit_store_success_output: false,
        junit_store_failure_output: false,
        junit_flaky_fail_status: JunitFlakyFailStatus::Failure,
        run_statuses,
        current_stats: stats(tests),
        running: running_after(tests, i) as usize,
    };
    Ok(TestEventSummary {
        timestamp: test_end(i),
        elapsed: seconds(0),
        kind: TestEventKindSummary::Output(kind),
    })
}

/// Makes the end of the run.
#[tactic(auto, unfolding(crate::specs::Events::run_finished_event))]
pub(crate) fn run_finished(tests: u64) -> TestEventSummary<LiveSpec>
    requires { tests ≤ 10000 }
    ensures value { result ≡ run_finished_event tests }
    ensures loaded { kind_loaded is_loaded result.kind ≡ true }
{
    let kind = CoreEventKind::RunFinished {
        run_id: run_id(),
        start_time: run_start(),
        elapsed: seconds(0),
        run_stats: RunFinishedStats::Single(stats(tests)),
        outstanding_not_seen: None,
    };
    core_event(run_end(tests), kind)
}
