//! Live events, and what they are recorded as.

use rec_events::{
    CancelReason, CoreEventKind, Duration, Items, LiveSpec, NextestRunMode, NonZeroCount,
    ReportUuid, RunStats, Stamp, StressCondition, StressConditionSummary, StressCount, TestEvent,
    TestEventKind, TestEventKindSummary, TestEventSummary, TestList, TestListSummary, Text,
    TextMap,
};
use rec_summaries::from_test_event;
use std::alloc::{AllocError, Global};
use std::test::Fail;
use uuid::Uuid;

// The instant of each event, and how long after the run's start it is.
const INSTANT: Stamp = Stamp {
    secs: 1000,
    nanos: 0,
    offset: 0,
};

const ELAPSED: Duration = Duration { secs: 2, nanos: 0 };

// What an event of this kind is recorded as.
type Recorded = Result<Option<TestEventSummary<LiveSpec>>, AllocError>;

fn recorded(alloc: Global, kind: TestEventKind<'_>) -> Recorded {
    let event = TestEvent {
        timestamp: INSTANT,
        elapsed: ELAPSED,
        kind,
    };
    let summary = from_test_event(alloc, &event);
    drop(event);
    summary
}

// A kind of event that only informs.
fn informing(number: u64) -> TestEventKind<'static> {
    match number {
        0 => TestEventKind::InfoStarted,
        1 => TestEventKind::InfoResponse,
        2 => TestEventKind::InfoFinished,
        3 => TestEventKind::InputEnter,
        _ => TestEventKind::RunBeginKill,
    }
}

// Whether the event is not recorded.
fn is_left_out(summary: &Recorded) -> bool {
    matches!(summary, Ok(None))
}

// Here and below a value of that many kinds is lent, and goes by a call:
// let go in place it is a case for each kind.
#[test]
fn what_only_informs_is_not_recorded(rt: HostRuntime) {
    for number in 0..5 {
        let summary = recorded(rt.alloc(), informing(number));
        let is_left_out = is_left_out(&summary);
        drop(summary);
        assert!(rt; is_left_out);
    }
}

// What happened without outputs, where it is recorded at the event's own instant.
fn core_of(summary: &Recorded) -> Option<&CoreEventKind> {
    let Ok(Some(summary)) = summary else {
        return None;
    };
    let is_there = summary.timestamp == INSTANT && summary.elapsed == ELAPSED;
    match &summary.kind {
        TestEventKindSummary::Core(kind) if is_there => Some(kind),
        _ => None,
    }
}

// The begin of a cancel, whose statistics have a reason or none.
fn cancel(cancel_reason: Option<CancelReason>) -> TestEventKind<'static> {
    TestEventKind::RunBeginCancel {
        setup_scripts_running: 1,
        running: 2,
        current_stats: RunStats {
            cancel_reason,
            ..RunStats::zero()
        },
    }
}

// The reason of the begin of such a cancel.
fn reason_of(kind: &CoreEventKind) -> Option<CancelReason> {
    match kind {
        CoreEventKind::RunBeginCancel {
            setup_scripts_running: 1,
            running: 2,
            reason,
        } => Some(*reason),
        _ => None,
    }
}

// Whether such a cancel is recorded for this reason.
fn has_reason(alloc: Global, in_statistics: Option<CancelReason>, wanted: CancelReason) -> bool {
    let summary = recorded(alloc, cancel(in_statistics));
    let reason = core_of(&summary).and_then(reason_of);
    drop(summary);
    reason == Some(wanted)
}

/// Reasons in the statistics, and that of the recorded cancel.
const REASONS: &[(Option<CancelReason>, CancelReason)] = &[
    (Some(CancelReason::TestFailure), CancelReason::TestFailure),
    (Some(CancelReason::Interrupt), CancelReason::Interrupt),
    (None, CancelReason::Signal),
];

#[test]
fn a_cancel_has_the_reason_of_its_statistics(rt: HostRuntime) {
    for (in_statistics, wanted) in REASONS {
        assert!(rt; has_reason(rt.alloc(), *in_statistics, *wanted));
    }
}

// The start of a run of these tests, under a condition.
fn run_started<'a>(
    alloc: Global,
    test_list: &'a TestList<'a>,
    stress_condition: Option<StressCondition>,
) -> Result<TestEventKind<'a>, AllocError> {
    Ok(TestEventKind::RunStarted {
        test_list,
        run_id: ReportUuid::new(Uuid::nil()),
        profile_name: Text::from_str(alloc, "default")?,
        cli_args: Items::empty(alloc),
        stress_condition,
    })
}

// Whether it is the start of that run, under this condition.
fn is_start(kind: &CoreEventKind, wanted: &Option<StressConditionSummary>) -> bool {
    match kind {
        CoreEventKind::RunStarted {
            run_id,
            profile_name,
            cli_args,
            stress_condition,
        } => {
            *run_id == ReportUuid::new(Uuid::nil())
                && profile_name.as_str() == "default"
                && cli_args.as_slice().is_empty()
                && stress_condition == wanted
        }
        _ => false,
    }
}

// Whether the start of a run under a condition is recorded with the other one.
fn is_kept<'a>(
    alloc: Global,
    test_list: &'a TestList<'a>,
    condition: Option<StressCondition>,
    wanted: &Option<StressConditionSummary>,
) -> Result<bool, AllocError> {
    let kind = run_started(alloc, test_list, condition)?;
    let summary = recorded(alloc, kind);
    let is_kept = core_of(&summary).is_some_and(|kind| is_start(kind, wanted));
    drop(summary);
    Ok(is_kept)
}

/// Lists the conditions that a run may have.
#[derive(Clone, Copy)]
enum Stress {
    None,
    Twice,
    Always,
    Minute,
}

const MINUTE: Duration = Duration { secs: 60, nanos: 0 };

fn condition(stress: Stress) -> Option<StressCondition> {
    match stress {
        Stress::None => None,
        Stress::Twice => NonZeroCount::new(2).map(|count| StressCondition::Count(
            StressCount::Count { count },
        )),
        Stress::Always => Some(StressCondition::Count(StressCount::Infinite)),
        Stress::Minute => Some(StressCondition::Duration(MINUTE)),
    }
}

fn condition_recorded(stress: Stress) -> Option<StressConditionSummary> {
    match stress {
        Stress::None => None,
        Stress::Twice => Some(StressConditionSummary::Count { count: Some(2) }),
        Stress::Always => Some(StressConditionSummary::Count { count: None }),
        Stress::Minute => Some(StressConditionSummary::Duration { duration: MINUTE }),
    }
}

// Whether a run of benchmarks keeps its mode, and is recorded with its condition.
fn keeps(alloc: Global, stress: Stress) -> Result<bool, AllocError> {
    let summary = TestListSummary {
        suites: TextMap::empty(alloc),
    };
    let tests = TestList::from_summary(NextestRunMode::Benchmark, &summary);
    let mode = tests.mode();
    let kept = is_kept(
        alloc,
        &tests,
        condition(stress),
        &condition_recorded(stress),
    );
    drop(tests);
    drop(summary);
    kept.map(|kept| kept && mode == NextestRunMode::Benchmark)
}

#[test]
fn a_run_keeps_its_stress_condition(rt: HostRuntime) -> Result<(), Fail> {
    for stress in [Stress::None, Stress::Twice, Stress::Always, Stress::Minute] {
        assert!(rt; keeps(rt.alloc(), stress)?);
    }
    Ok(())
}
