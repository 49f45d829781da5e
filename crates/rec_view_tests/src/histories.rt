//! What is said of the tests of a history: each test, its verdict and its attempts.

use crate::steps::{Step, events_of};
use rec_view::{Attempt, Counts, RunView, TestView, Verdict, view_events};
use std::alloc::{AllocError, Global};

/// A test with the position of the event that opens it, its verdict, and the positions of the start
/// and the end of each attempt.
#[derive(Clone, Copy)]
struct Row {
    at: u64,
    test: &'static str,
    verdict: Verdict,
    attempts: &'static [(u64, Option<u64>)],
}

fn view_of(alloc: Global, steps: &[Step]) -> Result<RunView, AllocError> {
    let events = events_of(alloc, steps)?;
    let view = view_events(alloc, events.as_slice());
    drop(events);
    view
}

fn are_attempts(attempts: &[Attempt], want: &[(u64, Option<u64>)]) -> bool {
    if attempts.len() != want.len() {
        return false;
    }
    for (attempt, (from, to)) in attempts.iter().zip(want) {
        if attempt.from != *from || attempt.to != *to {
            return false;
        }
    }
    true
}

fn is_row(test: &TestView, row: &Row) -> bool {
    test.at == row.at
        && test.test.test_name.as_str() == row.test
        && test.verdict == row.verdict
        && are_attempts(test.attempts.as_slice(), row.attempts)
}

fn are_rows(tests: &[TestView], rows: &[Row]) -> bool {
    if tests.len() != rows.len() {
        return false;
    }
    for (test, row) in tests.iter().zip(rows) {
        if !is_row(test, row) {
            return false;
        }
    }
    true
}

fn is_viewed(alloc: Global, steps: &[Step], rows: &[Row]) -> Result<bool, AllocError> {
    let view = view_of(alloc, steps)?;
    Ok(are_rows(view.tests.as_slice(), rows))
}

/// Histories as a runner writes them.
const USUAL: &[(&[Step], &[Row])] = &[
    // passed at once
    (
        &[Step::Start("a"), Step::End("a", "p")],
        &[Row {
            at: 0,
            test: "a",
            verdict: Verdict::Passed,
            attempts: &[(0, Some(1))],
        }],
    ),
    // flaky after a further attempt, beside another test that fails
    (
        &[
            Step::Start("a"),
            Step::Start("b"),
            Step::Fail("a"),
            Step::Retry("a"),
            Step::End("b", "f"),
            Step::End("a", "fp"),
        ],
        &[
            Row {
                at: 0,
                test: "a",
                verdict: Verdict::Flaky,
                attempts: &[(0, Some(2)), (3, Some(5))],
            },
            Row {
                at: 1,
                test: "b",
                verdict: Verdict::Failed,
                attempts: &[(1, Some(4))],
            },
        ],
    ),
    // flaky, and counts as failed
    (
        &[
            Step::Start("a"),
            Step::Fail("a"),
            Step::Retry("a"),
            Step::StrictEnd("a", "fp"),
        ],
        &[Row {
            at: 0,
            test: "a",
            verdict: Verdict::Failed,
            attempts: &[(0, Some(1)), (2, Some(3))],
        }],
    ),
    // failed at its last attempt
    (
        &[
            Step::Start("a"),
            Step::Fail("a"),
            Step::Retry("a"),
            Step::End("a", "ff"),
        ],
        &[Row {
            at: 0,
            test: "a",
            verdict: Verdict::Failed,
            attempts: &[(0, Some(1)), (2, Some(3))],
        }],
    ),
    // a pause within an attempt
    (
        &[
            Step::Start("a"),
            Step::Pause,
            Step::Continue,
            Step::End("a", "p"),
        ],
        &[Row {
            at: 0,
            test: "a",
            verdict: Verdict::Passed,
            attempts: &[(0, Some(3))],
        }],
    ),
    // two sub-runs of a stress run
    (
        &[
            Step::SubRun,
            Step::StartInSubRun("a", 0),
            Step::End("a", "p"),
            Step::SubRun,
            Step::StartInSubRun("a", 1),
            Step::End("a", "f"),
        ],
        &[
            Row {
                at: 1,
                test: "a",
                verdict: Verdict::Passed,
                attempts: &[(1, Some(2))],
            },
            Row {
                at: 4,
                test: "a",
                verdict: Verdict::Failed,
                attempts: &[(4, Some(5))],
            },
        ],
    ),
    // skipped, and not seen
    (
        &[Step::Skip("a"), Step::RunEnd(&["b", "c"])],
        &[
            Row {
                at: 0,
                test: "a",
                verdict: Verdict::Skipped,
                attempts: &[],
            },
            Row {
                at: 1,
                test: "b",
                verdict: Verdict::NotStarted,
                attempts: &[],
            },
            Row {
                at: 1,
                test: "c",
                verdict: Verdict::NotStarted,
                attempts: &[],
            },
        ],
    ),
    // no end
    (
        &[Step::Start("a"), Step::Fail("a"), Step::Retry("a")],
        &[Row {
            at: 0,
            test: "a",
            verdict: Verdict::Unfinished,
            attempts: &[(0, Some(1)), (2, None)],
        }],
    ),
];

/// Histories that no runner should write.
const ODD: &[(&[Step], &[Row])] = &[
    // no event
    (&[], &[]),
    // an end without a start
    (
        &[Step::End("a", "p"), Step::End("a", "fp")],
        &[
            Row {
                at: 0,
                test: "a",
                verdict: Verdict::Passed,
                attempts: &[],
            },
            Row {
                at: 1,
                test: "a",
                verdict: Verdict::Flaky,
                attempts: &[],
            },
        ],
    ),
    // started twice, and ended once
    (
        &[Step::Start("a"), Step::Start("a"), Step::End("a", "p")],
        &[
            Row {
                at: 0,
                test: "a",
                verdict: Verdict::Unfinished,
                attempts: &[(0, Some(1))],
            },
            Row {
                at: 1,
                test: "a",
                verdict: Verdict::Passed,
                attempts: &[(1, Some(2))],
            },
        ],
    ),
    // a further attempt without a first one
    (
        &[Step::Retry("a"), Step::End("a", "f")],
        &[Row {
            at: 0,
            test: "a",
            verdict: Verdict::Failed,
            attempts: &[(0, Some(1))],
        }],
    ),
    // a further attempt while one is open
    (
        &[Step::Start("a"), Step::Retry("a"), Step::End("a", "fp")],
        &[Row {
            at: 0,
            test: "a",
            verdict: Verdict::Flaky,
            attempts: &[(0, Some(1)), (1, Some(2))],
        }],
    ),
    // a failure, and the end without the attempt that was to follow
    (
        &[Step::Start("a"), Step::Fail("a"), Step::End("a", "f")],
        &[Row {
            at: 0,
            test: "a",
            verdict: Verdict::Failed,
            attempts: &[(0, Some(1))],
        }],
    ),
    // skipped and run
    (
        &[Step::Skip("a"), Step::Start("a"), Step::End("a", "p")],
        &[
            Row {
                at: 0,
                test: "a",
                verdict: Verdict::Skipped,
                attempts: &[],
            },
            Row {
                at: 1,
                test: "a",
                verdict: Verdict::Passed,
                attempts: &[(1, Some(2))],
            },
        ],
    ),
    // a run's end names a test that started, and one twice; the next run begins anew
    (
        &[
            Step::Start("a"),
            Step::RunEnd(&["a", "b", "b"]),
            Step::End("a", "p"),
            Step::RunEnd(&["b"]),
        ],
        &[
            Row {
                at: 0,
                test: "a",
                verdict: Verdict::Passed,
                attempts: &[(0, Some(2))],
            },
            Row {
                at: 1,
                test: "b",
                verdict: Verdict::NotStarted,
                attempts: &[],
            },
            Row {
                at: 3,
                test: "b",
                verdict: Verdict::NotStarted,
                attempts: &[],
            },
        ],
    ),
];

fn are_viewed(alloc: Global, cases: &[(&[Step], &[Row])]) -> Result<bool, AllocError> {
    for (steps, rows) in cases {
        if !is_viewed(alloc, steps, rows)? {
            return Ok(false);
        }
    }
    Ok(true)
}

#[test]
fn usual_histories_are_viewed(rt: HostRuntime) -> Result<(), AllocError> {
    assert!(rt; are_viewed(rt.alloc(), USUAL)?);
    Ok(())
}

#[test]
fn odd_histories_are_viewed(rt: HostRuntime) -> Result<(), AllocError> {
    assert!(rt; are_viewed(rt.alloc(), ODD)?);
    Ok(())
}

/// A test of each verdict, and a second one that passes.
const ALL_VERDICTS: &[Step] = &[
    Step::Start("a"),
    Step::End("a", "p"),
    Step::Start("b"),
    Step::Fail("b"),
    Step::Retry("b"),
    Step::End("b", "fp"),
    Step::Start("c"),
    Step::Fail("c"),
    Step::Retry("c"),
    Step::StrictEnd("c", "fp"),
    Step::Skip("d"),
    Step::Start("e"),
    Step::RunEnd(&["f"]),
    Step::Start("a"),
    Step::End("a", "p"),
];

fn counted(counts: Counts) -> bool {
    counts.passed == 2
        && counts.flaky == 1
        && counts.failed == 1
        && counts.skipped == 1
        && counts.unfinished == 1
        && counts.not_started == 1
}

#[test]
fn tests_are_counted_by_verdicts(rt: HostRuntime) -> Result<(), AllocError> {
    let view = view_of(rt.alloc(), ALL_VERDICTS)?;
    assert!(rt; counted(view.counts));
    Ok(())
}

/// The ends of runs, and how many tests they count and don't name.
const UNNAMED: &[(&[Step], u128)] = &[
    (&[], 0),
    (&[Step::RunEnd(&["a", "b"])], 0),
    (&[Step::RunEndOf(&["a"], 3)], 2),
    (&[Step::RunEndOf(&["a"], 3), Step::RunEndOf(&[], 4)], 6),
    // it names more than it counts
    (&[Step::RunEndOf(&["a", "b"], 1)], 0),
    // the sum is past the largest count
    (
        &[
            Step::RunEndOf(&[], 18_446_744_073_709_551_615),
            Step::RunEndOf(&[], 1),
        ],
        18_446_744_073_709_551_616,
    ),
];

fn are_unnamed(alloc: Global) -> Result<bool, AllocError> {
    for (steps, want) in UNNAMED {
        if view_of(alloc, steps)?.unnamed != *want {
            return Ok(false);
        }
    }
    Ok(true)
}

#[test]
fn tests_without_names_are_counted(rt: HostRuntime) -> Result<(), AllocError> {
    assert!(rt; are_unnamed(rt.alloc())?);
    Ok(())
}
