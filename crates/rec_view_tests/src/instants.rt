//! The instants of events, and how long what lasts is active.

use crate::steps::{Step, event_of};
use rec_events::{LiveSpec, Stamp, TestEventSummary};
use rec_view::{Instants, ShownGaps};
use std::alloc::{AllocError, Global};

/// An event, and its instant in seconds and nanoseconds.
type At = (Step, i64, u32);

/// The event with this instant.
fn event_at(alloc: Global, at: At) -> Result<TestEventSummary<LiveSpec>, AllocError> {
    let (step, secs, nanos) = at;
    let Some(timestamp) = Stamp::new(secs, nanos, 0) else {
        return Err(AllocError);
    };
    event_of(alloc, step, timestamp)
}

fn events_at(alloc: Global, ats: &[At]) -> Result<Vec<TestEventSummary<LiveSpec>>, AllocError> {
    let mut events = Vec::new(alloc);
    for at in ats {
        events.push(event_at(alloc, *at)?)?;
    }
    Ok(events)
}

/// Events, and whether each of their instants is an i64 in microseconds.
type Range = (&'static [At], bool);

const RANGES: &[Range] = &[
    (&[], true),
    (&[(Step::Start("a"), 0, 0)], true),
    // the last instant, and the one after it
    (&[(Step::Start("a"), 9_223_372_036_854, 775_807_999)], true),
    (&[(Step::Start("a"), 9_223_372_036_854, 775_808_000)], false),
    // the first one, and the one before it
    (&[(Step::Start("a"), -9_223_372_036_855, 224_192_000)], true),
    (
        &[(Step::Start("a"), -9_223_372_036_855, 224_191_999)],
        false,
    ),
    // one of several
    (
        &[
            (Step::Start("a"), 0, 0),
            (Step::Pause, 9_223_372_036_855, 0),
            (Step::End("a", "p"), 1, 0),
        ],
        false,
    ),
];

fn are_in_range(alloc: Global, ats: &[At]) -> Result<bool, AllocError> {
    let events = events_at(alloc, ats)?;
    let instants = Instants::new(alloc, events.as_slice());
    drop(events);
    Ok(instants?.is_some())
}

fn are_all_judged(alloc: Global) -> Result<bool, AllocError> {
    for (ats, want) in RANGES {
        if are_in_range(alloc, ats)? != *want {
            return Ok(false);
        }
    }
    Ok(true)
}

/// Events, the positions of two of them, and for how many microseconds what lasts from one to the
/// other is active.
type Case = (&'static [At], usize, usize, Option<i64>);

const CASES: &[Case] = &[
    // no pause
    (
        &[
            (Step::Start("a"), 1, 0),
            (Step::End("a", "p"), 3, 500_000_000),
        ],
        0,
        1,
        Some(2_500_000),
    ),
    // a pause of four seconds doesn't count
    (
        &[
            (Step::Start("a"), 0, 0),
            (Step::Pause, 1, 0),
            (Step::Continue, 5, 0),
            (Step::End("a", "p"), 6, 0),
        ],
        0,
        3,
        Some(2_000_000),
    ),
    // an attempt within a pause
    (
        &[
            (Step::Pause, 0, 0),
            (Step::Start("a"), 1, 0),
            (Step::End("a", "p"), 3, 0),
        ],
        1,
        2,
        Some(0),
    ),
    // no end: up to the last event
    (
        &[(Step::Start("a"), 1, 0), (Step::Start("b"), 3, 0)],
        0,
        2,
        Some(2_000_000),
    ),
    // the clock was set back
    (
        &[(Step::Start("a"), 10, 0), (Step::End("a", "p"), 4, 0)],
        0,
        1,
        Some(-6_000_000),
    ),
    // a part of a microsecond is left out of each instant
    (
        &[(Step::Start("a"), 0, 999), (Step::End("a", "p"), 0, 1_000)],
        0,
        1,
        Some(1),
    ),
    // more than an i64
    (
        &[
            (Step::Start("a"), -9_223_372_036_854, 0),
            (Step::End("a", "p"), 9_223_372_036_854, 0),
        ],
        0,
        1,
        None,
    ),
];

/// Says for how long what lasts from one of the events to another is active, and whether that is
/// what is wanted.
fn is_active(
    alloc: Global,
    events: &[TestEventSummary<LiveSpec>],
    from: usize,
    to: usize,
    want: Option<i64>,
) -> Result<bool, AllocError> {
    let gaps = ShownGaps::new(alloc, events)?;
    let Some(instants) = Instants::new(alloc, events)? else {
        return Ok(false);
    };
    if from > to || to > gaps.len() {
        return Ok(false);
    }
    let slices = gaps.slices(alloc, from, to)?;
    Ok(instants.active(slices.as_slice()) == want)
}

fn are_all_active(alloc: Global) -> Result<bool, AllocError> {
    for (ats, from, to, want) in CASES {
        let events = events_at(alloc, ats)?;
        if !is_active(alloc, events.as_slice(), *from, *to, *want)? {
            return Ok(false);
        }
    }
    Ok(true)
}

#[test]
fn instants_are_judged(rt: HostRuntime) -> Result<(), AllocError> {
    assert!(rt; are_all_judged(rt.alloc())?);
    Ok(())
}

#[test]
fn active_times_add_up(rt: HostRuntime) -> Result<(), AllocError> {
    assert!(rt; are_all_active(rt.alloc())?);
    Ok(())
}
