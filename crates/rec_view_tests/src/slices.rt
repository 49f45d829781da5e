//! The slices that pauses leave of what lasts from one event to another.

use crate::steps::{Step, events_of};
use rec_view::{ShownGaps, Slice};
use std::alloc::{AllocError, Global};

/// The events of a run, the positions of two of them, and the positions of the slices between them.
type Case = (&'static [Step], usize, usize, &'static [(usize, usize)]);

fn are_slices(slices: &[Slice], want: &[(usize, usize)]) -> bool {
    if slices.len() != want.len() {
        return false;
    }
    for (slice, (from, to)) in slices.iter().zip(want) {
        if slice.from != *from || slice.to != *to {
            return false;
        }
    }
    true
}

fn gaps_of(alloc: Global, steps: &[Step]) -> Result<ShownGaps, AllocError> {
    let events = events_of(alloc, steps)?;
    let gaps = ShownGaps::new(alloc, events.as_slice());
    drop(events);
    gaps
}

fn are_cut(
    alloc: Global,
    gaps: &ShownGaps,
    from: usize,
    to: usize,
    want: &[(usize, usize)],
) -> Result<bool, AllocError> {
    if from > to || to > gaps.len() {
        return Ok(false);
    }
    let slices = gaps.slices(alloc, from, to)?;
    Ok(are_slices(slices.as_slice(), want))
}

const CASES: &[Case] = &[
    // no pause
    (&[Step::Start("a"), Step::End("a", "p")], 0, 1, &[(0, 1)]),
    // a pause within an attempt
    (
        &[
            Step::Start("a"),
            Step::Pause,
            Step::Continue,
            Step::End("a", "p"),
        ],
        0,
        3,
        &[(0, 1), (2, 3)],
    ),
    // a pause that goes on when the attempt ends
    (
        &[Step::Start("a"), Step::Pause, Step::End("a", "p")],
        0,
        2,
        &[(0, 1), (2, 2)],
    ),
    // an attempt that starts in a pause, and ends in it
    (
        &[Step::Pause, Step::Start("a"), Step::End("a", "p")],
        1,
        2,
        &[(1, 1), (2, 2)],
    ),
    // one that starts in a pause, and ends after it
    (
        &[
            Step::Pause,
            Step::Start("a"),
            Step::Continue,
            Step::End("a", "p"),
        ],
        1,
        3,
        &[(1, 1), (2, 3)],
    ),
    // one that has no end, in a pause at the end of the events
    (&[Step::Start("a"), Step::Pause], 0, 2, &[(0, 1)]),
    // a continuation that continues nothing
    (
        &[Step::Start("a"), Step::Continue, Step::End("a", "p")],
        0,
        2,
        &[(0, 2)],
    ),
    // a pause in a pause
    (
        &[
            Step::Start("a"),
            Step::Pause,
            Step::Pause,
            Step::Continue,
            Step::End("a", "p"),
        ],
        0,
        4,
        &[(0, 1), (3, 4)],
    ),
    // no end: up to the number of events
    (
        &[
            Step::Start("a"),
            Step::Pause,
            Step::Continue,
            Step::Start("b"),
        ],
        0,
        4,
        &[(0, 1), (2, 4)],
    ),
    // from an event to itself
    (&[Step::Start("a")], 0, 0, &[]),
];

fn are_all_cut(alloc: Global) -> Result<bool, AllocError> {
    for (steps, from, to, want) in CASES {
        let gaps = gaps_of(alloc, steps)?;
        if !are_cut(alloc, &gaps, *from, *to, want)? {
            return Ok(false);
        }
    }
    Ok(true)
}

/// The events of a run, and the positions of its pauses.
type Pauses = (&'static [Step], &'static [(usize, usize)]);

const PAUSES: &[Pauses] = &[
    // no event
    (&[], &[]),
    // a pause that ends
    (
        &[
            Step::Start("a"),
            Step::Pause,
            Step::Continue,
            Step::End("a", "p"),
        ],
        &[(1, 2)],
    ),
    // one that doesn't
    (
        &[Step::Pause, Step::Start("a"), Step::End("a", "p")],
        &[(0, 3)],
    ),
    // a pause in a pause is no other one
    (
        &[Step::Pause, Step::Pause, Step::Continue, Step::Start("a")],
        &[(0, 2)],
    ),
    // a continuation that continues nothing
    (&[Step::Start("a"), Step::Continue], &[]),
    // two pauses, the second one at the last event
    (
        &[Step::Pause, Step::Continue, Step::Start("a"), Step::Pause],
        &[(0, 1), (3, 4)],
    ),
];

fn are_all_listed(alloc: Global) -> Result<bool, AllocError> {
    for (steps, want) in PAUSES {
        let gaps = gaps_of(alloc, steps)?;
        let pauses = gaps.pauses(alloc)?;
        if !are_slices(pauses.as_slice(), want) {
            return Ok(false);
        }
    }
    Ok(true)
}

#[test]
fn pauses_are_listed(rt: HostRuntime) -> Result<(), AllocError> {
    assert!(rt; are_all_listed(rt.alloc())?);
    Ok(())
}

#[test]
fn pauses_cut_slices(rt: HostRuntime) -> Result<(), AllocError> {
    assert!(rt; are_all_cut(rt.alloc())?);
    Ok(())
}
