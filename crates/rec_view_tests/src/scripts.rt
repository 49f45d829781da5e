//! The setup scripts of a history, and where each ends.

use crate::steps::{Step, events_of};
use rec_view::{ScriptView, view_events};
use std::alloc::{AllocError, Global};

/// A history, and the positions of the start and the end of each of its scripts.
type Case = (&'static [Step], &'static [(u64, Option<u64>)]);

const CASES: &[Case] = &[
    // no event, and no script
    (&[], &[]),
    (&[Step::Start("a"), Step::End("a", "p")], &[]),
    // two, one after the other, before a test
    (
        &[
            Step::ScriptStart(0),
            Step::ScriptEnd(0),
            Step::ScriptStart(1),
            Step::ScriptEnd(1),
            Step::Start("a"),
        ],
        &[(0, Some(1)), (2, Some(3))],
    ),
    // two at a time: each ends by its own index
    (
        &[
            Step::ScriptStart(0),
            Step::ScriptStart(1),
            Step::Pause,
            Step::ScriptEnd(0),
            Step::ScriptEnd(1),
        ],
        &[(0, Some(3)), (1, Some(4))],
    ),
    (
        &[
            Step::ScriptStart(0),
            Step::ScriptStart(1),
            Step::ScriptEnd(1),
            Step::ScriptEnd(0),
        ],
        &[(0, Some(3)), (1, Some(2))],
    ),
    // one without an end, and an end of another
    (&[Step::ScriptStart(0), Step::ScriptEnd(1)], &[(0, None)]),
    // an end without a start
    (&[Step::ScriptEnd(0), Step::Start("a")], &[]),
    // two ends: the first one counts
    (
        &[Step::ScriptStart(0), Step::ScriptEnd(0), Step::ScriptEnd(0)],
        &[(0, Some(1))],
    ),
    // a start anew ends the one before
    (
        &[
            Step::ScriptStart(0),
            Step::ScriptStart(0),
            Step::ScriptEnd(0),
        ],
        &[(0, Some(1)), (1, Some(2))],
    ),
    // the same script in two sub-runs
    (
        &[
            Step::SubRun,
            Step::ScriptStart(0),
            Step::ScriptEnd(0),
            Step::SubRun,
            Step::ScriptStart(0),
            Step::ScriptEnd(0),
        ],
        &[(1, Some(2)), (4, Some(5))],
    ),
];

fn are_scripts(scripts: &[ScriptView], want: &[(u64, Option<u64>)]) -> bool {
    if scripts.len() != want.len() {
        return false;
    }
    for (script, (from, to)) in scripts.iter().zip(want) {
        if script.from != *from || script.to != *to {
            return false;
        }
    }
    true
}

fn are_viewed(
    alloc: Global,
    steps: &[Step],
    want: &[(u64, Option<u64>)],
) -> Result<bool, AllocError> {
    let events = events_of(alloc, steps)?;
    let view = view_events(alloc, events.as_slice());
    drop(events);
    Ok(are_scripts(view?.scripts.as_slice(), want))
}

fn are_all_viewed(alloc: Global) -> Result<bool, AllocError> {
    for (steps, want) in CASES {
        if !are_viewed(alloc, steps, want)? {
            return Ok(false);
        }
    }
    Ok(true)
}

#[test]
fn scripts_are_viewed(rt: HostRuntime) -> Result<(), AllocError> {
    assert!(rt; are_all_viewed(rt.alloc())?);
    Ok(())
}
