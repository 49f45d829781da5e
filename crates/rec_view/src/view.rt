//! What a viewer wants to know of the events of a run.
ghost use Rattle.std.specs.Prelude.{◌≡◌, IfOk};
ghost use Rattle.rec_view.specs.Acts.{acts};
ghost use Rattle.rec_view.specs.Counts.{AreCounts};
ghost use Rattle.rec_view.specs.Rows.{rows, rows_of};
ghost use Rattle.rec_view.specs.Scripts.{script_acts, scripts};
ghost use Rattle.rec_view.specs.Tests.{verdicts};
ghost use Rattle.rec_view.specs.Unnamed.{unnamed};

use crate::counts::{Counts, counts_of};
use crate::scripts::{ScriptView, scripts_of};
use crate::test_views::TestView;
use crate::unnamed::unnamed_of;
use crate::walk::walk_events;
use rec_events::{Items, OutputSpec, TestEventSummary};
use std::alloc::{AllocError, Global};

/// Holds the tests of a run, and its setup scripts.
#[derive(Drop)]
pub struct RunView {
    /// The tests, in the order of the events that open them; those that one event opens in the
    /// order in which it names them.
    pub tests: Items<TestView>,
    /// The setup scripts, in the order of the events that start them.
    pub scripts: Items<ScriptView>,
    /// How many tests have each verdict.
    pub counts: Counts,
    /// How many tests the ends of runs count as not seen, and don't name.
    pub unnamed: u128,
}

/// Tells the tests of a run and its setup scripts by its events, which may be any in any order. An
/// event opens a test where it is
///
/// - the start of a test;
/// - the start of a further attempt, or the end of a test, and none of the name runs: there was no
///   start of an attempt, or an end came after the last one;
/// - a skip;
/// - the end of a run, for each name that it lists as not seen, at its first place: where no start,
///   end or skip of the name stands after the end of a run before.
///
/// A test that starts is over with the first end of its name after it. Where its name starts anew
/// before, or no end comes, it is unfinished. An end without a start has a verdict and no attempts.
///
/// A setup script starts with its start, and ends with the first later end of its index. Where its
/// index starts anew before, it ends there.
///
/// # Errors
///
/// `AllocError` means that there was not enough memory.
pub fn view_events<S: OutputSpec>(
    alloc: Global,
    events: &[TestEventSummary<S>],
) -> Result<RunView, AllocError>
    ensures tests { IfOk result (λ view. rows view.tests ≡ rows_of (acts events.now)) }
    ensures scripts { IfOk result (λ view. view.scripts ≡ scripts (script_acts events.now)) }
    ensures counts { IfOk result (λ view. AreCounts (verdicts (acts events.now)) view.counts) }
    ensures unnamed { IfOk result (λ view. view.unnamed ≡ unnamed events.now) }
{
    let scripts = scripts_of(alloc, events)?;
    let walk = walk_events(alloc, events)?;
    let counts = counts_of(walk.tests.as_slice());
    Ok(RunView {
        tests: Items::new(walk.tests),
        scripts: Items::new(scripts),
        counts,
        unnamed: unnamed_of(events),
    })
}
