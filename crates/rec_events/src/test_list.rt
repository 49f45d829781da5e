//! The tests of a run that is going on.
ghost use Rattle.std.specs.Prelude.{◌≡◌};

use crate::{NextestRunMode, TestListSummary};
use std::marker::Model;

/// Holds the tests of a run, and what the run does with them.
#[derive(Drop)]
pub struct TestList<'a> {
    mode: NextestRunMode,
    summary: &'a TestListSummary,
}

impl<'a> Model for TestList<'a> {
    ghost use Rattle.rec_events.specs.TestLists.{Tests};

    ghost Value = { Tests };

    ghost view = { λ t. record { mode = t.mode; summary = t.summary.now } };
}

impl<'a> TestList<'a> {
    /// Takes these tests for a run in this mode.
    pub fn from_summary(mode: NextestRunMode, summary: &'a TestListSummary) -> TestList<'a>
        ensures { result ≡ record { mode = mode; summary = summary.now } }
    {
        TestList { mode, summary }
    }

    /// Returns what the run does with its tests.
    pub fn mode(&self) -> NextestRunMode
        ensures { result ≡ self.now.mode }
    {
        self.mode
    }
}
