//! What a recording says of the whole run.
ghost use Rattle.std.specs.Prelude.{◌≡◌, []};

use crate::{Items, TestCaseName, TextMap, TryClone};
use std::alloc::{AllocError, Global};

/// Says what a run does with its tests.
#[derive(Clone, Copy, PartialEq, Eq, Drop)]
pub enum NextestRunMode {
    /// It runs them as tests.
    Test,
    /// It runs them as benchmarks.
    Benchmark,
}

/// Holds the tests of each binary, by the binary's name.
#[derive(Drop)]
pub struct TestListSummary {
    /// By the id of each binary, the names of its tests.
    pub suites: TextMap<Items<TestCaseName>>,
}

impl TryClone for TestListSummary {
    fn try_clone(&self, alloc: Global) -> Result<TestListSummary, AllocError> {
        Ok(TestListSummary {
            suites: self.suites.try_clone(alloc)?,
        })
    }
}

/// Says what a replay has to know of how the run was made.
#[derive(Clone, Copy, Drop)]
pub struct RecordOpts {
    /// What the run does with its tests.
    pub run_mode: NextestRunMode,
}
