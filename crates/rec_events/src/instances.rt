//! Which test ran, where, and which time.
ghost use Rattle.std.specs.Prelude.{◌≡◌};

use crate::{NonZeroCount, RustBinaryId, TestCaseName, TestGroup, TryClone};
use std::alloc::{AllocError, Global};

/// Names a test by its binary and its name there. Tests stand in the order of their binaries, and
/// those of one binary in the order of their names.
#[derive(PartialEq, Eq, PartialOrd, Ord, Debug, Drop)]
pub struct OwnedTestInstanceId {
    /// The id of the test's binary.
    pub binary_id: RustBinaryId,
    /// The name of the test in its binary.
    pub test_name: TestCaseName,
}

/// Says where a test runs: its slot among all tests, and its slot within its group, if the group
/// has slots.
#[derive(Drop)]
pub struct TestSlotAssignment {
    /// The slot among all tests, from 0.
    pub global_slot: u64,
    /// The slot within the group, from 0; `None` where the group has no slots.
    pub group_slot: Option<u64>,
    /// The group that the test is in.
    pub test_group: TestGroup,
}

/// Says which attempt it is, of how many.
#[derive(Clone, Copy, Drop)]
pub struct RetryData {
    /// The number of the attempt, from 1 to `total_attempts`.
    pub attempt: u32,
    /// How many attempts the test has at most, the first included.
    pub total_attempts: u32,
}

/// Says which run of a stress run it is, and of how many where that is known.
#[derive(Clone, Copy, Drop)]
pub struct StressIndexSummary {
    /// How many sub-runs came before it, from 0.
    pub current: u32,
    /// How many sub-runs there are to be; `None` where that isn't known.
    pub total: Option<NonZeroCount>,
}

impl TryClone for OwnedTestInstanceId {
    fn try_clone(&self, alloc: Global) -> Result<OwnedTestInstanceId, AllocError> {
        self.as_id().to_owned(alloc)
    }
}

impl TryClone for TestSlotAssignment {
    fn try_clone(&self, alloc: Global) -> Result<TestSlotAssignment, AllocError> {
        Ok(TestSlotAssignment {
            global_slot: self.global_slot,
            group_slot: self.group_slot,
            test_group: self.test_group.try_clone(alloc)?,
        })
    }
}
