//! Tests, as events name them while a run is going on.
ghost use Rattle.std.specs.Prelude.{◌≡◌, IfOk};

use crate::{OwnedTestInstanceId, RustBinaryId, TestCaseName, clone_both};
use std::alloc::{AllocError, Global};
use std::marker::Model;

/// Names a test by its binary and its name there, both borrowed. Contracts see it as the test
/// itself.
#[derive(Drop)]
pub struct TestInstanceId<'a> {
    /// The id of the test's binary.
    pub binary_id: &'a RustBinaryId,
    /// The name of the test in its binary.
    pub test_name: &'a TestCaseName,
}

impl<'a> Model for TestInstanceId<'a> {
    ghost use Rattle.rec_events.specs.declared.instances.OwnedTestInstanceId.{OwnedTestInstanceId};

    ghost Value = { OwnedTestInstanceId };

    ghost view = { λ t. record { binary_id = t.binary_id.now; test_name = t.test_name.now } };
}

impl TestInstanceId<'_> {
    /// Copies the test, so that it needs no other value.
    ///
    /// # Errors
    ///
    /// `AllocError` means that there was not enough memory.
    pub fn to_owned(&self, alloc: Global) -> Result<OwnedTestInstanceId, AllocError>
        ensures { IfOk result (λ t. t ≡ self.now) }
    {
        let (binary_id, test_name) = clone_both(alloc, self.binary_id, self.test_name)?;
        Ok(OwnedTestInstanceId {
            binary_id,
            test_name,
        })
    }
}

impl OwnedTestInstanceId {
    /// Names the test by references.
    pub fn as_id(&self) -> TestInstanceId<'_>
        ensures { result ≡ self.now }
    {
        TestInstanceId {
            binary_id: &self.binary_id,
            test_name: &self.test_name,
        }
    }
}
