//! The tests by which recorded events are replayed.
ghost use Rattle.std.specs.Prelude.{◌≡◌, ◌||◌, [], IfOk, None, OnErr, OnOk, Some, if◌then◌else◌};
ghost use Rattle.rec_events.specs.declared.instances.OwnedTestInstanceId.{OwnedTestInstanceId};
ghost use Rattle.rec_events.specs.Tests.{test_eq};
ghost use Rattle.rec_replay.specs.Conversions.{Converts, test_refusal};
ghost use Rattle.rec_replay.specs.declared.conversion_error.ReplayConversionError.TheVariants.{
  TestNotFound,
};
ghost use Rattle.rec_replay.specs.Registration.{is_registered};

use crate::conversion_error::ReplayConversionError;
use rec_events::{NextestRunMode, OwnedTestInstanceId, TestInstanceId, TestList, clone_both};
use std::alloc::{AllocError, Global};
use std::collections::BTreeSet;

/// Holds what recorded events are replayed with: the run's test list, and the tests that events may
/// name.
#[derive(Drop)]
pub struct ReplayContext<'a> {
    pub(crate) test_list: &'a TestList<'a>,
    tests: BTreeSet<OwnedTestInstanceId>,
}

impl<'a> ReplayContext<'a> {
    /// Makes the context of a test list. No test is registered yet.
    pub fn new(alloc: Global, test_list: &'a TestList<'a>) -> ReplayContext<'a>
        ensures list { result.test_list ≡ test_list.entry }
        ensures tests { result.tests.keys ≡ [] }
    {
        ReplayContext {
            test_list,
            tests: BTreeSet::new(alloc),
        }
    }

    /// Returns what the run does with its tests.
    pub fn mode(&self) -> NextestRunMode
        ensures { result ≡ self.now.test_list.now.mode }
    {
        self.test_list.mode()
    }

    /// Registers a test. One that is registered stays so.
    ///
    /// # Errors
    ///
    /// `AllocError` where memory is short. The context is as it was.
    pub fn register_test(&mut self, test_instance: OwnedTestInstanceId) -> Result<(), AllocError>
        ensures registered { OnOk result
            ((t : OwnedTestInstanceId)
            → is_registered self.new.tests t
            ≡ (test_eq test_instance t || is_registered self.old.tests t)) }
        ensures unchanged { OnErr result (self.new.tests.keys ≡ self.old.tests.keys) }
        ensures list { self.new.test_list ≡ self.old.test_list }
    {
        self.tests.insert(test_instance)?;
        Ok(())
    }

    /// Returns the test, where it is registered.
    pub fn lookup_test_instance_id(
        &self,
        test_instance: &OwnedTestInstanceId,
    ) -> Option<TestInstanceId<'_>>
        ensures { result
            ≡ (if is_registered self.now.tests test_instance.now then Some test_instance.now
            else None) }
    {
        match self.tests.get(test_instance) {
            Some(test) => Some(test.as_id()),
            None => None,
        }
    }

    /// Returns the test, or that it isn't registered.
    pub(crate) fn find(
        &self,
        alloc: Global,
        test: &OwnedTestInstanceId,
    ) -> Result<TestInstanceId<'_>, ReplayConversionError>
        ensures { Converts (test_refusal (is_registered self.now.tests) test.now) test.now result }
    {
        match self.lookup_test_instance_id(test) {
            Some(test) => Ok(test),
            None => Err(not_found(alloc, test)?),
        }
    }
}

/// Says that a test isn't registered.
fn not_found(alloc: Global, test: &OwnedTestInstanceId) -> Result<ReplayConversionError, AllocError>
    ensures { IfOk result (λ e. e ≡ TestNotFound test.now.binary_id test.now.test_name) }
{
    let (binary_id, test_name) = clone_both(alloc, &test.binary_id, &test.test_name)?;
    Ok(ReplayConversionError::TestNotFound {
        binary_id,
        test_name,
    })
}
