//! The tests that events may name.
ghost use Rattle.std.specs.Prelude.{◌≡◌, ◌||◌, OnOk};
ghost use Rattle.rec_events.specs.declared.instances.OwnedTestInstanceId.{OwnedTestInstanceId};
ghost use Rattle.rec_events.specs.Tests.{is_listed, is_named, test_eq, test_of};
ghost use Rattle.rec_replay.specs.Registration.{is_registered};

use rec_events::{OwnedTestInstanceId, RustBinaryId, TestCaseName, TestListSummary, TryClone};
use rec_replay::ReplayContext;
use std::alloc::{AllocError, Global};

/// Registers each test of a list.
pub(crate) fn register_tests(
    alloc: Global,
    context: &mut ReplayContext<'_>,
    tests: &TestListSummary,
) -> Result<(), AllocError>
    ensures registered { OnOk result
        ((t : OwnedTestInstanceId)
        → is_registered context.new.tests t
        ≡ (is_listed tests.now t || is_registered context.old.tests t)) }
    ensures list { context.new.test_list ≡ context.old.test_list }
{
    for (binary, names) in tests.suites.as_map() {
        register_suite(alloc, context, binary.as_str(), names.as_slice())?;
    }
    Ok(())
}

/// Registers each test of a binary.
fn register_suite(
    alloc: Global,
    context: &mut ReplayContext<'_>,
    binary: &str,
    names: &[TestCaseName],
) -> Result<(), AllocError>
    ensures registered { OnOk result ((t : OwnedTestInstanceId) → is_registered context.new.tests t
        ≡ (is_named binary.now names.now t || is_registered context.old.tests t)) }
    ensures list { context.new.test_list ≡ context.old.test_list }
{
    for name in names {
        register_test(alloc, context, binary, name)?;
    }
    Ok(())
}

/// Registers a test of a binary.
fn register_test(
    alloc: Global,
    context: &mut ReplayContext<'_>,
    binary: &str,
    name: &TestCaseName,
) -> Result<(), AllocError>
    ensures registered { OnOk result ((t : OwnedTestInstanceId) → is_registered context.new.tests t
        ≡ (test_eq (test_of binary.now name.now) t || is_registered context.old.tests t)) }
    ensures list { context.new.test_list ≡ context.old.test_list }
{
    let test = OwnedTestInstanceId {
        binary_id: RustBinaryId::new(String::from_str(alloc, binary)?),
        test_name: name.try_clone(alloc)?,
    };
    context.register_test(test)
}
