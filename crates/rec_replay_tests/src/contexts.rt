//! Tests that are registered.

use rec_events::{
    NextestRunMode, OwnedTestInstanceId, RustBinaryId, TestCaseName, TestList, TestListSummary,
    TextMap,
};
use rec_replay::ReplayContext;
use std::alloc::{AllocError, Global};
use std::test::Fail;

/// The test `t` of this binary.
fn instance(alloc: Global, binary_id: &str) -> Result<OwnedTestInstanceId, AllocError> {
    Ok(OwnedTestInstanceId {
        binary_id: RustBinaryId::new(String::from_str(alloc, binary_id)?),
        test_name: TestCaseName::new(String::from_str(alloc, "t")?),
    })
}

/// Whether the test of this binary is known.
fn is_known(
    alloc: Global,
    context: &ReplayContext<'_>,
    binary_id: &str,
) -> Result<bool, AllocError> {
    let test = instance(alloc, binary_id)?;
    let is_known = context.lookup_test_instance_id(&test).is_some();
    drop(test);
    Ok(is_known)
}

/// Registers a test, and says whether it is known, whether another one is,
/// and whether the run is a benchmark.
fn known(alloc: Global, context: &mut ReplayContext<'_>) -> Result<(bool, bool, bool), AllocError> {
    context.register_test(instance(alloc, "b")?)?;
    let registered = is_known(alloc, context, "b")?;
    let other = is_known(alloc, context, "a")?;
    let is_benchmark = context.mode() == NextestRunMode::Benchmark;
    Ok((registered, other, is_benchmark))
}

#[test]
fn finds_what_is_registered(rt: HostRuntime) -> Result<(), Fail> {
    let alloc = rt.alloc();
    let summary = TestListSummary {
        suites: TextMap::empty(alloc),
    };
    let list = TestList::from_summary(NextestRunMode::Benchmark, &summary);
    let mut context = ReplayContext::new(alloc, &list);
    let found = known(alloc, &mut context);
    drop(context);
    let (registered, other, is_benchmark) = found?;
    assert!(rt; registered && !other && is_benchmark);
    Ok(())
}
