//! The suites of the tests of which it is known how they stand.
ghost use Rattle.std.specs.BTreeMap.{btree_map_len, get_by_text};
ghost use Rattle.std.specs.Prelude.{◌≡◌, ◌<◌, ℕ, List, IfOk, OnOk, Some, if◌then◌else◌};
ghost use Rattle.rec_events.specs.Names.{Rise, with_name};
ghost use Rattle.rec_rerun.specs.Suites.{AddsSuite, AreSuitesOf, IsSuiteOf, has, names_of, stands};

use crate::standings::{Standing, Standings};
use rec_events::{RustBinaryId, TestCaseName, TestNames};
use rec_format::{RerunSuites, RerunTestSuiteInfo};
use std::alloc::{AllocError, Global};
use std::collections::BTreeMap;

/// Returns the passing tests of a suite, or the outstanding ones.
pub(crate) fn names_of(suite: &RerunTestSuiteInfo, passed: bool) -> &TestNames
    ensures { result.now ≡ names_of passed suite.now }
{
    if passed {
        &suite.passing
    } else {
        &suite.outstanding
    }
}

/// Says whether a test stands so.
fn stands(passed: bool, standing: Standing) -> bool
    ensures { result ≡ stands passed (Some standing) }
{
    match standing {
        Standing::Known(known) => known == passed,
        Standing::Started(ended_well) => ended_well == passed,
    }
}

/// Puts the name of a test at its place, where the test stands so.
fn add_name(
    alloc: Global,
    names: &mut TestNames,
    name: &str,
    passed: bool,
    standing: Standing,
) -> Result<(), AllocError>
    ensures ok { OnOk result
        (names.new
        ≡ (if stands passed (Some standing) then with_name names.old name.now else names.old)) }
{
    if !stands(passed, standing) {
        return Ok(());
    }
    names.insert(TestCaseName::new(String::from_str(alloc, name)?))
}

/// Returns the names of the tests that have passed, or of those that haven't.
fn names_that_stand(
    alloc: Global,
    tests: &BTreeMap<String, Standing>,
    passed: bool,
) -> Result<TestNames, AllocError>
    ensures names { IfOk result
        (λ names. (name : List ℕ) → has names name ≡ stands passed (get_by_text tests.now name)) }
    ensures rise { IfOk result (λ names. Rise names) }
{
    let mut names = TestNames::empty(alloc);
    for (name, standing) in tests {
        let Ok(()) = add_name(alloc, &mut names, name.as_str(), passed, *standing) else {
            drop(names);
            return Err(AllocError);
        };
    }
    let _ordered = names.as_set();
    Ok(names)
}

/// Makes the suite of a binary that has a test.
fn suite_of(
    alloc: Global,
    binary: &str,
    tests: &BTreeMap<String, Standing>,
) -> Result<RerunTestSuiteInfo, AllocError>
    requires { 0 < btree_map_len tests.now }
    ensures { IfOk result (IsSuiteOf binary.now tests.now) }
{
    let binary_id = RustBinaryId::new(String::from_str(alloc, binary)?);
    let Ok(passing) = names_that_stand(alloc, tests, true) else {
        drop(binary_id);
        return Err(AllocError);
    };
    let Ok(outstanding) = names_that_stand(alloc, tests, false) else {
        drop((binary_id, passing));
        return Err(AllocError);
    };
    Ok(RerunTestSuiteInfo {
        binary_id,
        passing,
        outstanding,
    })
}

/// Puts the suite of a binary at its place, where the binary has a test.
fn add_suite(
    alloc: Global,
    suites: &mut RerunSuites,
    binary: &str,
    tests: &BTreeMap<String, Standing>,
) -> Result<(), AllocError>
    ensures ok { OnOk result (AddsSuite binary.now tests.now suites.old suites.new) }
{
    if tests.is_empty() {
        return Ok(());
    }
    drop(suites.insert(suite_of(alloc, binary, tests)?)?);
    Ok(())
}

/// Makes the suites of all tests.
pub(crate) fn suites_of(alloc: Global, standings: &Standings) -> Result<RerunSuites, AllocError>
    ensures { IfOk result (AreSuitesOf standings.now.tests) }
{
    let mut suites = RerunSuites::new(alloc);
    for (binary, tests) in &standings.tests {
        let Ok(()) = add_suite(alloc, &mut suites, binary.as_str(), tests) else {
            drop(suites);
            return Err(AllocError);
        };
    }
    let _ordered = suites.as_map();
    Ok(suites)
}
