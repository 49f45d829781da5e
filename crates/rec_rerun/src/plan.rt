//! What of a list of tests is to run again.
ghost use Rattle.std.specs.List.{filter};
ghost use Rattle.std.specs.Prelude.{◌≡◌, ◌++◌, ◌&&◌, ◌||◌, [], ◌∷◌, false, true};
ghost use Rattle.std.specs.Prelude.{List, map, not, if◌then◌else◌, IfOk, OnOk};
ghost use Rattle.rec_events.specs.declared.instances.OwnedTestInstanceId.{OwnedTestInstanceId};
ghost use Rattle.rec_events.specs.Tests.{is_listed, test_of};
ghost use Rattle.rec_rerun.specs.Planned.{HasPlanned, is_seen};
ghost use Rattle.rec_rerun.specs.Plans.{AreApart, gone_of, is_in, outstanding_in};
ghost use Rattle.rec_rerun.specs.Plans.{run_of, skip_of, tests_in};
ghost use Rattle.rec_rerun.specs.Suites.{has_outstanding, has_passing};

use rec_events::{
    Items, OwnedTestInstanceId, RustBinaryId, TestCaseName, TestListSummary, TryClone,
};
use rec_format::{RerunInfo, RerunTestSuiteInfo};
use std::alloc::{AllocError, Global};
use std::collections::BTreeSet;

/// Says what becomes of the tests of a list in a rerun.
#[derive(Drop)]
pub struct RerunPlan {
    /// The tests of the list that are to run.
    pub run: Items<OwnedTestInstanceId>,
    /// The tests of the list that have passed, and need not run again.
    pub skip: Items<OwnedTestInstanceId>,
    /// The tests that are still to pass, but aren't in the list.
    pub gone: Items<OwnedTestInstanceId>,
}

/// Holds what is planned so far, and the tests that this is planned of.
#[derive(Drop)]
struct Planned {
    run: Vec<OwnedTestInstanceId>,
    skip: Vec<OwnedTestInstanceId>,
    seen: BTreeSet<OwnedTestInstanceId>,
}

/// Makes the test of these names.
fn test_named(alloc: Global, binary: &str, name: &str) -> Result<OwnedTestInstanceId, AllocError>
    ensures { IfOk result (λ test. test ≡ test_of binary.now name.now) }
{
    Ok(OwnedTestInstanceId {
        binary_id: RustBinaryId::new(String::from_str(alloc, binary)?),
        test_name: TestCaseName::new(String::from_str(alloc, name)?),
    })
}

/// Says whether a test has passed.
fn is_passing(info: &RerunInfo, test: &OwnedTestInstanceId) -> bool
    ensures { result ≡ has_passing info.now.test_suites test.now }
{
    let _ordered = info.test_suites.as_map();
    match info.test_suites.get(&test.binary_id) {
        Some(suite) => suite.passing.as_set().contains(test.test_name.as_str()),
        None => false,
    }
}

impl Planned {
    /// Makes the plan of no test.
    fn new(alloc: Global) -> Planned
        ensures { (info : RerunInfo) → HasPlanned info [] result }
    {
        Planned {
            run: Vec::new(alloc),
            skip: Vec::new(alloc),
            seen: BTreeSet::new(alloc),
        }
    }

    /// Plans what becomes of a test, the first time that it comes.
    fn place(
        &mut self,
        alloc: Global,
        info: &RerunInfo,
        test: OwnedTestInstanceId,
    ) -> Result<(), AllocError>
        ensures ok { OnOk result
            ((tests : List OwnedTestInstanceId) → HasPlanned info.now tests self.old
            → HasPlanned info.now (tests ++ test ∷ []) self.new) }
    {
        let is_first = self.seen.insert(test.try_clone(alloc)?)?;
        if !is_first {
            return Ok(());
        }
        if is_passing(info, &test) {
            self.skip.push(test)?;
            return Ok(());
        }
        self.run.push(test)?;
        Ok(())
    }

    /// Plans what becomes of the tests of a binary.
    fn place_all(
        &mut self,
        alloc: Global,
        info: &RerunInfo,
        binary: &str,
        names: &[TestCaseName],
    ) -> Result<(), AllocError>
        ensures ok { OnOk result
            ((tests : List OwnedTestInstanceId) → HasPlanned info.now tests self.old
            → HasPlanned info.now (tests ++ map (test_of binary.now) names.now) self.new) }
    {
        for name in names {
            self.place(alloc, info, test_named(alloc, binary, name.as_str())?)?;
        }
        Ok(())
    }
}

/// Plans what becomes of the tests of a list.
fn plan_list(alloc: Global, info: &RerunInfo, list: &TestListSummary) -> Result<Planned, AllocError>
    ensures { IfOk result (HasPlanned info.now (tests_in list.now.suites)) }
{
    let mut planned = Planned::new(alloc);
    for (binary, names) in list.suites.as_map() {
        planned.place_all(alloc, info, binary.as_str(), names.as_slice())?;
    }
    Ok(planned)
}

/// Adds a test that wasn't seen.
fn add_unseen(
    gone: &mut Vec<OwnedTestInstanceId>,
    seen: &BTreeSet<OwnedTestInstanceId>,
    test: OwnedTestInstanceId,
) -> Result<(), AllocError>
    ensures ok { OnOk result
        (gone.new.items ≡ gone.old.items ++ (if is_seen seen.now test then [] else test ∷ [])) }
{
    if seen.contains(&test) {
        return Ok(());
    }
    gone.push(test)?;
    Ok(())
}

/// Adds the outstanding tests of a suite that weren't seen.
fn add_gone(
    alloc: Global,
    gone: &mut Vec<OwnedTestInstanceId>,
    seen: &BTreeSet<OwnedTestInstanceId>,
    suite: &RerunTestSuiteInfo,
) -> Result<(), AllocError>
    ensures ok { OnOk result (gone.new.items ≡ gone.old.items
        ++ filter (λ t. not (is_seen seen.now t))
        (map (test_of suite.now.binary_id) suite.now.outstanding)) }
{
    for name in suite.outstanding.as_set() {
        let test = test_named(alloc, suite.binary_id.as_str(), name.as_str())?;
        add_unseen(gone, seen, test)?;
    }
    Ok(())
}

/// Lists the outstanding tests that weren't seen.
fn gone_of(
    alloc: Global,
    info: &RerunInfo,
    seen: &BTreeSet<OwnedTestInstanceId>,
) -> Result<Vec<OwnedTestInstanceId>, AllocError>
    ensures { IfOk result
        (λ gone. gone.items
        ≡ filter (λ t. not (is_seen seen.now t)) (outstanding_in info.now.test_suites)) }
{
    let mut gone = Vec::new(alloc);
    for suite in info.test_suites.as_map().values() {
        add_gone(alloc, &mut gone, seen, suite)?;
    }
    Ok(gone)
}

/// Makes the plan.
fn make_plan(
    alloc: Global,
    info: &RerunInfo,
    list: &TestListSummary,
) -> Result<RerunPlan, AllocError>
    ensures run { IfOk result (λ plan. plan.run ≡ run_of info.now list.now) }
    ensures skip { IfOk result (λ plan. plan.skip ≡ skip_of info.now list.now) }
    ensures gone { IfOk result (λ plan. plan.gone ≡ gone_of info.now list.now) }
{
    let planned = plan_list(alloc, info, list)?;
    let Ok(gone) = gone_of(alloc, info, &planned.seen) else {
        drop(planned);
        return Err(AllocError);
    };
    Ok(RerunPlan {
        run: Items::new(planned.run),
        skip: Items::new(planned.skip),
        gone: Items::new(gone),
    })
}

/// Plans a rerun of a list of tests. Each test of the list comes once, by its binary and then by
/// its first place: those that have passed are skipped, and all others run. The outstanding tests
/// that the list lacks are gone, in the order of their binaries and names.
///
/// # Errors
///
/// `AllocError` means that there was not enough memory.
pub fn plan_rerun(
    alloc: Global,
    info: &RerunInfo,
    list: &TestListSummary,
) -> Result<RerunPlan, AllocError>
    ensures run { IfOk result (λ plan. plan.run ≡ run_of info.now list.now) }
    ensures skip { IfOk result (λ plan. plan.skip ≡ skip_of info.now list.now) }
    ensures gone { IfOk result (λ plan. plan.gone ≡ gone_of info.now list.now) }
    ensures parted { IfOk result (λ plan. (t : OwnedTestInstanceId) →
        (is_in plan.run t || is_in plan.skip t) ≡ is_listed list.now t) }
    ensures apart { IfOk result
        (λ plan. (t : OwnedTestInstanceId) → (is_in plan.run t && is_in plan.skip t) ≡ false) }
    ensures kept { IfOk result (λ plan. AreApart info.now.test_suites → (t : OwnedTestInstanceId) →
        has_outstanding info.now.test_suites t ≡ true
        → (is_in plan.run t || is_in plan.gone t) ≡ true) }
{
    make_plan(alloc, info, list)
}
