//! Which tests are to run again after the run of a bundle.
ghost use Rattle.std.specs.Prelude.{◌≡◌, ◌++◌, [], List, IfOk, OnOk, Option};
ghost use Rattle.rec_container.specs.Container.{Entry, IsContainer};
ghost use Rattle.rec_format.specs.declared.rerun.RerunInfo.{RerunInfo};
ghost use Rattle.rec_rerun.specs.Plans.{AreApart};
ghost use Rattle.rec_rerun.specs.Selection.{HasTaken};
ghost use Rattle.rec_reading.specs.Listing.{Makes};
ghost use Rattle.rec_reading.specs.LogLines.{log_lines};
ghost use Rattle.rec_reading.specs.Reruns.{PrintsPlan, PrintsRerun, Selects};
ghost use Rattle.rec_reading.specs.Reruns.{SelectsBy, build_scope_part, parent_part};
ghost use Rattle.rec_reading.specs.Reruns.{plan_lines, rerun_parts_of, selection_line};
ghost use Rattle.rec_reading.specs.Reruns.{test_line, test_lines, tested_part};
ghost use Rattle.rec_reading.specs.RunParts.{Answers};

use crate::events::{EventTaker, take_lines};
use crate::parts::read_tests;
use rec_errors::ReadingError;
use rec_events::{
    OwnedTestInstanceId, RecordingSpec, ReportUuid, TestEventSummary, TestListSummary,
};
use rec_format::{RecordedBuildScope, RerunInfo};
use rec_forms::write_text;
use rec_portable::{PortableRecording, PortableRecordingRunLog, PortableStoreReader};
use rec_rerun::{RerunPlan, RerunSelector, plan_rerun};
use rec_store::StoreReader;
use std::alloc::{AllocError, Global};

/// Holds what a store says of the tests of a run.
#[derive(Drop)]
struct Tested {
    /// What was built.
    build_scope: RecordedBuildScope,
    /// What the run reran, if it reran anything.
    parent: Option<RerunInfo>,
    /// The tests of the run.
    tests: TestListSummary,
}

/// Holds which tests are to run again after a run, and the tests of the run.
#[derive(Drop)]
struct SelectedTests {
    info: RerunInfo,
    tests: TestListSummary,
}

/// Writes which tests are to run again after the run of a bundle: the selection as compact JSON and
/// LF, then a line for each test of its list that is to run, then for each that has passed and is
/// skipped, and then for each that is to run but isn't listed.
///
/// # Errors
///
/// - `Bundle` with `MissingFile`, `FileTooLarge` or `ReadArchive` for the log or the store.
/// - `Part` for the build scope, the rerun info or the test list, in this order; a store without
///   rerun info is no fault.
/// - `Line` with the fault of the first line of the log that gives no event.
///
/// `OutOfMemory` may come at any time.
pub fn rerun_text(alloc: Global, bundle: &PortableRecording) -> Result<Vec<u8>, ReadingError>
    ensures { (es : List Entry)
        → IsContainer bundle.now.bytes es
        → Makes (PrintsRerun bundle.now.limit es) result }
{
    let selected = SelectedTests::read(alloc, bundle)?;
    Ok(plan_text(alloc, selected)?)
}

impl SelectedTests {
    /// Selects which tests are to run again after the run of a bundle.
    fn read(alloc: Global, bundle: &PortableRecording) -> Result<SelectedTests, ReadingError>
        ensures { (es : List Entry)
            → IsContainer bundle.now.bytes es
            → Selects (rerun_parts_of bundle.now.limit es) result }
    {
        let run_id = bundle.manifest().run.run_id;
        let log = bundle.read_run_log(alloc)?;
        let mut store = bundle.open_store(alloc)?;
        let tested = read_tested(alloc, &mut store)?;
        match select(alloc, run_id, &tested, &log) {
            Ok(info) => Ok(SelectedTests {
                info,
                tests: tested.into_tests(),
            }),
            Err(error) => {
                // By a call: in place, each part of what was read would be a case of the proof.
                drop(tested);
                Err(error)
            }
        }
    }
}

impl Tested {
    /// Lets all go but the tests of the run.
    fn into_tests(self) -> TestListSummary
        ensures { result ≡ self.tests }
    {
        let Tested {
            build_scope,
            parent,
            tests,
        } = self;
        drop((build_scope, parent));
        tests
    }
}

/// Selects which tests are to run again after a run, by the events of its log as they are read.
fn select(
    alloc: Global,
    run_id: ReportUuid,
    tested: &Tested,
    log: &PortableRecordingRunLog<'_>,
) -> Result<RerunInfo, ReadingError>
    ensures { SelectsBy run_id tested.now (log_lines log.now) result }
{
    let mut selector = RerunSelector::new(alloc, tested.parent.as_ref())?;
    if let Err(error) = take_lines(alloc, log.events(alloc), &mut selector) {
        // By a call, as in `read`.
        selector.discard();
        return Err(error);
    }
    let info = selector.select(alloc, run_id, &tested.build_scope, tested.parent.as_ref())?;
    Ok(info)
}

impl EventTaker for RerunSelector {
    ghost takes = { λ old events new. (parent : Option RerunInfo)
        → HasTaken parent [] old.standings.tests
        → HasTaken parent events new.standings.tests };

    ghost takes_none = { λ selector parent none. none };

    fn take_event(
        &mut self,
        _alloc: Global,
        event: &TestEventSummary<RecordingSpec>,
    ) -> Result<(), AllocError> {
        self.add_event(event)
    }
}

/// Reads what a store says of the tests of a run.
fn read_tested(alloc: Global, store: &mut PortableStoreReader<'_>) -> Result<Tested, ReadingError>
    ensures { Answers (tested_part store.old.entries store.old.limit) result }
{
    let build_scope = read_build_scope(alloc, store)?;
    let parent = read_parent(alloc, store)?;
    match read_tests(alloc, store) {
        Ok(tests) => Ok(Tested {
            build_scope,
            parent,
            tests,
        }),
        Err(error) => {
            // By a call, as in `read`.
            drop(parent);
            Err(error)
        }
    }
}

/// Reads what was built, as a store says it.
fn read_build_scope(
    alloc: Global,
    store: &mut PortableStoreReader<'_>,
) -> Result<RecordedBuildScope, ReadingError>
    ensures scope { Answers (build_scope_part store.old.entries store.old.limit) result }
    ensures same { store.new ≡ store.old }
{
    Ok(store.read_build_scope(alloc)?)
}

/// Reads what a run reran, as its store says it.
fn read_parent(
    alloc: Global,
    store: &mut PortableStoreReader<'_>,
) -> Result<Option<RerunInfo>, ReadingError>
    ensures parent { Answers (parent_part store.old.entries store.old.limit) result }
    ensures same { store.new ≡ store.old }
{
    Ok(store.read_rerun_info(alloc)?)
}

/// Writes which tests are to run again, and what that means for the tests of the run. What isn't
/// needed any more is let go before the text is made.
fn plan_text(alloc: Global, selected: SelectedTests) -> Result<Vec<u8>, AllocError>
    ensures { AreApart selected.info.test_suites
        → IfOk result (λ text. PrintsPlan selected.info selected.tests text.items) }
{
    let SelectedTests { info, tests } = selected;
    let planned = plan_rerun(alloc, &info, &tests);
    // By a call, as in `read`.
    drop(tests);
    let Ok(plan) = planned else {
        drop(info);
        return Err(AllocError);
    };
    let result = lines_text(alloc, &info, &plan);
    drop((info, plan));
    result
}

/// Writes a selection and a plan.
fn lines_text(alloc: Global, info: &RerunInfo, plan: &RerunPlan) -> Result<Vec<u8>, AllocError>
    ensures { IfOk result (λ text. text.items ≡ plan_lines info.now plan.now) }
{
    let mut text = selection_line(alloc, info)?;
    print_tests("run ", plan.run.as_slice(), &mut text)?;
    print_tests("skip ", plan.skip.as_slice(), &mut text)?;
    print_tests("gone ", plan.gone.as_slice(), &mut text)?;
    Ok(text)
}

/// Writes a selection and LF.
#[tactic(auto, unfolding(crate::specs::Reruns::selection_line))]
fn selection_line(alloc: Global, info: &RerunInfo) -> Result<Vec<u8>, AllocError>
    ensures { IfOk result (λ text. text.items ≡ selection_line info.now) }
{
    let mut text = write_text(alloc, info)?;
    text.push(b'\n')?;
    Ok(text)
}

/// Adds a line for each test: the label, the binary's id, a space and the test's name.
fn print_tests(
    label: &str,
    tests: &[OwnedTestInstanceId],
    text: &mut Vec<u8>,
) -> Result<(), AllocError>
    ensures { OnOk result (text.new.items ≡ text.old.items ++ test_lines label.now tests.now) }
{
    for test in tests {
        print_test(label, test, text)?;
    }
    Ok(())
}

/// Adds the line of a test.
fn print_test(label: &str, test: &OwnedTestInstanceId, text: &mut Vec<u8>) -> Result<(), AllocError>
    ensures { OnOk result (text.new.items ≡ text.old.items ++ test_line label.now test.now) }
{
    text.extend_from_slice(label.as_bytes())?;
    text.extend_from_slice(test.binary_id.as_str().as_bytes())?;
    text.push(b' ')?;
    text.extend_from_slice(test.test_name.as_str().as_bytes())?;
    text.push(b'\n')?;
    Ok(())
}
