//! Which tests are to run again after a run, and which have passed.
ghost use Rattle.std.specs.Option.{option_copied, option_map};
ghost use Rattle.std.specs.Prelude.{◌≡◌, ◌++◌, ◌∷◌, [], ◌&&◌, ◌||◌};
ghost use Rattle.std.specs.Prelude.{false, IfOk, List, OnOk, Option};
ghost use Rattle.rec_events.specs.declared.instances.OwnedTestInstanceId.{OwnedTestInstanceId};
ghost use Rattle.rec_format.specs.declared.rerun.RerunInfo.{RerunInfo};
ghost use Rattle.rec_rerun.specs.declared.standings.Standing.TheVariants.{Known};
ghost use Rattle.rec_rerun.specs.Selection.{HasTaken, IsSelection, is_recorded, known_in, root_of};
ghost use Rattle.rec_rerun.specs.Standings.{LogEvent, at};
ghost use Rattle.rec_rerun.specs.Suites.{AreSuitesOf, has_outstanding, has_passing};

use crate::acts::act_of;
use crate::standings::Standings;
use crate::suites::suites_of;
use rec_events::{RecordingSpec, ReportUuid, TestEventSummary, TryClone};
use rec_format::{RecordedBuildScope, RerunInfo, RerunRootInfo};
use std::alloc::{AllocError, Global};

/// Copies what was built.
fn copy_of(alloc: Global, scope: &RecordedBuildScope) -> Result<RecordedBuildScope, AllocError>
    ensures { IfOk result (λ copy. copy ≡ scope.now) }
{
    Ok(RecordedBuildScope::new(scope.build_kind, scope.scope.try_clone(alloc)?))
}

/// Describes the first run of the chain: that of the parent, or this run.
fn root_of(
    alloc: Global,
    run_id: ReportUuid,
    build_scope: &RecordedBuildScope,
    parent: Option<&RerunInfo>,
) -> Result<RerunRootInfo, AllocError>
    ensures { IfOk result
        (λ root. root ≡ root_of run_id build_scope.now (option_copied parent.entry)) }
{
    match parent {
        Some(info) => Ok(RerunRootInfo::new(
            info.root_info.run_id,
            copy_of(alloc, &info.root_info.build_scope)?,
        )),
        None => Ok(RerunRootInfo::new(run_id, copy_of(alloc, build_scope)?)),
    }
}

/// Takes down what the parent knows of its tests.
fn known_standings(alloc: Global, parent: Option<&RerunInfo>) -> Result<Standings, AllocError>
    ensures { IfOk result (λ standings. (t : OwnedTestInstanceId) →
        at standings.tests t ≡ option_map Known (known_in (option_copied parent.entry) t)) }
{
    let mut standings = Standings::new(alloc);
    let Some(info) = parent else {
        return Ok(standings);
    };
    standings.note(&info.test_suites, false)?;
    standings.note(&info.test_suites, true)?;
    Ok(standings)
}

/// Selects the tests that are to run again after a run, by the events of its log as they come. No
/// event is kept.
#[derive(Drop)]
pub struct RerunSelector {
    standings: Standings,
}

impl RerunSelector {
    /// Makes the selector of a log without an event so far. `parent` describes what the run itself
    /// reran, if it reran anything.
    ///
    /// # Errors
    ///
    /// `AllocError` means that there was not enough memory.
    pub fn new(alloc: Global, parent: Option<&RerunInfo>) -> Result<RerunSelector, AllocError>
        ensures { IfOk result
            (λ selector. HasTaken (option_copied parent.entry) [] selector.standings.tests) }
    {
        let standings = known_standings(alloc, parent)?;
        Ok(RerunSelector { standings })
    }

    /// Takes the next event of the log. The events may be any in any order.
    ///
    /// # Errors
    ///
    /// `AllocError` means that there was not enough memory. What is selected then is not said.
    pub fn add_event(&mut self, event: &TestEventSummary<RecordingSpec>) -> Result<(), AllocError>
        ensures { OnOk result ((parent : Option RerunInfo) (events : List LogEvent)
            → HasTaken parent events self.old.standings.tests
            → HasTaken parent (events ++ event.now ∷ []) self.new.standings.tests) }
    {
        self.standings.take(act_of(&event.kind))
    }

    /// Takes the events of a log.
    fn add_events(&mut self, events: &[TestEventSummary<RecordingSpec>]) -> Result<(), AllocError>
        ensures { OnOk result ((parent : Option RerunInfo)
            → HasTaken parent [] self.old.standings.tests
            → HasTaken parent events.now self.new.standings.tests) }
    {
        for event in events {
            self.add_event(event)?;
        }
        Ok(())
    }

    /// Selects the tests that are to run again after a run of this id, whose log has the events so
    /// far, and those that have passed, as [`select_rerun`] does.
    /// `parent` is what the selector was made with.
    ///
    /// # Errors
    ///
    /// `AllocError` means that there was not enough memory.
    pub fn select(
        self,
        alloc: Global,
        run_id: ReportUuid,
        build_scope: &RecordedBuildScope,
        parent: Option<&RerunInfo>,
    ) -> Result<RerunInfo, AllocError>
        ensures parent_run { IfOk result (λ info. info.parent_run_id ≡ run_id) }
        ensures root { IfOk result
            (λ info. info.root_info ≡ root_of run_id build_scope.now (option_copied parent.entry)) }
        ensures selected { (known : Option RerunInfo) (events : List LogEvent)
            → HasTaken known events self.standings.tests
            → IfOk result (λ info. IsSelection events known info.test_suites) }
        ensures apart { IfOk result (λ info. (t : OwnedTestInstanceId) →
            (has_passing info.test_suites t && has_outstanding info.test_suites t) ≡ false) }
        ensures recorded { (known : Option RerunInfo) (events : List LogEvent)
            → HasTaken known events self.standings.tests
            → IfOk result (λ info. (t : OwnedTestInstanceId) →
            (has_passing info.test_suites t || has_outstanding info.test_suites t)
            ≡ is_recorded events known t) }
    {
        make_info(alloc, self.standings, run_id, build_scope, parent)
    }

    /// Lets the selector go, as `drop` does. A crate that lets one go by this call doesn't prove
    /// anew how each of its parts is let go.
    pub fn discard(self) {
        drop(self);
    }
}

/// Describes what is to run again, by how the tests stand, which are let go.
fn make_info(
    alloc: Global,
    standings: Standings,
    run_id: ReportUuid,
    build_scope: &RecordedBuildScope,
    parent: Option<&RerunInfo>,
) -> Result<RerunInfo, AllocError>
    ensures parent_run { IfOk result (λ info. info.parent_run_id ≡ run_id) }
    ensures root { IfOk result
        (λ info. info.root_info ≡ root_of run_id build_scope.now (option_copied parent.entry)) }
    ensures suites { IfOk result (λ info. AreSuitesOf standings.tests info.test_suites) }
{
    let made = suites_of(alloc, &standings);
    drop(standings);
    let test_suites = made?;
    let Ok(root_info) = root_of(alloc, run_id, build_scope, parent) else {
        drop(test_suites);
        return Err(AllocError);
    };
    Ok(RerunInfo {
        parent_run_id: run_id,
        test_suites,
        root_info,
    })
}

/// Selects the tests that are to run again after a run of this id, whose log has these events, and
/// those that have passed. `parent` describes what the run itself reran, if it reran anything.
///
/// A test of which the log starts an attempt has passed where its last end stands after its last
/// start, its last attempt succeeded, and it isn't flaky and counts as failed. A test of the parent
/// that the log doesn't start has passed where it had passed before. Each other test of the log or
/// of the parent is outstanding. The log may be of any events in any order.
///
/// # Errors
///
/// `AllocError` means that there was not enough memory.
pub fn select_rerun(
    alloc: Global,
    events: &[TestEventSummary<RecordingSpec>],
    run_id: ReportUuid,
    build_scope: &RecordedBuildScope,
    parent: Option<&RerunInfo>,
) -> Result<RerunInfo, AllocError>
    ensures parent_run { IfOk result (λ info. info.parent_run_id ≡ run_id) }
    ensures root { IfOk result
        (λ info. info.root_info ≡ root_of run_id build_scope.now (option_copied parent.entry)) }
    ensures selected { IfOk result
        (λ info. IsSelection events.now (option_copied parent.entry) info.test_suites) }
    ensures apart { IfOk result (λ info. (t : OwnedTestInstanceId) →
        (has_passing info.test_suites t && has_outstanding info.test_suites t) ≡ false) }
    ensures recorded { IfOk result (λ info. (t : OwnedTestInstanceId) →
        (has_passing info.test_suites t || has_outstanding info.test_suites t)
        ≡ is_recorded events.now (option_copied parent.entry) t) }
{
    let mut selector = RerunSelector::new(alloc, parent)?;
    let Ok(()) = selector.add_events(events) else {
        drop(selector);
        return Err(AllocError);
    };
    selector.select(alloc, run_id, build_scope, parent)
}
