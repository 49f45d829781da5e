//! The walk over the events of a run, which keeps its tests and their attempts.
ghost use Rattle.std.specs.Prelude.{◌≡◌, ◌<◌, ◌^◌, ◌-◌, ◌∷◌, ◌++◌, [], IfOk, IfSome, List, OnOk};
ghost use Rattle.std.specs.Prelude.{length, map, None, Some, true, if◌then◌else◌};
ghost use Rattle.rec_events.specs.declared.instances.OwnedTestInstanceId.{OwnedTestInstanceId};
ghost use Rattle.rec_events.specs.Tests.{test_eq};
ghost use Rattle.rec_spans.specs.Tied.{slot_of};
ghost use Rattle.rec_view.specs.Acts as acts;
ghost use Rattle.rec_view.specs.Acts.Act.{Ends, Retries, RunEnds, Starts};
ghost use Rattle.rec_view.specs.Seen.{seen};
ghost use Rattle.rec_view.specs.Tests.{place};
ghost use Rattle.rec_view.specs.Walked.{HasWalked, Names, Notes, Opens, Pushes, Takes, Tells};
ghost use Rattle.rec_view.specs.Walked.{Touches, closed, ended, retried};

use crate::acts::{Act, act_of};
use crate::test_views::{Attempt, TestView};
use crate::verdicts::Verdict;
use rec_events::{OutputSpec, OwnedTestInstanceId, TestEventSummary, TryClone};
use std::alloc::{AllocError, Global};
use std::collections::{BTreeMap, BTreeSet};

/// Keeps the tests of the events so far.
#[derive(Drop)]
pub(crate) struct Walk {
    alloc: Global,
    /// How many events there were.
    number: u64,
    pub(crate) tests: Vec<TestView>,
    /// Where those that run stand among the tests.
    running: BTreeMap<OwnedTestInstanceId, usize>,
    /// Those of which an event told since the last end of a run.
    told: BTreeSet<OwnedTestInstanceId>,
}

impl Walk {
    /// Begins a walk.
    pub(crate) fn new(alloc: Global) -> Walk
        ensures { HasWalked [] result }
    {
        Walk {
            alloc,
            number: 0,
            tests: Vec::new(alloc),
            running: BTreeMap::new(alloc),
            told: BTreeSet::new(alloc),
        }
    }

    /// Puts a test behind the others.
    fn push(
        &mut self,
        test: &OwnedTestInstanceId,
        verdict: Verdict,
        attempts: Vec<Attempt>,
    ) -> Result<(), AllocError>
        ensures ok { OnOk result
            (Pushes self.old self.new (record {
              place = place self.old.number test.now;
              verdict = verdict;
              attempts = attempts.items;
            })) }
    {
        let view = TestView {
            at: self.number,
            test: test.try_clone(self.alloc)?,
            verdict,
            attempts,
        };
        self.tests.push(view)?;
        Ok(())
    }

    /// Puts a test without attempts behind the others.
    fn add(&mut self, test: &OwnedTestInstanceId, verdict: Verdict) -> Result<(), AllocError>
        ensures ok { OnOk result
            (Pushes self.old self.new (record {
              place = place self.old.number test.now;
              verdict = verdict;
              attempts = [];
            })) }
    {
        self.push(test, verdict, Vec::new(self.alloc))
    }

    /// Puts a test behind the others by its start. It runs.
    fn open(&mut self, test: &OwnedTestInstanceId) -> Result<(), AllocError>
        ensures ok { OnOk result (Opens self.old self.new test.now) }
    {
        let index = self.tests.len();
        let mut attempts = Vec::with_capacity(self.alloc, 1)?;
        attempts.push(Attempt {
            from: self.number,
            to: None,
        })?;
        self.push(test, Verdict::Unfinished, attempts)?;
        let key = test.try_clone(self.alloc)?;
        self.running.insert(key, index)?;
        Ok(())
    }

    /// Says where the test of a name that runs stands among the tests.
    fn place_of(&self, test: &OwnedTestInstanceId) -> Option<usize>
        ensures { result ≡ slot_of self.now.running.entries test.now }
    {
        self.running.get(test).copied()
    }

    /// Ends the last attempt of the test at a place.
    fn close_at(&mut self, index: usize)
        requires within { index < length self.old.tests.items }
        ensures { Touches self.old self.new (Some index) (closed self.old.number) }
    {
        let number = self.number;
        self.tests[index].close(number);
    }

    /// Starts a further attempt of the test at a place.
    fn retry_at(&mut self, index: usize) -> Result<(), AllocError>
        requires within { index < length self.old.tests.items }
        ensures ok { OnOk result
            (Touches self.old self.new (Some index) (retried self.old.number)) }
    {
        let number = self.number;
        self.tests[index].retry(number)
    }

    /// Ends the test at a place.
    fn end_at(&mut self, index: usize, verdict: Verdict)
        requires within { index < length self.old.tests.items }
        ensures { Touches self.old self.new (Some index) (ended verdict self.old.number) }
    {
        let number = self.number;
        self.tests[index].end(number, verdict);
    }

    /// Ends the last attempt of the test of a name that runs, if one does.
    fn close(&mut self, test: &OwnedTestInstanceId)
        requires within { IfSome (slot_of self.old.running.entries test.now)
            (λ i. i < length self.old.tests.items) }
        ensures { Touches self.old self.new (slot_of self.old.running.entries test.now)
            (closed self.old.number) }
    {
        if let Some(index) = self.place_of(test) {
            self.close_at(index);
        }
    }

    /// Takes the start of a test.
    fn start(&mut self, test: &OwnedTestInstanceId) -> Result<(), AllocError>
        requires within { IfSome (slot_of self.old.running.entries test.now)
            (λ i. i < length self.old.tests.items) }
        ensures ok { OnOk result (Takes (Starts test.now) self.old self.new) }
    {
        self.close(test);
        self.open(test)
    }

    /// Takes the start of a further attempt.
    fn retry(&mut self, test: &OwnedTestInstanceId) -> Result<(), AllocError>
        requires within { IfSome (slot_of self.old.running.entries test.now)
            (λ i. i < length self.old.tests.items) }
        ensures ok { OnOk result (Takes (Retries test.now) self.old self.new) }
    {
        match self.place_of(test) {
            Some(index) => self.retry_at(index),
            None => self.open(test),
        }
    }

    /// Takes the end of a test.
    fn end(&mut self, test: &OwnedTestInstanceId, verdict: Verdict) -> Result<(), AllocError>
        requires within { IfSome (slot_of self.old.running.entries test.now)
            (λ i. i < length self.old.tests.items) }
        ensures ok { OnOk result (Takes (Ends test.now verdict) self.old self.new) }
    {
        match self.place_of(test) {
            Some(index) => {
                self.end_at(index, verdict);
                self.stop(test);
                Ok(())
            }
            None => self.add(test, verdict),
        }
    }

    /// Takes a test out of those that run.
    fn stop(&mut self, test: &OwnedTestInstanceId)
        ensures tests { self.new.tests ≡ self.old.tests }
        ensures number { self.new.number ≡ self.old.number }
        ensures told { self.new.told ≡ self.old.told }
        ensures running { (s : OwnedTestInstanceId) → slot_of self.new.running.entries s
            ≡ (if test_eq test.now s then None else slot_of self.old.running.entries s) }
    {
        drop(self.running.remove(test));
    }

    /// Puts a test behind the others that a run's end names, unless it was told.
    fn name(&mut self, test: &OwnedTestInstanceId) -> Result<(), AllocError>
        ensures ok { OnOk result
            ((start : Walk) (names : List OwnedTestInstanceId) → Names start self.old names
            → Names start self.new (names ++ test.now ∷ [])) }
    {
        let is_new = self.told.insert(test.try_clone(self.alloc)?)?;
        if is_new {
            self.add(test, Verdict::NotStarted)?;
        }
        Ok(())
    }

    /// Puts the tests behind the others that a run's end names.
    fn name_all(&mut self, names: &[OwnedTestInstanceId]) -> Result<(), AllocError>
        ensures ok { OnOk result (Names self.old self.new names.now) }
    {
        for name in names {
            self.name(name)?;
        }
        Ok(())
    }

    /// Takes the end of a run.
    fn end_run(&mut self, names: &[OwnedTestInstanceId]) -> Result<(), AllocError>
        ensures ok { OnOk result (Takes (RunEnds names.now) self.old self.new) }
    {
        self.name_all(names)?;
        self.told = BTreeSet::new(self.alloc);
        Ok(())
    }

    /// Takes the next event, which isn't counted.
    fn take_act(&mut self, act: Act<'_>) -> Result<(), AllocError>
        requires walked { (before : List acts.Act) × HasWalked before self.old }
        ensures ok { OnOk result (Takes (seen act.entry) self.old self.new) }
    {
        match act {
            Act::Starts { test } => self.start(test),
            Act::Retries { test } => self.retry(test),
            Act::Fails { test } => {
                self.close(test);
                Ok(())
            }
            Act::Ends { test, verdict } => self.end(test, verdict),
            Act::Skips { test } => self.add(test, Verdict::Skipped),
            Act::RunEnds { not_seen } => self.end_run(not_seen),
            Act::Silent => Ok(()),
        }
    }

    /// Takes the next event.
    pub(crate) fn take(&mut self, event: Act<'_>) -> Result<(), AllocError>
        requires room { self.old.number < 2 ^ 64 - 1 }
        requires walked { (before : List acts.Act) × HasWalked before self.old }
        ensures ok { OnOk result
            ((before : List acts.Act) → HasWalked before self.old
            → HasWalked (before ++ seen event.entry ∷ []) self.new) }
    {
        self.take_act(event)?;
        self.tell(event)?;
        self.number += 1;
        Ok(())
    }

    /// Notes of which test an event tells.
    fn tell(&mut self, event: Act<'_>) -> Result<(), AllocError>
        ensures ok { OnOk result (Tells (seen event.entry) self.old self.new) }
    {
        match event {
            Act::Starts { test } => self.note(test),
            Act::Retries { test } => self.note(test),
            Act::Ends { test, .. } => self.note(test),
            Act::Skips { test } => self.note(test),
            _ => Ok(()),
        }
    }

    /// Notes that an event told of a test.
    fn note(&mut self, test: &OwnedTestInstanceId) -> Result<(), AllocError>
        ensures ok { OnOk result (Notes self.old self.new test.now) }
    {
        self.told.insert(test.try_clone(self.alloc)?)?;
        Ok(())
    }
}

/// Walks over events.
pub(crate) fn walk_events<S: OutputSpec>(
    alloc: Global,
    events: &[TestEventSummary<S>],
) -> Result<Walk, AllocError>
    ensures { IfOk result (HasWalked (acts.acts events.now)) }
{
    let mut walk = Walk::new(alloc);
    for event in events {
        walk.take(act_of(&event.kind))?;
    }
    Ok(walk)
}
