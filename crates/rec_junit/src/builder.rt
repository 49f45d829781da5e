//! The report of a run, built event by event.
ghost use Rattle.std.specs.Prelude.{◌≡◌, ◌++◌, ◌∷◌, [], List, None, IfOk};
ghost use Rattle.std.specs.Prelude.{OnOk, OnErr, codes, string_bytes};
ghost use Rattle.rec_events.specs.declared.live_events.TestEvent.{TestEvent};
ghost use Rattle.rec_events.specs.LiveEvents.{kind_name};
ghost use Rattle.rec_junit.specs.Histories.{refusal_of, report_after, report_with};
ghost use Rattle.rec_junit.specs.Histories.{suites_after, suites_by, StandsFor};
ghost use Rattle.rec_junit.specs.Judging.{IsJudged};
ghost use Rattle.rec_junit.specs.Suites.{no_suites};

use crate::additions::addition_of;
use crate::suites::OpenSuites;
use crate::{ErrorDescriber, JunitError, JunitReport};
use rec_events::{NextestRunMode, TestEvent, TestEventKind, Text, TryClone};
use std::alloc::Global;
use std::mem;

/// Builds the report of a run from its events, and begins anew at the end of a run.
///
/// It keeps no history: only the suites since the last end of a run.
#[derive(Drop)]
pub struct JunitBuilder<'a, D: ErrorDescriber> {
    alloc: Global,
    mode: NextestRunMode,
    name: Text,
    describer: &'a D,
    suites: OpenSuites,
}

impl<'a, D: ErrorDescriber> JunitBuilder<'a, D> {
    /// Makes a builder that no event was written to. Its reports bear this name.
    pub fn new(
        alloc: Global,
        mode: NextestRunMode,
        name: String,
        describer: &'a D,
    ) -> JunitBuilder<'a, D>
        ensures mode { result.mode ≡ mode }
        ensures name { result.name ≡ string_bytes name }
        ensures describer { result.describer ≡ describer.entry }
        ensures stands { StandsFor mode (D.text_of describer.now) result.suites [] }
    {
        JunitBuilder {
            alloc,
            mode,
            name: Text::new(name),
            describer,
            suites: OpenSuites::new(alloc),
        }
    }

    /// Takes an event, and answers the report of the run where it is the end of the run. Then the
    /// builder has no suites.
    ///
    /// # Errors
    ///
    /// These come exactly where they are the cause, the first of them where there are more. The
    /// main attempt of a test is judged first, then each rerun by its ending and its output, then
    /// the main attempt's output:
    ///
    /// - `SuccessAsFailure`: the first attempt of a test that failed, or a rerun, passed, or was
    ///   stopped for its time and counts as passed.
    /// - `NotLoadedOutput`: an output that the report is to hold was not loaded.
    ///
    /// Or `OutOfMemory`, if memory runs out. Each error leaves the builder as it was.
    pub fn write_event(&mut self, event: &TestEvent<'_>) -> Result<Option<JunitReport>, JunitError>
        ensures stands { (history : List TestEvent)
            → StandsFor self.old.mode (D.text_of self.old.describer.now) self.old.suites history
            → OnOk result
            (StandsFor self.old.mode (D.text_of self.old.describer.now) self.new.suites
            (history ++ (event.now ∷ []))) }
        ensures reports { (history : List TestEvent)
            → StandsFor self.old.mode (D.text_of self.old.describer.now) self.old.suites history
            → IfOk result
            (λ report. report
            ≡ report_after self.old.mode (D.text_of self.old.describer.now) self.old.name history
            event.now.kind) }
        ensures judged { IsJudged result
            (refusal_of self.old.mode (D.text_of self.old.describer.now) event.now.kind) }
        ensures unchanged { OnErr result (self.new ≡ self.old) }
        ensures settings { self.new ≡ record self.old { suites = self.new.suites } }
    {
        self.take_event(event)
    }

    /// Takes an event.
    fn take_event(&mut self, event: &TestEvent<'_>) -> Result<Option<JunitReport>, JunitError>
        ensures suites { OnOk result
            (self.new.suites
            ≡ suites_by self.old.mode (D.text_of self.old.describer.now) self.old.suites
            event.now.kind) }
        ensures reports { IfOk result
            (λ report. report ≡ report_with self.old.name self.old.suites event.now.kind) }
        ensures judged { IsJudged result
            (refusal_of self.old.mode (D.text_of self.old.describer.now) event.now.kind) }
        ensures unchanged { OnErr result (self.new ≡ self.old) }
        ensures settings { self.new ≡ record self.old { suites = self.new.suites } }
    {
        match &event.kind {
            TestEventKind::RunFinished { .. } => self.finish_run(&event.kind),
            _ => self.add_event(&event.kind),
        }
    }

    /// Answers the report of a run that ended, and begins anew.
    fn finish_run(&mut self, kind: &TestEventKind<'_>) -> Result<Option<JunitReport>, JunitError>
        requires kind { kind_name kind.now ≡ codes "run-finished" }
        ensures new { OnOk result (self.new.suites ≡ no_suites) }
        ensures reports { IfOk result
            (λ report. report ≡ report_with self.old.name self.old.suites kind.now) }
        ensures judged { IsJudged result None }
        ensures unchanged { OnErr result (self.new ≡ self.old) }
        ensures settings { self.new ≡ record self.old { suites = self.new.suites } }
    {
        let TestEventKind::RunFinished {
            run_id,
            start_time,
            elapsed,
            ..
        } = kind
        else {
            unreachable!()
        };
        let name = self.name.try_clone(self.alloc)?;
        let suites = mem::replace(&mut self.suites, OpenSuites::new(self.alloc));
        Ok(Some(JunitReport {
            name,
            run_id: *run_id,
            timestamp: *start_time,
            time: *elapsed,
            suites: suites.into_suites(),
        }))
    }

    /// Adds what an event of the run gives.
    fn add_event(&mut self, kind: &TestEventKind<'_>) -> Result<Option<JunitReport>, JunitError>
        ensures suites { OnOk result
            (self.new.suites
            ≡ suites_after self.old.mode (D.text_of self.old.describer.now) self.old.suites
            kind.now) }
        ensures no_report { IfOk result (λ report. report ≡ None) }
        ensures judged { IsJudged result
            (refusal_of self.old.mode (D.text_of self.old.describer.now) kind.now) }
        ensures unchanged { OnErr result (self.new ≡ self.old) }
        ensures settings { self.new ≡ record self.old { suites = self.new.suites } }
    {
        let Some(addition) = addition_of(self.alloc, self.mode, self.describer, kind)? else {
            return Ok(None);
        };
        self.suites.add(self.alloc, addition)?;
        Ok(None)
    }
}
