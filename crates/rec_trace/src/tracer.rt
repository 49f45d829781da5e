//! Traces events one after the other: an event is judged and drawn first, and accepted or let go
//! once it is known whether what it draws was taken.
ghost use Rattle.std.specs.Prelude.{◌≡◌, List, [], suc, map, IfOk, OnErr};
ghost use Rattle.semver.specs.Parse.{Parts};
ghost use Rattle.rec_trace_events.specs.EventTexts.{event_value};
ghost use Rattle.rec_spans.specs.Judged.{IsJudged};
ghost use Rattle.rec_spans.specs.Kinds.{trace_input};
ghost use Rattle.rec_spans.specs.Plain.{PlainEvent, plain};
ghost use Rattle.rec_spans.specs.Refusals.{Judges, next_refusal};
ghost use Rattle.rec_trace.specs.declared.tracer.Tracer.{Tracer};
ghost use Rattle.rec_trace.specs.Held.{IsHeld, binaries_held};
ghost use Rattle.rec_trace.specs.KnownNews.{HasRoom, known_in};
ghost use Rattle.rec_trace.specs.Standing.{StandsFor};
ghost use Rattle.rec_trace.specs.Steps.{Advances, IsPrepared, StaysSame, draws};

use crate::drawing::draw_event;
use crate::known::{Known, News};
use crate::run_start::RunStart;
use rec_events::{OutputSpec, TestEventSummary, Version};
use rec_spans::{ChromeTraceError, ChromeTraceGroupBy, JudgedEvent, OpenedEvent, SpanTracker};
use rec_trace_events::TraceEvent;
use std::alloc::{AllocError, Global};

/// Keeps what the trace events of the next event are made from. No event is kept.
#[derive(Drop)]
pub struct Tracer {
    version: Version,
    group_by: ChromeTraceGroupBy,
    tracker: SpanTracker,
    known: Known,
}

/// Holds what it takes to accept an event that was drawn, or to let it go.
#[derive(Drop)]
pub struct PreparedEvent {
    opened: OpenedEvent,
    news: News,
}

/// Holds what an event draws, with what it takes to accept it or to let it go.
#[derive(Drop)]
pub struct DrawnEvent {
    /// What the event draws.
    pub events: Vec<TraceEvent>,
    /// What it takes to accept the event, or to let it go.
    pub prepared: PreparedEvent,
}

impl Tracer {
    /// Makes the tracer of no event so far, of runs by this version of the runner.
    pub fn new(alloc: Global, version: Version, group_by: ChromeTraceGroupBy) -> Tracer
        ensures { StandsFor group_by version [] result }
    {
        Tracer {
            version,
            group_by,
            tracker: SpanTracker::new(alloc),
            known: Known::new(alloc),
        }
    }

    /// Returns the version of the runner.
    pub fn version(&self) -> &Version
        ensures { result.now ≡ self.now.version }
    {
        &self.version
    }

    /// Returns the last start of a run.
    pub fn last_run(&self) -> &Option<RunStart>
        ensures { result.now ≡ (known_in self.now.known).last_run }
    {
        self.known.last_run()
    }

    /// Counts what is kept of the events so far: the open spans, the rows and processes that were
    /// named, the pending arrows, and where each binary is a process, the binaries. It goes over
    /// the tests of which something is noted.
    pub fn held(&self) -> usize
        ensures { (version : Parts) (events : List PlainEvent)
            → StandsFor self.now.group_by version events self.now
            → IsHeld self.now.group_by events result }
    {
        let spans = self.tracker.open_spans().len();
        let known = self.known.named().saturating_add(self.known.pending());
        spans
            .saturating_add(known)
            .saturating_add(self.binaries_held())
    }

    /// Counts the binaries, where each of them is a process.
    fn binaries_held(&self) -> usize
        ensures { result ≡ binaries_held self.now.group_by self.now.tracker.binaries }
    {
        match self.group_by {
            ChromeTraceGroupBy::Binary => self.tracker.binary_count(),
            ChromeTraceGroupBy::Slot => 0,
        }
    }

    /// Judges and draws the next event, and takes all memory that it takes to accept it. Nothing
    /// else may be drawn until the event is accepted or let go.
    ///
    /// # Errors
    ///
    /// Answers the first cause for which the event is refused, in the order that `ChromeTraceError`
    /// gives, or `OutOfMemory`. The tracer then stays as it was.
    pub fn prepare<S: OutputSpec>(
        &mut self,
        alloc: Global,
        event: &TestEventSummary<S>,
    ) -> Result<DrawnEvent, ChromeTraceError>
        ensures judged { Judges result
            (next_refusal self.old.tracker
            (trace_input self.old.group_by self.old.tracker.binaries (plain event.now))) }
        ensures drawn { IfOk result
            (λ d. map event_value d.events.items ≡ draws self.old (plain event.now)) }
        ensures prepared { IfOk result
            (λ d. IsPrepared self.old (plain event.now) self.new d.prepared) }
        ensures err { OnErr result (StaysSame self.old self.new) }
    {
        let judged = self.tracker.judge_event(alloc, self.group_by, event)?;
        let Ok(events) = self.draw(alloc, event, &judged) else {
            drop(judged);
            return Err(ChromeTraceError::OutOfMemory);
        };
        let Ok(prepared) = self.open(alloc, event, judged) else {
            drop(events);
            return Err(ChromeTraceError::OutOfMemory);
        };
        Ok(DrawnEvent { events, prepared })
    }

    /// Draws an event that was judged.
    fn draw<S: OutputSpec>(
        &self,
        alloc: Global,
        event: &TestEventSummary<S>,
        judged: &JudgedEvent,
    ) -> Result<Vec<TraceEvent>, AllocError>
        requires { IsJudged self.now.tracker
            (trace_input self.now.group_by self.now.tracker.binaries (plain event.now)) judged.now }
        ensures { IfOk result
            (λ events. map event_value events.items ≡ draws self.now (plain event.now)) }
    {
        draw_event(
            alloc,
            &self.version,
            self.group_by,
            &self.tracker,
            &self.known,
            judged,
            event,
        )
    }

    /// Opens an event that was judged, and makes room for what it makes known.
    fn open<S: OutputSpec>(
        &mut self,
        alloc: Global,
        event: &TestEventSummary<S>,
        judged: JudgedEvent,
    ) -> Result<PreparedEvent, AllocError>
        requires { IsJudged self.old.tracker
            (trace_input self.old.group_by self.old.tracker.binaries (plain event.now)) judged }
        ensures ok { IfOk result (IsPrepared self.old (plain event.now) self.new) }
        ensures err { OnErr result (StaysSame self.old self.new) }
    {
        let flow = self.tracker.next_flow();
        let Ok(news) = self.known.prepare(alloc, flow, &judged.started, event) else {
            drop(judged);
            return Err(AllocError);
        };
        match self
            .tracker
            .open_started(alloc, self.group_by, event, judged)
        {
            Ok(opened) => Ok(PreparedEvent { opened, news }),
            Err(AllocError) => {
                self.known.let_go(news);
                Err(AllocError)
            }
        }
    }

    /// Accepts an event that was prepared. It takes no memory.
    pub fn accept<S: OutputSpec>(&mut self, event: &TestEventSummary<S>, prepared: PreparedEvent)
        requires numbered { prepared.opened.number ≡ suc self.old.tracker.number }
        requires room { HasRoom prepared.news self.old.known }
        ensures { (before : Tracer)
            → IsPrepared before (plain event.now) self.old prepared
            → Advances before (plain event.now) self.new }
    {
        self.tracker.advance(event, prepared.opened);
        self.known.take(prepared.news);
    }

    /// Lets an event go that was prepared. It takes no memory.
    pub fn let_go<S: OutputSpec>(&mut self, event: &TestEventSummary<S>, prepared: PreparedEvent)
        ensures { (before : Tracer)
            → IsPrepared before (plain event.now) self.old prepared
            → StaysSame before self.new }
    {
        self.tracker.take_back(event, prepared.opened);
        self.known.let_go(prepared.news);
    }
}
