//! Builds the text of a trace, event by event.
ghost use Rattle.std.specs.Prelude.{◌≡◌, List, [], map, IfOk};
ghost use Rattle.semver.specs.Parse.{Parts};
ghost use Rattle.rec_trace_events.specs.EventTexts.{event_value};
ghost use Rattle.rec_spans.specs.declared.settings.ChromeTraceGroupBy.{ChromeTraceGroupBy};
ghost use Rattle.rec_spans.specs.Plain.{PlainEvent, plain};
ghost use Rattle.rec_trace.specs.declared.settings.ChromeTraceMessageFormat.{
  ChromeTraceMessageFormat,
};
ghost use Rattle.rec_trace.specs.declared.tracer.Tracer.{Tracer};
ghost use Rattle.rec_trace.specs.KnownNews.{HasRoom};
ghost use Rattle.rec_trace.specs.PrintedTimeline.{PrintsTimeline};
ghost use Rattle.rec_trace.specs.Steps.{IsNumbered, IsPrepared};
ghost use Rattle.rec_trace.specs.Traces.{HasTraced, Prints, Traces, trace_text};

use crate::printed::Printed;
use crate::settings::ChromeTraceMessageFormat;
use crate::tracer::{DrawnEvent, Tracer};
use rec_events::{OutputSpec, TestEventSummary, Version};
use rec_spans::{ChromeTraceError, ChromeTraceGroupBy};
use std::alloc::{AllocError, Global};

/// Builds the text of a trace event by event, from events with outputs of either form. The trace
/// events of each are printed at once.
#[derive(Drop)]
pub struct PrintedTrace {
    tracer: Tracer,
    printed: Printed,
}

impl PrintedTrace {
    /// Makes the text of a trace without an event so far, of runs by this version of the runner,
    /// which is written in this form.
    pub fn new(
        alloc: Global,
        version: Version,
        group_by: ChromeTraceGroupBy,
        message_format: ChromeTraceMessageFormat,
    ) -> PrintedTrace
        ensures { HasTraced message_format group_by version [] result }
    {
        PrintedTrace {
            tracer: Tracer::new(alloc, version, group_by),
            printed: Printed::new(alloc, message_format),
        }
    }

    /// Adds the trace events of an event.
    ///
    /// # Errors
    ///
    /// Answers the first cause for which the event is refused, in the order that `ChromeTraceError`
    /// gives, or `OutOfMemory` where memory ran out.
    /// The trace is then that of the events before, and may be built on.
    pub fn process_event<S: OutputSpec>(
        &mut self,
        alloc: Global,
        event: &TestEventSummary<S>,
    ) -> Result<(), ChromeTraceError>
        ensures { (format : ChromeTraceMessageFormat) (g : ChromeTraceGroupBy) (version : Parts)
            (events : List PlainEvent)
            → HasTraced format g version events self.old
            → Traces format g version events (plain event.now) self.new result }
    {
        let drawn = self.tracer.prepare(alloc, event)?;
        self.print(alloc, event, drawn)
    }

    /// Prints what an event draws, and accepts the event.
    fn print<S: OutputSpec>(
        &mut self,
        alloc: Global,
        event: &TestEventSummary<S>,
        drawn: DrawnEvent,
    ) -> Result<(), ChromeTraceError>
        requires numbered { IsNumbered drawn.prepared self.old.tracer }
        requires room { HasRoom drawn.prepared.news self.old.tracer.known }
        ensures { (before : Tracer)
            → IsPrepared before (plain event.now) self.old.tracer drawn.prepared
            → Prints (map event_value drawn.events.items) before (plain event.now) self.old self.new
            result }
    {
        let DrawnEvent { events, prepared } = drawn;
        let put = self.printed.put_all(alloc, &events);
        drop(events);
        match put {
            Ok(()) => {
                self.tracer.accept(event, prepared);
                Ok(())
            }
            Err(AllocError) => {
                self.tracer.let_go(event, prepared);
                Err(ChromeTraceError::OutOfMemory)
            }
        }
    }

    /// Drops the trace. It is a call so that this is proved once, here: where a crate drops a trace
    /// in place, its own proof goes over each part of the trace again.
    pub fn discard(self) {
        drop(self);
    }

    /// Writes the text of the trace, in UTF-8.
    ///
    /// # Errors
    ///
    /// Fails only where memory ran out.
    pub fn into_bytes(self, alloc: Global) -> Result<Vec<u8>, AllocError>
        ensures written { IfOk result
            (λ text. (format : ChromeTraceMessageFormat) (g : ChromeTraceGroupBy) (version : Parts)
            (events : List PlainEvent)
            → HasTraced format g version events self
            → text.items ≡ trace_text format g version events) }
        ensures printed { IfOk result
            (λ text. (format : ChromeTraceMessageFormat) (g : ChromeTraceGroupBy) (version : Parts)
            (events : List PlainEvent)
            → HasTraced format g version events self
            → PrintsTimeline version g events text.items) }
    {
        let PrintedTrace { tracer, printed } = self;
        let text = printed.into_bytes(alloc, tracer.version(), tracer.last_run());
        drop(tracer);
        text
    }
}
