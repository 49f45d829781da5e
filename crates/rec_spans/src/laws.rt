//! Laws of the marks of a trace, as clauses of functions that do nothing.
ghost use Rattle.std.specs.Prelude.{◌≡◌, ◌↔◌, ◌≤◌, ℕ, ℤ, true, List, []};
ghost use Rattle.std.specs.Prelude.{◌++◌, length, slice_get, Some, None};
ghost use Rattle.rec_events.specs.declared.events.TestEventSummary.{TestEventSummary};
ghost use Rattle.rec_events.specs.EventMaps.{event_with};
ghost use Rattle.rec_spans.specs.declared.settings.ChromeTraceGroupBy as group_by;
ghost use Rattle.rec_spans.specs.declared.spans.Phase.TheVariants as phases;
ghost use Rattle.rec_spans.specs.declared.spans.Span as spans;
ghost use Rattle.rec_spans.specs.Groupings.{GroupingsAgree};
ghost use Rattle.rec_spans.specs.History.{after, marks_after, trace_marks};
ghost use Rattle.rec_spans.specs.Kinds as kinds;
ghost use Rattle.rec_spans.specs.Past.{TraceInput, event_marks, is_paused, mark, open_spans};
ghost use Rattle.rec_spans.specs.Plain.{PlainEvent, plain};
ghost use Rattle.rec_spans.specs.Positions.{Has, IsInPause, IsOpen};
ghost use Rattle.rec_spans.specs.Positions.{SliceBegins, SliceEnds, past_at};
ghost use Rattle.rec_spans.specs.Prefixes.{KeepsPrefixes};
ghost use Rattle.rec_spans.specs.Refusals.{events_refusal, history_refusal};
ghost use Rattle.rec_spans.specs.Timeline.{IsTimeline};
ghost use Rattle.rec_spans.specs.Times.{TimesAddUp};

use rec_events::OutputSpec;

/// States that the past at a position of a history is in a pause exactly where the last event
/// before it that is a pause or a continuation is a pause.
pub fn pauses()
    ensures { (history : List TraceInput) (i : ℕ)
        → i ≤ length history
        → (IsInPause history i ↔ (is_paused (past_at history i) ≡ true)) }
{}

/// States that a span is open after the past at a position exactly where some start of it before
/// the position has no stop of its key between.
pub fn open_at()
    ensures { (history : List TraceInput) (i : ℕ) (s : spans.Span)
        → i ≤ length history
        → (IsOpen history i s ↔ Has (open_spans (past_at history i)) s) }
{}

/// States that the marks of an event are the begins and the ends of the slices of all spans there,
/// at its instant.
pub fn slices()
    ensures begins { (history : List TraceInput) (i : ℕ) (input : TraceInput)
        → slice_get history i ≡ Some input
        → (s : spans.Span) (t : ℤ)
        → Has (event_marks (past_at history i) input) (mark phases.Begin t s)
        ↔ ((t ≡ input.at) × SliceBegins history s i) }
    ensures ends { (history : List TraceInput) (i : ℕ) (input : TraceInput)
        → slice_get history i ≡ Some input
        → (s : spans.Span) (t : ℤ)
        → Has (event_marks (past_at history i) input) (mark phases.End t s)
        ↔ ((t ≡ input.at) × SliceEnds history s i) }
{}

/// States that the marks of a history of events that has a trace are a timeline.
pub fn timeline()
    ensures { (group : group_by.ChromeTraceGroupBy) (events : List PlainEvent)
        → events_refusal group events ≡ None
        → IsTimeline (kinds.history group events) }
{}

/// States that each prefix of a history that has a trace has one too, and that its marks are the
/// first of those of the whole.
pub fn prefixes()
    ensures events { (group : group_by.ChromeTraceGroupBy) (events : List PlainEvent)
        → events_refusal group events ≡ None
        → KeepsPrefixes group events }
    ensures accepted { (history more : List TraceInput)
        → history_refusal (history ++ more) ≡ None
        → history_refusal history ≡ None }
    ensures marks { (history more : List TraceInput)
        → trace_marks (history ++ more)
        ≡ trace_marks history ++ marks_after (after [] history) more }
{}

/// States that the marks of each span that ends add up to its time less that of its pause windows,
/// whether instants rise or fall.
pub fn times()
    ensures { (group : group_by.ChromeTraceGroupBy) (events : List PlainEvent)
        → events_refusal group events ≡ None
        → TimesAddUp (kinds.history group events) }
{}

/// States that both groupings give the same marks of events but for the pids and the names of
/// tests, and refuse alike fewer than 2^63 events.
pub fn groupings()
    ensures { (events : List PlainEvent) → GroupingsAgree events }
{}

/// States that the outputs of events are not drawn:
/// an event is plain whatever becomes of its outputs.
pub fn outputs_are_not_drawn<S: OutputSpec, T: OutputSpec>()
    ensures { (becomes : S.ChildOutput → T.ChildOutput) (event : TestEventSummary S S.ChildOutput)
        → plain (event_with {T = T} becomes event) ≡ plain event }
{}
