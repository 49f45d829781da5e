//! Laws of the whole trace, as clauses of functions that do nothing.
ghost use Rattle.std.specs.Prelude.{◌≡◌, List, [], ◌∷◌, ◌++◌, None};
ghost use Rattle.semver.specs.Parse.{Parts};
ghost use Rattle.rec_spans.specs.declared.settings.ChromeTraceGroupBy as group_by;
ghost use Rattle.rec_spans.specs.declared.settings.ChromeTraceGroupBy.TheVariants as grouped_by;
ghost use Rattle.rec_spans.specs.History.{TraceState, after, next_marks, state_after, trace_marks};
ghost use Rattle.rec_spans.specs.Kinds.{history, trace_input};
ghost use Rattle.rec_spans.specs.Past.{next_flow};
ghost use Rattle.rec_spans.specs.Plain.{PlainEvent};
ghost use Rattle.rec_spans.specs.Positions.{IsOnce};
ghost use Rattle.rec_spans.specs.Refusals.{events_refusal};
ghost use Rattle.rec_trace.specs.Arrows.{ArrowsPair, arrow_ends, event_ends};
ghost use Rattle.rec_trace.specs.Converting.{KeepsDrawn};
ghost use Rattle.rec_trace.specs.Drawn.{marks_of};
ghost use Rattle.rec_trace.specs.Groupings.{all_ungrouped};
ghost use Rattle.rec_trace.specs.Histories.{known_of, known_after_event, trace_drawn};
ghost use Rattle.rec_trace.specs.Known as knowns;
ghost use Rattle.rec_trace.specs.Naming.{all_named, newly_named};
ghost use Rattle.rec_trace.specs.Places.{IsKnownByPlaces, failed_attempts};
ghost use Rattle.rec_trace.specs.Table.{drawn};

// The laws of the marks of a trace.
pub use rec_spans::laws::{open_at, pauses, prefixes, slices, timeline, times};

/// States what a history draws and makes known with one event more, and that each prefix of a
/// history that has a trace has one too, and draws the first of what the whole draws.
pub fn drawn_prefixes()
    ensures drawn { (version : Parts) (group : group_by.ChromeTraceGroupBy)
        (events : List PlainEvent) (event : PlainEvent)
        → trace_drawn version group (events ++ event ∷ [])
        ≡ trace_drawn version group events
        ++ drawn version group (state_after (after [] (history group events)))
        (known_of group events) event }
    ensures known { (group : group_by.ChromeTraceGroupBy) (events : List PlainEvent)
        (event : PlainEvent)
        → known_of group (events ++ event ∷ [])
        ≡ known_after_event group (after [] (history group events)) event (known_of group events) }
    ensures kept { (version : Parts) (group : group_by.ChromeTraceGroupBy)
        (events : List PlainEvent)
        → events_refusal group events ≡ None
        → KeepsDrawn version group events }
{}

/// States that the begins and ends of slices in a trace are the marks of its events: of the next
/// event after any state, whatever is known, and of a whole history.
pub fn marks()
    ensures event { (version : Parts) (group : group_by.ChromeTraceGroupBy) (state : TraceState)
        (known : knowns.Known) (event : PlainEvent)
        → marks_of (drawn version group state known event)
        ≡ next_marks state (trace_input group state.binaries event) }
    ensures history { (version : Parts) (group : group_by.ChromeTraceGroupBy)
        (events : List PlainEvent)
        → marks_of (trace_drawn version group events) ≡ trace_marks (history group events) }
{}

/// States that the arrows of a history that has a trace pair: each number starts at most once, and
/// each finish has a start of its number before it, for the same test,
/// and no other finish of its number.
pub fn arrows()
    ensures { (version : Parts) (group : group_by.ChromeTraceGroupBy) (events : List PlainEvent)
        → events_refusal group events ≡ None
        → ArrowsPair (arrow_ends (trace_drawn version group events)) }
{}

/// States that both groupings draw the same of any events but for the names of processes and rows,
/// the pids of the rows of tests, and the names of their slices.
pub fn groupings()
    ensures { (version : Parts) (events : List PlainEvent)
        → all_ungrouped (trace_drawn version grouped_by.Binary events)
        ≡ all_ungrouped (trace_drawn version grouped_by.Slot events) }
{}

/// States what earlier events decide of a trace, by their positions: the count of running tests,
/// the run that started last, the group and the arrow of each test, and which rows are named.
pub fn known_by_places()
    ensures { (group : group_by.ChromeTraceGroupBy) (events : List PlainEvent)
        → IsKnownByPlaces group events (known_of group events) }
{}

/// States which processes and rows an event names, after any state and whatever is known: the row
/// that it asks for and its process, each where it wasn't named before.
/// So a whole history names each once.
pub fn names()
    ensures event { (version : Parts) (group : group_by.ChromeTraceGroupBy) (state : TraceState)
        (known : knowns.Known) (event : PlainEvent)
        → all_named (drawn version group state known event)
        ≡ newly_named known.is_named (knowns.row_to_name (trace_input group state.binaries event)) }
    ensures once { (version : Parts) (group : group_by.ChromeTraceGroupBy)
        (events : List PlainEvent)
        → IsOnce (all_named (trace_drawn version group events)) }
{}

/// States which arrows an event starts and finishes, after any state and whatever is known: a
/// failed attempt starts one for each open span of its test, with the next number, which is how
/// many attempts failed before; and an attempt that starts as a retry finishes the pending arrow of
/// its test.
pub fn arrows_of_events()
    ensures ends { (version : Parts) (group : group_by.ChromeTraceGroupBy) (state : TraceState)
        (known : knowns.Known) (event : PlainEvent)
        → arrow_ends (drawn version group state known event)
        ≡ event_ends state.spans state.next_flow known.arrow event.kind }
    ensures number { (group : group_by.ChromeTraceGroupBy) (events : List PlainEvent)
        → next_flow (after [] (history group events)) ≡ failed_attempts events }
{}
