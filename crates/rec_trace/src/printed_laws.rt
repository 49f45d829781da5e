//! Laws of the JSON of a trace, as a viewer reads it. The functions do nothing:
//! their contracts are what they are for.
ghost use Rattle.std.specs.List.{flat_map};
ghost use Rattle.std.specs.Prelude.{◌≡◌, ℕ, List, [], ◌++◌, map, Some, None};
ghost use Rattle.semver.specs.Parse.{Parts};
ghost use Rattle.serde_json.specs.Data.{Data};
ghost use Rattle.rec_forms.specs.Writable.{IsWritable};
ghost use Rattle.rec_trace_events.specs.declared.rows.Row.{Row};
ghost use Rattle.rec_trace_events.specs.ReadEvents.{event_read, events_read, slices_read};
ghost use Rattle.rec_spans.specs.declared.settings.ChromeTraceGroupBy.TheVariants.{Binary, Slot};
ghost use Rattle.rec_spans.specs.declared.settings.ChromeTraceGroupBy.{ChromeTraceGroupBy};
ghost use Rattle.rec_spans.specs.History.{TraceState, after, next_marks, trace_marks};
ghost use Rattle.rec_spans.specs.Kinds.{history, trace_input};
ghost use Rattle.rec_spans.specs.Past.{in_row, is_paused, open_spans};
ghost use Rattle.rec_spans.specs.Plain.{PlainEvent};
ghost use Rattle.rec_spans.specs.Refusals.{events_refusal};
ghost use Rattle.rec_spans.specs.Turns.{left_open};
ghost use Rattle.rec_trace.specs.declared.settings.ChromeTraceMessageFormat.{
  ChromeTraceMessageFormat,
};
ghost use Rattle.rec_trace.specs.Drawn.{Drawn, all_events, marks_of};
ghost use Rattle.rec_trace.specs.Histories.{trace_drawn};
ghost use Rattle.rec_trace.specs.Kept.{AreWritable};
ghost use Rattle.rec_trace.specs.Known.{Known};
ghost use Rattle.rec_trace.specs.ReadArrows.{ReadArrowsPair, arrows_read, ends_read};
ghost use Rattle.rec_trace.specs.ReadDrawn.{all_read, drawn_arrow, read_mark};
ghost use Rattle.rec_trace.specs.ReadGroupings.{all_ungrouped_read};
ghost use Rattle.rec_trace.specs.ReadPlaces.{ArrowsAtSlices};
ghost use Rattle.rec_trace.specs.ReadTexts.{events_in};
ghost use Rattle.rec_trace.specs.ReadTurns.{ReadInTurns, read_on_row};
ghost use Rattle.rec_trace.specs.Table.{drawn};
ghost use Rattle.rec_trace.specs.Texts.{text_in, trace_value};

/// States that each event of a trace can be read, and as what.
pub fn readable()
    ensures read { (ds : List Drawn)
        → map event_read (all_events ds) ≡ map Some (events_read (all_events ds)) }
    ensures drawn { (ds : List Drawn) → events_read (all_events ds) ≡ all_read ds }
{}

/// States that the begins and ends that are read of a trace are its marks,
/// so no other event is read as one.
pub fn slices()
    ensures drawn { (ds : List Drawn) → slices_read (all_events ds) ≡ map read_mark (marks_of ds) }
    ensures history { (version : Parts) (group : ChromeTraceGroupBy) (events : List PlainEvent)
        → slices_read (all_events (trace_drawn version group events))
        ≡ map read_mark (trace_marks (history group events)) }
    ensures event { (version : Parts) (group : ChromeTraceGroupBy) (state : TraceState)
        (known : Known) (event : PlainEvent)
        → slices_read (all_events (drawn version group state known event))
        ≡ map read_mark (next_marks state (trace_input group state.binaries event)) }
{}

/// States that each prefix of a history that has a trace shows the first of the events that the
/// whole shows.
pub fn prefixes()
    ensures { (version : Parts) (group : ChromeTraceGroupBy) (events : List PlainEvent)
        → events_refusal group events ≡ None
        → (xs ys : List PlainEvent) → events ≡ xs ++ ys
        → (more : List Data) × (all_events (trace_drawn version group events)
        ≡ all_events (trace_drawn version group xs) ++ more) }
{}

/// States that on each row the begins and ends that are read of a trace alternate, each end with
/// the name of its begin, and what is left open is the span that is open there.
pub fn turns()
    ensures { (version : Parts) (group : ChromeTraceGroupBy) (events : List PlainEvent) (row : Row)
        → events_refusal group events ≡ None
        → ReadInTurns None
        (read_on_row row (slices_read (all_events (trace_drawn version group events))))
        (left_open (is_paused (after [] (history group events)))
        (in_row row (open_spans (after [] (history group events))))) }
{}

/// States that the starts and finishes of arrows that are read of a trace are those that are drawn,
/// so no other event is read as one, and that they pair.
pub fn arrows()
    ensures drawn { (ds : List Drawn) → arrows_read (all_events ds) ≡ flat_map drawn_arrow ds }
    ensures paired { (version : Parts) (group : ChromeTraceGroupBy) (events : List PlainEvent)
        → events_refusal group events ≡ None
        → ReadArrowsPair (ends_read (all_events (trace_drawn version group events))) }
{}

/// States that in a history with a trace each arrow that is read starts where and when a slice
/// ended before it, and finishes where and when one began before it,
/// and that the args of both slices name one test.
pub fn arrows_at_slices()
    ensures { (version : Parts) (group : ChromeTraceGroupBy) (events : List PlainEvent)
        → events_refusal group events ≡ None
        → (test : ℕ → List ℕ × List ℕ)
        × ArrowsAtSlices test [] (all_events (trace_drawn version group events)) }
{}

/// States that the text of a trace, in one line or over several, is read as its events.
pub fn texts()
    ensures { (format : ChromeTraceMessageFormat) (other : Data) (events : List Data)
        → IsWritable 8 other
        → AreWritable events
        → events_in (text_in format (trace_value other events)) ≡ Some events }
{}

/// States that both groupings show the same of any events, as it is read, but for the metadata, the
/// pids of the rows of tests, and the names of their slices.
pub fn groupings()
    ensures { (version : Parts) (events : List PlainEvent)
        → all_ungrouped_read (events_read (all_events (trace_drawn version Binary events)))
        ≡ all_ungrouped_read (events_read (all_events (trace_drawn version Slot events))) }
{}
