//! Laws of events. The functions do nothing: their contracts are what they are for.
ghost use Rattle.std.specs.Iterator.{Drains, Yields, YieldsThen};
ghost use Rattle.std.specs.List.{AllByRecursion};
ghost use Rattle.std.specs.Prelude.{◌≡◌, ◌↔◌, ◌++◌, List, map, ℕ, None, Some, Ok, Err, true};
ghost use Rattle.serde_json.specs.Data.{Data};
ghost use Rattle.serde_json.specs.Written.{compact_text};
ghost use Rattle.rec_events.specs.declared.events.TestEventSummary.{TestEventSummary};
ghost use Rattle.rec_events.specs.declared.statuses.ExecuteStatus.{ExecuteStatus};
ghost use Rattle.rec_forms.specs.GivesWellFormed.{GivesWellFormed};
ghost use Rattle.rec_forms.specs.Outputs.{
  IsStoredOutputs,
  stored_outputs_form,
  stored_outputs_value,
};
ghost use Rattle.rec_codec.specs.declared.line_events.LineError.TheVariants.{OutOfMemory};
ghost use Rattle.rec_codec.specs.declared.line_events.LineError.{LineError};
ghost use Rattle.rec_codec.specs.Event.{IsLogged, LiveEvent, RecordedEvent, live_event_of};
ghost use Rattle.rec_codec.specs.Event.{recorded_event_of, log_events, log_text};
ghost use Rattle.rec_codec.specs.EventForms.{event_form, event_value, kind_loaded, IsEvent};
ghost use Rattle.rec_codec.specs.LineItems.{GivesNext};
ghost use Rattle.rec_codec.specs.LineReading.{GivesUpTo, before_fault, events_before_fault};
ghost use Rattle.rec_codec.specs.LineReading.{first_line_fault, line_items};
ghost use Rattle.rec_codec.specs.Lines.{NumberedLine, lines, numbered};
ghost use Rattle.rec_codec.specs.Live.{is_loaded, live_form, live_value, IsLive};
ghost use Rattle.rec_codec.specs.Status.{status_value, status_value_3_0};

use crate::OutputForm;
use rec_events::TestEventSummary;

/// States that a log of well-formed events is read as these events.
pub fn log_reads()
    ensures { (events : List RecordedEvent)
        → AllByRecursion (IsEvent IsStoredOutputs) events
        → log_events (lines (log_text events)) ≡ Some events }
{}

/// States that the text of a well-formed event in a log is UTF-8, and is read as this event.
pub fn well_formed_events_are_logged()
    ensures { (e : RecordedEvent) → IsEvent IsStoredOutputs e → IsLogged e }
{}

/// States that the value of a well-formed event is read as this event:
/// no field is lost between the two.
pub fn well_formed_events_read_back()
    ensures live { (e : LiveEvent)
        → IsEvent IsLive e
        → event_form live_form (event_value live_value e) ≡ Some e }
    ensures recorded { (e : RecordedEvent)
        → IsEvent IsStoredOutputs e
        → event_form stored_outputs_form (event_value stored_outputs_value e) ≡ Some e }
{}

/// States that an event that is read, from any value and from any text, is well-formed: its numbers
/// are in range, its texts are UTF-8, its lists of attempts have an item,
/// and its outputs are there.
pub fn read_events_are_well_formed()
    ensures live { GivesWellFormed {T = LiveEvent} (IsEvent IsLive) (event_form live_form) }
    ensures recorded { GivesWellFormed {T = RecordedEvent} (IsEvent IsStoredOutputs)
        (event_form stored_outputs_form) }
    ensures live_text { (text : List ℕ) (e : LiveEvent)
        → live_event_of text ≡ Some e
        → IsEvent IsLive e }
    ensures recorded_text { (text : List ℕ) (e : RecordedEvent)
        → recorded_event_of text ≡ Some e
        → IsEvent IsStoredOutputs e }
{}

/// States that an attempt whose cpu time isn't known is written as stores of version 3.0 have it,
/// byte for byte.
pub fn older_attempts_stay<S: OutputForm>()
    ensures { (s : ExecuteStatus S S.ChildOutput) → s.cpu_time ≡ None
        → compact_text (status_value S.output_value s)
        ≡ compact_text (status_value_3_0 S.output_value s) }
{}

/// States that an event that is read as one of a session, from any value and from any text, has its
/// outputs: none of them is one that was not loaded.
pub fn read_events_are_loaded()
    ensures value { (v : Data) (e : LiveEvent)
        → event_form live_form v ≡ Some e
        → kind_loaded is_loaded e.kind ≡ true }
    ensures text { (text : List ℕ) (e : LiveEvent)
        → live_event_of text ≡ Some e
        → kind_loaded is_loaded e.kind ≡ true }
{}

/// States that an iterator over lines gives what the lines give. Where it gives events and ends, no
/// line fails, and these are all events. Where it gives events and then a fault other than want of
/// memory, these stand before the first line that fails, and this is its fault. And events that it
/// gives are the first ones of those before that line.
pub fn lines_give_items<S: OutputForm>()
    ensures drained { (events : List (TestEventSummary S S.ChildOutput)) (all : List NumberedLine)
        → Drains (GivesNext (event_form S.output_form)) all (map Ok events)
        → GivesUpTo (event_form S.output_form) all events None }
    ensures failed { (events : List (TestEventSummary S S.ChildOutput))
        (all rest : List NumberedLine) (fault : LineError)
        → YieldsThen (GivesNext (event_form S.output_form)) all (map Ok events) (Some (Err fault))
        rest
        → (fault ≡ OutOfMemory → ⊥)
        → GivesUpTo (event_form S.output_form) all events (Some fault) }
    ensures yielded { (events : List (TestEventSummary S S.ChildOutput))
        (all rest : List NumberedLine)
        → Yields (GivesNext (event_form S.output_form)) all (map Ok events) rest
        → (more : List (TestEventSummary S S.ChildOutput))
        × (before_fault (line_items (event_form S.output_form) all) ≡ events ++ more) }
{}

/// States that a log has events exactly where no line of it fails.
/// They are those before the first line that fails.
pub fn logs_without_fault()
    ensures { (n : ℕ) (all : List (List ℕ)) (events : List RecordedEvent)
        → (log_events all ≡ Some events)
        ↔ ((events_before_fault (numbered n all) ≡ events)
        × (first_line_fault (numbered n all) ≡ None)) }
{}
