//! Laws of views, as clauses of functions that do nothing.
ghost use Rattle.std.specs.Option.{unwrap_or};
ghost use Rattle.std.specs.Prelude.{◌≡◌, ◌↔◌, ◌≤◌, ◌<◌, ℕ, List, [], ◌∷◌, ◌++◌, None, true};
ghost use Rattle.std.specs.Prelude.{length, map, reverse};
ghost use Rattle.rec_events.specs.declared.events.TestEventSummary.{TestEventSummary};
ghost use Rattle.rec_events.specs.declared.instances.OwnedTestInstanceId.{OwnedTestInstanceId};
ghost use Rattle.rec_events.specs.declared.statuses.ExecutionStatuses.{ExecutionStatuses};
ghost use Rattle.rec_rerun.specs.Acts.{pass};
ghost use Rattle.rec_spans.specs.declared.settings.ChromeTraceGroupBy as group_by;
ghost use Rattle.rec_spans.specs.declared.spans.Span as spans;
ghost use Rattle.rec_spans.specs.declared.spans.SpanKey.TheVariants as keys;
ghost use Rattle.rec_spans.specs.Kinds as kinds;
ghost use Rattle.rec_spans.specs.Past.{TraceInput};
ghost use Rattle.rec_spans.specs.Plain.{PlainEvent, plain};
ghost use Rattle.rec_spans.specs.Positions.{Has, IsSlice, IsSpan, IsStretch};
ghost use Rattle.rec_spans.specs.Refusals.{events_refusal};
ghost use Rattle.rec_spans.specs.Times.{Window};
ghost use Rattle.rec_view.specs.Acts as acts;
ghost use Rattle.rec_view.specs.AttemptPositions.{IsAttempt, OfOneTest, starts_attempt};
ghost use Rattle.rec_view.specs.Attempts.{cuts, end_of, starts_of};
ghost use Rattle.rec_view.specs.declared.scripts.ScriptAct.{ScriptAct};
ghost use Rattle.rec_view.specs.declared.scripts.ScriptView.{ScriptView};
ghost use Rattle.rec_view.specs.Ends.{IsEnd, at};
ghost use Rattle.rec_view.specs.Extents.{HasSpan, Lasts};
ghost use Rattle.rec_view.specs.Laws.{InOrder, SlicesAddUp};
ghost use Rattle.rec_view.specs.Open.{OneOpen, is_open, verdict_after};
ghost use Rattle.rec_view.specs.Scripts.{AreInOrder, IsScript, script_acts, scripts};
ghost use Rattle.rec_view.specs.Slices.{IsPause, all_slices, pauses, slices};
ghost use Rattle.rec_view.specs.Tests.{Place, opened, place, tests, verdict};
ghost use Rattle.rec_view.specs.Verdicts.{is_passing, verdict_of_end};

use rec_events::OutputSpec;
use rec_slots::laws::gaps_add_up;

/// States that an event more opens its tests behind those of the events before, and changes none
/// of them.
pub fn one_more()
    ensures { (before : List acts.Act) (act : acts.Act)
        → tests (before ++ act ∷ [])
        ≡ tests before ++ map (place (length before)) (opened (reverse before) act) }
{}

/// States that each test of a history stands once, in the order of the events that open them.
pub fn each_once()
    ensures { (all : List acts.Act) → InOrder (tests all) }
{}

/// States of any two positions of any history that the slices between them add up to the time
/// outside pauses, which is the later instant less the earlier less the time in pauses.
pub fn slices_add_up()
    ensures { (history : List TraceInput) (a z : ℕ) → a ≤ z → SlicesAddUp history a z }
{
    gaps_add_up();
}

/// States that at most one test of a name is open after any history, and that one is exactly where
/// the last start or end of the name is a start.
pub fn one_open()
    ensures { (all : List acts.Act) (t : OwnedTestInstanceId) → OneOpen all t }
{}

/// States what an event more makes of the verdict of a test: it changes only that of one that is
/// open, and that the event starts anew or ends.
pub fn verdict_more()
    ensures { (before : List acts.Act) (act : acts.Act) (p : Place) → p.at < length before
        → verdict (before ++ act ∷ []) p
        ≡ verdict_after act (is_open before p) p (verdict before p) }
{}

/// States that the attempts of a test are the starts of its name from its own start on. No event
/// between starts the test again or ends it.
pub fn attempts_by_position()
    ensures { (all : List acts.Act) (p : Place) → Has (tests all) p → (k : ℕ)
        → Has (starts_of all p) k ↔ IsAttempt all p k }
{}

/// States that each start and each further attempt is an attempt of exactly one test, which has its
/// name.
pub fn of_one_test()
    ensures { (all : List acts.Act) (t : OwnedTestInstanceId) (k : ℕ)
        → at (starts_attempt t) all k ≡ true → OfOneTest all t k }
{}

/// States that an attempt ends at the first later event that stops it or starts another one.
pub fn attempt_ends()
    ensures { (all : List acts.Act) (t : OwnedTestInstanceId) (k : ℕ)
        → IsEnd (cuts t) all k (end_of all t k) }
{}

/// States of a history of events that has a trace that what starts lasts as its span does: up to
/// the first stop of its key.
pub fn lasts_as_drawn()
    ensures { (group : group_by.ChromeTraceGroupBy) (events : List PlainEvent)
        → events_refusal group events ≡ None
        → (a z : ℕ) (s : spans.Span)
        → Lasts (kinds.history group events) a z s ↔ IsSpan (kinds.history group events) a z s }
{}

/// States of any events that the span of an attempt of a test lasts as the attempt does: from its
/// start to its end, or behind the last event where it has none.
pub fn attempts_as_spans<S: OutputSpec>()
    ensures { (group : group_by.ChromeTraceGroupBy)
        (events : List (TestEventSummary S S.ChildOutput)) (t : OwnedTestInstanceId) (k : ℕ)
        → at (starts_attempt t) (acts.acts events) k ≡ true
        → HasSpan (kinds.history group (map plain events)) (keys.Test t) k
        (unwrap_or (end_of (acts.acts events) t k) (length events)) }
{}

/// States that the setup scripts of a history are exactly the starts of one, each with its end: the
/// first later event that ends what has its index, or starts another one of it.
pub fn scripts_by_position()
    ensures scripts { (all : List ScriptAct) (s : ScriptView)
        → Has (scripts all) s ↔ IsScript all s }
    ensures order { (all : List ScriptAct) → AreInOrder (scripts all) }
{}

/// States of any events that the span of a setup script lasts as the script does: from its start to
/// its end, or behind the last event where it has none.
pub fn scripts_as_spans<S: OutputSpec>()
    ensures { (group : group_by.ChromeTraceGroupBy)
        (events : List (TestEventSummary S S.ChildOutput)) (s : ScriptView)
        (is : IsScript (script_acts events) s)
        → HasSpan (kinds.history group (map plain events)) (keys.Script is.index) s.from
        (unwrap_or s.to (length events)) }
{}

/// States that the slices between two positions of any history are exactly the longest stretches
/// outside pauses.
pub fn slices_are_stretches()
    ensures { (history : List TraceInput) (a z x y : ℕ) → a ≤ z → z ≤ length history
        → Has (slices history a z) (x, y) ↔ IsStretch history a z x y }
{}

/// States that the slices of what lasts from one position to another are exactly the longest
/// stretches outside pauses, and the instants at a start and at an end in a pause.
pub fn all_slices_are_slices()
    ensures { (history : List TraceInput) (a z x y : ℕ) → a ≤ z → z ≤ length history
        → Has (all_slices history a z) (x, y) ↔ IsSlice history a z x y }
{}

/// States that the pauses of a history are exactly the longest stretches of its gaps in a pause.
pub fn pauses_are_windows()
    ensures { (history : List TraceInput) (w : Window)
        → Has (pauses history) (w.from, w.to) ↔ IsPause history w }
{}

/// States that a test that ends counts as passed for a rerun exactly where its verdict is passed or
/// flaky.
pub fn as_for_a_rerun<S: OutputSpec>()
    ensures { (s : ExecutionStatuses S S.ChildOutput)
        → pass s ≡ is_passing (verdict_of_end s) }
{}
