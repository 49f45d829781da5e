//! What a viewer wants to know of a run, as one JSON object.
ghost use Rattle.std.specs.Prelude.{◌≡◌, ◌++◌, ◌-◌, [], ◌∷◌, codes, IfOk, OnOk, length, ⊤};
ghost use Rattle.std.specs.Prelude.{string_bytes};
ghost use Rattle.serde_json.specs.Written.{compact_text};
ghost use Rattle.rec_json.specs.Tokens.{value_tokens};
ghost use Rattle.rec_forms.specs.Lists.{list_value};
ghost use Rattle.rec_forms.specs.ObjectWriting.{Writes};
ghost use Rattle.rec_forms.specs.Shape.{field, optional};
ghost use Rattle.rec_forms.specs.Times.{stamp_value};
ghost use Rattle.rec_view.specs.Acts.{acts};
ghost use Rattle.rec_view.specs.Counts.{AreCounts};
ghost use Rattle.rec_view.specs.Instants.{TellsInstants};
ghost use Rattle.rec_view.specs.Rows.{rows, rows_of};
ghost use Rattle.rec_view.specs.Scripts.{script_acts, scripts};
ghost use Rattle.rec_view.specs.ShownGaps.{AreGaps};
ghost use Rattle.rec_view.specs.Slices.{pauses};
ghost use Rattle.rec_view.specs.Tests.{verdicts};
ghost use Rattle.rec_view.specs.Unnamed.{unnamed};
ghost use Rattle.rec_view_json.specs.Told.{cancels, finishes_run, instant_at, is_slow, starts_run};
ghost use Rattle.rec_view_json.specs.Views.{counts_value, event_if, history_of, script_value};
ghost use Rattle.rec_view_json.specs.Views.{slice_value, some_values, test_value, view_value};

use crate::counts::with_counts;
use crate::lists::{with_list, with_some};
use crate::marks::Mark;
use crate::positions::{instant_at, last_instant};
use crate::scripts::ScriptWriter;
use crate::slices::SliceWriter;
use crate::tests::TestWriter;
use rec_events::{RecordingSpec, TestEventSummary};
use rec_forms::{Form, ObjectWriter};
use rec_json::JsonText;
use rec_view::{Instants, RunView, ShownGaps, view_events};
use std::alloc::{AllocError, Global};

/// Writes what a viewer wants to know of a run as compact JSON, as `docs/FORMATS.md#view` describes
/// it. The events may be any in any order, and `run` is what is said of the run beside them.
///
/// # Errors
///
/// `AllocError` if memory runs out.
pub fn view_text<R: Form>(
    alloc: Global,
    run: &R,
    events: &[TestEventSummary<RecordingSpec>],
) -> Result<String, AllocError>
    ensures { IfOk result
        (λ s. string_bytes s ≡ compact_text (view_value (R.value_of run.now) events.now)) }
{
    let mut text = JsonText::new(alloc);
    write_events(alloc, &mut text, run, events)?;
    Ok(text.into_text())
}

/// Writes the view of a run.
fn write_events<R: Form>(
    alloc: Global,
    text: &mut JsonText,
    run: &R,
    events: &[TestEventSummary<RecordingSpec>],
) -> Result<(), AllocError>
    ensures { OnOk result
        (text.new ≡ text.old ++ value_tokens (view_value (R.value_of run.now) events.now)) }
{
    let view = view_events(alloc, events)?;
    let result = write_view(alloc, text, run, events, &view);
    drop(view);
    result
}

/// Writes what a view says of a run.
fn write_view<R: Form>(
    alloc: Global,
    text: &mut JsonText,
    run: &R,
    events: &[TestEventSummary<RecordingSpec>],
    view: &RunView,
) -> Result<(), AllocError>
    requires tests { rows view.now.tests ≡ rows_of (acts events.now) }
    requires scripts { view.now.scripts ≡ scripts (script_acts events.now) }
    requires counts { AreCounts (verdicts (acts events.now)) view.now.counts }
    requires unnamed { view.now.unnamed ≡ unnamed events.now }
    ensures { OnOk result
        (text.new ≡ text.old ++ value_tokens (view_value (R.value_of run.now) events.now)) }
{
    let gaps = ShownGaps::new(alloc, events)?;
    let result = write_cut(alloc, text, run, events, view, &gaps);
    drop(gaps);
    result
}

/// Writes what a view says of a run, whose gaps are known.
fn write_cut<R: Form>(
    alloc: Global,
    text: &mut JsonText,
    run: &R,
    events: &[TestEventSummary<RecordingSpec>],
    view: &RunView,
    gaps: &ShownGaps,
) -> Result<(), AllocError>
    requires tests { rows view.now.tests ≡ rows_of (acts events.now) }
    requires scripts { view.now.scripts ≡ scripts (script_acts events.now) }
    requires counts { AreCounts (verdicts (acts events.now)) view.now.counts }
    requires unnamed { view.now.unnamed ≡ unnamed events.now }
    requires gaps { AreGaps (history_of events.now) gaps.now }
    ensures { OnOk result
        (text.new ≡ text.old ++ value_tokens (view_value (R.value_of run.now) events.now)) }
{
    let instants = Instants::new(alloc, events)?;
    let result = write_object(alloc, text, run, events, view, gaps, &instants);
    drop(instants);
    result
}

/// Writes the object of a view.
#[tactic(auto, unfolding(crate::specs::Views::view_value))]
fn write_object<R: Form>(
    alloc: Global,
    text: &mut JsonText,
    run: &R,
    events: &[TestEventSummary<RecordingSpec>],
    view: &RunView,
    gaps: &ShownGaps,
    instants: &Option<Instants>,
) -> Result<(), AllocError>
    requires tests { rows view.now.tests ≡ rows_of (acts events.now) }
    requires scripts { view.now.scripts ≡ scripts (script_acts events.now) }
    requires counts { AreCounts (verdicts (acts events.now)) view.now.counts }
    requires unnamed { view.now.unnamed ≡ unnamed events.now }
    requires gaps { AreGaps (history_of events.now) gaps.now }
    requires instants { TellsInstants (history_of events.now) instants.now }
    ensures { OnOk result
        (text.new ≡ text.old ++ value_tokens (view_value (R.value_of run.now) events.now)) }
{
    let object = ObjectWriter::begin(alloc, text);
    let object = with_ends(object, alloc, text, events, view)?;
    let object = with_pauses(object, alloc, text, events, gaps)?;
    let object = with_run(object, alloc, text, run, events)?;
    let object = with_scripts(object, alloc, text, events, view, gaps, instants)?;
    let starts = "setup-script-started";
    let object = with_some(object, alloc, text, starts, &Mark::ScriptStart, events)?;
    let object = with_some(object, alloc, text, "slow", &Mark::Slow, events)?;
    let object = with_tests(object, alloc, text, events, view, gaps, instants)?;
    object.end(text)
}

/// Writes where the run begins and ends, by what it is cancelled, and how many tests it has.
fn with_ends(
    object: ObjectWriter,
    alloc: Global,
    text: &mut JsonText,
    events: &[TestEventSummary<RecordingSpec>],
    view: &RunView,
) -> Result<ObjectWriter, AllocError>
    requires counts { AreCounts (verdicts (acts events.now)) view.now.counts }
    requires unnamed { view.now.unnamed ≡ unnamed events.now }
    ensures { IfOk result (λ w. Writes object text.old w text.new
        (optional (codes "begin") stamp_value (instant_at events.now 0)
        ∷ field (codes "cancelled") (some_values (event_if cancels) events.now)
        ∷ field (codes "counts") (counts_value (verdicts (acts events.now)) (unnamed events.now))
        ∷ optional (codes "end") stamp_value (instant_at events.now (length events.now - 1)) ∷ [])
        ⊤) }
{
    let begin = instant_at(events, 0);
    let end = last_instant(events);
    let object = object.optional(text, "begin", &begin);
    let object = with_some(object, alloc, text, "cancelled", &Mark::Cancelled, events)?;
    let object = with_counts(object, alloc, text, &view.counts, view.unnamed)?;
    Ok(object.optional(text, "end", &end))
}

/// Writes the pauses of a run.
fn with_pauses(
    object: ObjectWriter,
    alloc: Global,
    text: &mut JsonText,
    events: &[TestEventSummary<RecordingSpec>],
    gaps: &ShownGaps,
) -> Result<ObjectWriter, AllocError>
    requires { AreGaps (history_of events.now) gaps.now }
    ensures { IfOk result (λ w. Writes object text.old w text.new
        (field (codes "pauses")
        (list_value (slice_value events.now) (pauses (history_of events.now))) ∷ []) ⊤) }
{
    let pauses = gaps.pauses(alloc)?;
    let writer = SliceWriter { events };
    with_list(object, alloc, text, "pauses", &writer, pauses.as_slice())
}

/// Writes what is said of a run, and the events with which it finishes and starts.
fn with_run<R: Form>(
    object: ObjectWriter,
    alloc: Global,
    text: &mut JsonText,
    run: &R,
    events: &[TestEventSummary<RecordingSpec>],
) -> Result<ObjectWriter, AllocError>
    ensures { IfOk result (λ w. Writes object text.old w text.new
        (field (codes "run") (R.value_of run.now)
        ∷ field (codes "run-finished") (some_values (event_if finishes_run) events.now)
        ∷ field (codes "run-started") (some_values (event_if starts_run) events.now) ∷ [])
        ⊤) }
{
    let object = object.field(text, "run", run);
    let object = with_some(
        object,
        alloc,
        text,
        "run-finished",
        &Mark::RunFinish,
        events,
    )?;
    with_some(object, alloc, text, "run-started", &Mark::RunStart, events)
}

/// Writes the setup scripts of a run.
fn with_scripts(
    object: ObjectWriter,
    alloc: Global,
    text: &mut JsonText,
    events: &[TestEventSummary<RecordingSpec>],
    view: &RunView,
    gaps: &ShownGaps,
    instants: &Option<Instants>,
) -> Result<ObjectWriter, AllocError>
    requires scripts { view.now.scripts ≡ scripts (script_acts events.now) }
    requires gaps { AreGaps (history_of events.now) gaps.now }
    requires instants { TellsInstants (history_of events.now) instants.now }
    ensures { IfOk result (λ w. Writes object text.old w text.new
        (field (codes "scripts")
        (list_value (script_value events.now) (scripts (script_acts events.now))) ∷ []) ⊤) }
{
    let writer = ScriptWriter {
        events,
        gaps,
        instants,
    };
    with_list(
        object,
        alloc,
        text,
        "scripts",
        &writer,
        view.scripts.as_slice(),
    )
}

/// Writes the tests of a run.
fn with_tests(
    object: ObjectWriter,
    alloc: Global,
    text: &mut JsonText,
    events: &[TestEventSummary<RecordingSpec>],
    view: &RunView,
    gaps: &ShownGaps,
    instants: &Option<Instants>,
) -> Result<ObjectWriter, AllocError>
    requires tests { rows view.now.tests ≡ rows_of (acts events.now) }
    requires gaps { AreGaps (history_of events.now) gaps.now }
    requires instants { TellsInstants (history_of events.now) instants.now }
    ensures { IfOk result (λ w. Writes object text.old w text.new
        (field (codes "tests")
        (list_value (test_value events.now) (rows_of (acts events.now))) ∷ []) ⊤) }
{
    let writer = TestWriter {
        events,
        gaps,
        instants,
    };
    with_list(object, alloc, text, "tests", &writer, view.tests.as_slice())
}
