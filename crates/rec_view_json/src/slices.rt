//! Slices, each as the two instants between which it lasts.
ghost use Rattle.std.specs.Option.{unwrap_or};
ghost use Rattle.std.specs.Prelude.{◌≡◌, ◌≤◌, [], ◌∷◌, codes, IfOk, OnOk, Option, length};
ghost use Rattle.std.specs.Prelude.{option_map, option_to_list, ⊤};
ghost use Rattle.rec_json.specs.Tokens.{with_items};
ghost use Rattle.rec_forms.specs.ObjectWriting.{Writes};
ghost use Rattle.rec_forms.specs.Shape.{field};
ghost use Rattle.rec_forms.specs.Times.{stamp_value};
ghost use Rattle.rec_view.specs.declared.instants.Instants.{Instants};
ghost use Rattle.rec_view.specs.ShownGaps.{AreGaps, pairs};
ghost use Rattle.rec_view.specs.Slices.{all_slices};
ghost use Rattle.rec_view_json.specs.Fitting.{Fits};
ghost use Rattle.rec_view_json.specs.Views.{active_told, history_of, slices_value};

use crate::lists::{ItemWriter, SomeWriter, with_list, write_some};
use crate::positions::moment_at;
use rec_events::{RecordingSpec, Stamp, TestEventSummary};
use rec_forms::{Form, ObjectWriter};
use rec_json::JsonText;
use rec_view::{Instants, ShownGaps, Slice};
use std::alloc::{AllocError, Global};

/// Writes the instants at positions among these events.
#[derive(Clone, Copy)]
struct InstantWriter<'e> {
    events: &'e [TestEventSummary<RecordingSpec>],
}

/// Writes slices of what these events tell.
#[derive(Clone, Copy)]
pub(crate) struct SliceWriter<'e> {
    pub(crate) events: &'e [TestEventSummary<RecordingSpec>],
}

/// Writes an instant, if there is one.
fn write_instant(
    alloc: Global,
    text: &mut JsonText,
    instant: Option<Stamp>,
) -> Result<(), AllocError>
    ensures { OnOk result
        (text.new ≡ with_items text.old (option_to_list (option_map stamp_value instant))) }
{
    match instant {
        Some(instant) => instant.write(alloc, text),
        None => Ok(()),
    }
}

impl<'e> SomeWriter for InstantWriter<'e> {
    ghost use Rattle.std.specs.Prelude.{option_map};
    ghost use Rattle.rec_forms.specs.Times.{stamp_value};
    ghost use Rattle.rec_view_json.specs.Told.{moment_at};

    type Item = usize;

    ghost value_of = { λ writer at. option_map stamp_value (moment_at writer.events.now at) };

    fn write(&self, alloc: Global, text: &mut JsonText, item: &usize) -> Result<(), AllocError> {
        write_instant(alloc, text, moment_at(self.events, *item))
    }
}

impl<'e> ItemWriter for SliceWriter<'e> {
    ghost use Rattle.rec_view.specs.ShownGaps.{pair};
    ghost use Rattle.rec_view_json.specs.Views.{slice_value};

    type Item = Slice;

    ghost takes = { λ _ _. Unit {0} };

    ghost value_of = { λ writer slice. slice_value writer.events.now (pair slice) };

    fn write(&self, alloc: Global, text: &mut JsonText, item: &Slice) -> Result<(), AllocError> {
        let instants = InstantWriter {
            events: self.events,
        };
        let ends = [item.from, item.to];
        write_some(&instants, alloc, text, &ends)
    }
}

/// Cuts what lasts from one event to another, or past the last one, into slices.
fn slices_of(
    alloc: Global,
    events: &[TestEventSummary<RecordingSpec>],
    gaps: &ShownGaps,
    from: u64,
    to: Option<u64>,
) -> Result<Vec<Slice>, AllocError>
    requires kept { AreGaps (history_of events.now) gaps.now }
    requires many { length gaps.now.shown.items ≡ length events.now }
    requires order { from ≤ unwrap_or to (length events.now) }
    requires within { unwrap_or to (length events.now) ≤ length events.now }
    ensures { IfOk result (λ cut. pairs cut.items
        ≡ all_slices (history_of events.now) from (unwrap_or to (length events.now))) }
{
    let to = to.unwrap_or(events.len() as u64) as usize;
    gaps.slices(alloc, from as usize, to)
}

/// Writes the slices of what lasts from one event to another, or past the last one, as a field.
pub(crate) fn with_slices(
    object: ObjectWriter,
    alloc: Global,
    text: &mut JsonText,
    events: &[TestEventSummary<RecordingSpec>],
    gaps: &ShownGaps,
    from: u64,
    to: Option<u64>,
) -> Result<ObjectWriter, AllocError>
    requires { (told : Option Instants) × Fits events.now gaps.now told from to }
    ensures { IfOk result (λ w. Writes object text.old w text.new
        (field (codes "slices") (slices_value events.now from to) ∷ []) ⊤) }
{
    let slices = slices_of(alloc, events, gaps, from, to)?;
    let writer = SliceWriter { events };
    with_list(object, alloc, text, "slices", &writer, slices.as_slice())
}

/// Returns for how long what lasts from one event to another, or past the last one, is active.
pub(crate) fn active_at(
    alloc: Global,
    events: &[TestEventSummary<RecordingSpec>],
    gaps: &ShownGaps,
    instants: &Option<Instants>,
    from: u64,
    to: Option<u64>,
) -> Result<Option<i64>, AllocError>
    requires { Fits events.now gaps.now instants.now from to }
    ensures { IfOk result (λ time. time ≡ active_told events.now from to) }
{
    let Some(instants) = instants else {
        return Ok(None);
    };
    let slices = slices_of(alloc, events, gaps, from, to)?;
    Ok(instants.active(slices.as_slice()))
}
