//! Setup scripts, with their instants, slices and statuses.
ghost use Rattle.std.specs.Prelude.{[], ◌∷◌, codes, option_map, ⊤};
ghost use Rattle.serde_json.specs.Data.{string};
ghost use Rattle.rec_forms.specs.ObjectWriting.{Writes};
ghost use Rattle.rec_forms.specs.Shape.{natural, optional};
ghost use Rattle.rec_view_json.specs.Told.{index_told, script_told, told_at};

use crate::lists::ItemWriter;
use crate::positions::{end_at, index_at, instant_at, script_at, script_status_at, stress_at};
use crate::slices::{active_at, with_slices};
use crate::statuses::with_script_status;
use rec_events::{RecordingSpec, ScriptId, TestEventSummary};
use rec_forms::ObjectWriter;
use rec_json::JsonText;
use rec_view::{Instants, ScriptView, ShownGaps};
use std::alloc::{AllocError, Global};

/// Writes setup scripts that stand among these events.
#[derive(Clone, Copy)]
pub(crate) struct ScriptWriter<'e> {
    pub(crate) events: &'e [TestEventSummary<RecordingSpec>],
    pub(crate) gaps: &'e ShownGaps,
    pub(crate) instants: &'e Option<Instants>,
}

/// Writes the name of a setup script, if there is one.
fn with_id(object: ObjectWriter, text: &mut JsonText, id: Option<&ScriptId>) -> ObjectWriter
    ensures { Writes object text.old result text.new
        (optional (codes "script-id") string (option_map (λ s. s.now) id.entry) ∷ []) ⊤ }
{
    match id {
        Some(id) => object.field(text, "script-id", id),
        None => object,
    }
}

/// Writes which setup script it is that starts at an event.
fn with_name(
    object: ObjectWriter,
    text: &mut JsonText,
    events: &[TestEventSummary<RecordingSpec>],
    from: usize,
) -> ObjectWriter
    ensures { Writes object text.old result text.new
        (optional (codes "index") natural (told_at index_told events.now from)
        ∷ optional (codes "script-id") string (told_at script_told events.now from) ∷ []) ⊤ }
{
    let index = index_at(events, from);
    let id = script_at(events, from);
    let object = object.optional(text, "index", &index);
    with_id(object, text, id)
}

impl<'e> ItemWriter for ScriptWriter<'e> {
    ghost use Rattle.rec_view_json.specs.Fitting.{Fits};
    ghost use Rattle.rec_view_json.specs.Views.{script_value};

    type Item = ScriptView;

    ghost takes = { λ writer script.
        Fits writer.events.now writer.gaps.now writer.instants.now script.from script.to };

    ghost value_of = { λ writer script. script_value writer.events.now script };

    #[tactic(auto, unfolding(crate::specs::Views::script_value))]
    fn write(
        &self,
        alloc: Global,
        text: &mut JsonText,
        item: &ScriptView,
    ) -> Result<(), AllocError> {
        let events = self.events;
        let from = item.from as usize;
        let ended = end_at(events, item.to);
        let started = instant_at(events, from);
        let status = script_status_at(events, item.to);
        let stress_index = stress_at(events, from);
        let active = active_at(alloc, events, self.gaps, self.instants, item.from, item.to)?;
        let object = ObjectWriter::begin(alloc, text);
        let object = object.optional(text, "active", &active);
        let object = object.optional(text, "ended", &ended);
        let object = with_name(object, text, events, from);
        let object = with_slices(object, alloc, text, events, self.gaps, item.from, item.to)?;
        let object = object.optional(text, "started", &started);
        let object = with_script_status(object, alloc, text, "status", status)?;
        let object = object.optional(text, "stress-index", &stress_index);
        object.end(text)
    }
}
