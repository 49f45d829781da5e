//! Attempts, with their instants, slices and statuses.
use crate::lists::ItemWriter;
use crate::positions::{end_at, instant_at, retry_at, slot_at, status_at};
use crate::slices::{active_at, with_slices};
use crate::statuses::with_status;
use rec_events::{RecordingSpec, TestEventSummary};
use rec_forms::ObjectWriter;
use rec_json::JsonText;
use rec_view::{Attempt, Instants, ShownGaps};
use std::alloc::{AllocError, Global};

/// Writes attempts that stand among these events.
#[derive(Clone, Copy)]
pub(crate) struct AttemptWriter<'e> {
    pub(crate) events: &'e [TestEventSummary<RecordingSpec>],
    pub(crate) gaps: &'e ShownGaps,
    pub(crate) instants: &'e Option<Instants>,
}

impl<'e> ItemWriter for AttemptWriter<'e> {
    ghost use Rattle.rec_view_json.specs.Fitting.{Fits};
    ghost use Rattle.rec_view_json.specs.Views.{attempt_value};

    type Item = Attempt;

    ghost takes = { λ writer attempt.
        Fits writer.events.now writer.gaps.now writer.instants.now attempt.from attempt.to };

    ghost value_of = { λ writer attempt. attempt_value writer.events.now attempt };

    #[tactic(auto, unfolding(crate::specs::Views::attempt_value))]
    fn write(&self, alloc: Global, text: &mut JsonText, item: &Attempt) -> Result<(), AllocError> {
        let events = self.events;
        let from = item.from as usize;
        let ended = end_at(events, item.to);
        let retry = retry_at(events, from);
        let slot = slot_at(events, from);
        let started = instant_at(events, from);
        let status = status_at(events, item.to);
        let active = active_at(alloc, events, self.gaps, self.instants, item.from, item.to)?;
        let object = ObjectWriter::begin(alloc, text);
        let object = object.optional(text, "active", &active);
        let object = object.optional(text, "ended", &ended);
        let object = object.optional(text, "retry-data", &retry);
        let object = with_slices(object, alloc, text, events, self.gaps, item.from, item.to)?;
        let object = object.optional(text, "slot", &slot);
        let object = object.optional(text, "started", &started);
        let object = with_status(object, alloc, text, "status", status)?;
        object.end(text)
    }
}
