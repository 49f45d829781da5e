//! The walk over the events of a run.
ghost use Rattle.std.specs.Prelude.{◌≡◌, ℕ, List, Some, slice_get, length};
ghost use Rattle.rec_spans.specs.Plain.{PlainEvent, plain};
ghost use Rattle.rec_slots.specs.Refusals.{Reports};
ghost use Rattle.rec_slots.specs.Walked.{HasWalked, IsWalked, Walks};

use crate::attempts::Attempts;
use crate::beats::next_beat;
use crate::phases::RunPhase;
use crate::report::{SlotError, SlotReport};
use crate::times::Times;
use rec_events::{RecordingSpec, TestEventSummary};
use rec_spans::SpanTracker;
use std::alloc::Global;

/// Keeps what is known of a run and its slots by the events so far.
#[derive(Drop)]
pub(crate) struct Walk {
    tracker: SpanTracker,
    run: RunPhase,
    times: Times,
    attempts: Attempts,
}

impl Walk {
    /// Begins a walk.
    pub(crate) fn new(alloc: Global) -> Walk
        ensures { (events : List PlainEvent) → HasWalked events 0 result }
    {
        Walk {
            tracker: SpanTracker::new(alloc),
            run: RunPhase::Before,
            times: Times::new(alloc),
            attempts: Attempts::new(alloc),
        }
    }

    /// Takes the next event.
    ///
    /// # Errors
    ///
    /// Answers why the events are refused, or `OutOfMemory`.
    pub(crate) fn take(
        &mut self,
        alloc: Global,
        event: &TestEventSummary<RecordingSpec>,
    ) -> Result<(), SlotError>
        requires { IsWalked (plain event.now) self.old }
        ensures { (events : List PlainEvent) (n : ℕ)
            → slice_get events n ≡ Some (plain event.now)
            → HasWalked events n self.old
            → Walks events n self.new result }
    {
        let beat = next_beat(alloc, &mut self.tracker, event)?;
        let goes_on = self.run.is_running();
        self.times.take(beat, goes_on)?;
        self.attempts.take(beat, goes_on)?;
        self.run = self.run.after(beat.change);
        Ok(())
    }

    /// Reports how the slots were used, after the last event.
    pub(crate) fn report(&self, alloc: Global) -> Result<SlotReport, SlotError>
        requires { (events : List PlainEvent) × HasWalked events (length events) self.now }
        ensures { (events : List PlainEvent)
            → HasWalked events (length events) self.now
            → Reports events result }
    {
        if !self.run.is_over() {
            return Err(SlotError::NotOneRun);
        }
        if let Some(event) = self.attempts.first() {
            return Err(SlotError::AttemptOutside { event });
        }
        if let Some(event) = self.times.fell {
            return Err(SlotError::StampFell { event });
        }
        Ok(self.times.clocks.report(alloc)?)
    }
}
