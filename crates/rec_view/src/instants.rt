//! The instants of the events of a run, and how long what lasts is active.
ghost use Rattle.std.specs.Int.Signed.{◌≤ℤ◌};
ghost use Rattle.std.specs.Prelude.{◌≡◌, ◌^◌, ◌-ℤ◌, ℕ, pos, IfOk, List, map};
ghost use Rattle.rec_spans.specs.declared.settings.ChromeTraceGroupBy.TheVariants as group;
ghost use Rattle.rec_spans.specs.Kinds.{history};
ghost use Rattle.rec_spans.specs.Past.{TraceInput};
ghost use Rattle.rec_spans.specs.Plain.{plain};
ghost use Rattle.rec_view.specs.Instants.{HasInstants, TellsInstants, i64_of, time_of_slices};
ghost use Rattle.rec_view.specs.ShownGaps.{pair, pairs};
ghost use Rattle.rec_view.specs.Slices.{active, all_slices, lasting, moment};

use crate::shown_gaps::Slice;
use rec_events::{OutputSpec, TestEventSummary};
use std::alloc::{AllocError, Global};

/// Tells the instants of the events of a run, in microseconds since the Unix epoch.
#[derive(Drop)]
pub struct Instants {
    micros: Vec<i64>,
}

impl Instants {
    /// Takes down the instants of these events, which may be any in any order; `None` where one of
    /// them is no i64 in microseconds, for which a trace refuses the events.
    ///
    /// # Errors
    ///
    /// `AllocError` means that there was not enough memory.
    pub fn new<S: OutputSpec>(
        alloc: Global,
        events: &[TestEventSummary<S>],
    ) -> Result<Option<Instants>, AllocError>
        ensures { IfOk result (TellsInstants (history group.Slot (map plain events.now))) }
    {
        let mut micros = Vec::new(alloc);
        for event in events {
            let Some(instant) = event.timestamp.microseconds() else {
                return Ok(None);
            };
            micros.push(instant)?;
        }
        Ok(Some(Instants { micros }))
    }

    /// Returns the instant of the event at a position; past the last event that of the last one.
    pub fn moment(&self, at: usize) -> i64
        ensures { (history : List TraceInput) → HasInstants history self.now
            → result ≡ moment history at }
    {
        let index = at.min(self.micros.len().saturating_sub(1));
        let instant = self.micros.get(index).copied();
        instant.unwrap_or(0)
    }

    /// Returns how long a slice is.
    fn lasting(&self, slice: Slice) -> i128
        ensures is { (history : List TraceInput) → HasInstants history self.now
            → result ≡ lasting (moment history) (pair slice) }
        ensures low { (pos 0 -ℤ pos (2 ^ 64)) ≤ℤ result }
        ensures high { result ≤ℤ pos (2 ^ 64) }
    {
        let from = self.moment(slice.from);
        let to = self.moment(slice.to);
        to as i128 - from as i128
    }

    /// Returns how long slices are in all.
    fn time_of(&self, slices: &[Slice]) -> i128
        ensures { (history : List TraceInput) → HasInstants history self.now
            → result ≡ time_of_slices history (pairs slices.now) }
    {
        let mut time: i128 = 0;
        for slice in slices {
            time += self.lasting(*slice);
        }
        time
    }

    /// Returns for how long what lasts from one event to another is active, by its slices: the time
    /// outside pauses. It is below 0 where the clock was set back. `None` means that it is no i64.
    pub fn active(&self, slices: &[Slice]) -> Option<i64>
        ensures { (history : List TraceInput) (a z : ℕ) → HasInstants history self.now
            → pairs slices.now ≡ all_slices history a z
            → result ≡ i64_of (active history a z) }
    {
        let time = self.time_of(slices);
        i64::try_from(time).ok()
    }
}
