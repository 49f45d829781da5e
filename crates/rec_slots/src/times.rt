//! The times of the slots of a run, event by event.
ghost use Rattle.std.specs.Prelude.{◌≡◌, ℕ, suc, List, OnOk};
ghost use Rattle.rec_spans.specs.Plain.{PlainEvent};
ghost use Rattle.rec_slots.specs.Beats.{IsBeat};
ghost use Rattle.rec_slots.specs.Runs.{is_running};
ghost use Rattle.rec_slots.specs.Walked.{CanTake, HasPassed, HasTimed};

use crate::beats::{Beat, Change};
use crate::clocks::Clocks;
use std::alloc::{AllocError, Global};

/// Keeps the times of a run and its slots, up to the first instant that falls.
#[derive(Drop)]
pub(crate) struct Times {
    /// The instant of the last event, in nanoseconds since the beginning of 1970.
    last: i128,
    /// The number of the first event of the run whose instant is below that of the event before.
    pub(crate) fell: Option<u64>,
    pub(crate) clocks: Clocks,
}

impl Times {
    /// Makes the times of a run without an event.
    pub(crate) fn new(alloc: Global) -> Times
        ensures { (events : List PlainEvent) → HasTimed events 0 result }
    {
        Times {
            last: 0,
            fell: None,
            clocks: Clocks::new(alloc),
        }
    }

    /// Takes the next event, by whether the run goes on before it.
    pub(crate) fn take(&mut self, beat: Beat, goes_on: bool) -> Result<(), AllocError>
        requires { CanTake beat goes_on self.old }
        ensures ok { OnOk result
            ((events : List PlainEvent) (n : ℕ) → IsBeat events n beat
            → goes_on ≡ is_running events n
            → HasTimed events n self.old → HasTimed events (suc n) self.new) }
    {
        self.pass(beat, goes_on);
        self.last = beat.at;
        match beat.change {
            Change::Starts(slot) => self.clocks.begin(slot),
            Change::Ends(slot) => {
                self.clocks.end(slot);
                Ok(())
            }
            _ => Ok(()),
        }
    }

    /// Takes the time since the last event, if the run goes on.
    fn pass(&mut self, beat: Beat, goes_on: bool)
        requires { CanTake beat goes_on self.old }
        ensures { (events : List PlainEvent) (n : ℕ)
            → IsBeat events n beat
            → goes_on ≡ is_running events n
            → HasTimed events n self.old → HasPassed events n self.new }
    {
        if !goes_on {
            return;
        }
        if self.fell.is_some() {
            return;
        }
        if beat.at < self.last {
            self.fell = Some(beat.number);
            return;
        }
        self.clocks.pass(beat.at.abs_diff(self.last), beat.in_pause);
    }
}
