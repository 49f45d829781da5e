//! How the slots of a run were used, and why that can't be said.
ghost use Rattle.std.specs.Prelude.{◌≡◌};
ghost use Rattle.rec_slots.specs.declared.report.SlotError.TheVariants.{OutOfMemory};
ghost use Rattle.rec_slots.specs.Refusals.{slot_refusal_error};

use rec_events::Items;
use rec_spans::ChromeTraceError;
use std::alloc::AllocError;
use std::fmt;
use thiserror::Error;

/// Says how a slot was used, in nanoseconds. The three add up to the length of the run.
#[derive(Clone, Copy, Drop)]
pub struct SlotUsage {
    /// The slot's number among all slots.
    pub slot: u64,
    /// For how long an attempt was open on the slot outside pauses.
    pub busy: u128,
    /// For how long the run was in a pause.
    pub paused: u128,
    /// For how long no attempt was open on the slot outside pauses.
    pub idle: u128,
}

/// Says how long a run was, and how each of its slots was used.
#[derive(Drop)]
pub struct SlotReport {
    /// The instant of the run's end less that of its start, in nanoseconds.
    pub run_length: u128,
    /// Each slot on which an attempt started, in rising order.
    pub slots: Items<SlotUsage>,
}

/// Says why there is no report of the slots of a run. Events are numbered from 1. Where several
/// causes hold the first is answered, in the order in which they stand here;
/// but want of memory may come at any time.
#[derive(Drop, Error)]
pub enum SlotError {
    /// A trace of the events would be refused.
    #[error("{0}")]
    Refused(ChromeTraceError),
    /// There isn't one start of a run and one end after it.
    #[error("the events aren't those of one run from its start to its end")]
    NotOneRun,
    /// The event starts an attempt that doesn't start after the run's start and end before its end.
    /// It is the first that does.
    #[error("event {event} starts an attempt that isn't inside the run")]
    AttemptOutside { event: u64 },
    /// The event, which stands after the run's start up to its end, has an instant below that of
    /// the event before it. It is the first that has.
    #[error("the instant of event {event} is below that of the event before")]
    StampFell { event: u64 },
    /// There was not enough memory.
    #[error("out of memory")]
    OutOfMemory,
}

/// Prints the error as `Display` does.
impl fmt::Debug for SlotError {
    fn fmt<W: fmt::Write>(&self, f: &mut fmt::Formatter<W>) -> fmt::Result {
        fmt::Display::fmt(self, f)
    }
}

impl From<AllocError> for SlotError {
    ghost from_gives = { λ _ e. e ≡ OutOfMemory };

    fn from(_error: AllocError) -> Self {
        SlotError::OutOfMemory
    }
}

impl From<ChromeTraceError> for SlotError {
    ghost from_gives = { λ refusal e. e ≡ slot_refusal_error refusal };

    fn from(refusal: ChromeTraceError) -> Self {
        match refusal {
            ChromeTraceError::OutOfMemory => SlotError::OutOfMemory,
            _ => SlotError::Refused(refusal),
        }
    }
}
