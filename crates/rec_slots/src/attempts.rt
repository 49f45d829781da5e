//! The attempts that aren't known to be inside the run.
ghost use Rattle.std.specs.Prelude.{◌≡◌, ℕ, suc, List, OnOk};
ghost use Rattle.rec_spans.specs.Plain.{PlainEvent};
ghost use Rattle.rec_slots.specs.Beats.{IsBeat};
ghost use Rattle.rec_slots.specs.Runs.{is_running};
ghost use Rattle.rec_slots.specs.Walked.{EndsOnSlot, FindsFirst, HasNoted, StartsOn};

use crate::beats::{Beat, Change};
use std::alloc::{AllocError, Global};
use std::collections::{BTreeMap, BTreeSet};

/// Notes the attempts that aren't known to be inside the run,
/// by the numbers of the events that start them.
#[derive(Drop)]
pub(crate) struct Attempts {
    /// Those that haven't both started and ended while the run went on.
    starts: BTreeSet<u64>,
    /// Those that started while the run went on, and are open, by their slots.
    running: BTreeMap<u64, u64>,
}

impl Attempts {
    /// Notes nothing.
    pub(crate) fn new(alloc: Global) -> Attempts
        ensures { (events : List PlainEvent) → HasNoted events 0 result }
    {
        Attempts {
            starts: BTreeSet::new(alloc),
            running: BTreeMap::new(alloc),
        }
    }

    /// Returns the number of the first event that starts one, where there is one.
    pub(crate) fn first(&self) -> Option<u64>
        ensures { (events : List PlainEvent) (n : ℕ)
            → HasNoted events n self.now
            → FindsFirst events n result }
    {
        self.starts.first().copied()
    }

    /// Takes what the next event changes, by whether the run goes on before it.
    pub(crate) fn take(&mut self, beat: Beat, goes_on: bool) -> Result<(), AllocError>
        ensures ok { OnOk result
            ((events : List PlainEvent) (n : ℕ) → IsBeat events n beat
            → goes_on ≡ is_running events n
            → HasNoted events n self.old → HasNoted events (suc n) self.new) }
    {
        match beat.change {
            Change::Starts(slot) => self.start(beat.number, slot, goes_on),
            Change::Ends(slot) => {
                self.end(slot, goes_on);
                Ok(())
            }
            _ => Ok(()),
        }
    }

    /// Notes an attempt that starts on a slot.
    fn start(&mut self, number: u64, slot: u64, goes_on: bool) -> Result<(), AllocError>
        ensures ok { OnOk result (StartsOn number slot goes_on self.old self.new) }
    {
        self.starts.insert(number)?;
        if goes_on {
            self.running.insert(slot, number)?;
        }
        Ok(())
    }

    /// Takes the attempt out that ends on a slot, if it started while the run went on,
    /// and the run still does.
    fn end(&mut self, slot: u64, goes_on: bool)
        ensures ends { EndsOnSlot slot goes_on self.old self.new }
    {
        if !goes_on {
            return;
        }
        if let Some(number) = self.running.remove(&slot) {
            self.starts.remove(&number);
        }
    }
}
