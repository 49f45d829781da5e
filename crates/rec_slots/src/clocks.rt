//! The times of the slots of a run.
ghost use Rattle.std.specs.List.Sorted.{IsStrictlySortedBy};
ghost use Rattle.std.specs.List.{AllByRecursion};
ghost use Rattle.std.specs.Map.{keys_of};
ghost use Rattle.std.specs.Ordering.{nat_cmp};
ghost use Rattle.std.specs.Prelude.{◌≡◌, ◌+◌, ◌<◌, ◌^◌, ℕ, [], true, false, map};
ghost use Rattle.std.specs.Prelude.{if◌then◌else◌, IfOk, OnOk, ◌&&◌, not, ◌==◌, ◌||◌};
ghost use Rattle.rec_slots.specs.Clocks.{AreClocks, IsClock, IsTimed};
ghost use Rattle.rec_slots.specs.Clocks.{has_clock, is_open, slot_time, worked};
ghost use Rattle.rec_slots.specs.declared.report.SlotUsage.{SlotUsage};

use crate::report::{SlotReport, SlotUsage};
use rec_events::Items;
use std::alloc::{AllocError, Global};
use std::collections::BTreeMap;

/// Holds the time of a slot, in nanoseconds: that of attempts that ended,
/// and when the open one began.
#[derive(Clone, Copy, Drop)]
pub(crate) struct SlotClock {
    pub(crate) busy: u128,
    /// How long the run had been outside pauses when the open attempt began.
    pub(crate) since: Option<u128>,
}

/// Holds the time of a run in pauses and outside them,
/// and that of each slot on which an attempt began.
#[derive(Drop)]
pub(crate) struct Clocks {
    pub(crate) paused: u128,
    pub(crate) active: u128,
    pub(crate) slots: BTreeMap<u64, SlotClock>,
}

impl SlotClock {
    /// Returns for how long attempts were open on the slot,
    /// where the run was outside pauses for so long.
    fn worked(&self, active: u128) -> u128
        requires { IsClock active self.now }
        ensures { result ≡ worked active self.now }
    {
        match self.since {
            Some(since) => self.busy + (active - since),
            None => self.busy,
        }
    }
}

impl Clocks {
    /// Makes the clocks of a run without time so far.
    pub(crate) fn new(alloc: Global) -> Clocks
        ensures clocks { AreClocks result }
        ensures none { result.slots.entries ≡ [] }
        ensures active { result.active ≡ 0 }
        ensures paused { result.paused ≡ 0 }
    {
        Clocks {
            paused: 0,
            active: 0,
            slots: BTreeMap::new(alloc),
        }
    }

    /// Takes the time of a gap between two events.
    pub(crate) fn pass(&mut self, gap: u128, in_pause: bool)
        requires clocks { AreClocks self.old }
        requires room { self.old.paused + self.old.active + gap < 2 ^ 128 }
        ensures clocks { AreClocks self.new }
        ensures paused { self.new.paused ≡ self.old.paused + (if in_pause then gap else 0) }
        ensures active { self.new.active ≡ self.old.active + (if in_pause then 0 else gap) }
        ensures times { (slot : ℕ)
            → slot_time self.new slot
            ≡ slot_time self.old slot + (if not in_pause && is_open self.old slot then gap else 0) }
        ensures same { self.new.slots ≡ self.old.slots }
    {
        if in_pause {
            self.paused += gap;
        } else {
            self.active += gap;
        }
    }

    /// Begins an attempt on a slot on which none is open.
    pub(crate) fn begin(&mut self, slot: u64) -> Result<(), AllocError>
        requires clocks { AreClocks self.old }
        requires free { is_open self.old slot ≡ false }
        ensures clocks { AreClocks self.new }
        ensures times { (s : ℕ) → slot_time self.new s ≡ slot_time self.old s }
        ensures open { OnOk result
            ((s : ℕ) → is_open self.new s ≡ (s == slot || is_open self.old s)) }
        ensures known { OnOk result
            ((s : ℕ) → has_clock self.new s ≡ (s == slot || has_clock self.old s)) }
        ensures totals { (self.new.active ≡ self.old.active) × (self.new.paused ≡ self.old.paused) }
    {
        let busy = match self.slots.get(&slot) {
            Some(clock) => clock.busy,
            None => 0,
        };
        let since = Some(self.active);
        self.slots.insert(slot, SlotClock { busy, since })?;
        Ok(())
    }

    /// Ends the attempt on a slot, if one is open.
    pub(crate) fn end(&mut self, slot: u64)
        requires clocks { AreClocks self.old }
        ensures clocks { AreClocks self.new }
        ensures times { (s : ℕ) → slot_time self.new s ≡ slot_time self.old s }
        ensures open { (s : ℕ) → is_open self.new s ≡ (not (s == slot) && is_open self.old s) }
        ensures known { (s : ℕ) → has_clock self.new s ≡ has_clock self.old s }
        ensures totals { (self.new.active ≡ self.old.active) × (self.new.paused ≡ self.old.paused) }
    {
        let Some(clock) = self.slots.get_mut(&slot) else {
            return;
        };
        if let Some(since) = clock.since {
            clock.busy += self.active - since;
            clock.since = None;
        }
    }

    /// Says how a slot was used.
    fn usage(&self, slot: u64, clock: &SlotClock) -> SlotUsage
        requires clock { IsClock self.now.active clock.now }
        requires room { self.now.paused + self.now.active < 2 ^ 128 }
        ensures slot { result.slot ≡ slot }
        ensures busy { result.busy ≡ worked self.now.active clock.now }
        ensures paused { result.paused ≡ self.now.paused }
        ensures sum { result.busy + result.paused + result.idle
            ≡ self.now.paused + self.now.active }
    {
        let busy = clock.worked(self.active);
        let length = self.paused + self.active;
        SlotUsage {
            slot,
            busy,
            paused: self.paused,
            idle: length - busy - self.paused,
        }
    }

    /// Reports how long the run was, and how each slot was used.
    pub(crate) fn report(&self, alloc: Global) -> Result<SlotReport, AllocError>
        requires clocks { AreClocks self.now }
        requires room { self.now.paused + self.now.active < 2 ^ 128 }
        ensures length { IfOk result (λ r. r.run_length ≡ self.now.paused + self.now.active) }
        ensures used { IfOk result (λ r. AllByRecursion (IsTimed self.now) r.slots) }
        ensures slots { IfOk result
            (λ r. map (λ (u : SlotUsage). u.slot) r.slots ≡ keys_of self.now.slots.entries) }
        ensures rise { IfOk result
            (λ r. IsStrictlySortedBy nat_cmp (map (λ (u : SlotUsage). u.slot) r.slots)) }
    {
        // that the slots rise rests on the order of the map
        let _ordered = self.slots.len();
        let mut usages = Vec::new(alloc);
        for (slot, clock) in &self.slots {
            usages.push(self.usage(*slot, clock))?;
        }
        Ok(SlotReport {
            run_length: self.paused + self.active,
            slots: Items::new(usages),
        })
    }
}
