//! A target in memory, which fails at the calls that it is given.
ghost use Rattle.std.specs.Prelude.{◌≡◌, ◌≤◌, ◌+◌, ◌⊎◌, [], ◌∷◌, Contains};
ghost use Rattle.std.specs.Prelude.{OnOk, OnErr, vec_len, vec_capacity};
ghost use Rattle.rec_container.specs.Causes.{Counts, HasCause, next_count};
ghost use Rattle.rec_trace_events.specs.EventTexts.{event_value};
ghost use Rattle.rec_trace.specs.Targets.{AreIn, Stays, Takes};

use crate::target::{TargetFailed, TraceTarget};
use rec_trace_events::TraceEvent;
use std::alloc::{AllocError, Global};

/// Keeps the trace events that it gets. Calls of `put` are numbered from 1.
#[derive(Drop)]
pub struct VecTarget {
    events: Vec<TraceEvent>,
    faults: u64,
    calls: u64,
    fail_at: Vec<u64>,
}

impl VecTarget {
    /// Makes a target without events, faults or spare places,
    /// which fails at the calls with these numbers.
    pub fn new(alloc: Global, fail_at: Vec<u64>) -> VecTarget
        ensures events { AreIn result [] }
        ensures faults { result.faults ≡ 0 }
        ensures calls { result.calls ≡ 0 }
        ensures fail_at { result.fail_at.items ≡ fail_at.items }
    {
        VecTarget {
            events: Vec::new(alloc),
            faults: 0,
            calls: 0,
            fail_at,
        }
    }

    /// Makes at least `room` spare places. Puts that find one take no memory.
    ///
    /// # Errors
    ///
    /// Fails only where memory ran out. The places are then those before.
    pub fn reserve(&mut self, room: usize) -> Result<(), AllocError>
        ensures ok { OnOk result (vec_len self.new.events + room ≤ vec_capacity self.new.events) }
        ensures err { OnErr result (vec_capacity self.new.events ≡ vec_capacity self.old.events) }
        ensures events { self.new.events.items ≡ self.old.events.items }
        ensures faults { self.new.faults ≡ self.old.faults }
        ensures calls { self.new.calls ≡ self.old.calls }
        ensures rules { self.new.fail_at ≡ self.old.fail_at }
    {
        self.events.reserve(room)
    }

    /// Returns the trace events that it got, in their order.
    pub fn events(&self) -> &[TraceEvent]
        ensures { result.now ≡ self.now.events.items }
    {
        &self.events
    }
}

impl TraceTarget for VecTarget {
    ghost holds = { AreIn };

    ghost faults = { λ t. t.faults };

    fn put(&mut self, event: TraceEvent) -> Result<(), TargetFailed>
        ensures taken { OnOk result (Takes AreIn self.old self.new (event_value event ∷ [])) }
        ensures same { OnErr result (Stays AreIn self.old self.new) }
        ensures cause { HasCause self.old.faults self.new.faults result }
        ensures counted { Counts self.old.faults self.new.faults result }

        // The call's number, when it fails, and what it takes of the spare places.
        ensures numbered { self.new.calls ≡ next_count self.old.calls }
        ensures unlisted { OnOk result (Contains self.old.fail_at.items self.new.calls → ⊥) }
        ensures failed { OnErr result
            (Contains self.old.fail_at.items self.new.calls
            ⊎ (vec_capacity self.old.events ≤ vec_len self.old.events)) }
        ensures place { OnOk result (vec_len self.new.events ≡ vec_len self.old.events + 1) }
        ensures room { vec_capacity self.old.events ≤ vec_capacity self.new.events }
        ensures rules { self.new.fail_at ≡ self.old.fail_at }
    {
        self.calls = self.calls.saturating_add(1);
        if self.fail_at.contains(&self.calls) {
            drop(event);
            self.faults = self.faults.saturating_add(1);
            return Err(TargetFailed);
        }
        let Ok(()) = self.events.push(event) else {
            self.faults = self.faults.saturating_add(1);
            return Err(TargetFailed);
        };
        Ok(())
    }
}
