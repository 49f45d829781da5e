//! What takes the events of a trace, one at a time.
ghost use Rattle.std.specs.Prelude.{List, ℕ, [], ◌∷◌, OnOk, OnErr};
ghost use Rattle.serde_json.specs.Data.{Data};
ghost use Rattle.rec_container.specs.Causes.{Counts, HasCause};
ghost use Rattle.rec_trace_events.specs.EventTexts.{event_value};
ghost use Rattle.rec_trace.specs.Targets.{Stays, Takes};

use rec_trace_events::TraceEvent;
use thiserror::Error;

/// Says that a target failed.
#[derive(Clone, Copy, PartialEq, Eq, Debug, Drop, Error)]
#[error("the target failed")]
pub struct TargetFailed;

/// Takes the events of a trace, one at a time.
pub trait TraceTarget {
    /// Says that it got exactly these trace events so far, where that is known.
    ghost holds: { Self → List Data → Type 0 };

    /// Counts how often it has failed. The count stays at u64's greatest once it is there.
    ghost faults: { Self → ℕ };

    /// Puts an event after those that it got.
    ///
    /// # Errors
    ///
    /// `TargetFailed` means that the target failed: it counted one fault,
    /// and it has the events that it had.
    fn put(&mut self, event: TraceEvent) -> Result<(), TargetFailed>
        ensures taken { OnOk result (Takes holds self.old self.new (event_value event ∷ [])) }
        ensures same { OnErr result (Stays holds self.old self.new) }
        ensures cause { HasCause (faults self.old) (faults self.new) result }
        ensures counted { Counts (faults self.old) (faults self.new) result };
}
