//! Puts the trace events of an event, one after the other.
ghost use Rattle.std.specs.Prelude.{map, OnOk, OnErr};
ghost use Rattle.rec_container.specs.Causes.{Counts, HasCause};
ghost use Rattle.rec_trace_events.specs.EventTexts.{event_value};
ghost use Rattle.rec_trace.specs.Targets.{Takes, TakesPart};

use crate::target::{TargetFailed, TraceTarget};
use rec_trace_events::TraceEvent;

/// Puts events in their order, up to the first at which the target fails.
/// It takes no memory itself.
pub fn put_all<T: TraceTarget>(target: &mut T, events: Vec<TraceEvent>) -> Result<(), TargetFailed>
    ensures all { OnOk result (Takes T.holds target.old target.new (map event_value events.items)) }
    ensures part { OnErr result
        (TakesPart T.holds target.old target.new (map event_value events.items)) }
    ensures cause { HasCause (T.faults target.old) (T.faults target.new) result }
    ensures counted { Counts (T.faults target.old) (T.faults target.new) result }
{
    for event in events {
        target.put(event)?;
    }
    Ok(())
}
