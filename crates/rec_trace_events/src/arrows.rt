//! The arrows from failed attempts to those that follow them.
ghost use Rattle.std.specs.Prelude.{◌≡◌, IfOk};
ghost use Rattle.rec_trace_events.specs.EventTexts.{event_value};
ghost use Rattle.rec_trace_events.specs.TraceEvents.{arrow_finish, arrow_start};

use crate::args::NoArgs;
use crate::event::{TraceEvent, event};
use crate::event_parts::EventParts;
use crate::rows::{Category, Row};
use std::alloc::{AllocError, Global};

/// Makes the start of the arrow of this number, on the row of the attempt that failed, at an
/// instant in microseconds since the Unix epoch. `docs/FORMATS.md#arrows` says which arrow leads
/// where.
///
/// # Errors
///
/// `AllocError` if memory runs out.
#[tactic(auto, unfolding(crate::specs::TraceEvents::arrow_start, rec_forms::specs::Shape::members_of))]
pub fn arrow_start(alloc: Global, row: Row, at: i64, id: u64) -> Result<TraceEvent, AllocError>
    ensures { IfOk result (λ e. event_value e ≡ arrow_start row at id) }
{
    let parts = EventParts {
        phase: "s",
        name: "retry",
        category: Category::Test.as_str(),
        row,
        at,
        id: Some(id),
        scope: None,
        binding: None,
    };
    event(alloc, &parts, None::<&NoArgs>)
}

/// Makes the finish of the arrow of this number, on the row of the attempt that follows, at an
/// instant in microseconds since the Unix epoch. It ends at the slice that begins there.
///
/// # Errors
///
/// `AllocError` if memory runs out.
#[tactic(auto, unfolding(crate::specs::TraceEvents::arrow_finish, rec_forms::specs::Shape::members_of))]
pub fn arrow_finish(alloc: Global, row: Row, at: i64, id: u64) -> Result<TraceEvent, AllocError>
    ensures { IfOk result (λ e. event_value e ≡ arrow_finish row at id) }
{
    let parts = EventParts {
        phase: "f",
        name: "retry",
        category: Category::Test.as_str(),
        row,
        at,
        id: Some(id),
        scope: None,
        binding: Some("e"),
    };
    event(alloc, &parts, None::<&NoArgs>)
}
