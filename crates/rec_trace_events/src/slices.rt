//! The begins and ends of slices.
ghost use Rattle.std.specs.Prelude.{◌≡◌, IfOk, option_copied, option_map};
ghost use Rattle.rec_trace_events.specs.EventTexts.{event_value};
ghost use Rattle.rec_trace_events.specs.TraceEvents.{begin_event, end_event, slice_event};

use crate::args::Args;
use crate::event::{TraceEvent, event};
use crate::event_parts::EventParts;
use crate::rows::{Category, Row};
use std::alloc::{AllocError, Global};

/// Makes the event of a phase of a slice.
#[tactic(auto, unfolding(rec_forms::specs::Shape::members_of))]
fn slice_event<'a, A: Args>(
    alloc: Global,
    phase: &'a str,
    name: &'a str,
    category: Category,
    row: Row,
    at: i64,
    args: Option<&A>,
) -> Result<TraceEvent, AllocError>
    ensures { IfOk result
        (λ e. event_value e
        ≡ slice_event phase.now name.now category row at
        (option_map A.value_of (option_copied args.entry))) }
{
    let parts = EventParts {
        phase,
        name,
        category: category.as_str(),
        row,
        at,
        id: None,
        scope: None,
        binding: None,
    };
    event(alloc, &parts, args)
}

/// Makes the begin of a slice, at an instant in microseconds since the Unix epoch.
/// `docs/FORMATS.md#spans-and-rows` says what a slice is called, and where it stands.
///
/// # Errors
///
/// `AllocError` if memory runs out.
#[tactic(auto, unfolding(crate::specs::TraceEvents::begin_event))]
pub fn begin_event<A: Args>(
    alloc: Global,
    name: &str,
    category: Category,
    row: Row,
    at: i64,
    args: Option<&A>,
) -> Result<TraceEvent, AllocError>
    ensures { IfOk result
        (λ e. event_value e
        ≡ begin_event name.now category row at (option_map A.value_of (option_copied args.entry))) }
{
    slice_event(alloc, "B", name, category, row, at, args)
}

/// Makes the end of a slice, at an instant in microseconds since the Unix epoch.
///
/// # Errors
///
/// `AllocError` if memory runs out.
#[tactic(auto, unfolding(crate::specs::TraceEvents::end_event))]
pub fn end_event<A: Args>(
    alloc: Global,
    name: &str,
    category: Category,
    row: Row,
    at: i64,
    args: Option<&A>,
) -> Result<TraceEvent, AllocError>
    ensures { IfOk result
        (λ e. event_value e
        ≡ end_event name.now category row at (option_map A.value_of (option_copied args.entry))) }
{
    slice_event(alloc, "E", name, category, row, at, args)
}
