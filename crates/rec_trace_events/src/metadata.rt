//! The names of processes and rows, and their order.
ghost use Rattle.std.specs.Prelude.{◌≡◌, [], ◌∷◌, map, IfOk};
ghost use Rattle.rec_trace_events.specs.EventTexts.{event_value};
ghost use Rattle.rec_trace_events.specs.TraceEvents.{metadata_event, name_event, place_event};
ghost use Rattle.rec_trace_events.specs.TraceEvents.{process_metadata, thread_metadata};

use crate::args::Args;
use crate::event::{TraceEvent, event};
use crate::event_parts::EventParts;
use crate::rows::Row;
use rec_forms::ObjectWriter;
use rec_json::JsonText;
use std::alloc::{AllocError, Global};

/// Makes an event of metadata.
#[tactic(auto, unfolding(rec_forms::specs::Shape::members_of))]
fn metadata_event<A: Args>(
    alloc: Global,
    name: &str,
    row: Row,
    args: &A,
) -> Result<TraceEvent, AllocError>
    ensures { IfOk result (λ e. event_value e ≡ metadata_event name.now row (A.value_of args.now)) }
{
    let parts = EventParts {
        phase: "M",
        name,
        category: "",
        row,
        at: 0,
        id: None,
        scope: None,
        binding: None,
    };
    event(alloc, &parts, Some(args))
}

/// Names something.
#[derive(Drop)]
struct NameArgs<'a> {
    name: &'a str,
}

impl<'a> Args for NameArgs<'a> {
    ghost use Rattle.rec_trace_events.specs.TraceEvents.{name_args};

    ghost value_of = { λ a. name_args a.name.now };

    fn write(&self, alloc: Global, text: &mut JsonText) -> Result<(), AllocError> {
        ObjectWriter::begin(alloc, text)
            .text(text, "name", self.name)
            .end(text)
    }
}

/// Makes an event of metadata that names something.
fn name_event(alloc: Global, event: &str, row: Row, name: &str) -> Result<TraceEvent, AllocError>
    ensures { IfOk result (λ e. event_value e ≡ name_event event.now row name.now) }
{
    metadata_event(alloc, event, row, &NameArgs { name })
}

/// Says the place of something among others.
#[derive(Drop)]
struct PlaceArgs {
    place: u64,
}

impl Args for PlaceArgs {
    ghost use Rattle.rec_trace_events.specs.TraceEvents.{place_args};

    ghost value_of = { λ a. place_args a.place };

    fn write(&self, alloc: Global, text: &mut JsonText) -> Result<(), AllocError> {
        ObjectWriter::begin(alloc, text)
            .field(text, "sort_index", &self.place)
            .end(text)
    }
}

/// Makes an event of metadata that says the place of something among others.
fn place_event(alloc: Global, event: &str, row: Row, place: u64) -> Result<TraceEvent, AllocError>
    ensures { IfOk result (λ e. event_value e ≡ place_event event.now row place) }
{
    metadata_event(alloc, event, row, &PlaceArgs { place })
}

/// Makes the list of two events.
fn pair(alloc: Global, first: TraceEvent, second: TraceEvent) -> Result<Vec<TraceEvent>, AllocError>
    ensures { IfOk result
        (λ events. map event_value events.items ≡ event_value first ∷ event_value second ∷ []) }
{
    let mut events = Vec::new(alloc);
    events.push(first)?;
    events.push(second)?;
    Ok(events)
}

/// Makes the events that name something and say its place among others, of these two kinds.
fn name_and_place(
    alloc: Global,
    naming: &str,
    placing: &str,
    row: Row,
    name: &str,
    place: u64,
) -> Result<Vec<TraceEvent>, AllocError>
    ensures { IfOk result (λ events. map event_value events.items
        ≡ name_event naming.now row name.now ∷ place_event placing.now row place ∷ []) }
{
    let name = name_event(alloc, naming, row, name)?;
    let place = place_event(alloc, placing, row, place)?;
    pair(alloc, name, place)
}

/// Makes the events that name a process and say its place among the others, which is that of its
/// number. `docs/FORMATS.md#spans-and-rows` says when they are drawn.
///
/// # Errors
///
/// `AllocError` if memory runs out.
pub fn process_metadata(alloc: Global, pid: u64, name: &str) -> Result<Vec<TraceEvent>, AllocError>
    ensures { IfOk result (λ events. map event_value events.items ≡ process_metadata pid name.now) }
{
    let row = Row { pid, tid: 0 };
    name_and_place(alloc, "process_name", "process_sort_index", row, name, pid)
}

/// Makes the events that name a row and say its place among the others of its process, which is
/// that of its number.
///
/// # Errors
///
/// `AllocError` if memory runs out.
pub fn thread_metadata(alloc: Global, row: Row, name: &str) -> Result<Vec<TraceEvent>, AllocError>
    ensures { IfOk result (λ events. map event_value events.items ≡ thread_metadata row name.now) }
{
    name_and_place(
        alloc,
        "thread_name",
        "thread_sort_index",
        row,
        name,
        row.tid,
    )
}
