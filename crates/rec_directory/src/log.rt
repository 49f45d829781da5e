//! The events of an event log in memory, by a place in it.
ghost use Rattle.std.specs.Prelude.{◌≡◌, ◌<◌, ◌≤◌, ◌+◌, ◌∷◌, [], min, length, MatchOption};
ghost use Rattle.rec_codec.specs.EventForms.{event_form};
ghost use Rattle.rec_codec.specs.LineItems.{GivesNext, left_after};
ghost use Rattle.rec_codec.specs.LineView.{line_view};
ghost use Rattle.rec_directory.specs.Logs.{IsPlace, left_at};

use rec_codec::{Line, LineError, Lines, OutputForm, read_line};
use rec_events::TestEventSummary;
use rec_json::Scratch;
use std::alloc::Global;

/// Says where the lines begin that are left of a log, and the number of the first of them.
#[derive(Clone, Copy)]
pub(crate) struct LogPlace {
    pub(crate) at: usize,
    pub(crate) number: u64,
}

/// Returns the next item of a log. `scratch` is memory for the read of each line.
pub(crate) fn next_event<S: OutputForm>(
    alloc: Global,
    log: &[u8],
    place: &mut LogPlace,
    scratch: &mut Scratch,
) -> Option<Result<TestEventSummary<S>, LineError>>
    requires { IsPlace log.now place.old }
    ensures place { IsPlace log.now place.new }
    ensures gives { GivesNext (event_form S.output_form) (left_at log.now place.old) result
        (left_at log.now place.new) }
{
    while let Some((line, after)) = line_at(log, *place) {
        *place = after;
        if let Some(item) = read_line(alloc, line, scratch) {
            keep_after(log, place, &item);
            return Some(item);
        }
    }
    None
}

/// Leaves nothing of a log where memory ran out.
fn keep_after<S: OutputForm>(
    log: &[u8],
    place: &mut LogPlace,
    item: &Result<TestEventSummary<S>, LineError>,
)
    requires { IsPlace log.now place.old }
    ensures place { IsPlace log.now place.new }
    ensures left { left_at log.now place.new ≡ left_after item.now (left_at log.now place.old) }
{
    if let Err(LineError::OutOfMemory) = item {
        place.at = log.len();
    }
}

/// Returns the line at a place, and the place after it.
fn line_at(log: &[u8], place: LogPlace) -> Option<(Line<'_>, LogPlace)>
    requires { IsPlace log.now place }
    ensures line { MatchOption result (left_at log.now place ≡ [])
        (λ x. (left_at log.now place ≡ line_view x.0 ∷ left_at log.now x.1) × IsPlace log.now x.1
        × (place.at < x.1.at)) }
{
    if place.at >= log.len() {
        return None;
    }
    let rest = &log[place.at..];
    let line = Lines::new(rest, place.number).next()?;
    let after = after_line(log, place, line.bytes);
    Some((line, after))
}

/// Returns the place after a line.
fn after_line(log: &[u8], place: LogPlace, line: &[u8]) -> LogPlace
    requires place { IsPlace log.now place }
    requires inside { place.at < length log.now }
    ensures at { result.at ≡ min (place.at + length line.now + 1) (length log.now) }
    ensures number { result.number ≡ place.number + 1 }
    ensures place { IsPlace log.now result }
{
    let at = place
        .at
        .saturating_add(line.len())
        .saturating_add(1)
        .min(log.len());
    LogPlace {
        at,
        number: place.number + 1,
    }
}
