//! Writes trace events as they stand in the text of a trace.
ghost use Rattle.std.specs.Prelude.{◌≡◌, ◌++◌, ◌||◌, map, IfOk, OnOk, OnErr};
ghost use Rattle.serde_json.specs.Data.{Data};
ghost use Rattle.serde_json.specs.Written.{comma_if};
ghost use Rattle.rec_forms.specs.Writable.{IsWritable};
ghost use Rattle.rec_trace_events.specs.EventTexts.{event_value};
ghost use Rattle.rec_trace.specs.declared.settings.ChromeTraceMessageFormat.TheVariants.{
  JsonPretty,
};
ghost use Rattle.rec_trace.specs.Kept.{AreWritable, StartsWith, has_some};
ghost use Rattle.rec_trace.specs.Texts.{event_text, event_texts, nested_text};

use crate::layout::write_tokens;
use crate::settings::ChromeTraceMessageFormat;
use json::{Pretty, Reader, Scratch, Token};
use rec_trace_events::TraceEvent;
use std::alloc::{AllocError, Global};

/// Names what stands before a trace event, where others may stand before it.
fn separator(later: bool) -> &'static str
    ensures { result.now ≡ comma_if later }
{
    if later { "," } else { "" }
}

/// Writes trace events with commas between them, and one before them where others stand there.
/// Returns whether any stand there then. `scratch` is what reading the text of an event takes,
/// where events are laid out.
///
/// # Errors
///
/// `AllocError` if memory runs out; then a part of them may stand after what stood there.
pub fn write_events(
    alloc: Global,
    format: ChromeTraceMessageFormat,
    scratch: &mut Scratch,
    text: &mut Vec<u8>,
    mut later: bool,
    events: &[TraceEvent],
) -> Result<bool, AllocError>
    ensures some { IfOk result (λ some. some ≡ (later || has_some (map event_value events.now))) }
    ensures written { OnOk result
        (text.new.items ≡ text.old.items ++ event_texts format later (map event_value events.now)) }
    ensures known { OnOk result (AreWritable (map event_value events.now)) }
    ensures before { StartsWith text.old.items text.new.items }
{
    for event in events {
        write_event(alloc, format, scratch, text, later, event)?;
        later = true;
    }
    Ok(later)
}

/// Writes a trace event, after a comma where others stand before it.
fn write_event(
    alloc: Global,
    format: ChromeTraceMessageFormat,
    scratch: &mut Scratch,
    text: &mut Vec<u8>,
    later: bool,
    event: &TraceEvent,
) -> Result<(), AllocError>
    ensures written { OnOk result
        (text.new.items
        ≡ (text.old.items ++ comma_if later) ++ event_text format (event_value event.now)) }
    ensures known { OnOk result (IsWritable 9 (event_value event.now)) }
    ensures before { StartsWith text.old.items text.new.items }
{
    let line = event.as_str();
    text.extend_from_slice(separator(later).as_bytes())?;
    match format {
        ChromeTraceMessageFormat::Json => text.extend_from_slice(line.as_bytes()),
        ChromeTraceMessageFormat::JsonPretty => write_lines(alloc, scratch, text, event),
    }
}

/// Writes a trace event over several lines, as it stands in the list of a trace: two levels deep,
/// and with the end of the line before it.
fn write_lines(
    alloc: Global,
    scratch: &mut Scratch,
    text: &mut Vec<u8>,
    event: &TraceEvent,
) -> Result<(), AllocError>
    ensures written { OnOk result
        (text.new.items ≡ text.old.items ++ event_text JsonPretty (event_value event.now)) }
    ensures before { OnErr result (text.new.items ≡ text.old.items) }
{
    let lines = nested_lines(alloc, scratch, event)?;
    text.extend_from_slice(without_brackets(&lines))
}

/// Returns an event that was laid out in a list in a list, without the brackets before it.
fn without_brackets(lines: &[u8]) -> &[u8]
    ensures { (d : Data) → lines.now ≡ nested_text d → result.now ≡ event_text JsonPretty d }
{
    // These are `[`, the end of the line, two spaces and `[`.
    if lines.len() < 5 { lines } else { &lines[5..] }
}

/// Lays a trace event out in a list that stands in a list.
fn nested_lines(
    alloc: Global,
    scratch: &mut Scratch,
    event: &TraceEvent,
) -> Result<Vec<u8>, AllocError>
    ensures { IfOk result (λ s. s.items ≡ nested_text (event_value event.now)) }
{
    let reader = Reader::new(event.as_str(), scratch)?;
    let mut lines = Pretty::new(alloc);
    lines.token(Token::BeginArray)?;
    lines.token(Token::BeginArray)?;
    write_tokens(reader, &mut lines)?;
    Ok(lines.into_inner())
}
