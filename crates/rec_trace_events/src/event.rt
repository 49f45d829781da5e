//! An event of a trace, as its text.
ghost use Rattle.std.specs.Prelude.{◌≡◌, IfOk, option_copied, option_map};
ghost use Rattle.serde_json.specs.View.{view};
ghost use Rattle.serde_json.specs.Written.{compact_text};
ghost use Rattle.rec_forms.specs.Writable.{IsWritable};
ghost use Rattle.rec_trace_events.specs.EventParts.{event_of};
ghost use Rattle.rec_trace_events.specs.EventTexts.{event_value};

use crate::args::Args;
use crate::event_parts::{EventParts, write_event};
use rec_forms::value_of_text;
use rec_json::JsonText;
use serde_json::Value;
use std::alloc::{AllocError, Global};
use std::marker::Model;

/// Holds an event of a trace as its JSON text, which is that of an object. Contracts see the bytes
/// of the text.
///
/// `docs/FORMATS.md#trace-events` says what it has: a part of Chrome's Trace Event Format.
#[derive(Drop)]
pub struct TraceEvent {
    text: String,
}

impl Model for TraceEvent {
    ghost use Rattle.std.specs.Prelude.{ℕ, List, string_bytes};
    ghost use Rattle.rec_trace_events.specs.EventTexts.{IsEventText};

    ghost Value = { List ℕ };

    ghost view = { λ e. string_bytes e.text };

    ghost invariant = { λ e. IsEventText (string_bytes e.text) };
}

impl TraceEvent {
    /// Returns the event's JSON in one line, without spaces.
    pub fn as_str(&self) -> &str
        ensures text { result.now ≡ compact_text (event_value self.now) }
        ensures writable { IsWritable 9 (event_value self.now) }
    {
        &self.text
    }

    /// Makes the event's JSON value.
    ///
    /// # Errors
    ///
    /// `AllocError` if memory runs out.
    pub fn value(&self, alloc: Global) -> Result<Value, AllocError>
        ensures { IfOk result (λ v. view v ≡ event_value self.now) }
    {
        value_of_text(alloc, &self.text)
    }
}

/// Makes the event of these parts, with these args where there are some.
///
/// # Errors
///
/// `AllocError` if memory runs out.
pub fn event<A: Args>(
    alloc: Global,
    parts: &EventParts<'_>,
    args: Option<&A>,
) -> Result<TraceEvent, AllocError>
    ensures { IfOk result
        (λ e. event_value e
        ≡ event_of parts.now (option_map A.value_of (option_copied args.entry))) }
{
    let mut text = JsonText::new(alloc);
    write_event(alloc, &mut text, parts, args)?;
    Ok(TraceEvent {
        text: text.into_text(),
    })
}
