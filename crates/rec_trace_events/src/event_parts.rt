//! What an event of a trace has beside its args.
ghost use Rattle.std.specs.Prelude.{◌≡◌, ◌++◌, [], ◌∷◌, IfSome, OnOk};
ghost use Rattle.std.specs.Prelude.{codes, option_copied, option_map};
ghost use Rattle.serde_json.specs.Data.{string};
ghost use Rattle.rec_json.specs.Tokens.{value_tokens, with_field};
ghost use Rattle.rec_events.specs.Names.{IsText};
ghost use Rattle.rec_forms.specs.ObjectWriting.{Writes};
ghost use Rattle.rec_forms.specs.Writable.{EachWritten, IfWritten, IsWritable};
ghost use Rattle.rec_trace_events.specs.EventParts.{event_of, fields_after_args};

use crate::args::Args;
use crate::rows::Row;
use rec_forms::ObjectWriter;
use rec_json::JsonText;
use std::alloc::{AllocError, Global};

/// Holds what an event has beside its args, as `docs/FORMATS.md#trace-events` lists it. The last
/// three are of some phases alone.
#[derive(Drop)]
pub struct EventParts<'a> {
    /// What it is: a letter, the `ph` of the Trace Event Format.
    pub phase: &'a str,
    /// Its name.
    pub name: &'a str,
    /// What it is of; empty for metadata.
    pub category: &'a str,
    /// Where it stands.
    pub row: Row,
    /// The instant, in microseconds since the Unix epoch.
    pub at: i64,
    /// The number of an arrow.
    pub id: Option<u64>,
    /// How wide viewers show an instant.
    pub scope: Option<&'a str>,
    /// To which slice an arrow leads.
    pub binding: Option<&'a str>,
}

/// Writes the args of an event, as its first field, where there are some.
fn write_args<A: Args>(
    alloc: Global,
    text: &mut JsonText,
    args: Option<&A>,
) -> Result<(), AllocError>
    ensures written { OnOk result
        (text.new
        ≡ with_field (codes "args") (option_map A.value_of (option_copied args.entry)) text.old) }
    ensures known { OnOk result (IfWritten 8 (option_map A.value_of (option_copied args.entry))) }
{
    match args {
        Some(args) => {
            text.key("args")?;
            args.write(alloc, text)
        }
        None => Ok(()),
    }
}

/// Writes a field that is a text, where there is one.
fn with_optional_text(
    object: ObjectWriter,
    text: &mut JsonText,
    key: &str,
    value: Option<&str>,
) -> ObjectWriter
    ensures { Writes object text.old result text.new
        ((key.now, option_map (λ s. string s.now) value.entry) ∷ [])
        (IfSome value.entry (λ s. IsText s.now)) }
{
    match value {
        Some(value) => object.text(text, key, value),
        None => object,
    }
}

/// Writes the fields that come after the args, with the keys from `bp` to `ts`.
fn with_fields_after_args(
    object: ObjectWriter,
    text: &mut JsonText,
    parts: &EventParts<'_>,
) -> ObjectWriter
    ensures { Writes object text.old result text.new
        (fields_after_args parts.now) (EachWritten 8 (fields_after_args parts.now)) }
{
    let object = with_optional_text(object, text, "bp", parts.binding);
    let object = object.text(text, "cat", parts.category);
    let object = object.optional(text, "id", &parts.id);
    let object = object.text(text, "name", parts.name);
    let object = object.text(text, "ph", parts.phase);
    let object = object.field(text, "pid", &parts.row.pid);
    let object = with_optional_text(object, text, "s", parts.scope);
    let object = object.field(text, "tid", &parts.row.tid);
    object.field(text, "ts", &parts.at)
}

/// Writes the event of these parts, with these args where there are some.
///
/// # Errors
///
/// `AllocError` if memory runs out; then `text` may hold a part of the event.
pub fn write_event<A: Args>(
    alloc: Global,
    text: &mut JsonText,
    parts: &EventParts<'_>,
    args: Option<&A>,
) -> Result<(), AllocError>
    ensures written { OnOk result
        (text.new
        ≡ text.old
        ++ value_tokens (event_of parts.now (option_map A.value_of (option_copied args.entry)))) }
    ensures known { OnOk result
        (IsWritable 9 (event_of parts.now (option_map A.value_of (option_copied args.entry)))) }
{
    text.begin_object()?;
    write_args(alloc, text, args)?;
    let object = with_fields_after_args(ObjectWriter::resume(alloc), text, parts);
    object.end(text)
}
