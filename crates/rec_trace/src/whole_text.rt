//! Writes what stands in the text of a trace before its events and after them.
ghost use Rattle.std.specs.Prelude.{◌≡◌, IfOk, string_bytes};
ghost use Rattle.serde_json.specs.Data.{Data};
ghost use Rattle.serde_json.specs.Written.{compact_text};
ghost use Rattle.rec_forms.specs.Writable.{IsWritable};
ghost use Rattle.rec_trace.specs.declared.settings.ChromeTraceMessageFormat.TheVariants.{
  JsonPretty,
};
ghost use Rattle.rec_trace.specs.Texts.{compact_prefix, trace_end, trace_prefix};

use crate::layout::lay_out;
use crate::settings::ChromeTraceMessageFormat;
use std::alloc::{AllocError, Global};

/// Writes what stands before the events of a trace that says this beside them.
///
/// # Errors
///
/// `AllocError` if memory runs out.
pub fn trace_prefix(
    alloc: Global,
    format: ChromeTraceMessageFormat,
    other_data: &str,
) -> Result<Vec<u8>, AllocError>
    ensures { IfOk result
        (λ s. (other : Data) → other_data.now ≡ compact_text other → IsWritable 8 other
        → s.items ≡ trace_prefix format other) }
{
    let prefix = compact_prefix(alloc, other_data)?;
    match format {
        ChromeTraceMessageFormat::Json => Ok(prefix.into_bytes()),
        ChromeTraceMessageFormat::JsonPretty => pretty_prefix(alloc, prefix),
    }
}

/// Writes in one line what stands before the events.
fn compact_prefix(alloc: Global, other_data: &str) -> Result<String, AllocError>
    ensures { IfOk result
        (λ s. (other : Data) → other_data.now ≡ compact_text other
        → string_bytes s ≡ compact_prefix other) }
{
    let mut prefix = String::from_str(alloc, "{\"displayTimeUnit\":\"ms\",\"otherData\":")?;
    prefix.push_str(other_data)?;
    prefix.push_str(",\"traceEvents\":[")?;
    Ok(prefix)
}

/// Writes over several lines what stands before the events, from what stands there in one line:
/// that is what a trace without events has before its end.
fn pretty_prefix(alloc: Global, mut prefix: String) -> Result<Vec<u8>, AllocError>
    ensures { IfOk result
        (λ s. (other : Data) → string_bytes prefix ≡ compact_prefix other → IsWritable 8 other
        → s.items ≡ trace_prefix JsonPretty other) }
{
    prefix.push_str(trace_end(ChromeTraceMessageFormat::Json, false))?;
    let mut lines = lay_out(alloc, &prefix)?;
    let end = trace_end(ChromeTraceMessageFormat::JsonPretty, false);
    let prefix_len = lines.as_slice().len().saturating_sub(end.len());
    lines.truncate(prefix_len);
    Ok(lines)
}

/// Names what stands after the events of a trace, where there are some or none.
pub fn trace_end(format: ChromeTraceMessageFormat, has_events: bool) -> &'static str
    ensures { result.now ≡ trace_end format has_events }
{
    match format {
        ChromeTraceMessageFormat::Json => "]}",
        ChromeTraceMessageFormat::JsonPretty if has_events => "\n  ]\n}",
        ChromeTraceMessageFormat::JsonPretty => "]\n}",
    }
}
