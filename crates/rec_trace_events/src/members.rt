//! Members that several kinds of args have.
ghost use Rattle.std.specs.Prelude.{◌<◌, ◌^◌, [], ◌∷◌, Some, codes, IfSome};
ghost use Rattle.rec_forms.specs.ObjectWriting.{Writes};
ghost use Rattle.rec_forms.specs.Stress.{count_or_null};
ghost use Rattle.rec_forms.specs.Writable.{IfWritten, IsWritable};
ghost use Rattle.rec_trace_events.specs.Args.{command_line_field, delay_field};
ghost use Rattle.rec_trace_events.specs.Args.{stress_index_args, stress_index_field};

use rec_events::{Duration, Items, NonZeroCount, StressIndexSummary, Text};
use rec_forms::ObjectWriter;
use rec_json::JsonText;

/// Writes of how many runs, or `null`.
fn with_total(
    object: ObjectWriter,
    text: &mut JsonText,
    total: &Option<NonZeroCount>,
) -> ObjectWriter
    ensures { Writes object text.old result text.new
        ((codes "total", Some (count_or_null total.now)) ∷ [])
        (IfSome total.now (λ n. n < 2 ^ 64)) }
{
    match total {
        Some(total) => object.field(text, "total", total),
        None => object.null(text, "total"),
    }
}

/// Writes which run of a stress run it is.
fn with_index(object: ObjectWriter, text: &mut JsonText, index: &StressIndexSummary) -> ObjectWriter
    ensures { Writes object text.old result text.new
        ((codes "stress_index", Some (stress_index_args index.now)) ∷ [])
        (IsWritable 1 (stress_index_args index.now)) }
{
    let object = object.open(text, "stress_index");
    let object = object.field(text, "current", &index.current);
    let object = with_total(object, text, &index.total);
    object.close(text)
}

/// Writes which run of a stress run it is, in such a run.
pub(crate) fn with_stress_index(
    object: ObjectWriter,
    text: &mut JsonText,
    index: &Option<StressIndexSummary>,
) -> ObjectWriter
    ensures { Writes object text.old result text.new
        (stress_index_field index.now ∷ []) (IfWritten 7 (stress_index_field index.now).1) }
{
    match index {
        Some(index) => with_index(object, text, index),
        None => object,
    }
}

/// Writes the words of a command, where there are some.
pub(crate) fn with_command_line(
    object: ObjectWriter,
    text: &mut JsonText,
    words: &Items<Text>,
) -> ObjectWriter
    ensures { Writes object text.old result text.new
        (command_line_field words.now ∷ []) (IfWritten 7 (command_line_field words.now).1) }
{
    if words.as_slice().len() > 0 {
        object.field(text, "command_line", words)
    } else {
        object
    }
}

/// Writes a delay, where it is some time.
pub(crate) fn with_delay(
    object: ObjectWriter,
    text: &mut JsonText,
    key: &str,
    delay: &Duration,
) -> ObjectWriter
    ensures { Writes object text.old result text.new
        (delay_field key.now delay.now ∷ []) (IfWritten 7 (delay_field key.now delay.now).1) }
{
    if delay.is_zero() {
        object
    } else {
        object.field(text, key, delay)
    }
}
