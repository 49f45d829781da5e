//! What a trace says of the run beside its events.
ghost use Rattle.std.specs.Prelude.{◌≡◌, [], ◌∷◌, ◌++◌, None, Some, IfOk, OnOk, string_bytes};
ghost use Rattle.serde_json.specs.View.{view};
ghost use Rattle.serde_json.specs.Written.{compact_text};
ghost use Rattle.rec_json.specs.Tokens.{value_tokens};
ghost use Rattle.rec_forms.specs.ObjectWriting.{Writes};
ghost use Rattle.rec_forms.specs.Writable.{EachWritten, IsWritable};
ghost use Rattle.rec_trace.specs.Texts.{other_data, words_field};

use crate::run_start::RunStart;
use rec_events::{Items, Text, Version};
use rec_forms::{ObjectWriter, value_of_text};
use rec_json::JsonText;
use serde_json::Value;
use std::alloc::{AllocError, Global};

/// Writes the words of a command, where there are some.
fn with_words(
    object: ObjectWriter,
    text: &mut JsonText,
    key: &str,
    words: &Items<Text>,
) -> ObjectWriter
    ensures { Writes object text.old result text.new
        (words_field key.now words.now ∷ []) (EachWritten 7 (words_field key.now words.now ∷ [])) }
{
    if words.as_slice().len() > 0 {
        object.field(text, key, words)
    } else {
        object
    }
}

/// Writes what a trace says of runs by this version of the runner, of which this one started last.
fn write_run(
    alloc: Global,
    text: &mut JsonText,
    version: &Version,
    run: &RunStart,
) -> Result<(), AllocError>
    ensures written { OnOk result
        (text.new ≡ text.old ++ value_tokens (other_data version.now (Some run.now))) }
    ensures known { OnOk result (IsWritable 8 (other_data version.now (Some run.now))) }
{
    let object = ObjectWriter::begin(alloc, text);
    let object = with_words(object, text, "cli_args", &run.cli_args);
    let object = object.field(text, "nextest_version", version);
    let object = object.field(text, "profile_name", &run.profile_name);
    let object = object.field(text, "run_id", &run.run_id);
    let object = object.optional(text, "stress_condition", &run.stress_condition);
    object.end(text)
}

/// Writes what a trace says of runs by this version of the runner, where none started.
fn write_version(alloc: Global, text: &mut JsonText, version: &Version) -> Result<(), AllocError>
    ensures written { OnOk result
        (text.new ≡ text.old ++ value_tokens (other_data version.now None)) }
    ensures known { OnOk result (IsWritable 8 (other_data version.now None)) }
{
    let object = ObjectWriter::begin(alloc, text);
    let object = object.field(text, "nextest_version", version);
    object.end(text)
}

/// Writes what a trace says of runs by this version of the runner, of which this one started last,
/// as its compact JSON text.
///
/// # Errors
///
/// `AllocError` if memory runs out.
pub fn other_data_text(
    alloc: Global,
    version: &Version,
    last_run: &Option<RunStart>,
) -> Result<String, AllocError>
    ensures text { IfOk result
        (λ s. string_bytes s ≡ compact_text (other_data version.now last_run.now)) }
    ensures known { IfOk result (λ _. IsWritable 8 (other_data version.now last_run.now)) }
{
    let mut text = JsonText::new(alloc);
    match last_run {
        Some(run) => write_run(alloc, &mut text, version, run)?,
        None => write_version(alloc, &mut text, version)?,
    }
    Ok(text.into_text())
}

/// Makes the value of that text.
///
/// # Errors
///
/// `AllocError` if memory runs out.
pub fn other_data(
    alloc: Global,
    version: &Version,
    last_run: &Option<RunStart>,
) -> Result<Value, AllocError>
    ensures { IfOk result (λ v. view v ≡ other_data version.now last_run.now) }
{
    let text = other_data_text(alloc, version, last_run)?;
    value_of_text(alloc, &text)
}
