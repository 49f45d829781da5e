//! What is said of the error of an attempt or of a setup script.
ghost use Rattle.std.specs.Prelude.{[], ◌∷◌, IfOk, Some, option_map, codes};
ghost use Rattle.rec_forms.specs.ObjectWriting.{Writes};
ghost use Rattle.rec_forms.specs.Writable.{IfWritten, IsWritable};
ghost use Rattle.rec_trace_events.specs.Args.{error_of, error_value, flaky_error, summary_error};

use rec_events::{ErrorSummary, FlakyResult, RetryData};
use rec_forms::ObjectWriter;
use rec_json::JsonText;
use std::alloc::{AllocError, Global};

/// Writes an error.
fn with_error(
    object: ObjectWriter,
    text: &mut JsonText,
    short_message: &str,
    description: &str,
) -> ObjectWriter
    ensures { Writes object text.old result text.new
        ((codes "error", Some (error_value short_message.now description.now)) ∷ [])
        (IsWritable 7 (error_value short_message.now description.now)) }
{
    object
        .open(text, "error")
        .text(text, "description", description)
        .text(text, "short_message", short_message)
        .close(text)
}

/// Writes an error's summary, where there is one.
pub(crate) fn with_summary(
    object: ObjectWriter,
    text: &mut JsonText,
    summary: &Option<ErrorSummary>,
) -> ObjectWriter
    ensures { Writes object text.old result text.new
        ((codes "error", option_map summary_error summary.now) ∷ [])
        (IfWritten 7 (option_map summary_error summary.now)) }
{
    match summary {
        Some(summary) => {
            let short_message = summary.short_message.as_str();
            with_error(object, text, short_message, summary.description.as_str())
        }
        None => object,
    }
}

/// Writes what is said of a flaky test, where it counts as failed.
///
/// # Errors
///
/// `AllocError` if memory runs out for what is said of it.
fn with_flaky_error(
    object: ObjectWriter,
    alloc: Global,
    text: &mut JsonText,
    retry: &RetryData,
    flaky: FlakyResult,
) -> Result<ObjectWriter, AllocError>
    ensures { IfOk result (λ after. Writes object text.old after text.new
        ((codes "error", flaky_error retry.now flaky) ∷ [])
        (IfWritten 7 (flaky_error retry.now flaky))) }
{
    let message = flaky.fail_message(alloc, retry.attempt, retry.total_attempts)?;
    match message {
        Some(message) => Ok(with_error(object, text, "flaky failure", message.as_str())),
        None => Ok(object),
    }
}

/// Writes the summary of an attempt's error, or else what is said of a flaky test,
/// where there is one.
///
/// # Errors
///
/// `AllocError` if memory runs out for what is said of a flaky test.
pub(crate) fn with_attempt_error(
    object: ObjectWriter,
    alloc: Global,
    text: &mut JsonText,
    summary: &Option<ErrorSummary>,
    retry: &RetryData,
    flaky: Option<FlakyResult>,
) -> Result<ObjectWriter, AllocError>
    ensures { IfOk result (λ after. Writes object text.old after text.new
        ((codes "error", error_of summary.now retry.now flaky) ∷ [])
        (IfWritten 7 (error_of summary.now retry.now flaky))) }
{
    if summary.is_some() {
        return Ok(with_summary(object, text, summary));
    }
    match flaky {
        Some(flaky) => with_flaky_error(object, alloc, text, retry, flaky),
        None => Ok(object),
    }
}
