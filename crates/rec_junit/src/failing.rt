//! How a result is reported that is no success.
ghost use Rattle.std.specs.Prelude.{◌≡◌, ◌++◌, ℕ, List, Some, IfOk, codes};
ghost use Rattle.rec_events.specs.declared.results.ExecutionResultDescription.TheVariants.{
  Leak,
  Fail,
  Timeout,
};
ghost use Rattle.rec_junit.specs.declared.report.JunitKind.TheVariants.{Error};
ghost use Rattle.rec_junit.specs.Failing.{failed, failing, failure_text};
ghost use Rattle.rec_junit.specs.Failing.{leaked_note, script_unit, test_unit};

use crate::JunitKind;
use rec_events::{
    ExecutionResultDescription, FailureDescription, LeakTimeoutResult, NextestRunMode,
    SlowTimeoutResult, Text,
};
use std::alloc::{AllocError, Global};

/// Names what failed, and how.
#[derive(Drop)]
pub(crate) struct FailureKind {
    /// Whether it failed, or something went wrong.
    pub kind: JunitKind,
    /// How it failed, as `test failure with exit code 101`.
    pub type_text: Text,
}

/// Names a test, as the types of failures do.
pub(crate) fn test_unit(mode: NextestRunMode) -> &'static str
    ensures { result.now ≡ test_unit mode }
{
    match mode {
        NextestRunMode::Test => "test",
        NextestRunMode::Benchmark => "benchmark",
    }
}

/// Names a setup script, as the types of failures do.
pub(crate) fn script_unit() -> &'static str
    ensures { result.now ≡ script_unit }
{
    "script"
}

/// Says how an ending is reported: not at all where it is a pass, or a timeout that counts as one.
///
/// # Errors
///
/// `AllocError` means that there was not enough memory.
pub(crate) fn failing(
    alloc: Global,
    unit: &str,
    ending: &ExecutionResultDescription,
) -> Result<Option<FailureKind>, AllocError>
    ensures { IfOk result (λ failure. failure ≡ failing unit.now ending.now) }
{
    match ending {
        ExecutionResultDescription::Pass => Ok(None),
        ExecutionResultDescription::Leak { result } => {
            leak_failure(alloc, unit, *result).map(Some)
        }
        ExecutionResultDescription::Fail { failure, leaked } => {
            process_failure(alloc, unit, failure, *leaked).map(Some)
        }
        ExecutionResultDescription::ExecFail => start_failure(alloc).map(Some),
        ExecutionResultDescription::Timeout { result } => timeout_failure(alloc, unit, *result),
    }
}

/// Says how an open output after a pass is reported.
fn leak_failure(
    alloc: Global,
    unit: &str,
    counts_as: LeakTimeoutResult,
) -> Result<FailureKind, AllocError>
    ensures { IfOk result (λ failure. failing unit.now (Leak counts_as) ≡ Some failure) }
{
    Ok(FailureKind {
        kind: JunitKind::Error,
        type_text: Text::new(format!(in alloc; "{unit}{}", leak_note(counts_as))?),
    })
}

/// Says what became of a unit that left an output open after a pass.
fn leak_note(counts_as: LeakTimeoutResult) -> &'static str
    ensures { (unit : List ℕ) → failing unit (Leak counts_as) ≡ failed Error (unit ++ result.now) }
{
    match counts_as {
        LeakTimeoutResult::Pass => " passed but leaked handles",
        LeakTimeoutResult::Fail => {
            " exited with code 0, but leaked handles so was marked failed"
        }
    }
}

/// Says how a process that failed is reported.
fn process_failure(
    alloc: Global,
    unit: &str,
    failure: &FailureDescription,
    leaked: bool,
) -> Result<FailureKind, AllocError>
    ensures { IfOk result (λ reported. failing unit.now (Fail failure.now leaked) ≡ Some reported) }
{
    let type_text = failure_text(alloc, unit, failure, leaked_note(leaked))?;
    Ok(FailureKind {
        kind: JunitKind::Failure,
        type_text,
    })
}

/// Says how a process failed.
fn failure_text(
    alloc: Global,
    unit: &str,
    failure: &FailureDescription,
    note: &str,
) -> Result<Text, AllocError>
    ensures { IfOk result (λ text. text ≡ failure_text unit.now failure.now note.now) }
{
    match failure {
        FailureDescription::ExitCode { code } => {
            format!(in alloc; "{unit} failure with exit code {code}{note}").map(Text::new)
        }
        FailureDescription::Abort { .. } => {
            format!(in alloc; "{unit} abort{note}").map(Text::new)
        }
    }
}

/// Notes that an output was left open.
fn leaked_note(leaked: bool) -> &'static str
    ensures { result.now ≡ leaked_note leaked }
{
    if leaked { " (leaked handles)" } else { "" }
}

/// Says how a process that could not be started is reported.
fn start_failure(alloc: Global) -> Result<FailureKind, AllocError>
    ensures { IfOk result
        (λ reported. reported ≡ record { kind = Error; type_text = codes "execution failure" }) }
{
    Ok(FailureKind {
        kind: JunitKind::Error,
        type_text: Text::from_str(alloc, "execution failure")?,
    })
}

/// Says how a process that was stopped for its time is reported.
fn timeout_failure(
    alloc: Global,
    unit: &str,
    counts_as: SlowTimeoutResult,
) -> Result<Option<FailureKind>, AllocError>
    ensures { IfOk result (λ failure. failure ≡ failing unit.now (Timeout counts_as)) }
{
    match counts_as {
        SlowTimeoutResult::Pass => Ok(None),
        SlowTimeoutResult::Fail => Ok(Some(FailureKind {
            kind: JunitKind::Failure,
            type_text: Text::new(format!(in alloc; "{unit} timeout")?),
        })),
    }
}
