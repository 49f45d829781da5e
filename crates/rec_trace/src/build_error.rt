//! Why an event wasn't traced.
ghost use Rattle.std.specs.Prelude.{◌≡◌};
ghost use Rattle.rec_trace.specs.Building.{build_error};

use rec_spans::ChromeTraceError;
use std::fmt;
use thiserror::Error;

/// Says why a builder didn't trace an event.
#[derive(Drop, Error)]
pub enum TraceBuildError {
    /// The target failed at an earlier event.
    #[error("an earlier event was not taken")]
    Failed,
    /// The event is refused.
    #[error(transparent)]
    Refused(ChromeTraceError),
    /// The target failed.
    #[error("the event was not taken")]
    TargetFault,
    /// Memory ran out.
    #[error("memory ran out")]
    OutOfMemory,
}

/// Prints the error as `Display` does.
impl fmt::Debug for TraceBuildError {
    fn fmt<W: fmt::Write>(&self, f: &mut fmt::Formatter<W>) -> fmt::Result {
        fmt::Display::fmt(self, f)
    }
}

/// Says why an event that was judged wasn't traced.
pub fn build_error(error: ChromeTraceError) -> TraceBuildError
    ensures { result ≡ build_error error }
{
    match error {
        ChromeTraceError::OutOfMemory => TraceBuildError::OutOfMemory,
        ChromeTraceError::ReadError(_)
        | ChromeTraceError::MissingTestStart { .. }
        | ChromeTraceError::MissingScriptStart { .. }
        | ChromeTraceError::MissingStressSubRunStart { .. }
        | ChromeTraceError::SpanAlreadyOpen { .. }
        | ChromeTraceError::SlotBusy { .. }
        | ChromeTraceError::TimestampOutOfRange { .. }
        | ChromeTraceError::RowOutOfRange { .. }
        | ChromeTraceError::CountOutOfRange { .. } => TraceBuildError::Refused(error),
    }
}
