//! The causes for which there is no trace.
ghost use Rattle.std.specs.Prelude.{◌≡◌};
ghost use Rattle.rec_spans.specs.declared.errors.ChromeTraceError.TheVariants.{OutOfMemory};
ghost use Rattle.rec_spans.specs.Faults.{fault_error};

use crate::spans::SpanKey;
use rec_codec::LineError;
use rec_events::{RustBinaryId, ScriptId, TestCaseName};
use std::alloc::AllocError;
use std::fmt;
use thiserror::Error;

/// Says why a history can't be read: the first error of the iterator that gives it.
pub type RecordReadErrorText = LineError;

/// Says why there is no trace of a history. Events are numbered from 1. Of the first event that is
/// refused, the first cause is answered in the order number, instant, start that is missing, span
/// that is open, slot that is busy, row or flow number, count;
/// but want of memory may come at any time.
///
/// `docs/FORMATS.md#refusals-of-a-trace` lists these causes. `event` is the number of the event.
#[derive(Drop, Error)]
pub enum ChromeTraceError {
    /// The history could not be read.
    #[error("the events can't be read: {0}")]
    ReadError(RecordReadErrorText),
    /// The event finishes a test of which no attempt is open, or says that it failed or is slow.
    #[error("event {event} is of {} {}, \
        which isn't running", .binary_id.as_str(), .test_name.as_str())]
    MissingTestStart {
        event: u64,
        binary_id: RustBinaryId,
        test_name: TestCaseName,
    },
    /// The event finishes a setup script whose index isn't open under its id, or says that one is
    /// slow while none of its id is open.
    #[error("event {event} is of setup script {}, which isn't running", .script_id.as_str())]
    MissingScriptStart {
        event: u64,
        script_id: ScriptId,
    },
    /// The event finishes a sub-run while none is open.
    #[error("event {event} ends a sub-run, and none is running")]
    MissingStressSubRunStart {
        event: u64,
    },
    /// The event starts what is open already.
    #[error("event {event} starts {span}, which is running already")]
    SpanAlreadyOpen {
        event: u64,
        span: SpanKey,
    },
    /// The event starts a test on a slot on which another runs.
    #[error("event {event} starts on slot {slot}, on which another is running")]
    SlotBusy {
        event: u64,
        slot: u64,
    },
    /// The event's instant isn't an i64 in microseconds since the Unix epoch.
    #[error("the instant of event {event} is out of range")]
    TimestampOutOfRange {
        event: u64,
    },
    /// A number isn't a u64: that of a row, and `number` is the slot or the index from which it is
    /// made; or that of a process or a flow, and `number` is the greatest u64.
    #[error("event {event} needs a row or a flow that is out of range, by its number {number}")]
    RowOutOfRange {
        event: u64,
        number: u64,
    },
    /// The event counts 2^64 failed tests or running setup scripts or more, or has a number past
    /// u64; `event` is then the greatest u64.
    #[error("a count of event {event} is out of range")]
    CountOutOfRange {
        event: u64,
    },
    /// There was not enough memory.
    #[error("out of memory")]
    OutOfMemory,
}

/// Prints the error as `Display` does.
impl fmt::Debug for ChromeTraceError {
    fn fmt<W: fmt::Write>(&self, f: &mut fmt::Formatter<W>) -> fmt::Result {
        fmt::Display::fmt(self, f)
    }
}

impl From<AllocError> for ChromeTraceError {
    ghost from_gives = { λ _ e. e ≡ OutOfMemory };

    fn from(_error: AllocError) -> Self {
        ChromeTraceError::OutOfMemory
    }
}

impl From<LineError> for ChromeTraceError {
    ghost from_gives = { λ fault e. e ≡ fault_error fault };

    fn from(fault: LineError) -> Self {
        match fault {
            LineError::OutOfMemory => ChromeTraceError::OutOfMemory,
            LineError::ReadRunLog { .. } | LineError::ParseEvent { .. } =>
                ChromeTraceError::ReadError(fault),
        }
    }
}
