//! Why nothing is printed of a bundle.
ghost use Rattle.std.specs.Prelude.{◌≡◌};
ghost use Rattle.rec_errors.specs.declared.reading_error.ReadingError.TheVariants.{OutOfMemory};
ghost use Rattle.rec_errors.specs.ReadingErrors.{bundle_error, conversion_error, line_error};
ghost use Rattle.rec_errors.specs.ReadingErrors.{part_error, report_error, slot_error, trace_error};

use rec_codec::LineError;
use rec_events::Text;
use rec_junit::JunitError;
use rec_portable::PortableRecordingReadError;
use rec_replay::ReplayConversionError;
use rec_slots::SlotError;
use rec_spans::ChromeTraceError;
use rec_store::RecordReadError;
use std::alloc::{AllocError, AllocFailed};
use std::fmt;
use thiserror::Error;

/// Says why nothing is printed of a bundle. The source is judged first, then the bundle's length,
/// its bytes and its manifest; then the log, where something of it is printed; then, for its events
/// and its reports, the store, the record options and the test list; then the lines of the log,
/// from the first on; and last what is reported of all its events. Want of memory may come at any
/// time, and is never an inner error.
#[derive(Drop, Error)]
pub enum ReadingError {
    /// The bundle, its log or its store isn't read.
    #[error(transparent)]
    Bundle(PortableRecordingReadError),
    /// The log has no trace.
    #[error(transparent)]
    Trace(ChromeTraceError),
    /// The record options or the test list aren't read.
    #[error(transparent)]
    Part(RecordReadError),
    /// A line of the log gives no event.
    #[error(transparent)]
    Line(LineError),
    /// An event isn't replayed.
    #[error(transparent)]
    Conversion(ReplayConversionError),
    /// An event isn't reported.
    #[error(transparent)]
    Report(JunitError),
    /// The events have no report of their slots.
    #[error(transparent)]
    Slots(SlotError),
    /// The name of an output isn't that of its bytes.
    #[error("the output {} isn't what its name says", .file_name.as_str())]
    OutputChanged {
        /// The path of the output in the store.
        file_name: Text,
    },
    /// Memory ran out.
    #[error("out of memory")]
    OutOfMemory,
}

/// Prints the error as `Display` does.
impl fmt::Debug for ReadingError {
    fn fmt<W: fmt::Write>(&self, f: &mut fmt::Formatter<W>) -> fmt::Result {
        fmt::Display::fmt(self, f)
    }
}

impl From<PortableRecordingReadError> for ReadingError {
    ghost from_gives = { λ fault e. e ≡ bundle_error fault };

    fn from(error: PortableRecordingReadError) -> Self {
        match error {
            PortableRecordingReadError::OutOfMemory => ReadingError::OutOfMemory,
            fault => ReadingError::Bundle(fault),
        }
    }
}

impl From<ChromeTraceError> for ReadingError {
    ghost from_gives = { λ fault e. e ≡ trace_error fault };

    fn from(error: ChromeTraceError) -> Self {
        match error {
            ChromeTraceError::OutOfMemory => ReadingError::OutOfMemory,
            fault => ReadingError::Trace(fault),
        }
    }
}

impl From<RecordReadError> for ReadingError {
    ghost from_gives = { λ fault e. e ≡ part_error fault };

    fn from(error: RecordReadError) -> Self {
        match error {
            RecordReadError::OutOfMemory => ReadingError::OutOfMemory,
            fault => ReadingError::Part(fault),
        }
    }
}

impl From<LineError> for ReadingError {
    ghost from_gives = { λ fault e. e ≡ line_error fault };

    fn from(error: LineError) -> Self {
        match error {
            LineError::OutOfMemory => ReadingError::OutOfMemory,
            fault => ReadingError::Line(fault),
        }
    }
}

impl From<ReplayConversionError> for ReadingError {
    ghost from_gives = { λ fault e. e ≡ conversion_error fault };

    fn from(error: ReplayConversionError) -> Self {
        match error {
            ReplayConversionError::OutOfMemory => ReadingError::OutOfMemory,
            fault => ReadingError::Conversion(fault),
        }
    }
}

impl From<JunitError> for ReadingError {
    ghost from_gives = { λ fault e. e ≡ report_error fault };

    fn from(error: JunitError) -> Self {
        match error {
            JunitError::OutOfMemory => ReadingError::OutOfMemory,
            fault => ReadingError::Report(fault),
        }
    }
}

impl From<SlotError> for ReadingError {
    ghost from_gives = { λ fault e. e ≡ slot_error fault };

    fn from(error: SlotError) -> Self {
        match error {
            SlotError::OutOfMemory => ReadingError::OutOfMemory,
            fault => ReadingError::Slots(fault),
        }
    }
}

impl From<AllocError> for ReadingError {
    ghost from_gives = { λ _ e. e ≡ OutOfMemory };

    fn from(_error: AllocError) -> Self {
        ReadingError::OutOfMemory
    }
}

impl<T: Drop> From<AllocFailed<T>> for ReadingError {
    ghost from_gives = { λ _ e. e ≡ OutOfMemory };

    fn from(_error: AllocFailed<T>) -> Self {
        ReadingError::OutOfMemory
    }
}
