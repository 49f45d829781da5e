//! Why a recorded event does not become a live one.
ghost use Rattle.std.specs.Prelude.{◌≡◌};
ghost use Rattle.rec_replay.specs.Conversions.{conversion_error};
ghost use Rattle.rec_replay.specs.declared.conversion_error.ReplayConversionError.TheVariants
    as converting;

use rec_events::{RustBinaryId, TestCaseName};
use rec_store::RecordReadError;
use std::alloc::AllocError;
use std::fmt;
use thiserror::Error;

/// Says why a recorded event does not become a live one.
#[derive(Debug, Drop, Error)]
pub enum ReplayConversionError {
    /// The event names a test that isn't registered.
    TestNotFound {
        binary_id: RustBinaryId,
        test_name: TestCaseName,
    },
    /// An output of the event was not read. It is no want of memory.
    RecordRead(RecordReadError),
    /// The event starts a stress run of no runs.
    InvalidStressCount,
    /// Memory ran out.
    OutOfMemory,
}

impl fmt::Display for ReplayConversionError {
    ghost use Rattle.std.specs.Prelude.{Some};
    ghost use Rattle.rec_replay.specs.Conversions.{error_text};

    ghost output = { λ e. Some (error_text e) };

    fn fmt<W: fmt::Write>(&self, f: &mut fmt::Formatter<W>) -> fmt::Result {
        match self {
            ReplayConversionError::TestNotFound {
                binary_id,
                test_name,
            } => write!(
                f,
                "test not found under `{}`: {}",
                binary_id.as_str(),
                test_name.as_str()
            ),
            ReplayConversionError::RecordRead(_) => f.write_str("error reading record"),
            ReplayConversionError::InvalidStressCount => {
                f.write_str("invalid stress count: expected non-zero value, got 0")
            }
            ReplayConversionError::OutOfMemory => f.write_str("out of memory"),
        }
    }
}

impl From<AllocError> for ReplayConversionError {
    ghost from_gives = { λ _ e. e ≡ converting.OutOfMemory };

    fn from(_error: AllocError) -> ReplayConversionError {
        ReplayConversionError::OutOfMemory
    }
}

/// Want of memory stays so, and any other error is why a record was not read.
impl From<RecordReadError> for ReplayConversionError {
    ghost from_gives = { λ read error. error ≡ conversion_error read };

    fn from(read: RecordReadError) -> ReplayConversionError {
        match read {
            RecordReadError::OutOfMemory => ReplayConversionError::OutOfMemory,
            read => ReplayConversionError::RecordRead(read),
        }
    }
}
