//! The error of a text that isn't read.
ghost use Rattle.rec_json.specs.declared.errors.ReadError.TheVariants.{Invalid, OutOfMemory};

use std::alloc::{AllocError, AllocFailed};
use thiserror::Error;

/// Says why no value is read from a text.
#[derive(Clone, Copy, PartialEq, Eq, Debug, Drop, Error)]
pub enum ReadError {
    /// Says that the text is not that of a JSON value.
    #[error("the text is no JSON value")]
    Invalid,
    /// Says that memory ran out before the text was judged.
    #[error("out of memory")]
    OutOfMemory,
}

impl From<json::Invalid> for ReadError {
    ghost use Rattle.std.specs.Prelude.{◌≡◌};

    ghost from_gives = { λ _ e. e ≡ Invalid };

    fn from(_error: json::Invalid) -> ReadError {
        ReadError::Invalid
    }
}

impl From<AllocError> for ReadError {
    ghost use Rattle.std.specs.Prelude.{◌≡◌};

    ghost from_gives = { λ _ e. e ≡ OutOfMemory };

    fn from(_error: AllocError) -> ReadError {
        ReadError::OutOfMemory
    }
}

impl<T: Drop> From<AllocFailed<T>> for ReadError {
    ghost use Rattle.std.specs.Prelude.{◌≡◌};

    ghost from_gives = { λ _ e. e ≡ OutOfMemory };

    fn from(_error: AllocFailed<T>) -> ReadError {
        ReadError::OutOfMemory
    }
}
