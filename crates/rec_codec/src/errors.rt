//! The causes for which an item isn't written.
ghost use Rattle.rec_codec.specs.declared.errors.ToValueError.TheVariants.{OutOfMemory};

use std::alloc::{AllocError, AllocFailed};
use thiserror::Error;

/// Names the cause for which no JSON value was made of an item.
#[derive(Clone, Copy, PartialEq, Eq, Debug, Drop, Error)]
pub enum ToValueError {
    /// An output in it was not loaded.
    #[error("an output is not loaded")]
    NotLoaded,
    /// There was not enough memory to write it.
    #[error("out of memory")]
    OutOfMemory,
}

impl From<AllocError> for ToValueError {
    ghost use Rattle.std.specs.Prelude.{◌≡◌};

    ghost from_gives = { λ _ e. e ≡ OutOfMemory };

    fn from(_error: AllocError) -> ToValueError {
        ToValueError::OutOfMemory
    }
}

impl<T: Drop> From<AllocFailed<T>> for ToValueError {
    ghost use Rattle.std.specs.Prelude.{◌≡◌};

    ghost from_gives = { λ _ e. e ≡ OutOfMemory };

    fn from(_error: AllocFailed<T>) -> ToValueError {
        ToValueError::OutOfMemory
    }
}
