//! The error of a value or a text that is not read.
ghost use Rattle.rec_forms.specs.declared.errors.FromValueError.TheVariants.{OutOfMemory};

use std::alloc::{AllocError, AllocFailed};
use thiserror::Error;

/// Says why no item is read from a JSON value or a text.
#[derive(Clone, Copy, PartialEq, Eq, Debug, Drop, Error)]
pub enum FromValueError {
    /// Says that the value stands for no item of the type, or that the text is no JSON value.
    #[error("the value stands for no item of the type")]
    NotAValue,
    /// Says that memory ran out before the value was judged.
    #[error("out of memory")]
    OutOfMemory,
}

impl From<AllocError> for FromValueError {
    ghost use Rattle.std.specs.Prelude.{◌≡◌};

    ghost from_gives = { λ _ e. e ≡ OutOfMemory };

    fn from(_error: AllocError) -> FromValueError {
        FromValueError::OutOfMemory
    }
}

impl<T: Drop> From<AllocFailed<T>> for FromValueError {
    ghost use Rattle.std.specs.Prelude.{◌≡◌};

    ghost from_gives = { λ _ e. e ≡ OutOfMemory };

    fn from(_error: AllocFailed<T>) -> FromValueError {
        FromValueError::OutOfMemory
    }
}
