//! Why an event is refused.
ghost use Rattle.rec_junit.specs.declared.errors.JunitError.TheVariants.{OutOfMemory};

use std::alloc::{AllocError, AllocFailed};
use thiserror::Error;

/// Says why an event is refused.
#[derive(Clone, Copy, Debug, Drop, Error)]
pub enum JunitError {
    /// Says that an output is to be stored and was not loaded.
    #[error("an output that the report holds was not loaded")]
    NotLoadedOutput,
    /// Says that an attempt which is to be reported as a failure passed.
    #[error("an attempt that passed stands where one that failed is reported")]
    SuccessAsFailure,
    /// Says that memory ran out.
    #[error("out of memory")]
    OutOfMemory,
}

impl From<AllocError> for JunitError {
    ghost use Rattle.std.specs.Prelude.{◌≡◌};

    ghost from_gives = { λ _ e. e ≡ OutOfMemory };

    fn from(_error: AllocError) -> JunitError {
        JunitError::OutOfMemory
    }
}

impl<T: Drop> From<AllocFailed<T>> for JunitError {
    ghost use Rattle.std.specs.Prelude.{◌≡◌};

    ghost from_gives = { λ _ e. e ≡ OutOfMemory };

    fn from(_error: AllocFailed<T>) -> JunitError {
        JunitError::OutOfMemory
    }
}
