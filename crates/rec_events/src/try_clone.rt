//! Copies of what holds memory.
ghost use Rattle.std.specs.Prelude.{◌≡◌, IfOk};

use std::alloc::{AllocError, Global};

/// Copies a value into an equal one, where there is memory.
pub trait TryClone: Sized {
    /// Returns a copy that is equal to `self`.
    ///
    /// # Errors
    ///
    /// `AllocError` means that there was not enough memory.
    fn try_clone(&self, alloc: Global) -> Result<Self, AllocError>
        ensures copy { IfOk result (λ t. t ≡ self.now) };
}

impl<T: TryClone> TryClone for Option<T> {
    fn try_clone(&self, alloc: Global) -> Result<Option<T>, AllocError> {
        match self {
            Some(value) => Ok(Some(value.try_clone(alloc)?)),
            None => Ok(None),
        }
    }
}

/// Copies two values.
///
/// # Errors
///
/// `AllocError` means that there was not enough memory.
pub fn clone_both<A: TryClone + Drop, B: TryClone + Drop>(
    alloc: Global,
    first: &A,
    second: &B,
) -> Result<(A, B), AllocError>
    ensures copies { IfOk result (λ copies. copies ≡ (first.now, second.now)) }
{
    let first = first.try_clone(alloc)?;
    let Ok(second) = second.try_clone(alloc) else {
        drop(first);
        return Err(AllocError);
    };
    Ok((first, second))
}
