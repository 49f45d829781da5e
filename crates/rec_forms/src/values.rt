//! Values in memory, for those who want more than the text.
ghost use Rattle.std.specs.Prelude.{◌≡◌, ◌≢◌, None, Some, IfOk};
ghost use Rattle.serde_json.specs.Data.{Data};
ghost use Rattle.serde_json.specs.Read.{read};
ghost use Rattle.serde_json.specs.View.{view};
ghost use Rattle.rec_forms.specs.Gives.{GivesBy};

use crate::FromValueError;
use serde_json::Value;
use std::alloc::{AllocError, Global};

/// Makes the value of a text that was written as JSON.
///
/// # Errors
///
/// `AllocError` if memory runs out.
pub fn value_of_text(alloc: Global, text: &str) -> Result<Value, AllocError>
    requires { read text.now ≢ None }
    ensures { (d : Data) → read text.now ≡ Some d → IfOk result (λ v. view v ≡ d) }
{
    match parse_value(alloc, text) {
        Ok(value) => Ok(value),
        Err(FromValueError::OutOfMemory) => Err(AllocError),
        Err(FromValueError::NotAValue) => unreachable!(),
    }
}

/// Reads the value of a JSON text.
fn parse_value(alloc: Global, text: &str) -> Result<Value, FromValueError>
    ensures { GivesBy view result (read text.now) }
{
    match Value::from_str(alloc, text) {
        Ok(value) => Ok(value),
        Err(error) => {
            if error.is_memory() {
                Err(FromValueError::OutOfMemory)
            } else {
                Err(FromValueError::NotAValue)
            }
        }
    }
}
