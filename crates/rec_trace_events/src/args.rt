//! What is written as the args of a trace event.
ghost use Rattle.std.specs.Prelude.{◌≡◌, ◌++◌, [], OnOk};
ghost use Rattle.serde_json.specs.Data.{Data};
ghost use Rattle.rec_json.specs.Tokens.{value_tokens};
ghost use Rattle.rec_trace_events.specs.EventTexts.{IsArgs};

use rec_json::JsonText;
use std::alloc::{AllocError, Global};

/// Writes the args of a trace event, which are a JSON object. `docs/FORMATS.md#args` lists the
/// members that each has.
pub trait Args {
    /// Names the value that they are written as.
    ghost value_of: { Self → Data };

    /// Writes the args at the end of `text`.
    ///
    /// # Errors
    ///
    /// `AllocError` if memory runs out; then `text` may hold a part of the args.
    fn write(&self, alloc: Global, text: &mut JsonText) -> Result<(), AllocError>
        ensures written { OnOk result (text.new ≡ text.old ++ value_tokens (value_of self.now)) }
        ensures known { OnOk result (IsArgs (value_of self.now)) };
}

/// Names the type of args where an event has none.
#[derive(Drop)]
pub struct NoArgs;

impl Args for NoArgs {
    ghost use Rattle.std.specs.Prelude.{[]};
    ghost use Rattle.rec_json.specs.Fields.{struct};

    ghost value_of = { λ _. struct [] };

    fn write(&self, _alloc: Global, text: &mut JsonText) -> Result<(), AllocError> {
        text.begin_object()?;
        text.end_struct()?;
        Ok(())
    }
}
