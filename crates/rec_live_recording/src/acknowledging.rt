//! The acknowledgements of a recording.
ghost use Rattle.std.specs.Prelude.{◌≡◌, IfOk, string_bytes};
ghost use Rattle.rec_live_recording.specs.Acknowledgements.{Acknowledges, count_line};

use crate::errors::LiveError;
use rec_container::{Sink, write_all};
use std::alloc::{AllocError, Global};

/// Writes that so many events were accepted, in one call.
///
/// # Errors
///
/// `OutFault` comes where the sink fails. It took a proper prefix of the line. `OutOfMemory` comes
/// where memory runs out, before the sink took anything.
pub fn acknowledge<O: Sink>(alloc: Global, count: u64, out: &mut O) -> Result<(), LiveError>
    ensures { Acknowledges O.taken O.faults count out.old out.new result }
{
    let line = count_line(alloc, count)?;
    match write_all(out, line.as_bytes()) {
        Ok(()) => Ok(()),
        Err(_) => Err(LiveError::OutFault),
    }
}

/// Makes the line that says that so many events were accepted.
fn count_line(alloc: Global, count: u64) -> Result<String, AllocError>
    ensures { IfOk result (λ line. string_bytes line ≡ count_line count) }
{
    format!(in alloc; "accepted={count}\n")
}
