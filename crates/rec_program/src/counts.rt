//! The line that counts what was written.
ghost use Rattle.std.specs.Prelude.{◌≡◌, IfOk, string_bytes};
ghost use Rattle.rec_program.specs.Counts.{counts_line};

use std::alloc::{AllocError, Global};

/// Makes the line that says how many events and outputs were written.
#[tactic(auto, unfolding(crate::specs::Counts::counts_line))]
pub fn counts_line(alloc: Global, events: u64, outputs: u64) -> Result<String, AllocError>
    ensures { IfOk result (λ line. string_bytes line ≡ counts_line events outputs) }
{
    format!(in alloc; "events={events} outputs={outputs}\n")
}
