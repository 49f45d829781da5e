//! Where outputs are stored.
ghost use Rattle.std.specs.Prelude.{◌≡◌, IfOk, string_bytes};
ghost use Rattle.rec_store.specs.OutputPaths as spec;

use rec_events::OutputFileName;
use std::alloc::{AllocError, Global};

/// Returns the path of the output of this name in a store: `out/`, and the name.
///
/// # Errors
///
/// `AllocError` comes where memory ran out.
#[tactic(auto, unfolding(crate::specs::OutputPaths::output_path))]
pub fn output_path(alloc: Global, name: OutputFileName) -> Result<String, AllocError>
    ensures { IfOk result (λ path. string_bytes path ≡ spec.output_path name) }
{
    let mut path = String::from_str(alloc, "out/")?;
    path.push_str(name.text(alloc)?.as_str())?;
    Ok(path)
}
