//! The names of a run and of its bundle.
ghost use Rattle.std.specs.Prelude.{◌≡◌, IfOk, string_bytes};
ghost use Rattle.rec_portable_writer.specs.Names.{
  bundle_name,
  run_path,
  temporary_path as temporary_of,
};

use rec_directory::join;
use rec_events::ReportUuid;
use std::alloc::{AllocError, Global};

/// Returns the name that the bundle of a run has by default.
pub(crate) fn default_name(alloc: Global, run_id: ReportUuid) -> Result<String, AllocError>
    ensures { IfOk result (λ name. string_bytes name ≡ bundle_name run_id) }
{
    format!(in alloc; "nextest-run-{run_id}.zip")
}

/// Returns the path of a run's directory.
pub(crate) fn run_dir(
    alloc: Global,
    runs_dir: &str,
    run_id: ReportUuid,
) -> Result<String, AllocError>
    ensures { IfOk result (λ path. string_bytes path ≡ run_path runs_dir.now run_id) }
{
    let name = format!(in alloc; "{run_id}")?;
    join(alloc, runs_dir, &name)
}

/// Returns the path under which a file is written until it is whole.
///
/// # Errors
///
/// `AllocError` where memory is short.
pub fn temporary_path(alloc: Global, path: &str) -> Result<String, AllocError>
    ensures { IfOk result (λ temporary. string_bytes temporary ≡ temporary_of path.now) }
{
    let mut temporary = String::from_str(alloc, path)?;
    temporary.push_str(".tmp")?;
    Ok(temporary)
}
