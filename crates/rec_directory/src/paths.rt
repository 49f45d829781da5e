//! Paths on a disk.
ghost use Rattle.std.specs.Prelude.{◌≡◌, IfOk, string_bytes};
ghost use Rattle.rec_directory.specs.Paths.{joined, ends_open};

use std::alloc::{AllocError, Global};

/// Returns the path of a name in a directory: one `/` stands between them, but none where the
/// directory is empty or ends in `/`.
///
/// # Errors
///
/// `AllocError` where memory is short.
pub fn join(alloc: Global, dir: &str, name: &str) -> Result<String, AllocError>
    ensures { IfOk result (λ path. string_bytes path ≡ joined dir.now name.now) }
{
    let mut path = String::from_str(alloc, dir)?;
    if !is_open(dir) {
        path.push_str("/")?;
    }
    path.push_str(name)?;
    Ok(path)
}

/// Returns whether a name goes right after a directory's path.
fn is_open(dir: &str) -> bool
    ensures { result ≡ ends_open dir.now }
{
    dir.is_empty() || dir.ends_with('/')
}
