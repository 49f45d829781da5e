//! Files that are read into memory.
ghost use Rattle.std.specs.Prelude.{◌≡◌, ◌≤◌, IfOk, IfErr, vec_len};
ghost use Rattle.rec_disk.specs.Disks.{HasDiskCause};
ghost use Rattle.rec_directory.specs.Files.{IsPrefix, IsUnread, IsWhole};

use rec_disk::{Disk, DiskError};
use std::alloc::Global;

// The most bytes that are asked for at once.
const PIECE: usize = 65536;

/// Reads a file up to the length that it has at first.
///
/// # Errors
///
/// Those of the disk, of which `Missing` means that no file stands at the path, or `OutOfMemory`.
pub fn read_file<D: Disk>(alloc: Global, disk: &mut D, path: &str) -> Result<Vec<u8>, DiskError>
    ensures ok { IfOk result (λ bytes. IsWhole (D.files disk.old) path.now bytes.items) }
    ensures err { IfErr result (IsUnread (D.files disk.old) path.now) }
    ensures same { D.files disk.new ≡ D.files disk.old }
    ensures cause { HasDiskCause (D.faults disk.old) (D.faults disk.new) result }
{
    let len = disk.len(path)?;
    read_prefix(alloc, disk, path, len)
}

/// Reads the first `len` bytes of a file, or all where it has fewer. It asks for no byte after
/// them, and ends where a read gives nothing.
///
/// # Errors
///
/// Those of [`read_file`].
pub(crate) fn read_prefix<D: Disk>(
    alloc: Global,
    disk: &mut D,
    path: &str,
    len: u64,
) -> Result<Vec<u8>, DiskError>
    ensures ok { IfOk result (λ bytes. IsPrefix (D.files disk.old) path.now len bytes.items) }
    ensures within { IfOk result (λ bytes. vec_len bytes ≤ len) }
    ensures err { IfErr result (IsUnread (D.files disk.old) path.now) }
    ensures same { D.files disk.new ≡ D.files disk.old }
    ensures cause { HasDiskCause (D.faults disk.old) (D.faults disk.new) result }
{
    let mut bytes = Vec::with_capacity(alloc, len as usize)?;
    let mut piece = [0u8; PIECE];
    'pieces: while (bytes.len() as u64) < len {
        let at = bytes.len() as u64;
        let ask = (len - at).min(PIECE as u64) as usize;
        let window = &mut piece[..ask];
        let count = disk.read(path, at, window)?;
        if count == 0 {
            return Ok(bytes);
        }
        if bytes.extend_from_slice(&window[..count]).is_err() {
            return Err(DiskError::OutOfMemory);
        }
    }
    Ok(bytes)
}
