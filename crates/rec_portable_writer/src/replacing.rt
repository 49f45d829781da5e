//! Files that take the place of others only when they are whole.
ghost use Rattle.std.specs.Prelude.{◌≡◌};
ghost use Rattle.rec_disk.specs.Disks.{HasDiskCause};
ghost use Rattle.rec_portable_writer.specs.Replacing.{Replaces, Writes};

use rec_disk::{Disk, DiskError};

/// Writes a file under a temporary path, and gives it its own path once it is whole.
///
/// # Errors
///
/// Those of the disk, of which `Missing` never comes where the disk says its files. The file at
/// `path` is as it was; the one at `temporary` may hold a prefix of the bytes.
pub fn replace_file<D: Disk>(
    disk: &mut D,
    temporary: &str,
    path: &str,
    bytes: &[u8],
) -> Result<(), DiskError>
    ensures answer { Replaces (D.files disk.old) (D.files disk.new) temporary.now path.now bytes.now
        result }
    ensures cause { HasDiskCause (D.faults disk.old) (D.faults disk.new) result }
{
    write_file(disk, temporary, bytes)?;
    disk.rename(temporary, path)
}

/// Writes a file, in the place of one that is there.
///
/// # Errors
///
/// Those of [`replace_file`]. The file is as it was, or holds a prefix of the bytes.
fn write_file<D: Disk>(disk: &mut D, path: &str, bytes: &[u8]) -> Result<(), DiskError>
    ensures answer { Writes (D.files disk.old) (D.files disk.new) path.now bytes.now result }
    ensures cause { HasDiskCause (D.faults disk.old) (D.faults disk.new) result }
{
    disk.create(path)?;
    let mut at = 0;
    'pieces: while at < bytes.len() {
        let count = disk.append(path, &bytes[at..])?;
        at += count;
    }
    Ok(())
}
