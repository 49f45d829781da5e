//! Where files are kept.
ghost use Rattle.std.specs.declared.option.Option.{Option};
ghost use Rattle.std.specs.Io.{ReadsAtMost};
ghost use Rattle.std.specs.Prelude.{◌≡◌, ◌<◌, ◌≤◌, ℕ, length, IfOk, IfErr};
ghost use Rattle.rec_disk.specs.declared.disk.DiskError.TheVariants.{OutOfMemory};
ghost use Rattle.rec_disk.specs.Disks.{Files, HasDiskCause, Exists, IsLength, ReadsAt};
ghost use Rattle.rec_disk.specs.Disks.{Creates, AppendsTo, Renames, NotMissing};

use std::alloc::{AllocError, AllocFailed};
use thiserror::Error;

/// Says why a disk did not do what it was asked. Its files are as they were, where they are
/// known.
#[derive(Clone, Copy, Debug, PartialEq, Eq, Error)]
pub enum DiskError {
    /// No file stands at the path that was named. `exists` and `create` never answer this.
    #[error("no such file")]
    Missing,
    /// The disk failed. Its count of faults rose.
    #[error("the disk failed")]
    DiskFailed,
    /// Memory ran out.
    #[error("out of memory")]
    OutOfMemory,
}

impl From<AllocError> for DiskError {
    ghost from_gives = { λ _ e. e ≡ OutOfMemory };

    fn from(_error: AllocError) -> Self {
        DiskError::OutOfMemory
    }
}

impl<T: Drop> From<AllocFailed<T>> for DiskError {
    ghost from_gives = { λ _ e. e ≡ OutOfMemory };

    fn from(_error: AllocFailed<T>) -> Self {
        DiskError::OutOfMemory
    }
}

/// Keeps files, by their paths.
///
/// An implementation counts its faults, and answers `DiskFailed` only where that count rises. A
/// call changes no file that it doesn't name, and none where it answers an error, as far as the
/// files are known.
pub trait Disk {
    /// Names the files, where they are known.
    ghost files: { Self → Option Files };

    /// Counts how often it has failed. The count stays at u64's greatest once it is there.
    ghost faults: { Self → ℕ };

    /// Returns whether the path is a file's, or a file lies below it.
    ///
    /// # Errors
    ///
    /// `DiskFailed` means that the disk failed and counted it, and `OutOfMemory` that memory ran
    /// out. `Missing` never comes.
    fn exists(&mut self, path: &str) -> Result<bool, DiskError>
        ensures answer { Exists (files self.old) path.now result }
        ensures same { files self.new ≡ files self.old }
        ensures cause { HasDiskCause (faults self.old) (faults self.new) result };

    /// Returns how many bytes a file has.
    ///
    /// # Errors
    ///
    /// `Missing` means that no file stands at the path, `DiskFailed` that the disk failed and
    /// counted it, and `OutOfMemory` that memory ran out.
    fn len(&mut self, path: &str) -> Result<u64, DiskError>
        ensures answer { IsLength (files self.old) path.now result }
        ensures same { files self.new ≡ files self.old }
        ensures cause { HasDiskCause (faults self.old) (faults self.new) result };

    /// Moves bytes of a file, from `at` on, to the start of `buf`, and answers how many.
    ///
    /// With room in `buf`, 0 means that the file ends at `at` or before it.
    ///
    /// # Errors
    ///
    /// `Missing` means that no file stands at the path, `DiskFailed` that the disk failed and
    /// counted it, and `OutOfMemory` that memory ran out.
    fn read(&mut self, path: &str, at: u64, buf: &mut [u8]) -> Result<usize, DiskError>
        ensures bound { ReadsAtMost result buf.new }
        ensures answer { ReadsAt (files self.old) path.now at result buf.new }
        ensures same { files self.new ≡ files self.old }
        ensures cause { HasDiskCause (faults self.old) (faults self.new) result };

    /// Makes an empty file, or empties the one that is there.
    ///
    /// # Errors
    ///
    /// `DiskFailed` means that the disk failed and counted it, and `OutOfMemory` that memory ran
    /// out. `Missing` never comes. The files are as they were, where they are known.
    fn create(&mut self, path: &str) -> Result<(), DiskError>
        ensures answer { Creates (files self.old) (files self.new) path.now result }
        ensures present { IfErr result NotMissing }
        ensures cause { HasDiskCause (faults self.old) (faults self.new) result };

    /// Puts the first bytes of `piece` after a file's, and answers how many: at least one, unless
    /// it is empty.
    ///
    /// # Errors
    ///
    /// `Missing` means that no file stands at the path, `DiskFailed` that the disk failed and
    /// counted it, and `OutOfMemory` that memory ran out. The files are as they were, where they
    /// are known.
    fn append(&mut self, path: &str, piece: &[u8]) -> Result<usize, DiskError>
        ensures bound { IfOk result (λ n. n ≤ length piece.now) }
        ensures progress { IfOk result (λ n. 0 < length piece.now → 0 < n) }
        ensures answer { AppendsTo (files self.old) (files self.new) path.now piece.now result }
        ensures cause { HasDiskCause (faults self.old) (faults self.new) result };

    /// Gives a file another path, in the place of a file that is there.
    ///
    /// # Errors
    ///
    /// `Missing` means that no file stands at `from`, `DiskFailed` that the disk failed and counted
    /// it, and `OutOfMemory` that memory ran out. The files are as they were, where they are known.
    fn rename(&mut self, from: &str, to: &str) -> Result<(), DiskError>
        ensures answer { Renames (files self.old) (files self.new) from.now to.now result }
        ensures cause { HasDiskCause (faults self.old) (faults self.new) result };
}
