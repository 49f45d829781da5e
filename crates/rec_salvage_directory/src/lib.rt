//! Salvage of a recording that was stopped in a run's directory.
#![tactic(auto)]

ghost use Rattle.std.specs.Prelude.{◌≡◌, IfOk, IfErr};
ghost use Rattle.rec_directory.specs.Files.{IsWhole};
ghost use Rattle.rec_directory.specs.Paths.{path_of_log, path_of_store};
ghost use Rattle.rec_salvage_directory.specs.RunFiles.{HasCause, IsRefusedIn, LogUnread};
ghost use Rattle.rec_salvage_directory.specs.RunFiles.{SalvagesIn, StoreUnread};

use rec_directory::{join, read_file};
use rec_disk::{Disk, DiskError};
use rec_events::Text;
use rec_format::{RUN_LOG_FILE_NAME, RecordedRunInfo, STORE_ZIP_FILE_NAME};
use rec_salvage::{SalvageError, Salvaged, salvage};
use std::alloc::{AllocError, Global};

/// Makes the bundle of what is left of a recording in a run's directory, as [`salvage`] does. The
/// store is read first, and then the log.
///
/// # Errors
///
/// - `OpenArchive` exactly where the store is missing.
/// - `OpenRunLog` exactly where the store is there and the log is missing.
/// - `DiskFault` where the disk fails, with the path of the file.
/// - Those of [`salvage`].
pub fn salvage_dir<D: Disk>(
    alloc: Global,
    run: &RecordedRunInfo,
    disk: &mut D,
    run_dir: &str,
) -> Result<Salvaged, SalvageError>
    ensures ok { IfOk result (SalvagesIn (D.files disk.old) run.now run_dir.now) }
    ensures err { IfErr result (IsRefusedIn (D.files disk.old) run_dir.now) }
    ensures same { D.files disk.new ≡ D.files disk.old }
    ensures cause { HasCause (D.faults disk.old) (D.faults disk.new) result }
{
    let store = read_store(alloc, disk, run_dir)?;
    let log = read_log(alloc, disk, run_dir)?;
    salvage(alloc, run, &log, &store)
}

/// Reads a run's store.
///
/// # Errors
///
/// `OpenArchive` exactly where the store is missing, `DiskFault` where the disk fails, or
/// `OutOfMemory`.
pub fn read_store<D: Disk>(
    alloc: Global,
    disk: &mut D,
    run_dir: &str,
) -> Result<Vec<u8>, SalvageError>
    ensures ok { IfOk result
        (λ bytes. IsWhole (D.files disk.old) (path_of_store run_dir.now) bytes.items) }
    ensures err { IfErr result (StoreUnread (D.files disk.old) run_dir.now) }
    ensures same { D.files disk.new ≡ D.files disk.old }
    ensures cause { HasCause (D.faults disk.old) (D.faults disk.new) result }
{
    let path = Text::new(join(alloc, run_dir, STORE_ZIP_FILE_NAME)?);
    match read_file(alloc, disk, path.as_str()) {
        Ok(bytes) => Ok(bytes),
        Err(DiskError::Missing) => Err(SalvageError::OpenArchive { path }),
        Err(DiskError::DiskFailed) => Err(SalvageError::DiskFault { path }),
        Err(DiskError::OutOfMemory) => Err(SalvageError::OutOfMemory),
    }
}

/// Reads a run's log.
///
/// # Errors
///
/// `OpenRunLog` exactly where the log is missing, `DiskFault` where the disk fails, or
/// `OutOfMemory`.
pub fn read_log<D: Disk>(
    alloc: Global,
    disk: &mut D,
    run_dir: &str,
) -> Result<Vec<u8>, SalvageError>
    ensures ok { IfOk result
        (λ bytes. IsWhole (D.files disk.old) (path_of_log run_dir.now) bytes.items) }
    ensures err { IfErr result (LogUnread (D.files disk.old) run_dir.now) }
    ensures same { D.files disk.new ≡ D.files disk.old }
    ensures cause { HasCause (D.faults disk.old) (D.faults disk.new) result }
{
    let path = log_path(alloc, run_dir)?;
    match read_file(alloc, disk, path.as_str()) {
        Ok(bytes) => Ok(bytes),
        Err(DiskError::Missing) => Err(SalvageError::OpenRunLog { path }),
        Err(DiskError::DiskFailed) => Err(SalvageError::DiskFault { path }),
        Err(DiskError::OutOfMemory) => Err(SalvageError::OutOfMemory),
    }
}

/// Returns where a run's log stands.
fn log_path(alloc: Global, run_dir: &str) -> Result<Text, AllocError>
    ensures { IfOk result (λ path. path ≡ path_of_log run_dir.now) }
{
    Ok(Text::new(join(alloc, run_dir, RUN_LOG_FILE_NAME)?))
}
