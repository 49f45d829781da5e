//! The files of a run's directory, as a bundle needs them.
ghost use Rattle.std.specs.Prelude.{◌≡◌, ◌≤◌, IfOk, IfErr, OnOk, string_bytes};
ghost use Rattle.rec_directory.specs.Directories.{IsOpened};
ghost use Rattle.rec_directory.specs.Files.{IsWhole};
ghost use Rattle.rec_directory.specs.Paths.{joined};
ghost use Rattle.rec_portable_writer.specs.Packing.{Unread};
ghost use Rattle.rec_portable_writer.specs.Preparing.{HasFiles, HasOne, IsMissingFile};
ghost use Rattle.rec_portable_writer.specs.Preparing.{LacksDirectory, LacksOne, Unprepared};

use crate::errors::PortableRecordingError;
use rec_directory::{join, read_file};
use rec_disk::{Disk, DiskError};
use rec_events::Text;
use rec_format::{RUN_LOG_FILE_NAME, STORE_ZIP_FILE_NAME};
use std::alloc::{AllocError, Global};

/// Checks that a run's directory is there, then its store, then its log.
pub(crate) fn check_run<D: Disk>(
    alloc: Global,
    disk: &mut D,
    run_dir: &str,
) -> Result<(), PortableRecordingError>
    ensures ok { OnOk result (HasFiles (D.files disk.old) run_dir.now) }
    ensures err { IfErr result (Unprepared D.files D.faults disk.old run_dir.now) }
    ensures same { D.files disk.new ≡ D.files disk.old }
    ensures later { D.faults disk.old ≤ D.faults disk.new }
{
    check_directory(alloc, disk, run_dir)?;
    check_file(alloc, disk, run_dir, STORE_ZIP_FILE_NAME)?;
    check_file(alloc, disk, run_dir, RUN_LOG_FILE_NAME)
}

/// Checks that a directory is there.
fn check_directory<D: Disk>(
    alloc: Global,
    disk: &mut D,
    run_dir: &str,
) -> Result<(), PortableRecordingError>
    ensures ok { OnOk result (IsOpened (D.files disk.old) run_dir.now) }
    ensures err { IfErr result (LacksDirectory D.files D.faults disk.old run_dir.now) }
    ensures same { D.files disk.new ≡ D.files disk.old }
    ensures later { D.faults disk.old ≤ D.faults disk.new }
{
    let path = Text::from_str(alloc, run_dir)?;
    match disk.exists(run_dir) {
        Ok(true) => Ok(()),
        Ok(false) => Err(PortableRecordingError::RunDirNotFound { path }),
        Err(DiskError::OutOfMemory) => Err(PortableRecordingError::OutOfMemory),
        Err(_) => Err(PortableRecordingError::DiskFault { path }),
    }
}

/// Checks that a file of a directory is there.
fn check_file<D: Disk>(
    alloc: Global,
    disk: &mut D,
    run_dir: &str,
    name: &str,
) -> Result<(), PortableRecordingError>
    ensures ok { OnOk result (HasOne (D.files disk.old) (joined run_dir.now name.now)) }
    ensures err { IfErr result (LacksOne D.files D.faults disk.old run_dir.now name.now) }
    ensures same { D.files disk.new ≡ D.files disk.old }
    ensures later { D.faults disk.old ≤ D.faults disk.new }
{
    let path = Text::new(join(alloc, run_dir, name)?);
    match disk.len(path.as_str()) {
        Ok(_) => Ok(()),
        Err(DiskError::Missing) => Err(missing(alloc, run_dir, name)),
        Err(DiskError::DiskFailed) => Err(PortableRecordingError::DiskFault { path }),
        Err(DiskError::OutOfMemory) => Err(PortableRecordingError::OutOfMemory),
    }
}

/// Returns the refusal of a directory that lacks a file.
fn missing(alloc: Global, run_dir: &str, name: &str) -> PortableRecordingError
    ensures { IsMissingFile run_dir.now name.now result }
{
    match names_of(alloc, run_dir, name) {
        Ok((run_dir, file_name)) => PortableRecordingError::RequiredFileMissing {
            run_dir,
            file_name,
        },
        Err(error) => PortableRecordingError::from(error),
    }
}

/// Copies the names of a directory and of a file.
fn names_of(alloc: Global, run_dir: &str, name: &str) -> Result<(Text, Text), AllocError>
    ensures { IfOk result (λ x. (x.0 ≡ run_dir.now) × (x.1 ≡ name.now)) }
{
    Ok((
        Text::from_str(alloc, run_dir)?,
        Text::from_str(alloc, name)?,
    ))
}

/// Reads a file of a run's directory.
///
/// # Errors
///
/// `ReadFile` where the file is missing or the disk fails, or `OutOfMemory`.
pub(crate) fn read_run_file<D: Disk>(
    alloc: Global,
    disk: &mut D,
    run_dir: &str,
    name: &str,
) -> Result<Vec<u8>, PortableRecordingError>
    ensures ok { IfOk result
        (λ bytes. IsWhole (D.files disk.old) (joined run_dir.now name.now) bytes.items) }
    ensures err { IfErr result
        (Unread (D.files disk.old) (D.faults disk.old) (D.faults disk.new) run_dir.now name.now) }
    ensures same { D.files disk.new ≡ D.files disk.old }
    ensures later { D.faults disk.old ≤ D.faults disk.new }
{
    let file_name = Text::from_str(alloc, name)?;
    let path = join(alloc, run_dir, name)?;
    match read_file(alloc, disk, path.as_str()) {
        Ok(bytes) => Ok(bytes),
        Err(DiskError::OutOfMemory) => Err(PortableRecordingError::OutOfMemory),
        Err(_) => Err(PortableRecordingError::ReadFile { file_name }),
    }
}
