//! A bundle of a run's files, on the disk that has them.
ghost use Rattle.std.specs.Prelude.{◌≡◌, ◌≤◌, IfOk, IfErr};
ghost use Rattle.rec_disk.specs.Disks.{BothKnown};
ghost use Rattle.rec_portable_writer.specs.Packing as packing;
ghost use Rattle.rec_portable_writer.specs.Packing.{Bundles, PacksIn, Unbundled};

use crate::errors::PortableRecordingError;
use crate::names::temporary_path;
use crate::replacing::replace_file;
use crate::run_files::read_run_file;
use rec_disk::{Disk, DiskError};
use rec_events::Text;
use rec_format::{PortableManifest, RUN_LOG_FILE_NAME, RecordedRunInfo, STORE_ZIP_FILE_NAME};
use rec_portable::bundle_text;
use std::alloc::Global;

/// Says where a bundle was written, and how long it is.
#[derive(Debug, PartialEq, Drop)]
pub struct PortableRecordingResult {
    /// The bundle's path.
    pub path: Text,
    /// Its length in bytes.
    pub size: u64,
}

/// Makes the bundle of a run's files in memory, and writes it to a path.
///
/// # Errors
///
/// `ReadFile`, `WriteFile` or `OutOfMemory`. The file at the path and the run's own are as they
/// were.
pub(crate) fn write_bundle<D: Disk>(
    alloc: Global,
    disk: &mut D,
    run_info: &RecordedRunInfo,
    run_dir: &str,
    output_path: &str,
) -> Result<PortableRecordingResult, PortableRecordingError>
    ensures packs { BothKnown (D.files disk.old) (D.files disk.new)
        (λ fs gs. PacksIn fs gs (D.faults disk.old) (D.faults disk.new) run_info.now run_dir.now
        output_path.now result) }
    ensures later { D.faults disk.old ≤ D.faults disk.new }
{
    let bundle = make_bundle(alloc, disk, run_info, run_dir)?;
    let temporary = temporary_path(alloc, output_path)?;
    let path = Text::from_str(alloc, output_path)?;
    match replace_file(disk, temporary.as_str(), output_path, &bundle) {
        Ok(()) => Ok(PortableRecordingResult {
            path,
            size: bundle.len() as u64,
        }),
        Err(error) => Err(write_error(path, error)),
    }
}

/// Returns why a bundle isn't written.
fn write_error(path: Text, error: DiskError) -> PortableRecordingError
    ensures { result ≡ packing.write_error path error }
{
    match error {
        DiskError::Missing | DiskError::DiskFailed => PortableRecordingError::WriteFile { path },
        DiskError::OutOfMemory => PortableRecordingError::OutOfMemory,
    }
}

/// Makes the bundle of a run's files in memory.
fn make_bundle<D: Disk>(
    alloc: Global,
    disk: &mut D,
    run_info: &RecordedRunInfo,
    run_dir: &str,
) -> Result<Vec<u8>, PortableRecordingError>
    ensures ok { IfOk result
        (λ bundle. Bundles (D.files disk.old) run_info.now run_dir.now bundle.items) }
    ensures err { IfErr result
        (Unbundled (D.files disk.old) (D.faults disk.old) (D.faults disk.new) run_dir.now) }
    ensures same { D.files disk.new ≡ D.files disk.old }
    ensures later { D.faults disk.old ≤ D.faults disk.new }
{
    let log = read_run_file(alloc, disk, run_dir, RUN_LOG_FILE_NAME)?;
    let store = read_run_file(alloc, disk, run_dir, STORE_ZIP_FILE_NAME)?;
    let manifest = PortableManifest::new(alloc, run_info)?;
    Ok(bundle_text(alloc, &manifest, &log, &store)?)
}
