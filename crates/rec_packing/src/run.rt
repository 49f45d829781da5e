//! The run of a directory: its manifest, and the head that the run ended with.
ghost use Rattle.std.specs.Prelude.{◌≡◌, ◌↔◌, ◌≤◌, IfOk, IfErr, IsTrue};
ghost use Rattle.rec_disk.specs.Disks.{HasDiskCause};
ghost use Rattle.rec_format.specs.Runs.{info_of};
ghost use Rattle.rec_packing.specs.declared.errors.PackError.TheVariants.{OtherRun};
ghost use Rattle.rec_packing.specs.Runs.{ClosedBy, HasManifest, IsOf, LacksManifest, Unclosed};
ghost use Rattle.rec_packing.specs.Runs.{ended_as, path_of_manifest};

use crate::errors::PackError;
use rec_codec::Line;
use rec_container::{Source, read_within};
use rec_directory::{join, read_file};
use rec_disk::{Disk, DiskError};
use rec_events::Text;
use rec_export::read_head;
use rec_format::{PORTABLE_MANIFEST_FILE_NAME, PortableManifest, RecordedRunInfo, SessionHead};
use rec_forms::{FromValueError, read_text};
use std::alloc::{AllocError, Global};

/// Reads the manifest of a run's directory.
pub(crate) fn read_manifest<D: Disk>(
    alloc: Global,
    disk: &mut D,
    run_dir: &str,
) -> Result<PortableManifest, PackError>
    ensures ok { IfOk result (HasManifest (D.files disk.old) run_dir.now) }
    ensures err { IfErr result
        (LacksManifest (D.files disk.old) (D.faults disk.old) (D.faults disk.new) run_dir.now) }
    ensures same { D.files disk.new ≡ D.files disk.old }
    ensures later { D.faults disk.old ≤ D.faults disk.new }
{
    let path = manifest_path(alloc, run_dir)?;
    let text = match read_file(alloc, disk, path.as_str()) {
        Ok(text) => text,
        Err(DiskError::Missing) => return Err(PackError::OpenManifest { path }),
        Err(DiskError::DiskFailed) => return Err(PackError::DiskFault { path }),
        Err(DiskError::OutOfMemory) => return Err(PackError::OutOfMemory),
    };
    match read_text(alloc, &text) {
        Ok(manifest) => Ok(manifest),
        Err(FromValueError::NotAValue) => Err(PackError::ParseManifest),
        Err(FromValueError::OutOfMemory) => Err(PackError::OutOfMemory),
    }
}

/// Returns where the manifest of a run's directory stands.
fn manifest_path(alloc: Global, run_dir: &str) -> Result<Text, AllocError>
    ensures { IfOk result (λ path. path ≡ path_of_manifest run_dir.now) }
{
    Ok(Text::new(join(alloc, run_dir, PORTABLE_MANIFEST_FILE_NAME)?))
}

/// Returns the run of a manifest, as it ended by the head that the source gives, if it gives one.
pub(crate) fn closed_run<S: Source>(
    alloc: Global,
    manifest: &PortableManifest,
    closing: &mut S,
    limit: u64,
) -> Result<RecordedRunInfo, PackError>
    ensures ok { IfOk result
        (ClosedBy S.left S.faults limit (info_of manifest.now.run) closing.old closing.new) }
    ensures err { IfErr result
        (Unclosed S.left S.faults limit (info_of manifest.now.run) closing.old closing.new) }
{
    let text = read_within(alloc, limit, closing)?;
    let run = manifest.run_info(alloc)?;
    if text.is_empty() {
        return Ok(run);
    }
    let line = Line {
        number: 1,
        bytes: &text,
    };
    match read_head(alloc, line.text()) {
        Ok(head) => {
            let closed = close(run, &head);
            head.discard();
            closed
        }
        Err(error) => {
            run.discard();
            Err(error.into())
        }
    }
}

/// Returns the run as it ended by its head.
fn close(run: RecordedRunInfo, head: &SessionHead) -> Result<RecordedRunInfo, PackError>
    ensures ok { IfOk result (λ closed. IsOf run head.now × (closed ≡ ended_as run head.now)) }
    ensures err { IfErr result (λ e. (e ≡ OtherRun) × ¬ IsOf run head.now) }
{
    if !is_of(&run, head) {
        run.discard();
        return Err(PackError::OtherRun);
    }
    let mut run = run;
    run.last_written_at = head.last_written_at;
    run.duration = head.duration;
    run.status = head.status;
    Ok(run)
}

/// Returns whether a head is of the run: of its id and its begin.
fn is_of(run: &RecordedRunInfo, head: &SessionHead) -> bool
    ensures { IsTrue result ↔ IsOf run.now head.now }
{
    head.run_id == run.run_id && head.started_at == run.started_at
}
