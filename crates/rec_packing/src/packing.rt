//! The bundle of a run's directory, and where it is written.
ghost use Rattle.std.specs.Prelude.{◌≡◌, ◌≤◌, IfOk, IfErr, Ok};
ghost use Rattle.rec_portable_writer.specs.Names.{temporary_path as temporary_of};
ghost use Rattle.rec_portable_writer.specs.Replacing.{Replaces};
ghost use Rattle.rec_packing.specs.Faults as faults;
ghost use Rattle.rec_packing.specs.Packing.{Ends, IsRefused, LeavesFiles, Makes, MakesNone, Packs};
ghost use Rattle.rec_packing.specs.Packing.{Unwritten, ends_a_line, is_whole};

use crate::errors::PackError;
use crate::run::{closed_run, read_manifest};
use rec_container::{Container, ContainerError, Source};
use rec_disk::{Disk, DiskError};
use rec_format::RecordedRunInfo;
use rec_portable_writer::{replace_file, temporary_path};
use rec_salvage::{Salvaged, salvage};
use rec_salvage_directory::{read_log, read_store};
use std::alloc::{AllocError, Global};

/// Says what was packed.
#[derive(Debug, PartialEq, Drop)]
pub struct Packed {
    /// How many events the bundle has.
    pub events: u64,
    /// How many outputs it has.
    pub outputs: u64,
    /// Whether the run was stopped: its log ends within a line, or its store has no end.
    pub stopped: bool,
}

/// Writes the bundle of a run's directory to a path: of the metadata, the events up to the first
/// one that isn't there with all its outputs, and these outputs. Of a run that was recorded to its
/// end this is the whole run. The bundle is written beside `path`, with `.tmp` after the name, and
/// takes its place once it is whole.
///
/// `closing` gives the head that the run ended with, which says how it ended, when, and after how
/// long; or nothing, and then the manifest of the directory says that.
///
/// # Errors
///
/// The file at `path` is as it was, where the files are known. What comes first is answered:
///
/// - `OpenManifest` exactly where the directory has no manifest, `DiskFault` where the disk fails
///   there, and `ParseManifest` exactly where the manifest is none.
/// - `Closing` where the head isn't read, is longer than `limit` bytes, or is no head, and
///   `OtherRun` exactly where it is one of another id or another begin.
/// - `Salvage` for the store and the log, as [`salvage`] and its reading of files have it.
/// - `BundleFault` where the disk fails where the bundle is written.
/// - `OutOfMemory` may come at any time.
pub fn pack<D: Disk, S: Source>(
    alloc: Global,
    disk: &mut D,
    run_dir: &str,
    path: &str,
    closing: &mut S,
    limit: u64,
) -> Result<Packed, PackError>
    ensures ok { IfOk result
        (Packs S.left S.faults limit closing.old closing.new (D.files disk.old)
        (D.files disk.new) run_dir.now path.now) }
    ensures err { IfErr result
        (IsRefused S.left S.faults limit closing.old closing.new (D.files disk.old)
        (D.files disk.new) run_dir.now path.now (D.faults disk.old) (D.faults disk.new)) }
    ensures leaves { IfErr result
        (λ _. LeavesFiles (D.files disk.old) (D.files disk.new) path.now) }
{
    let manifest = read_manifest(alloc, disk, run_dir)?;
    let run = closed_run(alloc, &manifest, closing, limit);
    manifest.discard();
    let run = run?;
    let made = make(alloc, disk, run_dir, &run);
    run.discard();
    let made = made?;
    write(alloc, disk, path, &made)
}

/// Holds what was salvaged of a directory, and whether it was recorded to its end.
#[derive(Drop)]
struct Made {
    salvaged: Salvaged,
    ended: bool,
}

/// Makes the bundle of a directory in memory.
fn make<D: Disk>(
    alloc: Global,
    disk: &mut D,
    run_dir: &str,
    run: &RecordedRunInfo,
) -> Result<Made, PackError>
    ensures ok { IfOk result
        (λ m. Makes (D.files disk.old) run_dir.now run.now m.salvaged m.ended) }
    ensures err { IfErr result
        (MakesNone (D.files disk.old) run_dir.now (D.faults disk.old) (D.faults disk.new)) }
    ensures same { D.files disk.new ≡ D.files disk.old }
    ensures later { D.faults disk.old ≤ D.faults disk.new }
{
    let store = read_store(alloc, disk, run_dir)?;
    let log = read_log(alloc, disk, run_dir)?;
    let ended = is_ended(alloc, &log, &store)?;
    let salvaged = salvage(alloc, run, &log, &store)?;
    Ok(Made { salvaged, ended })
}

/// Returns whether a log and a store were written to their ends.
fn is_ended(alloc: Global, log: &[u8], store: &[u8]) -> Result<bool, AllocError>
    ensures { IfOk result (Ends log.now store.now) }
{
    if !ends_a_line(log) {
        return Ok(false);
    }
    match Container::parse(alloc, store) {
        Ok(_) => Ok(true),
        Err(ContainerError::OutOfMemory) => Err(AllocError),
        Err(_) => Ok(false),
    }
}

/// Returns whether a log ends with a line, or is empty.
fn ends_a_line(log: &[u8]) -> bool
    ensures { result ≡ ends_a_line log.now }
{
    log.is_empty() || log.ends_with(b"\n")
}

/// Writes a bundle to a path, in the place of a file that is there, once it is whole.
fn write<D: Disk>(alloc: Global, disk: &mut D, path: &str, made: &Made) -> Result<Packed, PackError>
    ensures ok { IfOk result (λ p. Replaces (D.files disk.old) (D.files disk.new)
        (temporary_of path.now) path.now made.now.salvaged.bundle (Ok tt)) }
    ensures counted { IfOk result
        (λ p. (p.events ≡ made.now.salvaged.events) × (p.outputs ≡ made.now.salvaged.outputs)
        × (is_whole p.stopped ≡ made.now.ended)) }
    ensures err { IfErr result
        (Unwritten (D.files disk.old) (D.faults disk.old) (D.faults disk.new)) }
    ensures leaves { IfErr result
        (λ _. LeavesFiles (D.files disk.old) (D.files disk.new) path.now) }
{
    let temporary = temporary_path(alloc, path)?;
    match replace_file(
        disk,
        temporary.as_str(),
        path,
        made.salvaged.bundle.as_slice(),
    ) {
        Ok(()) => Ok(Packed {
            events: made.salvaged.events,
            outputs: made.salvaged.outputs,
            stopped: !made.ended,
        }),
        Err(error) => Err(write_fault(error)),
    }
}

/// Returns why a bundle isn't written.
fn write_fault(error: DiskError) -> PackError
    ensures { result ≡ faults.write_fault error }
{
    match error {
        DiskError::Missing | DiskError::DiskFailed => PackError::BundleFault,
        DiskError::OutOfMemory => PackError::OutOfMemory,
    }
}
