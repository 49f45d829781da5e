//! The writer of bundles.
ghost use Rattle.std.specs.Prelude.{◌≡◌, IfOk, IfErr, string_bytes};
ghost use Rattle.rec_directory.specs.Paths.{joined};
ghost use Rattle.rec_portable_writer.specs.Names.{bundle_name, run_path};
ghost use Rattle.rec_portable_writer.specs.Packing.{PacksRun};
ghost use Rattle.rec_portable_writer.specs.Preparing.{Prepares, Unprepared};

use crate::errors::PortableRecordingError;
use crate::names::{default_name, run_dir};
use crate::packing::{PortableRecordingResult, write_bundle};
use crate::run_files::check_run;
use rec_directory::join;
use rec_disk::Disk;
use rec_format::RecordedRunInfo;
use std::alloc::{AllocError, Global};
use std::marker::Model;

/// Makes a bundle of a run's directory. The directory's log and store stand in it as they are.
#[derive(Drop)]
pub struct PortableRecordingWriter<'a, D: Disk> {
    run_info: &'a RecordedRunInfo,
    disk: &'a mut D,
    run_dir: String,
}

impl<'a, D: Disk> Model for PortableRecordingWriter<'a, D> {
    ghost use Rattle.std.specs.Prelude.{string_bytes};
    ghost use Rattle.rec_portable_writer.specs.Preparing.{Packing};

    ghost Value = { Packing D };

    ghost view = { λ w.
        record { disk = w.disk; run_info = w.run_info.now; run_dir = string_bytes w.run_dir } };
}

impl<'a, D: Disk> PortableRecordingWriter<'a, D> {
    /// Prepares a bundle of a run, whose directory is named by the run's id and stands in
    /// `runs_dir`.
    ///
    /// # Errors
    ///
    /// - `RunDirNotFound` exactly where the run's directory doesn't exist.
    /// - `RequiredFileMissing` exactly where its store is missing, or else its log.
    /// - `DiskFault` where the disk fails.
    /// - `OutOfMemory` if memory runs out.
    pub fn new(
        alloc: Global,
        run_info: &'a RecordedRunInfo,
        disk: &'a mut D,
        runs_dir: &str,
    ) -> Result<PortableRecordingWriter<'a, D>, PortableRecordingError>
        ensures ok { IfOk result
            (Prepares D.files D.faults disk.entry run_info.now
            (run_path runs_dir.now run_info.now.run_id)) }
        ensures err { IfErr result
            (Unprepared D.files D.faults disk.old (run_path runs_dir.now run_info.now.run_id)) }
    {
        let run_dir = run_dir(alloc, runs_dir, run_info.run_id)?;
        check_run(alloc, disk, run_dir.as_str())?;
        Ok(PortableRecordingWriter {
            run_info,
            disk,
            run_dir,
        })
    }
}

impl<'a, D: Disk> PortableRecordingWriter<'a, D> {
    /// Returns the name that the bundle has by default: `nextest-run-` and the run's id,
    /// with `.zip`.
    ///
    /// # Errors
    ///
    /// `AllocError` where memory is short.
    pub fn default_filename(&self, alloc: Global) -> Result<String, AllocError>
        ensures { IfOk result (λ name. string_bytes name ≡ bundle_name self.now.run_info.run_id) }
    {
        default_name(alloc, self.run_info.run_id)
    }

    /// Writes the bundle into a directory, under its default name.
    ///
    /// # Errors
    ///
    /// Those of [`write_to_path`](PortableRecordingWriter::write_to_path).
    pub fn write_to_dir(
        &mut self,
        alloc: Global,
        output_dir: &str,
    ) -> Result<PortableRecordingResult, PortableRecordingError>
        ensures { PacksRun D.files D.faults self.old self.new
            (joined output_dir.now (bundle_name self.old.run_info.run_id)) result }
    {
        let name = self.default_filename(alloc)?;
        let path = join(alloc, output_dir, name.as_str())?;
        self.write_to_path(alloc, path.as_str())
    }

    /// Writes the bundle to a path, in the place of a file that is there. It is made in memory,
    /// written to the path with `.tmp` after it, and renamed once it is whole.
    ///
    /// # Errors
    ///
    /// The file at the path and the run's own are as they were; the path with `.tmp` may hold a
    /// prefix of the bundle.
    ///
    /// - `ReadFile` where the run's log or its store is missing by now, or the disk fails.
    /// - `WriteFile` where the disk fails.
    /// - `OutOfMemory` if memory runs out.
    pub fn write_to_path(
        &mut self,
        alloc: Global,
        output_path: &str,
    ) -> Result<PortableRecordingResult, PortableRecordingError>
        ensures { PacksRun D.files D.faults self.old self.new output_path.now result }
    {
        write_bundle(
            alloc,
            self.disk,
            self.run_info,
            self.run_dir.as_str(),
            output_path,
        )
    }
}
