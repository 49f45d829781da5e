//! The files of a run that is recorded while it goes on.
ghost use Rattle.std.specs.Io.KnownBytes.{WriteAppends};
ghost use Rattle.std.specs.Prelude.{◌≡◌, ◌≤◌, ◌<◌, length, IfOk, IfSome, None};
ghost use Rattle.rec_container.specs.Causes.{Counts, HasCause};

use rec_container::{FileSink, Sink, SinkFailed};
use std::rt::Files;
use std::{fs, io};

/// Names a folder to make, and the log in it.
#[derive(Drop)]
pub(crate) struct NewFolder {
    pub(crate) path: String,
    pub(crate) log: String,
}

/// Writes to a file what it takes, as [`FileSink`] does. Where it was told a folder, the first
/// write makes that folder with an empty log, so that a run without events has one too. A folder
/// that is there is a fault.
#[derive(Drop)]
pub(crate) struct RunFileSink<'r, R: Files> {
    rt: &'r R,
    folder: Option<NewFolder>,
    file: FileSink<'r, R>,
    faults: u64,
}

impl<'r, R: Files> RunFileSink<'r, R> {
    /// Makes a sink into the file at `path`, which makes `folder` first where there is one.
    pub(crate) fn new(rt: &'r R, folder: Option<NewFolder>, path: String) -> RunFileSink<'r, R> {
        RunFileSink {
            rt,
            folder,
            file: FileSink::new(rt, path),
            faults: 0,
        }
    }

    /// Makes the folder where that isn't done, and writes as [`FileSink`] does.
    fn write_some(&mut self, piece: &[u8]) -> Option<usize>
        ensures bound { IfSome result (λ n. n ≤ length piece.now) }
        ensures progress { IfSome result (λ n. 0 < length piece.now → 0 < n) }
        ensures faults { self.new.faults ≡ self.old.faults }
    {
        if let Some(folder) = &self.folder {
            if make_folder(self.rt, folder).is_err() {
                return None;
            }
        }
        self.folder = None;
        self.file.write(piece).ok()
    }
}

/// Makes a folder with an empty log.
fn make_folder<R: Files>(rt: &R, folder: &NewFolder) -> io::Result<()> {
    fs::create_dir(rt, folder.path.as_str())?;
    fs::create(rt, folder.log.as_str())?;
    Ok(())
}

impl<R: Files> Sink for RunFileSink<'_, R> {
    ghost taken = { λ _. None };

    ghost faults = { λ s. s.faults };

    fn write(&mut self, piece: &[u8]) -> Result<usize, SinkFailed>
        ensures bound { IfOk result (λ n. n ≤ length piece.now) }
        ensures progress { IfOk result (λ n. 0 < length piece.now → 0 < n) }
        ensures bytes { WriteAppends None None result piece.now }
        ensures cause { HasCause self.old.faults self.new.faults result }
        ensures counted { Counts self.old.faults self.new.faults result }
    {
        match self.write_some(piece) {
            Some(count) => Ok(count),
            None => {
                self.faults = self.faults.saturating_add(1);
                Err(SinkFailed)
            }
        }
    }
}
