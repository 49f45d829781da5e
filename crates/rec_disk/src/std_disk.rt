//! The files of the machine as a disk. Contracts cannot say what they hold.
ghost use Rattle.std.specs.Io.{ReadsAtMost};
ghost use Rattle.std.specs.Prelude.{◌≡◌, ◌<◌, ◌≤◌, length, IfOk, IfErr, IfSome, Ok, None, Some};
ghost use Rattle.rec_disk.specs.Disks.{CountsFailure, HasDiskCause, NotMissing};

use crate::disk::{Disk, DiskError};
use rec_container::write_flushed;
use std::fs::{OpenFile, OpenOptions};
use std::io::{ErrorKind, Read, Seek, SeekFrom};
use std::rt::Files;
use std::{fs, io};

/// Keeps files where a runtime has them.
///
/// A directory is no file. Each error of the runtime is a fault, but for one that says that there
/// is no such file, and so is a write that takes nothing of a piece.
///
/// After a fault the outside may hold bytes of the piece all the same: a write counts as failed
/// where only its flush failed.
#[derive(Drop)]
pub struct StdDisk<'r, R: Files> {
    rt: &'r R,
    faults: u64,
}

impl<'r, R: Files> StdDisk<'r, R> {
    /// Makes a disk over the runtime's files, without faults so far.
    pub fn new(rt: &'r R) -> StdDisk<'r, R>
        ensures { ⟦<StdDisk<'r, R> as Disk>⟧.faults result ≡ 0 }
    {
        StdDisk { rt, faults: 0 }
    }

    /// Returns what was found, and counts an error.
    fn answer<T>(&mut self, found: io::Result<Option<T>>) -> Result<T, DiskError>
        ensures given { IfOk result (λ x. found ≡ Ok (Some x)) }
        ensures cause { HasDiskCause self.old.faults self.new.faults result }
        ensures counted { CountsFailure self.old.faults self.new.faults result }
    {
        match found {
            Ok(Some(x)) => Ok(x),
            Ok(None) => Err(DiskError::Missing),
            Err(_) => {
                self.faults = self.faults.saturating_add(1);
                Err(DiskError::DiskFailed)
            }
        }
    }

    /// Returns what was done, and counts an error.
    fn done<T>(&mut self, done: io::Result<T>) -> Result<T, DiskError>
        ensures present { IfErr result NotMissing }
        ensures cause { HasDiskCause self.old.faults self.new.faults result }
        ensures counted { CountsFailure self.old.faults self.new.faults result }
    {
        match done {
            Ok(x) => Ok(x),
            Err(_) => {
                self.faults = self.faults.saturating_add(1);
                Err(DiskError::DiskFailed)
            }
        }
    }
}

impl<R: Files> Disk for StdDisk<'_, R> {
    ghost files = { λ _. None };

    ghost faults = { λ d. d.faults };

    fn exists(&mut self, path: &str) -> Result<bool, DiskError>
        ensures answer { IfErr result NotMissing }
        ensures cause { HasDiskCause self.old.faults self.new.faults result }
        ensures counted { CountsFailure self.old.faults self.new.faults result }
    {
        let there = stands(self.rt, path);
        self.done(there)
    }

    fn len(&mut self, path: &str) -> Result<u64, DiskError>
        ensures cause { HasDiskCause self.old.faults self.new.faults result }
        ensures counted { CountsFailure self.old.faults self.new.faults result }
    {
        let len = file_len(self.rt, path);
        self.answer(len)
    }

    fn read(&mut self, path: &str, at: u64, buf: &mut [u8]) -> Result<usize, DiskError>
        ensures bound { ReadsAtMost result buf.new }
        ensures cause { HasDiskCause self.old.faults self.new.faults result }
        ensures counted { CountsFailure self.old.faults self.new.faults result }
    {
        let count = read_from(self.rt, path, at, buf);
        self.answer(count)
    }

    fn create(&mut self, path: &str) -> Result<(), DiskError>
        ensures present { IfErr result NotMissing }
        ensures cause { HasDiskCause self.old.faults self.new.faults result }
        ensures counted { CountsFailure self.old.faults self.new.faults result }
    {
        let created = create_file(self.rt, path);
        self.done(created)
    }

    fn append(&mut self, path: &str, piece: &[u8]) -> Result<usize, DiskError>
        ensures bound { IfOk result (λ n. n ≤ length piece.now) }
        ensures progress { IfOk result (λ n. 0 < length piece.now → 0 < n) }
        ensures cause { HasDiskCause self.old.faults self.new.faults result }
        ensures counted { CountsFailure self.old.faults self.new.faults result }
    {
        let count = append_to(self.rt, path, piece);
        self.answer(count)
    }

    fn rename(&mut self, from: &str, to: &str) -> Result<(), DiskError>
        ensures cause { HasDiskCause self.old.faults self.new.faults result }
        ensures counted { CountsFailure self.old.faults self.new.faults result }
    {
        let renamed = rename_file(self.rt, from, to);
        self.answer(renamed)
    }
}

/// Returns none where the error says that there is no such file.
fn none_or<T>(error: io::Error) -> io::Result<Option<T>>
    ensures { IfOk result (λ o. o ≡ None) }
{
    let kind = error.kind();
    if kind == ErrorKind::NotFound
        || kind == ErrorKind::NotADirectory
        || kind == ErrorKind::IsADirectory
    {
        return Ok(None);
    }
    Err(error)
}

/// Returns whether a file or a directory stands at a path.
fn stands<R: Files>(rt: &R, path: &str) -> io::Result<bool> {
    match fs::metadata(rt, path) {
        Ok(_) => Ok(true),
        Err(error) => {
            let found = none_or::<bool>(error)?;
            Ok(found.is_some())
        }
    }
}

/// Returns the length of a file, or none where there is no such file.
fn file_len<R: Files>(rt: &R, path: &str) -> io::Result<Option<u64>> {
    match fs::metadata(rt, path) {
        Ok(metadata) if metadata.is_dir() => Ok(None),
        Ok(metadata) => Ok(Some(metadata.len())),
        Err(error) => none_or(error),
    }
}

/// Reads bytes of a file from a place on, and answers how many.
fn read_from<R: Files>(rt: &R, path: &str, at: u64, buf: &mut [u8]) -> io::Result<Option<usize>>
    ensures { IfOk result (λ o. IfSome o (λ n. n ≤ length buf.new)) }
{
    let mut file = match fs::open(rt, path) {
        Ok(file) => file,
        Err(error) => return none_or(error),
    };
    let metadata = file.metadata()?;
    if metadata.is_dir() {
        return Ok(None);
    }
    if metadata.is_file() && at >= metadata.len() {
        return Ok(Some(0));
    }
    file.seek(SeekFrom::Start(at))?;
    let count = file.read(buf)?;
    Ok(Some(count))
}

/// Makes an empty file, or empties the one that is there.
fn create_file<R: Files>(rt: &R, path: &str) -> io::Result<()> {
    fs::create(rt, path)?;
    Ok(())
}

/// Puts bytes after a file's, and answers how many: at least one, of a piece that isn't empty.
fn append_to<R: Files>(rt: &R, path: &str, piece: &[u8]) -> io::Result<Option<usize>>
    ensures bound { IfOk result (λ o. IfSome o (λ n. n ≤ length piece.now)) }
    ensures progress { IfOk result (λ o. IfSome o (λ n. 0 < length piece.now → 0 < n)) }
{
    let mut options = OpenOptions::new();
    options.append(true);
    let mut file = match options.open(rt, path) {
        Ok(file) => file,
        Err(error) => return none_or(error),
    };
    match write_flushed(&mut file, piece) {
        Some(count) => Ok(Some(count)),
        None => Err(io::Error::from(ErrorKind::WriteZero)),
    }
}

/// Gives a file another path.
fn rename_file<R: Files>(rt: &R, from: &str, to: &str) -> io::Result<Option<()>> {
    if file_len(rt, from)?.is_none() {
        return Ok(None);
    }
    fs::rename(rt, from, to)?;
    Ok(Some(()))
}
