//! A disk in memory that fails at the calls that it is given.
//!
//! Calls of [`Disk`] are numbered from 1. The number stays at u64's greatest once it is there.
ghost use Rattle.std.specs.Io.{ReadsAtMost};
ghost use Rattle.std.specs.Option.{option_map};
ghost use Rattle.std.specs.Prelude.{◌≡◌, ◌<◌, ◌≤◌, [], length, IfOk, IfErr, Ok, OnOk, OnErr, Some};
ghost use Rattle.rec_disk.specs.declared.disk.DiskError.TheVariants.{DiskFailed};
ghost use Rattle.rec_disk.specs.Disks.{ExistsIn, HasLength, ReadsBytes, CreatesIn};
ghost use Rattle.rec_disk.specs.Disks.{AppendsBytes, RenamesFile, HasDiskCause, NotMissing};
ghost use Rattle.rec_disk.specs.MemoryDisks.{file_at, HasFile, IsCall};

use crate::disk::{Disk, DiskError};
use crate::file_map::FileMap;
use std::alloc::{AllocError, Global};
use std::marker::Model;

/// Keeps files in memory. It fails exactly at the calls of [`Disk`] whose numbers it was made with.
#[derive(Drop)]
pub struct MemoryDisk {
    files: FileMap,
    faults: u64,
    calls: u64,
    fail_at: Vec<u64>,
}

impl Model for MemoryDisk {
    ghost use Rattle.rec_disk.specs.MemoryDisks.{MemoryDiskState};

    ghost Value = { MemoryDiskState };

    ghost view = { λ d.
        record { files = d.files; faults = d.faults; calls = d.calls; fail_at = d.fail_at.items } };
}

impl MemoryDisk {
    /// Makes a disk without files or faults, whose calls numbered in `fail_at` fail.
    pub fn new(alloc: Global, fail_at: Vec<u64>) -> MemoryDisk
        ensures files { result.files ≡ [] }
        ensures faults { result.faults ≡ 0 }
        ensures calls { result.calls ≡ 0 }
        ensures fail_at { result.fail_at ≡ fail_at.items }
    {
        MemoryDisk {
            files: FileMap::new(alloc),
            faults: 0,
            calls: 0,
            fail_at,
        }
    }

    /// Puts a file on the disk, in the place of one that is there. This is no call that has a
    /// number, so it can't fail by one.
    ///
    /// # Errors
    ///
    /// `AllocError` means that memory ran out. The disk is as it was.
    pub fn put(&mut self, path: &str, bytes: &[u8]) -> Result<(), AllocError>
        ensures ok { OnOk result (HasFile self.old.files self.new.files path.now (Some bytes.now)) }
        ensures err { OnErr result (self.new ≡ self.old) }
        ensures same { self.new ≡ record self.old { files = self.new.files } }
    {
        self.files.put(path, bytes)
    }

    /// Returns the bytes of a file, or none where no file stands at the path.
    pub fn get(&self, path: &str) -> Option<&[u8]>
        ensures { option_map (λ b. b.now) result ≡ file_at self.now.files path.now }
    {
        self.files.get(path)
    }

    /// Counts a call, and fails where its number is listed.
    fn begin(&mut self) -> Result<(), DiskError>
        ensures call { IsCall self.old self.new result }
        ensures files { self.new.files ≡ self.old.files }
        ensures cause { HasDiskCause self.old.faults self.new.faults result }
        ensures failed { IfErr result (λ e. e ≡ DiskFailed) }
    {
        self.calls = self.calls.saturating_add(1);
        if self.fail_at.contains(&self.calls) {
            self.faults = self.faults.saturating_add(1);
            return Err(DiskError::DiskFailed);
        }
        Ok(())
    }
}

impl Disk for MemoryDisk {
    ghost files = { λ d. Some (file_at d.files) };

    ghost faults = { λ d. d.faults };

    fn exists(&mut self, path: &str) -> Result<bool, DiskError>
        ensures answer { ExistsIn (file_at self.old.files) path.now result }
        ensures same { self.new.files ≡ self.old.files }
        ensures cause { HasDiskCause self.old.faults self.new.faults result }
        ensures call { IsCall self.old self.new result }
    {
        self.begin()?;
        Ok(self.files.has_any(path))
    }

    fn len(&mut self, path: &str) -> Result<u64, DiskError>
        ensures answer { HasLength (file_at self.old.files path.now) result }
        ensures same { self.new.files ≡ self.old.files }
        ensures cause { HasDiskCause self.old.faults self.new.faults result }
        ensures call { IsCall self.old self.new result }
    {
        self.begin()?;
        match self.files.get(path) {
            Some(bytes) => Ok(bytes.len() as u64),
            None => Err(DiskError::Missing),
        }
    }

    fn read(&mut self, path: &str, at: u64, buf: &mut [u8]) -> Result<usize, DiskError>
        ensures bound { ReadsAtMost result buf.new }
        ensures answer { ReadsBytes (file_at self.old.files path.now) at result buf.new }
        ensures same { self.new.files ≡ self.old.files }
        ensures cause { HasDiskCause self.old.faults self.new.faults result }
        ensures call { IsCall self.old self.new result }
    {
        self.begin()?;
        match self.files.get(path) {
            Some(bytes) => Ok(copy_from(bytes, at, buf)),
            None => Err(DiskError::Missing),
        }
    }

    fn create(&mut self, path: &str) -> Result<(), DiskError>
        ensures answer { CreatesIn (file_at self.old.files) (file_at self.new.files) path.now
            result }
        ensures present { IfErr result NotMissing }
        ensures cause { HasDiskCause self.old.faults self.new.faults result }
        ensures call { IsCall self.old self.new result }
    {
        self.begin()?;
        self.files.put(path, &[])?;
        Ok(())
    }

    fn append(&mut self, path: &str, piece: &[u8]) -> Result<usize, DiskError>
        ensures bound { IfOk result (λ n. n ≤ length piece.now) }
        ensures progress { IfOk result (λ n. 0 < length piece.now → 0 < n) }
        ensures answer { AppendsBytes (file_at self.old.files) (file_at self.new.files) path.now
            (file_at self.old.files path.now) piece.now result }
        ensures cause { HasDiskCause self.old.faults self.new.faults result }
        ensures call { IsCall self.old self.new result }

        // It takes the whole piece.
        ensures whole { IfOk result (λ n. n ≡ length piece.now) }
    {
        self.begin()?;
        self.files.extend(path, piece)?;
        Ok(piece.len())
    }

    fn rename(&mut self, from: &str, to: &str) -> Result<(), DiskError>
        ensures answer { RenamesFile (file_at self.old.files) (file_at self.new.files) from.now
            to.now (file_at self.old.files from.now) result }
        ensures cause { HasDiskCause self.old.faults self.new.faults result }
        ensures call { IsCall self.old self.new result }
    {
        self.begin()?;
        self.files.rename(from, to)
    }
}

/// Moves bytes from `at` on to the start of a buffer, and answers how many.
fn copy_from(bytes: &[u8], at: u64, buf: &mut [u8]) -> usize
    ensures bound { result ≤ length buf.new }
    ensures bytes { ReadsBytes (Some bytes.now) at (Ok result) buf.new }
{
    if at >= bytes.len() as u64 {
        return 0;
    }
    let rest = &bytes[at as usize..];
    let count = buf.len().min(rest.len());
    buf[..count].copy_from_slice(&rest[..count]);
    count
}
