//! Files in memory, by their paths.
ghost use Rattle.std.specs.List.{list_any};
ghost use Rattle.std.specs.Option.{option_map};
ghost use Rattle.std.specs.Prelude.{◌≡◌, [], None, Some, IfErr, OnOk, OnErr};
ghost use Rattle.rec_disk.specs.Disks.{RenamesFile};
ghost use Rattle.rec_disk.specs.MemoryDisks.{file_at, lies_at, Extends, HasFile, IsRefusal};

use crate::disk::DiskError;
use std::alloc::{AllocError, Global};
use std::collections::BTreeMap;
use std::marker::Model;

/// Holds files by their paths.
#[derive(Drop)]
pub(crate) struct FileMap {
    alloc: Global,
    files: BTreeMap<String, Vec<u8>>,
}

impl Model for FileMap {
    ghost use Rattle.std.specs.Prelude.{List, ℕ};
    ghost use Rattle.rec_disk.specs.MemoryDisks.{files_of};

    ghost Value = { List (List ℕ × List ℕ) };

    ghost view = { λ m. files_of m.files.entries };
}

impl FileMap {
    /// Makes a map without files.
    pub(crate) fn new(alloc: Global) -> FileMap
        ensures { result ≡ [] }
    {
        FileMap {
            alloc,
            files: BTreeMap::new(alloc),
        }
    }

    /// Returns the bytes of a file, or none where there is no such file.
    pub(crate) fn get(&self, path: &str) -> Option<&[u8]>
        ensures { option_map (λ b. b.now) result ≡ file_at self.now path.now }
    {
        match self.files.get(path) {
            Some(bytes) => Some(bytes.as_slice()),
            None => None,
        }
    }

    /// Puts a file with these bytes at a path, in the place of one that is there. Without memory
    /// the files stay.
    pub(crate) fn put(&mut self, path: &str, bytes: &[u8]) -> Result<(), AllocError>
        ensures ok { OnOk result (HasFile self.old self.new path.now (Some bytes.now)) }
        ensures err { OnErr result (self.new ≡ self.old) }
    {
        let path = String::from_str(self.alloc, path)?;
        let bytes = Vec::from_slice(self.alloc, bytes)?;
        self.files.insert(path, bytes)?;
        Ok(())
    }

    /// Takes the file out that stands at a path, if there is one.
    pub(crate) fn remove(&mut self, path: &str)
        ensures { HasFile self.old self.new path.now None }
    {
        drop(self.files.remove(path));
    }

    /// Puts a piece after a file's bytes. An error means that the file is missing, or that memory
    /// ran out, and leaves all files as they were.
    pub(crate) fn extend(&mut self, path: &str, piece: &[u8]) -> Result<(), DiskError>
        ensures { Extends self.old self.new path.now (file_at self.old path.now) piece.now result }
    {
        let Some(bytes) = self.files.get_mut(path) else {
            return Err(DiskError::Missing);
        };
        let Ok(()) = bytes.extend_from_slice(piece) else {
            return Err(DiskError::OutOfMemory);
        };
        Ok(())
    }

    /// Gives a file another path, in the place of a file that is there. An error means that
    /// no file stands at `from`, or that memory ran out, and leaves all files as they were.
    pub(crate) fn rename(&mut self, from: &str, to: &str) -> Result<(), DiskError>
        ensures answer { RenamesFile (file_at self.old) (file_at self.new) from.now to.now
            (file_at self.old from.now) result }
        ensures missing { IfErr result (IsRefusal (file_at self.old from.now)) }
    {
        let Some(bytes) = self.get(from) else {
            return Err(DiskError::Missing);
        };
        if from == to {
            return Ok(());
        }
        let bytes = Vec::from_slice(self.alloc, bytes)?;
        self.put(to, &bytes)?;
        self.remove(from);
        Ok(())
    }

    /// Returns whether a file lies at a path or below it.
    pub(crate) fn has_any(&self, path: &str) -> bool
        ensures { result ≡ list_any (λ f. lies_at path.now f.0) self.now }
    {
        for name in self.files.keys() {
            if is_at_or_below(name.as_str(), path) {
                return true;
            }
        }
        false
    }
}

/// Returns whether the file of this name lies at a path or below it.
fn is_at_or_below(name: &str, path: &str) -> bool
    ensures { result ≡ lies_at path.now name.now }
{
    match name.as_bytes().strip_prefix(path.as_bytes()) {
        None => false,
        Some([]) => true,
        Some([first, ..]) => *first == b'/',
    }
}
