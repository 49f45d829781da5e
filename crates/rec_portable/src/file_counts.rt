//! How many of a container's entries are files.
ghost use Rattle.std.specs.Prelude.{◌≡◌, ◌&&◌};
ghost use Rattle.rec_format.specs.Paths.{is_zip_path};
ghost use Rattle.rec_portable.specs.Judging.{is_file, file_count, zip_count};

use rec_container::Container;
use rec_format::has_zip_extension;

/// Says how many of a container's entries are files.
#[derive(Clone, Copy)]
pub(crate) struct FileCounts {
    /// How many are files.
    pub(crate) files: usize,
    /// How many of the files have a zip extension.
    pub(crate) zips: usize,
}

impl FileCounts {
    /// Counts the entries of a container.
    pub(crate) fn of_entries(entries: &Container<'_>) -> FileCounts
        ensures files { result.files ≡ file_count entries.now.entries }
        ensures zips { result.zips ≡ zip_count entries.now.entries }
    {
        let mut files = 0;
        let mut zips = 0;
        for i in 0..entries.len() {
            let name = entries.name(i);
            files += usize::from(is_file_name(name));
            zips += usize::from(is_zip_file_name(name));
        }
        FileCounts { files, zips }
    }
}

/// Returns whether an entry of this name is a file.
fn is_file_name(name: &str) -> bool
    ensures { result ≡ is_file name.now }
{
    !(name.ends_with('/') || name.ends_with('\\'))
}

/// Returns whether it is one with a zip extension.
fn is_zip_file_name(name: &str) -> bool
    ensures { result ≡ (is_file name.now && is_zip_path name.now) }
{
    is_file_name(name) && has_zip_extension(name)
}
