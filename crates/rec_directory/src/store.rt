//! The store of a run's directory, in memory.
ghost use Rattle.std.specs.Prelude.{◌≡◌, IfOk, IfErr};
ghost use Rattle.rec_container.specs.Container.{IsContainer};
ghost use Rattle.rec_store.specs.Readers.{DiskCause};
ghost use Rattle.rec_directory.specs.Directories.{Unparsed, Unread, archive_error};
ghost use Rattle.rec_directory.specs.Files.{IsWhole};
ghost use Rattle.rec_directory.specs.Paths.{path_of_store};

use crate::file::read_file;
use crate::paths::join;
use rec_container::{Container, ContainerError};
use rec_disk::{Disk, DiskError};
use rec_events::Text;
use rec_format::STORE_ZIP_FILE_NAME;
use rec_store::RecordReadError;
use std::alloc::Global;

/// Reads the bytes of a run's store.
pub(crate) fn read_store<D: Disk>(
    alloc: Global,
    disk: &mut D,
    run_dir: &str,
) -> Result<Vec<u8>, RecordReadError>
    ensures ok { IfOk result
        (λ bytes. IsWhole (D.files disk.old) (path_of_store run_dir.now) bytes.items) }
    ensures err { IfErr result (Unread (D.files disk.old) (path_of_store run_dir.now)) }
    ensures same { D.files disk.new ≡ D.files disk.old }
    ensures cause { DiskCause (D.faults disk.old) (D.faults disk.new) result }
{
    let path = Text::new(join(alloc, run_dir, STORE_ZIP_FILE_NAME)?);
    match read_file(alloc, disk, path.as_str()) {
        Ok(bytes) => Ok(bytes),
        Err(DiskError::Missing) => Err(RecordReadError::OpenArchive { path }),
        Err(DiskError::DiskFailed) => Err(RecordReadError::DiskFault { path }),
        Err(DiskError::OutOfMemory) => Err(RecordReadError::OutOfMemory),
    }
}

/// Returns the entries of a run's store.
pub(crate) fn parse_store<'a>(
    alloc: Global,
    run_dir: &str,
    bytes: &'a [u8],
) -> Result<Container<'a>, RecordReadError>
    ensures ok { IfOk result (λ c. IsContainer bytes.now c.entries) }
    ensures err { IfErr result (Unparsed (path_of_store run_dir.now) bytes.now) }
{
    let path = Text::new(join(alloc, run_dir, STORE_ZIP_FILE_NAME)?);
    match Container::parse(alloc, bytes) {
        Ok(entries) => Ok(entries),
        Err(fault) => Err(refused(path, fault)),
    }
}

/// Returns the refusal of a store that is no container.
fn refused(path: Text, fault: ContainerError) -> RecordReadError
    ensures { result ≡ archive_error path fault }
{
    match fault {
        ContainerError::OutOfMemory => RecordReadError::OutOfMemory,
        _ => RecordReadError::ParseArchive { path, fault },
    }
}
