//! Entries of a bundle, written elsewhere as they are.
ghost use Rattle.std.specs.Option.{option_map};
ghost use Rattle.std.specs.Prelude.{◌≡◌, ◌&&◌, List, Some, None, nat_lt, if◌then◌else◌, IfOk};
ghost use Rattle.rec_container.specs.Container.{Entry, IsContainer, content_of};
ghost use Rattle.rec_portable.specs.OuterEntries.{ExtractsOuter, OuterCause, exceeded_limit};

use crate::errors::PortableRecordingReadError;
use rec_container::{Container, ContainerError, Sink, write_all_dyn};
use rec_events::Text;
use std::alloc::{AllocError, Global};

/// Says what was written of an entry of a bundle.
#[derive(Clone, Copy)]
pub struct ExtractOuterFileResult {
    /// The length of the entry, in bytes. All of them were written.
    pub bytes_written: u64,
    /// That length, exactly where the limit was to be checked and the entry is longer.
    pub exceeded_limit: Option<u64>,
}

/// Writes an entry of these bytes, which are a container.
pub(crate) fn extract(
    alloc: Global,
    bytes: &[u8],
    limit: u64,
    file_name: &str,
    out: &mut dyn Sink,
    check_limit: bool,
) -> Result<ExtractOuterFileResult, PortableRecordingReadError>
    requires { (es : List Entry) × IsContainer bytes.now es }
    ensures answer { (es : List Entry) → IsContainer bytes.now es
        → ExtractsOuter (taken out.old) (taken out.new) limit check_limit file_name.now
        (content_of es file_name.now) result }
    ensures sink { OuterCause (faults out.old) (faults out.new) result }
{
    let entries = entries_of(alloc, bytes)?;
    let name = Text::from_str(alloc, file_name)?;
    write_entry(limit, name, entries.get(file_name), out, check_limit)
}

/// Lends the entries of bytes that are a container, so that only memory can be wanting.
pub(crate) fn entries_of<'a>(alloc: Global, bytes: &'a [u8]) -> Result<Container<'a>, AllocError>
    requires { (es : List Entry) × IsContainer bytes.now es }
    ensures { (es : List Entry) → IsContainer bytes.now es → IfOk result (λ c. c.entries ≡ es) }
{
    match Container::parse(alloc, bytes) {
        Ok(entries) => Ok(entries),
        Err(ContainerError::OutOfMemory) => Err(AllocError),
        Err(_) => unreachable!(),
    }
}

/// Writes what was found of an entry.
fn write_entry(
    limit: u64,
    name: Text,
    found: Option<&[u8]>,
    out: &mut dyn Sink,
    check_limit: bool,
) -> Result<ExtractOuterFileResult, PortableRecordingReadError>
    ensures answer { ExtractsOuter (taken out.old) (taken out.new) limit check_limit name
        (option_map (λ b. b.now) found.entry) result }
    ensures sink { OuterCause (faults out.old) (faults out.new) result }
{
    let Some(content) = found else {
        return Err(PortableRecordingReadError::MissingFile { file_name: name });
    };
    let Ok(()) = write_all_dyn(out, content) else {
        return Err(PortableRecordingReadError::ExtractFile { file_name: name });
    };
    let bytes_written = content.len() as u64;
    Ok(ExtractOuterFileResult {
        bytes_written,
        exceeded_limit: exceeded(limit, bytes_written, check_limit),
    })
}

/// Returns the size, where the limit is to be checked and is passed.
fn exceeded(limit: u64, size: u64, check_limit: bool) -> Option<u64>
    ensures { result ≡ exceeded_limit check_limit limit size }
{
    if check_limit && limit < size {
        Some(size)
    } else {
        None
    }
}
