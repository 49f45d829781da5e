//! A bundle that isn't read.
ghost use Rattle.std.specs.Prelude.{◌≡◌};
ghost use Rattle.rec_portable.specs.declared.errors.PortableRecordingReadError.TheVariants.{
  UnsupportedFormatVersion,
  UnsupportedStoreFormatVersion,
};
ghost use Rattle.rec_faults.specs.FaultLine.{shown_text};
ghost use Rattle.rec_faults.specs.ReadingLine.{bundle_shown};
ghost use Rattle.rec_faults.specs.Status.{bundle_status};
ghost use Rattle.rec_faults.specs.WritingFaults.{Writes};

use crate::line::Line;
use crate::marks::large_entry;
use crate::refusal::Refusal;
use crate::status::{
    ABOVE_READ_LIMIT, NO_BUNDLE, OUT_OF_MEMORY, OUTPUT_FAILED, SOURCE_FAILED, TOO_LONG,
};
use crate::store::write_container_fault;
use crate::versions::{write_bundle_version, write_store_version};
use rec_container::Sink;
use rec_format::{
    PortableRecordingFormatVersion, PortableRecordingVersionIncompatibility, StoreFormatVersion,
    StoreVersionIncompatibility,
};
use rec_portable::PortableRecordingReadError;

impl Refusal for PortableRecordingReadError {
    ghost shown = { bundle_shown };

    ghost status_of = { bundle_status };

    fn write<G: Sink>(&self, line: Line, diag: &mut G) -> Line {
        match self {
            PortableRecordingReadError::SourceFault => line.name("SourceFault", diag),
            PortableRecordingReadError::SpoolTooLarge { limit } => {
                line.number("SpoolTooLarge limit=", *limit, diag)
            }
            PortableRecordingReadError::ReadArchive { fault } => {
                write_container_fault(line.name("ReadArchive fault=", diag), fault, diag)
            }
            PortableRecordingReadError::NotAWrapperArchive {
                file_count,
                zip_count,
            } => line
                .number("NotAWrapperArchive file_count=", *file_count as u64, diag)
                .number(" zip_count=", *zip_count as u64, diag),
            PortableRecordingReadError::FileTooLarge {
                file_name,
                size,
                limit,
            } => large_entry(line, file_name.as_str(), *size, *limit, diag),
            PortableRecordingReadError::ParseManifest => line.name("ParseManifest", diag),
            PortableRecordingReadError::UnsupportedFormatVersion {
                found,
                supported,
                incompatibility,
            } => unsupported_bundle(line, *found, *supported, *incompatibility, diag),
            PortableRecordingReadError::UnsupportedStoreFormatVersion {
                found,
                supported,
                incompatibility,
            } => unsupported_store(line, *found, *supported, *incompatibility, diag),
            PortableRecordingReadError::MissingFile { file_name } => {
                line.text("MissingFile file_name=", file_name.as_str(), diag)
            }
            PortableRecordingReadError::ExtractFile { file_name } => {
                line.text("ExtractFile file_name=", file_name.as_str(), diag)
            }
            PortableRecordingReadError::OutOfMemory => line.name("OutOfMemory", diag),
        }
    }

    fn status(&self) -> u8 {
        match self {
            PortableRecordingReadError::SourceFault => SOURCE_FAILED,
            PortableRecordingReadError::SpoolTooLarge { .. } => TOO_LONG,
            PortableRecordingReadError::FileTooLarge { .. } => ABOVE_READ_LIMIT,
            PortableRecordingReadError::ReadArchive { .. }
            | PortableRecordingReadError::NotAWrapperArchive { .. }
            | PortableRecordingReadError::ParseManifest
            | PortableRecordingReadError::UnsupportedFormatVersion { .. }
            | PortableRecordingReadError::UnsupportedStoreFormatVersion { .. }
            | PortableRecordingReadError::MissingFile { .. } => NO_BUNDLE,
            PortableRecordingReadError::ExtractFile { .. } => OUTPUT_FAILED,
            PortableRecordingReadError::OutOfMemory => OUT_OF_MEMORY,
        }
    }
}

/// Writes the version of a bundle that was found and the one that is supported,
/// and why they don't fit.
fn unsupported_bundle<G: Sink>(
    line: Line,
    found: PortableRecordingFormatVersion,
    supported: PortableRecordingFormatVersion,
    incompatibility: PortableRecordingVersionIncompatibility,
    diag: &mut G,
) -> Line
    ensures { Writes G.taken G.faults
        (shown_text (bundle_shown (UnsupportedFormatVersion found supported incompatibility)))
        line.is_failed diag.old result.is_failed diag.new }
{
    let found_minor = found.minor.number() as u64;
    let supported_minor = supported.minor.number() as u64;
    let line = line
        .version(
            "UnsupportedFormatVersion found=",
            found.major.number() as u64,
            found_minor,
            diag,
        )
        .version(
            " supported=",
            supported.major.number() as u64,
            supported_minor,
            diag,
        )
        .name(" incompatibility=", diag);
    write_bundle_version(line, incompatibility, diag)
}

/// Writes the same of a store.
fn unsupported_store<G: Sink>(
    line: Line,
    found: StoreFormatVersion,
    supported: StoreFormatVersion,
    incompatibility: StoreVersionIncompatibility,
    diag: &mut G,
) -> Line
    ensures { Writes G.taken G.faults
        (shown_text (bundle_shown (UnsupportedStoreFormatVersion found supported incompatibility)))
        line.is_failed diag.old result.is_failed diag.new }
{
    let found_minor = found.minor.number() as u64;
    let supported_minor = supported.minor.number() as u64;
    let line = line
        .version(
            "UnsupportedStoreFormatVersion found=",
            found.major.number() as u64,
            found_minor,
            diag,
        )
        .version(
            " supported=",
            supported.major.number() as u64,
            supported_minor,
            diag,
        )
        .name(" incompatibility=", diag);
    write_store_version(line, incompatibility, diag)
}
