//! A part of a store that isn't read.
ghost use Rattle.std.specs.Prelude.{◌≡◌};
ghost use Rattle.rec_faults.specs.FaultLine.{container_shown, shown_text};
ghost use Rattle.rec_faults.specs.ReplayLine.{part_shown};
ghost use Rattle.rec_faults.specs.Status.{part_status};
ghost use Rattle.rec_faults.specs.WritingFaults.{Writes};

use crate::line::Line;
use crate::marks::large_entry;
use crate::refusal::Refusal;
use crate::status::{ABOVE_READ_LIMIT, NO_BUNDLE, OUT_OF_MEMORY};
use rec_container::{ContainerError, Sink};
use rec_store::RecordReadError;

impl Refusal for RecordReadError {
    ghost shown = { part_shown };

    ghost status_of = { part_status };

    fn write<G: Sink>(&self, line: Line, diag: &mut G) -> Line {
        match self {
            RecordReadError::RunNotFound { path } => {
                line.text("RunNotFound path=", path.as_str(), diag)
            }
            RecordReadError::OpenArchive { path } => {
                line.text("OpenArchive path=", path.as_str(), diag)
            }
            RecordReadError::ParseArchive { path, fault } => {
                let line = line
                    .text("ParseArchive path=", path.as_str(), diag)
                    .name(" fault=", diag);
                write_container_fault(line, fault, diag)
            }
            RecordReadError::FileNotFound { file_name } => {
                line.text("FileNotFound file_name=", file_name.as_str(), diag)
            }
            RecordReadError::FileTooLarge {
                file_name,
                size,
                limit,
            } => large_entry(line, file_name.as_str(), *size, *limit, diag),
            RecordReadError::NotUtf8 { file_name } => {
                line.text("NotUtf8 file_name=", file_name.as_str(), diag)
            }
            RecordReadError::DeserializeMetadata { file_name } => line.text(
                "DeserializeMetadata file_name=",
                file_name.as_str(),
                diag,
            ),
            RecordReadError::UnknownOutputType { file_name } => {
                line.text("UnknownOutputType file_name=", file_name.as_str(), diag)
            }
            RecordReadError::ExtractFile { store_path } => {
                line.text("ExtractFile store_path=", store_path.as_str(), diag)
            }
            RecordReadError::OpenRunLog { path } => {
                line.text("OpenRunLog path=", path.as_str(), diag)
            }
            RecordReadError::DiskFault { path } => {
                line.text("DiskFault path=", path.as_str(), diag)
            }
            RecordReadError::ReadRunLog { line_number } => {
                line.number("ReadRunLog line_number=", *line_number, diag)
            }
            RecordReadError::ParseEvent { line_number } => {
                line.number("ParseEvent line_number=", *line_number, diag)
            }
            RecordReadError::OutOfMemory => line.name("OutOfMemory", diag),
        }
    }

    fn status(&self) -> u8 {
        match self {
            RecordReadError::FileTooLarge { .. } => ABOVE_READ_LIMIT,
            RecordReadError::RunNotFound { .. }
            | RecordReadError::OpenArchive { .. }
            | RecordReadError::ParseArchive { .. }
            | RecordReadError::FileNotFound { .. }
            | RecordReadError::NotUtf8 { .. }
            | RecordReadError::DeserializeMetadata { .. }
            | RecordReadError::UnknownOutputType { .. }
            | RecordReadError::ExtractFile { .. }
            | RecordReadError::OpenRunLog { .. }
            | RecordReadError::DiskFault { .. }
            | RecordReadError::ReadRunLog { .. }
            | RecordReadError::ParseEvent { .. } => NO_BUNDLE,
            RecordReadError::OutOfMemory => OUT_OF_MEMORY,
        }
    }
}

/// Writes what is wrong with the bytes of a container, and where.
pub fn write_container_fault<G: Sink>(line: Line, fault: &ContainerError, diag: &mut G) -> Line
    ensures { Writes G.taken G.faults (shown_text (container_shown fault.now)) line.is_failed
        diag.old result.is_failed diag.new }
{
    match fault {
        ContainerError::BadMagic => line.name("BadMagic", diag),
        ContainerError::Truncated { at } => line.number("Truncated at=", *at as u64, diag),
        ContainerError::BadTag { at } => line.number("BadTag at=", *at as u64, diag),
        ContainerError::BadName { at } => line.number("BadName at=", *at as u64, diag),
        ContainerError::DuplicateName { at } => line.number("DuplicateName at=", *at as u64, diag),
        ContainerError::TrailingBytes { at } => line.number("TrailingBytes at=", *at as u64, diag),
        ContainerError::OutOfMemory => line.name("OutOfMemory", diag),
    }
}
