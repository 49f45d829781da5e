//! Versions that aren't read.
ghost use Rattle.std.specs.Prelude.{◌++◌, ℕ, List, codes, decimal};
ghost use Rattle.rec_format.specs.Versions.{version_text};
ghost use Rattle.rec_faults.specs.FaultLine.{fields_text, no_fields, shown_text};
ghost use Rattle.rec_faults.specs.ReadingLine.{bundle_version_shown, guidance_shown};
ghost use Rattle.rec_faults.specs.ReadingLine.{majors, store_version_shown};
ghost use Rattle.rec_faults.specs.WritingFaults.{Writes};

use crate::line::Line;
use rec_container::Sink;
use rec_format::{
    PortableRecordingVersionIncompatibility, StoreVersionIncompatibility, TooOldRecordingGuidance,
};

/// Writes why the version of a bundle isn't read.
pub fn write_bundle_version<G: Sink>(
    line: Line,
    incompatibility: PortableRecordingVersionIncompatibility,
    diag: &mut G,
) -> Line
    ensures { Writes G.taken G.faults (shown_text (bundle_version_shown incompatibility))
        line.is_failed diag.old result.is_failed diag.new }
{
    match incompatibility {
        PortableRecordingVersionIncompatibility::MajorMismatch {
            recording_major,
            supported_major,
        } => {
            let line = line.name("MajorMismatch", diag);
            write_majors(
                line,
                recording_major.number(),
                supported_major.number(),
                diag,
            )
        }
        PortableRecordingVersionIncompatibility::MinorTooNew {
            recording_minor,
            supported_minor,
        } => write_minors(
            line,
            recording_minor.number(),
            supported_minor.number(),
            diag,
        ),
    }
}

/// Writes why the version of a store isn't read.
pub fn write_store_version<G: Sink>(
    line: Line,
    incompatibility: StoreVersionIncompatibility,
    diag: &mut G,
) -> Line
    ensures { Writes G.taken G.faults (shown_text (store_version_shown incompatibility))
        line.is_failed diag.old result.is_failed diag.new }
{
    match incompatibility {
        StoreVersionIncompatibility::RecordingTooOld {
            recording_major,
            supported_major,
            guidance,
        } => {
            let line = line.name("RecordingTooOld", diag);
            let line = write_majors(
                line,
                recording_major.number(),
                supported_major.number(),
                diag,
            );
            write_guidance(line.name(" guidance=", diag), guidance, diag)
        }
        StoreVersionIncompatibility::RecordingTooNew {
            recording_major,
            supported_major,
        } => {
            let line = line.name("RecordingTooNew", diag);
            write_majors(
                line,
                recording_major.number(),
                supported_major.number(),
                diag,
            )
        }
        StoreVersionIncompatibility::MinorTooNew {
            recording_minor,
            supported_minor,
        } => write_minors(
            line,
            recording_minor.number(),
            supported_minor.number(),
            diag,
        ),
    }
}

/// Writes two majors that don't fit.
fn write_majors<G: Sink>(line: Line, recording: u32, supported: u32, diag: &mut G) -> Line
    ensures { Writes G.taken G.faults (fields_text (majors recording supported no_fields))
        line.is_failed diag.old result.is_failed diag.new }
{
    line.number(" recording_major=", recording as u64, diag)
        .number(" supported_major=", supported as u64, diag)
}

/// Writes two minors that don't fit.
fn write_minors<G: Sink>(line: Line, recording: u32, supported: u32, diag: &mut G) -> Line
    ensures { Writes G.taken G.faults
        (λ rest. codes "MinorTooNew recording_minor="
        ++ (decimal recording ++ (codes " supported_minor=" ++ (decimal supported ++ rest))))
        line.is_failed diag.old result.is_failed diag.new }
{
    line.number("MinorTooNew recording_minor=", recording as u64, diag)
        .number(" supported_minor=", supported as u64, diag)
}

/// Writes what to do with a recording that is too old.
fn write_guidance<G: Sink>(line: Line, guidance: TooOldRecordingGuidance, diag: &mut G) -> Line
    ensures { Writes G.taken G.faults (shown_text (guidance_shown guidance)) line.is_failed diag.old
        result.is_failed diag.new }
{
    match guidance {
        TooOldRecordingGuidance::UseOlderNextest {
            last_nextest_version,
        } => line.release(
            "UseOlderNextest last_nextest_version=",
            last_nextest_version,
            diag,
        ),
        TooOldRecordingGuidance::Discard {
            last_nextest_version,
        } => line.release("Discard last_nextest_version=", last_nextest_version, diag),
        TooOldRecordingGuidance::Unknown => line.name("Unknown", diag),
    }
}
