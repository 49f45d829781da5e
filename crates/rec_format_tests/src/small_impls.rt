//! The order, the equality, the defaults and the texts of the small types.

use rec_events::{RustBinaryId, TestNames};
use rec_format::{
    BuildKind, ComponentSizes, ComponentSizesFormat, OutputDict,
    PortableRecordingFormatMajorVersion, PortableRecordingFormatMinorVersion,
    PortableRecordingFormatVersion, PortableRecordingVersionIncompatibility, RecordedBuildScope,
    RecordedSizes, RecordedSizesFormat, Release, RerunTestSuiteInfo, RunsJsonFormatVersion,
    RunsJsonWritePermission, StoreFormatMajorVersion, StoreFormatMinorVersion, StoreFormatVersion,
    StoreVersionIncompatibility, TooOldRecordingGuidance,
};
use rec_forms::{FromValueError, read_text};
use std::alloc::{AllocError, Global};
use std::fmt::Display;

// Whether two version numbers are printed as 2 and 10, and the second is the greater one.
fn rises<V: Copy + Clone + PartialEq + Eq + PartialOrd + Ord + Display>(
    alloc: Global,
    two: V,
    ten: V,
) -> bool {
    let copy = two;
    let text = format!(in alloc; "{two} {ten}");
    let is_printed = matches!(&text, Ok(text) if text.as_str() == "2 10");
    is_printed && two < ten && ten > two && two == copy && two != ten
}

#[test]
fn version_numbers(rt: HostRuntime) {
    let alloc = rt.alloc();
    for rises in [
        rises(
            alloc,
            StoreFormatMajorVersion::new(2),
            StoreFormatMajorVersion::new(10),
        ),
        rises(
            alloc,
            StoreFormatMinorVersion::new(2),
            StoreFormatMinorVersion::new(10),
        ),
        rises(
            alloc,
            PortableRecordingFormatMajorVersion::new(2),
            PortableRecordingFormatMajorVersion::new(10),
        ),
        rises(
            alloc,
            PortableRecordingFormatMinorVersion::new(2),
            PortableRecordingFormatMinorVersion::new(10),
        ),
        rises(
            alloc,
            RunsJsonFormatVersion::new(2),
            RunsJsonFormatVersion::new(10),
        ),
    ] {
        assert!(rt; rises);
    }
}

#[test]
fn defaults(rt: HostRuntime) {
    let store_minor = StoreFormatMinorVersion::new(0);
    let minor = PortableRecordingFormatMinorVersion::new(0);
    let log = ComponentSizesFormat {
        compressed: 0,
        uncompressed: 0,
        entries: 0,
    };
    let sizes = RecordedSizesFormat { log, store: log };
    for is_default in [
        StoreFormatMinorVersion::default() == store_minor,
        PortableRecordingFormatMinorVersion::default() == minor,
        ComponentSizesFormat::default() == log,
        ComponentSizesFormat::from(ComponentSizes::default()) == log,
        RecordedSizesFormat::default() == sizes,
        RecordedSizesFormat::from(RecordedSizes::default()) == sizes,
    ] {
        assert!(rt; is_default);
    }
}

// Whether a value is its own copy, and differs from another one.
fn differ<T: Copy + Clone + PartialEq + Eq>(value: T, other: T) -> bool {
    let copy = value;
    value == copy && value != other
}

fn store_version(major: u32, minor: u32) -> StoreFormatVersion {
    StoreFormatVersion::new(
        StoreFormatMajorVersion::new(major),
        StoreFormatMinorVersion::new(minor),
    )
}

fn portable_version(major: u32, minor: u32) -> PortableRecordingFormatVersion {
    PortableRecordingFormatVersion::new(
        PortableRecordingFormatMajorVersion::new(major),
        PortableRecordingFormatMinorVersion::new(minor),
    )
}

fn release(patch: u64) -> Release {
    Release {
        major: 0,
        minor: 9,
        patch,
    }
}

fn discard(patch: u64) -> TooOldRecordingGuidance {
    TooOldRecordingGuidance::Discard {
        last_nextest_version: release(patch),
    }
}

fn store_minor(minor: u32) -> StoreVersionIncompatibility {
    StoreVersionIncompatibility::MinorTooNew {
        recording_minor: StoreFormatMinorVersion::new(minor),
        supported_minor: StoreFormatMinorVersion::new(0),
    }
}

fn portable_minor(minor: u32) -> PortableRecordingVersionIncompatibility {
    PortableRecordingVersionIncompatibility::MinorTooNew {
        recording_minor: PortableRecordingFormatMinorVersion::new(minor),
        supported_minor: PortableRecordingFormatMinorVersion::new(0),
    }
}

fn denied(version: u32) -> RunsJsonWritePermission {
    RunsJsonWritePermission::Denied {
        file_version: RunsJsonFormatVersion::new(version),
        max_supported_version: RunsJsonFormatVersion::new(3),
    }
}

#[test]
fn copies(rt: HostRuntime) {
    for differs in [
        differ(store_version(3, 0), store_version(3, 1)),
        differ(portable_version(1, 1), portable_version(2, 1)),
        differ(release(130), release(149)),
        differ(discard(130), discard(149)),
        differ(discard(130), TooOldRecordingGuidance::Unknown),
        differ(store_minor(1), store_minor(2)),
        differ(portable_minor(1), portable_minor(2)),
        differ(denied(4), denied(5)),
        differ(denied(4), RunsJsonWritePermission::Allowed),
        differ(BuildKind::Cargo, BuildKind::Reused),
        differ(OutputDict::None, OutputDict::Stdout),
        differ(OutputDict::Stdout, OutputDict::Stderr),
    ] {
        assert!(rt; differs);
    }
}

// Whether two values were made, and are equal.
fn are_equal<T: PartialEq + Eq + Drop, E: Drop>(
    value: Result<T, E>,
    other: Result<T, E>,
) -> Option<bool> {
    match (&value, &other) {
        (Ok(value), Ok(other)) => Some(value == other),
        _ => None,
    }
}

fn scope(alloc: Global, text: &str) -> Result<RecordedBuildScope, FromValueError> {
    read_text(alloc, text.as_bytes())
}

fn suite(alloc: Global, binary_id: &str) -> Result<RerunTestSuiteInfo, AllocError> {
    Ok(RerunTestSuiteInfo {
        binary_id: RustBinaryId::new(String::from_str(alloc, binary_id)?),
        passing: TestNames::empty(alloc),
        outstanding: TestNames::empty(alloc),
    })
}

const CARGO: &str = r#"{"build-kind":"cargo","scope":{}}"#;

const REUSED: &str = r#"{"build-kind":"reused","scope":{}}"#;

#[test]
fn equal_scopes_and_suites(rt: HostRuntime) {
    let alloc = rt.alloc();
    assert!(rt; are_equal(scope(alloc, CARGO), scope(alloc, CARGO)) == Some(true));
    assert!(rt; are_equal(scope(alloc, CARGO), scope(alloc, REUSED)) == Some(false));
    assert!(rt; are_equal(suite(alloc, "a"), suite(alloc, "a")) == Some(true));
    assert!(rt; are_equal(suite(alloc, "a"), suite(alloc, "b")) == Some(false));
}
