//! Versions, paths, heads and what is known of runs.

use crate::helpers::{check, check_changed};
use rec_events::{RustBinaryId, TestNames};
use rec_format::{
    CompletedRunStats, OutputDict, PORTABLE_RECORDING_FORMAT_VERSION,
    PortableRecordingFormatMajorVersion, PortableRecordingFormatMinorVersion,
    PortableRecordingFormatVersion, RecordedRunInfo, Release, RerunSuites, RerunTestSuiteInfo,
    STORE_FORMAT_VERSION, SessionHead, StoreFormatMajorVersion, StoreFormatMinorVersion,
    StoreFormatVersion, StoreVersionIncompatibility, StressCompletedRunStats,
    TooOldRecordingGuidance, has_zip_extension, store_format_version_for,
};
use std::alloc::{AllocError, Global};
use std::test::Fail;

fn store_version(major: u32, minor: u32) -> StoreFormatVersion {
    StoreFormatVersion::new(
        StoreFormatMajorVersion::new(major),
        StoreFormatMinorVersion::new(minor),
    )
}

fn portable_version(major: u32, minor: u32) -> PortableRecordingFormatVersion {
    PortableRecordingFormatVersion::new(
        PortableRecordingFormatMajorVersion::new(major),
        PortableRecordingFormatMinorVersion::new(minor),
    )
}

// What stands in the way of a store of a version.
const STORES: [(u32, u32, &str); 8] = [
    (3, 0, "read"),
    (3, 1, "read"),
    (3, 2, "minor version 2 is newer than supported version 1"),
    (
        4,
        0,
        "recording has major version 4, but this nextest only supports version 3 (upgrade \
        nextest to replay this recording)",
    ),
    (
        2,
        0,
        "recording has major version 2, but this nextest requires version 3\n\
        (recordings from nextest 0.9.149 and earlier are no longer supported; discard this \
        recording and record a new run)",
    ),
    (
        2,
        7,
        "recording has major version 2, but this nextest requires version 3\n\
        (recordings from nextest 0.9.149 and earlier are no longer supported; discard this \
        recording and record a new run)",
    ),
    (
        1,
        0,
        "recording has major version 1, but this nextest requires version 3\n\
        (recordings from nextest 0.9.130 and earlier are no longer supported; discard this \
        recording and record a new run)",
    ),
    (
        0,
        0,
        "recording has major version 0, but this nextest requires version 3",
    ),
];

// What stands in the way of a store of this version, `read` where nothing does.
fn refused_store(alloc: Global, major: u32, minor: u32) -> Result<String, AllocError> {
    match store_version(major, minor).check_readable_by(STORE_FORMAT_VERSION) {
        Ok(()) => String::from_str(alloc, "read"),
        Err(error) => format!(in alloc; "{error}"),
    }
}

// The same of a bundle.
const BUNDLES: [(u32, u32, &str); 5] = [
    (1, 1, "read"),
    (1, 0, "read"),
    (1, 2, "minor version 2 is newer than supported version 1"),
    (2, 0, "major version 2 differs from supported version 1"),
    (0, 1, "major version 0 differs from supported version 1"),
];

fn refused_bundle(alloc: Global, major: u32, minor: u32) -> Result<String, AllocError> {
    match portable_version(major, minor).check_readable_by(PORTABLE_RECORDING_FORMAT_VERSION) {
        Ok(()) => String::from_str(alloc, "read"),
        Err(error) => format!(in alloc; "{error}"),
    }
}

#[test]
fn versions_that_are_refused(rt: HostRuntime) -> Result<(), Fail> {
    for (major, minor, want) in &STORES {
        let got = refused_store(rt.alloc(), *major, *minor)?;
        assert!(rt; got.as_str() == *want, "store {major}.{minor}");
    }
    for (major, minor, want) in &BUNDLES {
        let got = refused_bundle(rt.alloc(), *major, *minor)?;
        assert!(rt; got.as_str() == *want, "bundle {major}.{minor}");
    }
    Ok(())
}

const OLDER: &str = "recording has major version 2, but this nextest requires version 3\n\
    (use nextest <= 0.9.149 to replay this recording)";

// What stands in the way of a store that an older program reads.
fn older_store(alloc: Global) -> Result<String, AllocError> {
    let older = StoreVersionIncompatibility::RecordingTooOld {
        recording_major: StoreFormatMajorVersion::new(2),
        supported_major: StoreFormatMajorVersion::new(3),
        guidance: TooOldRecordingGuidance::UseOlderNextest {
            last_nextest_version: Release {
                major: 0,
                minor: 9,
                patch: 149,
            },
        },
    };
    format!(in alloc; "{older}")
}

// The version that a text names, as it is printed.
const VERSIONS: [(&str, &str); 12] = [
    ("9999.0", "9999.0"),
    ("03.007", "3.7"),
    ("4294967295.4294967295", "4294967295.4294967295"),
    ("3", "none"),
    ("3.", "none"),
    (".0", "none"),
    ("3.0.0", "none"),
    ("+3.0", "none"),
    ("3.-0", "none"),
    ("3.0 ", "none"),
    ("4294967296.0", "none"),
    ("", "none"),
];

fn printed_version(alloc: Global, text: &str) -> Result<String, AllocError> {
    match store_format_version_for(Some(text)) {
        Some(version) => format!(in alloc; "{version}"),
        None => String::from_str(alloc, "none"),
    }
}

#[test]
fn printed_versions(rt: HostRuntime) -> Result<(), Fail> {
    for (text, want) in &VERSIONS {
        assert!(rt;
            printed_version(rt.alloc(), text)?.as_str() == *want,
            "{text}"
        );
    }
    assert!(rt; older_store(rt.alloc())?.as_str() == OLDER);
    assert!(rt; store_format_version_for(None) == Some(store_version(3, 1)));
    let guidance = StoreFormatMajorVersion::new(4).too_old_guidance();
    assert!(rt; guidance == TooOldRecordingGuidance::Unknown);
    Ok(())
}

const PATHS: [(&str, OutputDict); 14] = [
    ("meta/test-list.json", OutputDict::None),
    ("out/0-combined", OutputDict::Stdout),
    ("out/0000000000000001-stdout", OutputDict::Stdout),
    ("out/0000000000000001-stderr", OutputDict::Stderr),
    ("out/a/./b-stderr//.", OutputDict::Stderr),
    ("out/a-stdout/b", OutputDict::None),
    ("out/-stdoutx", OutputDict::None),
    ("out", OutputDict::None),
    ("out/", OutputDict::None),
    ("./out/0-stdout", OutputDict::None),
    ("/out/0-stdout", OutputDict::None),
    ("outs/0-stdout", OutputDict::None),
    ("0-stdout", OutputDict::None),
    ("", OutputDict::None),
];

const ZIPS: [(&str, bool); 10] = [
    ("a.zip", true),
    ("a/b.tar.ZiP/", true),
    ("a/b.zip/./", true),
    ("a/.zip", false),
    ("..zip", true),
    ("zip", false),
    ("a.zip/..", false),
    ("a.zip/b", false),
    ("a.zip.x", false),
    ("", false),
];

#[test]
fn names_of_files(rt: HostRuntime) {
    for (path, want) in &PATHS {
        assert!(rt; OutputDict::for_path(*path) == *want, "{path}");
    }
    for (path, want) in &ZIPS {
        assert!(rt; has_zip_extension(*path) == *want, "{path}");
    }
}

const HEAD: &str = concat!(
    r#"{"run-id":"550e8400-e29b-41d4-a716-446655440000","nextest-version":"0.9.111","#,
    r#""started-at":{"secs":1000,"nanos":0,"offset":0},"#,
    r#""last-written-at":{"secs":1011,"nanos":0,"offset":0},"#,
    r#""status":{"status":"incomplete"},"cargo-metadata":"{}","test-list":{"suites":{}},"#,
    r#""record-opts":{"run-mode":"test"},"build-scope":{"build-kind":"cargo","scope":{}}}"#
);

const PLAIN: &str = concat!(
    r#"{"build-scope":{"build-kind":"cargo","#,
    r#""scope":{"features":{"all-features":false,"features":[],"no-default-features":false},"#,
    r#""packages":{"exclude":[],"specs":[],"workspace":false},"#,
    r#""targets":{"all-targets":false,"benches":{"all":false,"names":[]},"#,
    r#""bins":{"all":false,"names":[]},"examples":{"all":false,"names":[]},"lib":false,"#,
    r#""tests":{"all":false,"names":[]}}}},"cargo-metadata":"{}","cli-args":[],"#,
    r#""env-vars":{},"last-written-at":{"nanos":0,"offset":0,"secs":1011},"#,
    r#""nextest-version":"0.9.111","record-opts":{"run-mode":"test"},"#,
    r#""run-id":"550e8400-e29b-41d4-a716-446655440000","#,
    r#""started-at":{"nanos":0,"offset":0,"secs":1000},"status":{"status":"incomplete"},"#,
    r#""test-list":{"suites":{}}}"#
);

const FIELDS: &str = concat!(
    r#""duration":{"secs":11,"nanos":5},"cli-args":["b","a"],"env-vars":{"Z":"2","A":"1"},"#,
    r#""parent-run-id":"650E8400E29B41D4A716446655440000","ignored":1e2,"status":"#
);

const WITH_FIELDS: &str = concat!(
    r#"{"build-scope":{"build-kind":"cargo","#,
    r#""scope":{"features":{"all-features":false,"features":[],"no-default-features":false},"#,
    r#""packages":{"exclude":[],"specs":[],"workspace":false},"#,
    r#""targets":{"all-targets":false,"benches":{"all":false,"names":[]},"#,
    r#""bins":{"all":false,"names":[]},"examples":{"all":false,"names":[]},"lib":false,"#,
    r#""tests":{"all":false,"names":[]}}}},"cargo-metadata":"{}","cli-args":["b","a"],"#,
    r#""duration":{"nanos":5,"secs":11},"env-vars":{"A":"1","Z":"2"},"#,
    r#""last-written-at":{"nanos":0,"offset":0,"secs":1011},"nextest-version":"0.9.111","#,
    r#""parent-run-id":"650e8400-e29b-41d4-a716-446655440000","#,
    r#""record-opts":{"run-mode":"test"},"run-id":"550e8400-e29b-41d4-a716-446655440000","#,
    r#""started-at":{"nanos":0,"offset":0,"secs":1000},"status":{"status":"incomplete"},"#,
    r#""test-list":{"suites":{}}}"#
);

const RERUN: &str = concat!(
    r#""rerun-info":{"parent-run-id":"650e8400-e29b-41d4-a716-446655440000","#,
    r#""root-info":{"run-id":"750e8400-e29b-41d4-a716-446655440000","#,
    r#""build-scope":{"build-kind":"reused","scope":{}}},"#,
    r#""test-suites":[{"binary_id":"b","passing":[],"outstanding":["t"]},"#,
    r#"{"binary_id":"a","passing":["u","t","u"],"outstanding":[]}]},"status":{"#
);

const WITH_RERUN: &str = concat!(
    r#"{"build-scope":{"build-kind":"cargo","#,
    r#""scope":{"features":{"all-features":false,"features":[],"no-default-features":false},"#,
    r#""packages":{"exclude":[],"specs":[],"workspace":false},"#,
    r#""targets":{"all-targets":false,"benches":{"all":false,"names":[]},"#,
    r#""bins":{"all":false,"names":[]},"examples":{"all":false,"names":[]},"lib":false,"#,
    r#""tests":{"all":false,"names":[]}}}},"cargo-metadata":"{}","cli-args":[],"#,
    r#""env-vars":{},"last-written-at":{"nanos":0,"offset":0,"secs":1011},"#,
    r#""nextest-version":"0.9.111","record-opts":{"run-mode":"test"},"#,
    r#""rerun-info":{"parent-run-id":"650e8400-e29b-41d4-a716-446655440000","#,
    r#""root-info":{"build-scope":{"build-kind":"reused","#,
    r#""scope":{"features":{"all-features":false,"features":[],"no-default-features":false},"#,
    r#""packages":{"exclude":[],"specs":[],"workspace":false},"#,
    r#""targets":{"all-targets":false,"benches":{"all":false,"names":[]},"#,
    r#""bins":{"all":false,"names":[]},"examples":{"all":false,"names":[]},"lib":false,"#,
    r#""tests":{"all":false,"names":[]}}}},"run-id":"750e8400-e29b-41d4-a716-446655440000"},"#,
    r#""test-suites":[{"binary_id":"a","outstanding":[],"passing":["t","u"]},"#,
    r#"{"binary_id":"b","outstanding":["t"],"passing":[]}]},"#,
    r#""run-id":"550e8400-e29b-41d4-a716-446655440000","#,
    r#""started-at":{"nanos":0,"offset":0,"secs":1000},"status":{"status":"incomplete"},"#,
    r#""test-list":{"suites":{}}}"#
);

#[test]
fn heads(rt: HostRuntime) -> Result<(), Fail> {
    check_changed::<SessionHead>(
        &rt,
        rt.alloc(),
        HEAD,
        &[
            ("\"status\":", "\"status\":", PLAIN),
            ("\"status\":", FIELDS, WITH_FIELDS),
            ("\"status\":{", RERUN, WITH_RERUN),
        ],
    )
}

// A text, and what it is written as once it was read.
const STATS: [(&str, &str); 5] = [
    (
        concat!(
            r#"{"status":"failed","initial-run-count":18446744073709551615,"passed":2,"#,
            r#""failed":1,"exit-code":-2147483648}"#
        ),
        concat!(
            r#"{"exit-code":-2147483648,"failed":1,"initial-run-count":18446744073709551615,"#,
            r#""passed":2}"#
        ),
    ),
    (
        r#"{"initial-run-count":3,"passed":2,"failed":1}"#,
        "refused",
    ),
    (
        r#"{"initial-run-count":3,"passed":2,"failed":-1,"exit-code":0}"#,
        "refused",
    ),
    (
        r#"{"initial-run-count":3,"passed":2,"failed":1,"exit-code":2147483648}"#,
        "refused",
    ),
    (r#"[3,2,1,0]"#, "refused"),
];

const STRESS_STATS: [(&str, &str); 4] = [
    (
        r#"{"initial-iteration-count":5,"success-count":4,"failed-count":1,"exit-code":100}"#,
        r#"{"exit-code":100,"failed-count":1,"initial-iteration-count":5,"success-count":4}"#,
    ),
    (
        concat!(
            r#"{"initial-iteration-count":null,"success-count":4294967295,"failed-count":0,"#,
            r#""exit-code":0}"#
        ),
        r#"{"exit-code":0,"failed-count":0,"success-count":4294967295}"#,
    ),
    (
        r#"{"initial-iteration-count":0,"success-count":4,"failed-count":1,"exit-code":0}"#,
        "refused",
    ),
    (
        r#"{"success-count":4294967296,"failed-count":1,"exit-code":0}"#,
        "refused",
    ),
];

const STORE_VERSIONS: [(&str, &str); 4] = [
    (r#"{"minor":7,"major":3}"#, r#"{"major":3,"minor":7}"#),
    (r#"{"major":3}"#, "refused"),
    (r#"{"major":4294967296,"minor":0}"#, "refused"),
    (r#""3.0""#, "refused"),
];

#[test]
fn statistics(rt: HostRuntime) {
    check::<CompletedRunStats>(&rt, rt.alloc(), &STATS);
    check::<StressCompletedRunStats>(&rt, rt.alloc(), &STRESS_STATS);
    check::<StoreFormatVersion>(&rt, rt.alloc(), &STORE_VERSIONS);
}

// The information on a run, and what it is written as once it was read.
const INFO: &str = concat!(
    r#"{"run-id":"550e8400-e29b-41d4-a716-446655440000","#,
    r#""store-format-version":{"major":3,"minor":0},"nextest-version":"0.9.111","#,
    r#""started-at":{"secs":1000,"nanos":0,"offset":0},"#,
    r#""last-written-at":{"secs":1011,"nanos":0,"offset":0},"#,
    r#""sizes":{"log":{"compressed":1,"uncompressed":2},"#,
    r#""store":{"compressed":4,"uncompressed":5,"entries":6}},"#,
    r#""status":{"status":"completed","initial-run-count":1,"passed":1,"failed":0,"#,
    r#""exit-code":0}}"#
);

const WRITTEN_INFO: &str = concat!(
    r#"{"cli-args":[],"env-vars":{},"last-written-at":{"nanos":0,"offset":0,"secs":1011},"#,
    r#""nextest-version":"0.9.111","run-id":"550e8400-e29b-41d4-a716-446655440000","#,
    r#""sizes":{"log":{"compressed":1,"entries":0,"uncompressed":2},"#,
    r#""store":{"compressed":4,"entries":6,"uncompressed":5}},"#,
    r#""started-at":{"nanos":0,"offset":0,"secs":1000},"#,
    r#""status":{"exit-code":0,"failed":0,"initial-run-count":1,"passed":1,"#,
    r#""status":"completed"},"store-format-version":{"major":3,"minor":0}}"#
);

#[test]
fn run_info(rt: HostRuntime) -> Result<(), Fail> {
    check_changed::<RecordedRunInfo>(
        &rt,
        rt.alloc(),
        INFO,
        &[
            ("\"sizes\":", "\"sizes\":", WRITTEN_INFO),
            // The version of a run's own form is no version here.
            (r#"{"major":3,"minor":0}"#, "3", "refused"),
            ("\"sizes\":", "\"size\":", "refused"),
        ],
    )
}

fn suite(alloc: Global, binary_id: &str) -> Result<RerunTestSuiteInfo, AllocError> {
    Ok(RerunTestSuiteInfo {
        binary_id: RustBinaryId::new(String::from_str(alloc, binary_id)?),
        passing: TestNames::empty(alloc),
        outstanding: TestNames::empty(alloc),
    })
}

// Whether one suite took the place of an equal one.
fn is_equal(
    replaced: Option<RerunTestSuiteInfo>,
    suite: Result<RerunTestSuiteInfo, AllocError>,
) -> bool {
    match (&replaced, &suite) {
        (Some(replaced), Ok(suite)) => replaced == suite,
        _ => false,
    }
}

// Puts the suite of a binary among others, and says whether that took the place of an equal one.
fn put(alloc: Global, suites: &mut RerunSuites, binary_id: &str) -> Result<bool, AllocError> {
    let replaced = suites.insert(suite(alloc, binary_id)?)?;
    Ok(is_equal(replaced, suite(alloc, binary_id)))
}

fn has(alloc: Global, suites: &RerunSuites, binary_id: &str) -> Result<bool, AllocError> {
    let sought = RustBinaryId::new(String::from_str(alloc, binary_id)?);
    Ok(suites.get(&sought).is_some())
}

#[test]
fn suites_by_binary(rt: HostRuntime) -> Result<(), Fail> {
    let alloc = rt.alloc();
    let mut suites = RerunSuites::new(alloc);
    for (binary_id, replaces) in [("b", false), ("a", false), ("b", true)] {
        assert!(rt;
            put(alloc, &mut suites, binary_id)? == replaces,
            "{binary_id}"
        );
    }
    let first = suites.len() == 2 && suites.suite(0).binary_id.as_str() == "a";
    assert!(rt; first && has(alloc, &suites, "b")?);
    Ok(())
}
