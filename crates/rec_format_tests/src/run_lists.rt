//! The list of runs, and prefixes of their ids.

use crate::helpers::is_rewritten;
use rec_events::ReportUuid;
use rec_format::{
    RUNS_JSON_FORMAT_VERSION, RecordedRunList, RunFilesExist, RunIdIndex, RunsJsonFormatVersion,
    RunsJsonWritePermission,
};
use rec_forms::{FromValueError, read_text};
use std::alloc::{AllocError, Global};
use std::process::Abort;
use std::test::Fail;

// Whether the list of a text may be written as this says.
fn permission(alloc: Global, text: &str) -> Option<RunsJsonWritePermission> {
    match read_text::<RecordedRunList>(alloc, text.as_bytes()) {
        Ok(list) => Some(permission_of(list)),
        Err(_) => None,
    }
}

fn permission_of(list: RecordedRunList) -> RunsJsonWritePermission {
    list.write_permission()
}

#[test]
fn permissions(rt: HostRuntime) -> Result<(), Fail> {
    let alloc = rt.alloc();
    let denied = RunsJsonWritePermission::Denied {
        file_version: RunsJsonFormatVersion::new(99),
        max_supported_version: RUNS_JSON_FORMAT_VERSION,
    };
    let newer = permission(alloc, r#"{"format-version":99,"runs":[]}"#);
    assert!(rt; newer == Some(denied));
    for text in [r#"{"format-version":3}"#, older_list()] {
        assert!(rt; permission(alloc, text) == Some(RunsJsonWritePermission::Allowed));
    }
    let printed = format!(in alloc; "{RUNS_JSON_FORMAT_VERSION}")?;
    assert!(rt; printed.as_str() == "3");
    Ok(())
}

// An older list of one run, whose store is older too, with members that nobody reads.
fn older_list() -> &'static str {
    concat!(
        r#"{"format-version":1,"more":true,"#,
        r#""runs":[{"run-id":"550e8400-e29b-41d4-a716-446655440000","store-format-version":2,"#,
        r#""store-format-minor-version":1,"nextest-version":"0.9.111","#,
        r#""started-at":{"secs":1000,"nanos":0,"offset":0},"#,
        r#""last-written-at":{"secs":1011,"nanos":0,"offset":0},"#,
        r#""sizes":{"log":{"compressed":1,"uncompressed":2},"#,
        r#""store":{"compressed":4,"uncompressed":5,"entries":6}},"#,
        r#""status":{"status":"incomplete"},"more":[]}]}"#
    )
}

// The list as it is written back: its version stays.
fn written_older_list() -> &'static str {
    concat!(
        r#"{"format-version":1,"runs":[{"cli-args":[],"env-vars":{},"#,
        r#""last-written-at":{"nanos":0,"offset":0,"secs":1011},"nextest-version":"0.9.111","#,
        r#""run-id":"550e8400-e29b-41d4-a716-446655440000","#,
        r#""sizes":{"log":{"compressed":1,"entries":0,"uncompressed":2},"#,
        r#""store":{"compressed":4,"entries":6,"uncompressed":5}},"#,
        r#""started-at":{"nanos":0,"offset":0,"secs":1000},"status":{"status":"incomplete"},"#,
        r#""store-format-minor-version":1,"store-format-version":2}]}"#
    )
}

#[test]
fn lists(rt: HostRuntime) {
    for (text, want) in [
        (r#"{"runs":[]}"#, "refused"),
        (
            r#"{"last-pruned-at":{"secs":5,"nanos":0,"offset":0},"format-version":3}"#,
            r#"{"format-version":3,"last-pruned-at":{"nanos":0,"offset":0,"secs":5},"runs":[]}"#,
        ),
        (older_list(), written_older_list()),
    ] {
        assert!(rt;
            is_rewritten::<RecordedRunList>(rt.alloc(), text, want),
            "{text}"
        );
    }
}

#[derive(Drop)]
struct Files {
    store: bool,
    log: bool,
}

impl RunFilesExist for Files {
    fn store_zip_exists(&self) -> bool {
        self.store
    }

    fn run_log_exists(&self) -> bool {
        self.log
    }
}

fn are_all_there<F: RunFilesExist>(files: &F) -> bool {
    files.store_zip_exists() && files.run_log_exists()
}

#[test]
fn which_files(rt: HostRuntime) {
    let files = Files {
        store: true,
        log: false,
    };
    assert!(rt; !are_all_there(&files));
}

fn run_id(alloc: Global, text: &str) -> Result<ReportUuid, FromValueError> {
    read_text(alloc, text.as_bytes())
}

// The prefix of an id in an index of two, and what follows it.
fn cut(alloc: Global, ids: &[ReportUuid], id: ReportUuid) -> Result<String, AllocError> {
    let index = RunIdIndex::new(alloc, ids)?;
    let cut = index.shortest_unique_prefix(alloc, id);
    drop(index);
    match cut? {
        Some(cut) => format!(in alloc; "{} {}", cut.prefix, cut.rest),
        None => String::from_str(alloc, "none"),
    }
}

// In an index of each two ids the third is cut as stands beside them.
fn check_cuts(
    rt: &impl Abort,
    alloc: Global,
    rows: &[(&str, &str, &str, &str)],
) -> Result<(), Fail> {
    for (first, second, id, want) in rows {
        let ids = [run_id(alloc, first)?, run_id(alloc, second)?];
        let got = cut(alloc, &ids, run_id(alloc, id)?)?;
        assert!(rt; got.as_str() == *want, "{id}");
    }
    Ok(())
}

const FIRST: &str = r#""550e8400-e29b-41d4-a716-446655440000""#;

const SECOND: &str = r#""550e7400-e29b-41d4-a716-446655440000""#;

#[test]
fn prefixes(rt: HostRuntime) -> Result<(), Fail> {
    check_cuts(
        &rt,
        rt.alloc(),
        &[
            (
                FIRST,
                SECOND,
                FIRST,
                "550e8 400-e29b-41d4-a716-446655440000",
            ),
            (FIRST, FIRST, FIRST, "5 50e8400-e29b-41d4-a716-446655440000"),
            (FIRST, FIRST, SECOND, "none"),
        ],
    )
}
