//! Headers, with the shortest prefixes of their runs' ids.

use rec_events::ReportUuid;
use rec_format::{RecordedRun, RecordedRunInfo, RunIdIndex};
use rec_forms::read_text;
use rec_replay::ReplayHeader;
use std::alloc::{AllocError, Global};
use std::test::Fail;
use uuid::Uuid;

fn run(alloc: Global) -> Result<RecordedRunInfo, Fail> {
    let run: RecordedRun = read_text(alloc, run_text().as_bytes())?;
    let info = run.to_info(alloc);
    drop(run);
    Ok(info?)
}

fn run_text() -> &'static str {
    concat!(
        r#"{"store-format-version":3,"run-id":"550e8400-e29b-41d4-a716-446655440000","#,
        r#""nextest-version":"0.9.111","started-at":{"secs":1000,"nanos":0,"offset":0},"#,
        r#""last-written-at":{"secs":1011,"nanos":0,"offset":0},"#,
        r#""sizes":{"log":{"compressed":0,"uncompressed":0},"#,
        r#""store":{"compressed":0,"uncompressed":0}},"status":{"status":"incomplete"}}"#
    )
}

fn first() -> &'static str {
    "550e8400-e29b-41d4-a716-446655440000"
}

fn second() -> &'static str {
    "550e7400-e29b-41d4-a716-446655440000"
}

/// When a run of the id `first` started, and the prefix that its header has, with what follows it.
fn header(alloc: Global, index: Option<&RunIdIndex>) -> Result<String, Fail> {
    let run_id = ReportUuid::new(Uuid::parse_str(first())?);
    let info = run(alloc)?;
    let header = ReplayHeader::new(alloc, run_id, &info, index);
    drop(info);
    let header = header?;
    let text = shown(alloc, &header);
    drop(header);
    Ok(text?)
}

fn shown(alloc: Global, header: &ReplayHeader) -> Result<String, AllocError> {
    let started = header.started_at.secs;
    match &header.unique_prefix {
        Some(cut) => format!(in alloc; "{started} {} {}", cut.prefix, cut.rest),
        None => format!(in alloc; "{started}"),
    }
}

/// An index of two runs.
fn index(alloc: Global) -> Result<RunIdIndex, Fail> {
    let ids = [
        ReportUuid::new(Uuid::parse_str(first())?),
        ReportUuid::new(Uuid::parse_str(second())?),
    ];
    Ok(RunIdIndex::new(alloc, &ids)?)
}

#[test]
fn prefixes(rt: HostRuntime) -> Result<(), Fail> {
    let alloc = rt.alloc();
    let unknown = header(alloc, None)?;
    assert!(rt; unknown.as_str() == "1000", "{unknown}");
    let index = index(alloc)?;
    let of_two = header(alloc, Some(&index));
    drop(index);
    let of_two = of_two?;
    assert!(rt;
        of_two.as_str() == "1000 550e8 400-e29b-41d4-a716-446655440000",
        "{of_two}"
    );
    Ok(())
}
