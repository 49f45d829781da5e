//! Traces that are handed events one by one, some of which are refused:
//! the text is that of the others.

use crate::logs::log;
use rec_codec::{LineIter, OutputForm};
use rec_events::{LiveSpec, OutputSpec, RecordingSpec, TestEventSummary, Version};
use rec_trace::{ChromeTraceGroupBy, ChromeTraceMessageFormat, PrintedTrace};
use std::alloc::Global;
use std::test::Fail;

/// Adds an event, lets it go here and by a call, and says whether it was refused.
fn is_refused<S: OutputSpec>(
    alloc: Global,
    trace: &mut PrintedTrace,
    event: TestEventSummary<S>,
) -> bool {
    let result = trace.process_event(alloc, &event);
    drop(event);
    let is_refused = result.is_err();
    drop(result);
    is_refused
}

/// Adds the events of a log, and counts those that are refused;
/// all numbers are counted where one isn't read.
fn added<S: OutputForm>(alloc: Global, trace: &mut PrintedTrace, log: &str) -> u64 {
    let mut refused: u64 = 0;
    for event in LineIter::<S>::new(alloc, log.as_bytes(), 1) {
        let Ok(event) = event else {
            return u64::MAX;
        };
        if is_refused(alloc, trace, event) {
            refused = refused.saturating_add(1);
        }
    }
    refused
}

/// The text of the trace of a log, after how many of its events were refused.
fn built<S: OutputForm>(
    alloc: Global,
    message_format: ChromeTraceMessageFormat,
    log: &str,
) -> Result<String, Fail> {
    let version = Version::parse(alloc, "0.9.111")?;
    let group_by = ChromeTraceGroupBy::Binary;
    let mut trace = PrintedTrace::new(alloc, version, group_by, message_format);
    let refused = added::<S>(alloc, &mut trace, log);
    let bytes = trace.into_bytes(alloc)?;
    let text = std::str::from_utf8(&bytes).unwrap_or("no text");
    Ok(format!(in alloc; "{refused} refused: {text}")?)
}

/// Ten events that are drawn, among ten that are refused: each of the latter would name a row,
/// start what another one needs, or say how many tests run.
fn with_refusals() -> &'static str {
    concat!(
        r#"refused 1000 "kind":"stress-sub-run-finished","#,
        r#""progress":{"count":{"elapsed":{"secs":1,"nanos":0},"completed":1}},"#,
        r#""sub-elapsed":{"secs":1,"nanos":0},"sub-stats":$stats$"#,
        "\n",
        r#"drawn 1000 "kind":"run-started","run-id":"550e8400-e29b-41d4-a716-446655440000","#,
        r#""profile-name":"default","cli-args":[]"#,
        "\n",
        r#"refused 1001 "kind":"run-started","run-id":"6ba7b810-9dad-11d1-80b4-00c04fd430c8","#,
        r#""profile-name":"ci","cli-args":["x"]"#,
        "\n",
        r#"drawn 1001 "test-instance":{"binary-id":"alpha::a","test-name":"t1"},"running":1,"#,
        r#""kind":"test-started","slot-assignment":{"global-slot":0,"test-group":"@global"},"#,
        r#""current-stats":$stats$,"command-line":[]"#,
        "\n",
        r#"refused 1002 "test-instance":{"binary-id":"alpha::a","test-name":"t1"},"running":0,"#,
        r#"$passed$,"current-stats":{"exec-failed":1,"failed":18446744073709551615,"#,
        r#""failed-slow":0,"failed-timed-out":0,"finished-count":0,"flaky":0,"#,
        r#""initial-run-count":1,"leaky":0,"leaky-failed":0,"passed":0,"passed-slow":0,"#,
        r#""passed-timed-out":0,"setup-scripts-exec-failed":0,"setup-scripts-failed":0,"#,
        r#""setup-scripts-finished-count":0,"setup-scripts-initial-count":0,"#,
        r#""setup-scripts-passed":0,"setup-scripts-timed-out":0,"skipped":0}"#,
        "\n",
        r#"refused 1002 "test-instance":{"binary-id":"beta::b","test-name":"t3"},"running":0,"#,
        "$failed$",
        "\n",
        r#"refused 1002 "kind":"setup-script-slow","script-id":"db1","program":"sh","args":[],"#,
        r#""slow-elapsed":{"secs":1,"nanos":0},"will-terminate":false"#,
        "\n",
        r#"refused 1002 "index":18446744073709551615,"total":2,"script-id":"db1","program":"sh","#,
        r#""args":[],"no-capture":false,"kind":"setup-script-started""#,
        "\n",
        r#"drawn 1002 "index":0,"total":2,"script-id":"db1","program":"sh","args":[],"#,
        r#""no-capture":false,"kind":"setup-script-started""#,
        "\n",
        r#"refused 1003 "test-instance":{"binary-id":"beta::b","test-name":"t3"},"running":1,"#,
        r#""kind":"test-retry-started","slot-assignment":{"global-slot":0,"#,
        r#""test-group":"@global"},"retry-data":{"attempt":2,"total-attempts":3},"#,
        r#""command-line":[]"#,
        "\n",
        r#"refused 1003 "test-instance":{"binary-id":"beta::b","test-name":"t3"},"running":2,"#,
        r#""kind":"test-started","slot-assignment":{"global-slot":18446744073709551615,"#,
        r#""test-group":"@global"},"current-stats":$stats$,"command-line":[]"#,
        "\n",
        r#"drawn 1003 "index":0,"total":2,"script-id":"db1","program":"sh","args":[],"#,
        r#""no-capture":false,"kind":"setup-script-finished","#,
        r#""run-status":{"output":{"start-error":"none"},"result":"exec-fail","#,
        r#""start-time":{"secs":1001,"nanos":0,"offset":0},"time-taken":{"secs":1,"nanos":0},"#,
        r#""is-slow":false}"#,
        "\n",
        r#"drawn 1004 "test-instance":{"binary-id":"alpha::a","test-name":"t1"},"running":1,"#,
        "$failed$",
        "\n",
        r#"drawn 1005 "test-instance":{"binary-id":"alpha::a","test-name":"t2"},"running":2,"#,
        r#""kind":"test-started","slot-assignment":{"global-slot":0,"test-group":"@global"},"#,
        r#""current-stats":$stats$,"command-line":[]"#,
        "\n",
        r#"refused 1006 "test-instance":{"binary-id":"alpha::a","test-name":"t1"},"running":3,"#,
        r#""kind":"test-retry-started","slot-assignment":{"global-slot":0,"#,
        r#""test-group":"@global"},"retry-data":{"attempt":2,"total-attempts":3},"#,
        r#""command-line":[]"#,
        "\n",
        r#"drawn 1007 "test-instance":{"binary-id":"alpha::a","test-name":"t1"},"running":4,"#,
        r#""kind":"test-retry-started","slot-assignment":{"global-slot":1,"#,
        r#""test-group":"@global"},"retry-data":{"attempt":2,"total-attempts":3},"#,
        r#""command-line":[]"#,
        "\n",
        r#"refused 1008 "test-instance":{"binary-id":"beta::b","test-name":"t4"},"running":3,"#,
        "$failed$",
        "\n",
        r#"drawn 1009 "test-instance":{"binary-id":"alpha::a","test-name":"t2"},"running":2,"#,
        "$failed$",
        "\n",
        r#"drawn 1010 "test-instance":{"binary-id":"beta::b","test-name":"t3"},"running":3,"#,
        r#""kind":"test-started","slot-assignment":{"global-slot":0,"test-group":"@global"},"#,
        r#""current-stats":$stats$,"command-line":[]"#,
        "\n",
        r#"drawn 1011 "kind":"run-finished","run-id":"550e8400-e29b-41d4-a716-446655440000","#,
        r#""start-time":{"secs":1000,"nanos":0,"offset":0},"run-elapsed":{"secs":1,"nanos":0},"#,
        r#""run-stats":{"single":$stats$}"#,
        "\n"
    )
}

/// What comes of the events with outputs of one form, and whether the text is that of recorded
/// events without those that are refused.
fn compared<S: OutputForm>(
    alloc: Global,
    message_format: ChromeTraceMessageFormat,
) -> Result<String, Fail> {
    let all = log(alloc, with_refusals(), 20, "")?;
    let all = built::<S>(alloc, message_format, all.as_str())?;
    let drawn = log(alloc, with_refusals(), 20, "drawn")?;
    let drawn = built::<RecordingSpec>(alloc, message_format, drawn.as_str())?;
    let (all_refused, all) = all.as_str().split_once(':').unwrap_or(("", ""));
    let (drawn_refused, drawn) = drawn.as_str().split_once(':').unwrap_or(("", ""));
    let is_same = all == drawn;
    Ok(format!(in alloc; "{all_refused}, {drawn_refused}, {is_same}")?)
}

#[test]
fn a_refused_event_leaves_the_trace(rt: HostRuntime) -> Result<(), Fail> {
    let alloc = rt.alloc();
    let wanted = "10 refused, 0 refused, true";
    let json = compared::<RecordingSpec>(alloc, ChromeTraceMessageFormat::Json)?;
    assert!(rt; json.as_str() == wanted, "{json}");
    let pretty = compared::<RecordingSpec>(alloc, ChromeTraceMessageFormat::JsonPretty)?;
    assert!(rt; pretty.as_str() == wanted, "{pretty}");
    let live = compared::<LiveSpec>(alloc, ChromeTraceMessageFormat::Json)?;
    assert!(rt; live.as_str() == wanted, "{live}");
    Ok(())
}
