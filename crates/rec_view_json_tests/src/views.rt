//! The views of runs, of which the logs are typed.

use crate::texts::{log, push_filled};
use rec_codec::LineIter;
use rec_events::{RecordingSpec, TestEventSummary};
use rec_view_json::view_text;
use std::alloc::{AllocError, Global};

/// The lines of a log, and the view of its run.
type Case = (&'static [&'static str], &'static str);

/// The events of a log; fewer where one isn't read.
fn events_of(alloc: Global, log: &str) -> Result<Vec<TestEventSummary<RecordingSpec>>, AllocError> {
    let mut events = Vec::new(alloc);
    for event in LineIter::<RecordingSpec>::new(alloc, log.as_bytes(), 1) {
        if let Ok(event) = event {
            events.push(event)?;
        }
    }
    Ok(events)
}

/// The view of these lines, of a run of which `7` is said.
fn viewed(alloc: Global, lines: &[&str]) -> Result<String, AllocError> {
    let log = log(alloc, lines)?;
    let events = events_of(alloc, log.as_str())?;
    let run: u64 = 7;
    let text = view_text(alloc, &run, events.as_slice());
    drop(events);
    text
}

fn is_viewed(alloc: Global, case: &Case) -> Result<bool, AllocError> {
    let text = viewed(alloc, case.0)?;
    let mut want = String::new(alloc);
    push_filled(&mut want, case.1)?;
    Ok(text.as_str() == want.as_str())
}

fn are_viewed(alloc: Global, cases: &[Case]) -> Result<bool, AllocError> {
    for case in cases {
        if !is_viewed(alloc, case)? {
            return Ok(false);
        }
    }
    Ok(true)
}

/// Runs with attempts.
const ATTEMPTS: &[Case] = &[
    // flaky: a slow first attempt fails, and a second one on another slot passes
    (
        &[
            concat!(
                r#"1 "kind":"test-started",$test$,"slot-assignment":{"global-slot":3,"#,
                r#""test-group":"@global"},"current-stats":$stats$,$started$"#
            ),
            concat!(
                r#"2 "kind":"test-slow",$test$,"retry-data":{"attempt":1,"total-attempts":2},"#,
                r#""slow-elapsed":{"nanos":0,"secs":9},"will-terminate":false"#
            ),
            concat!(
                r#"3 "kind":"test-attempt-failed-will-retry",$test$,"run-status":$first$,"#,
                r#""delay-before-next-attempt":{"nanos":0,"secs":1},"failure-output":"never","#,
                r#""running":1"#
            ),
            concat!(
                r#"4 "kind":"test-retry-started",$test$,"slot-assignment":{"global-slot":0,"#,
                r#""test-group":"@global"},"retry-data":{"attempt":2,"total-attempts":2},$started$"#
            ),
            concat!(
                r#"6 $shown$,$test$,"current-stats":$stats$,"#,
                r#""run-statuses":{"flaky-result":"pass","statuses":[$first$,$second$]}"#
            ),
        ],
        concat!(
            r#"{"begin":$1$,"cancelled":[],"#,
            r#""counts":{"failed":0,"flaky":1,"not-started":0,"passed":0,"skipped":0,"#,
            r#""unfinished":0,"unnamed":0},"end":$6$,"pauses":[],$run$,$scripts$,"#,
            r#""slow":[{"elapsed":{"nanos":0,"secs":1},"kind":"test-slow","#,
            r#""retry-data":{"attempt":1,"total-attempts":2},"#,
            r#""slow-elapsed":{"nanos":0,"secs":9},$test$,"timestamp":$2$,"#,
            r#""will-terminate":false}],"#,
            r#""tests":[{"attempts":[{"active":2000000,"ended":$3$,"slices":[[$1$,$3$]],"slot":3,"#,
            r#""started":$1$,"#,
            r#""status":$first$},"#,
            r#"{"active":2000000,"ended":$6$,"retry-data":{"attempt":2,"total-attempts":2},"#,
            r#""slices":[[$4$,$6$]],"slot":0,"started":$4$,"status":$second$}],"#,
            r#""binary-id":"b","test-name":"a","verdict":"flaky"}]}"#
        ),
    ),
    // failed in a sub-run, without a start
    (
        &[concat!(
            r#"1 $shown$,$test$,"current-stats":$stats$,"stress-index":{"current":0},"#,
            r#""run-statuses":{"flaky-result":"pass","statuses":[$second$,$first$]}"#
        )],
        concat!(
            r#"{"begin":$1$,"cancelled":[],"#,
            r#""counts":{"failed":1,"flaky":0,"not-started":0,"passed":0,"skipped":0,"#,
            r#""unfinished":0,"unnamed":0},"end":$1$,"pauses":[],$run$,$scripts$,"slow":[],"#,
            r#""tests":[{"attempts":[],"binary-id":"b","stress-index":{"current":0},"#,
            r#""test-name":"a","verdict":"failed"}]}"#
        ),
    ),
];

/// Runs with pauses.
const PAUSES: &[Case] = &[
    // a pause within an attempt that has no end, and one that has none itself
    (
        &[
            concat!(
                r#"1 "kind":"test-started",$test$,"slot-assignment":{"global-slot":0,"#,
                r#""test-group":"@global"},"current-stats":$stats$,$started$"#
            ),
            r#"2 "kind":"run-paused","setup-scripts-running":0,"running":1"#,
            r#"4 "kind":"run-continued","setup-scripts-running":0,"running":1"#,
            r#"6 "kind":"run-paused","setup-scripts-running":0,"running":1"#,
        ],
        concat!(
            r#"{"begin":$1$,"cancelled":[],"counts":{$none$,"unfinished":1,"unnamed":0},"#,
            r#""end":$6$,"pauses":[[$2$,$4$],[$6$,$6$]],$run$,$scripts$,"slow":[],"#,
            r#""tests":[{"attempts":[{"active":3000000,"slices":[[$1$,$2$],[$4$,$6$]],"slot":0,"#,
            r#""started":$1$}],"#,
            r#""binary-id":"b","test-name":"a","verdict":"unfinished"}]}"#
        ),
    ),
    // a continuation that continues nothing cuts nothing
    (
        &[
            concat!(
                r#"1 "kind":"test-started",$test$,"slot-assignment":{"global-slot":0,"#,
                r#""test-group":"@global"},"current-stats":$stats$,$started$"#
            ),
            r#"2 "kind":"run-continued","setup-scripts-running":0,"running":1"#,
            concat!(
                r#"3 $shown$,$test$,"current-stats":$stats$,"#,
                r#""run-statuses":{"flaky-result":"pass","statuses":[$second$]}"#
            ),
        ],
        concat!(
            r#"{"begin":$1$,"cancelled":[],"#,
            r#""counts":{"failed":0,"flaky":0,"not-started":0,"passed":1,"skipped":0,"#,
            r#""unfinished":0,"unnamed":0},"end":$3$,"pauses":[],$run$,$scripts$,"slow":[],"#,
            r#""tests":[{"attempts":[{"active":2000000,"ended":$3$,"slices":[[$1$,$3$]],"slot":0,"#,
            r#""started":$1$,"#,
            r#""status":$second$}],"binary-id":"b","test-name":"a","verdict":"passed"}]}"#
        ),
    ),
    // an attempt that starts and ends in a pause
    (
        &[
            r#"1 "kind":"run-paused","setup-scripts-running":0,"running":0"#,
            concat!(
                r#"2 "kind":"test-started",$test$,"slot-assignment":{"global-slot":0,"#,
                r#""test-group":"@global"},"current-stats":$stats$,$started$"#
            ),
            concat!(
                r#"3 $shown$,$test$,"current-stats":$stats$,"#,
                r#""run-statuses":{"flaky-result":"pass","statuses":[$first$]}"#
            ),
            r#"4 "kind":"run-continued","setup-scripts-running":0,"running":0"#,
        ],
        concat!(
            r#"{"begin":$1$,"cancelled":[],"#,
            r#""counts":{"failed":1,"flaky":0,"not-started":0,"passed":0,"skipped":0,"#,
            r#""unfinished":0,"unnamed":0},"end":$4$,"pauses":[[$1$,$4$]],$run$,$scripts$,"slow":[],"#,
            r#""tests":[{"attempts":[{"active":0,"ended":$3$,"slices":[[$2$,$2$],[$3$,$3$]],"slot":0,"#,
            r#""started":$2$,"status":$first$}],"#,
            r#""binary-id":"b","test-name":"a","verdict":"failed"}]}"#
        ),
    ),
    // an instant that is no i64 in microseconds
    (
        &[
            concat!(
                r#"1 "kind":"test-started",$test$,"slot-assignment":{"global-slot":0,"#,
                r#""test-group":"@global"},"current-stats":$stats$,$started$"#
            ),
            r#"9223372036855 "kind":"run-continued","setup-scripts-running":0,"running":1"#,
            r#"6 "kind":"run-continued","setup-scripts-running":0,"running":1"#,
        ],
        concat!(
            r#"{"begin":$1$,"cancelled":[],"counts":{$none$,"unfinished":1,"unnamed":0},"#,
            r#""end":$6$,"pauses":[],$run$,$scripts$,"slow":[],"#,
            r#""tests":[{"attempts":[{"slices":[[$1$,$6$]],"slot":0,"started":$1$}],"#,
            r#""binary-id":"b","test-name":"a","verdict":"unfinished"}]}"#
        ),
    ),
];

/// Runs without attempts.
const OTHERS: &[Case] = &[
    // no events
    (
        &[],
        concat!(
            r#"{"cancelled":[],"counts":{$none$,"unfinished":0,"unnamed":0},"pauses":[],$run$,$scripts$,"#,
            r#""slow":[],"tests":[]}"#
        ),
    ),
    // cancelled, a script is slow, a test is skipped, and of three that aren't seen one is named
    (
        &[
            concat!(
                r#"1 "kind":"run-begin-cancel","setup-scripts-running":0,"running":0,"#,
                r#""reason":"interrupt""#
            ),
            concat!(
                r#"2 "kind":"setup-script-slow","script-id":"s","program":"sh","args":[],"#,
                r#""slow-elapsed":{"nanos":0,"secs":9},"will-terminate":true"#
            ),
            concat!(
                r#"3 "kind":"test-skipped",$test$,"stress-index":{"current":1,"total":2},"#,
                r#""reason":"ignored","junit-report-skipped":"none""#
            ),
            concat!(
                r#"4 "kind":"run-finished","run-id":"550e8400-e29b-41d4-a716-446655440000","#,
                r#""start-time":$1$,"run-elapsed":{"nanos":0,"secs":3},"#,
                r#""run-stats":{"single":$stats$},"outstanding-not-seen":{"#,
                r#""not-seen":[{"binary-id":"b","test-name":"c"}],"total-not-seen":3}"#
            ),
        ],
        concat!(
            r#"{"begin":$1$,"cancelled":[{"elapsed":{"nanos":0,"secs":1},"#,
            r#""kind":"run-begin-cancel","reason":"interrupt","running":0,"#,
            r#""setup-scripts-running":0,"timestamp":$1$}],"#,
            r#""counts":{"failed":0,"flaky":0,"not-started":1,"passed":0,"skipped":1,"#,
            r#""unfinished":0,"unnamed":2},"end":$4$,"pauses":[],"run":7,"#,
            r#""run-finished":[{"elapsed":{"nanos":0,"secs":1},"kind":"run-finished","#,
            r#""outstanding-not-seen":{"not-seen":[{"binary-id":"b","test-name":"c"}],"#,
            r#""total-not-seen":3},"run-elapsed":{"nanos":0,"secs":3},"#,
            r#""run-id":"550e8400-e29b-41d4-a716-446655440000","run-stats":{"single":$stats$},"#,
            r#""start-time":$1$,"timestamp":$4$}],"run-started":[],$scripts$,"#,
            r#""slow":[{"args":[],"elapsed":{"nanos":0,"secs":1},"kind":"setup-script-slow","#,
            r#""program":"sh","script-id":"s","slow-elapsed":{"nanos":0,"secs":9},"#,
            r#""timestamp":$2$,"will-terminate":true}],"#,
            r#""tests":[{"attempts":[],"binary-id":"b","reason":"ignored","#,
            r#""stress-index":{"current":1,"total":2},"test-name":"a","verdict":"skipped"},"#,
            r#"{"attempts":[],"binary-id":"b","test-name":"c","verdict":"not-started"}]}"#
        ),
    ),
    // started twice, and not finished
    (
        &[
            concat!(
                r#"1 "kind":"run-started","run-id":"550e8400-e29b-41d4-a716-446655440000","#,
                r#""profile-name":"default","cli-args":["cargo","nextest","run"]"#
            ),
            concat!(
                r#"2 "kind":"run-started","run-id":"550e8400-e29b-41d4-a716-446655440000","#,
                r#""profile-name":"ci","cli-args":[]"#
            ),
        ],
        concat!(
            r#"{"begin":$1$,"cancelled":[],"counts":{$none$,"unfinished":0,"unnamed":0},"#,
            r#""end":$2$,"pauses":[],"run":7,"run-finished":[],"#,
            r#""run-started":[{"cli-args":["cargo","nextest","run"],"#,
            r#""elapsed":{"nanos":0,"secs":1},"kind":"run-started","profile-name":"default","#,
            r#""run-id":"550e8400-e29b-41d4-a716-446655440000","timestamp":$1$},"#,
            r#"{"cli-args":[],"elapsed":{"nanos":0,"secs":1},"kind":"run-started","#,
            r#""profile-name":"ci","run-id":"550e8400-e29b-41d4-a716-446655440000","#,
            r#""timestamp":$2$}],$scripts$,"slow":[],"tests":[]}"#
        ),
    ),
];

/// Runs with setup scripts.
const SCRIPTS: &[Case] = &[
    // a pause within one that could not be started, and another one that has no end
    (
        &[
            concat!(
                r#"1 "kind":"setup-script-started","index":0,"total":2,"script-id":"s","#,
                r#""program":"sh","args":[],"no-capture":false,"stress-index":{"current":0}"#
            ),
            r#"2 "kind":"run-paused","setup-scripts-running":1,"running":0"#,
            r#"4 "kind":"run-continued","setup-scripts-running":1,"running":0"#,
            concat!(
                r#"5 "kind":"setup-script-finished","index":0,"total":2,"script-id":"s","#,
                r#""program":"sh","args":[],"no-capture":false,"run-status":$script$"#
            ),
            concat!(
                r#"6 "kind":"setup-script-started","index":1,"total":2,"script-id":"t","#,
                r#""program":"sh","args":["-c","start"],"no-capture":false"#
            ),
        ],
        concat!(
            r#"{"begin":$1$,"cancelled":[],"counts":{$none$,"unfinished":0,"unnamed":0},"#,
            r#""end":$6$,"pauses":[[$2$,$4$]],$run$,"#,
            r#""scripts":[{"active":2000000,"ended":$5$,"index":0,"script-id":"s","#,
            r#""slices":[[$1$,$2$],[$4$,$5$]],"started":$1$,"status":$script$,"#,
            r#""stress-index":{"current":0}},"#,
            r#"{"active":0,"index":1,"script-id":"t","slices":[[$6$,$6$]],"started":$6$}],"#,
            r#""setup-script-started":[{"args":[],"elapsed":{"nanos":0,"secs":1},"index":0,"#,
            r#""kind":"setup-script-started","no-capture":false,"program":"sh","#,
            r#""script-id":"s","stress-index":{"current":0},"timestamp":$1$,"total":2},"#,
            r#"{"args":["-c","start"],"elapsed":{"nanos":0,"secs":1},"index":1,"#,
            r#""kind":"setup-script-started","no-capture":false,"program":"sh","#,
            r#""script-id":"t","timestamp":$6$,"total":2}],"#,
            r#""slow":[],"tests":[]}"#
        ),
    ),
];

#[test]
fn scripts_have_their_instants_and_statuses(rt: HostRuntime) -> Result<(), AllocError> {
    assert!(rt; are_viewed(rt.alloc(), SCRIPTS)?);
    Ok(())
}

#[test]
fn attempts_have_their_instants_and_statuses(rt: HostRuntime) -> Result<(), AllocError> {
    assert!(rt; are_viewed(rt.alloc(), ATTEMPTS)?);
    Ok(())
}

#[test]
fn pauses_cut_slices(rt: HostRuntime) -> Result<(), AllocError> {
    assert!(rt; are_viewed(rt.alloc(), PAUSES)?);
    Ok(())
}

#[test]
fn tests_without_attempts_are_told(rt: HostRuntime) -> Result<(), AllocError> {
    assert!(rt; are_viewed(rt.alloc(), OTHERS)?);
    Ok(())
}
