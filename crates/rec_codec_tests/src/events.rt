//! Events as they are read of values and written as values, in both forms of their outputs.

use crate::captured_events::CAPTURED;
use crate::stored_events::STORED;
use rec_codec::{OutputForm, ToValueError, event_from_value, event_to_value};
use rec_events::{ChildOutputDescription, LiveSpec, RecordingSpec, TestEventSummary};
use serde_json::Value;
use std::alloc::Global;
use std::process::Abort;

// Whether a value was made, and has this text.
fn has_text(alloc: Global, value: Result<Value, ToValueError>, want: &str) -> bool {
    let Ok(value) = value else {
        return false;
    };
    let text = value.to_string(alloc);
    drop(value);
    matches!(&text, Ok(text) if text.as_str() == want)
}

// Whether an event is written so. It ends here: one of that many kinds is a case at each exit of a
// proof.
fn is_written<S: OutputForm>(alloc: Global, event: TestEventSummary<S>, want: &str) -> bool {
    let value = event_to_value(alloc, &event);
    drop(event);
    has_text(alloc, value, want)
}

// Whether the event of a text is written so.
fn is_rewritten<S: OutputForm>(alloc: Global, text: &str, want: &str) -> bool {
    let Ok(value) = Value::from_str(alloc, text) else {
        return false;
    };
    let event = event_from_value::<S>(alloc, &value);
    drop(value);
    match event {
        Ok(event) => is_written(alloc, event, want),
        Err(_) => false,
    }
}

// Each text is written as the one beside it, and so is that one itself.
fn check<S: OutputForm>(rt: &impl Abort, alloc: Global, rows: &[(&str, &str)]) {
    for (text, want) in rows {
        assert!(rt; is_rewritten::<S>(alloc, text, want), "{text}");
        assert!(rt; is_rewritten::<S>(alloc, want, want), "{want}");
    }
}

// A run starts at the earliest instant, and tests on the last slot. The lines hold no outputs, so
// both forms write them alike.
const EXTREMES: &[(&str, &str)] = &[
    (
        concat!(
            r#"{"cli-args":["-j","é"],"elapsed":{"nanos":999999999,"secs":18446744073709551615},"#,
            r#""kind":"run-started","profile-name":"","#,
            r#""run-id":"00000000-0000-0000-0000-000000000000","#,
            r#""stress-condition":{"count":null},"#,
            r#""timestamp":{"nanos":999999999,"offset":-2147483648,"secs":-9223372036854775808}}"#
        ),
        concat!(
            r#"{"cli-args":["-j","é"],"elapsed":{"nanos":999999999,"secs":18446744073709551615},"#,
            r#""kind":"run-started","profile-name":"","#,
            r#""run-id":"00000000-0000-0000-0000-000000000000","#,
            r#""stress-condition":{"count":null},"#,
            r#""timestamp":{"nanos":999999999,"offset":-2147483648,"secs":-9223372036854775808}}"#
        ),
    ),
    (
        concat!(
            r#"{"timestamp":{"secs":1001,"nanos":0,"offset":0},"elapsed":{"secs":1,"nanos":0},"#,
            r#""kind":"test-started","stress-index":null,"#,
            r#""test-instance":{"binary-id":"alpha::a","test-name":"t1"},"#,
            r#""slot-assignment":{"global-slot":18446744073709551615,"test-group":"@global"},"#,
            r#""current-stats":{"initial-run-count":1,"finished-count":2,"#,
            r#""setup-scripts-initial-count":3,"setup-scripts-finished-count":4,"#,
            r#""setup-scripts-passed":5,"setup-scripts-failed":6,"setup-scripts-exec-failed":7,"#,
            r#""setup-scripts-timed-out":8,"passed":9,"passed-slow":10,"passed-timed-out":11,"#,
            r#""flaky":12,"failed":13,"failed-slow":14,"failed-timed-out":15,"leaky":16,"#,
            r#""leaky-failed":17,"exec-failed":18,"skipped":19,"cancel-reason":null},"#,
            r#""running":20,"command-line":[]}"#
        ),
        concat!(
            r#"{"command-line":[],"current-stats":{"exec-failed":18,"failed":13,"#,
            r#""failed-slow":14,"failed-timed-out":15,"finished-count":2,"flaky":12,"#,
            r#""initial-run-count":1,"leaky":16,"leaky-failed":17,"passed":9,"passed-slow":10,"#,
            r#""passed-timed-out":11,"setup-scripts-exec-failed":7,"setup-scripts-failed":6,"#,
            r#""setup-scripts-finished-count":4,"setup-scripts-initial-count":3,"#,
            r#""setup-scripts-passed":5,"setup-scripts-timed-out":8,"skipped":19},"#,
            r#""elapsed":{"nanos":0,"secs":1},"kind":"test-started","running":20,"#,
            r#""slot-assignment":{"global-slot":18446744073709551615,"test-group":"@global"},"#,
            r#""test-instance":{"binary-id":"alpha::a","test-name":"t1"},"#,
            r#""timestamp":{"nanos":0,"offset":0,"secs":1001}}"#
        ),
    ),
    (
        concat!(
            r#"{"command-line":[],"current-stats":{"exec-failed":18,"failed":13,"#,
            r#""failed-slow":14,"failed-timed-out":15,"finished-count":2,"flaky":12,"#,
            r#""initial-run-count":1,"leaky":16,"leaky-failed":17,"passed":9,"passed-slow":10,"#,
            r#""passed-timed-out":11,"setup-scripts-exec-failed":7,"setup-scripts-failed":6,"#,
            r#""setup-scripts-finished-count":4,"setup-scripts-initial-count":3,"#,
            r#""setup-scripts-passed":5,"setup-scripts-timed-out":8,"skipped":19},"#,
            r#""elapsed":{"nanos":0,"secs":1},"kind":"test-started","running":20,"#,
            r#""slot-assignment":{"global-slot":18446744073709551615,"group-slot":0,"#,
            r#""test-group":"serial"},"test-instance":{"binary-id":"alpha::a","test-name":"t1"},"#,
            r#""timestamp":{"nanos":0,"offset":0,"secs":1001}}"#
        ),
        concat!(
            r#"{"command-line":[],"current-stats":{"exec-failed":18,"failed":13,"#,
            r#""failed-slow":14,"failed-timed-out":15,"finished-count":2,"flaky":12,"#,
            r#""initial-run-count":1,"leaky":16,"leaky-failed":17,"passed":9,"passed-slow":10,"#,
            r#""passed-timed-out":11,"setup-scripts-exec-failed":7,"setup-scripts-failed":6,"#,
            r#""setup-scripts-finished-count":4,"setup-scripts-initial-count":3,"#,
            r#""setup-scripts-passed":5,"setup-scripts-timed-out":8,"skipped":19},"#,
            r#""elapsed":{"nanos":0,"secs":1},"kind":"test-started","running":20,"#,
            r#""slot-assignment":{"global-slot":18446744073709551615,"group-slot":0,"#,
            r#""test-group":"serial"},"test-instance":{"binary-id":"alpha::a","test-name":"t1"},"#,
            r#""timestamp":{"nanos":0,"offset":0,"secs":1001}}"#
        ),
    ),
];

#[test]
fn events_in_both_forms(rt: HostRuntime) {
    let alloc = rt.alloc();
    check::<LiveSpec>(&rt, alloc, EXTREMES);
    check::<LiveSpec>(&rt, alloc, CAPTURED);
    check::<RecordingSpec>(&rt, alloc, EXTREMES);
    check::<RecordingSpec>(&rt, alloc, STORED);
}

fn is_not_loaded(written: Result<Value, ToValueError>) -> bool {
    matches!(&written, Err(ToValueError::NotLoaded))
}

#[test]
fn an_output_that_is_not_loaded_is_not_written(rt: HostRuntime) {
    let written = LiveSpec::output_to_value(rt.alloc(), &ChildOutputDescription::NotLoaded);
    assert!(rt; is_not_loaded(written));
}
