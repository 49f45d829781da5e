//! An instant without args, which no event of a run draws, as its text and as the value of it.

use rec_trace_events::{Category, NoArgs, Row, TraceEvent, slow_event};
use std::alloc::{AllocError, Global};
use std::test::Fail;

/// The text of the value of an event.
fn value_text(alloc: Global, event: &TraceEvent) -> Result<String, AllocError> {
    let value = event.value(alloc)?;
    let text = value.to_string(alloc);
    drop(value);
    text
}

fn expected() -> &'static str {
    r#"{"args":{},"cat":"test","name":"slow","ph":"i","pid":2,"s":"t","tid":10003,"ts":1002000000}"#
}

#[test]
fn an_instant_without_args(rt: HostRuntime) -> Result<(), Fail> {
    let alloc = rt.alloc();
    let row = Row { pid: 2, tid: 10003 };
    let event = slow_event(alloc, Category::Test, row, 1_002_000_000, &NoArgs)?;
    assert!(rt; event.as_str() == expected());
    let value = value_text(alloc, &event)?;
    assert!(rt; value.as_str() == expected(), "{value}");
    Ok(())
}
