//! Logs and JSON texts, typed shortly: a name between two `$` stands for a longer text.

use std::alloc::{AllocError, Global};

/// The counts of a run of one test.
fn stats() -> &'static str {
    concat!(
        r#"{"exec-failed":0,"failed":0,"failed-slow":0,"failed-timed-out":0,"finished-count":0,"#,
        r#""flaky":0,"initial-run-count":1,"leaky":0,"leaky-failed":0,"passed":0,"#,
        r#""passed-slow":0,"passed-timed-out":0,"setup-scripts-exec-failed":0,"#,
        r#""setup-scripts-failed":0,"setup-scripts-finished-count":0,"#,
        r#""setup-scripts-initial-count":0,"setup-scripts-passed":0,"setup-scripts-timed-out":0,"#,
        r#""skipped":0}"#
    )
}

/// The test `a` of the binary `b`.
fn test() -> &'static str {
    r#""test-instance":{"binary-id":"b","test-name":"a"}"#
}

/// What the start of an attempt has at its end.
fn started() -> &'static str {
    r#""running":1,"command-line":[]"#
}

/// What the end of a test has beside the test, its attempts and counts.
fn shown() -> &'static str {
    concat!(
        r#""kind":"test-finished","success-output":"never","failure-output":"immediate","#,
        r#""junit-store-success-output":false,"junit-store-failure-output":true,"#,
        r#""junit-flaky-fail-status":"failure","running":0"#
    )
}

/// A first attempt that failed, and whose output is in a file.
fn first() -> &'static str {
    concat!(
        r#"{"delay-before-start":{"nanos":0,"secs":0},"is-slow":true,"#,
        r#""output":{"output":{"output":{"split":{"stdout":{"full":"dc51b8c96c2d745d-stdout"}}}}},"#,
        r#""result":{"fail":{"failure":{"exit-code":101},"leaked":false}},"#,
        r#""retry-data":{"attempt":1,"total-attempts":2},"#,
        r#""start-time":{"nanos":0,"offset":0,"secs":1},"time-taken":{"nanos":0,"secs":2}}"#
    )
}

/// A second attempt that passed.
fn second() -> &'static str {
    concat!(
        r#"{"delay-before-start":{"nanos":0,"secs":1},"is-slow":false,"#,
        r#""output":{"output":{"output":{"combined":"empty"}}},"result":"pass","#,
        r#""retry-data":{"attempt":2,"total-attempts":2},"#,
        r#""start-time":{"nanos":0,"offset":0,"secs":4},"time-taken":{"nanos":0,"secs":2}}"#
    )
}

/// A setup script that could not be started.
fn script() -> &'static str {
    concat!(
        r#"{"env-map":{"PORT":"1"},"is-slow":false,"output":{"start-error":"none"},"#,
        r#""result":"exec-fail","start-time":{"nanos":0,"offset":0,"secs":1},"#,
        r#""time-taken":{"nanos":0,"secs":4}}"#
    )
}

/// The counts of a view without tests, up to those that are unfinished.
fn none() -> &'static str {
    r#""failed":0,"flaky":0,"not-started":0,"passed":0,"skipped":0"#
}

/// What a view says of a run of which `7` is said, and whose log has no start and no end of it.
fn run() -> &'static str {
    r#""run":7,"run-finished":[],"run-started":[]"#
}

/// What a view says of a run without setup scripts.
fn scripts() -> &'static str {
    r#""scripts":[],"setup-script-started":[]"#
}

/// The text that a name stands for; any other text stands for itself.
fn named(piece: &str) -> &str {
    if piece == "stats" {
        stats()
    } else if piece == "test" {
        test()
    } else if piece == "started" {
        started()
    } else if piece == "shown" {
        shown()
    } else if piece == "first" {
        first()
    } else if piece == "second" {
        second()
    } else if piece == "script" {
        script()
    } else if piece == "none" {
        none()
    } else if piece == "run" {
        run()
    } else if piece == "scripts" {
        scripts()
    } else {
        piece
    }
}

/// Whether a piece is a number, which stands for the instant of that second.
fn is_second(piece: &str) -> bool {
    piece == "1" || piece == "2" || piece == "3" || piece == "4" || piece == "5" || piece == "6"
}

/// Adds a text with the longer texts in place of the names.
pub(crate) fn push_filled(text: &mut String, typed: &str) -> Result<(), AllocError> {
    for piece in typed.split('$') {
        if is_second(piece) {
            text.push_str("{\"nanos\":0,\"offset\":0,\"secs\":")?;
            text.push_str(piece)?;
            text.push_str("}")?;
        } else {
            text.push_str(named(piece))?;
        }
    }
    Ok(())
}

/// The log of these lines. In each the second, a blank and the members of an event are typed.
pub(crate) fn log(alloc: Global, lines: &[&str]) -> Result<String, AllocError> {
    let mut text = String::new(alloc);
    for line in lines {
        let (second, members) = line.split_once(' ').unwrap_or(("1", line));
        text.push_str("{\"elapsed\":{\"nanos\":0,\"secs\":1},\"timestamp\":")?;
        text.push_str("{\"nanos\":0,\"offset\":0,\"secs\":")?;
        text.push_str(second)?;
        text.push_str("},")?;
        push_filled(&mut text, members)?;
        text.push_str("}\n")?;
    }
    Ok(text)
}
