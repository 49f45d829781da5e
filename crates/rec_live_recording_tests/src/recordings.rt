//! Recordings of sessions whose source or one of whose sinks fails, or that are refused.

use crate::texts::{continued, head, paused};
use rec_live_recording::{LineReader, RunFiles, record_live};
use rec_memory_streams::{FailingSink, FailingSource};
use rec_store::ConstantNamer;
use std::alloc::{AllocError, Global};
use std::str;
use std::test::Fail;

/// What a session's line is.
#[derive(Clone, Copy)]
enum Part {
    Head,
    Paused,
    Continued,
    /// This text.
    Text(&'static str),
}

/// A session, what fails, and what comes of it.
#[derive(Clone, Copy)]
struct Case<'c> {
    session: &'c [Part],
    /// The most bytes that a read gives, or 0 for any number.
    piece: usize,
    limit: u64,
    /// Which read and which writes fail, from 1, or none.
    source_fails: u64,
    manifest_fails: u64,
    store_fails: u64,
    log_fails: u64,
    out_fails: u64,
    /// How it ends.
    ended: &'c str,
    /// The acknowledgements.
    told: &'c str,
    /// The lines of the log.
    logged: &'c [Part],
}

/// The text of lines.
fn text_of(alloc: Global, parts: &[Part]) -> Result<String, AllocError> {
    let mut text = String::new(alloc);
    for part in parts {
        text.push_str(match part {
            Part::Head => head(),
            Part::Paused => paused(),
            Part::Continued => continued(),
            Part::Text(line) => line,
        })?;
    }
    Ok(text)
}

/// A sink with room, of which a write fails.
fn sink(alloc: Global, fail_at: u64) -> Result<FailingSink, AllocError> {
    let mut sink = FailingSink::new(alloc, 0, vec![in alloc; fail_at]?);
    sink.reserve(8192)?;
    Ok(sink)
}

/// What a recording ends with, tells and logs.
fn found(alloc: Global, case: &Case<'_>) -> Result<String, Fail> {
    let session = text_of(alloc, case.session)?;
    let fails = [case.source_fails];
    let source = FailingSource::new(session.as_bytes(), case.piece, &fails);
    let mut lines = LineReader::new(alloc, case.limit, source);
    let files = RunFiles {
        manifest: sink(alloc, case.manifest_fails)?,
        store: sink(alloc, case.store_fails)?,
        log: sink(alloc, case.log_fails)?,
    };
    let mut out = sink(alloc, case.out_fails)?;
    let namer = ConstantNamer { number: 0 };
    let end = record_live(alloc, &mut lines, files, &namer, 100, &mut out);
    let told = str::from_utf8(out.bytes()).unwrap_or("no text");
    let logged = str::from_utf8(end.files.log.bytes()).unwrap_or("no text");
    match &end.result {
        Ok(count) => Ok(format!(in alloc; "{count}\n{told}{logged}")?),
        Err(error) => Ok(format!(in alloc; "{error}\n{told}{logged}")?),
    }
}

/// What a case says.
fn wanted(alloc: Global, case: &Case<'_>) -> Result<String, AllocError> {
    let logged = text_of(alloc, case.logged)?;
    let Case { ended, told, .. } = case;
    format!(in alloc; "{ended}\n{told}{logged}")
}

const CASES: &[Case<'static>] = &[
    // Each event is acknowledged.
    Case {
        session: &[Part::Head, Part::Paused, Part::Continued],
        piece: 0,
        limit: 10000,
        source_fails: 0,
        manifest_fails: 0,
        store_fails: 0,
        log_fails: 0,
        out_fails: 0,
        ended: "2",
        told: "accepted=0\naccepted=1\naccepted=2\n",
        logged: &[Part::Paused, Part::Continued],
    },
    // A blank line is no event, and a source may give small pieces.
    Case {
        session: &[Part::Head, Part::Paused, Part::Text("\n"), Part::Continued],
        piece: 7,
        limit: 10000,
        source_fails: 0,
        manifest_fails: 0,
        store_fails: 0,
        log_fails: 0,
        out_fails: 0,
        ended: "2",
        told: "accepted=0\naccepted=1\naccepted=2\n",
        logged: &[Part::Paused, Part::Continued],
    },
    Case {
        session: &[],
        piece: 0,
        limit: 10000,
        source_fails: 0,
        manifest_fails: 0,
        store_fails: 0,
        log_fails: 0,
        out_fails: 0,
        ended: "line 1 is no head of a session",
        told: "",
        logged: &[],
    },
    // What was accepted before a line that is refused stays.
    Case {
        session: &[Part::Head, Part::Paused, Part::Text("x\n")],
        piece: 0,
        limit: 10000,
        source_fails: 0,
        manifest_fails: 0,
        store_fails: 0,
        log_fails: 0,
        out_fails: 0,
        ended: "line 3 is no event",
        told: "accepted=0\naccepted=1\n",
        logged: &[Part::Paused],
    },
    // The head has fewer than 400 bytes, and more than 400 with the line of the event.
    Case {
        session: &[Part::Head, Part::Paused],
        piece: 400,
        limit: 10000,
        source_fails: 2,
        manifest_fails: 0,
        store_fails: 0,
        log_fails: 0,
        out_fails: 0,
        ended: "reading the session failed",
        told: "accepted=0\n",
        logged: &[],
    },
    Case {
        session: &[Part::Head, Part::Paused],
        piece: 0,
        limit: 10,
        source_fails: 0,
        manifest_fails: 0,
        store_fails: 0,
        log_fails: 0,
        out_fails: 0,
        ended: "the session is longer than 10 bytes",
        told: "",
        logged: &[],
    },
    Case {
        session: &[Part::Head, Part::Paused],
        piece: 0,
        limit: 10000,
        source_fails: 0,
        manifest_fails: 1,
        store_fails: 0,
        log_fails: 0,
        out_fails: 0,
        ended: "writing the manifest failed",
        told: "",
        logged: &[],
    },
    Case {
        session: &[Part::Head, Part::Paused],
        piece: 0,
        limit: 10000,
        source_fails: 0,
        manifest_fails: 0,
        store_fails: 1,
        log_fails: 0,
        out_fails: 0,
        ended: "writing the store failed",
        told: "",
        logged: &[],
    },
    // An event whose line isn't there isn't acknowledged.
    Case {
        session: &[Part::Head, Part::Paused, Part::Continued],
        piece: 0,
        limit: 10000,
        source_fails: 0,
        manifest_fails: 0,
        store_fails: 0,
        log_fails: 2,
        out_fails: 0,
        ended: "writing the log failed",
        told: "accepted=0\naccepted=1\n",
        logged: &[Part::Paused],
    },
    // One event may stand that wasn't acknowledged.
    Case {
        session: &[Part::Head, Part::Paused, Part::Continued],
        piece: 0,
        limit: 10000,
        source_fails: 0,
        manifest_fails: 0,
        store_fails: 0,
        log_fails: 0,
        out_fails: 2,
        ended: "writing an acknowledgement failed",
        told: "accepted=0\n",
        logged: &[Part::Paused],
    },
];

#[test]
fn recordings_tell_what_stands(rt: HostRuntime) -> Result<(), Fail> {
    for case in CASES {
        let found = found(rt.alloc(), case)?;
        let wanted = wanted(rt.alloc(), case)?;
        assert!(rt; found == wanted, "{found}, and not {wanted}");
    }
    Ok(())
}
