//! Recorders whose sinks fail, whose outputs clash, which are given metadata twice,
//! or outputs that are not loaded.

use crate::texts::{
    ABC, ABC_AND_HELLO, ABC_AND_HELLO_UNDER_SEVEN, ABC_UNDER_ZERO, COMBINED, COMBINED_UNDER_ZERO,
    HELLO, NOT_STARTED, STORED, lines, list_text, rerun_text, scope_text,
};
use crate::unloaded::{Kind, event_of, unloaded};
use rec_container::Container;
use rec_events::{NextestRunMode, RecordOpts, TestListSummary};
use rec_format::{RecordedBuildScope, RerunInfo};
use rec_forms::read_text;
use rec_memory_streams::FailingSink;
use rec_store::{ConstantNamer, RecorderEnd, RunRecorder, RunStoreError};
use std::alloc::{AllocError, Global};
use std::str;
use std::test::Fail;

/// A call of a recorder.
#[derive(Clone, Copy)]
enum Call<'t> {
    Scope,
    Rerun,
    /// With this metadata of cargo.
    Meta(&'t str),
    /// With the end of a setup script with this output.
    Event(&'t str),
    Unloaded(Kind),
}

/// A recorder, its calls, and what these answer and leave.
#[derive(Clone, Copy)]
struct Case<'c> {
    /// The number of each output.
    number: u64,
    /// Which write of the store fails, from 1, or none.
    store_fails: u64,
    /// Which write of the log fails.
    log_fails: u64,
    calls: &'c [Call<'c>],
    /// A line a call, and whether the recorder failed.
    answers: &'c str,
    /// The bytes, the bytes of the contents, and the entries of the log and of the store,
    /// and both totals.
    sizes: &'c str,
    /// An entry a line.
    store: &'c str,
    /// The outputs that stand in the lines of the log.
    logged: &'c [&'c str],
}

type Recorder<'n> = RunRecorder<'n, FailingSink, FailingSink, ConstantNamer>;

/// What the calls of a case answer and leave.
fn found(alloc: Global, case: &Case<'_>) -> Result<String, Fail> {
    let store = sink(alloc, case.store_fails)?;
    let log = sink(alloc, case.log_fails)?;
    let namer = ConstantNamer {
        number: case.number,
    };
    let mut recorder = RunRecorder::new(alloc, store, log, &namer, 100);
    let answers = answers(alloc, &mut recorder, case.calls);
    let end = recorder.finish();
    let left = left_text(alloc, &end);
    drop(end);
    let mut text = answers?;
    text.push_str(left?.as_str())?;
    Ok(text)
}

/// A sink with room, of which a write fails.
fn sink(alloc: Global, fail_at: u64) -> Result<FailingSink, AllocError> {
    let mut sink = FailingSink::new(alloc, 0, vec![in alloc; fail_at]?);
    sink.reserve(4096)?;
    Ok(sink)
}

fn answers(alloc: Global, recorder: &mut Recorder<'_>, calls: &[Call<'_>]) -> Result<String, Fail> {
    let mut text = String::new(alloc);
    for call in calls {
        let answer = answer(alloc, recorder, *call)?;
        add_answer(&mut text, answer)?;
    }
    text.push_str(if recorder.is_failed() {
        "failed\n"
    } else {
        "sound\n"
    })?;
    Ok(text)
}

fn add_answer(text: &mut String, answer: Result<(), RunStoreError>) -> Result<(), AllocError> {
    let Err(error) = answer else {
        return text.push_str("accepted\n");
    };
    let written = write!(text, "{error}\n");
    drop(error);
    written
}

fn answer(
    alloc: Global,
    recorder: &mut Recorder<'_>,
    call: Call<'_>,
) -> Result<Result<(), RunStoreError>, Fail> {
    match call {
        Call::Scope => write_scope(alloc, recorder),
        Call::Rerun => write_rerun(alloc, recorder),
        Call::Meta(metadata) => write_meta(alloc, recorder, metadata),
        Call::Event(output) => write_script(alloc, recorder, output),
        Call::Unloaded(kind) => Ok(recorder.write_event(unloaded(alloc, kind)?)),
    }
}

fn write_scope(
    alloc: Global,
    recorder: &mut Recorder<'_>,
) -> Result<Result<(), RunStoreError>, Fail> {
    let scope: RecordedBuildScope = read_text(alloc, scope_text().as_bytes())?;
    let answer = recorder.write_build_scope(&scope);
    drop(scope);
    Ok(answer)
}

fn write_rerun(
    alloc: Global,
    recorder: &mut Recorder<'_>,
) -> Result<Result<(), RunStoreError>, Fail> {
    let rerun: RerunInfo = read_text(alloc, rerun_text().as_bytes())?;
    let answer = recorder.write_rerun_info(&rerun);
    drop(rerun);
    Ok(answer)
}

fn write_meta(
    alloc: Global,
    recorder: &mut Recorder<'_>,
    metadata: &str,
) -> Result<Result<(), RunStoreError>, Fail> {
    let list: TestListSummary = read_text(alloc, list_text().as_bytes())?;
    let opts = RecordOpts {
        run_mode: NextestRunMode::Benchmark,
    };
    let answer = recorder.write_meta(metadata, &list, &opts);
    drop(list);
    Ok(answer)
}

fn write_script(
    alloc: Global,
    recorder: &mut Recorder<'_>,
    output: &str,
) -> Result<Result<(), RunStoreError>, Fail> {
    let line = lines(alloc, &[output])?;
    Ok(recorder.write_event(event_of(alloc, line.as_str())?))
}

/// What a recording left: its sizes, its store and its log.
fn left_text(
    alloc: Global,
    end: &RecorderEnd<FailingSink, FailingSink>,
) -> Result<String, AllocError> {
    let mut text = sizes_text(alloc, end)?;
    text.push_str("\n")?;
    add_store(&mut text, alloc, end.store.bytes())?;
    text.push_str(str::from_utf8(end.log.bytes()).unwrap_or("no text"))?;
    Ok(text)
}

fn sizes_text(
    alloc: Global,
    end: &RecorderEnd<FailingSink, FailingSink>,
) -> Result<String, AllocError> {
    match &end.result {
        Ok(sizes) => {
            let compressed = sizes.total_compressed().unwrap_or(0);
            let uncompressed = sizes.total_uncompressed().unwrap_or(0);
            let log = &sizes.log;
            let store = &sizes.store;
            format!(in alloc;
                "{} {} {}, {} {} {}, {compressed} {uncompressed}",
                log.compressed,
                log.uncompressed,
                log.entries,
                store.compressed,
                store.uncompressed,
                store.entries
            )
        }
        Err(error) => format!(in alloc; "{error}"),
    }
}

/// Adds the entries of a store, a line each.
fn add_store(text: &mut String, alloc: Global, store: &[u8]) -> Result<(), AllocError> {
    let Ok(container) = Container::parse(alloc, store) else {
        let length = store.len();
        return write!(text, "{length} bytes without an end\n");
    };
    for i in 0..container.len() {
        text.push_str(container.name(i))?;
        text.push_str(" ")?;
        text.push_str(str::from_utf8(container.bytes(i)).unwrap_or("no text"))?;
        text.push_str("\n")?;
    }
    Ok(())
}

/// What a case says that its calls answer and leave.
fn wanted(alloc: Global, case: &Case<'_>) -> Result<String, AllocError> {
    let log = lines(alloc, case.logged)?;
    let Case {
        answers,
        sizes,
        store,
        ..
    } = case;
    format!(in alloc; "{answers}\n{sizes}\n{store}{log}")
}

const CASES: &[Case<'static>] = &[
    // Standard output comes first.
    Case {
        number: 7,
        store_fails: 0,
        log_fails: 0,
        calls: &[Call::Event(ABC_AND_HELLO)],
        answers: "accepted\nsound",
        sizes: "489 489 1, 93 8 2, 582 497",
        store: "out/0000000000000007-stdout abc\nout/0000000000000007-stderr hello\n",
        logged: &[ABC_AND_HELLO_UNDER_SEVEN],
    },
    // Other bytes under a name are refused, and the event leaves no line.
    Case {
        number: 0,
        store_fails: 0,
        log_fails: 0,
        calls: &[
            Call::Event(ABC),
            Call::Event(HELLO),
            Call::Event(COMBINED),
            Call::Event(NOT_STARTED),
        ],
        answers: "accepted\nother bytes are stored under out/0000000000000000-stdout\naccepted\n\
            accepted\nsound",
        sizes: "1282 1282 3, 92 5 2, 1374 1287",
        store: "out/0000000000000000-stdout abc\nout/0000000000000000-combined no text\n",
        logged: &[ABC_UNDER_ZERO, COMBINED_UNDER_ZERO, NOT_STARTED],
    },
    // An output that is not loaded leaves all as it was.
    Case {
        number: 0,
        store_fails: 0,
        log_fails: 0,
        calls: &[
            Call::Event(ABC),
            Call::Unloaded(Kind::Script),
            Call::Unloaded(Kind::Attempt),
            Call::Unloaded(Kind::Test),
        ],
        answers: "accepted\nan output is not loaded\nan output is not loaded\n\
            an output is not loaded\nsound",
        sizes: "445 445 1, 50 3 1, 495 448",
        store: "out/0000000000000000-stdout abc\n",
        logged: &[ABC_UNDER_ZERO],
    },
    // Equal metadata changes nothing, and other metadata is refused.
    Case {
        number: 0,
        store_fails: 0,
        log_fails: 0,
        calls: &[
            Call::Scope,
            Call::Rerun,
            Call::Meta("{}"),
            Call::Meta("{}"),
            Call::Meta("[]"),
        ],
        answers: "accepted\naccepted\naccepted\naccepted\n\
            other bytes are stored under meta/cargo-metadata.json\nsound",
        sizes: "0 0 0, 1066 897 5, 1066 897",
        store: STORED,
        logged: &[],
    },
    // Nothing is written after a fault of the store. The content of the second entry is its fourth
    // write.
    Case {
        number: 0,
        store_fails: 4,
        log_fails: 0,
        calls: &[Call::Scope, Call::Meta("{}"), Call::Scope],
        answers: "accepted\nwriting the store failed\nan earlier write failed\nfailed",
        sizes: "an earlier write failed",
        store: "413 bytes without an end\n",
        logged: &[],
    },
    // Nothing is written after a fault of the log, and the store has no end mark either.
    Case {
        number: 0,
        store_fails: 0,
        log_fails: 1,
        calls: &[
            Call::Event(NOT_STARTED),
            Call::Event(NOT_STARTED),
            Call::Scope,
            Call::Rerun,
            Call::Meta("{}"),
        ],
        answers: "writing the log failed\nan earlier write failed\nan earlier write failed\n\
            an earlier write failed\nan earlier write failed\nfailed",
        sizes: "an earlier write failed",
        store: "0 bytes without an end\n",
        logged: &[],
    },
];

#[test]
fn calls_answer_and_leave_what_they_should(rt: HostRuntime) -> Result<(), Fail> {
    for case in CASES {
        let found = found(rt.alloc(), case)?;
        let wanted = wanted(rt.alloc(), case)?;
        assert!(rt; found == wanted, "{found}, and not {wanted}");
    }
    Ok(())
}
