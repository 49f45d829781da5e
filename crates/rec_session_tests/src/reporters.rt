//! Reporters that record a run, alone and beside one that shows it.
ghost use Rattle.std.specs.Prelude.{◌≡◌, None, Ok, Some, [], codes};
ghost use Rattle.rec_replay.specs.declared.output_load.OutputLoadDecider.TheVariants.{Never};
ghost use Rattle.rec_replay.specs.Reporting.{Shows};

use crate::made::sinks;
use rec_container::{Container, Sink, write_all};
use rec_events::{
    Duration, NextestRunMode, RecordOpts, Stamp, TestEvent, TestEventKind, TestListSummary, TextMap,
};
use rec_memory_streams::FailingSink;
use rec_replay::{
    DisplaySettings, EventReporter, OutputLoadDecider, ReplayHeader, WriteEventError,
};
use rec_session::{
    RecordReporter, RecordReporterError, ReporterEnd, StructuredEnd, StructuredReporter,
};
use rec_store::{RunRecorder, RunStoreError, Sha256Namer, StoreSizes};
use std::alloc::{AllocError, Global};
use std::test::Fail;

/// Says over which recorder a reporter is made.
#[derive(Clone, Copy)]
struct Start {
    /// The write to the store that fails, counted from 1, or 0.
    store_fails: u64,
    /// The same, of the log.
    log_fails: u64,
    /// Whether the recorder was given metadata before.
    used: bool,
}

const SOUND: Start = Start {
    store_fails: 0,
    log_fails: 0,
    used: false,
};

type Reporter = RecordReporter<'static, FailingSink, FailingSink, Sha256Namer>;

fn reporter(alloc: Global, start: Start) -> Result<Reporter, AllocError> {
    let (store, log) = sinks(alloc, start.store_fails, start.log_fails)?;
    let mut recorder = RunRecorder::new(alloc, store, log, &Sha256Namer, 10);
    if start.used {
        let tests = test_list(alloc);
        let _ = recorder.write_meta("{}", &tests, &opts());
        drop(tests);
    }
    Ok(RecordReporter::new(recorder))
}

fn test_list(alloc: Global) -> TestListSummary {
    TestListSummary {
        suites: TextMap::empty(alloc),
    }
}

fn opts() -> RecordOpts {
    RecordOpts {
        run_mode: NextestRunMode::Test,
    }
}

/// What a reporter is told by a letter: `m` and `n` are metadata of cargo,
/// with a test list without tests.
fn metadata(letter: u8) -> Option<&'static str> {
    match letter {
        b'm' => Some("{}"),
        b'n' => Some("[]"),
        _ => None,
    }
}

/// Makes an event of second 1002: `p` is a pause, `c` a continuation,
/// and any other letter an event that only informs.
fn event(letter: u8) -> TestEvent<'static> {
    let kind = match letter {
        b'p' => TestEventKind::RunPaused {
            setup_scripts_running: 0,
            running: 1,
        },
        b'c' => TestEventKind::RunContinued {
            setup_scripts_running: 0,
            running: 1,
        },
        _ => TestEventKind::InputEnter,
    };
    TestEvent {
        timestamp: Stamp {
            secs: 1002,
            nanos: 0,
            offset: 0,
        },
        elapsed: Duration { secs: 2, nanos: 0 },
        kind,
    }
}

fn tell(alloc: Global, reporter: &mut Reporter, letter: u8) {
    if let Some(metadata) = metadata(letter) {
        let tests = test_list(alloc);
        reporter.write_meta(metadata, &tests, &opts());
        drop(tests);
        return;
    }
    let event = event(letter);
    reporter.write_event(alloc, &event);
    drop(event);
}

/// Writes down what comes of telling a reporter all this, and ending it.
fn recorded(
    alloc: Global,
    start: Start,
    letters: &str,
    text: &mut String,
) -> Result<(), AllocError> {
    let mut reporter = reporter(alloc, start)?;
    for letter in letters.bytes() {
        tell(alloc, &mut reporter, letter);
    }
    let end = reporter.finish();
    let written = write_end(alloc, &end, text);
    drop(end);
    written
}

fn write_end(
    alloc: Global,
    end: &ReporterEnd<FailingSink, FailingSink>,
    text: &mut String,
) -> Result<(), AllocError> {
    match &end.result {
        Ok(sizes) => write_sizes(sizes, text)?,
        Err(error) => text.push_str(error_name(error))?,
    }
    write_sinks(alloc, &end.store, &end.log, text)
}

fn write_sizes(sizes: &StoreSizes, text: &mut String) -> Result<(), AllocError> {
    let (bytes, events) = (sizes.log.compressed, sizes.log.entries);
    let entries = sizes.store.entries;
    write!(text, "{bytes} bytes, {events} events, {entries} entries")
}

fn error_name(error: &RecordReporterError) -> &'static str {
    let RecordReporterError::RunStore(error) = error;
    match error {
        RunStoreError::Failed => "Failed",
        RunStoreError::NotLoadedOutput => "NotLoadedOutput",
        RunStoreError::NameCollision { .. } => "NameCollision",
        RunStoreError::CountOutOfRange => "CountOutOfRange",
        RunStoreError::StoreWrite => "StoreWrite",
        RunStoreError::RunLogWrite => "RunLogWrite",
        RunStoreError::OutOfMemory => "OutOfMemory",
    }
}

/// Writes down the names of the store's entries, and what is in the log.
fn write_sinks(
    alloc: Global,
    store: &FailingSink,
    log: &FailingSink,
    text: &mut String,
) -> Result<(), AllocError> {
    text.push_str(";")?;
    write_names(alloc, store.bytes(), text)?;
    write!(text, "; {} logged", log_name(log.bytes()))
}

fn write_names(alloc: Global, store: &[u8], text: &mut String) -> Result<(), AllocError> {
    match Container::parse(alloc, store) {
        Ok(entries) => {
            for i in 0..entries.len() {
                write!(text, " {}", entries.name(i))?;
            }
            Ok(())
        }
        Err(_) => write!(text, " {} bytes without an end", store.len()),
    }
}

fn log_name(log: &[u8]) -> &'static str {
    if log.is_empty() {
        "nothing"
    } else if log == pause_line().as_bytes() {
        "the pause"
    } else if log == both_lines().as_bytes() {
        "pause and continuation"
    } else {
        "something else"
    }
}

fn pause_line() -> &'static str {
    concat!(
        r#"{"elapsed":{"nanos":0,"secs":2},"kind":"run-paused","running":1,"#,
        r#""setup-scripts-running":0,"timestamp":{"nanos":0,"offset":0,"secs":1002}}"#,
        "\n"
    )
}

fn both_lines() -> &'static str {
    concat!(
        r#"{"elapsed":{"nanos":0,"secs":2},"kind":"run-paused","running":1,"#,
        r#""setup-scripts-running":0,"timestamp":{"nanos":0,"offset":0,"secs":1002}}"#,
        "\n",
        r#"{"elapsed":{"nanos":0,"secs":2},"kind":"run-continued","running":1,"#,
        r#""setup-scripts-running":0,"timestamp":{"nanos":0,"offset":0,"secs":1002}}"#,
        "\n"
    )
}

/// What record reporters leave: how they begin, what they are told, and the sizes or the error,
/// the store and the log.
const RECORDED: [(Start, &str, &str); 8] = [
    (
        SOUND,
        "mpic",
        "279 bytes, 2 events, 3 entries; meta/test-list.json meta/cargo-metadata.json \
        meta/record-opts.json; pause and continuation logged",
    ),
    (SOUND, "ii", "0 bytes, 0 events, 0 entries;; nothing logged"),
    (
        Start {
            log_fails: 1,
            ..SOUND
        },
        "pcp",
        "RunLogWrite; 0 bytes without an end; nothing logged",
    ),
    // The head of the second entry is the third write.
    (
        Start {
            store_fails: 3,
            ..SOUND
        },
        "mpn",
        "StoreWrite; 51 bytes without an end; nothing logged",
    ),
    (
        SOUND,
        "pmnc",
        "NameCollision; meta/test-list.json meta/cargo-metadata.json meta/record-opts.json; the \
        pause logged",
    ),
    (
        Start {
            store_fails: 1,
            used: true,
            ..SOUND
        },
        "",
        "Failed; 0 bytes without an end; nothing logged",
    ),
    (
        Start {
            store_fails: 1,
            used: true,
            ..SOUND
        },
        "pm",
        "Failed; 0 bytes without an end; nothing logged",
    ),
    (
        Start {
            store_fails: 1,
            ..SOUND
        },
        "p",
        "StoreWrite; 0 bytes without an end; the pause logged",
    ),
];

#[test]
fn record_reporters(rt: HostRuntime) -> Result<(), Fail> {
    for (start, letters, want) in &RECORDED {
        let mut text = String::new(rt.alloc());
        recorded(rt.alloc(), *start, letters, &mut text)?;
        assert!(rt; text.as_str() == *want, "{text}");
    }
    Ok(())
}

/// Shows each event as a dot, in a sink of its own.
#[derive(Drop)]
struct Dots {
    sink: FailingSink,
}

impl EventReporter for Dots {
    ghost wants = { λ _. Never };

    ghost faults = { λ r. r.sink.faults };

    ghost written = { λ r. Some r.sink.bytes };

    ghost configured = { λ _. None };

    ghost finished = { λ _. None };

    ghost header_text = { λ _ _. [] };

    ghost event_text = { λ _ _. codes "." };

    ghost configures = { λ old _ new. new ≡ old };

    ghost writes_header = { λ old _ result new. (result ≡ Ok tt) × (new ≡ old) };

    ghost writes_event = { λ old _ result new. Shows (Some old.sink.bytes) (Some new.sink.bytes)
        old.sink.faults new.sink.faults (codes ".") result };

    ghost finishes = { λ old new. new ≡ old };

    fn configure(
        &mut self,
        _settings: &DisplaySettings,
        _mode: NextestRunMode,
        _run_count: usize,
    ) {}

    fn decider(&self) -> OutputLoadDecider {
        OutputLoadDecider::Never
    }

    fn write_header(&mut self, _header: &ReplayHeader) -> Result<(), WriteEventError> {
        Ok(())
    }

    fn write_event(&mut self, _event: &TestEvent<'_>) -> Result<(), WriteEventError> {
        match write_all(&mut self.sink, b".") {
            Ok(()) => Ok(()),
            Err(_) => Err(WriteEventError::SinkFault),
        }
    }

    fn finish(&mut self) {}
}

/// Makes one of whose writes the one with this number fails, counted from 1, or none for 0.
fn boxed_dots(alloc: Global, fail_at: u64) -> Result<Box<Dots>, AllocError> {
    let (sink, other) = sinks(alloc, fail_at, 0)?;
    drop(other);
    Ok(Box::new(alloc, Dots { sink })?)
}

/// Says which reporters are set in turn, what they are told, and what comes of it.
#[derive(Clone, Copy)]
struct Case {
    /// For each reporter that shows events, the write that fails, counted from 1, or 0.
    shown_by: &'static [u64],
    /// For each record reporter, how it begins.
    recorded_by: &'static [Start],
    letters: &'static str,
    want: &'static str,
}

/// Writes down what comes of telling both reporters all this, and ending them.
///
/// All calls stand in the function that owns the reporter, which is not to be lent twice. None of
/// them has an exit, so that it is let go in one place.
fn structured(alloc: Global, case: &Case, text: &mut String) -> Result<(), AllocError> {
    let tests = test_list(alloc);
    let mut structured: StructuredReporter<'_, FailingSink, FailingSink, Sha256Namer> =
        StructuredReporter::default();
    for fail_at in case.shown_by {
        if let Ok(libtest) = boxed_dots(alloc, *fail_at) {
            structured.set_libtest(libtest);
        }
    }
    for start in case.recorded_by {
        if let Ok(recording) = reporter(alloc, *start) {
            structured.set_record(recording);
        }
    }
    let mut faults: u64 = 0;
    for letter in case.letters.bytes() {
        if let Some(metadata) = metadata(letter) {
            structured.write_meta(metadata, &tests, &opts());
        } else {
            let event = event(letter);
            let shown = structured.write_event(alloc, &event);
            drop(event);
            faults = faults.saturating_add(u64::from(shown == Err(WriteEventError::SinkFault)));
        }
    }
    let end = structured.finish();
    let written = write_structured_end(alloc, faults, &end, text);
    drop(end);
    drop(tests);
    written
}

fn write_structured_end(
    alloc: Global,
    faults: u64,
    end: &StructuredEnd<FailingSink, FailingSink>,
    text: &mut String,
) -> Result<(), AllocError> {
    write!(text, "{faults} faults, ")?;
    if let Some(sizes) = &end.sizes {
        write_sizes(sizes, text)?;
    }
    if let Some(error) = &end.error {
        text.push_str(error_name(error))?;
    }
    match &end.sinks {
        Some((store, log)) => write_sinks(alloc, store, log, text),
        None => text.push_str("no sinks"),
    }
}

const LOG_FAILS: Start = Start {
    log_fails: 1,
    ..SOUND
};

const STRUCTURED: [Case; 7] = [
    Case {
        shown_by: &[0],
        recorded_by: &[SOUND],
        letters: "mpic",
        want: "0 faults, 279 bytes, 2 events, 3 entries; meta/test-list.json \
            meta/cargo-metadata.json meta/record-opts.json; pause and continuation logged",
    },
    // What isn't shown isn't recorded.
    Case {
        shown_by: &[2],
        recorded_by: &[SOUND],
        letters: "pc",
        want: "1 faults, 138 bytes, 1 events, 0 entries;; the pause logged",
    },
    Case {
        shown_by: &[0],
        recorded_by: &[LOG_FAILS],
        letters: "pc",
        want: "0 faults, RunLogWrite; 0 bytes without an end; nothing logged",
    },
    Case {
        shown_by: &[],
        recorded_by: &[],
        letters: "mp",
        want: "0 faults, no sinks",
    },
    // The second of two takes the place of the first.
    Case {
        shown_by: &[1, 2],
        recorded_by: &[],
        letters: "pp",
        want: "1 faults, no sinks",
    },
    Case {
        shown_by: &[],
        recorded_by: &[LOG_FAILS, SOUND],
        letters: "p",
        want: "0 faults, 138 bytes, 1 events, 0 entries;; the pause logged",
    },
    Case {
        shown_by: &[],
        recorded_by: &[SOUND, LOG_FAILS],
        letters: "p",
        want: "0 faults, RunLogWrite; 0 bytes without an end; nothing logged",
    },
];

#[test]
fn structured_reporters(rt: HostRuntime) -> Result<(), Fail> {
    for case in &STRUCTURED {
        let mut text = String::new(rt.alloc());
        structured(rt.alloc(), case, &mut text)?;
        assert!(rt; text.as_str() == case.want, "{text}");
    }
    Ok(())
}
