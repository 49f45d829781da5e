//! Packs directories of runs that ended, were stopped, or lack a part, on disks that fail.

use crate::directories::{Directory, Left, put_run};
use crate::texts::{closing_head, head, other_id, other_start};
use rec_disk::MemoryDisk;
use rec_events::Duration;
use rec_format::RecordedRunInfo;
use rec_memory_streams::FailingSource;
use rec_packing::{PackError, Packed, pack};
use rec_portable::PortableRecording;
use std::alloc::{AllocError, Global};
use std::test::Fail;

/// What closes a run.
#[derive(Clone, Copy)]
enum Closing {
    Nothing,
    Head,
    ClosingHead,
    OtherId,
    OtherStart,
    /// This text.
    Text(&'static str),
}

/// What is left of a run, what closes it, what fails, and what comes of it.
#[derive(Clone, Copy)]
struct Case {
    directory: Directory,
    closing: Closing,
    limit: u64,
    /// Which read of what closes the run fails, from 1, or none.
    source_fails: u64,
    /// Which call of the disk fails, from 1, or none.
    disk_fails: u64,
    want: &'static str,
}

/// Runs that ended.
const ENDED: &[Case] = &[
    Case {
        directory: Directory {
            manifest: Left::All,
            store: Left::All,
            log: Left::All,
        },
        closing: Closing::Nothing,
        limit: 10000,
        source_fails: 0,
        disk_fails: 0,
        want: "events=2 outputs=0 stopped=false; last=1000 duration=none log=2",
    },
    Case {
        directory: Directory {
            manifest: Left::All,
            store: Left::All,
            log: Left::All,
        },
        closing: Closing::Head,
        limit: 10000,
        source_fails: 0,
        disk_fails: 0,
        want: "events=2 outputs=0 stopped=false; last=1000 duration=none log=2",
    },
    Case {
        directory: Directory {
            manifest: Left::All,
            store: Left::All,
            log: Left::All,
        },
        closing: Closing::ClosingHead,
        limit: 10000,
        source_fails: 0,
        disk_fails: 0,
        want: "events=2 outputs=0 stopped=false; last=1011 duration=11 log=2",
    },
];

/// Runs that were stopped.
const STOPPED: &[Case] = &[
    // before the end mark of the store
    Case {
        directory: Directory {
            manifest: Left::All,
            store: Left::AllBut(1),
            log: Left::All,
        },
        closing: Closing::ClosingHead,
        limit: 10000,
        source_fails: 0,
        disk_fails: 0,
        want: "events=2 outputs=0 stopped=true; last=1011 duration=11 log=2",
    },
    // within the last entry of the store
    Case {
        directory: Directory {
            manifest: Left::All,
            store: Left::AllBut(2),
            log: Left::All,
        },
        closing: Closing::Nothing,
        limit: 10000,
        source_fails: 0,
        disk_fails: 0,
        want: "events=2 outputs=0 stopped=true; last=1000 duration=none log=2",
    },
    // before the end of the log's last line
    Case {
        directory: Directory {
            manifest: Left::All,
            store: Left::All,
            log: Left::AllBut(1),
        },
        closing: Closing::Nothing,
        limit: 10000,
        source_fails: 0,
        disk_fails: 0,
        want: "events=1 outputs=0 stopped=true; last=1000 duration=none log=1",
    },
    // before the first byte of the log
    Case {
        directory: Directory {
            manifest: Left::All,
            store: Left::AllBut(1),
            log: Left::AllBut(10000),
        },
        closing: Closing::Nothing,
        limit: 10000,
        source_fails: 0,
        disk_fails: 0,
        want: "events=0 outputs=0 stopped=true; last=1000 duration=none log=0",
    },
];

/// Runs that aren't packed. The manifest is judged before the head, the head before the store, and
/// the store before the log.
const REFUSED: &[Case] = &[
    Case {
        directory: Directory {
            manifest: Left::Missing,
            store: Left::Missing,
            log: Left::Missing,
        },
        closing: Closing::OtherId,
        limit: 10000,
        source_fails: 1,
        disk_fails: 0,
        want: "there is no manifest at r/manifest.json; before",
    },
    Case {
        directory: Directory {
            manifest: Left::AllBut(1),
            store: Left::All,
            log: Left::All,
        },
        closing: Closing::OtherId,
        limit: 10000,
        source_fails: 0,
        disk_fails: 0,
        want: "the manifest is none; before",
    },
    Case {
        directory: Directory {
            manifest: Left::All,
            store: Left::Missing,
            log: Left::Missing,
        },
        closing: Closing::Text("x\n"),
        limit: 10000,
        source_fails: 0,
        disk_fails: 0,
        want: "line 1 is no head of a session; before",
    },
    Case {
        directory: Directory {
            manifest: Left::All,
            store: Left::All,
            log: Left::All,
        },
        closing: Closing::Text("\n"),
        limit: 10000,
        source_fails: 0,
        disk_fails: 0,
        want: "line 1 is no head of a session; before",
    },
    Case {
        directory: Directory {
            manifest: Left::All,
            store: Left::Missing,
            log: Left::All,
        },
        closing: Closing::ClosingHead,
        limit: 10,
        source_fails: 0,
        disk_fails: 0,
        want: "the session is longer than 10 bytes; before",
    },
    Case {
        directory: Directory {
            manifest: Left::All,
            store: Left::Missing,
            log: Left::All,
        },
        closing: Closing::ClosingHead,
        limit: 10000,
        source_fails: 1,
        disk_fails: 0,
        want: "reading the session failed; before",
    },
    Case {
        directory: Directory {
            manifest: Left::All,
            store: Left::Missing,
            log: Left::Missing,
        },
        closing: Closing::OtherId,
        limit: 10000,
        source_fails: 0,
        disk_fails: 0,
        want: "the head is that of another run; before",
    },
    Case {
        directory: Directory {
            manifest: Left::All,
            store: Left::All,
            log: Left::All,
        },
        closing: Closing::OtherStart,
        limit: 10000,
        source_fails: 0,
        disk_fails: 0,
        want: "the head is that of another run; before",
    },
    Case {
        directory: Directory {
            manifest: Left::All,
            store: Left::Missing,
            log: Left::Missing,
        },
        closing: Closing::Nothing,
        limit: 10000,
        source_fails: 0,
        disk_fails: 0,
        want: "there is no store at r/store.zip; before",
    },
    Case {
        directory: Directory {
            manifest: Left::All,
            store: Left::AllBut(200),
            log: Left::All,
        },
        closing: Closing::Nothing,
        limit: 10000,
        source_fails: 0,
        disk_fails: 0,
        want: "the store has no entry meta/build-scope.json; before",
    },
    Case {
        directory: Directory {
            manifest: Left::All,
            store: Left::All,
            log: Left::Missing,
        },
        closing: Closing::Nothing,
        limit: 10000,
        source_fails: 0,
        disk_fails: 0,
        want: "there is no event log at r/run.log.zst; before",
    },
];

/// Disks of which one call fails: each of those that a whole run takes, and the one after them.
const FAILING: &[Case] = &[
    Case {
        directory: Directory {
            manifest: Left::All,
            store: Left::All,
            log: Left::All,
        },
        closing: Closing::Nothing,
        limit: 10000,
        source_fails: 0,
        disk_fails: 1,
        want: "the disk failed at r/manifest.json; before",
    },
    Case {
        directory: Directory {
            manifest: Left::All,
            store: Left::All,
            log: Left::All,
        },
        closing: Closing::Nothing,
        limit: 10000,
        source_fails: 0,
        disk_fails: 2,
        want: "the disk failed at r/manifest.json; before",
    },
    Case {
        directory: Directory {
            manifest: Left::All,
            store: Left::All,
            log: Left::All,
        },
        closing: Closing::Nothing,
        limit: 10000,
        source_fails: 0,
        disk_fails: 3,
        want: "the disk failed at r/store.zip; before",
    },
    Case {
        directory: Directory {
            manifest: Left::All,
            store: Left::All,
            log: Left::All,
        },
        closing: Closing::Nothing,
        limit: 10000,
        source_fails: 0,
        disk_fails: 4,
        want: "the disk failed at r/store.zip; before",
    },
    Case {
        directory: Directory {
            manifest: Left::All,
            store: Left::All,
            log: Left::All,
        },
        closing: Closing::Nothing,
        limit: 10000,
        source_fails: 0,
        disk_fails: 5,
        want: "the disk failed at r/run.log.zst; before",
    },
    Case {
        directory: Directory {
            manifest: Left::All,
            store: Left::All,
            log: Left::All,
        },
        closing: Closing::Nothing,
        limit: 10000,
        source_fails: 0,
        disk_fails: 6,
        want: "the disk failed at r/run.log.zst; before",
    },
    Case {
        directory: Directory {
            manifest: Left::All,
            store: Left::All,
            log: Left::All,
        },
        closing: Closing::Nothing,
        limit: 10000,
        source_fails: 0,
        disk_fails: 7,
        want: "writing the bundle failed; before",
    },
    Case {
        directory: Directory {
            manifest: Left::All,
            store: Left::All,
            log: Left::All,
        },
        closing: Closing::Nothing,
        limit: 10000,
        source_fails: 0,
        disk_fails: 8,
        want: "writing the bundle failed; before, and a part beside it",
    },
    Case {
        directory: Directory {
            manifest: Left::All,
            store: Left::All,
            log: Left::All,
        },
        closing: Closing::Nothing,
        limit: 10000,
        source_fails: 0,
        disk_fails: 9,
        want: "writing the bundle failed; before, and a part beside it",
    },
    Case {
        directory: Directory {
            manifest: Left::All,
            store: Left::All,
            log: Left::All,
        },
        closing: Closing::Nothing,
        limit: 10000,
        source_fails: 0,
        disk_fails: 10,
        want: "events=2 outputs=0 stopped=false; last=1000 duration=none log=2",
    },
];

/// The text of what closes a run.
fn text_of(closing: Closing) -> &'static str {
    match closing {
        Closing::Nothing => "",
        Closing::Head => head(),
        Closing::ClosingHead => closing_head(),
        Closing::OtherId => other_id(),
        Closing::OtherStart => other_start(),
        Closing::Text(text) => text,
    }
}

/// Writes down the seconds of a duration.
fn write_duration(duration: Option<Duration>, text: &mut String) -> Result<(), AllocError> {
    match duration {
        Some(duration) => write!(text, " duration={}", duration.secs),
        None => write!(text, " duration=none"),
    }
}

/// Writes down what is known of the end of a run, and how many events its log has.
fn write_run(run: &RecordedRunInfo, text: &mut String) -> Result<(), AllocError> {
    write!(text, "; last={}", run.last_written_at.secs)?;
    write_duration(run.duration, text)?;
    write!(text, " log={}", run.sizes.log.entries)
}

/// Writes down the run of a bundle.
fn write_bundle(alloc: Global, bundle: &[u8], text: &mut String) -> Result<(), Fail> {
    let path = String::from_str(alloc, "b.zip")?;
    let mut source = FailingSource::new(bundle, 0, &[]);
    let recording = PortableRecording::open(alloc, path, &mut source, 10000, 10000)?;
    let run = recording.run_info(alloc);
    recording.discard();
    let run = run?;
    let written = write_run(&run, text);
    run.discard();
    Ok(written?)
}

/// Writes down what a call answers.
fn write_answer(answer: Result<Packed, PackError>, text: &mut String) -> Result<(), AllocError> {
    match answer {
        Ok(packed) => {
            let (events, outputs, stopped) = (packed.events, packed.outputs, packed.stopped);
            write!(text, "events={events} outputs={outputs} stopped={stopped}")
        }
        Err(error) => {
            let written = write!(text, "{error}");
            drop(error);
            written
        }
    }
}

/// Packs a run, and writes down what is answered.
fn write_packed(
    alloc: Global,
    case: &Case,
    disk: &mut MemoryDisk,
    text: &mut String,
) -> Result<(), AllocError> {
    let fails = [case.source_fails];
    let mut closing = FailingSource::new(text_of(case.closing).as_bytes(), 0, &fails);
    let answer = pack(alloc, disk, "r", "b.zip", &mut closing, case.limit);
    write_answer(answer, text)
}

/// Writes down what stands at the bundle's path.
fn write_path(alloc: Global, disk: &MemoryDisk, text: &mut String) -> Result<(), Fail> {
    match disk.get("b.zip") {
        Some(bundle) if bundle == b"before".as_slice() => write!(text, "; before")?,
        Some(bundle) => write_bundle(alloc, bundle, text)?,
        None => write!(text, "; nothing")?,
    }
    if disk.get("b.zip.tmp").is_some() {
        write!(text, ", and a part beside it")?;
    }
    Ok(())
}

/// Packs a run from a disk, and writes down what is answered and what stands at the path then.
fn write_case(
    alloc: Global,
    case: &Case,
    disk: &mut MemoryDisk,
    text: &mut String,
) -> Result<(), Fail> {
    put_run(alloc, disk, &case.directory)?;
    write_packed(alloc, case, disk, text)?;
    write_path(alloc, disk, text)
}

/// What comes of a case.
fn found(alloc: Global, case: &Case) -> Result<String, Fail> {
    let mut text = String::new(alloc);
    let mut disk = MemoryDisk::new(alloc, vec![in alloc; case.disk_fails]?);
    let done = write_case(alloc, case, &mut disk, &mut text);
    drop(disk);
    done?;
    Ok(text)
}

#[test]
fn a_run_that_ended_is_packed_whole(rt: HostRuntime) -> Result<(), Fail> {
    for case in ENDED {
        let found = found(rt.alloc(), case)?;
        assert!(rt; found.as_str() == case.want, "{found}");
    }
    Ok(())
}

#[test]
fn a_run_that_was_stopped_is_packed_as_far_as_it_stands(rt: HostRuntime) -> Result<(), Fail> {
    for case in STOPPED {
        let found = found(rt.alloc(), case)?;
        assert!(rt; found.as_str() == case.want, "{found}");
    }
    Ok(())
}

#[test]
fn what_is_refused_leaves_the_path(rt: HostRuntime) -> Result<(), Fail> {
    for case in REFUSED {
        let found = found(rt.alloc(), case)?;
        assert!(rt; found.as_str() == case.want, "{found}");
    }
    Ok(())
}

#[test]
fn a_disk_that_fails_leaves_the_path(rt: HostRuntime) -> Result<(), Fail> {
    for case in FAILING {
        let found = found(rt.alloc(), case)?;
        assert!(rt; found.as_str() == case.want, "{found}");
    }
    Ok(())
}
