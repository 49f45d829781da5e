//! Recordings in directories.

use crate::made::{run, stored};
use crate::texts::paused;
use rec_container::Container;
use rec_disk::MemoryDisk;
use rec_events::Text;
use rec_salvage::{SalvageError, Salvaged};
use rec_salvage_directory::salvage_dir;
use std::alloc::{AllocError, Global};
use std::test::Fail;

/// Says what a directory has, which call of its disk fails, counted from 1, and what is answered.
#[derive(Clone, Copy)]
struct Case {
    store: bool,
    log: bool,
    fail_at: u64,
    want: &'static str,
}

const SOUND: Case = Case {
    store: true,
    log: true,
    fail_at: 0,
    want: "events=0 outputs=0 meta/build-scope.json meta/test-list.json meta/cargo-metadata.json \
        meta/record-opts.json",
};

const CASES: [Case; 8] = [
    Case {
        store: false,
        log: false,
        want: "there is no store at r/store.zip",
        ..SOUND
    },
    Case {
        store: false,
        want: "there is no store at r/store.zip",
        ..SOUND
    },
    Case {
        log: false,
        want: "there is no event log at r/run.log.zst",
        ..SOUND
    },
    Case {
        fail_at: 1,
        want: "the disk failed at r/store.zip",
        ..SOUND
    },
    Case {
        fail_at: 2,
        want: "the disk failed at r/store.zip",
        ..SOUND
    },
    Case {
        fail_at: 3,
        want: "the disk failed at r/run.log.zst",
        ..SOUND
    },
    Case {
        fail_at: 4,
        want: "the disk failed at r/run.log.zst",
        ..SOUND
    },
    Case {
        fail_at: 5,
        ..SOUND
    },
];

/// Writes down the numbers of events and outputs that are salvaged,
/// and the names of the store's entries.
fn write_salvaged(alloc: Global, salvaged: &Salvaged, text: &mut String) -> Result<(), Fail> {
    let (events, outputs) = (salvaged.events, salvaged.outputs);
    write!(text, "events={events} outputs={outputs}")?;
    let bundle = Container::parse(alloc, salvaged.bundle.as_slice())?;
    let store = Container::parse(alloc, bundle.get("store.zip").unwrap_or(b""));
    drop(bundle);
    let entries = store?;
    let written = write_names(&entries, text);
    drop(entries);
    Ok(written?)
}

fn write_names(entries: &Container<'_>, text: &mut String) -> Result<(), AllocError> {
    for i in 0..entries.len() {
        write!(text, " {}", entries.name(i))?;
    }
    Ok(())
}

fn write_answer(
    alloc: Global,
    answer: Result<Salvaged, SalvageError>,
    text: &mut String,
) -> Result<(), Fail> {
    match answer {
        Ok(salvaged) => {
            let written = write_salvaged(alloc, &salvaged, text);
            drop(salvaged);
            written
        }
        Err(error) => {
            let written = write!(text, "{error}");
            drop(error);
            Ok(written?)
        }
    }
}

fn put_all(disk: &mut MemoryDisk, case: &Case, store: &[u8]) -> Result<(), AllocError> {
    if case.store {
        disk.put("r/store.zip", store)?;
    }
    if case.log {
        disk.put("r/run.log.zst", paused().as_bytes())?;
    }
    Ok(())
}

fn salvaged(
    alloc: Global,
    case: &Case,
    disk: &mut MemoryDisk,
    text: &mut String,
) -> Result<(), Fail> {
    let store = stored(alloc)?;
    let put = put_all(disk, case, &store);
    drop(store);
    put?;
    let run = run(alloc)?;
    let answer = salvage_dir(alloc, &run, disk, "r");
    drop(run);
    write_answer(alloc, answer, text)
}

#[test]
fn a_directory_is_read_store_first(rt: HostRuntime) -> Result<(), Fail> {
    let alloc = rt.alloc();
    for case in &CASES {
        let mut text = String::new(alloc);
        let mut disk = MemoryDisk::new(alloc, vec![in alloc; case.fail_at]?);
        let done = salvaged(alloc, case, &mut disk, &mut text);
        drop(disk);
        done?;
        assert!(rt; text.as_str() == case.want, "{text}");
    }
    Ok(())
}

/// Whether an error prints this.
fn prints(alloc: Global, error: SalvageError, want: &str) -> Result<bool, AllocError> {
    let text = format!(in alloc; "{error}");
    drop(error);
    Ok(text?.as_str() == want)
}

#[test]
fn errors_of_a_store_are_printed(rt: HostRuntime) -> Result<(), Fail> {
    let alloc = rt.alloc();
    let magic = "the store doesn't begin with nxtcont1";
    assert!(rt; prints(alloc, SalvageError::BadMagic, magic)?);
    let file_name = Text::from_str(alloc, "meta/test-list.json")?;
    let missing = "the store has no entry meta/test-list.json";
    assert!(rt; prints(alloc, SalvageError::MissingMeta { file_name }, missing)?);
    let file_name = Text::from_str(alloc, "meta/build-scope.json")?;
    let bad = "the entry meta/build-scope.json stands for no item of its kind";
    assert!(rt; prints(alloc, SalvageError::BadMeta { file_name }, bad)?);
    assert!(rt; prints(alloc, SalvageError::OutOfMemory, "out of memory")?);
    Ok(())
}
