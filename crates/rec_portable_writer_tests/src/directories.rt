//! Directories in memory: what is written of them, what is answered and what is left where a file
//! is missing or a call of the disk fails.

use crate::writing::{Asked, BUNDLE, LOG, LOG_PATH, STORE, STORE_PATH, answer};
use rec_disk::{Disk, DiskError, MemoryDisk};
use std::alloc::Global;
use std::test::Fail;

/// A disk, what the writer of its run is asked, and what is answered and left.
#[derive(Clone, Copy)]
struct Case<'c> {
    /// The paths and the bytes of the disk's files.
    files: &'c [(&'c str, &'c [u8])],
    /// Which calls of the disk fail, from 1.
    fails: &'c [u64],
    asked: Asked<'c>,
    answer: &'c str,
    /// Files that are there then, and paths where none is.
    left: &'c [(&'c str, &'c [u8])],
    missing: &'c [&'c str],
}

const WHOLE: &[(&str, &[u8])] = &[(LOG_PATH, LOG), (STORE_PATH, STORE)];

/// The same, and a file at the bundle's path.
const WITH_OLDER: &[(&str, &[u8])] = &[(LOG_PATH, LOG), (STORE_PATH, STORE), ("b", b"older")];

const CASES: &[Case<'static>] = &[
    Case {
        files: WHOLE,
        fails: &[],
        asked: Asked::Dir("out"),
        answer: "out/nextest-run-550e8400-e29b-41d4-a716-446655440000.zip has 546 bytes",
        left: &[
            (
                "out/nextest-run-550e8400-e29b-41d4-a716-446655440000.zip",
                BUNDLE,
            ),
            (LOG_PATH, LOG),
            (STORE_PATH, STORE),
        ],
        missing: &["out/nextest-run-550e8400-e29b-41d4-a716-446655440000.zip.tmp"],
    },
    Case {
        files: WHOLE,
        fails: &[],
        asked: Asked::Name,
        answer: "nextest-run-550e8400-e29b-41d4-a716-446655440000.zip",
        left: WHOLE,
        missing: &["b"],
    },
    // A writer that isn't made asks no more of the disk, and changes no file.
    Case {
        files: &[],
        fails: &[2],
        asked: Asked::Path("b"),
        answer: "there is no run at runs/550e8400-e29b-41d4-a716-446655440000, and the next call \
            fails",
        left: &[],
        missing: &[LOG_PATH, STORE_PATH, "b"],
    },
    Case {
        files: &[(LOG_PATH, LOG)],
        fails: &[3],
        asked: Asked::Path("b"),
        answer: "the run at runs/550e8400-e29b-41d4-a716-446655440000 has no store.zip, and the \
            next call fails",
        left: &[(LOG_PATH, LOG)],
        missing: &[STORE_PATH, "b"],
    },
    Case {
        files: &[(STORE_PATH, STORE)],
        fails: &[4],
        asked: Asked::Path("b"),
        answer: "the run at runs/550e8400-e29b-41d4-a716-446655440000 has no run.log.zst, and \
            the next call fails",
        left: &[(STORE_PATH, STORE)],
        missing: &[LOG_PATH, "b"],
    },
    Case {
        files: WITH_OLDER,
        fails: &[1, 2],
        asked: Asked::Path("b"),
        answer: "the disk failed at runs/550e8400-e29b-41d4-a716-446655440000, and the next call \
            fails",
        left: WITH_OLDER,
        missing: &["b.tmp"],
    },
    Case {
        files: WITH_OLDER,
        fails: &[2, 3],
        asked: Asked::Path("b"),
        answer: "the disk failed at runs/550e8400-e29b-41d4-a716-446655440000/store.zip, and the \
            next call fails",
        left: WITH_OLDER,
        missing: &["b.tmp"],
    },
    Case {
        files: WITH_OLDER,
        fails: &[3, 4],
        asked: Asked::Path("b"),
        answer: "the disk failed at runs/550e8400-e29b-41d4-a716-446655440000/run.log.zst, and \
            the next call fails",
        left: WITH_OLDER,
        missing: &["b.tmp"],
    },
    // Each later call may fail, and the file at the bundle's path stays as it was.
    Case {
        files: WITH_OLDER,
        fails: &[4],
        asked: Asked::Path("b"),
        answer: "reading the run's run.log.zst failed",
        left: WITH_OLDER,
        missing: &["b.tmp"],
    },
    Case {
        files: WITH_OLDER,
        fails: &[5],
        asked: Asked::Path("b"),
        answer: "reading the run's run.log.zst failed",
        left: WITH_OLDER,
        missing: &["b.tmp"],
    },
    Case {
        files: WITH_OLDER,
        fails: &[6],
        asked: Asked::Path("b"),
        answer: "reading the run's store.zip failed",
        left: WITH_OLDER,
        missing: &["b.tmp"],
    },
    Case {
        files: WITH_OLDER,
        fails: &[7],
        asked: Asked::Path("b"),
        answer: "reading the run's store.zip failed",
        left: WITH_OLDER,
        missing: &["b.tmp"],
    },
    Case {
        files: WITH_OLDER,
        fails: &[8],
        asked: Asked::Path("b"),
        answer: "writing the bundle b failed",
        left: WITH_OLDER,
        missing: &["b.tmp"],
    },
    Case {
        files: WITH_OLDER,
        fails: &[9],
        asked: Asked::Path("b"),
        answer: "writing the bundle b failed",
        left: &[
            (LOG_PATH, LOG),
            (STORE_PATH, STORE),
            ("b", b"older"),
            ("b.tmp", b""),
        ],
        missing: &[],
    },
    Case {
        files: WITH_OLDER,
        fails: &[10],
        asked: Asked::Path("b"),
        answer: "writing the bundle b failed",
        left: &[
            (LOG_PATH, LOG),
            (STORE_PATH, STORE),
            ("b", b"older"),
            ("b.tmp", BUNDLE),
        ],
        missing: &[],
    },
    Case {
        files: WITH_OLDER,
        fails: &[11],
        asked: Asked::Path("b"),
        answer: "b has 546 bytes, and the next call fails",
        left: &[("b", BUNDLE)],
        missing: &["b.tmp"],
    },
];

/// What is answered, whether the disk's next call fails,
/// and each path at which something else is left.
fn found(alloc: Global, case: &Case<'_>) -> Result<String, Fail> {
    let mut disk = MemoryDisk::new(alloc, case.fails.to_vec(alloc)?);
    for (path, bytes) in case.files {
        disk.put(path, bytes)?;
    }
    let mut text = answer(alloc, &mut disk, case.asked)?;
    if matches!(disk.exists("runs"), Err(DiskError::DiskFailed)) {
        text.push_str(", and the next call fails")?;
    }
    for (path, bytes) in case.left {
        if disk.get(path).unwrap_or(b"missing") != *bytes {
            text.push_str(path)?;
        }
    }
    for path in case.missing {
        if disk.get(path).is_some() {
            text.push_str(path)?;
        }
    }
    Ok(text)
}

#[test]
fn bundles_are_written_or_refused(rt: HostRuntime) -> Result<(), Fail> {
    for case in CASES {
        let found = found(rt.alloc(), case)?;
        assert!(rt;
            found.as_str() == case.answer,
            "{found}, and not {}",
            case.answer
        );
    }
    Ok(())
}
