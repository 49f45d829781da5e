//! What a disk in memory keeps and answers.

use crate::calls::{Call, answers};
use rec_disk::MemoryDisk;
use std::alloc::{AllocError, Global};
use std::test::Fail;

/// A disk with one file, its calls, and what these answer and leave.
#[derive(Clone, Copy)]
struct Case<'c> {
    /// The content of the file `run/log`.
    log: &'c [u8],
    /// Which calls fail, from 1.
    fails: &'c [u64],
    calls: &'c [Call<'c>],
    answers: &'c str,
    left: &'c [(&'c str, &'c [u8])],
}

const CASES: &[Case<'static>] = &[
    // Files are kept.
    Case {
        log: b"one",
        fails: &[],
        calls: &[
            Call::Append("run/log", b" two"),
            Call::Len("run/log"),
            Call::Rename("run/log", "run/old"),
            Call::Create("run/log"),
            Call::Read("run/old", 4),
        ],
        answers: "4;7;done;done;3 two.;",
        left: &[("run/log", b""), ("run/old", b"one two")],
    },
    // A path is there where a file lies below it.
    Case {
        log: b"",
        fails: &[],
        calls: &[
            Call::Exists("run"),
            Call::Exists("run/log"),
            Call::Exists("ru"),
            Call::Exists(""),
            Call::Append("run", b"x"),
        ],
        answers: "true;true;false;false;missing;",
        left: &[("run/log", b"")],
    },
    Case {
        log: b"",
        fails: &[2, 3],
        calls: &[
            Call::Create("log"),
            Call::Append("log", b"x"),
            Call::Exists("log"),
            Call::Len("log"),
        ],
        answers: "done;failed;failed;0;",
        left: &[("log", b"")],
    },
];

/// What the calls of a case answer, and which of its files aren't left so.
fn found(alloc: Global, case: &Case<'_>) -> Result<String, AllocError> {
    let mut disk = MemoryDisk::new(alloc, case.fails.to_vec(alloc)?);
    disk.put("run/log", case.log)?;
    let mut text = answers(alloc, &mut disk, case.calls)?;
    for (path, bytes) in case.left {
        if disk.get(path).unwrap_or(b"missing") != *bytes {
            text.push_str(path)?;
        }
    }
    Ok(text)
}

#[test]
fn a_disk_in_memory_keeps_files(rt: HostRuntime) -> Result<(), Fail> {
    for case in CASES {
        let found = found(rt.alloc(), case)?;
        assert!(rt; found.as_str() == case.answers, "{found}");
    }
    Ok(())
}
