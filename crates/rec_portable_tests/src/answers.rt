//! What bundles answer.

use crate::asking::{AMPLE, Part, Question, answer};
use crate::bundles::Bundle;
use crate::texts::{
    FORMAT_1_0, FORMAT_1_1, FORMAT_2_0, LINE, NO_WORDS, RERUN, SCOPE, STORE_2, STORE_3_0, STORE_3_2,
};
use std::alloc::Global;
use std::process::Abort;
use std::test::Fail;

/// The metadata of a run, and the same with an output.
const METADATA: &[(&str, &str)] = &[
    ("meta/build-scope.json", SCOPE),
    ("meta/test-list.json", "{\"suites\":{}}"),
    ("meta/cargo-metadata.json", "{}"),
    ("meta/record-opts.json", "{\"run-mode\":\"test\"}"),
];

const STORED: &[(&str, &str)] = &[
    ("meta/build-scope.json", SCOPE),
    ("meta/test-list.json", "{\"suites\":{}}"),
    ("meta/cargo-metadata.json", "{}"),
    ("meta/record-opts.json", "{\"run-mode\":\"test\"}"),
    ("out/ba7816bf8f01cfea-stdout", "abc"),
];

/// A bundle, the most bytes of an entry that is read, what it is asked, and what it answers.
type Row = (Bundle<'static>, u64, Question<'static>, &'static str);

fn check(rt: &impl Abort, alloc: Global, rows: &[Row]) -> Result<(), Fail> {
    for (bundle, limit, question, want) in rows {
        let found = answer(alloc, bundle, *limit, *question)?;
        assert!(rt; found.as_str() == *want, "{found}, and not {want}");
    }
    Ok(())
}

/// What is asked of the entries of a bundle.
const ENTRIES: &[Row] = &[
    (
        Bundle {
            format: FORMAT_1_1,
            words: NO_WORDS,
            store_version: STORE_3_0,
            entries: &[("x", "kept")],
            store: &[],
        },
        AMPLE,
        Question::Whole,
        "run.zip 550e8400-e29b-41d4-a716-446655440000, store false, log false",
    ),
    (
        Bundle {
            format: FORMAT_1_1,
            words: NO_WORDS,
            store_version: STORE_3_0,
            entries: &[("store.zip", "kept")],
            store: &[],
        },
        AMPLE,
        Question::Whole,
        "run.zip 550e8400-e29b-41d4-a716-446655440000, store true, log false",
    ),
    (
        Bundle {
            format: FORMAT_1_1,
            words: NO_WORDS,
            store_version: STORE_3_0,
            entries: &[("run.log.zst", "kept")],
            store: &[],
        },
        AMPLE,
        Question::Whole,
        "run.zip 550e8400-e29b-41d4-a716-446655440000, store false, log true",
    ),
    (
        Bundle {
            format: FORMAT_1_1,
            words: NO_WORDS,
            store_version: STORE_3_0,
            entries: &[("store.zip", "kept")],
            store: &[],
        },
        AMPLE,
        Question::Windows,
        "log none, store kept",
    ),
    (
        Bundle {
            format: FORMAT_1_1,
            words: NO_WORDS,
            store_version: STORE_3_0,
            entries: &[("run.log.zst", "kept")],
            store: &[],
        },
        AMPLE,
        Question::Windows,
        "log kept, store none",
    ),
    // An entry is extracted whole, past the limit too.
    (
        Bundle {
            format: FORMAT_1_1,
            words: NO_WORDS,
            store_version: STORE_3_0,
            entries: &[("store.zip", LINE)],
            store: &[],
        },
        590,
        Question::Entry("store.zip", true),
        "590 of 590, past the limit 0: long",
    ),
    (
        Bundle {
            format: FORMAT_1_1,
            words: NO_WORDS,
            store_version: STORE_3_0,
            entries: &[("store.zip", LINE)],
            store: &[],
        },
        589,
        Question::Entry("store.zip", false),
        "590 of 590, past the limit 0: long",
    ),
    (
        Bundle {
            format: FORMAT_1_1,
            words: NO_WORDS,
            store_version: STORE_3_0,
            entries: &[("store.zip", LINE)],
            store: &[],
        },
        589,
        Question::Entry("store.zip", true),
        "590 of 590, past the limit 590: long",
    ),
    (
        Bundle {
            format: FORMAT_1_1,
            words: NO_WORDS,
            store_version: STORE_3_0,
            entries: &[("run.log.zst", "lo"), ("store.zip", "nxtcont1\0")],
            store: &[],
        },
        AMPLE,
        Question::Entry("store.zip", true),
        "9 of 9, past the limit 0: nxtcont1\0",
    ),
    (
        Bundle {
            format: FORMAT_1_1,
            words: NO_WORDS,
            store_version: STORE_3_0,
            entries: &[("notes", "kept")],
            store: &[],
        },
        AMPLE,
        Question::Entry("notes", true),
        "4 of 4, past the limit 0: kept",
    ),
    (
        Bundle {
            format: FORMAT_1_1,
            words: NO_WORDS,
            store_version: STORE_3_0,
            entries: &[("note", "kept")],
            store: &[],
        },
        AMPLE,
        Question::Entry("notes", true),
        "the bundle has no notes",
    ),
    (
        Bundle {
            format: FORMAT_1_1,
            words: NO_WORDS,
            store_version: STORE_3_0,
            entries: &[("store.zip", "0123456789")],
            store: &[],
        },
        AMPLE,
        Question::EntryUnwritten("store.zip"),
        "writing store.zip failed after 5",
    ),
    (
        Bundle {
            format: FORMAT_1_1,
            words: NO_WORDS,
            store_version: STORE_3_0,
            entries: &[("store.zip", "0123456789")],
            store: &[],
        },
        AMPLE,
        Question::EntryUnwritten("store"),
        "the bundle has no store after 0",
    ),
];

#[test]
fn entries_are_found_and_extracted(rt: HostRuntime) -> Result<(), Fail> {
    check(&rt, rt.alloc(), ENTRIES)
}

/// What is asked of the parts of a store, which may be missing or faulty.
const PARTS: &[Row] = &[
    (
        Bundle {
            format: FORMAT_1_1,
            words: NO_WORDS,
            store_version: STORE_3_0,
            entries: &[("store.zip", "")],
            store: &[("meta/cargo-metadata.json", "{\"packages\":[]}")],
        },
        AMPLE,
        Question::Part(Part::CargoMetadata),
        "{\"packages\":[]}",
    ),
    (
        Bundle {
            format: FORMAT_1_1,
            words: NO_WORDS,
            store_version: STORE_3_0,
            entries: &[("store.zip", "")],
            store: &[("meta/build-scope.json", SCOPE)],
        },
        AMPLE,
        Question::Part(Part::BuildScope),
        SCOPE,
    ),
    (
        Bundle {
            format: FORMAT_1_1,
            words: NO_WORDS,
            store_version: STORE_3_0,
            entries: &[("store.zip", "")],
            store: &[("meta/rerun-info.json", RERUN)],
        },
        AMPLE,
        Question::Part(Part::RerunInfo),
        RERUN,
    ),
    (
        Bundle {
            format: FORMAT_1_1,
            words: NO_WORDS,
            store_version: STORE_3_0,
            entries: &[("store.zip", "")],
            store: &[("out/x-unknown", "x")],
        },
        AMPLE,
        Question::Part(Part::Output("x-unknown")),
        "the name x-unknown says no kind of output",
    ),
    (
        Bundle {
            format: FORMAT_1_1,
            words: NO_WORDS,
            store_version: STORE_3_0,
            entries: &[("store.zip", "")],
            store: &[("out/ba7816bf8f01cfea-stdout", "abc")],
        },
        AMPLE,
        Question::Part(Part::Extracted("out/ba7816bf8f01cfea-stdout")),
        "3: abc",
    ),
    // Parts may be missing, and they may be faulty.
    (
        Bundle {
            format: FORMAT_1_1,
            words: NO_WORDS,
            store_version: STORE_3_0,
            entries: &[("store.zip", "")],
            store: &[("x", "")],
        },
        AMPLE,
        Question::Part(Part::CargoMetadata),
        "the store has no entry meta/cargo-metadata.json",
    ),
    (
        Bundle {
            format: FORMAT_1_1,
            words: NO_WORDS,
            store_version: STORE_3_0,
            entries: &[("store.zip", "")],
            store: &[("x", "")],
        },
        AMPLE,
        Question::Part(Part::BuildScope),
        "the store has no entry meta/build-scope.json",
    ),
    (
        Bundle {
            format: FORMAT_1_1,
            words: NO_WORDS,
            store_version: STORE_3_0,
            entries: &[("store.zip", "")],
            store: &[("x", "")],
        },
        AMPLE,
        Question::Part(Part::RerunInfo),
        "none",
    ),
    (
        Bundle {
            format: FORMAT_1_1,
            words: NO_WORDS,
            store_version: STORE_3_0,
            entries: &[("store.zip", "")],
            store: &[("x", "")],
        },
        AMPLE,
        Question::Part(Part::Output("x-unknown")),
        "the store has no entry out/x-unknown",
    ),
    (
        Bundle {
            format: FORMAT_1_1,
            words: NO_WORDS,
            store_version: STORE_3_0,
            entries: &[("store.zip", "")],
            store: &[("x", "")],
        },
        AMPLE,
        Question::Part(Part::Extracted("y")),
        "the store has no entry y",
    ),
    (
        Bundle {
            format: FORMAT_1_1,
            words: NO_WORDS,
            store_version: STORE_3_0,
            entries: &[("store.zip", "")],
            store: &[("meta/rerun-info.json", "{}")],
        },
        AMPLE,
        Question::Part(Part::RerunInfo),
        "the entry meta/rerun-info.json stands for no item of its kind",
    ),
];

#[test]
fn parts_are_read(rt: HostRuntime) -> Result<(), Fail> {
    check(&rt, rt.alloc(), PARTS)
}

/// What is refused, as it is printed.
const REFUSALS: &[Row] = &[
    (
        Bundle {
            format: FORMAT_1_1,
            words: NO_WORDS,
            store_version: STORE_3_0,
            entries: &[],
            store: &[],
        },
        AMPLE,
        Question::Fault,
        "reading the bundle failed",
    ),
    (
        Bundle {
            format: FORMAT_1_1,
            words: NO_WORDS,
            store_version: STORE_3_2,
            entries: &[],
            store: &[],
        },
        AMPLE,
        Question::Whole,
        "stores of version 3.2 aren't read by version 3.1: minor version 2 is newer than \
        supported version 1",
    ),
    (
        Bundle {
            format: FORMAT_1_1,
            words: NO_WORDS,
            store_version: STORE_2,
            entries: &[],
            store: &[],
        },
        AMPLE,
        Question::Whole,
        "stores of version 2.0 aren't read by version 3.1: recording has major version 2, but \
        this nextest requires version 3\n\
        (recordings from nextest 0.9.149 and earlier are no longer supported; discard this \
        recording and record a new run)",
    ),
    (
        Bundle {
            format: FORMAT_2_0,
            words: NO_WORDS,
            store_version: STORE_3_0,
            entries: &[],
            store: &[],
        },
        AMPLE,
        Question::Whole,
        "bundles of version 2.0 aren't read by version 1.1: major version 2 differs from \
        supported version 1",
    ),
    (
        Bundle {
            format: "",
            words: NO_WORDS,
            store_version: STORE_3_0,
            entries: &[("x.zip", "")],
            store: &[],
        },
        AMPLE,
        Question::Whole,
        "no manifest among 1 files, of which 1 are archives",
    ),
    (
        Bundle {
            format: FORMAT_1_1,
            words: NO_WORDS,
            store_version: STORE_3_0,
            entries: &[("store.zip", "nxtcont1")],
            store: &[],
        },
        AMPLE,
        Question::Part(Part::BuildScope),
        "the archive can't be read: cut off in the field at byte 8",
    ),
    (
        Bundle {
            format: FORMAT_1_1,
            words: NO_WORDS,
            store_version: STORE_3_0,
            entries: &[],
            store: &[],
        },
        457,
        Question::Whole,
        "manifest.json has 458 bytes, and the limit is 457",
    ),
];

#[test]
fn refusals_are_printed(rt: HostRuntime) -> Result<(), Fail> {
    check(&rt, rt.alloc(), REFUSALS)
}

/// What is counted of a bundle that is upgraded, and what is refused.
const UPGRADES: &[Row] = &[
    (
        Bundle {
            format: FORMAT_1_0,
            words: NO_WORDS,
            store_version: STORE_3_0,
            entries: &[("run.log.zst", LINE), ("store.zip", "")],
            store: STORED,
        },
        AMPLE,
        Question::Upgrade(0),
        "1 1 1687 after 1687",
    ),
    (
        Bundle {
            format: FORMAT_1_1,
            words: NO_WORDS,
            store_version: STORE_3_0,
            entries: &[("run.log.zst", LINE), ("store.zip", "")],
            store: STORED,
        },
        AMPLE,
        Question::Upgrade(1),
        "writing the bundle failed after 0",
    ),
    (
        Bundle {
            format: FORMAT_1_1,
            words: NO_WORDS,
            store_version: STORE_3_0,
            entries: &[("run.log.zst", LINE), ("store.zip", "")],
            store: STORED,
        },
        AMPLE,
        Question::Upgrade(2),
        "writing the bundle failed after 8",
    ),
    (
        Bundle {
            format: FORMAT_1_1,
            words: NO_WORDS,
            store_version: STORE_3_0,
            entries: &[("run.log.zst", LINE), ("store.zip", "")],
            store: METADATA,
        },
        AMPLE,
        Question::Upgrade(0),
        "the store has no entry out/ba7816bf8f01cfea-stdout after 0",
    ),
    (
        Bundle {
            format: FORMAT_1_1,
            words: NO_WORDS,
            store_version: STORE_3_0,
            entries: &[("run.log.zst", "x\n"), ("store.zip", "")],
            store: METADATA,
        },
        AMPLE,
        Question::Upgrade(0),
        "line 1 is no event after 0",
    ),
    (
        Bundle {
            format: FORMAT_1_1,
            words: NO_WORDS,
            store_version: STORE_3_0,
            entries: &[("store.zip", ""), ("run.log.zst", LINE)],
            store: STORED,
        },
        AMPLE,
        Question::Upgrade(0),
        "store.zip has no place in what is written after 0",
    ),
    (
        Bundle {
            format: FORMAT_1_1,
            words: NO_WORDS,
            store_version: STORE_3_0,
            entries: &[("run.log.zst", LINE), ("store.zip", ""), ("notes", "")],
            store: METADATA,
        },
        AMPLE,
        Question::Upgrade(0),
        "notes has no place in what is written after 0",
    ),
    (
        Bundle {
            format: FORMAT_1_1,
            words: NO_WORDS,
            store_version: STORE_3_0,
            entries: &[("run.log.zst", LINE), ("store.zip", "")],
            store: STORED,
        },
        589,
        Question::Upgrade(0),
        "run.log.zst has 590 bytes, and the limit is 589 after 0",
    ),
    (
        Bundle {
            format: FORMAT_1_1,
            words: "",
            store_version: STORE_3_0,
            entries: &[("run.log.zst", ""), ("store.zip", "")],
            store: METADATA,
        },
        461,
        Question::Upgrade(0),
        "manifest.json would have 462 bytes, and the limit is 461 after 0",
    ),
];

#[test]
fn upgrades_are_counted(rt: HostRuntime) -> Result<(), Fail> {
    check(&rt, rt.alloc(), UPGRADES)
}
