//! Directories in memory: what is read of them, what they lack,
//! and what is answered where a call of the disk fails.

use crate::asking::{AMPLE, Question, STORE, answers};
use rec_disk::{Disk, DiskError, MemoryDisk};
use std::alloc::Global;
use std::process::Abort;
use std::test::Fail;

/// A directory, what it is asked, and what it answers.
#[derive(Clone, Copy)]
struct Case<'c> {
    /// The paths and the bytes of the disk's files.
    files: &'c [(&'c str, &'c [u8])],
    /// Which calls of the disk fail, from 1.
    fails: &'c [u64],
    /// The most bytes of an entry that is read.
    limit: u64,
    questions: &'c [Question<'c>],
    answers: &'c str,
}

/// Two lines of a log, with a blank one and one that is no event between them.
const LOG: &[u8] = b"{\"elapsed\":{\"nanos\":0,\"secs\":2},\"kind\":\"run-paused\",\"running\":1,\
    \"setup-scripts-running\":0,\"timestamp\":{\"nanos\":0,\"offset\":0,\"secs\":1002}}\n\
    \n\
    no event\n\
    {\"elapsed\":{\"nanos\":0,\"secs\":3},\"kind\":\"run-continued\",\"running\":1,\
    \"setup-scripts-running\":0,\"timestamp\":{\"nanos\":0,\"offset\":0,\"secs\":1003}}\n";

const WHOLE: &[(&str, &[u8])] = &[("r/store.zip", STORE), ("r/run.log.zst", LOG)];

const STORE_ALONE: &[(&str, &[u8])] = &[("r/store.zip", STORE)];

const PARTS: &[Question<'static>] = &[
    Question::CargoMetadata,
    Question::TestList,
    Question::RecordOpts,
    Question::RerunInfo,
    Question::BuildScope,
    Question::Output("ba7816bf8f01cfea-stdout"),
    Question::Output("2cf24dba5fb0a30e-stdout"),
    Question::Output("x-unknown"),
    Question::Extracted("out/2cf24dba5fb0a30e-stdout"),
    Question::Extracted("x"),
];

/// What the parts are. Each default of the build scope is written.
const PARTS_READ: &str = concat!(
    "{}\n",
    "{\"suites\":{}}\n",
    "{\"run-mode\":\"test\"}\n",
    "none\n",
    r#"{"build-kind":"cargo","scope":{"features":{"all-features":false,"features":[],"#,
    r#""no-default-features":false},"packages":{"exclude":[],"specs":[],"workspace":false},"#,
    r#""targets":{"all-targets":false,"benches":{"all":false,"names":[]},"#,
    r#""bins":{"all":false,"names":[]},"examples":{"all":false,"names":[]},"lib":false,"#,
    r#""tests":{"all":false,"names":[]}}}}"#,
    "\n",
    "abc\n",
    "hello\n",
    "the store has no entry out/x-unknown\n",
    "5: hello\n",
    "the store has no entry x\n"
);

const LISTED: &[Question<'static>] = &[Question::RunDir, Question::TestList, Question::Events];

/// The events, before and after them two outputs, of which the second is too long.
const AROUND: &[Question<'static>] = &[
    Question::Output("ba7816bf8f01cfea-stdout"),
    Question::Output("2cf24dba5fb0a30e-stdout"),
    Question::Events,
    Question::Output("ba7816bf8f01cfea-stdout"),
    Question::Output("2cf24dba5fb0a30e-stdout"),
    Question::RunDir,
];

const TWICE: &[Question<'static>] = &[
    Question::CargoMetadata,
    Question::CargoMetadata,
    Question::Events,
    Question::Events,
];

const CASES: &[Case<'static>] = &[
    Case {
        files: STORE_ALONE,
        fails: &[],
        limit: AMPLE,
        questions: PARTS,
        answers: PARTS_READ,
    },
    // What is missing is said.
    Case {
        files: &[("rr/store.zip", STORE)],
        fails: &[],
        limit: AMPLE,
        questions: LISTED,
        answers: "there is no run at r",
    },
    Case {
        files: &[("r/run.log.zst", LOG)],
        fails: &[],
        limit: AMPLE,
        questions: LISTED,
        answers: "r\nthere is no store at r/store.zip\nevent. line 3 is no event. event. \n",
    },
    Case {
        files: STORE_ALONE,
        fails: &[],
        limit: AMPLE,
        questions: LISTED,
        answers: "r\n{\"suites\":{}}\nthere is no event log at r/run.log.zst\n",
    },
    Case {
        files: &[("r/store.zip", b"PK")],
        fails: &[],
        limit: AMPLE,
        questions: &[Question::Output("x-unknown")],
        answers: "the store at r/store.zip is no container: not a container: it doesn't begin \
            with nxtcont1\n",
    },
    // The events leave the reader as it was.
    Case {
        files: WHOLE,
        fails: &[],
        limit: 3,
        questions: AROUND,
        answers: "abc\n\
            the entry out/2cf24dba5fb0a30e-stdout has 5 bytes, and the limit is 3\n\
            event. line 3 is no event. event. \n\
            abc\n\
            the entry out/2cf24dba5fb0a30e-stdout has 5 bytes, and the limit is 3\n\
            r\n",
    },
    Case {
        files: STORE_ALONE,
        fails: &[],
        limit: 3,
        questions: AROUND,
        answers: "abc\n\
            the entry out/2cf24dba5fb0a30e-stdout has 5 bytes, and the limit is 3\n\
            there is no event log at r/run.log.zst\n\
            abc\n\
            the entry out/2cf24dba5fb0a30e-stdout has 5 bytes, and the limit is 3\n\
            r\n",
    },
    // A refused open asks the disk only once, so that the next call is the second.
    Case {
        files: &[("rr/store.zip", b"nxtcont1\0")],
        fails: &[2],
        limit: AMPLE,
        questions: &[],
        answers: "there is no run at r, and the next call fails",
    },
    Case {
        files: &[("rr/store.zip", b"nxtcont1\0")],
        fails: &[1, 2],
        limit: AMPLE,
        questions: &[],
        answers: "the disk failed at r, and the next call fails",
    },
    // Each call may fail.
    Case {
        files: WHOLE,
        fails: &[1],
        limit: AMPLE,
        questions: TWICE,
        answers: "the disk failed at r",
    },
    Case {
        files: WHOLE,
        fails: &[2],
        limit: AMPLE,
        questions: TWICE,
        answers: "the disk failed at r/store.zip\n{}\nevent. line 3 is no event. event. \n\
            event. line 3 is no event. event. \n",
    },
    Case {
        files: WHOLE,
        fails: &[3],
        limit: AMPLE,
        questions: TWICE,
        answers: "the disk failed at r/store.zip\n{}\nevent. line 3 is no event. event. \n\
            event. line 3 is no event. event. \n",
    },
    Case {
        files: WHOLE,
        fails: &[4],
        limit: AMPLE,
        questions: TWICE,
        answers: "{}\n{}\nthe disk failed at r/run.log.zst\nevent. line 3 is no event. event. \n",
    },
    Case {
        files: WHOLE,
        fails: &[5],
        limit: AMPLE,
        questions: TWICE,
        answers: "{}\n{}\nthe disk failed at r/run.log.zst. \nevent. line 3 is no event. event. \n",
    },
    Case {
        files: WHOLE,
        fails: &[6],
        limit: AMPLE,
        questions: TWICE,
        answers: "{}\n{}\nevent. line 3 is no event. event. \nthe disk failed at r/run.log.zst\n",
    },
    Case {
        files: WHOLE,
        fails: &[7],
        limit: AMPLE,
        questions: TWICE,
        answers: "{}\n{}\nevent. line 3 is no event. event. \nthe disk failed at r/run.log.zst. \n",
    },
    // The eighth call is the next one.
    Case {
        files: WHOLE,
        fails: &[8],
        limit: AMPLE,
        questions: TWICE,
        answers: "{}\n{}\nevent. line 3 is no event. event. \n\
            event. line 3 is no event. event. \n, and the next call fails",
    },
];

/// What the directory of a case answers, and whether the next call of its disk fails.
fn found(alloc: Global, case: &Case<'_>) -> Result<String, Fail> {
    let mut disk = MemoryDisk::new(alloc, case.fails.to_vec(alloc)?);
    for (path, bytes) in case.files {
        disk.put(path, bytes)?;
    }
    let mut text = answers(alloc, &mut disk, case.limit, case.questions)?;
    if matches!(disk.exists("r"), Err(DiskError::DiskFailed)) {
        text.push_str(", and the next call fails")?;
    }
    Ok(text)
}

#[test]
fn directories_answer_what_they_should(rt: HostRuntime) -> Result<(), Fail> {
    for case in CASES {
        let found = found(rt.alloc(), case)?;
        assert!(rt;
            found.as_str() == case.answers,
            "{found}, and not {}",
            case.answers
        );
    }
    Ok(())
}
