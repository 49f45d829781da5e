//! Directories of runs in the machine's own files.

use crate::asking::{AMPLE, Question, STORE, answers};
use rec_disk::StdDisk;
use std::alloc::Global;
use std::fs;
use std::process::Abort;
use std::rt::Files;
use std::test::Fail;

/// Adds what the directory `r` answers.
fn ask<R: Files>(
    rt: &R,
    alloc: Global,
    text: &mut String,
    question: Question<'_>,
) -> Result<(), Fail> {
    let mut disk = StdDisk::new(rt);
    let answer = answers(alloc, &mut disk, AMPLE, &[question])?;
    text.push_str(answer.as_str().trim_end())?;
    text.push_str("\n")?;
    Ok(())
}

/// What a directory answers that isn't there, that is empty, whose log is a folder,
/// and that has a store.
fn found<R: Files>(rt: &R, alloc: Global) -> Result<String, Fail> {
    let mut text = String::new(alloc);
    ask(rt, alloc, &mut text, Question::Events)?;
    fs::create_dir(rt, "r")?;
    ask(rt, alloc, &mut text, Question::Events)?;
    fs::create_dir(rt, "r/run.log.zst")?;
    ask(rt, alloc, &mut text, Question::Events)?;
    ask(rt, alloc, &mut text, Question::TestList)?;
    fs::write(rt, "r/store.zip", STORE)?;
    ask(rt, alloc, &mut text, Question::TestList)?;
    ask(
        rt,
        alloc,
        &mut text,
        Question::Output("ba7816bf8f01cfea-stdout"),
    )?;
    Ok(text)
}

fn wanted() -> &'static str {
    "there is no run at r
there is no event log at r/run.log.zst
there is no event log at r/run.log.zst
there is no store at r/store.zip
{\"suites\":{}}
abc
"
}

#[test]
fn a_directory_is_read(rt: HostRuntime) -> Result<(), Fail> {
    let found = found(&rt, rt.alloc())?;
    assert!(rt; found.as_str() == wanted(), "{found}");
    Ok(())
}
