//! What a disk over the machine's own files answers. Contracts can't say what such a disk holds.

use crate::calls::{Call, answers};
use rec_disk::StdDisk;
use std::alloc::Global;
use std::fs;
use std::process::Abort;
use std::rt::Files;
use std::test::Fail;

/// Adds what calls answer, as a line.
fn ask<R: Files>(rt: &R, alloc: Global, text: &mut String, calls: &[Call<'_>]) -> Result<(), Fail> {
    let mut disk = StdDisk::new(rt);
    text.push_str(answers(alloc, &mut disk, calls)?.as_str())?;
    text.push_str("\n")?;
    Ok(())
}

const MISSED: &[Call<'static>] = &[
    Call::Exists("no/such/file"),
    Call::Len("no/such/file"),
    Call::Read("no/such/file", 0),
    Call::Append("no/such/file", b"x"),
    Call::Rename("no/such/file", "other"),
    Call::Create("no/such/file"),
];

const KEPT: &[Call<'static>] = &[
    Call::Create("kept/log"),
    Call::Append("kept/log", b"one"),
    Call::Append("kept/log", b" two"),
    Call::Len("kept/log"),
    Call::Read("kept/log", 4),
    Call::Read("kept/log", 7),
    Call::Exists("kept/log"),
    Call::Create("kept/log"),
    Call::Len("kept/log"),
];

/// A rename in the place of a file.
const RENAMED: &[Call<'static>] = &[
    Call::Rename("renamed.tmp", "renamed"),
    Call::Exists("renamed.tmp"),
    Call::Read("renamed", 0),
];

/// Calls of a folder, and a rename of a file to it.
const OF_FOLDER: &[Call<'static>] = &[
    Call::Len("folder"),
    Call::Read("folder", 0),
    Call::Append("folder", b"x"),
    Call::Rename("folder", "moved"),
    Call::Create("folder"),
    Call::Exists("folder"),
    Call::Rename("beside", "folder"),
    Call::Exists("beside"),
];

/// Calls of a path below a file.
const BELOW_FILE: &[Call<'static>] = &[
    Call::Len("plain/log"),
    Call::Read("plain/log", 0),
    Call::Append("plain/log", b"x"),
    Call::Rename("plain/log", "moved"),
    Call::Create("plain/log"),
    Call::Exists("plain/log"),
];

/// What is answered of these.
fn found<R: Files>(rt: &R, alloc: Global) -> Result<String, Fail> {
    let mut text = String::new(alloc);
    ask(rt, alloc, &mut text, MISSED)?;
    fs::create_dir(rt, "kept")?;
    ask(rt, alloc, &mut text, KEPT)?;
    fs::write(rt, "renamed.tmp", b"new")?;
    fs::write(rt, "renamed", b"older")?;
    ask(rt, alloc, &mut text, RENAMED)?;
    fs::create_dir(rt, "folder")?;
    fs::write(rt, "beside", b"x")?;
    ask(rt, alloc, &mut text, OF_FOLDER)?;
    fs::write(rt, "plain", b"x")?;
    ask(rt, alloc, &mut text, BELOW_FILE)?;
    ask(rt, alloc, &mut text, &[Call::Append("/dev/full", b"x")])?;
    Ok(text)
}

fn wanted() -> &'static str {
    "false;missing;missing;missing;missing;failed;
done;3;4;7;3 two.;0 ....;true;done;0;
done;false;3 new.;
missing;missing;missing;missing;failed;true;failed;true;
missing;missing;missing;missing;failed;false;
failed;
"
}

#[test]
fn files_are_kept(rt: HostRuntime) -> Result<(), Fail> {
    let found = found(&rt, rt.alloc())?;
    assert!(rt; found.as_str() == wanted(), "{found}");
    Ok(())
}
