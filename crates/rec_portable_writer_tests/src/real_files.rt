//! Bundles that are made of a run's directory in the machine's own files.

use crate::writing::{Asked, BUNDLE, LOG, LOG_PATH, STORE, STORE_PATH, answer};
use rec_disk::StdDisk;
use std::alloc::Global;
use std::fs;
use std::process::Abort;
use std::rt::Files;
use std::test::Fail;

const PATH: &str = "out/nextest-run-550e8400-e29b-41d4-a716-446655440000.zip";

/// Makes the directory of the run, and folders beside it.
fn make_run<R: Files>(rt: &R) -> Result<(), Fail> {
    fs::create_dir_all(rt, "runs/550e8400-e29b-41d4-a716-446655440000")?;
    fs::write(rt, LOG_PATH, LOG)?;
    fs::write(rt, STORE_PATH, STORE)?;
    fs::create_dir(rt, "out")?;
    fs::write(rt, PATH, b"older")?;
    fs::create_dir(rt, "taken")?;
    Ok(())
}

/// Adds what the writer answers, as a line.
fn ask<R: Files>(rt: &R, alloc: Global, text: &mut String, asked: Asked<'_>) -> Result<(), Fail> {
    let mut disk = StdDisk::new(rt);
    text.push_str(answer(alloc, &mut disk, asked)?.as_str())?;
    text.push_str("\n")?;
    Ok(())
}

/// What is answered of a file that is there, of a folder, and of a path below none; and whether
/// nothing stands beside the first then, and the folder is there.
fn found<R: Files>(rt: &R, alloc: Global) -> Result<String, Fail> {
    make_run(rt)?;
    let mut text = String::new(alloc);
    ask(rt, alloc, &mut text, Asked::Dir("out"))?;
    ask(rt, alloc, &mut text, Asked::Path("taken"))?;
    ask(rt, alloc, &mut text, Asked::Path("missing/b"))?;
    let is_alone = fs::metadata(
        rt,
        "out/nextest-run-550e8400-e29b-41d4-a716-446655440000.zip.tmp",
    )
    .is_err();
    let is_folder = fs::metadata(rt, "taken")?.is_dir();
    write!(text, "{is_alone} {is_folder}")?;
    Ok(text)
}

fn wanted() -> &'static str {
    "out/nextest-run-550e8400-e29b-41d4-a716-446655440000.zip has 546 bytes
writing the bundle taken failed
writing the bundle missing/b failed
true true"
}

#[test]
fn a_bundle_stands_in_a_folder_and_replaces_none(rt: HostRuntime) -> Result<(), Fail> {
    let found = found(&rt, rt.alloc())?;
    assert!(rt; found.as_str() == wanted(), "{found}");
    assert!(rt; fs::read(&rt, PATH)?.as_slice() == BUNDLE);
    Ok(())
}
