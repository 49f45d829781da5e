//! A run's directory, as a recording leaves it.

use crate::texts::{log, manifest, scope};
use rec_container::{ContainerWriteError, ContainerWriter, GrowingSink};
use rec_disk::MemoryDisk;
use std::alloc::{AllocError, Global};
use std::test::Fail;

/// How many bytes at its start are left of a file; or it is missing.
#[derive(Clone, Copy)]
pub enum Left {
    All,
    AllBut(usize),
    Missing,
}

/// What is left of a run's directory.
#[derive(Clone, Copy)]
pub struct Directory {
    pub manifest: Left,
    pub store: Left,
    pub log: Left,
}

/// A store of the metadata that each run has, and of an output that no event names.
fn stored(alloc: Global) -> Result<Vec<u8>, Fail> {
    let mut writer = ContainerWriter::new(alloc, GrowingSink::new(alloc));
    let added = add_all(&mut writer);
    let end = writer.finish();
    added?;
    end.result?;
    Ok(end.sink.into_bytes())
}

fn add_all(writer: &mut ContainerWriter<GrowingSink>) -> Result<(), ContainerWriteError> {
    writer.add("meta/build-scope.json", scope().as_bytes())?;
    writer.add("meta/test-list.json", br#"{"suites":{}}"#)?;
    writer.add("meta/cargo-metadata.json", b"{}")?;
    writer.add("meta/record-opts.json", br#"{"run-mode":"test"}"#)?;
    writer.add("out/ba7816bf8f01cfea-stdout", b"abc")
}

/// Puts what is left of a file on a disk.
fn put_left(disk: &mut MemoryDisk, path: &str, bytes: &[u8], left: Left) -> Result<(), AllocError> {
    match left {
        Left::All => disk.put(path, bytes),
        Left::AllBut(count) => disk.put(path, &bytes[..bytes.len().saturating_sub(count)]),
        Left::Missing => Ok(()),
    }
}

/// Puts what is left of a run on a disk, beside a file where its bundle goes.
pub fn put_run(alloc: Global, disk: &mut MemoryDisk, directory: &Directory) -> Result<(), Fail> {
    let store = stored(alloc)?;
    let put = put_left(disk, "r/store.zip", &store, directory.store);
    drop(store);
    put?;
    put_left(
        disk,
        "r/manifest.json",
        manifest().as_bytes(),
        directory.manifest,
    )?;
    put_left(disk, "r/run.log.zst", log().as_bytes(), directory.log)?;
    disk.put("b.zip", b"before")?;
    Ok(())
}
