//! Writes the bundle of a run's directory, and says what is answered.

use rec_disk::Disk;
use rec_format::{PortableManifest, RecordedRunInfo};
use rec_forms::read_text;
use rec_portable_writer::{PortableRecordingError, PortableRecordingWriter};
use std::alloc::{AllocError, Global};
use std::test::Fail;

/// The log of the run, and its store.
pub(crate) const LOG_PATH: &str = "runs/550e8400-e29b-41d4-a716-446655440000/run.log.zst";

pub(crate) const STORE_PATH: &str = "runs/550e8400-e29b-41d4-a716-446655440000/store.zip";

pub(crate) const LOG: &[u8] = b"log\n";

pub(crate) const STORE: &[u8] = b"nxtcont1\0";

/// The bundle of the run's manifest, this log and this store, 546 bytes.
pub(crate) const BUNDLE: &[u8] = b"nxtcont1\
    \x01\x00\x0dmanifest.json\x00\x00\x00\x00\x00\x00\x01\xca{\"format-version\":{\"major\":1,\
    \"minor\":1},\"run\":{\"cli-args\":[],\"env-vars\":{},\"last-written-at\":{\"nanos\":0,\
    \"offset\":0,\"secs\":1011},\"nextest-version\":\"0.9.111\",\
    \"run-id\":\"550e8400-e29b-41d4-a716-446655440000\",\"sizes\":{\"log\":{\"compressed\":1,\
    \"entries\":3,\"uncompressed\":2},\"store\":{\"compressed\":4,\"entries\":6,\
    \"uncompressed\":5}},\"started-at\":{\"nanos\":0,\"offset\":0,\"secs\":1000},\
    \"status\":{\"status\":\"incomplete\"},\"store-format-minor-version\":0,\
    \"store-format-version\":3}}\
    \x01\x00\x0brun.log.zst\x00\x00\x00\x00\x00\x00\x00\x04log\n\
    \x01\x00\x09store.zip\x00\x00\x00\x00\x00\x00\x00\x09nxtcont1\x00\x00";

/// The manifest of the run.
fn manifest_text() -> &'static [u8] {
    b"{\"format-version\":{\"major\":1,\"minor\":1},\
    \"run\":{\"cli-args\":[],\"env-vars\":{},\
    \"last-written-at\":{\"nanos\":0,\"offset\":0,\"secs\":1011},\
    \"nextest-version\":\"0.9.111\",\
    \"run-id\":\"550e8400-e29b-41d4-a716-446655440000\",\
    \"sizes\":{\"log\":{\"compressed\":1,\"entries\":3,\"uncompressed\":2},\
    \"store\":{\"compressed\":4,\"entries\":6,\"uncompressed\":5}},\
    \"started-at\":{\"nanos\":0,\"offset\":0,\"secs\":1000},\
    \"status\":{\"status\":\"incomplete\"},\"store-format-minor-version\":0,\
    \"store-format-version\":3}}"
}

/// What a writer is asked.
#[derive(Clone, Copy)]
pub(crate) enum Asked<'o> {
    /// To write the bundle in this directory.
    Dir(&'o str),
    /// To write it to this path.
    Path(&'o str),
    /// For the default name of the bundle.
    Name,
}

/// What the writer of the run answers, or why it isn't made.
pub(crate) fn answer<D: Disk>(
    alloc: Global,
    disk: &mut D,
    asked: Asked<'_>,
) -> Result<String, Fail> {
    let info = run_info(alloc)?;
    let text = answer_of(alloc, &info, disk, asked);
    drop(info);
    Ok(text?)
}

fn run_info(alloc: Global) -> Result<RecordedRunInfo, Fail> {
    let manifest: PortableManifest = read_text(alloc, manifest_text())?;
    let info = manifest.run_info(alloc);
    drop(manifest);
    Ok(info?)
}

fn answer_of<D: Disk>(
    alloc: Global,
    info: &RecordedRunInfo,
    disk: &mut D,
    asked: Asked<'_>,
) -> Result<String, AllocError> {
    match PortableRecordingWriter::new(alloc, info, disk, runs_dir(asked)) {
        Ok(mut writer) => {
            let text = written(alloc, &mut writer, asked);
            drop(writer);
            text
        }
        Err(error) => refusal(alloc, error),
    }
}

/// The directory of all runs, with and without the `/` at its end.
fn runs_dir(asked: Asked<'_>) -> &'static str {
    match asked {
        Asked::Dir(_) | Asked::Path(_) => "runs",
        Asked::Name => "runs/",
    }
}

/// Where the bundle is, and how many bytes it has, or why it isn't written.
fn written<D: Disk>(
    alloc: Global,
    writer: &mut PortableRecordingWriter<'_, D>,
    asked: Asked<'_>,
) -> Result<String, AllocError> {
    let result = match asked {
        Asked::Dir(dir) => writer.write_to_dir(alloc, dir),
        Asked::Path(path) => writer.write_to_path(alloc, path),
        Asked::Name => return writer.default_filename(alloc),
    };
    match result {
        Ok(result) => {
            let text = format!(in alloc; "{} has {} bytes", result.path.as_str(), result.size);
            drop(result);
            text
        }
        Err(error) => refusal(alloc, error),
    }
}

fn refusal(alloc: Global, error: PortableRecordingError) -> Result<String, AllocError> {
    let text = format!(in alloc; "{error}");
    drop(error);
    text
}
