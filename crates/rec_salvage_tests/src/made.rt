//! The run of which is salvaged, and a store of it.

use crate::texts::{manifest, scope};
use rec_container::{ContainerWriteError, ContainerWriter, GrowingSink};
use rec_format::{PortableManifest, RecordedRunInfo};
use rec_forms::read_text;
use std::alloc::Global;
use std::test::Fail;

/// The run of the manifest.
pub(crate) fn run(alloc: Global) -> Result<RecordedRunInfo, Fail> {
    let manifest: PortableManifest = read_text(alloc, manifest().as_bytes())?;
    let run = manifest.run_info(alloc);
    drop(manifest);
    Ok(run?)
}

/// A store of the metadata that each run has, of two outputs, and of an entry of another kind.
pub(crate) fn stored(alloc: Global) -> Result<Vec<u8>, Fail> {
    let mut writer = ContainerWriter::new(alloc, GrowingSink::new(alloc));
    let added = add_all(&mut writer);
    let end = writer.finish();
    added?;
    end.result?;
    Ok(end.sink.into_bytes())
}

fn add_all(writer: &mut ContainerWriter<GrowingSink>) -> Result<(), ContainerWriteError> {
    writer.add("out/ba7816bf8f01cfea-stdout", b"abc")?;
    writer.add("meta/record-opts.json", br#"{"run-mode":"test"}"#)?;
    writer.add("meta/build-scope.json", scope().as_bytes())?;
    writer.add("notes", b"n")?;
    writer.add("meta/test-list.json", br#"{"suites":{}}"#)?;
    writer.add("meta/cargo-metadata.json", b"{}")?;
    writer.add("out/2cf24dba5fb0a30e-stdout", b"hello")
}
