//! Makes bundles.

use crate::texts::{after_versions, before_versions};
use rec_container::{ContainerWriter, GrowingSink};
use std::alloc::{AllocError, Global};
use std::test::Fail;

/// A bundle by its manifest, its other entries and its store.
#[derive(Clone, Copy)]
pub(crate) struct Bundle<'b> {
    /// The version of its format, or nothing where it has no manifest.
    pub(crate) format: &'b str,
    /// The words and the variables of the run.
    pub(crate) words: &'b str,
    /// The version of the store.
    pub(crate) store_version: &'b str,
    /// The entries after the manifest.
    pub(crate) entries: &'b [(&'b str, &'b str)],
    /// The entries of the store, which stand in the place of its content, or none.
    pub(crate) store: &'b [(&'b str, &'b str)],
}

/// The bytes of a bundle.
pub(crate) fn bytes_of(alloc: Global, bundle: &Bundle<'_>) -> Result<Vec<u8>, Fail> {
    let manifest = manifest(alloc, bundle)?;
    let store = store(alloc, bundle.store)?;
    let mut writer = ContainerWriter::new(alloc, GrowingSink::new(alloc));
    if !bundle.format.is_empty() {
        writer.add("manifest.json", manifest.as_bytes())?;
    }
    for (name, content) in bundle.entries {
        let is_store = *name == "store.zip" && !bundle.store.is_empty();
        writer.add(name, if is_store { &store } else { content.as_bytes() })?;
    }
    Ok(writer.finish().sink.into_bytes())
}

fn manifest(alloc: Global, bundle: &Bundle<'_>) -> Result<String, AllocError> {
    let mut text = String::from_str(alloc, "{\"format-version\":")?;
    text.push_str(bundle.format)?;
    text.push_str(",\"run\":{")?;
    text.push_str(bundle.words)?;
    text.push_str(before_versions())?;
    text.push_str(bundle.store_version)?;
    text.push_str(after_versions())?;
    Ok(text)
}

fn store(alloc: Global, entries: &[(&str, &str)]) -> Result<Vec<u8>, Fail> {
    let mut writer = ContainerWriter::new(alloc, GrowingSink::new(alloc));
    for (name, content) in entries {
        writer.add(name, content.as_bytes())?;
    }
    Ok(writer.finish().sink.into_bytes())
}
