//! The store that is made of what a prefix has.
ghost use Rattle.std.specs.List.{AllByRecursion, flat_map};
ghost use Rattle.std.specs.Prelude.{◌≡◌, ◌<◌, [], List, length, map, IfOk, IfSome, OnOk};
ghost use Rattle.rec_container.specs.Container.{AreFrom, content_bytes, content_of};
ghost use Rattle.rec_container.specs.NamedContents.{entry_of};
ghost use Rattle.rec_codec.specs.Event.{RecordedEvent};
ghost use Rattle.rec_store.specs.Kept.{event_paths};
ghost use Rattle.rec_salvage.specs.Gathering.{HasGathered};
ghost use Rattle.rec_salvage.specs.Keeping.{AddsEntries, IsStore, entries_in};
ghost use Rattle.rec_salvage.specs.Salvaged.{prefix_metadata, kept_entries, listed, named_entries};

use crate::gathering::Gathered;
use rec_container::{Container, GrowingSink, NamedContent, container_length, write_container};
use rec_format::{
    BUILD_SCOPE_JSON_PATH, CARGO_METADATA_JSON_PATH, ComponentSizes, RECORD_OPTS_JSON_PATH,
    RERUN_INFO_JSON_PATH, TEST_LIST_JSON_PATH,
};
use std::alloc::{AllocError, Global};
use std::collections::BTreeSet;

/// Holds a store that is made anew, and how many of its entries are outputs.
#[derive(Drop)]
pub(crate) struct KeptStore {
    pub(crate) bytes: Vec<u8>,
    pub(crate) sizes: ComponentSizes,
    pub(crate) outputs: u64,
}

/// Makes a store of a prefix's metadata, in the order of a recording, and of the outputs of what
/// was gathered, in the prefix's order. No content is copied before the store is written.
pub(crate) fn keep_store(
    alloc: Global,
    prefix: &Container<'_>,
    gathered: &Gathered,
) -> Result<KeptStore, AllocError>
    requires { AreFrom [] prefix.now.entries }
    ensures { IfOk result (λ store. (events : List RecordedEvent) → HasGathered events gathered.now
        → IsStore (kept_entries prefix.now.entries events)
        (length (named_entries prefix.now.entries events)) store) }
{
    let mut contents = Vec::new(alloc);
    add_metadata(&mut contents, prefix)?;
    let metadata = contents.len();
    add_named(&mut contents, prefix, &gathered.paths)?;
    let outputs = (contents.len() - metadata) as u64;
    let store = spell_store(alloc, &contents, outputs);
    drop(contents);
    store
}

/// Adds the metadata that there is.
fn add_metadata<'a>(
    contents: &mut Vec<NamedContent<'a>>,
    prefix: &Container<'a>,
) -> Result<(), AllocError>
    ensures { OnOk result
        (AddsEntries contents.old.items contents.new.items (prefix_metadata prefix.now.entries)) }
{
    add_part(contents, prefix, BUILD_SCOPE_JSON_PATH)?;
    add_part(contents, prefix, RERUN_INFO_JSON_PATH)?;
    add_part(contents, prefix, TEST_LIST_JSON_PATH)?;
    add_part(contents, prefix, CARGO_METADATA_JSON_PATH)?;
    add_part(contents, prefix, RECORD_OPTS_JSON_PATH)
}

/// Adds the entry of a path, where there is one.
fn add_part<'a>(
    contents: &mut Vec<NamedContent<'a>>,
    prefix: &Container<'a>,
    name: &'a str,
) -> Result<(), AllocError>
    ensures { OnOk result
        (AddsEntries contents.old.items contents.new.items
        (listed name.now (content_of prefix.now.entries name.now))) }
{
    if let Some(content) = prefix.get(name) {
        contents.push(NamedContent { name, content })?;
    }
    Ok(())
}

/// Adds the entries at these paths.
fn add_named<'a>(
    contents: &mut Vec<NamedContent<'a>>,
    prefix: &Container<'a>,
    paths: &BTreeSet<String>,
) -> Result<(), AllocError>
    ensures { OnOk result
        (AddsEntries contents.old.items contents.new.items
        (entries_in paths.now prefix.now.entries)) }
{
    for i in 0..prefix.len() {
        let name = prefix.name(i);
        if paths.contains(name) {
            let content = prefix.bytes(i);
            contents.push(NamedContent { name, content })?;
        }
    }
    Ok(())
}

/// Writes the container of these contents.
fn spell_store(
    alloc: Global,
    contents: &[NamedContent<'_>],
    outputs: u64,
) -> Result<KeptStore, AllocError>
    requires { AllByRecursion (λ c. length c.name.now < 65536) contents.now }
    ensures { IfOk result (IsStore (map entry_of contents.now) outputs) }
{
    // What is no u64 fits no memory.
    let compressed = container_length(contents).ok_or(AllocError)?;
    let uncompressed = bytes_of_contents(contents).ok_or(AllocError)?;
    let mut store = GrowingSink::with_capacity(alloc, compressed as usize)?;
    // A growing sink fails only for want of memory.
    let Ok(()) = write_container(&mut store, contents) else {
        drop(store);
        return Err(AllocError);
    };
    Ok(KeptStore {
        bytes: store.into_bytes(),
        sizes: ComponentSizes {
            compressed,
            uncompressed,
            entries: contents.len() as u64,
        },
        outputs,
    })
}

/// Returns how many bytes the contents have, or none where that is no u64.
fn bytes_of_contents(contents: &[NamedContent<'_>]) -> Option<u64>
    ensures { IfSome result (λ bytes. bytes ≡ content_bytes (map entry_of contents.now)) }
{
    let mut bytes = 0u64;
    for content in contents {
        bytes = bytes.checked_add(content.content.len() as u64)?;
    }
    Some(bytes)
}
