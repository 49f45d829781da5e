//! The store of a run, written anew.
ghost use Rattle.std.specs.List.{AllByRecursion};
ghost use Rattle.std.specs.Option.{SomeIff};
ghost use Rattle.std.specs.Prelude.{◌≡◌, ◌⊎◌, ◌<◌, ◌^◌, ◌++◌, ◌∷◌, [], length};
ghost use Rattle.std.specs.Prelude.{map, IfOk, IfErr, OnOk, if◌then◌else◌};
ghost use Rattle.rec_container.specs.Container.{content_bytes};
ghost use Rattle.rec_container.specs.NamedContents.{container_of, entry_of};
ghost use Rattle.rec_container.specs.Writing.{entry_named};
ghost use Rattle.rec_store.specs.Ending.{sizes_of_store};
ghost use Rattle.rec_store.specs.RunParts.{is_metadata as is_metadata_path};
ghost use Rattle.rec_portable.specs.declared.upgrade_error.UpgradeError.TheVariants.{
  CountOutOfRange,
  OutOfMemory,
};
ghost use Rattle.rec_portable.specs.Rewriting.{other_entries, text_entries};

use crate::upgrade_error::UpgradeError;
use crate::upgrading::metadata::MetadataTexts;
use crate::upgrading::names::is_metadata;
use rec_container::{Container, GrowingSink, NamedContent, container_length, write_container};
use rec_store::ComponentSizes;
use std::alloc::{AllocError, Global};

/// Lends what a store is written of: the texts of its metadata, and then its outputs, which are
/// windows of the bytes that were read.
pub(crate) fn store_contents<'a>(
    alloc: Global,
    metadata: &'a MetadataTexts,
    entries: &'a Container<'_>,
) -> Result<Vec<NamedContent<'a>>, AllocError>
    ensures { IfOk result
        (λ cs. map entry_of cs.items
        ≡ text_entries metadata.now ++ other_entries entries.now.entries) }
{
    let mut contents = metadata.contents(alloc)?;
    for i in 0..entries.len() {
        add_output(&mut contents, entries.name(i), entries.bytes(i))?;
    }
    Ok(contents)
}

/// Adds an entry, unless it is metadata.
fn add_output<'a>(
    contents: &mut Vec<NamedContent<'a>>,
    name: &'a str,
    content: &'a [u8],
) -> Result<(), AllocError>
    ensures { OnOk result (map entry_of contents.new.items
        ≡ map entry_of contents.old.items
        ++ (if is_metadata_path name.now then [] else entry_named name.now content.now ∷ [])) }
{
    if is_metadata(name) {
        return Ok(());
    }
    contents.push(NamedContent { name, content })?;
    Ok(())
}

/// Holds the bytes of a store, and its sizes.
#[derive(Drop)]
pub(crate) struct SpelledStore {
    pub(crate) bytes: Vec<u8>,
    pub(crate) sizes: ComponentSizes,
}

/// Writes a store into memory, each content once.
pub(crate) fn spell_store(
    alloc: Global,
    contents: &[NamedContent<'_>],
) -> Result<SpelledStore, UpgradeError>
    requires names { AllByRecursion (λ c. length c.name.now < 65536) contents.now }
    ensures ok { IfOk result
        (λ s. (s.bytes.items ≡ container_of contents.now)
        × (s.sizes ≡ sizes_of_store (map entry_of contents.now))) }
    ensures err { IfErr result
        (λ e. (e ≡ OutOfMemory)
        ⊎ ((e ≡ CountOutOfRange) × ¬ (length (container_of contents.now) < 2 ^ 64))) }
{
    let Some(compressed) = container_length(contents) else {
        return Err(UpgradeError::CountOutOfRange);
    };
    let Some(uncompressed) = contents_length(contents) else {
        return Err(UpgradeError::CountOutOfRange);
    };
    let mut sink = GrowingSink::with_capacity(alloc, compressed as usize)?;
    // The write fails only where the sink does, and a growing sink only for want of memory.
    let Ok(()) = write_container(&mut sink, contents) else {
        drop(sink);
        return Err(UpgradeError::OutOfMemory);
    };
    Ok(SpelledStore {
        bytes: sink.into_bytes(),
        sizes: ComponentSizes {
            compressed,
            uncompressed,
            entries: contents.len() as u64,
        },
    })
}

/// Returns how many bytes the contents have, or none where that is no u64.
fn contents_length(contents: &[NamedContent<'_>]) -> Option<u64>
    ensures { SomeIff result (content_bytes (map entry_of contents.now) < 2 ^ 64)
        (content_bytes (map entry_of contents.now)) }
{
    let mut length = 0u64;
    for content in contents {
        length = length.checked_add(content.content.len() as u64)?;
    }
    Some(length)
}
