//! The bundle of a run: the container of its manifest, its log and its store.
//!
//! The three contents are at hand, so neither memory nor a map is used, and none of them is copied.
ghost use Rattle.std.specs.Io.KnownBytes.{Appends};
ghost use Rattle.std.specs.List.{AllByRecursion};
ghost use Rattle.std.specs.Option.{SomeIff};
ghost use Rattle.std.specs.Prelude.{◌≡◌, ◌<◌, ◌^◌, ◌∷◌, [], length, map, OnOk, OnErr};
ghost use Rattle.rec_container.specs.Causes.{HasCause};
ghost use Rattle.rec_container.specs.Container.{spell};
ghost use Rattle.rec_container.specs.NamedContents.{entry_of};
ghost use Rattle.rec_container.specs.Taking.{TookPart};
ghost use Rattle.rec_container.specs.Writing.{entry_named};
ghost use Rattle.rec_store.specs.Entries.{bundle_entries, log_name, manifest_name};

use rec_container::{
    ContainerWriter, NamedContent, Sink, SinkFailed, container_length, nested_length,
    write_container, write_nested,
};
use rec_format::{PORTABLE_MANIFEST_FILE_NAME, RUN_LOG_FILE_NAME, STORE_ZIP_FILE_NAME};

/// Writes the bundle of a manifest, a log and a store.
///
/// # Errors
///
/// `SinkFailed` comes where the sink fails. It took a proper prefix of the bundle.
pub fn write_bundle<K: Sink>(
    sink: &mut K,
    manifest: &[u8],
    log: &[u8],
    store: &[u8],
) -> Result<(), SinkFailed>
    ensures ok { OnOk result
        (Appends (K.taken sink.old) (K.taken sink.new)
        (spell (bundle_entries manifest.now log.now store.now))) }
    ensures fault { OnErr result
        (TookPart (K.taken sink.old) (K.taken sink.new)
        (spell (bundle_entries manifest.now log.now store.now))) }
    ensures cause { HasCause (K.faults sink.old) (K.faults sink.new) result }
{
    let contents = bundle_contents(manifest, log, store);
    write_container(sink, &contents)
}

/// Returns the length in bytes of the bundle of a manifest, a log and a store, or none where that
/// is no u64.
pub fn bundle_length(manifest: &[u8], log: &[u8], store: &[u8]) -> Option<u64>
    ensures { SomeIff result
        (length (spell (bundle_entries manifest.now log.now store.now)) < 2 ^ 64)
        (length (spell (bundle_entries manifest.now log.now store.now))) }
{
    let contents = bundle_contents(manifest, log, store);
    container_length(&contents)
}

/// Writes the bundle of a manifest, a log, and a store that has a writer's entries.
///
/// # Errors
///
/// Those of [`write_bundle`].
pub fn write_recorded_bundle<B: Sink, K: Sink>(
    sink: &mut B,
    manifest: &[u8],
    log: &[u8],
    store: &ContainerWriter<K>,
) -> Result<(), SinkFailed>
    ensures ok { OnOk result
        (Appends (B.taken sink.old) (B.taken sink.new)
        (spell (bundle_entries manifest.now log.now (spell store.now.entries)))) }
    ensures fault { OnErr result
        (TookPart (B.taken sink.old) (B.taken sink.new)
        (spell (bundle_entries manifest.now log.now (spell store.now.entries)))) }
    ensures cause { HasCause (B.faults sink.old) (B.faults sink.new) result }
{
    let contents = outer_contents(manifest, log);
    write_nested(sink, &contents, STORE_ZIP_FILE_NAME, store)
}

/// Returns the length in bytes of the bundle that [`write_recorded_bundle`] writes, or none where
/// that is no u64.
pub fn recorded_bundle_length<K: Sink>(
    manifest: &[u8],
    log: &[u8],
    store: &ContainerWriter<K>,
) -> Option<u64>
    ensures { SomeIff result
        (length (spell (bundle_entries manifest.now log.now (spell store.now.entries))) < 2 ^ 64)
        (length (spell (bundle_entries manifest.now log.now (spell store.now.entries)))) }
{
    let contents = outer_contents(manifest, log);
    nested_length(&contents, STORE_ZIP_FILE_NAME, store)
}

/// Returns what stands before the store of a bundle.
fn outer_contents<'a>(manifest: &'a [u8], log: &'a [u8]) -> [NamedContent<'a>; 2]
    ensures entries { map entry_of result
        ≡ entry_named manifest_name manifest.now ∷ entry_named log_name log.now ∷ [] }
    ensures names { AllByRecursion (λ c. length c.name.now < 65536) result }
{
    [
        NamedContent {
            name: PORTABLE_MANIFEST_FILE_NAME,
            content: manifest,
        },
        NamedContent {
            name: RUN_LOG_FILE_NAME,
            content: log,
        },
    ]
}

/// Returns the contents of a bundle, in their order.
fn bundle_contents<'a>(manifest: &'a [u8], log: &'a [u8], store: &'a [u8]) -> [NamedContent<'a>; 3]
    ensures entries { map entry_of result ≡ bundle_entries manifest.now log.now store.now }
    ensures names { AllByRecursion (λ c. length c.name.now < 65536) result }
{
    [
        NamedContent {
            name: PORTABLE_MANIFEST_FILE_NAME,
            content: manifest,
        },
        NamedContent {
            name: RUN_LOG_FILE_NAME,
            content: log,
        },
        NamedContent {
            name: STORE_ZIP_FILE_NAME,
            content: store,
        },
    ]
}
