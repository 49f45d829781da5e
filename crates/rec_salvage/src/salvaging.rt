//! What is left of a recording that was stopped, as a bundle.
ghost use Rattle.std.specs.Prelude.{◌≡◌, ℕ, List, [], IfOk, IfErr, Err, MatchResult, false};
ghost use Rattle.rec_container.specs.Container.{AreFrom, Entry};
ghost use Rattle.rec_container.specs.Reading.{has_magic};
ghost use Rattle.rec_container.specs.WholePrefixes.{IsWholePrefix};
ghost use Rattle.rec_format.specs.RunForms.{IsManifest};
ghost use Rattle.rec_format.specs.Runs.{manifest_of};
ghost use Rattle.rec_codec.specs.Event.{LiveEvent};
ghost use Rattle.rec_store.specs.Ending.{sizes_of_log};
ghost use Rattle.rec_store.specs.Saved.{IsStopped};
ghost use Rattle.rec_salvage.specs.declared.errors.SalvageError.TheVariants.{BadMagic, OutOfMemory};
ghost use Rattle.rec_salvage.specs.Refusals.{IsRefusal, IsRefused, prefix_refusal};
ghost use Rattle.rec_salvage.specs.Salvages.{IsBundle, IsMade, Restores, Salvages};

use crate::errors::SalvageError;
use crate::gathering::take_lines;
use crate::metadata::check_metadata;
use crate::store::keep_store;
use rec_container::{Container, FrontError};
use rec_events::Items;
use rec_format::{ComponentSizes, PortableManifest, RecordedRunInfo, RecordedSizes};
use rec_forms::Held;
use rec_portable::bundle_text;
use std::alloc::{AllocError, Global};

/// Holds what was salvaged of a recording.
#[derive(Drop)]
pub struct Salvaged {
    /// The bundle.
    pub bundle: Items<u8>,
    /// How many events its log has.
    pub events: u64,
    /// How many outputs its store has.
    pub outputs: u64,
}

/// Makes the bundle of what is left of a recording that was stopped at any moment: of its log, and
/// of its store, which may both be cut off.
///
/// The log's longest prefix of sound lines is kept as it stands. A line is sound where it ends in
/// LF, is UTF-8, and is blank or an event whose outputs all stand whole in the store. The store
/// that is made has the metadata, byte for byte, and the outputs that these events name. The
/// manifest is that of `run` but for the sizes. Nothing that a recorder has accepted before it was
/// stopped is lost. `docs/FORMATS.md#a-log-and-a-store-that-are-cut-off` has these rules.
///
/// # Errors
///
/// - `BadMagic` exactly where the store doesn't begin with `nxtcont1`.
/// - `MissingMeta` and `BadMeta` exactly where build scope, rerun information, test list, cargo's
///   metadata or record options, which are judged in this order, isn't there whole, or stands for
///   nothing. Rerun information may be missing.
/// - `OutOfMemory` if memory runs out.
pub fn salvage(
    alloc: Global,
    run: &RecordedRunInfo,
    log: &[u8],
    store: &[u8],
) -> Result<Salvaged, SalvageError>
    ensures ok { IfOk result (Salvages run.now log.now store.now) }
    ensures err { IfErr result (IsRefused store.now) }
    ensures magic { has_magic store.now ≡ false → result ≡ Err BadMagic }
    ensures only { (es : List Entry)
        → IsWholePrefix store.now es
        → IfErr result (IsRefusal (prefix_refusal es)) }
    // Nothing that a recorder accepted is lost, whenever it was stopped.
    ensures stopped { (number : List ℕ → ℕ) (m : ℕ) (events : List LiveEvent)
        → IsStopped number m events log.now store.now
        → MatchResult result (Restores m events) (λ e. e ≡ OutOfMemory) }
{
    salvage_store(alloc, run, log, store)
}

/// Makes the bundle of what is left, or says what the store lacks.
fn salvage_store(
    alloc: Global,
    run: &RecordedRunInfo,
    log: &[u8],
    store: &[u8],
) -> Result<Salvaged, SalvageError>
    ensures ok { IfOk result (Salvages run.now log.now store.now) }
    ensures err { IfErr result (IsRefused store.now) }
    ensures magic { has_magic store.now ≡ false → result ≡ Err BadMagic }
{
    let prefix = read_prefix(alloc, store)?;
    if let Err(refusal) = check_metadata(alloc, &prefix) {
        drop(prefix);
        return Err(refusal);
    }
    let kept = keep(alloc, run, log, &prefix);
    drop(prefix);
    Ok(kept?)
}

/// Reads the whole prefix of a store.
fn read_prefix<'a>(alloc: Global, store: &'a [u8]) -> Result<Container<'a>, SalvageError>
    ensures ok { IfOk result (λ prefix. IsWholePrefix store.now prefix.entries) }
    ensures err { IfErr result (IsRefused store.now) }
    ensures magic { has_magic store.now ≡ false → result ≡ Err BadMagic }
{
    match Container::parse_front(alloc, store) {
        Ok(prefix) => Ok(prefix),
        Err(FrontError::BadMagic) => Err(SalvageError::BadMagic),
        Err(FrontError::OutOfMemory) => Err(SalvageError::OutOfMemory),
    }
}

/// Makes the bundle of what is kept.
fn keep(
    alloc: Global,
    run: &RecordedRunInfo,
    log: &[u8],
    prefix: &Container<'_>,
) -> Result<Salvaged, AllocError>
    requires { AreFrom [] prefix.now.entries }
    ensures { IfOk result (IsMade run.now log.now prefix.now.entries) }
{
    let (length, gathered) = take_lines(alloc, prefix, log)?;
    let events = gathered.events;
    let store = keep_store(alloc, prefix, &gathered);
    // By calls: in place, what goes would be a case of the proof at each exit.
    drop(gathered);
    let store = store?;
    let outputs = store.outputs;
    let sizes = RecordedSizes {
        log: log_sizes(length as u64, events),
        store: store.sizes,
    };
    let bundle = make_bundle(alloc, run, sizes, &log[..length], &store.bytes);
    drop(store);
    Ok(Salvaged {
        bundle: bundle?,
        events,
        outputs,
    })
}

/// Makes the bundle of a run with these sizes.
fn make_bundle(
    alloc: Global,
    run: &RecordedRunInfo,
    sizes: RecordedSizes,
    log: &[u8],
    store: &[u8],
) -> Result<Items<u8>, AllocError>
    ensures { IfOk result (IsBundle (record run.now { sizes = sizes }) log.now store.now) }
{
    let manifest = manifest_with(alloc, run, sizes)?;
    let bundle = bundle_text(alloc, &manifest, log, store);
    manifest.discard();
    Ok(Items::new(bundle?))
}

/// Returns the sizes of a log.
fn log_sizes(bytes: u64, events: u64) -> ComponentSizes
    ensures { result ≡ sizes_of_log bytes events }
{
    ComponentSizes {
        compressed: bytes,
        uncompressed: bytes,
        entries: events,
    }
}

/// Makes the manifest of a run with these sizes.
fn manifest_with(
    alloc: Global,
    run: &RecordedRunInfo,
    sizes: RecordedSizes,
) -> Result<PortableManifest, AllocError>
    ensures is { IfOk result
        (λ manifest. manifest ≡ manifest_of (record run.now { sizes = sizes })) }
    ensures well { IfOk result IsManifest }
{
    let mut manifest = PortableManifest::new(alloc, run)?;
    manifest.run.sizes = sizes.into();
    manifest.held();
    Ok(manifest)
}
