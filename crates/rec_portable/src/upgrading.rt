//! A bundle that is written anew, in memory.
ghost use Rattle.std.specs.List.{AllByRecursion};
ghost use Rattle.std.specs.Prelude.{◌≡◌, ◌⊎◌, ◌<◌, List, [], Ok, Err};
ghost use Rattle.std.specs.Prelude.{Some, None, IfOk, IfErr, length, map};
ghost use Rattle.rec_container.specs.Container.{AreFrom, Entry, IsContainer};
ghost use Rattle.rec_container.specs.NamedContents.{entry_of};
ghost use Rattle.rec_store.specs.RunParts.{RunParts};
ghost use Rattle.rec_portable.specs.declared.upgrade_error.UpgradeError.TheVariants.{OutOfMemory};
ghost use Rattle.rec_portable.specs.Rewriting.{IsMadeOf, IsRewritten, Judges, settled_text};
ghost use Rattle.rec_portable.specs.Upgrading.{IsAccepted, IsRefused, names_judged};
ghost use Rattle.rec_portable.specs.Upgrading.{run_judged, written_refusal};

mod log;
mod metadata;
mod names;
mod outputs;
mod parts;
mod sizes;
mod store;

use crate::recording::PortableRecording;
use crate::run_log::PortableRecordingRunLog;
use crate::upgrade_error::UpgradeError;
use crate::upgrades::Upgraded;
use names::{judge_names, judge_store_names};
use parts::{RewrittenRun, rewrite_parts};
use rec_container::{Container, NamedContent};
use rec_format::{PortableManifest, RecordedSizes, STORE_FORMAT_VERSION};
use rec_store::{ComponentSizes, bundle_length, write_manifest};
use sizes::judge_sizes;
use std::alloc::{AllocError, Global};
use store::{spell_store, store_contents};

/// Holds the three contents of a bundle that is written anew, and what is counted of them.
#[derive(Drop)]
pub(crate) struct Rewritten {
    pub(crate) manifest: Vec<u8>,
    pub(crate) log: Vec<u8>,
    pub(crate) store: Vec<u8>,
    pub(crate) upgraded: Upgraded,
}

/// Judges a bundle that is open, and writes it anew in memory.
pub(crate) fn rewrite(
    alloc: Global,
    recording: &PortableRecording,
) -> Result<Rewritten, UpgradeError>
    ensures ok { IfOk result
        (λ r. (p : RunParts) × IsAccepted recording.now.bytes recording.now.limit p
        × IsRewritten p r) }
    ensures err { IfErr result
        (λ e. (e ≡ OutOfMemory) ⊎ IsRefused recording.now.bytes recording.now.limit e) }
{
    let manifest = recording.manifest();
    let log = recording.read_run_log(alloc)?;
    let store = recording.open_store(alloc)?;
    if let Err(refusal) = judge_outer(alloc, recording) {
        drop(store);
        return Err(refusal);
    }
    let written = rewrite_run(alloc, recording.limit(), manifest, &log, store.entries());
    drop(store);
    written
}

/// Judges the names of the entries of a bundle that is open.
fn judge_outer(alloc: Global, recording: &PortableRecording) -> Result<(), UpgradeError>
    ensures { (es : List Entry)
        → IsContainer recording.now.bytes es
        → Judges (names_judged es) result }
{
    let outer = recording.outer_entries(alloc)?;
    let judged = judge_names(alloc, &outer);
    drop(outer);
    judged
}

/// Judges a run with this manifest, log and store, and writes it anew.
fn rewrite_run(
    alloc: Global,
    limit: u64,
    manifest: &PortableManifest,
    log: &PortableRecordingRunLog<'_>,
    entries: &Container<'_>,
) -> Result<Rewritten, UpgradeError>
    requires { AreFrom [] entries.now.entries }
    ensures ok { IfOk result
        (λ r. (p : RunParts) × (run_judged limit manifest.now log.now entries.now.entries ≡ Ok p)
        × IsRewritten p r) }
    ensures err { IfErr result
        (λ e. (e ≡ OutOfMemory)
        ⊎ (run_judged limit manifest.now log.now entries.now.entries ≡ Err e)) }
{
    let run = rewrite_parts(alloc, limit, log, entries)?;
    if let Err(refusal) = judge_store_names(alloc, &run.paths, entries) {
        drop(run);
        return Err(refusal);
    }
    let RewrittenRun {
        metadata,
        log,
        events,
        paths,
    } = run;
    // The set goes before the store takes memory.
    drop(paths);
    let Ok(contents) = store_contents(alloc, &metadata, entries) else {
        drop(log);
        drop(metadata);
        return Err(UpgradeError::OutOfMemory);
    };
    let outputs = (contents.len() - metadata.count()) as u64;
    let texts = RunTexts {
        log,
        events,
        outputs,
    };
    let written = write_anew(alloc, limit, manifest, texts, &contents);
    drop(contents);
    drop(metadata);
    written
}

/// Holds the log of a run, and how many events and outputs the run has.
#[derive(Drop)]
struct RunTexts {
    log: Vec<u8>,
    events: u64,
    outputs: u64,
}

/// Writes the bundle of a run whose store has these contents, and judges its sizes.
fn write_anew(
    alloc: Global,
    limit: u64,
    manifest: &PortableManifest,
    texts: RunTexts,
    contents: &[NamedContent<'_>],
) -> Result<Rewritten, UpgradeError>
    requires names { AllByRecursion (λ c. length c.name.now < 65536) contents.now }
    ensures ok { (p : RunParts)
        → IsMadeOf p manifest.now texts (map entry_of contents.now)
        → IfOk result (λ r. (written_refusal limit p ≡ None) × IsRewritten p r) }
    ensures err { (p : RunParts) → IsMadeOf p manifest.now texts (map entry_of contents.now)
        → IfErr result (λ e. (e ≡ OutOfMemory) ⊎ (written_refusal limit p ≡ Some e)) }
{
    let store = spell_store(alloc, contents)?;
    let log_bytes = texts.log.len() as u64;
    let log = ComponentSizes {
        compressed: log_bytes,
        uncompressed: log_bytes,
        entries: texts.events,
    };
    let manifest = settle(
        alloc,
        manifest,
        RecordedSizes {
            log,
            store: store.sizes,
        },
    )?;
    let Some(bundle_bytes) = bundle_length(&manifest, &texts.log, &store.bytes) else {
        return Err(UpgradeError::CountOutOfRange);
    };
    judge_sizes(alloc, limit, &manifest, &texts.log, contents)?;
    Ok(Rewritten {
        manifest,
        log: texts.log,
        store: store.bytes,
        upgraded: Upgraded {
            events: texts.events,
            outputs: texts.outputs,
            bundle_bytes,
        },
    })
}

/// Writes the manifest of a run with the versions that are written, and these sizes.
fn settle(
    alloc: Global,
    manifest: &PortableManifest,
    sizes: RecordedSizes,
) -> Result<Vec<u8>, AllocError>
    ensures { IfOk result (λ text. text.items ≡ settled_text manifest.now sizes) }
{
    let mut info = manifest.run_info(alloc)?;
    info.store_format_version = STORE_FORMAT_VERSION;
    info.sizes = sizes;
    let text = write_manifest(alloc, &info);
    // By a call: in place, each part of a run would be a case of the proof.
    drop(info);
    text
}
