//! Bundles, written anew at the version of today.
ghost use Rattle.std.specs.Io.KnownBytes.{Appends};
ghost use Rattle.std.specs.Prelude.{◌≡◌, ◌≤◌, ℕ, List, length, IfOk, IfErr, OnOk, Some};
ghost use Rattle.rec_container.specs.Causes.{Rose};
ghost use Rattle.rec_container.specs.Container.{spell};
ghost use Rattle.rec_container.specs.Taking.{TookPart};
ghost use Rattle.rec_store.specs.Entries.{bundle_entries};
ghost use Rattle.rec_store.specs.Reading.{RunRecord};
ghost use Rattle.rec_portable.specs.declared.upgrade_error.UpgradeError.TheVariants.{
  BundleFault,
  OutOfMemory,
};
ghost use Rattle.rec_portable.specs.Upgrades.{IsUpgradable, NotUpgraded, Upgrades};

use crate::laws::accepted_bundles_are_read;
use crate::recording::PortableRecording;
use crate::upgrade_error::UpgradeError;
use crate::upgrading::{Rewritten, rewrite};
use rec_container::{Sink, Source};
use rec_store::write_bundle;
use std::alloc::Global;

/// Counts what was written of a bundle.
#[derive(Clone, Copy)]
pub struct Upgraded {
    /// How many events the run has.
    pub events: u64,
    /// How many outputs its store has.
    pub outputs: u64,
    /// How long the bundle is that was written, in bytes.
    pub bundle_bytes: u64,
}

/// Reads a bundle from the source to its end, and writes its run anew: as it would be recorded
/// today, with today's versions and in one spelling. The metadata goes first in the store, and
/// outputs keep their names and their order. What was written is written again as it is, and so is
/// what was recorded at these versions. `docs/FORMATS.md#what-a-bundle-is-upgraded-to` says it
/// exactly.
///
/// At most `spool_limit` bytes are read. `read_limit` is the most bytes of the manifest, of the log
/// and of an entry of the store, of what is read and of what is written. All memory is taken before
/// the first byte is written.
///
/// # Errors
///
/// The first refusal in this order:
///
/// - `Open` where [`PortableRecording::open`], then [`PortableRecording::read_run_log`] or then
///   [`PortableRecording::open_store`] refuses.
/// - `ForeignEntry` for the first entry of the bundle that isn't manifest, log or store at its
///   place.
/// - `Read` for the first part of the metadata that isn't read, in the order of a recording; then
///   for the first line of the log that fails; then for the first output in the order of events
///   that is missing or longer than the read limit.
/// - `ForeignEntry` for the first entry of the store that is no metadata, and that no event names.
/// - `CountOutOfRange` where the bundle would have 2^64 bytes or more, and `FileTooLarge` where the
///   manifest, the log or an entry of the store would have more than `read_limit`.
/// - `BundleFault` where the sink failed. All other errors leave it as it was.
///
/// `OutOfMemory` may come at any time before the first byte is written.
///
/// # Examples
///
/// ```
/// let mut source = SliceSource::new(bundle);
/// let mut upgraded = GrowingSink::new(alloc);
/// match upgrade(alloc, &mut source, 1_000_000, 1_000_000, &mut upgraded) {
///     Ok(counts) => println!(rt; "{} events", counts.events)?,
///     Err(error) => println!(rt; "{error}")?,
/// }
/// ```
pub fn upgrade<S: Source, B: Sink>(
    alloc: Global,
    source: &mut S,
    spool_limit: u64,
    read_limit: u64,
    bundle: &mut B,
) -> Result<Upgraded, UpgradeError>
    ensures ok { IfOk result
        (Upgrades S.left S.faults B.taken B.faults spool_limit read_limit source.old source.new
        bundle.old bundle.new) }
    ensures err { IfErr result
        (NotUpgraded S.left S.faults B.taken B.faults spool_limit read_limit source.old source.new
        bundle.old bundle.new) }

    // A bundle with a reading is upgraded, unless memory runs out or an object fails.
    ensures complete { (bytes : List ℕ) (run : RunRecord)
        → S.left source.old ≡ Some bytes
        → length bytes ≤ spool_limit
        → IsUpgradable bytes read_limit run
        → ¬ Rose (S.faults source.old) (S.faults source.new)
        → ¬ Rose (B.faults bundle.old) (B.faults bundle.new)
        → IfErr result (λ e. e ≡ OutOfMemory) }
{
    upgrade_from(alloc, source, spool_limit, read_limit, bundle)
}

/// Upgrades a bundle, in a call of its own, so that `complete` can rest on these two clauses.
fn upgrade_from<S: Source, B: Sink>(
    alloc: Global,
    source: &mut S,
    spool_limit: u64,
    read_limit: u64,
    bundle: &mut B,
) -> Result<Upgraded, UpgradeError>
    ensures ok { IfOk result
        (Upgrades S.left S.faults B.taken B.faults spool_limit read_limit source.old source.new
        bundle.old bundle.new) }
    ensures err { IfErr result
        (NotUpgraded S.left S.faults B.taken B.faults spool_limit read_limit source.old source.new
        bundle.old bundle.new) }
{
    // Where the bundle is from is said nowhere.
    let path = String::new(alloc);
    let recording = PortableRecording::open(alloc, path, source, spool_limit, read_limit)?;
    let rewritten = rewrite(alloc, &recording);
    drop(recording);
    let rewritten = rewritten?;
    if let Err(fault) = deliver(&rewritten, bundle) {
        drop(rewritten);
        return Err(fault);
    }
    // What was accepted is read, and what was written of it.
    accepted_bundles_are_read();
    Ok(rewritten.upgraded)
}

/// Writes a bundle that was written anew. It takes no memory, and copies nothing.
fn deliver<B: Sink>(rewritten: &Rewritten, bundle: &mut B) -> Result<(), UpgradeError>
    ensures ok { OnOk result (Appends (B.taken bundle.old) (B.taken bundle.new)
        (spell
        (bundle_entries rewritten.now.manifest.items rewritten.now.log.items
        rewritten.now.store.items))) }
    ensures err { IfErr result
        (λ e. (e ≡ BundleFault) × Rose (B.faults bundle.old) (B.faults bundle.new)
        × TookPart (B.taken bundle.old) (B.taken bundle.new)
        (spell
        (bundle_entries rewritten.now.manifest.items rewritten.now.log.items
        rewritten.now.store.items))) }
{
    let (manifest, log, store) = (&rewritten.manifest, &rewritten.log, &rewritten.store);
    if write_bundle(bundle, manifest, log, store).is_err() {
        return Err(UpgradeError::BundleFault);
    }
    Ok(())
}
