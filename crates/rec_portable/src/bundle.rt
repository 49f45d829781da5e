//! The bytes of a bundle.
ghost use Rattle.std.specs.Prelude.{◌≡◌, IfOk};
ghost use Rattle.serde_json.specs.Written.{compact_text};
ghost use Rattle.rec_container.specs.Container.{spell};
ghost use Rattle.rec_format.specs.RunForms.{manifest_value};
ghost use Rattle.rec_store.specs.Entries.{bundle_entries};

use rec_container::GrowingSink;
use rec_format::PortableManifest;
use rec_forms::write_text;
use rec_store::{bundle_length, write_bundle};
use std::alloc::{AllocError, Global};

/// Returns the bytes of the bundle of a manifest, a log and a store, in this order. The log and the
/// store stand in it as they are. `docs/FORMATS.md#bundle` describes a bundle.
///
/// # Errors
///
/// `AllocError` where memory is short.
pub fn bundle_text(
    alloc: Global,
    manifest: &PortableManifest,
    log: &[u8],
    store: &[u8],
) -> Result<Vec<u8>, AllocError>
    ensures { IfOk result
        (λ text. text.items
        ≡ spell (bundle_entries (compact_text (manifest_value manifest.now)) log.now store.now)) }
{
    let manifest = write_text(alloc, manifest)?;
    // What is no u64 fits no memory.
    let length = bundle_length(&manifest, log, store).ok_or(AllocError)?;
    let mut bundle = GrowingSink::with_capacity(alloc, length as usize)?;
    // The write fails only where the sink does, and a growing sink only for want of memory.
    let Ok(()) = write_bundle(&mut bundle, &manifest, log, store) else {
        drop(bundle);
        return Err(AllocError);
    };
    Ok(bundle.into_bytes())
}
