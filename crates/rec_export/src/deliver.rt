//! The bundle and the trace, into their sinks.
ghost use Rattle.std.specs.Io.KnownBytes.{Appends};
ghost use Rattle.std.specs.Prelude.{OnOk, IfErr};
ghost use Rattle.rec_export.specs.Export.{Undelivered};
ghost use Rattle.rec_export.specs.Prepared.{prepared_bundle};

use crate::prepare::Prepared;
use rec_container::{Sink, write_all};
use rec_errors::RecordExportError;
use rec_store::write_recorded_bundle;

/// Writes the whole bundle, and then the whole trace. It takes no memory, and copies nothing.
///
/// # Errors
///
/// `BundleFault` comes where the bundle's sink fails, and `TraceFault` where the trace's does,
/// after the whole bundle was written.
pub fn deliver<B: Sink, T: Sink>(
    prepared: &Prepared,
    bundle: &mut B,
    trace: &mut T,
) -> Result<(), RecordExportError>
    ensures ok { OnOk result
        (Appends (B.taken bundle.old) (B.taken bundle.new) (prepared_bundle prepared.now)
        × Appends (T.taken trace.old) (T.taken trace.new) prepared.now.trace.items) }
    ensures err { IfErr result
        (Undelivered B.taken B.faults T.taken T.faults bundle.old bundle.new trace.old trace.new
        (prepared_bundle prepared.now) prepared.now.trace.items) }
{
    let log = prepared.log.bytes();
    if write_recorded_bundle(bundle, &prepared.manifest, log, &prepared.store).is_err() {
        return Err(RecordExportError::BundleFault);
    }
    if write_all(trace, &prepared.trace).is_err() {
        return Err(RecordExportError::TraceFault);
    }
    Ok(())
}
