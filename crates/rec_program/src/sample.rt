//! A generated session, recorded.
ghost use Rattle.std.specs.Prelude.{◌≡◌, ◌≤◌, IfOk, IfErr, string_bytes};
ghost use Rattle.rec_store.specs.Namer.{sha256_number};
ghost use Rattle.rec_sample.specs.Session.{sample_session};
ghost use Rattle.rec_program.specs.Samples.{MakesSample, SampleFails, Samples, sample_error};

use crate::counts::counts_line;
use rec_container::{GrowingSink, Sink, SliceSource};
use rec_export::{Exported, RecordExportError, Settings, record_and_export};
use rec_sample::sample_session;
use rec_store::Sha256Namer;
use std::alloc::Global;

/// Makes the session of `tests` tests, writes its bundle,
/// and returns the line that says how much was recorded.
///
/// # Errors
///
/// - `SessionTooLarge` exactly where the session is longer than the limit, and then what a
///   recording of it is refused for. Both leave the bundle as it was.
/// - `BundleFault` where the bundle's sink failed.
/// - `OutOfMemory`, before the first byte of the bundle or after its last.
pub fn record_sample<B: Sink>(
    alloc: Global,
    tests: u64,
    settings: &Settings,
    bundle: &mut B,
) -> Result<String, RecordExportError>
    requires { tests ≤ 10000 }
    ensures ok { IfOk result
        (λ line. Samples B.taken sha256_number settings.now (sample_session tests) bundle.old
        bundle.new (string_bytes line)) }
    ensures err { IfErr result
        (SampleFails B.taken B.faults sha256_number settings.now (sample_session tests) bundle.old
        bundle.new) }
{
    let session = sample_session(alloc, tests)?;
    let exported = export_made(alloc, settings, &session, bundle)?;
    let line = counts_line(alloc, exported.events, exported.outputs)?;
    Ok(line)
}

/// Records a session. Its trace goes into memory, and nobody sees it.
fn export_made<B: Sink>(
    alloc: Global,
    settings: &Settings,
    session: &[u8],
    bundle: &mut B,
) -> Result<Exported, RecordExportError>
    ensures ok { IfOk result
        (MakesSample B.taken sha256_number settings.now session.now bundle.old bundle.new) }
    ensures err { IfErr result
        (SampleFails B.taken B.faults sha256_number settings.now session.now bundle.old
        bundle.new) }
{
    let mut source = SliceSource::new(session);
    let mut trace = GrowingSink::new(alloc);
    match record_and_export(
        alloc,
        settings,
        &Sha256Namer,
        &mut source,
        bundle,
        &mut trace,
    ) {
        Ok(exported) => Ok(exported),
        Err(error) => Err(made_error(error)),
    }
}

/// Returns why a generated session isn't recorded. The trace goes into memory,
/// so it fails for want of memory alone.
fn made_error(error: RecordExportError) -> RecordExportError
    ensures { result ≡ sample_error error }
{
    match error {
        RecordExportError::TraceFault => RecordExportError::OutOfMemory,
        other => other,
    }
}
