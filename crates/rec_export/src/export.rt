//! From a session to its bundle and its trace.
ghost use Rattle.std.specs.Prelude.{◌≡◌, ◌≤◌, ℕ, List, length, IfOk, IfErr, Some, None};
ghost use Rattle.rec_container.specs.Causes.{Rose};
ghost use Rattle.rec_errors.specs.declared.export_error.RecordExportError.TheVariants.{OutOfMemory};
ghost use Rattle.rec_export.specs.Bundle.{session_refusal};
ghost use Rattle.rec_export.specs.Export.{Exports, Fails};

use crate::counts::Exported;
use crate::deliver::deliver;
use crate::prepare::prepare;
use crate::read::read_session;
use crate::settings::Settings;
use rec_container::{Sink, Source};
use rec_errors::RecordExportError;
use rec_store::OutputNamer;
use std::alloc::Global;

/// Reads a session from the source to its end, and writes its bundle and then its trace.
///
/// The whole session is judged, and the contents of both are made, before the first byte is
/// written. Writing takes no memory.
///
/// # Errors
///
/// The error is the first cause in this order:
///
/// - `SourceFault` comes where the source failed, and `SessionTooLarge` where it gave one byte more
///   than `session_limit` and had not failed.
/// - `ParseHead`, `ReadRunLog`, `ParseEvent` and `NameCollision` come for the first line that is no
///   head, no text, no event, or has an output that clashes with one before.
/// - `CountOutOfRange` without an event comes where the bundle would have 2^64 bytes or more, and
///   `FileTooLarge` where the manifest, the log or an entry of the store has more than
///   `read_limit`.
/// - What else names an event says why the trace can't be drawn.
/// - `BundleFault` and `TraceFault` come where a sink failed. All errors but these leave both sinks
///   as they were.
/// - `OutOfMemory` may come at any time before the first byte is written. Then too the source gave
///   at most one byte more than `session_limit`, and had not failed.
///
/// # Examples
///
/// ```
/// let mut source = SliceSource::new(session);
/// let mut bundle = GrowingSink::new(alloc);
/// let mut trace = GrowingSink::new(alloc);
/// let settings = Settings::default();
/// match record_and_export(alloc, &settings, &Sha256Namer, &mut source, &mut bundle, &mut trace) {
///     Ok(exported) => println!(rt; "{} events", exported.events)?,
///     Err(error) => println!(rt; "{error}")?,
/// }
/// ```
pub fn record_and_export<S: Source, N: OutputNamer, B: Sink, T: Sink>(
    alloc: Global,
    settings: &Settings,
    namer: &N,
    source: &mut S,
    bundle: &mut B,
    trace: &mut T,
) -> Result<Exported, RecordExportError>
    // The session was read to its end, and the sinks took its bundle and its trace.
    ensures ok { IfOk result
        (Exports S.left S.faults B.taken B.faults T.taken T.faults (N.number namer.now) settings.now
        source.old source.new bundle.old bundle.new trace.old trace.new) }
    ensures err { IfErr result
        (Fails S.left S.faults B.taken B.faults T.taken T.faults (N.number namer.now) settings.now
        source.old source.new bundle.old bundle.new trace.old trace.new) }

    // A valid session is exported, unless memory runs out or an object fails.
    ensures complete { (session : List ℕ)
        → S.left source.old ≡ Some session
        → length session ≤ settings.now.session_limit
        → session_refusal (N.number namer.now) settings.now session ≡ None
        → ¬ Rose (S.faults source.old) (S.faults source.new)
        → ¬ Rose (B.faults bundle.old) (B.faults bundle.new)
        → ¬ Rose (T.faults trace.old) (T.faults trace.new)
        → IfErr result (λ e. e ≡ OutOfMemory) }
{
    export(alloc, settings, namer, source, bundle, trace)
}

/// Records and exports, in a call of its own, so that `complete` can rest on these two clauses.
fn export<S: Source, N: OutputNamer, B: Sink, T: Sink>(
    alloc: Global,
    settings: &Settings,
    namer: &N,
    source: &mut S,
    bundle: &mut B,
    trace: &mut T,
) -> Result<Exported, RecordExportError>
    ensures ok { IfOk result
        (Exports S.left S.faults B.taken B.faults T.taken T.faults (N.number namer.now) settings.now
        source.old source.new bundle.old bundle.new trace.old trace.new) }
    ensures err { IfErr result
        (Fails S.left S.faults B.taken B.faults T.taken T.faults (N.number namer.now) settings.now
        source.old source.new bundle.old bundle.new trace.old trace.new) }
{
    let session = read_session(alloc, settings.session_limit, source)?;
    let prepared = prepare(alloc, settings, namer, session)?;
    deliver(&prepared, bundle, trace)?;
    Ok(prepared.exported)
}
