//! The judging of a session, and what is exported of it, in memory.
ghost use Rattle.std.specs.Option.{option_or};
ghost use Rattle.std.specs.Prelude.{◌≡◌, ◌⊎◌, ◌<◌, ◌^◌, [], length, map};
ghost use Rattle.std.specs.Prelude.{Some, None, IfOk, IfErr, OnOk, List, ℕ};
ghost use Rattle.serde_json.specs.Written.{compact_text};
ghost use Rattle.rec_container.specs.Container.{spell};
ghost use Rattle.rec_format.specs.HeadForms.{IsHead};
ghost use Rattle.rec_format.specs.RunForms.{manifest_value};
ghost use Rattle.rec_format.specs.Runs.{manifest_of, recorded_info};
ghost use Rattle.rec_store.specs.Bundle.{outputs_stored, run_bundle};
ghost use Rattle.rec_store.specs.Reading.{IsReading, recorded};
ghost use Rattle.rec_store.specs.Store.{store_entries};
ghost use Rattle.rec_spans.specs.Plain.{plain};
ghost use Rattle.rec_spans.specs.Refusals.{events_refusal};
ghost use Rattle.rec_trace.specs.PrintedTimeline.{PrintsTimeline};
ghost use Rattle.rec_errors.specs.declared.export_error.RecordExportError.TheVariants.{OutOfMemory};
ghost use Rattle.rec_export.specs.Bundle.{AreOf, session_refusal, refusal_after};
ghost use Rattle.rec_export.specs.Export.{CountsOf};
ghost use Rattle.rec_export.specs.Prepared.{contents_refusal, prepared_bundle, bundle_of_contents};
ghost use Rattle.rec_export.specs.Session.{events_of};
ghost use Rattle.rec_export.specs.SessionTraces.{run_trace};
ghost use Rattle.rec_export.specs.Sizes.{AnswersRefusal};

use crate::bundle::{JudgedManifest, judge_contents};
use crate::counts::Exported;
use crate::discarding::DiscardingSink;
use crate::head::{head_line, read_head};
use crate::record::{RecordedInMemory, record_run};
use crate::session_lines::SessionLines;
use crate::settings::Settings;
use rec_container::{ContainerWriter, GrowingSink};
use rec_errors::RecordExportError;
use rec_format::{RecordedSizes, SessionHead};
use rec_store::OutputNamer;
use std::alloc::Global;

/// Holds what is exported of a session, in memory. The bundle is written from manifest, log and the
/// entries of the store.
#[derive(Drop)]
pub struct Prepared {
    /// The text of the manifest.
    pub manifest: Vec<u8>,
    /// The event log.
    pub log: GrowingSink,
    /// The writer of the store, with all its entries.
    pub store: ContainerWriter<DiscardingSink>,
    /// The text of the trace, in UTF-8.
    pub trace: Vec<u8>,
    /// What is counted of all this.
    pub exported: Exported,
}

/// Judges a whole session, and makes what is exported of it.
///
/// # Errors
///
/// The refusal of the session exactly where it has one, or `OutOfMemory`.
pub fn prepare<N: OutputNamer>(
    alloc: Global,
    settings: &Settings,
    namer: &N,
    session: Vec<u8>,
) -> Result<Prepared, RecordExportError>
    ensures texts { IfOk result (λ p.
        AreOf (N.number namer.now) settings.now session.items (prepared_bundle p) p.trace.items) }
    ensures counts { IfOk result
        (λ p. CountsOf (N.number namer.now) settings.now.max_output session.items
        (prepared_bundle p) p.trace.items p.exported) }
    ensures err { IfErr result (λ e. (e ≡ OutOfMemory)
        ⊎ (session_refusal (N.number namer.now) settings.now session.items ≡ Some e)) }
{
    let mut lines = SessionLines::new(alloc, session)?;
    let head = read_head(alloc, head_line(&lines))?;
    lines.drop_first();
    let result = prepare_run(alloc, settings, namer, &head, lines);
    // By a call: in place, each part of the head would be a case of the proof.
    head.discard();
    result
}

/// Makes what is exported of a run with this head, and the events of the lines after it.
fn prepare_run<N: OutputNamer>(
    alloc: Global,
    settings: &Settings,
    namer: &N,
    head: &SessionHead,
    lines: SessionLines,
) -> Result<Prepared, RecordExportError>
    ensures bundle { IfOk result (λ p. prepared_bundle p
        ≡ run_bundle (N.number namer.now) settings.now.max_output head.now
        (events_of lines)) }
    ensures reads { IsHead head.now → IfOk result (λ p. IsReading (prepared_bundle p)
        (recorded (N.number namer.now) settings.now.max_output head.now (events_of lines))) }
    ensures trace { IfOk result (λ p. p.trace.items
        ≡ run_trace settings.now head.now (events_of lines)) }
    ensures printed { IfOk result
        (λ p. PrintsTimeline head.now.nextest_version settings.now.group_by
        (map plain (events_of lines)) p.trace.items) }
    ensures accepted { OnOk result
        (events_refusal settings.now.group_by (map plain (events_of lines)) ≡ None) }
    ensures valid { OnOk result
        (refusal_after (N.number namer.now) settings.now (Some head.now) lines ≡ None) }
    ensures events { IfOk result (λ p. p.exported.events ≡ length (events_of lines)) }
    ensures outputs { IfOk result (λ p. p.exported.outputs
        ≡ length
        (outputs_stored (N.number namer.now) settings.now.max_output (events_of lines))) }
    ensures bundle_bytes { IfOk result (λ p. p.exported.bundle_bytes ≡ length (prepared_bundle p)) }
    ensures trace_bytes { IfOk result (λ p. p.exported.trace_bytes ≡ length p.trace.items) }
    ensures err { IfErr result (λ e. (e ≡ OutOfMemory)
        ⊎ (refusal_after (N.number namer.now) settings.now (Some head.now) lines ≡ Some e)) }
{
    let run = record_run(alloc, settings, namer, head, lines)?;
    let RecordedInMemory {
        store,
        log,
        sizes,
        too_large,
        trace,
    } = run;
    let limit = settings.read_limit;
    let manifest = match judge_run(alloc, limit, head, sizes, log.bytes(), &store, too_large) {
        Ok(manifest) => manifest,
        Err(error) => {
            // By a call, as the head in `prepare`.
            trace.discard();
            return Err(error);
        }
    };
    let trace = trace.into_bytes(alloc)?;
    let exported = Exported {
        events: sizes.log.entries,
        outputs: sizes.store.entries - metadata_count(head),
        bundle_bytes: manifest.bundle_bytes,
        trace_bytes: trace.as_slice().len() as u64,
    };
    Ok(Prepared {
        manifest: manifest.text,
        log,
        store,
        trace,
        exported,
    })
}

/// Writes the manifest of a run that was recorded, and judges its bundle: first its length, the
/// manifest and the log, and then the store's entries, of which `too_large` is the refusal.
fn judge_run(
    alloc: Global,
    limit: u64,
    head: &SessionHead,
    sizes: RecordedSizes,
    log: &[u8],
    store: &ContainerWriter<DiscardingSink>,
    too_large: Option<RecordExportError>,
) -> Result<JudgedManifest, RecordExportError>
    ensures text { IfOk result
        (λ j. j.text.items
        ≡ compact_text (manifest_value (manifest_of (recorded_info head.now sizes)))) }
    ensures bytes { IfOk result
        (λ j. j.bundle_bytes
        ≡ length (bundle_of_contents j.text.items log.now (spell store.now.entries))) }
    ensures fits { IfOk result
        (λ j. length (bundle_of_contents j.text.items log.now (spell store.now.entries)) < 2 ^ 64) }
    ensures judged { AnswersRefusal result (option_or
        (contents_refusal limit
        (compact_text (manifest_value (manifest_of (recorded_info head.now sizes)))) log.now
        (spell store.now.entries)) too_large) }
{
    match judge_contents(alloc, limit, head, sizes, log, store) {
        Ok(manifest) => accept_entries(manifest, too_large),
        Err(error) => {
            // By a call, as the head in `prepare`.
            drop(too_large);
            Err(error)
        }
    }
}

/// Returns the manifest, unless an entry of the store is refused.
fn accept_entries(
    manifest: JudgedManifest,
    too_large: Option<RecordExportError>,
) -> Result<JudgedManifest, RecordExportError>
    ensures ok { IfOk result (λ j. j ≡ manifest) }
    ensures judged { AnswersRefusal result too_large }
{
    match too_large {
        None => Ok(manifest),
        Some(error) => {
            drop(manifest);
            Err(error)
        }
    }
}

/// Counts the entries that a store has of a head.
fn metadata_count(head: &SessionHead) -> u64
    ensures { result ≡ length (store_entries head.now) }
{
    match head.rerun_info {
        Some(_) => 5,
        None => 4,
    }
}
