//! What is left of a stopped recording that a bundle holds, before the first byte of it is written.
ghost use Rattle.std.specs.Prelude.{◌≡◌, [], ℕ, List, Ok, IfOk, IfErr, string_bytes};
ghost use Rattle.rec_container.specs.Container.{Entry, IsContainer, content_of};
ghost use Rattle.rec_format.specs.declared.manifest.PortableManifest.{PortableManifest};
ghost use Rattle.rec_store.specs.Entries.{store_name};
ghost use Rattle.rec_portable.specs.Judging.{judged};
ghost use Rattle.rec_portable.specs.OuterEntries.{log_part};
ghost use Rattle.rec_salvage.specs.declared.errors.SalvageError.{SalvageError};
ghost use Rattle.rec_salvage.specs.Salvages.{Salvages};
ghost use Rattle.rec_program.specs.Counts.{counts_line};
ghost use Rattle.rec_program.specs.ReadingCommands.{Shows, Withholds};
ghost use Rattle.rec_program.specs.Salvaging.{LendsFound, MakesSalvage, RefusesStore, SalvagesRun};
ghost use Rattle.rec_program.specs.Salvaging.{bundle_refusal, store_found, store_refusal};

use crate::counts::counts_line;
use crate::reading::open_bundle;
use crate::salvage_refusal::SalvageRefusal;
use rec_container::Source;
use rec_events::Text;
use rec_export::Settings;
use rec_format::{RecordedRunInfo, STORE_ZIP_FILE_NAME};
use rec_portable::{PortableRecording, PortableRecordingReadError};
use rec_salvage::{Salvaged, salvage};
use std::alloc::Global;

/// Holds what was salvaged of a bundle, and the line that counts it.
#[derive(Drop)]
pub struct CountedSalvage {
    /// What was salvaged.
    pub salvaged: Salvaged,
    /// The line that counts its events and outputs, with LF.
    pub line: String,
}

/// Reads the bundle of a source, and makes the bundle of what is left of the run in it.
///
/// # Errors
///
/// - `Bundle` where the bundle isn't opened, its log is missing or longer than the read limit, or
///   its store is missing.
/// - `Store` where nothing can be salvaged of its store.
/// - `OutOfMemory` if memory runs out.
pub fn salvage_bundle<S: Source>(
    alloc: Global,
    settings: &Settings,
    source: &mut S,
) -> Result<CountedSalvage, SalvageRefusal>
    ensures ok { IfOk result
        (λ c. Shows bundle_refusal SalvagesRun settings.now.read_limit S.left S.faults
        settings.now.session_limit source.old source.new c.salvaged) }
    ensures counts { IfOk result
        (λ c. string_bytes c.line ≡ counts_line c.salvaged.events c.salvaged.outputs) }
    ensures err { IfErr result
        (Withholds bundle_refusal SalvagesRun settings.now.read_limit S.left S.faults
        settings.now.session_limit source.old source.new) }
{
    let salvaged = salvage_source(alloc, settings, source)?;
    let line = counts_line(alloc, salvaged.events, salvaged.outputs)?;
    Ok(CountedSalvage { salvaged, line })
}

/// Reads the bundle of a source, and makes the bundle of what is left.
fn salvage_source<S: Source>(
    alloc: Global,
    settings: &Settings,
    source: &mut S,
) -> Result<Salvaged, SalvageRefusal>
    ensures ok { IfOk result
        (Shows bundle_refusal SalvagesRun settings.now.read_limit S.left S.faults
        settings.now.session_limit source.old source.new) }
    ensures err { IfErr result
        (Withholds bundle_refusal SalvagesRun settings.now.read_limit S.left S.faults
        settings.now.session_limit source.old source.new) }
{
    let bundle = open_bundle(alloc, settings, source)?;
    let result = salvage_opened(alloc, &bundle);
    // By a call: in place, each part of the manifest would be a case of the proof.
    bundle.discard();
    result
}

/// Makes the bundle of what is left of the run in a bundle.
fn salvage_opened(alloc: Global, bundle: &PortableRecording) -> Result<Salvaged, SalvageRefusal>
    ensures { (es : List Entry) (manifest : PortableManifest)
        → IsContainer bundle.now.bytes es
        → judged bundle.now.limit es ≡ Ok manifest
        → MakesSalvage (SalvagesRun bundle.now.limit es) result }
{
    let log = find_log(alloc, bundle)?;
    let store = find_store(alloc, bundle)?;
    let run = bundle.run_info(alloc)?;
    let result = salvage_parts(alloc, &run, log, store);
    run.discard();
    result
}

/// Makes the bundle of what is left of log and store.
fn salvage_parts(
    alloc: Global,
    run: &RecordedRunInfo,
    log: &[u8],
    store: &[u8],
) -> Result<Salvaged, SalvageRefusal>
    ensures ok { IfOk result (Salvages run.now log.now store.now) }
    ensures err { IfErr result
        (λ e. (fault : SalvageError) × (e ≡ store_refusal fault) × RefusesStore store.now fault) }
{
    Ok(salvage(alloc, run, log, store)?)
}

/// Lends the bytes of the log, as far as the read limit allows.
fn find_log<'b>(
    alloc: Global,
    bundle: &'b PortableRecording,
) -> Result<&'b [u8], PortableRecordingReadError>
    ensures { (es : List Entry)
        → IsContainer bundle.now.bytes es
        → LendsFound (log_part bundle.now.limit es) result }
{
    // judges whether the log is there, and within the limit
    let _ = bundle.read_run_log(alloc)?;
    // It is there, as it was read.
    Ok(bundle.log_window().unwrap_or(b"".as_slice()))
}

/// Lends the bytes of the store, whatever they are.
fn find_store<'b>(
    alloc: Global,
    bundle: &'b PortableRecording,
) -> Result<&'b [u8], PortableRecordingReadError>
    ensures { (es : List Entry)
        → IsContainer bundle.now.bytes es
        → LendsFound (store_found (content_of es store_name)) result }
{
    let Some(bytes) = bundle.store_window() else {
        let file_name = Text::from_str(alloc, STORE_ZIP_FILE_NAME)?;
        return Err(PortableRecordingReadError::MissingFile { file_name });
    };
    Ok(bytes)
}
