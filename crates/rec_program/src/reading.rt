//! What the commands make that read a bundle, before the first byte of it is printed.
ghost use Rattle.std.specs.Prelude.{[], IfOk, IfErr};
ghost use Rattle.rec_portable.specs.Opening.{Opens, Unopened};
ghost use Rattle.rec_errors.specs.ReadingErrors.{bundle_error};
ghost use Rattle.rec_program.specs.ReadingCommands.{Shows, Withholds};

use rec_container::Source;
use rec_export::Settings;
use rec_portable::{PortableRecording, PortableRecordingReadError};
use rec_reading::{BundleText, ReadingError};
use std::alloc::Global;

/// Reads the bundle of a source, and makes the text that a command prints of it.
///
/// # Errors
///
/// Why the bundle isn't read, why nothing is printed of it, or `OutOfMemory`.
pub fn read_bundle<S: Source, P: BundleText>(
    alloc: Global,
    settings: &Settings,
    source: &mut S,
    printer: &P,
) -> Result<Vec<u8>, ReadingError>
    ensures ok { IfOk result
        (λ text. Shows bundle_error (P.prints printer.now) settings.now.read_limit S.left S.faults
        settings.now.session_limit source.old source.new text.items) }
    ensures err { IfErr result
        (Withholds bundle_error (P.prints printer.now) settings.now.read_limit S.left S.faults
        settings.now.session_limit source.old source.new) }
{
    let bundle = open_bundle(alloc, settings, source)?;
    printer.text(alloc, bundle)
}

/// Reads the bundle of a source. It stands on no path.
pub fn open_bundle<S: Source>(
    alloc: Global,
    settings: &Settings,
    source: &mut S,
) -> Result<PortableRecording, PortableRecordingReadError>
    ensures ok { IfOk result
        (Opens S.left S.faults [] settings.now.session_limit settings.now.read_limit source.old
        source.new) }
    ensures err { IfErr result
        (Unopened S.left S.faults settings.now.session_limit settings.now.read_limit source.old
        source.new) }
{
    let path = String::new(alloc);
    PortableRecording::open(
        alloc,
        path,
        source,
        settings.session_limit,
        settings.read_limit,
    )
}
