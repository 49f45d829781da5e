//! The manifest of a bundle.
ghost use Rattle.std.specs.Prelude.{List};
ghost use Rattle.rec_container.specs.Container.{Entry, IsContainer};
ghost use Rattle.rec_reading.specs.Listing.{Makes, PrintsInfo};

use rec_errors::ReadingError;
use rec_forms::write_text;
use rec_portable::PortableRecording;
use std::alloc::Global;

/// Writes the manifest of a bundle as compact JSON and LF.
///
/// # Errors
///
/// `OutOfMemory`.
pub fn info_text(alloc: Global, bundle: &PortableRecording) -> Result<Vec<u8>, ReadingError>
    ensures { (es : List Entry)
        → IsContainer bundle.now.bytes es
        → Makes (PrintsInfo bundle.now.limit es) result }
{
    let mut text = write_text(alloc, bundle.manifest())?;
    text.push(b'\n')?;
    Ok(text)
}
