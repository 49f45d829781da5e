//! The parts of a bundle.
ghost use Rattle.std.specs.Prelude.{◌≡◌, ◌⊎◌, IfOk, IfErr};
ghost use Rattle.rec_container.specs.Container.{IsContainer};
ghost use Rattle.rec_portable.specs.declared.errors.PortableRecordingReadError.TheVariants.{
  OutOfMemory,
};
ghost use Rattle.rec_portable.specs.Judging.{IsNoContainer, Refuses};
ghost use Rattle.rec_portable.specs.Opening.{IsOpen};

use crate::errors::PortableRecordingReadError;
use crate::manifest::read_manifest;
use crate::window::Window;
use rec_container::Container;
use rec_format::{PortableManifest, RUN_LOG_FILE_NAME, STORE_ZIP_FILE_NAME};
use std::alloc::Global;

/// Holds what is kept of a bundle beside its bytes: its manifest,
/// and where its log and its store stand.
#[derive(Drop)]
pub(crate) struct BundleParts {
    pub(crate) manifest: PortableManifest,
    pub(crate) log: Option<Window>,
    pub(crate) store: Option<Window>,
}

impl BundleParts {
    /// Judges the bytes of a bundle.
    pub(crate) fn read(
        alloc: Global,
        bytes: &[u8],
        limit: u64,
    ) -> Result<BundleParts, PortableRecordingReadError>
        ensures ok { IfOk result (IsOpen bytes.now limit) }
        ensures err { IfErr result (Refuses bytes.now limit) }
    {
        let entries = parse(alloc, bytes)?;
        let manifest = read_manifest(alloc, &entries, limit)?;
        let log = Window::of_entry(&entries, RUN_LOG_FILE_NAME);
        let store = Window::of_entry(&entries, STORE_ZIP_FILE_NAME);
        Ok(BundleParts {
            manifest,
            log,
            store,
        })
    }
}

/// Returns the entries of a container.
pub(crate) fn parse<'a>(
    alloc: Global,
    bytes: &'a [u8],
) -> Result<Container<'a>, PortableRecordingReadError>
    ensures found { IfOk result (λ c. (c.bytes ≡ bytes.now) × IsContainer bytes.now c.entries) }
    ensures fault { IfErr result (λ e. (e ≡ OutOfMemory) ⊎ IsNoContainer bytes.now e) }
{
    Ok(Container::parse(alloc, bytes)?)
}
