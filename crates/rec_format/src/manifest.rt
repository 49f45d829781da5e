//! The manifest of a bundle.
ghost use Rattle.std.specs.Prelude.{◌≡◌, IfOk};
ghost use Rattle.rec_format.specs.Runs.{manifest_of, info_of, store_version_in};

use crate::{
    PORTABLE_RECORDING_FORMAT_VERSION, PortableRecordingFormatVersion, RecordedRun,
    RecordedRunInfo, StoreFormatVersion,
};
use std::alloc::{AllocError, Global};

/// Describes a bundle, as its first entry: the bundle's version, and the metadata of its run.
/// `docs/FORMATS.md#manifest` has its JSON.
#[derive(Drop)]
pub struct PortableManifest {
    /// The version of the bundle.
    pub format_version: PortableRecordingFormatVersion,
    /// The metadata of the run.
    pub run: RecordedRun,
}

impl PortableManifest {
    /// Makes the manifest of a run, with the version of the bundles that are written.
    ///
    /// # Errors
    ///
    /// `AllocError` where memory is short.
    pub fn new(alloc: Global, run: &RecordedRunInfo) -> Result<PortableManifest, AllocError>
        ensures { IfOk result (λ manifest. manifest ≡ manifest_of run.now) }
    {
        Ok(PortableManifest {
            format_version: PORTABLE_RECORDING_FORMAT_VERSION,
            run: RecordedRun::from_info(alloc, run)?,
        })
    }

    /// Copies the metadata of the run.
    ///
    /// # Errors
    ///
    /// `AllocError` where memory is short.
    pub fn run_info(&self, alloc: Global) -> Result<RecordedRunInfo, AllocError>
        ensures { IfOk result (λ info. info ≡ info_of self.now.run) }
    {
        self.run.to_info(alloc)
    }

    /// Returns the version of the run's store.
    pub fn store_format_version(&self) -> StoreFormatVersion
        ensures { result ≡ store_version_in self.now.run }
    {
        StoreFormatVersion::new(
            self.run.store_format_version,
            self.run.store_format_minor_version,
        )
    }

    /// Drops the manifest. It is a call so that this is proved once, here: where a crate drops a
    /// manifest in place, its own proof goes over each part of the manifest again.
    pub fn discard(self) {
        drop(self);
    }
}
