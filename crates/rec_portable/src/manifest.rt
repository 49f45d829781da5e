//! The manifest of a bundle, and its versions.
ghost use Rattle.std.specs.Prelude.{◌≡◌};
ghost use Rattle.rec_format.specs.Runs.{store_version_in as version_in};
ghost use Rattle.rec_portable.specs.Errors.{Reads};
ghost use Rattle.rec_portable.specs.Judging.{content_judged, judged, format_checked};
ghost use Rattle.rec_portable.specs.Judging.{store_checked, versions_checked};

use crate::errors::PortableRecordingReadError;
use crate::file_counts::FileCounts;
use rec_container::Container;
use rec_events::Text;
use rec_format::{
    PORTABLE_MANIFEST_FILE_NAME, PORTABLE_RECORDING_FORMAT_VERSION, PortableManifest,
    PortableRecordingFormatVersion, STORE_FORMAT_VERSION,
};
use rec_forms::{FromValueError, read_text};
use std::alloc::Global;

/// Reads the manifest among a bundle's entries.
pub(crate) fn read_manifest(
    alloc: Global,
    entries: &Container<'_>,
    limit: u64,
) -> Result<PortableManifest, PortableRecordingReadError>
    ensures { Reads (judged limit entries.now.entries) result }
{
    let Some(content) = entries.get(PORTABLE_MANIFEST_FILE_NAME) else {
        let counts = FileCounts::of_entries(entries);
        return Err(PortableRecordingReadError::NotAWrapperArchive {
            file_count: counts.files,
            zip_count: counts.zips,
        });
    };
    let size = content.len() as u64;
    if limit < size {
        let file_name = Text::from_str(alloc, PORTABLE_MANIFEST_FILE_NAME)?;
        return Err(PortableRecordingReadError::FileTooLarge {
            file_name,
            size,
            limit,
        });
    }
    read_content(alloc, content)
}

/// Reads the manifest for which bytes stand.
fn read_content(
    alloc: Global,
    content: &[u8],
) -> Result<PortableManifest, PortableRecordingReadError>
    ensures { Reads (content_judged content.now) result }
{
    match read_text(alloc, content) {
        Ok(manifest) => with_versions_checked(manifest),
        Err(FromValueError::NotAValue) => Err(PortableRecordingReadError::ParseManifest),
        Err(FromValueError::OutOfMemory) => Err(PortableRecordingReadError::OutOfMemory),
    }
}

/// Answers a manifest whose versions are read.
fn with_versions_checked(
    manifest: PortableManifest,
) -> Result<PortableManifest, PortableRecordingReadError>
    ensures { result ≡ versions_checked manifest }
{
    if let Err(refusal) = check_format_version(&manifest) {
        drop(manifest);
        return Err(refusal);
    }
    if let Err(refusal) = check_store_version(&manifest) {
        drop(manifest);
        return Err(refusal);
    }
    Ok(manifest)
}

/// Returns the version of a bundle. Where it is needed twice, it is asked for twice.
fn format_version(manifest: &PortableManifest) -> PortableRecordingFormatVersion
    ensures { result ≡ manifest.now.format_version }
{
    manifest.format_version
}

/// Judges the version of a bundle.
fn check_format_version(manifest: &PortableManifest) -> Result<(), PortableRecordingReadError>
    ensures { result ≡ format_checked manifest.now.format_version }
{
    match format_version(manifest).check_readable_by(PORTABLE_RECORDING_FORMAT_VERSION) {
        Ok(()) => Ok(()),
        Err(incompatibility) => Err(PortableRecordingReadError::UnsupportedFormatVersion {
            found: format_version(manifest),
            supported: PORTABLE_RECORDING_FORMAT_VERSION,
            incompatibility,
        }),
    }
}

/// Judges the version of the store in a bundle.
fn check_store_version(manifest: &PortableManifest) -> Result<(), PortableRecordingReadError>
    ensures { result ≡ store_checked (version_in manifest.now.run) }
{
    match manifest
        .store_format_version()
        .check_readable_by(STORE_FORMAT_VERSION)
    {
        Ok(()) => Ok(()),
        Err(incompatibility) => Err(PortableRecordingReadError::UnsupportedStoreFormatVersion {
            found: manifest.store_format_version(),
            supported: STORE_FORMAT_VERSION,
            incompatibility,
        }),
    }
}
