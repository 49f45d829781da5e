//! Why a recording isn't read, and what to do with it then.
use crate::{
    PortableRecordingFormatMajorVersion, PortableRecordingFormatMinorVersion,
    StoreFormatMajorVersion, StoreFormatMinorVersion,
};
use std::fmt;

/// Names a release of nextest, printed as three numbers with dots between them.
#[derive(Copy, Clone, PartialEq, Eq, Debug)]
pub struct Release {
    /// The first number.
    pub major: u64,
    /// The second number.
    pub minor: u64,
    /// The third number.
    pub patch: u64,
}

impl fmt::Display for Release {
    ghost use Rattle.std.specs.Prelude.{Some};
    ghost use Rattle.rec_format.specs.Incompatibility.{release_text};

    ghost output = { λ r. Some (release_text r) };

    fn fmt<W: fmt::Write>(&self, f: &mut fmt::Formatter<W>) -> fmt::Result {
        let (major, minor, patch) = (self.major, self.minor, self.patch);
        write!(f, "{major}.{minor}.{patch}")
    }
}

/// Says what to do with a recording that is too old.
#[derive(Copy, Clone, PartialEq, Eq, Debug)]
pub enum TooOldRecordingGuidance {
    /// This release and those before it read the recording. No version has this guidance today.
    UseOlderNextest { last_nextest_version: Release },
    /// Recordings of this release and of those before it are read no more.
    Discard { last_nextest_version: Release },
    /// Nothing is known of the recording's version.
    Unknown,
}

/// Says why a store isn't read, with the two numbers that differ.
#[derive(Copy, Clone, PartialEq, Eq)]
pub enum StoreVersionIncompatibility {
    /// The store's major version is below the supported one.
    RecordingTooOld {
        /// The major version of the store.
        recording_major: StoreFormatMajorVersion,
        /// The major version that is read.
        supported_major: StoreFormatMajorVersion,
        /// What to do with the recording.
        guidance: TooOldRecordingGuidance,
    },
    /// The store's major version is above the supported one.
    RecordingTooNew {
        /// The major version of the store.
        recording_major: StoreFormatMajorVersion,
        /// The major version that is read.
        supported_major: StoreFormatMajorVersion,
    },
    /// The majors are equal, and the store's minor version is above the supported one.
    MinorTooNew {
        /// The minor version of the store.
        recording_minor: StoreFormatMinorVersion,
        /// The greatest minor version that is read.
        supported_minor: StoreFormatMinorVersion,
    },
}

impl fmt::Display for StoreVersionIncompatibility {
    ghost use Rattle.std.specs.Prelude.{Some};
    ghost use Rattle.rec_format.specs.Incompatibility.{store_incompatibility_text};

    ghost output = { λ i. Some (store_incompatibility_text i) };

    fn fmt<W: fmt::Write>(&self, f: &mut fmt::Formatter<W>) -> fmt::Result {
        match self {
            StoreVersionIncompatibility::RecordingTooOld {
                recording_major,
                supported_major,
                guidance,
            } => {
                let guidance = GuidanceLine(*guidance);
                write!(
                    f,
                    "recording has major version {recording_major}, but this nextest requires \
                    version {supported_major}{guidance}"
                )
            }
            StoreVersionIncompatibility::RecordingTooNew {
                recording_major,
                supported_major,
            } => write!(
                f,
                "recording has major version {recording_major}, but this nextest only supports \
                version {supported_major} (upgrade nextest to replay this recording)"
            ),
            StoreVersionIncompatibility::MinorTooNew {
                recording_minor,
                supported_minor,
            } => write!(
                f,
                "minor version {recording_minor} is newer than supported version {supported_minor}"
            ),
        }
    }
}

/// Prints the incompatibility as `Display` does.
impl fmt::Debug for StoreVersionIncompatibility {
    fn fmt<W: fmt::Write>(&self, f: &mut fmt::Formatter<W>) -> fmt::Result {
        fmt::Display::fmt(self, f)
    }
}

/// Says why a bundle isn't read, with the two numbers that differ.
#[derive(Copy, Clone, PartialEq, Eq)]
pub enum PortableRecordingVersionIncompatibility {
    /// The bundle's major version is another one.
    MajorMismatch {
        /// The major version of the bundle.
        recording_major: PortableRecordingFormatMajorVersion,
        /// The major version that is read.
        supported_major: PortableRecordingFormatMajorVersion,
    },
    /// The majors are equal, and the bundle's minor version is above the supported one.
    MinorTooNew {
        /// The minor version of the bundle.
        recording_minor: PortableRecordingFormatMinorVersion,
        /// The greatest minor version that is read.
        supported_minor: PortableRecordingFormatMinorVersion,
    },
}

impl fmt::Display for PortableRecordingVersionIncompatibility {
    ghost use Rattle.std.specs.Prelude.{Some};
    ghost use Rattle.rec_format.specs.Incompatibility.{portable_incompatibility_text};

    ghost output = { λ i. Some (portable_incompatibility_text i) };

    fn fmt<W: fmt::Write>(&self, f: &mut fmt::Formatter<W>) -> fmt::Result {
        match self {
            PortableRecordingVersionIncompatibility::MajorMismatch {
                recording_major,
                supported_major,
            } => write!(
                f,
                "major version {recording_major} differs from supported version {supported_major}"
            ),
            PortableRecordingVersionIncompatibility::MinorTooNew {
                recording_minor,
                supported_minor,
            } => write!(
                f,
                "minor version {recording_minor} is newer than supported version {supported_minor}"
            ),
        }
    }
}

/// Prints the incompatibility as `Display` does.
impl fmt::Debug for PortableRecordingVersionIncompatibility {
    fn fmt<W: fmt::Write>(&self, f: &mut fmt::Formatter<W>) -> fmt::Result {
        fmt::Display::fmt(self, f)
    }
}

/// The guidance as a line of its own, or nothing.
#[derive(Copy, Clone)]
struct GuidanceLine(TooOldRecordingGuidance);

impl fmt::Display for GuidanceLine {
    ghost use Rattle.std.specs.Prelude.{Some};
    ghost use Rattle.rec_format.specs.Incompatibility.{guidance_text};

    ghost output = { λ line. Some (guidance_text line.0) };

    fn fmt<W: fmt::Write>(&self, f: &mut fmt::Formatter<W>) -> fmt::Result {
        match self.0 {
            TooOldRecordingGuidance::UseOlderNextest {
                last_nextest_version,
            } => write!(
                f,
                "\n(use nextest <= {last_nextest_version} to replay this recording)"
            ),
            TooOldRecordingGuidance::Discard {
                last_nextest_version,
            } => write!(
                f,
                "\n(recordings from nextest {last_nextest_version} and earlier are no longer \
                supported; discard this recording and record a new run)"
            ),
            TooOldRecordingGuidance::Unknown => Ok(()),
        }
    }
}
