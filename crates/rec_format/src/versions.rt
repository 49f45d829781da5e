//! The versions of the two formats, and which recording is read by which program.
ghost use Rattle.std.specs.Prelude.{◌≡◌, ◌≤◌, ◌↔◌, IsOk, option_map};
ghost use Rattle.rec_format.specs.Versions.{store_readable, portable_readable};
ghost use Rattle.rec_format.specs.Versions.{guidance, store_version_of, number_of};

use crate::{
    PortableRecordingVersionIncompatibility, Release, StoreVersionIncompatibility,
    TooOldRecordingGuidance,
};
use std::fmt;
use std::marker::Model;

/// Numbers a major version of the store's format. A store of another one isn't read.
#[derive(Copy, Clone, PartialEq, Eq, PartialOrd, Ord, Debug)]
pub struct StoreFormatMajorVersion {
    version: u32,
}

impl Model for StoreFormatMajorVersion {
    ghost use Rattle.std.specs.Prelude.{ℕ};

    ghost Value = { ℕ };

    ghost view = { λ v. v.version };

    ghost inverse = { λ n. record { version = n } };
}

impl StoreFormatMajorVersion {
    /// Makes the major version with this number.
    pub const fn new(version: u32) -> Self
        ensures { result ≡ version }
    {
        StoreFormatMajorVersion { version }
    }

    /// Returns the number.
    pub fn number(self) -> u32
        ensures { result ≡ self }
    {
        self.version
    }
}

impl fmt::Display for StoreFormatMajorVersion {
    ghost use Rattle.std.specs.Fmt.{decimal};
    ghost use Rattle.std.specs.Prelude.{Some};

    ghost output = { λ v. Some (decimal v) };

    fn fmt<W: fmt::Write>(&self, f: &mut fmt::Formatter<W>) -> fmt::Result {
        fmt::Display::fmt(&self.version, f)
    }
}

/// Numbers a minor version of the store's format. A store of an older one is still read.
#[derive(Copy, Clone, PartialEq, Eq, PartialOrd, Ord, Debug)]
pub struct StoreFormatMinorVersion {
    version: u32,
}

impl Model for StoreFormatMinorVersion {
    ghost use Rattle.std.specs.Prelude.{ℕ};

    ghost Value = { ℕ };

    ghost view = { λ v. v.version };

    ghost inverse = { λ n. record { version = n } };
}

impl Default for StoreFormatMinorVersion {
    ghost use Rattle.std.specs.Prelude.{◌≡◌};

    ghost is_default = { λ v. v ≡ 0 };

    fn default() -> StoreFormatMinorVersion {
        StoreFormatMinorVersion::new(0)
    }
}

impl StoreFormatMinorVersion {
    /// Makes the minor version with this number.
    pub const fn new(version: u32) -> Self
        ensures { result ≡ version }
    {
        StoreFormatMinorVersion { version }
    }

    /// Returns the number.
    pub fn number(self) -> u32
        ensures { result ≡ self }
    {
        self.version
    }
}

impl fmt::Display for StoreFormatMinorVersion {
    ghost use Rattle.std.specs.Fmt.{decimal};
    ghost use Rattle.std.specs.Prelude.{Some};

    ghost output = { λ v. Some (decimal v) };

    fn fmt<W: fmt::Write>(&self, f: &mut fmt::Formatter<W>) -> fmt::Result {
        fmt::Display::fmt(&self.version, f)
    }
}

/// Numbers a major version of the bundle's format. A bundle of another one isn't read.
#[derive(Copy, Clone, PartialEq, Eq, PartialOrd, Ord, Debug)]
pub struct PortableRecordingFormatMajorVersion {
    version: u32,
}

impl Model for PortableRecordingFormatMajorVersion {
    ghost use Rattle.std.specs.Prelude.{ℕ};

    ghost Value = { ℕ };

    ghost view = { λ v. v.version };

    ghost inverse = { λ n. record { version = n } };
}

impl PortableRecordingFormatMajorVersion {
    /// Makes the major version with this number.
    pub const fn new(version: u32) -> Self
        ensures { result ≡ version }
    {
        PortableRecordingFormatMajorVersion { version }
    }

    /// Returns the number.
    pub fn number(self) -> u32
        ensures { result ≡ self }
    {
        self.version
    }
}

impl fmt::Display for PortableRecordingFormatMajorVersion {
    ghost use Rattle.std.specs.Fmt.{decimal};
    ghost use Rattle.std.specs.Prelude.{Some};

    ghost output = { λ v. Some (decimal v) };

    fn fmt<W: fmt::Write>(&self, f: &mut fmt::Formatter<W>) -> fmt::Result {
        fmt::Display::fmt(&self.version, f)
    }
}

/// Numbers a minor version of the bundle's format. A bundle of an older one is still read.
#[derive(Copy, Clone, PartialEq, Eq, PartialOrd, Ord, Debug)]
pub struct PortableRecordingFormatMinorVersion {
    version: u32,
}

impl Model for PortableRecordingFormatMinorVersion {
    ghost use Rattle.std.specs.Prelude.{ℕ};

    ghost Value = { ℕ };

    ghost view = { λ v. v.version };

    ghost inverse = { λ n. record { version = n } };
}

impl Default for PortableRecordingFormatMinorVersion {
    ghost use Rattle.std.specs.Prelude.{◌≡◌};

    ghost is_default = { λ v. v ≡ 0 };

    fn default() -> PortableRecordingFormatMinorVersion {
        PortableRecordingFormatMinorVersion::new(0)
    }
}

impl PortableRecordingFormatMinorVersion {
    /// Makes the minor version with this number.
    pub const fn new(version: u32) -> Self
        ensures { result ≡ version }
    {
        PortableRecordingFormatMinorVersion { version }
    }

    /// Returns the number.
    pub fn number(self) -> u32
        ensures { result ≡ self }
    {
        self.version
    }
}

impl fmt::Display for PortableRecordingFormatMinorVersion {
    ghost use Rattle.std.specs.Fmt.{decimal};
    ghost use Rattle.std.specs.Prelude.{Some};

    ghost output = { λ v. Some (decimal v) };

    fn fmt<W: fmt::Write>(&self, f: &mut fmt::Formatter<W>) -> fmt::Result {
        fmt::Display::fmt(&self.version, f)
    }
}

/// Names the version of the format that a store is written in, 3.1. `docs/FORMATS.md#manifest` says
/// how 3.1 differs from 3.0.
pub const STORE_FORMAT_VERSION: StoreFormatVersion = StoreFormatVersion {
    major: StoreFormatMajorVersion { version: 3 },
    minor: StoreFormatMinorVersion { version: 1 },
};

/// Names a version of the store's format, printed as `major.minor`.
#[derive(Copy, Clone, PartialEq, Eq, Debug)]
pub struct StoreFormatVersion {
    /// The major version.
    pub major: StoreFormatMajorVersion,
    /// The minor version.
    pub minor: StoreFormatMinorVersion,
}

impl StoreFormatVersion {
    /// Makes the version of these two numbers.
    pub const fn new(major: StoreFormatMajorVersion, minor: StoreFormatMinorVersion) -> Self
        ensures { result ≡ record { major = major; minor = minor } }
    {
        StoreFormatVersion { major, minor }
    }

    /// Checks that a program which supports a version reads a store of this one: exactly where the
    /// majors are equal and this minor isn't newer, the rule of `docs/FORMATS.md#manifest`.
    ///
    /// # Errors
    ///
    /// - `RecordingTooOld` where this major is below the supported one, with what to do then.
    /// - `RecordingTooNew` where this major is above the supported one.
    /// - `MinorTooNew` where the majors are equal, and this minor is above the supported one.
    pub fn check_readable_by(self, supported: Self) -> Result<(), StoreVersionIncompatibility>
        ensures answer { result ≡ store_readable self supported }
        ensures readable { IsOk result
            ↔ ((self.major ≡ supported.major) × (self.minor ≤ supported.minor)) }
    {
        let (recording_major, supported_major) = (self.major, supported.major);
        let (recording_minor, supported_minor) = (self.minor, supported.minor);
        if recording_major < supported_major {
            return Err(StoreVersionIncompatibility::RecordingTooOld {
                recording_major,
                supported_major,
                guidance: recording_major.too_old_guidance(),
            });
        }
        if recording_major > supported_major {
            return Err(StoreVersionIncompatibility::RecordingTooNew {
                recording_major,
                supported_major,
            });
        }
        if recording_minor > supported_minor {
            return Err(StoreVersionIncompatibility::MinorTooNew {
                recording_minor,
                supported_minor,
            });
        }
        Ok(())
    }
}

impl fmt::Display for StoreFormatVersion {
    ghost use Rattle.std.specs.Prelude.{Some};
    ghost use Rattle.rec_format.specs.Versions.{version_text};

    ghost output = { λ v. Some (version_text v.major v.minor) };

    fn fmt<W: fmt::Write>(&self, f: &mut fmt::Formatter<W>) -> fmt::Result {
        let (major, minor) = (self.major, self.minor);
        write!(f, "{major}.{minor}")
    }
}

/// Names the version of the format that a bundle is written in, 1.1.
pub const PORTABLE_RECORDING_FORMAT_VERSION: PortableRecordingFormatVersion =
    PortableRecordingFormatVersion {
        major: PortableRecordingFormatMajorVersion { version: 1 },
        minor: PortableRecordingFormatMinorVersion { version: 1 },
    };

/// Names a version of the bundle's format, printed as `major.minor`.
#[derive(Copy, Clone, PartialEq, Eq, Debug)]
pub struct PortableRecordingFormatVersion {
    /// The major version.
    pub major: PortableRecordingFormatMajorVersion,
    /// The minor version.
    pub minor: PortableRecordingFormatMinorVersion,
}

impl PortableRecordingFormatVersion {
    /// Makes the version of these two numbers.
    pub const fn new(
        major: PortableRecordingFormatMajorVersion,
        minor: PortableRecordingFormatMinorVersion,
    ) -> Self
        ensures { result ≡ record { major = major; minor = minor } }
    {
        PortableRecordingFormatVersion { major, minor }
    }

    /// Checks that a program which supports a version reads a bundle of this one: exactly where the
    /// majors are equal and this minor isn't newer, the rule of `docs/FORMATS.md#manifest`.
    ///
    /// # Errors
    ///
    /// - `MajorMismatch` where this major is another than the supported one.
    /// - `MinorTooNew` where the majors are equal, and this minor is above the supported one.
    pub fn check_readable_by(
        self,
        supported: Self,
    ) -> Result<(), PortableRecordingVersionIncompatibility>
        ensures answer { result ≡ portable_readable self supported }
        ensures readable { IsOk result
            ↔ ((self.major ≡ supported.major) × (self.minor ≤ supported.minor)) }
    {
        if self.major != supported.major {
            return Err(PortableRecordingVersionIncompatibility::MajorMismatch {
                recording_major: self.major,
                supported_major: supported.major,
            });
        }
        if self.minor > supported.minor {
            return Err(PortableRecordingVersionIncompatibility::MinorTooNew {
                recording_minor: self.minor,
                supported_minor: supported.minor,
            });
        }
        Ok(())
    }
}

impl fmt::Display for PortableRecordingFormatVersion {
    ghost use Rattle.std.specs.Prelude.{Some};
    ghost use Rattle.rec_format.specs.Versions.{version_text};

    ghost output = { λ v. Some (version_text v.major v.minor) };

    fn fmt<W: fmt::Write>(&self, f: &mut fmt::Formatter<W>) -> fmt::Result {
        let (major, minor) = (self.major, self.minor);
        write!(f, "{major}.{minor}")
    }
}

/// Names the version of the format that a run list is written in, 3. `docs/FORMATS.md#run-list`
/// says which list is written back.
pub const RUNS_JSON_FORMAT_VERSION: RunsJsonFormatVersion = RunsJsonFormatVersion { version: 3 };

/// Numbers a version of the run list's format. A list of a newer one isn't written back.
#[derive(Copy, Clone, PartialEq, Eq, PartialOrd, Ord, Debug)]
pub struct RunsJsonFormatVersion {
    version: u32,
}

impl Model for RunsJsonFormatVersion {
    ghost use Rattle.std.specs.Prelude.{ℕ};

    ghost Value = { ℕ };

    ghost view = { λ v. v.version };

    ghost inverse = { λ n. record { version = n } };
}

impl RunsJsonFormatVersion {
    /// Makes the version with this number.
    pub const fn new(version: u32) -> Self
        ensures { result ≡ version }
    {
        RunsJsonFormatVersion { version }
    }

    pub(crate) fn number(self) -> u32
        ensures { result ≡ self }
    {
        self.version
    }
}

impl fmt::Display for RunsJsonFormatVersion {
    ghost use Rattle.std.specs.Fmt.{decimal};
    ghost use Rattle.std.specs.Prelude.{Some};

    ghost output = { λ v. Some (decimal v) };

    fn fmt<W: fmt::Write>(&self, f: &mut fmt::Formatter<W>) -> fmt::Result {
        fmt::Display::fmt(&self.version, f)
    }
}

impl StoreFormatMajorVersion {
    /// Returns what to do with a recording of this major version where it is too old to be read.
    ///
    /// The releases 0.9.130 and 0.9.149, the last ones whose recordings have major version 1 and 2,
    /// are set by this program; `docs/CLI.md#where-to-look` says what they mean to a user.
    pub fn too_old_guidance(self) -> TooOldRecordingGuidance
        ensures { result ≡ guidance self }
    {
        match self.version {
            1 => TooOldRecordingGuidance::Discard {
                last_nextest_version: Release {
                    major: 0,
                    minor: 9,
                    patch: 130,
                },
            },
            2 => TooOldRecordingGuidance::Discard {
                last_nextest_version: Release {
                    major: 0,
                    minor: 9,
                    patch: 149,
                },
            },
            _ => TooOldRecordingGuidance::Unknown,
        }
    }
}

/// Returns the store version that a new recording gets: that of the text, or the supported one
/// where none is given. A text is two numbers of one or more decimal digits that fit 32 bits, with
/// a dot between them; for any other the answer is `None`.
pub fn store_format_version_for(text: Option<&str>) -> Option<StoreFormatVersion>
    ensures { result ≡ store_version_of (option_map (λ t. t.now) text.entry) }
{
    let Some(text) = text else {
        return Some(STORE_FORMAT_VERSION);
    };
    let (major, minor) = text.split_once('.')?;
    Some(StoreFormatVersion {
        major: StoreFormatMajorVersion::new(version_number(major)?),
        minor: StoreFormatMinorVersion::new(version_number(minor)?),
    })
}

/// A number of one or more decimal digits. Unlike `parse`, it refuses a sign.
fn version_number(text: &str) -> Option<u32>
    ensures { result ≡ number_of text.now }
{
    if text.starts_with('+') {
        return None;
    }
    text.parse().ok()
}
