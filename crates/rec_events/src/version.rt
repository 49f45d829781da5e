//! Versions.
ghost use Rattle.std.specs.Prelude.{◌≡◌, Ok, Err, IfOk, IsErr, IsTrue};
ghost use Rattle.std.specs.Str.{is_utf8};
ghost use Rattle.semver.specs.Identifiers.{parts_of, parts_text};
ghost use Rattle.semver.specs.Parse.{version_parts};
ghost use Rattle.rec_events.specs.declared.version.VersionError.TheVariants.{NotAVersion};
ghost use Rattle.rec_events.specs.Versions.{IsVersion};

use crate::{Text, TryClone};
use std::alloc::{AllocError, Global};
use std::fmt;
use std::marker::Model;
use thiserror::Error;

/// Says why no version is read from a text.
#[derive(Clone, Copy, PartialEq, Eq, Debug, Drop, Error)]
pub enum VersionError {
    /// The text is no version for `semver`.
    #[error("the text is not a version")]
    NotAVersion,
    /// There was not enough memory to say.
    #[error("out of memory")]
    OutOfMemory,
}

/// Holds a `semver` version. Contracts see its parts: three numbers, the pre-release and the build
/// metadata. Each is made from its text, so its text reads as it.
#[derive(Drop)]
pub struct Version {
    inner: semver::Version,
}

impl Model for Version {
    ghost use Rattle.semver.specs.Identifiers.{parts_of};
    ghost use Rattle.semver.specs.Parse.{Parts};
    ghost use Rattle.rec_events.specs.Versions.{IsVersion};

    ghost Value = { Parts };

    ghost view = { λ v. parts_of v.inner };

    ghost invariant = { λ v. IsVersion (parts_of v.inner) };
}

impl Version {
    /// Makes the version that `text` is.
    ///
    /// # Errors
    ///
    /// `NotAVersion` comes only where `semver` reads no version, and `OutOfMemory` where there was
    /// not enough memory to say.
    pub fn parse(alloc: Global, text: &str) -> Result<Version, VersionError>
        ensures ok { IfOk result (λ v. version_parts text.now ≡ Ok v) }
        ensures refused { result ≡ Err NotAVersion → IsErr (version_parts text.now) }
    {
        match semver::Version::parse(alloc, text) {
            Ok(inner) => Ok(Version { inner }),
            Err(error) if error == semver::Error::from(AllocError) => {
                Err(VersionError::OutOfMemory)
            }
            Err(_) => Err(VersionError::NotAVersion),
        }
    }

    /// Returns the text that reads as the version.
    ///
    /// # Errors
    ///
    /// `AllocError` means that there was not enough memory.
    pub fn to_text(&self, alloc: Global) -> Result<Text, AllocError>
        ensures value { IfOk result (λ t. t ≡ parts_text self.now) }
        ensures reads { IfOk result (λ t. version_parts t ≡ Ok self.now) }
        ensures utf8 { IfOk result (λ t. IsTrue (is_utf8 t)) }
    {
        let text = Text::new(self.inner.to_string(alloc)?);
        // that the text is UTF-8 rests on the string
        let _utf8 = text.as_str();
        Ok(text)
    }

    /// Returns the version for `semver`, as for a comparison.
    pub fn as_semver(&self) -> &semver::Version
        ensures parts { parts_of result.now ≡ self.now }
        ensures known { IsVersion self.now }
    {
        &self.inner
    }
}

impl TryClone for Version {
    fn try_clone(&self, alloc: Global) -> Result<Version, AllocError> {
        let text = self.to_text(alloc)?;
        match Version::parse(alloc, text.as_str()) {
            Ok(version) => Ok(version),
            Err(VersionError::OutOfMemory) => Err(AllocError),
            // the text of a version reads as it
            Err(VersionError::NotAVersion) => unreachable!(),
        }
    }
}

impl fmt::Display for Version {
    ghost use Rattle.std.specs.Prelude.{Some};
    ghost use Rattle.semver.specs.Identifiers.{parts_text};

    ghost output = { λ v. Some (parts_text v) };

    fn fmt<W: fmt::Write>(&self, f: &mut fmt::Formatter<W>) -> fmt::Result {
        fmt::Display::fmt(&self.inner, f)
    }
}
