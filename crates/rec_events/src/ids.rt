//! Names and numbers that identify.
ghost use Rattle.std.proofs.Common.{rules};
ghost use Rattle.std.specs.Cmp.Rules.{hashing};
ghost use Rattle.std.specs.Hash as fed;
ghost use Rattle.std.specs.Prelude.{◌≡◌, ℕ, List, IfOk, IsTrue, string_bytes};
ghost use Rattle.std.specs.Str.{is_utf8};

use crate::{Text, TryClone};
use std::alloc::{AllocError, Global};
use std::fmt;
use std::hash::{Hash, Hasher};
use std::marker::Model;
use uuid::Uuid;

/// Names a test binary. Any text is a name.
#[derive(PartialEq, Eq, PartialOrd, Ord, Drop, Debug)]
pub struct RustBinaryId {
    text: Text,
}

impl Model for RustBinaryId {
    ghost Value = { List ℕ };

    ghost view = { λ id. id.text };

    ghost inverse = { λ text. record { text = text } };
}

impl RustBinaryId {
    /// Makes the id of the binary of this name.
    pub fn new(text: String) -> RustBinaryId
        ensures { result ≡ string_bytes text }
    {
        RustBinaryId {
            text: Text::new(text),
        }
    }

    /// Returns the name.
    pub fn as_str(&self) -> &str
        ensures value { result.now ≡ self.now }
        ensures utf8 { IsTrue (is_utf8 self.now) }
    {
        self.text.as_str()
    }

    /// Returns the string that holds the name.
    pub fn into_string(self) -> String
        ensures { string_bytes result ≡ self }
    {
        self.text.into_string()
    }
}

impl TryClone for RustBinaryId {
    fn try_clone(&self, alloc: Global) -> Result<RustBinaryId, AllocError> {
        Ok(RustBinaryId {
            text: self.text.try_clone(alloc)?,
        })
    }
}

impl Hash for RustBinaryId {
    ghost hash_input = { fed.str };

    ghost respects_eq = { Prim.search (hashing, rules) };

    fn hash<H: Hasher>(&self, state: &mut H) {
        self.text.as_str().hash(state);
    }
}

/// Names a test within its binary. Any text is a name.
#[derive(PartialEq, Eq, PartialOrd, Ord, Drop, Debug)]
pub struct TestCaseName {
    text: Text,
}

impl Model for TestCaseName {
    ghost Value = { List ℕ };

    ghost view = { λ name. name.text };

    ghost inverse = { λ text. record { text = text } };
}

impl TestCaseName {
    /// Makes the name that this text is.
    pub fn new(text: String) -> TestCaseName
        ensures { result ≡ string_bytes text }
    {
        TestCaseName {
            text: Text::new(text),
        }
    }

    /// Returns the name.
    pub fn as_str(&self) -> &str
        ensures value { result.now ≡ self.now }
        ensures utf8 { IsTrue (is_utf8 self.now) }
    {
        self.text.as_str()
    }

    /// Returns the string that holds the name.
    pub fn into_string(self) -> String
        ensures { string_bytes result ≡ self }
    {
        self.text.into_string()
    }
}

impl TryClone for TestCaseName {
    fn try_clone(&self, alloc: Global) -> Result<TestCaseName, AllocError> {
        Ok(TestCaseName {
            text: self.text.try_clone(alloc)?,
        })
    }
}

/// Names a setup script. Any text is a name.
#[derive(PartialEq, Eq, Drop)]
pub struct ScriptId {
    text: Text,
}

impl Model for ScriptId {
    ghost Value = { List ℕ };

    ghost view = { λ id. id.text };

    ghost inverse = { λ text. record { text = text } };
}

impl ScriptId {
    /// Makes the id of the script of this name.
    pub fn new(text: String) -> ScriptId
        ensures { result ≡ string_bytes text }
    {
        ScriptId {
            text: Text::new(text),
        }
    }

    /// Returns the name.
    pub fn as_str(&self) -> &str
        ensures value { result.now ≡ self.now }
        ensures utf8 { IsTrue (is_utf8 self.now) }
    {
        self.text.as_str()
    }

    /// Returns the string that holds the name.
    pub fn into_string(self) -> String
        ensures { string_bytes result ≡ self }
    {
        self.text.into_string()
    }
}

impl TryClone for ScriptId {
    fn try_clone(&self, alloc: Global) -> Result<ScriptId, AllocError> {
        Ok(ScriptId {
            text: self.text.try_clone(alloc)?,
        })
    }
}

impl Hash for ScriptId {
    ghost hash_input = { fed.str };

    ghost respects_eq = { Prim.search (hashing, rules) };

    fn hash<H: Hasher>(&self, state: &mut H) {
        self.text.as_str().hash(state);
    }
}

/// Holds the id of a run, a UUID (RFC 9562). Contracts see its sixteen bytes.
/// `docs/FORMATS.md#rules-for-json` says in which forms it is read and written.
#[derive(Clone, Copy, PartialEq, Eq, Drop)]
pub struct ReportUuid {
    uuid: Uuid,
}

impl Model for ReportUuid {
    ghost Value = { List ℕ };

    ghost view = { λ id. id.uuid };

    ghost inverse = { λ uuid. record { uuid = uuid } };
}

impl ReportUuid {
    /// Makes the id of the run that has this UUID.
    pub fn new(uuid: Uuid) -> ReportUuid
        ensures { result ≡ uuid }
    {
        ReportUuid { uuid }
    }

    /// Returns the UUID itself.
    pub fn uuid(&self) -> Uuid
        ensures { result ≡ self.now }
    {
        self.uuid
    }
}

/// Writes the UUID hyphenated, in lower case.
impl fmt::Display for ReportUuid {
    ghost use Rattle.std.specs.Prelude.{Some};
    ghost use Rattle.uuid.specs.Text.{lower, hyphenated_text};

    ghost output = { λ id. Some (hyphenated_text lower id) };

    fn fmt<W: fmt::Write>(&self, f: &mut fmt::Formatter<W>) -> fmt::Result {
        fmt::Display::fmt(&self.uuid, f)
    }
}
