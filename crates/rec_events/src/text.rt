//! A text, seen as its bytes.
ghost use Rattle.std.proofs.Common.{rules};
ghost use Rattle.std.specs.Cmp.Lexicographic.{nat_list_cmp_total, pointwise};
ghost use Rattle.std.specs.Cmp.Lexicographic.{slice_cmp, texts_po, texts_ties};
ghost use Rattle.std.specs.Cmp.Rules.{comparing};
ghost use Rattle.std.specs.Ordering.{nat_cmp};
ghost use Rattle.std.specs.Prelude.{◌≡◌, ◌==◌, ℕ, List, Some, string_bytes, IfOk, IsTrue};
ghost use Rattle.std.specs.Str.{is_utf8};

use crate::TryClone;
use std::alloc::{AllocError, Global};
use std::cmp::Ordering;
use std::marker::Model;

/// Holds a text. Contracts see its bytes, which are UTF-8.
#[derive(Drop, Debug)]
pub struct Text {
    inner: String,
}

impl Model for Text {
    ghost Value = { List ℕ };

    ghost view = { λ t. string_bytes t.inner };
}

impl Text {
    /// Makes the text of a string.
    pub fn new(inner: String) -> Text
        ensures { result ≡ string_bytes inner }
    {
        Text { inner }
    }

    /// Makes a copy of `text`.
    ///
    /// # Errors
    ///
    /// `AllocError` means that there was not enough memory.
    pub fn from_str(alloc: Global, text: &str) -> Result<Text, AllocError>
        ensures value { IfOk result (λ t. t ≡ text.now) }
        ensures utf8 { IfOk result (λ t. IsTrue (is_utf8 t)) }
    {
        let text = Text {
            inner: String::from_str(alloc, text)?,
        };
        // that the text is UTF-8 rests on the string
        let _utf8 = text.as_str();
        Ok(text)
    }

    /// Returns the string that holds the text.
    pub fn into_string(self) -> String
        ensures { string_bytes result ≡ self }
    {
        self.inner
    }

    /// Returns the text itself.
    pub fn as_str(&self) -> &str
        ensures value { result.now ≡ self.now }
        ensures utf8 { IsTrue (is_utf8 self.now) }
    {
        self.inner.as_str()
    }
}

impl TryClone for Text {
    fn try_clone(&self, alloc: Global) -> Result<Text, AllocError> {
        Text::from_str(alloc, self.as_str())
    }
}

impl PartialEq for Text {
    ghost eq = { pointwise ◌==◌ };

    ghost laws = { Prim.search (comparing, rules) };

    fn eq(&self, other: &Text) -> bool {
        self.inner.as_str() == other.inner.as_str()
    }
}

impl Eq for Text {
    ghost laws = { Prim.search (comparing, rules) };
}

/// Orders texts by their bytes.
impl PartialOrd for Text {
    ghost partial_cmp = { λ x y. Some (slice_cmp nat_cmp x y) };

    ghost laws = { texts_po };

    fn partial_cmp(&self, other: &Text) -> Option<Ordering> {
        Some(self.cmp(other))
    }
}

/// Orders texts by their bytes.
impl Ord for Text {
    ghost cmp = { slice_cmp nat_cmp };

    ghost total = { nat_list_cmp_total };

    ghost matches_partial_cmp = { Prim.search rules };

    ghost matches_eq = { texts_ties };

    fn cmp(&self, other: &Text) -> Ordering {
        self.inner.as_str().cmp(other.inner.as_str())
    }
}
