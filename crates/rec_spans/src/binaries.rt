//! The binaries that have started an attempt of a test, each with its number.
ghost use Rattle.std.specs.Prelude.{◌≡◌, [], length, IfOk, OnOk, OnErr};
ghost use Rattle.rec_spans.specs.Opened.{is_new, without_binary};
ghost use Rattle.rec_spans.specs.Past.{number_of, with_binary};

use rec_events::{RustBinaryId, TryClone};
use std::alloc::{AllocError, Global};
use std::collections::BTreeMap;
use std::marker::Model;

/// Keeps the binaries by their ids, each with the number of those that started an attempt before
/// it.
#[derive(Drop)]
pub struct Binaries {
    numbers: BTreeMap<RustBinaryId, usize>,
}

impl Model for Binaries {
    ghost use Rattle.std.specs.Prelude.{List, ℕ};

    ghost Value = { List (List ℕ × ℕ) };

    ghost view = { λ binaries. binaries.numbers.entries };
}

impl Binaries {
    /// Makes the collection without a binary.
    pub fn new(alloc: Global) -> Binaries
        ensures { result ≡ [] }
    {
        Binaries {
            numbers: BTreeMap::new(alloc),
        }
    }

    /// Returns how many binaries there are.
    pub fn len(&self) -> usize
        ensures { result ≡ length self.now }
    {
        self.numbers.len()
    }

    /// Returns the number of a binary, where it is there.
    pub fn number(&self, id: &RustBinaryId) -> Option<usize>
        ensures { result ≡ number_of id.now self.now }
    {
        self.numbers.get(id).copied()
    }

    /// Adds a binary, which gets the number of those that are there, if it isn't there itself.
    /// Returns whether it was added.
    ///
    /// # Errors
    ///
    /// Fails only where memory ran out. Nothing is added then.
    pub fn add(&mut self, alloc: Global, id: &RustBinaryId) -> Result<bool, AllocError>
        ensures ok { OnOk result (self.new ≡ with_binary id.now self.old) }
        ensures added { IfOk result (λ added. added ≡ is_new id.now self.old) }
        ensures err { OnErr result (self.new ≡ self.old) }
    {
        if self.number(id).is_some() {
            return Ok(false);
        }
        let number = self.numbers.len();
        self.numbers.insert(id.try_clone(alloc)?, number)?;
        Ok(true)
    }

    /// Removes a binary, if it is there.
    pub fn remove(&mut self, id: &RustBinaryId)
        ensures { self.new ≡ without_binary id.now self.old }
    {
        self.numbers.remove(id);
    }
}
