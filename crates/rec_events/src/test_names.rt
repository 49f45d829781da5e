//! A set of test names, seen as the names in order.
ghost use Rattle.std.proofs.Common.{rules};
ghost use Rattle.std.specs.Cmp.Lexicographic.{pointwise};
ghost use Rattle.std.specs.Cmp.Rules.{comparing};
ghost use Rattle.std.specs.Prelude.{◌≡◌, ◌==◌, ℕ, List, [], OnOk, OnErr};
ghost use Rattle.rec_events.specs.Names.{texts, with_name, Rise, AreTexts};

use crate::{TestCaseName, TryClone};
use std::alloc::{AllocError, Global};
use std::collections::BTreeSet;
use std::marker::Model;

/// Holds a set of test names. Contracts see them in the order of their bytes, each once.
#[derive(Debug, Drop)]
pub struct TestNames {
    inner: BTreeSet<String>,
}

impl Model for TestNames {
    ghost use Rattle.std.specs.Prelude.{List, ℕ};
    ghost use Rattle.rec_events.specs.Names.{texts};

    ghost Value = { List (List ℕ) };

    ghost view = { λ s. texts s.inner.keys };
}

impl TestNames {
    /// Makes a set of these names.
    pub fn new(names: BTreeSet<String>) -> TestNames
        ensures { result ≡ texts names.keys }
    {
        TestNames { inner: names }
    }

    /// Makes an empty set: no names.
    pub fn empty(alloc: Global) -> TestNames
        ensures { result ≡ [] }
    {
        TestNames {
            inner: BTreeSet::new(alloc),
        }
    }

    /// Puts `name` at its place. A name that is there stays alone.
    ///
    /// # Errors
    ///
    /// `AllocError` means that there was not enough memory. The set is as it was.
    pub fn insert(&mut self, name: TestCaseName) -> Result<(), AllocError>
        ensures put { OnOk result (self.new ≡ with_name self.old name) }
        ensures unchanged { OnErr result (self.new ≡ self.old) }
    {
        self.inner.insert(name.into_string())?;
        Ok(())
    }

    /// Returns the set that holds the names.
    pub fn into_set(self) -> BTreeSet<String>
        ensures { texts result.keys ≡ self }
    {
        self.inner
    }

    /// Returns the names as a set of strings.
    pub fn as_set(&self) -> &BTreeSet<String>
        ensures names { texts result.now.keys ≡ self.now }
        ensures rise { Rise self.now }
        ensures texts { AreTexts self.now }
    {
        // that the names rise rests on the order of the set
        let _ordered = self.inner.len();
        &self.inner
    }
}

impl PartialEq for TestNames {
    ghost eq = { pointwise (pointwise ◌==◌) };

    ghost laws = { Prim.search (comparing, rules) };

    fn eq(&self, other: &TestNames) -> bool {
        self.inner == other.inner
    }
}

impl Eq for TestNames {
    ghost laws = { Prim.search (comparing, rules) };
}
