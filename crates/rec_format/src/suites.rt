//! The test suites of a rerun, by their binaries.
ghost use Rattle.std.specs.Option.{option_copied};
ghost use Rattle.std.specs.Prelude.{◌≡◌, ◌<◌, List, [], length, map, slice_get};
ghost use Rattle.std.specs.Prelude.{Some, IfOk, OnOk, OnErr, option_map};
ghost use Rattle.rec_format.specs.SuiteEntries.{suites_in};
ghost use Rattle.rec_format.specs.Suites.{put_suite, suite_of, SuitesRise};

use rec_events::{RustBinaryId, TestNames};
use std::alloc::{AllocError, Global};
use std::collections::BTreeMap;
use std::marker::Model;

/// Lists which tests of a binary passed, and which are still to pass.
#[derive(PartialEq, Eq, Debug, Drop)]
pub struct RerunTestSuiteInfo {
    /// The id of the binary.
    pub binary_id: RustBinaryId,
    /// The tests that passed.
    pub passing: TestNames,
    /// The tests that are still to pass.
    pub outstanding: TestNames,
}

/// Holds test suites by binary id. Contracts see them in the order of their ids' bytes; no two have
/// one id.
#[derive(Drop)]
pub struct RerunSuites {
    alloc: Global,
    inner: BTreeMap<String, RerunTestSuiteInfo>,
}

impl Model for RerunSuites {
    ghost use Rattle.std.specs.Prelude.{List};
    ghost use Rattle.rec_format.specs.declared.suites.RerunTestSuiteInfo.{RerunTestSuiteInfo};

    ghost Value = { List RerunTestSuiteInfo };

    ghost use Rattle.rec_format.specs.SuiteEntries.{suites_in, AreNamed};

    ghost view = { λ s. suites_in s.inner.entries };

    ghost invariant = { λ s. AreNamed s.inner.entries };
}

impl RerunSuites {
    /// Makes a collection without suites.
    pub fn new(alloc: Global) -> RerunSuites
        ensures { result ≡ [] }
    {
        RerunSuites {
            alloc,
            inner: BTreeMap::new(alloc),
        }
    }

    /// Puts a suite at its place, and returns the suite of its binary that was there.
    ///
    /// # Errors
    ///
    /// `AllocError` where memory is short. The suites are then as they were.
    pub fn insert(
        &mut self,
        suite: RerunTestSuiteInfo,
    ) -> Result<Option<RerunTestSuiteInfo>, AllocError>
        ensures replaced { IfOk result (λ old. old ≡ suite_of suite.binary_id self.old) }
        ensures put { OnOk result (self.new ≡ put_suite suite self.old) }
        ensures unchanged { OnErr result (self.new ≡ self.old) }
    {
        let id = String::from_str(self.alloc, suite.binary_id.as_str())?;
        Ok(self.inner.insert(id, suite)?)
    }

    /// Returns the suite of a binary.
    pub fn get(&self, binary_id: &RustBinaryId) -> Option<&RerunTestSuiteInfo>
        ensures { option_copied result ≡ suite_of binary_id.now self.now }
    {
        self.inner.get(binary_id.as_str())
    }

    /// Returns the number of suites.
    pub fn len(&self) -> usize
        ensures { result ≡ length self.now }
    {
        self.inner.len()
    }

    /// Returns the suite at a place in the order of binary ids.
    pub fn suite(&self, i: usize) -> &RerunTestSuiteInfo
        requires { i < length self.now }
        ensures { slice_get self.now i ≡ Some result.now }
    {
        self.inner.values().nth(i).unwrap()
    }

    /// Returns the suites by the ids of their binaries.
    pub fn as_map(&self) -> &BTreeMap<String, RerunTestSuiteInfo>
        ensures suites { suites_in result.now.entries ≡ self.now }
        ensures rise { SuitesRise self.now }
    {
        // that the suites rise rests on the order of the map
        let _ordered = self.inner.len();
        &self.inner
    }
}
