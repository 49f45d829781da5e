//! How tests stand, by what was known before and by the events of a log.
ghost use Rattle.std.specs.BTreeMap.{get_by_text};
ghost use Rattle.std.specs.Prelude.{◌≡◌, None, OnOk, Some, if◌then◌else◌};
ghost use Rattle.rec_events.specs.declared.instances.OwnedTestInstanceId.{OwnedTestInstanceId};
ghost use Rattle.rec_events.specs.Tests.{is_named, test_eq, test_of};
ghost use Rattle.rec_rerun.specs.declared.standings.Standing.TheVariants.{Known};
ghost use Rattle.rec_rerun.specs.Seen.{seen};
ghost use Rattle.rec_rerun.specs.Standings.{Puts, at, ended, standing_after};
ghost use Rattle.rec_rerun.specs.Suites.{holds};

use crate::acts::Act;
use crate::suites::names_of;
use rec_events::{OwnedTestInstanceId, TestNames};
use rec_format::RerunSuites;
use std::alloc::{AllocError, Global};
use std::collections::BTreeMap;

/// Says how a test stands: whether it is known to have passed before, or whether it has passed
/// since the log started it.
#[derive(Clone, Copy)]
pub(crate) enum Standing {
    Known(bool),
    Started(bool),
}

/// Holds how each recorded test stands, by its binary and then by its name.
#[derive(Drop)]
pub(crate) struct Standings {
    alloc: Global,
    pub(crate) tests: BTreeMap<String, BTreeMap<String, Standing>>,
}

impl Standings {
    /// Makes the collection without a test.
    pub(crate) fn new(alloc: Global) -> Standings
        ensures { (t : OwnedTestInstanceId) → at result.tests t ≡ None }
    {
        Standings {
            alloc,
            tests: BTreeMap::new(alloc),
        }
    }

    /// Takes down how a test stands.
    fn put(&mut self, binary: &str, name: &str, standing: Standing) -> Result<(), AllocError>
        ensures ok { OnOk result
            (Puts self.old.tests (test_of binary.now name.now) standing self.new.tests) }
    {
        let Some(tests) = self.tests.get_mut(binary) else {
            return self.put_first(binary, name, standing);
        };
        tests.insert(String::from_str(self.alloc, name)?, standing)?;
        Ok(())
    }

    /// Takes down how the first test of a binary stands.
    fn put_first(&mut self, binary: &str, name: &str, standing: Standing) -> Result<(), AllocError>
        requires { get_by_text self.old.tests binary.now ≡ None }
        ensures ok { OnOk result
            (Puts self.old.tests (test_of binary.now name.now) standing self.new.tests) }
    {
        let mut tests = BTreeMap::new(self.alloc);
        tests.insert(String::from_str(self.alloc, name)?, standing)?;
        self.tests
            .insert(String::from_str(self.alloc, binary)?, tests)?;
        Ok(())
    }

    /// Says how a test stands, where it is recorded.
    fn standing(&self, test: &OwnedTestInstanceId) -> Option<Standing>
        ensures { result ≡ at self.now.tests test.now }
    {
        match self.tests.get(test.binary_id.as_str()) {
            Some(tests) => tests.get(test.test_name.as_str()).copied(),
            None => None,
        }
    }

    /// Takes down that a test ended, if the log started it.
    fn end(&mut self, test: &OwnedTestInstanceId, passed: bool) -> Result<(), AllocError>
        ensures ok { OnOk result ((t : OwnedTestInstanceId) →
            at self.new.tests t
            ≡ (if test_eq test.now t then ended passed (at self.old.tests t) else at self.old.tests
            t)) }
    {
        let Some(Standing::Started(_)) = self.standing(test) else {
            return Ok(());
        };
        self.put(
            test.binary_id.as_str(),
            test.test_name.as_str(),
            Standing::Started(passed),
        )
    }

    /// Takes down an event.
    pub(crate) fn take(&mut self, act: Act<'_>) -> Result<(), AllocError>
        ensures ok { OnOk result ((t : OwnedTestInstanceId) →
            at self.new.tests t ≡ standing_after (seen act.entry) t (at self.old.tests t)) }
    {
        match act {
            Act::Starts { test } => self.put(
                test.binary_id.as_str(),
                test.test_name.as_str(),
                Standing::Started(false),
            ),
            Act::Ends { test, passed } => self.end(test, passed),
            Act::Silent => Ok(()),
        }
    }

    /// Takes down the passing tests of all suites, or the outstanding ones.
    pub(crate) fn note(&mut self, suites: &RerunSuites, passed: bool) -> Result<(), AllocError>
        ensures ok { OnOk result ((t : OwnedTestInstanceId) →
            at self.new.tests t
            ≡ (if holds passed suites.now t then Some (Known passed) else at self.old.tests t)) }
    {
        for suite in suites.as_map().values() {
            self.note_names(suite.binary_id.as_str(), names_of(suite, passed), passed)?;
        }
        Ok(())
    }

    /// Takes down tests of a binary.
    fn note_names(
        &mut self,
        binary: &str,
        names: &TestNames,
        passed: bool,
    ) -> Result<(), AllocError>
        ensures ok { OnOk result ((t : OwnedTestInstanceId) →
            at self.new.tests t
            ≡ (if is_named binary.now names.now t then Some (Known passed) else at self.old.tests
            t)) }
    {
        for name in names.as_set() {
            self.put(binary, name.as_str(), Standing::Known(passed))?;
        }
        Ok(())
    }
}
