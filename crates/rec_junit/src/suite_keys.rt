//! What suites are known by, and how they are called.
ghost use Rattle.std.specs.Fmt.{decimal};
ghost use Rattle.std.specs.Prelude.{◌≡◌, ◌++◌, IfOk, codes, option_map};
ghost use Rattle.rec_junit.specs.declared.suite_keys.SuiteSubject.TheVariants.{Script, Binary};
ghost use Rattle.rec_junit.specs.Suites.{key_of, stress_key, subject_name, suite_name};

use rec_events::{RustBinaryId, ScriptId, StressIndex, Text, TryClone};
use std::alloc::{AllocError, Global};

/// Says what a suite is of.
#[derive(PartialEq, Eq, Hash, Drop)]
pub(crate) enum SuiteSubject {
    /// A setup script.
    Script(ScriptId),
    /// A test binary.
    Binary(RustBinaryId),
}

/// Says which run of a stress run a suite is of, and of how many where that is known.
#[derive(Clone, Copy, PartialEq, Eq, Hash, Drop)]
pub(crate) struct StressKey {
    /// How many sub-runs come before it.
    pub current: u32,
    /// How many sub-runs there are to be, where that is known.
    pub total: Option<u32>,
}

/// Says what a suite is known by: a script or a binary, in one run of a stress run.
#[derive(PartialEq, Eq, Hash, Drop)]
pub(crate) struct SuiteKey {
    /// What the suite is of.
    pub subject: SuiteSubject,
    /// The sub-run that it is of; `None` outside a stress run.
    pub stress_index: Option<StressKey>,
}

/// Gives a stress index as it stands in a key.
fn stress_key(index: &Option<StressIndex>) -> Option<StressKey>
    ensures { result ≡ option_map stress_key index.now }
{
    match index {
        Some(index) => Some(StressKey {
            current: index.current,
            total: match index.total {
                Some(total) => Some(total.get()),
                None => None,
            },
        }),
        None => None,
    }
}

impl SuiteKey {
    /// Makes the key of a script's suite.
    pub fn of_script(
        alloc: Global,
        script: &ScriptId,
        stress_index: &Option<StressIndex>,
    ) -> Result<SuiteKey, AllocError>
        ensures { IfOk result (λ key. key ≡ key_of (Script script.now) stress_index.now) }
    {
        let id = script.try_clone(alloc)?;
        Ok(SuiteKey {
            subject: SuiteSubject::Script(id),
            stress_index: stress_key(stress_index),
        })
    }

    /// Makes the key of a binary's suite.
    pub fn of_binary(
        alloc: Global,
        binary: &RustBinaryId,
        stress_index: &Option<StressIndex>,
    ) -> Result<SuiteKey, AllocError>
        ensures { IfOk result (λ key. key ≡ key_of (Binary binary.now) stress_index.now) }
    {
        let id = binary.try_clone(alloc)?;
        Ok(SuiteKey {
            subject: SuiteSubject::Binary(id),
            stress_index: stress_key(stress_index),
        })
    }

    /// Names the suite.
    pub fn suite_name(&self, alloc: Global) -> Result<Text, AllocError>
        ensures { IfOk result (λ name. name ≡ suite_name self.now) }
    {
        let subject = self.subject.name(alloc)?;
        match &self.stress_index {
            Some(index) => with_stress_suffix(alloc, subject, index.current),
            None => Ok(subject),
        }
    }
}

impl SuiteSubject {
    /// Names a suite outside a stress run.
    fn name(&self, alloc: Global) -> Result<Text, AllocError>
        ensures { IfOk result (λ name. name ≡ subject_name self.now) }
    {
        match self {
            SuiteSubject::Script(id) => {
                let id = id.as_str();
                format!(in alloc; "@setup-script:{id}").map(Text::new)
            }
            SuiteSubject::Binary(id) => Text::from_str(alloc, id.as_str()),
        }
    }
}

/// Names a suite in the run of a stress run with `current` others before it.
fn with_stress_suffix(alloc: Global, subject: Text, current: u32) -> Result<Text, AllocError>
    ensures { IfOk result (λ name. name ≡ subject ++ (codes "@stress-" ++ decimal current)) }
{
    let subject = subject.as_str();
    format!(in alloc; "{subject}@stress-{current}").map(Text::new)
}
