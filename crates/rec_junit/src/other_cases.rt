//! The cases of setup scripts, and of tests that don't run.
ghost use Rattle.std.specs.Prelude.{◌≡◌, ◌++◌, IfOk, codes};
ghost use Rattle.rec_events.specs.Results.{succeeded};
ghost use Rattle.rec_junit.specs.Cases.{judged_script, reason_text, script_case};
ghost use Rattle.rec_junit.specs.Cases.{script_status_by, skipped_case};
ghost use Rattle.rec_junit.specs.Failing.{script_unit};
ghost use Rattle.rec_junit.specs.Judging.{Judges};

use crate::reruns::{CaseMaker, failed_status};
use crate::stored_outputs::StoredOutput;
use crate::test_cases::{case_of, with_output};
use crate::texts::two_texts;
use crate::{ErrorDescriber, JunitCase, JunitError, JunitStatus};
use rec_events::{
    Duration, Items, LiveSpec, MismatchReason, ScriptId, SetupScriptExecuteStatus, TestInstanceId,
    Text,
};
use std::alloc::{AllocError, Global};

impl<D: ErrorDescriber> CaseMaker<'_, D> {
    /// Makes the case of a finished setup script, in the suite of this name.
    ///
    /// # Errors
    ///
    /// - `NotLoadedOutput` exactly where its output is stored and was not loaded.
    /// - `OutOfMemory` if memory runs out.
    pub fn script_case(
        &self,
        script: &ScriptId,
        suite: &str,
        ran: &SetupScriptExecuteStatus<LiveSpec>,
    ) -> Result<JunitCase, JunitError>
        requires unit { self.now.unit.now ≡ script_unit }
        ensures { Judges result
            (script_case (D.text_of self.now.describer.now) self.now.storing script.now suite.now
            ran.now) }
    {
        let judged = self.judged_script(ran.result.is_success(), ran)?;
        case_of(
            self.alloc,
            script.as_str(),
            suite,
            &ran.start_time,
            &ran.time_taken,
            judged,
        )
    }

    /// Says how a setup script ended, and then what it wrote.
    fn judged_script(
        &self,
        has_passed: bool,
        ran: &SetupScriptExecuteStatus<LiveSpec>,
    ) -> Result<(JunitStatus, StoredOutput), JunitError>
        requires unit { self.now.unit.now ≡ script_unit }
        ensures { Judges result
            (judged_script has_passed (D.text_of self.now.describer.now) self.now.storing ran.now) }
    {
        let status = self.script_status(has_passed, ran)?;
        with_output(
            self.alloc,
            status,
            self.storing.holds(!has_passed),
            &ran.output,
        )
    }

    /// Says how a setup script ended.
    fn script_status(
        &self,
        has_passed: bool,
        ran: &SetupScriptExecuteStatus<LiveSpec>,
    ) -> Result<JunitStatus, JunitError>
        requires unit { self.now.unit.now ≡ script_unit }
        ensures { Judges result
            (script_status_by has_passed (D.text_of self.now.describer.now) ran.now) }
    {
        if has_passed {
            return Ok(JunitStatus::Success {
                reruns: Items::empty(self.alloc),
            });
        }
        let failure = self.failure_of(&ran.result, &ran.output)?;
        Ok(failed_status(failure, Items::empty(self.alloc)))
    }
}

/// Makes the case of a test that doesn't run.
pub(crate) fn skipped_case(
    alloc: Global,
    test: &TestInstanceId<'_>,
    reason: MismatchReason,
) -> Result<JunitCase, AllocError>
    ensures { IfOk result (λ case. case ≡ skipped_case test.now reason) }
{
    let message = skip_message(alloc, reason)?;
    let name = test.test_name.as_str();
    let Ok((name, classname)) = two_texts(alloc, name, test.binary_id.as_str()) else {
        drop(message);
        return Err(AllocError);
    };
    Ok(JunitCase {
        name,
        classname,
        timestamp: None,
        time: Some(Duration { secs: 0, nanos: 0 }),
        status: JunitStatus::Skipped { message },
        system_out: None,
        system_err: None,
    })
}

/// Says that a test doesn't run, and why.
fn skip_message(alloc: Global, reason: MismatchReason) -> Result<Text, AllocError>
    ensures { IfOk result (λ message. message ≡ codes "Skipped: test " ++ reason_text reason) }
{
    let reason = reason_text(reason);
    format!(in alloc; "Skipped: test {reason}").map(Text::new)
}

/// Says why a test doesn't run.
fn reason_text(reason: MismatchReason) -> &'static str
    ensures { result.now ≡ reason_text reason }
{
    match reason {
        MismatchReason::NotBenchmark => "is not a benchmark",
        MismatchReason::Ignored => "does not match the run-ignored option",
        MismatchReason::String => "does not match the provided string filters",
        MismatchReason::Expression => "does not match the provided expression filters",
        MismatchReason::Partition => "is in a different partition",
        MismatchReason::RerunAlreadyPassed => "already passed",
        MismatchReason::DefaultFilter => "is filtered out by the profile's default-filter",
    }
}
