//! The cases of finished tests.
ghost use Rattle.std.specs.Prelude.{◌≡◌, IfOk, None, Ok, Some, string_bytes};
ghost use Rattle.rec_events.specs.declared.reporting.JunitFlakyFailStatus.TheVariants as reported;
ghost use Rattle.rec_events.specs.declared.results.FlakyResult.TheVariants as flaky;
ghost use Rattle.rec_events.specs.Results.{flaky_text};
ghost use Rattle.rec_junit.specs.Attempts.{attempts_in, has_failed, main_of};
ghost use Rattle.rec_junit.specs.Cases.{failed_test, flaky_status, judged_test, said_after};
ghost use Rattle.rec_junit.specs.Cases.{stores, test_case, test_status, with_output};
ghost use Rattle.rec_junit.specs.Failures.{case_of};
ghost use Rattle.rec_junit.specs.Judging.{Judges};
ghost use Rattle.rec_junit.specs.Reruns.{description_of};

use crate::reruns::{CaseMaker, Storing, failed_status};
use crate::stored_outputs::{StoredOutput, stored_output};
use crate::texts::two_texts;
use crate::{
    ErrorDescriber, JunitCase, JunitError, JunitKind, JunitRerun, JunitRerunKind, JunitStatus,
};
use rec_events::{
    ChildExecutionOutputDescription, Duration, ExecuteStatus, ExecutionDescription, FlakyResult,
    Items, JunitFlakyFailStatus, LiveSpec, Stamp, TestInstanceId, Text,
};
use std::alloc::{AllocError, Global};

impl Storing {
    /// Returns whether the output of a case is held that failed, or did not.
    pub fn holds(&self, has_failed: bool) -> bool
        ensures { result ≡ stores self.now has_failed }
    {
        if has_failed {
            self.failure
        } else {
            self.success
        }
    }
}

impl<D: ErrorDescriber> CaseMaker<'_, D> {
    /// Makes the case of a finished test.
    ///
    /// # Errors
    ///
    /// The first of these, of the main attempt, then of each rerun, at last of the main output:
    ///
    /// - `SuccessAsFailure`: an attempt that is reported as a failure passed.
    /// - `NotLoadedOutput`: an output is stored and was not loaded.
    ///
    /// Or `OutOfMemory`, if memory runs out.
    pub fn test_case(
        &self,
        test: &TestInstanceId<'_>,
        flaky_result: FlakyResult,
        fail_status: JunitFlakyFailStatus,
        attempts: &ExecutionDescription<'_, LiveSpec>,
    ) -> Result<JunitCase, JunitError>
        ensures { Judges result
            (test_case self.now.unit.now (D.text_of self.now.describer.now) self.now.storing
            test.now flaky_result fail_status (attempts_in attempts.now)) }
    {
        let main = main_of(attempts);
        let judged = self.judged_test(flaky_result, fail_status, attempts)?;
        case_of(
            self.alloc,
            test.test_name.as_str(),
            test.binary_id.as_str(),
            &main.start_time,
            &main.time_taken,
            judged,
        )
    }

    /// Says how a finished test ended, and then what its main attempt wrote.
    fn judged_test(
        &self,
        flaky_result: FlakyResult,
        fail_status: JunitFlakyFailStatus,
        attempts: &ExecutionDescription<'_, LiveSpec>,
    ) -> Result<(JunitStatus, StoredOutput), JunitError>
        ensures { Judges result
            (judged_test self.now.unit.now (D.text_of self.now.describer.now) self.now.storing
            flaky_result fail_status (attempts_in attempts.now)) }
    {
        let status = self.test_status(flaky_result, fail_status, attempts)?;
        let is_stored = self.storing.holds(has_failed(attempts));
        with_output(self.alloc, status, is_stored, &main_of(attempts).output)
    }

    /// Says how a finished test ended.
    fn test_status(
        &self,
        flaky_result: FlakyResult,
        fail_status: JunitFlakyFailStatus,
        attempts: &ExecutionDescription<'_, LiveSpec>,
    ) -> Result<JunitStatus, JunitError>
        ensures { Judges result
            (test_status self.now.unit.now (D.text_of self.now.describer.now)
            self.now.storing.failure flaky_result fail_status (attempts_in attempts.now)) }
    {
        match attempts {
            ExecutionDescription::Success { .. } => Ok(JunitStatus::Success {
                reruns: Items::empty(self.alloc),
            }),
            ExecutionDescription::Flaky {
                last_status,
                prior_statuses,
                ..
            } => {
                let reruns = self.reruns_of(*prior_statuses)?;
                self.flaky_status(flaky_result, fail_status, *last_status, reruns)
            }
            ExecutionDescription::Failure {
                first_status,
                retries,
                ..
            } => self.failed_test(*first_status, *retries),
        }
    }

    /// Says how a test ended that passed after attempts that failed.
    fn flaky_status(
        &self,
        flaky_result: FlakyResult,
        fail_status: JunitFlakyFailStatus,
        last: &ExecuteStatus<LiveSpec>,
        reruns: Items<JunitRerun>,
    ) -> Result<JunitStatus, JunitError>
        ensures { Judges result
            (Ok
            (flaky_status flaky_result fail_status last.now
            (D.text_of self.now.describer.now last.now.output) reruns)) }
    {
        if flaky_result == FlakyResult::Pass || fail_status == JunitFlakyFailStatus::Success {
            return Ok(JunitStatus::Success { reruns });
        }
        self.flaky_failure(last, reruns)
    }

    /// Says that a test counts as failed though it passed at last.
    fn flaky_failure(
        &self,
        last: &ExecuteStatus<LiveSpec>,
        reruns: Items<JunitRerun>,
    ) -> Result<JunitStatus, JunitError>
        ensures { Judges result
            (Ok
            (flaky_status flaky.Fail reported.Failure last.now
            (D.text_of self.now.describer.now last.now.output) reruns)) }
    {
        let Ok(type_text) = Text::from_str(self.alloc, "flaky failure") else {
            drop(reruns);
            return Err(JunitError::OutOfMemory);
        };
        let Ok((message, description)) = self.flaky_words(last) else {
            drop((type_text, reruns));
            return Err(JunitError::OutOfMemory);
        };
        Ok(JunitStatus::NonSuccess {
            kind: JunitKind::Failure,
            type_text,
            message,
            description,
            reruns,
            rerun_kind: JunitRerunKind::Flaky,
        })
    }

    /// Says what went wrong in the last attempt, or else that the test counts as failed.
    fn flaky_words(
        &self,
        last: &ExecuteStatus<LiveSpec>,
    ) -> Result<(Option<Text>, Option<Text>), AllocError>
        ensures { IfOk result (λ words. words ≡ (
          said_after
              (flaky_text flaky.Fail last.now.retry_data.attempt last.now.retry_data.total_attempts)
              (D.text_of self.now.describer.now last.now.output),
          description_of (D.text_of self.now.describer.now last.now.output),
        )) }
    {
        match self.describer.describe(self.alloc, &last.output)? {
            Some(text) => Ok((Some(text.message), Some(text.description))),
            None => self.flaky_message(last),
        }
    }

    /// Says that a test passed and counts as failed.
    fn flaky_message(
        &self,
        last: &ExecuteStatus<LiveSpec>,
    ) -> Result<(Option<Text>, Option<Text>), AllocError>
        ensures { IfOk result
            (λ words. words
            ≡ (
              flaky_text flaky.Fail last.now.retry_data.attempt last.now.retry_data.total_attempts,
              None,
            )) }
    {
        let retry = last.retry_data;
        let message = FlakyResult::Fail.fail_message(
            self.alloc,
            retry.attempt,
            retry.total_attempts,
        )?;
        match message {
            Some(message) => Ok((Some(Text::new(message)), None)),
            None => Ok((None, None)),
        }
    }

    /// Says how a test ended whose last attempt failed.
    fn failed_test(
        &self,
        first: &ExecuteStatus<LiveSpec>,
        retries: &[ExecuteStatus<LiveSpec>],
    ) -> Result<JunitStatus, JunitError>
        ensures { Judges result
            (failed_test self.now.unit.now (D.text_of self.now.describer.now)
            self.now.storing.failure first.now retries.now) }
    {
        let failure = self.failure_of(&first.result, &first.output)?;
        match self.reruns_of(retries) {
            Ok(reruns) => Ok(failed_status(failure, reruns)),
            Err(error) => {
                drop(failure);
                Err(error)
            }
        }
    }
}

/// Makes a case of this name that ran.
pub(crate) fn case_of(
    alloc: Global,
    name: &str,
    classname: &str,
    start_time: &Stamp,
    time_taken: &Duration,
    judged: (JunitStatus, StoredOutput),
) -> Result<JunitCase, JunitError>
    ensures { Judges result
        (Ok (case_of name.now classname.now start_time.now time_taken.now judged)) }
{
    let Ok((name, classname)) = two_texts(alloc, name, classname) else {
        drop(judged);
        return Err(JunitError::OutOfMemory);
    };
    let (status, output) = judged;
    Ok(JunitCase {
        name,
        classname,
        timestamp: Some(*start_time),
        time: Some(*time_taken),
        status,
        system_out: output.system_out,
        system_err: output.system_err,
    })
}

/// Adds to a status what was written, if it is stored.
pub(crate) fn with_output(
    alloc: Global,
    status: JunitStatus,
    is_stored: bool,
    execution: &ChildExecutionOutputDescription<LiveSpec>,
) -> Result<(JunitStatus, StoredOutput), JunitError>
    ensures { Judges result (with_output status is_stored execution.now) }
{
    match stored_output(alloc, is_stored, execution) {
        Ok(output) => Ok((status, output)),
        Err(error) => {
            drop(status);
            Err(error)
        }
    }
}

/// Returns the attempt that the case speaks of.
fn main_of<'x>(attempts: &ExecutionDescription<'x, LiveSpec>) -> &'x ExecuteStatus<LiveSpec>
    ensures { result.now ≡ main_of (attempts_in attempts.now) }
{
    match attempts {
        ExecutionDescription::Success { single_status } => *single_status,
        ExecutionDescription::Flaky { last_status, .. } => *last_status,
        ExecutionDescription::Failure { first_status, .. } => *first_status,
    }
}

/// Returns whether the test failed.
fn has_failed(attempts: &ExecutionDescription<'_, LiveSpec>) -> bool
    ensures { result ≡ has_failed (attempts_in attempts.now) }
{
    matches!(attempts, ExecutionDescription::Failure { .. })
}
