//! Further attempts of a case.
ghost use Rattle.std.specs.Prelude.{◌≡◌};
ghost use Rattle.rec_junit.specs.Cases.{failed_status};
ghost use Rattle.rec_junit.specs.Failures.{failure_of};
ghost use Rattle.rec_junit.specs.Judging.{Judges};
ghost use Rattle.rec_junit.specs.Reruns.{message_of, description_of};
ghost use Rattle.rec_junit.specs.Reruns.{rerun_of, rerun_with, reruns_of};

use crate::failing::{FailureKind, failing};
use crate::stored_outputs::{StoredOutput, stored_output};
use crate::{ErrorDescriber, ErrorText, JunitError, JunitRerun, JunitRerunKind, JunitStatus};
use rec_events::{
    ChildExecutionOutputDescription, ExecuteStatus, ExecutionResultDescription, Items, LiveSpec,
    Text,
};
use std::alloc::Global;

/// Says which outputs a report holds.
#[derive(Clone, Copy, Drop)]
pub(crate) struct Storing {
    /// Whether it holds those of cases that did not fail.
    pub success: bool,
    /// Whether it holds those of cases that failed, and of reruns.
    pub failure: bool,
}

/// Makes the parts of a case.
#[derive(Drop)]
pub(crate) struct CaseMaker<'r, D: ErrorDescriber> {
    /// Where memory comes from.
    pub alloc: Global,
    /// What the case is called where it fails: a test, a benchmark or a script.
    pub unit: &'r str,
    /// What says what went wrong.
    pub describer: &'r D,
    /// Which outputs the report holds.
    pub storing: Storing,
}

/// Takes a text apart into what is said shortly and what is said at length.
fn split_text(text: Option<ErrorText>) -> (Option<Text>, Option<Text>)
    ensures { result ≡ (message_of text, description_of text) }
{
    match text {
        Some(text) => (Some(text.message), Some(text.description)),
        None => (None, None),
    }
}

/// Holds how something failed, and what is said of it.
pub(crate) type Failure = (FailureKind, Option<ErrorText>);

/// Reports an attempt that failed so.
fn rerun_with(
    status: &ExecuteStatus<LiveSpec>,
    failure: Failure,
    output: StoredOutput,
) -> JunitRerun
    ensures { result ≡ rerun_with status.now failure.1 failure.0 output }
{
    let (kind, text) = failure;
    let (message, description) = split_text(text);
    JunitRerun {
        kind: kind.kind,
        type_text: kind.type_text,
        timestamp: Some(status.start_time),
        time: Some(status.time_taken),
        message,
        description,
        system_out: output.system_out,
        system_err: output.system_err,
    }
}

/// Says that a case failed so, with these reruns.
pub(crate) fn failed_status(failure: Failure, reruns: Items<JunitRerun>) -> JunitStatus
    ensures { result ≡ failed_status failure.0 failure.1 reruns }
{
    let (kind, text) = failure;
    let (message, description) = split_text(text);
    JunitStatus::NonSuccess {
        kind: kind.kind,
        type_text: kind.type_text,
        message,
        description,
        reruns,
        rerun_kind: JunitRerunKind::Rerun,
    }
}

impl<D: ErrorDescriber> CaseMaker<'_, D> {
    /// Says how something failed, and what is said of it.
    ///
    /// # Errors
    ///
    /// - `SuccessAsFailure` exactly where its result is `Pass`, or a timeout that counts as a pass.
    /// - `OutOfMemory` if memory runs out.
    pub fn failure_of(
        &self,
        ending: &ExecutionResultDescription,
        execution: &ChildExecutionOutputDescription<LiveSpec>,
    ) -> Result<Failure, JunitError>
        ensures { Judges result
            (failure_of self.now.unit.now (D.text_of self.now.describer.now) ending.now
            execution.now) }
    {
        let Some(kind) = failing(self.alloc, self.unit, ending)? else {
            return Err(JunitError::SuccessAsFailure);
        };
        match self.describer.describe(self.alloc, execution) {
            Ok(text) => Ok((kind, text)),
            Err(_) => {
                drop(kind);
                Err(JunitError::OutOfMemory)
            }
        }
    }

    /// Reports an attempt beside the main one.
    ///
    /// # Errors
    ///
    /// - `SuccessAsFailure` exactly where its result is `Pass`, or a timeout that counts as a pass.
    /// - `NotLoadedOutput` exactly where it is another one, and its output is stored and was not
    ///   loaded.
    /// - `OutOfMemory` if memory runs out.
    fn rerun_of(&self, status: &ExecuteStatus<LiveSpec>) -> Result<JunitRerun, JunitError>
        ensures { Judges result
            (rerun_of self.now.unit.now (D.text_of self.now.describer.now) self.now.storing.failure
            status.now) }
    {
        let failure = self.failure_of(&status.result, &status.output)?;
        match stored_output(self.alloc, self.storing.failure, &status.output) {
            Ok(output) => Ok(rerun_with(status, failure, output)),
            Err(error) => {
                drop(failure);
                Err(error)
            }
        }
    }

    /// Reports the attempts beside the main one, in their order.
    ///
    /// # Errors
    ///
    /// The first refusal of an attempt, as `rerun_of` gives it, or `OutOfMemory`.
    pub fn reruns_of(
        &self,
        statuses: &[ExecuteStatus<LiveSpec>],
    ) -> Result<Items<JunitRerun>, JunitError>
        ensures { Judges result
            (reruns_of self.now.unit.now (D.text_of self.now.describer.now) self.now.storing.failure
            statuses.now) }
    {
        let mut reruns = Vec::new(self.alloc);
        for status in statuses {
            let rerun = self.rerun_of(status)?;
            reruns.push(rerun)?;
        }
        Ok(Items::new(reruns))
    }
}
