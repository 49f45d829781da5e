//! The attempts of a test.
ghost use Rattle.std.specs.Prelude.{◌≡◌, ◌<◌, ◌-◌, length, slice_get, Some};
ghost use Rattle.rec_events.specs.Attempts.{Describes};

use crate::{
    ChildExecutionOutputDescription, Duration, ErrorSummary, ExecutionResultDescription,
    FlakyResult, NonEmpty, OutputErrorSlice, OutputSpec, RetryData, Stamp,
};

/// Holds one attempt of a test.
#[derive(Drop)]
pub struct ExecuteStatus<S: OutputSpec> {
    /// Which attempt it is, of how many.
    pub retry_data: RetryData,
    /// What the attempt wrote, or why it could not be started.
    pub output: ChildExecutionOutputDescription<S>,
    /// How the attempt ended.
    pub result: ExecutionResultDescription,
    /// When the attempt began.
    pub start_time: Stamp,
    /// How long the attempt took.
    pub time_taken: Duration,
    /// Whether it ran for longer than it should.
    pub is_slow: bool,
    /// How long it was waited for after the attempt before it; no time for the first.
    pub delay_before_start: Duration,
    /// What its error is, where one is known.
    pub error_summary: Option<ErrorSummary>,
    /// The piece of its output that shows the error, where there is one.
    pub output_error_slice: Option<OutputErrorSlice>,
    /// How long it kept processors busy, where that is known.
    /// What wrote stores before 3.1 didn't say it.
    pub cpu_time: Option<Duration>,
}

/// Holds all attempts of a test, in order. There is at least one.
#[derive(Drop)]
pub struct ExecutionStatuses<S: OutputSpec> {
    /// The attempts, the first one first.
    pub statuses: NonEmpty<ExecuteStatus<S>>,
    /// What the test counts as where it is flaky.
    pub flaky_result: FlakyResult,
}

/// Describes the attempts of a test.
#[derive(Drop)]
pub enum ExecutionDescription<'a, S: OutputSpec> {
    /// One attempt, which succeeded.
    Success {
        /// The only attempt.
        single_status: &'a ExecuteStatus<S>,
    },
    /// Several attempts, the last of which succeeded.
    Flaky {
        /// The attempt that succeeded.
        last_status: &'a ExecuteStatus<S>,
        /// The attempts before it, in order.
        prior_statuses: &'a [ExecuteStatus<S>],
        /// What the test counts as.
        result: FlakyResult,
    },
    /// The last attempt failed. The first one is the main one.
    Failure {
        /// The first attempt.
        first_status: &'a ExecuteStatus<S>,
        /// The last attempt, which may be the first.
        last_status: &'a ExecuteStatus<S>,
        /// The attempts after the first, in order.
        retries: &'a [ExecuteStatus<S>],
    },
}

impl<S: OutputSpec> ExecutionStatuses<S> {
    /// Makes the record of these attempts, of which there is at least one.
    pub fn new(statuses: Vec<ExecuteStatus<S>>, flaky_result: FlakyResult) -> ExecutionStatuses<S>
        requires not_empty { 0 < length statuses.items }
        ensures { result ≡ record { statuses = statuses.items; flaky_result = flaky_result } }
    {
        ExecutionStatuses {
            statuses: NonEmpty::new(statuses),
            flaky_result,
        }
    }

    /// Returns how many attempts there were.
    pub fn len(&self) -> usize
        ensures { result ≡ length self.now.statuses }
    {
        self.statuses.len()
    }

    /// Returns the attempt with `i` others before it.
    pub fn status(&self, i: usize) -> &ExecuteStatus<S>
        requires within { i < length self.now.statuses }
        ensures { slice_get self.now.statuses i ≡ Some result.now }
    {
        self.statuses.item(i)
    }

    /// Returns the last attempt.
    pub fn last_status(&self) -> &ExecuteStatus<S>
        ensures { slice_get self.now.statuses (length self.now.statuses - 1) ≡ Some result.now }
    {
        self.statuses.last()
    }

    /// Returns what the test counts as where it is flaky.
    pub fn flaky_result(&self) -> FlakyResult
        ensures { result ≡ self.now.flaky_result }
    {
        self.flaky_result
    }

    /// Returns how the attempts are described.
    pub fn describe(&self) -> ExecutionDescription<'_, S>
        ensures { Describes self.now result }
    {
        let (last_status, prior_statuses) = self.statuses.split_last();
        if !last_status.result.is_success() {
            let (first_status, retries) = self.statuses.split_first();
            return ExecutionDescription::Failure {
                first_status,
                last_status,
                retries,
            };
        }
        if prior_statuses.is_empty() {
            return ExecutionDescription::Success {
                single_status: last_status,
            };
        }
        ExecutionDescription::Flaky {
            last_status,
            prior_statuses,
            result: self.flaky_result,
        }
    }
}
