//! The args of the begins of attempts, and of slow tests.

use crate::args::Args;
use crate::members::{with_command_line, with_stress_index};
use rec_events::{Duration, Items, OwnedTestInstanceId, RetryData, StressIndexSummary, Text};
use rec_forms::ObjectWriter;
use rec_json::JsonText;
use std::alloc::{AllocError, Global};

/// Holds the args of the begin of a test's first attempt.
/// A command line without a word is left out.
#[derive(Drop)]
pub struct TestBeginArgs<'a> {
    /// The test.
    pub test: &'a OwnedTestInstanceId,
    /// The program of the test, and its arguments.
    pub command_line: &'a Items<Text>,
}

impl<'a> Args for TestBeginArgs<'a> {
    ghost use Rattle.rec_trace_events.specs.Args.{test_begin_args};

    ghost value_of = { λ a. test_begin_args a.test.now a.command_line.now };

    #[tactic(auto, unfolding(crate::specs::Args::test_begin_args))]
    fn write(&self, alloc: Global, text: &mut JsonText) -> Result<(), AllocError> {
        let object = ObjectWriter::begin(alloc, text);
        let object = object.field(text, "binary_id", &self.test.binary_id);
        let object = with_command_line(object, text, self.command_line);
        let object = object.field(text, "test_name", &self.test.test_name);
        object.end(text)
    }
}

/// Holds the args of the begin of a further attempt. A command line without a word is left out.
#[derive(Drop)]
pub struct RetryBeginArgs<'a> {
    /// The test.
    pub test: &'a OwnedTestInstanceId,
    /// Which attempt it is, of how many.
    pub retry_data: &'a RetryData,
    /// The program of the test, and its arguments.
    pub command_line: &'a Items<Text>,
}

impl<'a> Args for RetryBeginArgs<'a> {
    ghost use Rattle.rec_trace_events.specs.Args.{retry_begin_args};

    ghost value_of = { λ a. retry_begin_args a.test.now a.retry_data.now a.command_line.now };

    #[tactic(auto, unfolding(crate::specs::Args::retry_begin_args))]
    fn write(&self, alloc: Global, text: &mut JsonText) -> Result<(), AllocError> {
        let object = ObjectWriter::begin(alloc, text);
        let object = object.field(text, "attempt", &self.retry_data.attempt);
        let object = object.field(text, "binary_id", &self.test.binary_id);
        let object = with_command_line(object, text, self.command_line);
        let object = object.field(text, "test_name", &self.test.test_name);
        let object = object.field(text, "total_attempts", &self.retry_data.total_attempts);
        object.end(text)
    }
}

/// Holds the args of a slow test.
#[derive(Drop)]
pub struct SlowTestArgs<'a> {
    /// The test.
    pub test: &'a OwnedTestInstanceId,
    /// Which of a stress run's runs it belongs to.
    pub stress_index: &'a Option<StressIndexSummary>,
    /// Which attempt it is, of how many.
    pub retry_data: &'a RetryData,
    /// How long the attempt has run.
    pub elapsed: &'a Duration,
    /// Whether it is about to be stopped for its time.
    pub will_terminate: bool,
}

impl<'a> Args for SlowTestArgs<'a> {
    ghost use Rattle.rec_trace_events.specs.Args.{slow_test_args};

    ghost value_of = { λ a. slow_test_args a.test.now a.stress_index.now a.retry_data.now
        a.elapsed.now a.will_terminate };

    #[tactic(auto, unfolding(crate::specs::Args::slow_test_args))]
    fn write(&self, alloc: Global, text: &mut JsonText) -> Result<(), AllocError> {
        let object = ObjectWriter::begin(alloc, text);
        let object = object.field(text, "attempt", &self.retry_data.attempt);
        let object = object.field(text, "binary_id", &self.test.binary_id);
        let object = object.field(text, "elapsed", self.elapsed);
        let object = with_stress_index(object, text, self.stress_index);
        let object = object.field(text, "test_name", &self.test.test_name);
        let object = object.field(text, "will_terminate", &self.will_terminate);
        object.end(text)
    }
}
