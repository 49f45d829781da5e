//! The events of a run.
use crate::{
    CancelReason, Duration, ExecuteStatus, ExecutionStatuses, Items, JunitFlakyFailStatus,
    MismatchReason, OutputSpec, OwnedTestInstanceId, ReportSkipPolicy, ReportUuid, RetryData,
    RunFinishedStats, RunStats, ScriptId, SetupScriptExecuteStatus, Stamp, StressConditionSummary,
    StressIndexSummary, StressProgress, TestOutputDisplay, TestSlotAssignment, TestsNotSeenSummary,
    Text,
};

/// Says what happened, without outputs. `running` is how many tests run after the event, and
/// `setup_scripts_running` how many setup scripts.
#[derive(Drop)]
pub enum CoreEventKind {
    /// The run began.
    RunStarted {
        /// The id of the run.
        run_id: ReportUuid,
        /// The name of the profile that the run uses.
        profile_name: Text,
        /// The command line of the run.
        cli_args: Items<Text>,
        /// What ends the stress run; `None` where the run is none.
        stress_condition: Option<StressConditionSummary>,
    },
    /// One of a stress run's runs began.
    StressSubRunStarted {
        /// How far the stress run had got by then.
        progress: StressProgress,
    },
    /// A setup script began: the one with `index` others before it, of `total`.
    SetupScriptStarted {
        /// The sub-run that it belongs to; `None` outside a stress run.
        stress_index: Option<StressIndexSummary>,
        /// How many setup scripts come before this one, from 0.
        index: usize,
        /// How many setup scripts there are.
        total: usize,
        /// The setup script.
        script_id: ScriptId,
        /// The program that the script runs.
        program: Text,
        /// The arguments of the program.
        args: Items<Text>,
        /// Whether the outputs of the script are not captured.
        no_capture: bool,
    },
    /// A setup script has run for longer than it should.
    SetupScriptSlow {
        /// The sub-run that it belongs to; `None` outside a stress run.
        stress_index: Option<StressIndexSummary>,
        /// The setup script.
        script_id: ScriptId,
        /// The program that the script runs.
        program: Text,
        /// The arguments of the program.
        args: Items<Text>,
        /// How long the script has run.
        elapsed: Duration,
        /// Whether it is about to be stopped for its time.
        will_terminate: bool,
    },
    /// The first attempt of a test began.
    TestStarted {
        /// The sub-run that it belongs to; `None` outside a stress run.
        stress_index: Option<StressIndexSummary>,
        /// The test.
        test_instance: OwnedTestInstanceId,
        /// Where the test runs.
        slot_assignment: TestSlotAssignment,
        /// The counts of the run, or of the sub-run, after the event.
        current_stats: RunStats,
        /// How many tests run after the event.
        running: usize,
        /// The program of the test, and its arguments.
        command_line: Items<Text>,
    },
    /// An attempt of a test has run for longer than it should.
    TestSlow {
        /// The sub-run that it belongs to; `None` outside a stress run.
        stress_index: Option<StressIndexSummary>,
        /// The test.
        test_instance: OwnedTestInstanceId,
        /// Which attempt it is, of how many.
        retry_data: RetryData,
        /// How long the attempt has run.
        elapsed: Duration,
        /// Whether it is about to be stopped for its time.
        will_terminate: bool,
    },
    /// A further attempt of a test began.
    TestRetryStarted {
        /// The sub-run that it belongs to; `None` outside a stress run.
        stress_index: Option<StressIndexSummary>,
        /// The test.
        test_instance: OwnedTestInstanceId,
        /// Where the test runs.
        slot_assignment: TestSlotAssignment,
        /// Which attempt it is, of how many.
        retry_data: RetryData,
        /// How many tests run after the event.
        running: usize,
        /// The program of the test, and its arguments.
        command_line: Items<Text>,
    },
    /// A test doesn't run.
    TestSkipped {
        /// The sub-run that it belongs to; `None` outside a stress run.
        stress_index: Option<StressIndexSummary>,
        /// The test.
        test_instance: OwnedTestInstanceId,
        /// Why it doesn't run.
        reason: MismatchReason,
        /// Which skipped tests a JUnit report names.
        junit_report_skipped: ReportSkipPolicy,
    },
    /// No further test is to begin.
    RunBeginCancel {
        /// How many setup scripts run after the event.
        setup_scripts_running: usize,
        /// How many tests run after the event.
        running: usize,
        /// Why the run is cancelled.
        reason: CancelReason,
    },
    /// The run was stopped for a while.
    RunPaused {
        /// How many setup scripts run after the event.
        setup_scripts_running: usize,
        /// How many tests run after the event.
        running: usize,
    },
    /// The run goes on.
    RunContinued {
        /// How many setup scripts run after the event.
        setup_scripts_running: usize,
        /// How many tests run after the event.
        running: usize,
    },
    /// One of a stress run's runs ended.
    StressSubRunFinished {
        /// How far the stress run got, this sub-run included.
        progress: StressProgress,
        /// How long the sub-run took.
        sub_elapsed: Duration,
        /// The counts of the sub-run.
        sub_stats: RunStats,
    },
    /// The run ended.
    RunFinished {
        /// The id of the run.
        run_id: ReportUuid,
        /// When the run began.
        start_time: Stamp,
        /// How long the run took.
        elapsed: Duration,
        /// The counts of the run.
        run_stats: RunFinishedStats,
        /// The outstanding tests that a rerun didn't come to, where there are any.
        outstanding_not_seen: Option<TestsNotSeenSummary>,
    },
}

/// Says what happened, with outputs.
#[derive(Drop)]
pub enum OutputEventKind<S: OutputSpec> {
    /// A setup script ended.
    SetupScriptFinished {
        /// The sub-run that it belongs to; `None` outside a stress run.
        stress_index: Option<StressIndexSummary>,
        /// How many setup scripts come before this one, from 0.
        index: usize,
        /// How many setup scripts there are.
        total: usize,
        /// The setup script.
        script_id: ScriptId,
        /// The program that the script runs.
        program: Text,
        /// The arguments of the program.
        args: Items<Text>,
        /// Whether the outputs of the script are not captured.
        no_capture: bool,
        /// The run of the script.
        run_status: SetupScriptExecuteStatus<S>,
    },
    /// An attempt of a test failed, and another one follows.
    TestAttemptFailedWillRetry {
        /// The sub-run that it belongs to; `None` outside a stress run.
        stress_index: Option<StressIndexSummary>,
        /// The test.
        test_instance: OwnedTestInstanceId,
        /// The attempt that failed.
        run_status: ExecuteStatus<S>,
        /// How long the next attempt is waited for.
        delay_before_next_attempt: Duration,
        /// When the output of the attempt is shown.
        failure_output: TestOutputDisplay,
        /// How many tests run after the event.
        running: usize,
    },
    /// The last attempt of a test ended.
    TestFinished {
        /// The sub-run that it belongs to; `None` outside a stress run.
        stress_index: Option<StressIndexSummary>,
        /// The test.
        test_instance: OwnedTestInstanceId,
        /// When the output is shown where the test passed.
        success_output: TestOutputDisplay,
        /// When the output is shown where the test failed.
        failure_output: TestOutputDisplay,
        /// Whether a JUnit report holds the output where it passed.
        junit_store_success_output: bool,
        /// Whether a JUnit report holds the output where it failed.
        junit_store_failure_output: bool,
        /// How the test stands in a JUnit report where it is flaky and counts as failed.
        junit_flaky_fail_status: JunitFlakyFailStatus,
        /// All attempts of the test.
        run_statuses: ExecutionStatuses<S>,
        /// The counts of the run, or of the sub-run, after the event.
        current_stats: RunStats,
        /// How many tests run after the event.
        running: usize,
    },
}

/// Says what happened.
#[derive(Drop)]
pub enum TestEventKindSummary<S: OutputSpec> {
    /// An event without outputs.
    Core(CoreEventKind),
    /// An event with outputs.
    Output(OutputEventKind<S>),
}

/// Holds an event of a run: when it happened, how long after the run's start, and what it is.
/// `docs/FORMATS.md#events` has the JSON of each kind.
#[derive(Drop)]
pub struct TestEventSummary<S: OutputSpec> {
    /// When it happened.
    pub timestamp: Stamp,
    /// The time since the run's start.
    pub elapsed: Duration,
    /// What happened.
    pub kind: TestEventKindSummary<S>,
}

impl<S: OutputSpec> TestEventSummary<S> {
    /// Drops the event. It is a call so that this is proved once, here: where a crate drops an
    /// event in place, its own proof goes over each part of the event again.
    pub fn discard(self) {
        drop(self);
    }
}
