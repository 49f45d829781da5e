//! The runs of setup scripts.
use crate::{
    ChildExecutionOutputDescription, Duration, ErrorSummary, ExecutionResultDescription,
    OutputSpec, Stamp, Text, TextMap,
};

/// Holds one run of a setup script.
#[derive(Drop)]
pub struct SetupScriptExecuteStatus<S: OutputSpec> {
    /// What the script wrote, or why it could not be started.
    pub output: ChildExecutionOutputDescription<S>,
    /// How the script ended.
    pub result: ExecutionResultDescription,
    /// When the script began.
    pub start_time: Stamp,
    /// How long the script took.
    pub time_taken: Duration,
    /// Whether it ran for longer than it should.
    pub is_slow: bool,
    /// The variables that it set for the tests, where they could be read.
    pub env_map: Option<TextMap<Text>>,
    /// What its error is, where one is known.
    pub error_summary: Option<ErrorSummary>,
}
