//! Events of setup scripts.

use rec_events::{
    ChildExecutionOutputDescription, ChildOutputDescription, CoreEventKind, Duration,
    ExecutionResultDescription, Items, LiveSpec, OutputEventKind, ScriptId,
    SetupScriptExecuteStatus, Stamp, TestEventKindSummary, Text,
};
use std::alloc::{AllocError, Global};

/// The start of the setup script of an index.
pub(crate) fn script_started(
    alloc: Global,
    index: usize,
) -> Result<TestEventKindSummary<LiveSpec>, AllocError> {
    let script_id = ScriptId::new(String::from_str(alloc, "s")?);
    let program = Text::new(String::from_str(alloc, "p")?);
    Ok(TestEventKindSummary::Core(CoreEventKind::SetupScriptStarted {
        stress_index: None,
        index,
        total: 2,
        script_id,
        program,
        args: Items::empty(alloc),
        no_capture: false,
    }))
}

fn status() -> SetupScriptExecuteStatus<LiveSpec> {
    SetupScriptExecuteStatus {
        output: ChildExecutionOutputDescription::Output {
            result: None,
            output: ChildOutputDescription::NotLoaded,
            errors: None,
        },
        result: ExecutionResultDescription::Pass,
        start_time: Stamp {
            secs: 0,
            nanos: 0,
            offset: 0,
        },
        time_taken: Duration { secs: 0, nanos: 0 },
        is_slow: false,
        env_map: None,
        error_summary: None,
    }
}

/// The end of the setup script of an index.
pub(crate) fn script_ended(
    alloc: Global,
    index: usize,
) -> Result<TestEventKindSummary<LiveSpec>, AllocError> {
    let script_id = ScriptId::new(String::from_str(alloc, "s")?);
    let program = Text::new(String::from_str(alloc, "p")?);
    Ok(TestEventKindSummary::Output(OutputEventKind::SetupScriptFinished {
        stress_index: None,
        index,
        total: 2,
        script_id,
        program,
        args: Items::empty(alloc),
        no_capture: false,
        run_status: status(),
    }))
}
