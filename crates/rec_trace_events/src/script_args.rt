//! The args of the ends of setup scripts, and of slow ones.

use crate::args::Args;
use crate::error_args::with_summary;
use crate::members::with_stress_index;
use rec_events::{Duration, OutputSpec, ScriptId, SetupScriptExecuteStatus, StressIndexSummary};
use rec_forms::ObjectWriter;
use rec_json::JsonText;
use std::alloc::{AllocError, Global};

/// Holds the args of the end of a setup script.
#[derive(Drop)]
pub struct ScriptEndArgs<'a, S: OutputSpec> {
    /// The setup script.
    pub script_id: &'a ScriptId,
    /// Which of a stress run's runs it belongs to.
    pub stress_index: &'a Option<StressIndexSummary>,
    /// The run of the script.
    pub status: &'a SetupScriptExecuteStatus<S>,
}

impl<'a, S: OutputSpec> Args for ScriptEndArgs<'a, S> {
    ghost use Rattle.rec_trace_events.specs.Args.{script_end_args};

    ghost value_of = { λ a. script_end_args a.script_id.now a.stress_index.now a.status.now };

    #[tactic(auto, unfolding(crate::specs::Args::script_end_args))]
    fn write(&self, alloc: Global, text: &mut JsonText) -> Result<(), AllocError> {
        let object = ObjectWriter::begin(alloc, text);
        let object = with_summary(object, text, &self.status.error_summary);
        let object = object.field(text, "is_slow", &self.status.is_slow);
        let object = object.field(text, "result", &self.status.result);
        let object = object.field(text, "script_id", self.script_id);
        let object = with_stress_index(object, text, self.stress_index);
        let object = object.field(text, "time_taken", &self.status.time_taken);
        object.end(text)
    }
}

/// Holds the args of a slow setup script.
#[derive(Drop)]
pub struct SlowScriptArgs<'a> {
    /// The setup script.
    pub script_id: &'a ScriptId,
    /// Which of a stress run's runs it belongs to.
    pub stress_index: &'a Option<StressIndexSummary>,
    /// How long the script has run.
    pub elapsed: &'a Duration,
    /// Whether it is about to be stopped for its time.
    pub will_terminate: bool,
}

impl<'a> Args for SlowScriptArgs<'a> {
    ghost use Rattle.rec_trace_events.specs.Args.{slow_script_args};

    ghost value_of = { λ a. slow_script_args a.script_id.now a.stress_index.now a.elapsed.now
        a.will_terminate };

    #[tactic(auto, unfolding(crate::specs::Args::slow_script_args))]
    fn write(&self, alloc: Global, text: &mut JsonText) -> Result<(), AllocError> {
        let object = ObjectWriter::begin(alloc, text);
        let object = object.field(text, "elapsed", self.elapsed);
        let object = object.field(text, "script_id", self.script_id);
        let object = with_stress_index(object, text, self.stress_index);
        let object = object.field(text, "will_terminate", &self.will_terminate);
        object.end(text)
    }
}
