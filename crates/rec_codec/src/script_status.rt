//! The runs of setup scripts, with their outputs.

use crate::loaded_fields::{ended, with_loaded};
use crate::loaded_form::{LoadedForm, required_loaded};
use crate::{OutputForm, ToValueError};
use rec_events::SetupScriptExecuteStatus;
use rec_forms::{FromValueError, ObjectWriter, optional_two, required_four};
use rec_json::{JsonText, Node};
use std::alloc::Global;

impl<S: OutputForm> LoadedForm for SetupScriptExecuteStatus<S> {
    ghost use Rattle.std.specs.Prelude.{◌+◌};
    ghost use Rattle.rec_codec.specs.ScriptStatus.{script_status_value, script_status_form};
    ghost use Rattle.rec_codec.specs.ScriptStatus.{script_status_loaded, IsScriptStatus};
    ghost use Rattle.rec_codec.specs.ScriptStatusLaws.{
      script_status_back,
      script_status_writable,
      script_status_well_formed,
    };

    ghost well_formed = { IsScriptStatus S.output_well_formed };

    ghost loaded = { script_status_loaded S.loaded };

    ghost value_of = { script_status_value S.output_value };

    ghost form_of = { script_status_form S.output_form };

    ghost levels = { S.output_levels + 7 };

    ghost reads_back = { script_status_back S.output_well_formed S.output_value S.output_form
        S.output_reads_back };

    ghost reads_well_formed = { script_status_well_formed S.output_well_formed S.output_form
        S.output_reads_well_formed };

    ghost writable = { script_status_writable S.output_well_formed S.output_levels S.output_value
        S.output_writable };

    fn write(&self, alloc: Global, text: &mut JsonText) -> Result<(), ToValueError> {
        let object = ObjectWriter::begin(alloc, text);
        let object = object.optional(text, "env-map", &self.env_map);
        let object = object.optional(text, "error-summary", &self.error_summary);
        let object = object.field(text, "is-slow", &self.is_slow);
        let object = with_loaded(alloc, object, text, "output", &self.output)?;
        let object = object.field(text, "result", &self.result);
        let object = object.field(text, "start-time", &self.start_time);
        let object = object.field(text, "time-taken", &self.time_taken);
        ended(object, text)
    }

    #[tactic(auto, unfolding(crate::specs::ScriptStatus::script_status_form))]
    fn from_node(
        alloc: Global,
        node: &Node<'_>,
    ) -> Result<SetupScriptExecuteStatus<S>, FromValueError> {
        let Some(object) = node.as_object() else {
            return Err(FromValueError::NotAValue);
        };
        let (env_map, error_summary) = optional_two(alloc, object, "env-map", "error-summary")?;
        let (start_time, time_taken, is_slow, result) = match required_four(
            alloc,
            object,
            "start-time",
            "time-taken",
            "is-slow",
            "result",
        ) {
            Ok(fields) => fields,
            Err(error) => {
                // by a call: in place, each case of what is let go is one of the proof
                drop((env_map, error_summary));
                return Err(error);
            }
        };
        let output = match required_loaded(alloc, object, "output") {
            Ok(output) => output,
            Err(error) => {
                drop((error_summary, env_map, result));
                return Err(error);
            }
        };
        Ok(SetupScriptExecuteStatus {
            output,
            result,
            start_time,
            time_taken,
            is_slow,
            env_map,
            error_summary,
        })
    }
}
