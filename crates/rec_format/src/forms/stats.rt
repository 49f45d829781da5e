//! The statistics of runs that ended: by themselves they are an object, and in a status they stand
//! beside its name.
ghost use Rattle.std.specs.Prelude.{[], ◌∷◌, ⊤, codes, option_map};
ghost use Rattle.serde_json.specs.Data.{string};
ghost use Rattle.rec_json.specs.Fields.{in_order};
ghost use Rattle.rec_json.specs.Nodes.{members_view};
ghost use Rattle.rec_forms.specs.Gives.{Gives};
ghost use Rattle.rec_forms.specs.ObjectWriting.{Writes};

use crate::{CompletedRunStats, StressCompletedRunStats};
use rec_forms::{
    Form, FromValueError, Held, ObjectWriter, held_optional, optional_field, required_four,
    required_three,
};
use rec_json::{JsonText, Node};
use std::alloc::{AllocError, Global};

/// Writes the name of a status, if any.
fn write_status(object: ObjectWriter, text: &mut JsonText, status: Option<&str>) -> ObjectWriter
    ensures { Writes object text.old result text.new
        ((codes "status", option_map (λ s. string s.now) status.entry) ∷ []) ⊤ }
{
    match status {
        Some(name) => object.text(text, "status", name),
        None => object,
    }
}

impl CompletedRunStats {
    ghost use Rattle.rec_format.specs.StatsForms.{completed_fields, completed_form, AreCompleted};

    /// Writes the statistics and the status, if any, as fields of an object.
    pub(crate) fn write_fields(
        &self,
        object: ObjectWriter,
        text: &mut JsonText,
        status: Option<&str>,
    ) -> ObjectWriter
        ensures { Writes object text.old result text.new
            (in_order ((codes "status", option_map (λ s. string s.now) status.entry)
            ∷ completed_fields self.now))
            (AreCompleted self.now) }
    {
        let object = object.field(text, "exit-code", &self.exit_code);
        let object = object.field(text, "failed", &self.failed);
        let object = object.field(text, "initial-run-count", &self.initial_run_count);
        let object = object.field(text, "passed", &self.passed);
        write_status(object, text, status)
    }

    /// Reads the statistics that an object has.
    #[tactic(auto, unfolding(crate::specs::StatsForms::completed_form))]
    pub(crate) fn read<'a>(
        alloc: Global,
        object: &[(&'a str, Node<'a>)],
    ) -> Result<CompletedRunStats, FromValueError>
        ensures { Gives result (completed_form (members_view object.now)) }
    {
        let (initial_run_count, passed, failed, exit_code) = required_four(
            alloc,
            object,
            "initial-run-count",
            "passed",
            "failed",
            "exit-code",
        )?;
        Ok(CompletedRunStats {
            initial_run_count,
            passed,
            failed,
            exit_code,
        })
    }
}

impl Form for CompletedRunStats {
    ghost use Rattle.std.specs.Prelude.{refl};
    ghost use Rattle.rec_forms.specs.Writable.{within_depth};
    ghost use Rattle.rec_format.specs.StatsFormLaws.{
      completed_stats_back,
      completed_stats_writable,
      completed_stats_well_formed,
    };
    ghost use Rattle.rec_format.specs.StatsForms.{
      completed_stats_value,
      completed_stats_form,
      AreCompleted,
    };

    ghost well_formed = { AreCompleted };

    ghost value_of = { completed_stats_value };

    ghost form_of = { completed_stats_form };

    ghost levels = { 1 };

    ghost reads_back = { completed_stats_back };

    ghost reads_well_formed = { completed_stats_well_formed };

    ghost writable = { completed_stats_writable };

    ghost shallow = { within_depth refl };

    fn write(&self, alloc: Global, text: &mut JsonText) -> Result<(), AllocError> {
        let object = ObjectWriter::begin(alloc, text);
        let object = self.write_fields(object, text, None);
        object.end(text)
    }

    #[tactic(auto, unfolding(crate::specs::StatsForms::completed_stats_form))]
    fn from_node(alloc: Global, node: &Node<'_>) -> Result<CompletedRunStats, FromValueError> {
        let Some(object) = node.as_object() else {
            return Err(FromValueError::NotAValue);
        };
        CompletedRunStats::read(alloc, object)
    }
}

impl Held for CompletedRunStats {
    fn held(&self) {
        self.initial_run_count.held();
        self.passed.held();
        self.failed.held();
        self.exit_code.held();
    }
}

impl StressCompletedRunStats {
    ghost use Rattle.rec_format.specs.StatsForms.{stress_fields, stress_form, AreStress};

    /// Writes the statistics and the status, if any, as fields of an object.
    pub(crate) fn write_fields(
        &self,
        object: ObjectWriter,
        text: &mut JsonText,
        status: Option<&str>,
    ) -> ObjectWriter
        ensures { Writes object text.old result text.new
            (in_order ((codes "status", option_map (λ s. string s.now) status.entry)
            ∷ stress_fields self.now))
            (AreStress self.now) }
    {
        let object = object.field(text, "exit-code", &self.exit_code);
        let object = object.field(text, "failed-count", &self.failed_count);
        let object = object.optional(
            text,
            "initial-iteration-count",
            &self.initial_iteration_count,
        );
        let object = write_status(object, text, status);
        object.field(text, "success-count", &self.success_count)
    }

    /// Reads the statistics that an object has.
    #[tactic(auto, unfolding(crate::specs::StatsForms::stress_form))]
    pub(crate) fn read<'a>(
        alloc: Global,
        object: &[(&'a str, Node<'a>)],
    ) -> Result<StressCompletedRunStats, FromValueError>
        ensures { Gives result (stress_form (members_view object.now)) }
    {
        let initial_iteration_count = optional_field(alloc, object, "initial-iteration-count")?;
        let (success_count, failed_count, exit_code) = required_three(
            alloc,
            object,
            "success-count",
            "failed-count",
            "exit-code",
        )?;
        Ok(StressCompletedRunStats {
            initial_iteration_count,
            success_count,
            failed_count,
            exit_code,
        })
    }
}

impl Form for StressCompletedRunStats {
    ghost use Rattle.std.specs.Prelude.{refl};
    ghost use Rattle.rec_forms.specs.Writable.{within_depth};
    ghost use Rattle.rec_format.specs.StatsFormLaws.{
      stress_stats_back,
      stress_stats_writable,
      stress_stats_well_formed,
    };
    ghost use Rattle.rec_format.specs.StatsForms.{stress_stats_value, stress_stats_form, AreStress};

    ghost well_formed = { AreStress };

    ghost value_of = { stress_stats_value };

    ghost form_of = { stress_stats_form };

    ghost levels = { 1 };

    ghost reads_back = { stress_stats_back };

    ghost reads_well_formed = { stress_stats_well_formed };

    ghost writable = { stress_stats_writable };

    ghost shallow = { within_depth refl };

    fn write(&self, alloc: Global, text: &mut JsonText) -> Result<(), AllocError> {
        let object = ObjectWriter::begin(alloc, text);
        let object = self.write_fields(object, text, None);
        object.end(text)
    }

    #[tactic(auto, unfolding(crate::specs::StatsForms::stress_stats_form))]
    fn from_node(
        alloc: Global,
        node: &Node<'_>,
    ) -> Result<StressCompletedRunStats, FromValueError> {
        let Some(object) = node.as_object() else {
            return Err(FromValueError::NotAValue);
        };
        StressCompletedRunStats::read(alloc, object)
    }
}

impl Held for StressCompletedRunStats {
    fn held(&self) {
        held_optional(&self.initial_iteration_count);
        self.success_count.held();
        self.failed_count.held();
        self.exit_code.held();
    }
}
