//! What ends a stress run, and how far it got.
ghost use Rattle.std.specs.Prelude.{◌≡◌, ◌++◌, OnOk};
ghost use Rattle.rec_json.specs.Nodes.{view};
ghost use Rattle.rec_json.specs.Tokens.{value_tokens};
ghost use Rattle.rec_events.specs.declared.stress.StressProgress.TheVariants.{Count, Time};
ghost use Rattle.rec_forms.specs.Gives.{Gives};
ghost use Rattle.rec_forms.specs.Stress.{count_progress_form, time_progress_form};
ghost use Rattle.rec_forms.specs.Stress.{stress_progress_value, IsStressProgress};

use crate::fields::{optional_field, write_tagged};
use crate::objects::ObjectWriter;
use crate::several::{required_three, required_two};
use crate::{Form, FromValueError};
use rec_events::{Duration, StressConditionSummary, StressProgress};
use rec_json::{JsonText, Node, only_member};
use std::alloc::{AllocError, Global};

impl Form for StressConditionSummary {
    ghost use Rattle.std.specs.Prelude.{refl};
    ghost use Rattle.rec_forms.specs.Stress.{
      stress_condition_value,
      stress_condition_form,
      IsStressCondition,
    };
    ghost use Rattle.rec_forms.specs.StressLaws.{
      stress_condition_back,
      stress_condition_writable,
      stress_condition_well_formed,
    };
    ghost use Rattle.rec_forms.specs.Writable.{within_depth};

    ghost well_formed = { IsStressCondition };

    ghost value_of = { stress_condition_value };

    ghost form_of = { stress_condition_form };

    ghost levels = { 2 };

    ghost reads_back = { stress_condition_back };

    ghost reads_well_formed = { stress_condition_well_formed };

    ghost writable = { stress_condition_writable };

    ghost shallow = { within_depth refl };

    fn write(&self, alloc: Global, text: &mut JsonText) -> Result<(), AllocError> {
        match self {
            StressConditionSummary::Count { count: None } => {
                text.begin_tagged("count")?;
                text.null()?;
                text.end_tagged()?;
                Ok(())
            }
            StressConditionSummary::Count { count: Some(count) } => {
                write_tagged(alloc, text, "count", count)
            }
            StressConditionSummary::Duration { duration } => {
                write_tagged(alloc, text, "duration", duration)
            }
        }
    }

    #[tactic(auto, unfolding(crate::specs::Stress::stress_condition_form), using(crate::specs::VariantLaws::variant_cased))]
    fn from_node(alloc: Global, node: &Node<'_>) -> Result<StressConditionSummary, FromValueError> {
        let Some(object) = node.as_object() else {
            return Err(FromValueError::NotAValue);
        };
        match only_member(object) {
            Some(("count", Node::Null)) => Ok(StressConditionSummary::Count { count: None }),
            Some(("count", node)) => u32::from_node(alloc, node).map(
                |count| StressConditionSummary::Count { count: Some(count) },
            ),
            Some(("duration", node)) => Duration::from_node(alloc, node).map(
                |duration| StressConditionSummary::Duration { duration },
            ),
            _ => Err(FromValueError::NotAValue),
        }
    }
}

/// Writes how far a stress run of some number of sub-runs has come.
fn write_count(
    alloc: Global,
    text: &mut JsonText,
    total: &Option<u32>,
    elapsed: &Duration,
    completed: &u32,
) -> Result<(), AllocError>
    ensures written { OnOk result (text.new ≡ text.old
        ++ value_tokens (stress_progress_value (Count total.now elapsed.now completed.now))) }
    ensures known { OnOk result (IsStressProgress (Count total.now elapsed.now completed.now)) }
{
    let object = ObjectWriter::begin_tagged(alloc, text, "count");
    let object = object.field(text, "completed", completed);
    let object = object.field(text, "elapsed", elapsed);
    let object = object.optional(text, "total", total);
    object.end_tagged(text)
}

/// Writes how far a stress run of some length has come.
fn write_time(
    alloc: Global,
    text: &mut JsonText,
    total: &Duration,
    elapsed: &Duration,
    completed: &u32,
) -> Result<(), AllocError>
    ensures written { OnOk result (text.new ≡ text.old
        ++ value_tokens (stress_progress_value (Time total.now elapsed.now completed.now))) }
    ensures known { OnOk result (IsStressProgress (Time total.now elapsed.now completed.now)) }
{
    let object = ObjectWriter::begin_tagged(alloc, text, "time");
    let object = object.field(text, "completed", completed);
    let object = object.field(text, "elapsed", elapsed);
    let object = object.field(text, "total", total);
    object.end_tagged(text)
}

impl Form for StressProgress {
    ghost use Rattle.std.specs.Prelude.{refl};
    ghost use Rattle.rec_forms.specs.Stress.{
      stress_progress_value,
      stress_progress_form,
      IsStressProgress,
    };
    ghost use Rattle.rec_forms.specs.StressLaws.{
      stress_progress_back,
      stress_progress_writable,
      stress_progress_well_formed,
    };
    ghost use Rattle.rec_forms.specs.Writable.{within_depth};

    ghost well_formed = { IsStressProgress };

    ghost value_of = { stress_progress_value };

    ghost form_of = { stress_progress_form };

    ghost levels = { 3 };

    ghost reads_back = { stress_progress_back };

    ghost reads_well_formed = { stress_progress_well_formed };

    ghost writable = { stress_progress_writable };

    ghost shallow = { within_depth refl };

    fn write(&self, alloc: Global, text: &mut JsonText) -> Result<(), AllocError> {
        match self {
            StressProgress::Count {
                total,
                elapsed,
                completed,
            } => write_count(alloc, text, total, elapsed, completed),
            StressProgress::Time {
                total,
                elapsed,
                completed,
            } => write_time(alloc, text, total, elapsed, completed),
        }
    }

    #[tactic(auto, unfolding(crate::specs::Stress::stress_progress_form), using(crate::specs::VariantLaws::variant_cased))]
    fn from_node(alloc: Global, node: &Node<'_>) -> Result<StressProgress, FromValueError> {
        let Some(object) = node.as_object() else {
            return Err(FromValueError::NotAValue);
        };
        match only_member(object) {
            Some(("count", node)) => count_from(alloc, node),
            Some(("time", node)) => time_from(alloc, node),
            _ => Err(FromValueError::NotAValue),
        }
    }
}

/// Reads how far a stress run of some number of sub-runs has come.
#[tactic(auto, unfolding(crate::specs::Stress::count_progress_form))]
fn count_from(alloc: Global, node: &Node<'_>) -> Result<StressProgress, FromValueError>
    ensures { Gives result (count_progress_form (view node.now)) }
{
    let Some(fields) = node.as_object() else {
        return Err(FromValueError::NotAValue);
    };
    let total = optional_field(alloc, fields, "total")?;
    let (elapsed, completed) = required_two(alloc, fields, "elapsed", "completed")?;
    Ok(StressProgress::Count {
        total,
        elapsed,
        completed,
    })
}

/// Reads how far a stress run of some length has come.
#[tactic(auto, unfolding(crate::specs::Stress::time_progress_form))]
fn time_from(alloc: Global, node: &Node<'_>) -> Result<StressProgress, FromValueError>
    ensures { Gives result (time_progress_form (view node.now)) }
{
    let Some(fields) = node.as_object() else {
        return Err(FromValueError::NotAValue);
    };
    let (total, elapsed, completed) = required_three(
        alloc,
        fields,
        "total",
        "elapsed",
        "completed",
    )?;
    Ok(StressProgress::Time {
        total,
        elapsed,
        completed,
    })
}
