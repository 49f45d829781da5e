//! Statuses: an object with the name of the status, and the statistics beside it.
ghost use Rattle.std.specs.Prelude.{◌≡◌, ◌++◌, OnOk, option_map, codes};
ghost use Rattle.serde_json.specs.Find.{as_str};
ghost use Rattle.rec_json.specs.Nodes.{members_view};
ghost use Rattle.rec_json.specs.Tokens.{value_tokens};
ghost use Rattle.rec_forms.specs.Gives.{Gives};
ghost use Rattle.rec_forms.specs.Shape.{required};
ghost use Rattle.rec_format.specs.StatsForms.{AreCompleted, AreStress};
ghost use Rattle.rec_format.specs.StatusForms.{bare_value, completed_value};
ghost use Rattle.rec_format.specs.StatusForms.{stress_value, status_with};

use crate::{
    CompletedRunStats, RecordedRunStatus, RecordedRunStatusFormat, StressCompletedRunStats,
};
use rec_forms::{Form, FromValueError, Held, ObjectWriter};
use rec_json::{JsonText, Node, member};
use std::alloc::{AllocError, Global};

/// The name of the status that an object has.
fn name_in<'a>(object: &[(&'a str, Node<'a>)]) -> Option<&'a str>
    ensures { option_map (λ name. name.now) result
        ≡ required as_str (codes "status") (members_view object.now) }
{
    member(object, "status")?.as_str()
}

/// Writes a status alone.
fn write_bare(alloc: Global, text: &mut JsonText, name: &str) -> Result<(), AllocError>
    ensures { OnOk result (text.new ≡ text.old ++ value_tokens (bare_value name.now)) }
{
    let object = ObjectWriter::begin(alloc, text);
    let object = object.text(text, "status", name);
    object.end(text)
}

/// Writes a status with the statistics of a run beside it.
fn write_completed(
    alloc: Global,
    text: &mut JsonText,
    name: &str,
    stats: &CompletedRunStats,
) -> Result<(), AllocError>
    ensures written { OnOk result
        (text.new ≡ text.old ++ value_tokens (completed_value name.now stats.now)) }
    ensures known { OnOk result (AreCompleted stats.now) }
{
    let object = ObjectWriter::begin(alloc, text);
    let object = stats.write_fields(object, text, Some(name));
    object.end(text)
}

/// Writes a status with the statistics of a stress run beside it.
fn write_stress(
    alloc: Global,
    text: &mut JsonText,
    name: &str,
    stats: &StressCompletedRunStats,
) -> Result<(), AllocError>
    ensures written { OnOk result
        (text.new ≡ text.old ++ value_tokens (stress_value name.now stats.now)) }
    ensures known { OnOk result (AreStress stats.now) }
{
    let object = ObjectWriter::begin(alloc, text);
    let object = stats.write_fields(object, text, Some(name));
    object.end(text)
}

/// The status of a name, with what an object has beside it.
fn status_in<'a>(
    alloc: Global,
    name: &str,
    object: &[(&'a str, Node<'a>)],
) -> Result<RecordedRunStatus, FromValueError>
    ensures { Gives result (status_with name.now (members_view object.now)) }
{
    match name {
        "incomplete" => Ok(RecordedRunStatus::Incomplete),
        "completed" => CompletedRunStats::read(alloc, object).map(RecordedRunStatus::Completed),
        "cancelled" => CompletedRunStats::read(alloc, object).map(RecordedRunStatus::Cancelled),
        "stress-completed" => StressCompletedRunStats::read(alloc, object).map(
            RecordedRunStatus::StressCompleted,
        ),
        "stress-cancelled" => StressCompletedRunStats::read(alloc, object).map(
            RecordedRunStatus::StressCancelled,
        ),
        _ => Ok(RecordedRunStatus::Unknown),
    }
}

impl Form for RecordedRunStatus {
    ghost use Rattle.std.specs.Prelude.{refl};
    ghost use Rattle.rec_forms.specs.Writable.{within_depth};
    ghost use Rattle.rec_format.specs.StatusFormLaws.{
      status_back,
      status_writable,
      status_well_formed,
    };
    ghost use Rattle.rec_format.specs.StatusForms.{status_value, status_form, IsStatus};

    ghost well_formed = { IsStatus };

    ghost value_of = { status_value };

    ghost form_of = { status_form };

    ghost levels = { 1 };

    ghost reads_back = { status_back };

    ghost reads_well_formed = { status_well_formed };

    ghost writable = { status_writable };

    ghost shallow = { within_depth refl };

    fn write(&self, alloc: Global, text: &mut JsonText) -> Result<(), AllocError> {
        match self {
            RecordedRunStatus::Incomplete => write_bare(alloc, text, "incomplete"),
            RecordedRunStatus::Completed(stats) => write_completed(alloc, text, "completed", stats),
            RecordedRunStatus::Cancelled(stats) => write_completed(alloc, text, "cancelled", stats),
            RecordedRunStatus::StressCompleted(stats) => write_stress(
                alloc,
                text,
                "stress-completed",
                stats,
            ),
            RecordedRunStatus::StressCancelled(stats) => write_stress(
                alloc,
                text,
                "stress-cancelled",
                stats,
            ),
            RecordedRunStatus::Unknown => write_bare(alloc, text, "unknown"),
        }
    }

    #[tactic(auto, unfolding(crate::specs::StatusForms::status_form))]
    fn from_node(alloc: Global, node: &Node<'_>) -> Result<RecordedRunStatus, FromValueError> {
        let Some(object) = node.as_object() else {
            return Err(FromValueError::NotAValue);
        };
        match name_in(object) {
            Some(name) => status_in(alloc, name, object),
            None => Err(FromValueError::NotAValue),
        }
    }
}

impl Held for RecordedRunStatus {
    fn held(&self) {
        match self {
            RecordedRunStatus::Incomplete | RecordedRunStatus::Unknown => {}
            RecordedRunStatus::Completed(stats) | RecordedRunStatus::Cancelled(stats) =>
                stats.held(),
            RecordedRunStatus::StressCompleted(stats) | RecordedRunStatus::StressCancelled(stats) =>
                { stats.held() }
        }
    }
}

impl Form for RecordedRunStatusFormat {
    ghost use Rattle.std.specs.Prelude.{refl};
    ghost use Rattle.rec_forms.specs.Writable.{within_depth};
    ghost use Rattle.rec_format.specs.StatusFormLaws.{
      status_format_back,
      status_format_writable,
      status_format_well_formed,
    };
    ghost use Rattle.rec_format.specs.StatusForms.{
      status_format_value,
      status_format_form,
      IsStatusFormat,
    };

    ghost well_formed = { IsStatusFormat };

    ghost value_of = { status_format_value };

    ghost form_of = { status_format_form };

    ghost levels = { 1 };

    ghost reads_back = { status_format_back };

    ghost reads_well_formed = { status_format_well_formed };

    ghost writable = { status_format_writable };

    ghost shallow = { within_depth refl };

    fn write(&self, alloc: Global, text: &mut JsonText) -> Result<(), AllocError> {
        RecordedRunStatus::from(*self).write(alloc, text)
    }

    fn from_node(
        alloc: Global,
        node: &Node<'_>,
    ) -> Result<RecordedRunStatusFormat, FromValueError> {
        // A `?` here, or a `map`, is a form that gets no proof.
        match RecordedRunStatus::from_node(alloc, node) {
            Ok(status) => Ok(RecordedRunStatusFormat::from(status)),
            Err(error) => Err(error),
        }
    }
}

impl Held for RecordedRunStatusFormat {
    fn held(&self) {
        RecordedRunStatus::from(*self).held();
    }
}
