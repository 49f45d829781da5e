//! Outputs as they are captured.
ghost use Rattle.std.specs.Prelude.{◌≡◌, ◌++◌, OnOk};
ghost use Rattle.rec_json.specs.Nodes.{view};
ghost use Rattle.rec_json.specs.Tokens.{value_tokens};
ghost use Rattle.rec_events.specs.declared.outputs.ChildOutputDescription.TheVariants.{Split};
ghost use Rattle.rec_forms.specs.Gives.{Gives};
ghost use Rattle.rec_codec.specs.Live.{IsLive, live_split_form, live_value};

use crate::{OutputForm, ToValueError};
use rec_events::{ChildOutputDescription, ChildSingleOutput, LiveSpec};
use rec_forms::{Form, FromValueError, ObjectWriter, optional_two, write_tagged};
use rec_json::{JsonText, Node, only_member};
use std::alloc::{AllocError, Global};

/// Writes the outputs of a process whose streams were captured apart.
fn write_split(
    alloc: Global,
    stdout: &Option<ChildSingleOutput>,
    stderr: &Option<ChildSingleOutput>,
    text: &mut JsonText,
) -> Result<(), AllocError>
    ensures written { OnOk result
        (text.new ≡ text.old ++ value_tokens (live_value (Split stdout.now stderr.now))) }
    ensures known { OnOk result (IsLive (Split stdout.now stderr.now)) }
{
    let object = ObjectWriter::begin_tagged(alloc, text, "split");
    let object = object.optional(text, "stderr", stderr);
    let object = object.optional(text, "stdout", stdout);
    object.end_tagged(text)
}

/// The outputs of a process whose streams were captured apart.
#[tactic(auto, unfolding(crate::specs::Live::live_split_form))]
fn split_from(alloc: Global, node: &Node<'_>) -> Result<ChildOutputDescription, FromValueError>
    ensures { Gives result (live_split_form (view node.now)) }
{
    let Some(fields) = node.as_object() else {
        return Err(FromValueError::NotAValue);
    };
    let (stdout, stderr) = optional_two(alloc, fields, "stdout", "stderr")?;
    Ok(ChildOutputDescription::Split { stdout, stderr })
}

impl OutputForm for LiveSpec {
    ghost use Rattle.std.specs.Prelude.{refl};
    ghost use Rattle.rec_forms.specs.Writable.{within_depth};
    ghost use Rattle.rec_codec.specs.Live.{IsLive, is_loaded, live_value, live_form};
    ghost use Rattle.rec_codec.specs.LiveLaws.{live_back, live_writable, live_well_formed};

    ghost output_well_formed = { IsLive };

    ghost loaded = { is_loaded };

    ghost output_value = { live_value };

    ghost output_form = { live_form };

    ghost output_levels = { 2 };

    ghost output_reads_back = { live_back };

    ghost output_reads_well_formed = { live_well_formed };

    ghost output_writable = { live_writable };

    ghost output_shallow = { within_depth refl };

    fn output_write(
        alloc: Global,
        output: &ChildOutputDescription,
        text: &mut JsonText,
    ) -> Result<(), ToValueError> {
        match output {
            ChildOutputDescription::Split { stdout, stderr } => {
                Ok(write_split(alloc, stdout, stderr, text)?)
            }
            ChildOutputDescription::Combined { output } => {
                Ok(write_tagged(alloc, text, "combined", output)?)
            }
            ChildOutputDescription::NotLoaded => Err(ToValueError::NotLoaded),
        }
    }

    #[tactic(auto, unfolding(crate::specs::Live::live_form), using(rec_forms::specs::VariantLaws::variant_cased))]
    fn output_from_node(
        alloc: Global,
        node: &Node<'_>,
    ) -> Result<ChildOutputDescription, FromValueError> {
        let Some(object) = node.as_object() else {
            return Err(FromValueError::NotAValue);
        };
        match only_member(object) {
            Some(("split", node)) => split_from(alloc, node),
            Some(("combined", node)) => ChildSingleOutput::from_node(alloc, node).map(
                |output| ChildOutputDescription::Combined { output },
            ),
            _ => Err(FromValueError::NotAValue),
        }
    }
}
