//! Outputs: the bytes of one, and those in a store.
ghost use Rattle.std.specs.Prelude.{◌≡◌, ◌++◌, OnOk};
ghost use Rattle.rec_json.specs.Nodes.{view};
ghost use Rattle.rec_json.specs.Tokens.{value_tokens};
ghost use Rattle.rec_events.specs.declared.outputs.ZipStoreOutput.TheVariants.{Truncated};
ghost use Rattle.rec_forms.specs.Gives.{Gives};
ghost use Rattle.rec_forms.specs.Outputs.{stored_output_value, truncated_form};
ghost use Rattle.rec_forms.specs.Outputs.{split_form, IsStoredOutput};

use crate::fields::{optional_field, write_tagged};
use crate::objects::ObjectWriter;
use crate::several::object_of_two;
use crate::{Form, FromValueError};
use hex::FromHexError;
use rec_events::{ChildSingleOutput, OutputFileName, ZipStoreOutput, ZipStoreOutputDescription};
use rec_json::{JsonText, Node, only_member};
use std::alloc::{AllocError, Global};

impl Form for ChildSingleOutput {
    ghost use Rattle.std.specs.Prelude.{refl};
    ghost use Rattle.hex.specs.Hex.{IsBytes};
    ghost use Rattle.rec_forms.specs.OutputLaws.{
      output_bytes_back,
      output_bytes_writable,
      output_bytes_well_formed,
    };
    ghost use Rattle.rec_forms.specs.Outputs.{output_bytes_value, output_bytes_form};
    ghost use Rattle.rec_forms.specs.Writable.{within_depth};

    ghost well_formed = { IsBytes };

    ghost value_of = { output_bytes_value };

    ghost form_of = { output_bytes_form };

    ghost levels = { 0 };

    ghost reads_back = { output_bytes_back };

    ghost reads_well_formed = { output_bytes_well_formed };

    ghost writable = { output_bytes_writable };

    ghost shallow = { within_depth refl };

    fn write(&self, alloc: Global, text: &mut JsonText) -> Result<(), AllocError> {
        let digits = hex::encode(alloc, self.as_bytes())?;
        text.string(&digits)
    }

    #[tactic(auto, unfolding(crate::specs::Outputs::output_bytes_form))]
    fn from_node(alloc: Global, node: &Node<'_>) -> Result<ChildSingleOutput, FromValueError> {
        let Some(text) = node.as_str() else {
            return Err(FromValueError::NotAValue);
        };
        match hex::decode(alloc, text.as_bytes()) {
            Ok(bytes) => Ok(ChildSingleOutput::new(bytes)),
            Err(FromHexError::OutOfMemory) => Err(FromValueError::OutOfMemory),
            Err(_) => Err(FromValueError::NotAValue),
        }
    }
}

/// Reads an output that was cut.
#[tactic(auto, unfolding(crate::specs::Outputs::truncated_form))]
fn truncated_from(alloc: Global, node: &Node<'_>) -> Result<ZipStoreOutput, FromValueError>
    ensures { Gives result (truncated_form (view node.now)) }
{
    let (file_name, original_size) = object_of_two(alloc, node, "file-name", "original-size")?;
    Ok(ZipStoreOutput::Truncated {
        file_name,
        original_size,
    })
}

/// Reads the outputs of a process whose streams were captured apart.
#[tactic(auto, unfolding(crate::specs::Outputs::split_form))]
fn split_from(alloc: Global, node: &Node<'_>) -> Result<ZipStoreOutputDescription, FromValueError>
    ensures { Gives result (split_form (view node.now)) }
{
    let Some(fields) = node.as_object() else {
        return Err(FromValueError::NotAValue);
    };
    Ok(ZipStoreOutputDescription::Split {
        stdout: optional_field(alloc, fields, "stdout")?,
        stderr: optional_field(alloc, fields, "stderr")?,
    })
}

/// Writes an output that was cut.
fn write_truncated(
    alloc: Global,
    text: &mut JsonText,
    file_name: &OutputFileName,
    original_size: &u64,
) -> Result<(), AllocError>
    ensures written { OnOk result (text.new ≡ text.old
        ++ value_tokens (stored_output_value (Truncated file_name.now original_size.now))) }
    ensures known { OnOk result (IsStoredOutput (Truncated file_name.now original_size.now)) }
{
    let object = ObjectWriter::begin_tagged(alloc, text, "truncated");
    let object = object.field(text, "file-name", file_name);
    let object = object.field(text, "original-size", original_size);
    object.end_tagged(text)
}

impl Form for ZipStoreOutput {
    ghost use Rattle.std.specs.Prelude.{refl};
    ghost use Rattle.rec_forms.specs.OutputLaws.{
      stored_output_back,
      stored_output_writable,
      stored_output_well_formed,
    };
    ghost use Rattle.rec_forms.specs.Outputs.{
      stored_output_value,
      stored_output_form,
      IsStoredOutput,
    };
    ghost use Rattle.rec_forms.specs.Writable.{within_depth};

    ghost well_formed = { IsStoredOutput };

    ghost value_of = { stored_output_value };

    ghost form_of = { stored_output_form };

    ghost levels = { 2 };

    ghost reads_back = { stored_output_back };

    ghost reads_well_formed = { stored_output_well_formed };

    ghost writable = { stored_output_writable };

    ghost shallow = { within_depth refl };

    fn write(&self, alloc: Global, text: &mut JsonText) -> Result<(), AllocError> {
        match self {
            ZipStoreOutput::Empty => text.string("empty"),
            ZipStoreOutput::Full { file_name } => write_tagged(alloc, text, "full", file_name),
            ZipStoreOutput::Truncated {
                file_name,
                original_size,
            } => write_truncated(alloc, text, file_name, original_size),
        }
    }

    #[tactic(auto, unfolding(crate::specs::Outputs::stored_output_form), using(crate::specs::VariantLaws::variant_named_or_cased))]
    fn from_node(alloc: Global, node: &Node<'_>) -> Result<ZipStoreOutput, FromValueError> {
        if let Some(name) = node.as_str() {
            return match name {
                "empty" => Ok(ZipStoreOutput::Empty),
                _ => Err(FromValueError::NotAValue),
            };
        }
        let Some(object) = node.as_object() else {
            return Err(FromValueError::NotAValue);
        };
        match only_member(object) {
            Some(("full", node)) => OutputFileName::from_node(alloc, node).map(
                |file_name| ZipStoreOutput::Full { file_name },
            ),
            Some(("truncated", node)) => truncated_from(alloc, node),
            _ => Err(FromValueError::NotAValue),
        }
    }
}

impl Form for ZipStoreOutputDescription {
    ghost use Rattle.std.specs.Prelude.{refl};
    ghost use Rattle.rec_forms.specs.OutputLaws.{
      stored_outputs_back,
      stored_outputs_writable,
      stored_outputs_well_formed,
    };
    ghost use Rattle.rec_forms.specs.Outputs.{
      stored_outputs_value,
      stored_outputs_form,
      IsStoredOutputs,
    };
    ghost use Rattle.rec_forms.specs.Writable.{within_depth};

    ghost well_formed = { IsStoredOutputs };

    ghost value_of = { stored_outputs_value };

    ghost form_of = { stored_outputs_form };

    ghost levels = { 4 };

    ghost reads_back = { stored_outputs_back };

    ghost reads_well_formed = { stored_outputs_well_formed };

    ghost writable = { stored_outputs_writable };

    ghost shallow = { within_depth refl };

    fn write(&self, alloc: Global, text: &mut JsonText) -> Result<(), AllocError> {
        match self {
            ZipStoreOutputDescription::Split { stdout, stderr } => {
                let object = ObjectWriter::begin_tagged(alloc, text, "split");
                let object = object.optional(text, "stderr", stderr);
                let object = object.optional(text, "stdout", stdout);
                object.end_tagged(text)
            }
            ZipStoreOutputDescription::Combined { output } => {
                write_tagged(alloc, text, "combined", output)
            }
        }
    }

    #[tactic(auto, unfolding(crate::specs::Outputs::stored_outputs_form), using(crate::specs::VariantLaws::variant_cased))]
    fn from_node(
        alloc: Global,
        node: &Node<'_>,
    ) -> Result<ZipStoreOutputDescription, FromValueError> {
        let Some(object) = node.as_object() else {
            return Err(FromValueError::NotAValue);
        };
        match only_member(object) {
            Some(("split", node)) => split_from(alloc, node),
            Some(("combined", node)) => ZipStoreOutput::from_node(alloc, node).map(
                |output| ZipStoreOutputDescription::Combined { output },
            ),
            _ => Err(FromValueError::NotAValue),
        }
    }
}
