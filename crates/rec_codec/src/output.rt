//! Outputs in either form.
ghost use Rattle.std.specs.Prelude.{◌≡◌, ◌≤◌, ◌+◌, ◌++◌, ℕ, Bool, Option, Some, OnOk};
ghost use Rattle.serde_json.specs.Data.{Data};
ghost use Rattle.serde_json.specs.Read.{max_depth};
ghost use Rattle.serde_json.specs.View.{view};
ghost use Rattle.rec_json.specs.Nodes.{view as node_view};
ghost use Rattle.rec_json.specs.Tokens.{value_tokens};
ghost use Rattle.rec_forms.specs.Gives.{Gives};
ghost use Rattle.rec_forms.specs.GivesWellFormed.{GivesWellFormed};
ghost use Rattle.rec_forms.specs.Writable.{IsWritable};
ghost use Rattle.rec_codec.specs.Writes.{WritesLoaded, Writes};

use crate::ToValueError;
use rec_events::{OutputSpec, RecordingSpec, ZipStoreOutputDescription};
use rec_forms::{Form, FromValueError, value_of_text, writable_values_read_back};
use rec_json::{JsonText, Node};
use serde_json::Value;
use std::alloc::Global;

/// Writes the outputs of one form as JSON, and reads them: as captured or as in a store, the two
/// forms of `docs/FORMATS.md#events`.
pub trait OutputForm: OutputSpec {
    /// Says what holds of each output that a program has, if it is loaded.
    ghost output_well_formed: { Self.ChildOutput → Type 0 };

    /// Says whether an output is there to be written.
    ghost loaded: { Self.ChildOutput → Bool };

    /// Names the value that an output is written as, where it is loaded.
    ghost output_value: { Self.ChildOutput → Data };

    /// Names the output for which a value stands, if any.
    ghost output_form: { Data → Option Self.ChildOutput };

    /// Says how deep the objects of a written value nest at most.
    ghost output_levels: { ℕ };

    /// Writes the output at the end of `text`. It is read as this output again.
    ///
    /// # Errors
    ///
    /// `NotLoaded` comes exactly where the output isn't loaded, and `OutOfMemory` if memory runs
    /// out; then `text` may hold a part of the output.
    fn output_write(
        alloc: Global,
        output: &Self::ChildOutput,
        text: &mut JsonText,
    ) -> Result<(), ToValueError>
        ensures text_written { OnOk result
            (text.new ≡ text.old ++ value_tokens (output_value output.now)) }
        ensures text_loaded { WritesLoaded result (loaded output.now) }
        ensures text_known { OnOk result (output_well_formed output.now) };

    /// Makes the value of the output, which is the value of its text.
    /// It is read as this output again.
    ///
    /// # Errors
    ///
    /// `NotLoaded` comes exactly where the output isn't loaded, and `OutOfMemory` where there was
    /// not enough memory.
    fn output_to_value(alloc: Global, output: &Self::ChildOutput) -> Result<Value, ToValueError>
        ensures written { Writes result (output_value output.now) (loaded output.now) }
        ensures known { OnOk result (output_well_formed output.now) }
    {
        let mut text = JsonText::new(alloc);
        Self::output_write(alloc, output, &mut text)?;
        let text = text.into_text();
        writable_values_read_back();
        Ok(value_of_text(alloc, &text)?)
    }

    /// Reads the output for which `node` stands.
    ///
    /// # Errors
    ///
    /// `NotAValue` comes exactly where the node stands for no output, and `OutOfMemory` where there
    /// was not enough memory.
    fn output_from_node(alloc: Global, node: &Node<'_>) -> Result<Self::ChildOutput, FromValueError>
        ensures read_node { Gives result (output_form (node_view node.now)) };

    /// Reads the output for which `value` stands, a value that is there already. A text is read as
    /// a node, without a value in between.
    ///
    /// # Errors
    ///
    /// `NotAValue` comes exactly where the value stands for no output, and `OutOfMemory` where
    /// there was not enough memory.
    fn output_from_value(alloc: Global, value: &Value) -> Result<Self::ChildOutput, FromValueError>
        ensures read { Gives result (output_form (view value.now)) }
    {
        let node = Node::of_value(alloc, value)?;
        let output = Self::output_from_node(alloc, &node);
        // by a call: in place, each kind of node is a case of the proof
        drop(node);
        output
    }

    /// Says that what was written is read back.
    ghost output_reads_back: { (o : Self.ChildOutput)
        → output_well_formed o
        → output_form (output_value o) ≡ Some o };

    /// Says that what is read is well-formed.
    ghost output_reads_well_formed: { GivesWellFormed output_well_formed output_form };

    /// Says that what is written is no null, is given back by its text, has no float, and nests no
    /// deeper than `output_levels`.
    ghost output_writable: { (o : Self.ChildOutput)
        → output_well_formed o
        → IsWritable output_levels (output_value o) };

    /// Says that an output within an event, where it nests up to ten deeper, is no deeper than what
    /// is read as JSON.
    ghost output_shallow: { output_levels + 10 ≤ max_depth };
}

impl OutputForm for RecordingSpec {
    ghost use Rattle.std.specs.Prelude.{true, refl};
    ghost use Rattle.rec_forms.specs.OutputLaws.{
      stored_outputs_back,
      stored_outputs_writable,
      stored_outputs_well_formed,
    };
    ghost use Rattle.rec_forms.specs.Outputs.{
      stored_outputs_value,
      stored_outputs_form,
      IsStoredOutputs,
    };
    ghost use Rattle.rec_forms.specs.Writable.{within_depth};

    ghost output_well_formed = { IsStoredOutputs };

    ghost loaded = { λ _. true };

    ghost output_value = { stored_outputs_value };

    ghost output_form = { stored_outputs_form };

    ghost output_levels = { 4 };

    ghost output_reads_back = { stored_outputs_back };

    ghost output_reads_well_formed = { stored_outputs_well_formed };

    ghost output_writable = { stored_outputs_writable };

    ghost output_shallow = { within_depth refl };

    fn output_write(
        alloc: Global,
        output: &ZipStoreOutputDescription,
        text: &mut JsonText,
    ) -> Result<(), ToValueError> {
        Ok(output.write(alloc, text)?)
    }

    fn output_from_node(
        alloc: Global,
        node: &Node<'_>,
    ) -> Result<ZipStoreOutputDescription, FromValueError> {
        ZipStoreOutputDescription::from_node(alloc, node)
    }
}
