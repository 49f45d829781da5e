//! The list of runs.
use crate::RecordedRunList;
use rec_events::Items;
use rec_forms::{
    Form, FromValueError, ObjectWriter, defaulted_field, optional_field, required_field,
};
use rec_json::{JsonText, Node};
use std::alloc::{AllocError, Global};

impl Form for RecordedRunList {
    ghost use Rattle.std.specs.Prelude.{refl};
    ghost use Rattle.rec_forms.specs.Writable.{within_depth};
    ghost use Rattle.rec_format.specs.RunListFormLaws.{
      run_list_back,
      run_list_writable,
      run_list_well_formed,
    };
    ghost use Rattle.rec_format.specs.RunListForms.{run_list_value, run_list_form, IsRunList};

    ghost well_formed = { IsRunList };

    ghost value_of = { run_list_value };

    ghost form_of = { run_list_form };

    ghost levels = { 5 };

    ghost reads_back = { run_list_back };

    ghost reads_well_formed = { run_list_well_formed };

    ghost writable = { run_list_writable };

    ghost shallow = { within_depth refl };

    fn write(&self, alloc: Global, text: &mut JsonText) -> Result<(), AllocError> {
        let object = ObjectWriter::begin(alloc, text);
        let object = object.field(text, "format-version", &self.format_version);
        let object = object.optional(text, "last-pruned-at", &self.last_pruned_at);
        let object = object.field(text, "runs", &self.runs);
        object.end(text)
    }

    #[tactic(auto, unfolding(crate::specs::RunListForms::run_list_form))]
    fn from_node(alloc: Global, node: &Node<'_>) -> Result<RecordedRunList, FromValueError> {
        let Some(object) = node.as_object() else {
            return Err(FromValueError::NotAValue);
        };
        Ok(RecordedRunList {
            format_version: required_field(alloc, object, "format-version")?,
            last_pruned_at: optional_field(alloc, object, "last-pruned-at")?,
            runs: defaulted_field(alloc, object, "runs", Items::empty(alloc))?,
        })
    }
}
