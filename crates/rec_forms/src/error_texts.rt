//! What is said of errors.
use crate::objects::ObjectWriter;
use crate::several::object_of_two;
use crate::{Form, FromValueError};
use rec_events::{ErrorSummary, OutputErrorSlice};
use rec_json::{JsonText, Node};
use std::alloc::{AllocError, Global};

impl Form for ErrorSummary {
    ghost use Rattle.std.specs.Prelude.{refl};
    ghost use Rattle.rec_forms.specs.ErrorTextLaws.{
      error_summary_back,
      error_summary_writable,
      error_summary_well_formed,
    };
    ghost use Rattle.rec_forms.specs.ErrorTexts.{
      error_summary_value,
      error_summary_form,
      IsErrorSummary,
    };
    ghost use Rattle.rec_forms.specs.Writable.{within_depth};

    ghost well_formed = { IsErrorSummary };

    ghost value_of = { error_summary_value };

    ghost form_of = { error_summary_form };

    ghost levels = { 1 };

    ghost reads_back = { error_summary_back };

    ghost reads_well_formed = { error_summary_well_formed };

    ghost writable = { error_summary_writable };

    ghost shallow = { within_depth refl };

    fn write(&self, alloc: Global, text: &mut JsonText) -> Result<(), AllocError> {
        let object = ObjectWriter::begin(alloc, text);
        let object = object.field(text, "description", &self.description);
        let object = object.field(text, "short-message", &self.short_message);
        object.end(text)
    }

    #[tactic(auto, unfolding(crate::specs::ErrorTexts::error_summary_form))]
    fn from_node(alloc: Global, node: &Node<'_>) -> Result<ErrorSummary, FromValueError> {
        let (short_message, description) = object_of_two(
            alloc,
            node,
            "short-message",
            "description",
        )?;
        Ok(ErrorSummary {
            short_message,
            description,
        })
    }
}

impl Form for OutputErrorSlice {
    ghost use Rattle.std.specs.Prelude.{refl};
    ghost use Rattle.rec_forms.specs.ErrorTextLaws.{
      error_slice_back,
      error_slice_writable,
      error_slice_well_formed,
    };
    ghost use Rattle.rec_forms.specs.ErrorTexts.{error_slice_value, error_slice_form, IsErrorSlice};
    ghost use Rattle.rec_forms.specs.Writable.{within_depth};

    ghost well_formed = { IsErrorSlice };

    ghost value_of = { error_slice_value };

    ghost form_of = { error_slice_form };

    ghost levels = { 1 };

    ghost reads_back = { error_slice_back };

    ghost reads_well_formed = { error_slice_well_formed };

    ghost writable = { error_slice_writable };

    ghost shallow = { within_depth refl };

    fn write(&self, alloc: Global, text: &mut JsonText) -> Result<(), AllocError> {
        let object = ObjectWriter::begin(alloc, text);
        let object = object.field(text, "slice", &self.slice);
        let object = object.field(text, "start", &self.start);
        object.end(text)
    }

    #[tactic(auto, unfolding(crate::specs::ErrorTexts::error_slice_form))]
    fn from_node(alloc: Global, node: &Node<'_>) -> Result<OutputErrorSlice, FromValueError> {
        let (slice, start) = object_of_two(alloc, node, "slice", "start")?;
        Ok(OutputErrorSlice { slice, start })
    }
}
