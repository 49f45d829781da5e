//! Kinds of outputs, and the names of their files.
use crate::names::named_item;
use crate::{Form, FromValueError};
use rec_events::{OutputFileName, OutputKind};
use rec_json::{JsonText, Node};
use std::alloc::{AllocError, Global};

impl Form for OutputKind {
    ghost use Rattle.std.specs.Prelude.{refl};
    ghost use Rattle.rec_forms.specs.OutputNameLaws.{output_kind_back, output_kind_writable};
    ghost use Rattle.rec_forms.specs.OutputNames.{output_kind_value, output_kind_form};
    ghost use Rattle.rec_forms.specs.WellFormedLaws.{any_well_formed};
    ghost use Rattle.rec_forms.specs.Writable.{within_depth};

    ghost well_formed = { λ _. Unit {0} };

    ghost value_of = { output_kind_value };

    ghost form_of = { output_kind_form };

    ghost levels = { 0 };

    ghost reads_back = { λ x _. output_kind_back x };

    ghost reads_well_formed = { any_well_formed output_kind_form };

    ghost writable = { λ x _. output_kind_writable x };

    ghost shallow = { within_depth refl };

    fn write(&self, _alloc: Global, text: &mut JsonText) -> Result<(), AllocError> {
        let name = match self {
            OutputKind::Stdout => "stdout",
            OutputKind::Stderr => "stderr",
            OutputKind::Combined => "combined",
        };
        text.string(name)
    }

    #[tactic(auto, unfolding(crate::specs::OutputNames::output_kind_form))]
    fn from_node(_alloc: Global, node: &Node<'_>) -> Result<OutputKind, FromValueError> {
        named_item(
            node,
            &[
                ("stdout", OutputKind::Stdout),
                ("stderr", OutputKind::Stderr),
                ("combined", OutputKind::Combined),
            ],
        )
    }
}

impl Form for OutputFileName {
    ghost use Rattle.std.specs.Prelude.{refl};
    ghost use Rattle.rec_forms.specs.OutputNameLaws.{
      file_name_back,
      file_name_writable,
      file_name_well_formed,
    };
    ghost use Rattle.rec_forms.specs.OutputNames.{file_name_value, file_name_form, IsFileName};
    ghost use Rattle.rec_forms.specs.Writable.{within_depth};

    ghost well_formed = { IsFileName };

    ghost value_of = { file_name_value };

    ghost form_of = { file_name_form };

    ghost levels = { 0 };

    ghost reads_back = { file_name_back };

    ghost reads_well_formed = { file_name_well_formed };

    ghost writable = { file_name_writable };

    ghost shallow = { within_depth refl };

    fn write(&self, alloc: Global, text: &mut JsonText) -> Result<(), AllocError> {
        let name = self.text(alloc)?;
        text.string(&name)
    }

    #[tactic(auto, unfolding(crate::specs::OutputNames::file_name_form))]
    fn from_node(_alloc: Global, node: &Node<'_>) -> Result<OutputFileName, FromValueError> {
        let Some(text) = node.as_str() else {
            return Err(FromValueError::NotAValue);
        };
        OutputFileName::parse(text).ok_or(FromValueError::NotAValue)
    }
}
