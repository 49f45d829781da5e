//! What a rerun is a rerun of.
use crate::{RerunInfo, RerunRootInfo};
use rec_forms::{Form, FromValueError, ObjectWriter, object_of_two, required_field, required_two};
use rec_json::{JsonText, Node};
use std::alloc::{AllocError, Global};

impl Form for RerunRootInfo {
    ghost use Rattle.std.specs.Prelude.{refl};
    ghost use Rattle.rec_forms.specs.Writable.{within_depth};
    ghost use Rattle.rec_format.specs.RerunFormLaws.{
      rerun_root_back,
      rerun_root_writable,
      rerun_root_well_formed,
    };
    ghost use Rattle.rec_format.specs.RerunForms.{rerun_root_value, rerun_root_form, IsRerunRoot};

    ghost well_formed = { IsRerunRoot };

    ghost value_of = { rerun_root_value };

    ghost form_of = { rerun_root_form };

    ghost levels = { 6 };

    ghost reads_back = { rerun_root_back };

    ghost reads_well_formed = { rerun_root_well_formed };

    ghost writable = { rerun_root_writable };

    ghost shallow = { within_depth refl };

    fn write(&self, alloc: Global, text: &mut JsonText) -> Result<(), AllocError> {
        let object = ObjectWriter::begin(alloc, text);
        let object = object.field(text, "build-scope", &self.build_scope);
        let object = object.field(text, "run-id", &self.run_id);
        object.end(text)
    }

    #[tactic(auto, unfolding(crate::specs::RerunForms::rerun_root_form))]
    fn from_node(alloc: Global, node: &Node<'_>) -> Result<RerunRootInfo, FromValueError> {
        let (run_id, build_scope) = object_of_two(alloc, node, "run-id", "build-scope")?;
        Ok(RerunRootInfo {
            run_id,
            build_scope,
        })
    }
}

impl Form for RerunInfo {
    ghost use Rattle.std.specs.Prelude.{refl};
    ghost use Rattle.rec_forms.specs.Writable.{within_depth};
    ghost use Rattle.rec_format.specs.RerunFormLaws.{
      rerun_info_back,
      rerun_info_writable,
      rerun_info_well_formed,
    };
    ghost use Rattle.rec_format.specs.RerunForms.{rerun_info_value, rerun_info_form, IsRerunInfo};

    ghost well_formed = { IsRerunInfo };

    ghost value_of = { rerun_info_value };

    ghost form_of = { rerun_info_form };

    ghost levels = { 7 };

    ghost reads_back = { rerun_info_back };

    ghost reads_well_formed = { rerun_info_well_formed };

    ghost writable = { rerun_info_writable };

    ghost shallow = { within_depth refl };

    fn write(&self, alloc: Global, text: &mut JsonText) -> Result<(), AllocError> {
        let object = ObjectWriter::begin(alloc, text);
        let object = object.field(text, "parent-run-id", &self.parent_run_id);
        let object = object.field(text, "root-info", &self.root_info);
        let object = object.field(text, "test-suites", &self.test_suites);
        object.end(text)
    }

    #[tactic(auto, unfolding(crate::specs::RerunForms::rerun_info_form))]
    fn from_node(alloc: Global, node: &Node<'_>) -> Result<RerunInfo, FromValueError> {
        let Some(object) = node.as_object() else {
            return Err(FromValueError::NotAValue);
        };
        let (parent_run_id, root_info) = required_two(alloc, object, "parent-run-id", "root-info")?;
        match required_field(alloc, object, "test-suites") {
            Ok(test_suites) => Ok(RerunInfo {
                parent_run_id,
                root_info,
                test_suites,
            }),
            Err(error) => {
                drop(root_info);
                Err(error)
            }
        }
    }
}
