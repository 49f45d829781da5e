//! What was built.
use crate::{BuildKind, RecordedBuildScope};
use rec_forms::{Form, FromValueError, ObjectWriter, object_of_two};
use rec_json::{JsonText, Node};
use std::alloc::{AllocError, Global};

impl Form for BuildKind {
    ghost use Rattle.std.specs.Prelude.{refl};
    ghost use Rattle.rec_forms.specs.WellFormedLaws.{any_well_formed};
    ghost use Rattle.rec_forms.specs.Writable.{within_depth};
    ghost use Rattle.rec_format.specs.ScopeFormLaws.{build_kind_back, build_kind_writable};
    ghost use Rattle.rec_format.specs.ScopeForms.{build_kind_value, build_kind_form};

    ghost well_formed = { λ _. Unit {0} };

    ghost value_of = { build_kind_value };

    ghost form_of = { build_kind_form };

    ghost levels = { 0 };

    ghost reads_back = { λ x _. build_kind_back x };

    ghost reads_well_formed = { any_well_formed build_kind_form };

    ghost writable = { λ x _. build_kind_writable x };

    ghost shallow = { within_depth refl };

    fn write(&self, _alloc: Global, text: &mut JsonText) -> Result<(), AllocError> {
        let name = match self {
            BuildKind::Cargo => "cargo",
            BuildKind::Reused => "reused",
        };
        text.string(name)
    }

    #[tactic(auto, unfolding(crate::specs::ScopeForms::build_kind_form))]
    fn from_node(_alloc: Global, node: &Node<'_>) -> Result<BuildKind, FromValueError> {
        match node.as_str() {
            Some("cargo") => Ok(BuildKind::Cargo),
            Some("reused") => Ok(BuildKind::Reused),
            _ => Err(FromValueError::NotAValue),
        }
    }
}

impl Form for RecordedBuildScope {
    ghost use Rattle.std.specs.Prelude.{refl};
    ghost use Rattle.rec_forms.specs.Writable.{within_depth};
    ghost use Rattle.rec_format.specs.ScopeFormLaws.{
      recorded_scope_back,
      recorded_scope_writable,
      recorded_scope_well_formed,
    };
    ghost use Rattle.rec_format.specs.ScopeForms.{
      recorded_scope_value,
      recorded_scope_form,
      IsRecordedScope,
    };

    ghost well_formed = { IsRecordedScope };

    ghost value_of = { recorded_scope_value };

    ghost form_of = { recorded_scope_form };

    ghost levels = { 5 };

    ghost reads_back = { recorded_scope_back };

    ghost reads_well_formed = { recorded_scope_well_formed };

    ghost writable = { recorded_scope_writable };

    ghost shallow = { within_depth refl };

    fn write(&self, alloc: Global, text: &mut JsonText) -> Result<(), AllocError> {
        let object = ObjectWriter::begin(alloc, text);
        let object = object.field(text, "build-kind", &self.build_kind);
        let object = object.field(text, "scope", &self.scope);
        object.end(text)
    }

    #[tactic(auto, unfolding(crate::specs::ScopeForms::recorded_scope_form))]
    fn from_node(alloc: Global, node: &Node<'_>) -> Result<RecordedBuildScope, FromValueError> {
        let (build_kind, scope) = object_of_two(alloc, node, "build-kind", "scope")?;
        Ok(RecordedBuildScope { build_kind, scope })
    }
}
