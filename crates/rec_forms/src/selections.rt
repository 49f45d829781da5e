//! What of a workspace is built.
use crate::objects::ObjectWriter;
use crate::several::{defaulted_three, defaulted_two};
use crate::{Form, FromValueError};
use rec_events::{
    BuildScope, FeatureSelection, Items, NamedTargets, PackageSelection, TargetSelection,
};
use rec_json::{JsonText, Node};
use std::alloc::{AllocError, Global};

impl Form for NamedTargets {
    ghost use Rattle.std.specs.Prelude.{refl};
    ghost use Rattle.rec_forms.specs.SelectionLaws.{
      named_targets_back,
      named_targets_writable,
      named_targets_well_formed,
    };
    ghost use Rattle.rec_forms.specs.Selections.{
      named_targets_value,
      named_targets_form,
      IsNamedTargets,
    };
    ghost use Rattle.rec_forms.specs.Writable.{within_depth};

    ghost well_formed = { IsNamedTargets };

    ghost value_of = { named_targets_value };

    ghost form_of = { named_targets_form };

    ghost levels = { 2 };

    ghost reads_back = { named_targets_back };

    ghost reads_well_formed = { named_targets_well_formed };

    ghost writable = { named_targets_writable };

    ghost shallow = { within_depth refl };

    fn write(&self, alloc: Global, text: &mut JsonText) -> Result<(), AllocError> {
        let object = ObjectWriter::begin(alloc, text);
        let object = object.field(text, "all", &self.all);
        let object = object.field(text, "names", &self.names);
        object.end(text)
    }

    #[tactic(auto, unfolding(crate::specs::Selections::named_targets_form))]
    fn from_node(alloc: Global, node: &Node<'_>) -> Result<NamedTargets, FromValueError> {
        let Some(object) = node.as_object() else {
            return Err(FromValueError::NotAValue);
        };
        let (names, all) = defaulted_two(
            alloc,
            object,
            ("names", Items::empty(alloc)),
            ("all", false),
        )?;
        Ok(NamedTargets { names, all })
    }
}

impl Form for PackageSelection {
    ghost use Rattle.std.specs.Prelude.{refl};
    ghost use Rattle.rec_forms.specs.SelectionLaws.{
      package_selection_back,
      package_selection_writable,
      package_selection_well_formed,
    };
    ghost use Rattle.rec_forms.specs.Selections.{
      package_selection_value,
      package_selection_form,
      IsPackageSelection,
    };
    ghost use Rattle.rec_forms.specs.Writable.{within_depth};

    ghost well_formed = { IsPackageSelection };

    ghost value_of = { package_selection_value };

    ghost form_of = { package_selection_form };

    ghost levels = { 2 };

    ghost reads_back = { package_selection_back };

    ghost reads_well_formed = { package_selection_well_formed };

    ghost writable = { package_selection_writable };

    ghost shallow = { within_depth refl };

    fn write(&self, alloc: Global, text: &mut JsonText) -> Result<(), AllocError> {
        let object = ObjectWriter::begin(alloc, text);
        let object = object.field(text, "exclude", &self.exclude);
        let object = object.field(text, "specs", &self.specs);
        let object = object.field(text, "workspace", &self.workspace);
        object.end(text)
    }

    #[tactic(auto, unfolding(crate::specs::Selections::package_selection_form))]
    fn from_node(alloc: Global, node: &Node<'_>) -> Result<PackageSelection, FromValueError> {
        let Some(object) = node.as_object() else {
            return Err(FromValueError::NotAValue);
        };
        let (specs, workspace, exclude) = defaulted_three(
            alloc,
            object,
            ("specs", Items::empty(alloc)),
            ("workspace", false),
            ("exclude", Items::empty(alloc)),
        )?;
        Ok(PackageSelection {
            specs,
            workspace,
            exclude,
        })
    }
}

impl Form for TargetSelection {
    ghost use Rattle.std.specs.Prelude.{refl};
    ghost use Rattle.rec_forms.specs.SelectionLaws.{
      target_selection_back,
      target_selection_writable,
      target_selection_well_formed,
    };
    ghost use Rattle.rec_forms.specs.Selections.{
      target_selection_value,
      target_selection_form,
      IsTargetSelection,
    };
    ghost use Rattle.rec_forms.specs.Writable.{within_depth};

    ghost well_formed = { IsTargetSelection };

    ghost value_of = { target_selection_value };

    ghost form_of = { target_selection_form };

    ghost levels = { 3 };

    ghost reads_back = { target_selection_back };

    ghost reads_well_formed = { target_selection_well_formed };

    ghost writable = { target_selection_writable };

    ghost shallow = { within_depth refl };

    fn write(&self, alloc: Global, text: &mut JsonText) -> Result<(), AllocError> {
        let object = ObjectWriter::begin(alloc, text);
        let object = object.field(text, "all-targets", &self.all_targets);
        let object = object.field(text, "benches", &self.benches);
        let object = object.field(text, "bins", &self.bins);
        let object = object.field(text, "examples", &self.examples);
        let object = object.field(text, "lib", &self.lib);
        let object = object.field(text, "tests", &self.tests);
        object.end(text)
    }

    #[tactic(auto, unfolding(crate::specs::Selections::target_selection_form))]
    fn from_node(alloc: Global, node: &Node<'_>) -> Result<TargetSelection, FromValueError> {
        let Some(object) = node.as_object() else {
            return Err(FromValueError::NotAValue);
        };
        let (lib, all_targets, bins) = defaulted_three(
            alloc,
            object,
            ("lib", false),
            ("all-targets", false),
            ("bins", NamedTargets::none(alloc)),
        )?;
        let (examples, tests, benches) = defaulted_three(
            alloc,
            object,
            ("examples", NamedTargets::none(alloc)),
            ("tests", NamedTargets::none(alloc)),
            ("benches", NamedTargets::none(alloc)),
        )?;
        Ok(TargetSelection {
            lib,
            all_targets,
            bins,
            examples,
            tests,
            benches,
        })
    }
}

impl Form for FeatureSelection {
    ghost use Rattle.std.specs.Prelude.{refl};
    ghost use Rattle.rec_forms.specs.SelectionLaws.{
      feature_selection_back,
      feature_selection_writable,
      feature_selection_well_formed,
    };
    ghost use Rattle.rec_forms.specs.Selections.{
      feature_selection_value,
      feature_selection_form,
      IsFeatureSelection,
    };
    ghost use Rattle.rec_forms.specs.Writable.{within_depth};

    ghost well_formed = { IsFeatureSelection };

    ghost value_of = { feature_selection_value };

    ghost form_of = { feature_selection_form };

    ghost levels = { 2 };

    ghost reads_back = { feature_selection_back };

    ghost reads_well_formed = { feature_selection_well_formed };

    ghost writable = { feature_selection_writable };

    ghost shallow = { within_depth refl };

    fn write(&self, alloc: Global, text: &mut JsonText) -> Result<(), AllocError> {
        let object = ObjectWriter::begin(alloc, text);
        let object = object.field(text, "all-features", &self.all_features);
        let object = object.field(text, "features", &self.features);
        let object = object.field(text, "no-default-features", &self.no_default_features);
        object.end(text)
    }

    #[tactic(auto, unfolding(crate::specs::Selections::feature_selection_form))]
    fn from_node(alloc: Global, node: &Node<'_>) -> Result<FeatureSelection, FromValueError> {
        let Some(object) = node.as_object() else {
            return Err(FromValueError::NotAValue);
        };
        let (features, all_features, no_default_features) = defaulted_three(
            alloc,
            object,
            ("features", Items::empty(alloc)),
            ("all-features", false),
            ("no-default-features", false),
        )?;
        Ok(FeatureSelection {
            features,
            all_features,
            no_default_features,
        })
    }
}

impl Form for BuildScope {
    ghost use Rattle.std.specs.Prelude.{refl};
    ghost use Rattle.rec_forms.specs.SelectionLaws.{
      build_scope_back,
      build_scope_writable,
      build_scope_well_formed,
    };
    ghost use Rattle.rec_forms.specs.Selections.{build_scope_value, build_scope_form, IsBuildScope};
    ghost use Rattle.rec_forms.specs.Writable.{within_depth};

    ghost well_formed = { IsBuildScope };

    ghost value_of = { build_scope_value };

    ghost form_of = { build_scope_form };

    ghost levels = { 4 };

    ghost reads_back = { build_scope_back };

    ghost reads_well_formed = { build_scope_well_formed };

    ghost writable = { build_scope_writable };

    ghost shallow = { within_depth refl };

    fn write(&self, alloc: Global, text: &mut JsonText) -> Result<(), AllocError> {
        let object = ObjectWriter::begin(alloc, text);
        let object = object.field(text, "features", &self.features);
        let object = object.field(text, "packages", &self.packages);
        let object = object.field(text, "targets", &self.targets);
        object.end(text)
    }

    #[tactic(auto, unfolding(crate::specs::Selections::build_scope_form))]
    fn from_node(alloc: Global, node: &Node<'_>) -> Result<BuildScope, FromValueError> {
        let Some(object) = node.as_object() else {
            return Err(FromValueError::NotAValue);
        };
        let (packages, targets, features) = defaulted_three(
            alloc,
            object,
            ("packages", PackageSelection::none(alloc)),
            ("targets", TargetSelection::none(alloc)),
            ("features", FeatureSelection::none(alloc)),
        )?;
        Ok(BuildScope {
            packages,
            targets,
            features,
        })
    }
}
