//! What of a workspace is built.
ghost use Rattle.std.specs.Prelude.{◌≡◌};
ghost use Rattle.rec_events.specs.Selections.{no_named_targets, no_package_selection};
ghost use Rattle.rec_events.specs.Selections.{no_target_selection, no_feature_selection};

use crate::{Items, Text, TryClone, clone_both};
use std::alloc::{AllocError, Global};

/// Selects targets of one kind: those named, or all.
#[derive(PartialEq, Eq, Debug, Drop)]
pub struct NamedTargets {
    /// The targets that are named.
    pub names: Items<Text>,
    /// Whether all targets of the kind are selected.
    pub all: bool,
}

impl NamedTargets {
    /// Makes an empty list: no targets.
    pub fn none(alloc: Global) -> NamedTargets
        ensures { result ≡ no_named_targets }
    {
        NamedTargets {
            names: Items::empty(alloc),
            all: false,
        }
    }
}

impl TryClone for NamedTargets {
    fn try_clone(&self, alloc: Global) -> Result<NamedTargets, AllocError> {
        Ok(NamedTargets {
            names: self.names.try_clone(alloc)?,
            all: self.all,
        })
    }
}

/// Says which packages are built.
#[derive(PartialEq, Eq, Debug, Drop)]
pub struct PackageSelection {
    /// The packages that are named.
    pub specs: Items<Text>,
    /// Whether all packages of the workspace are built.
    pub workspace: bool,
    /// The packages that are left out.
    pub exclude: Items<Text>,
}

impl PackageSelection {
    /// Makes what says nothing: no package named, none excluded.
    pub fn none(alloc: Global) -> PackageSelection
        ensures { result ≡ no_package_selection }
    {
        PackageSelection {
            specs: Items::empty(alloc),
            workspace: false,
            exclude: Items::empty(alloc),
        }
    }
}

impl TryClone for PackageSelection {
    fn try_clone(&self, alloc: Global) -> Result<PackageSelection, AllocError> {
        let (specs, exclude) = clone_both(alloc, &self.specs, &self.exclude)?;
        Ok(PackageSelection {
            specs,
            workspace: self.workspace,
            exclude,
        })
    }
}

/// Says which targets of the packages are built.
#[derive(PartialEq, Eq, Debug, Drop)]
pub struct TargetSelection {
    /// Whether the libraries are built.
    pub lib: bool,
    /// The binaries that are built.
    pub bins: NamedTargets,
    /// The examples that are built.
    pub examples: NamedTargets,
    /// The tests that are built.
    pub tests: NamedTargets,
    /// The benchmarks that are built.
    pub benches: NamedTargets,
    /// Whether all targets are built.
    pub all_targets: bool,
}

impl TargetSelection {
    /// Makes what says nothing: no target named.
    pub fn none(alloc: Global) -> TargetSelection
        ensures { result ≡ no_target_selection }
    {
        TargetSelection {
            lib: false,
            bins: NamedTargets::none(alloc),
            examples: NamedTargets::none(alloc),
            tests: NamedTargets::none(alloc),
            benches: NamedTargets::none(alloc),
            all_targets: false,
        }
    }
}

impl TryClone for TargetSelection {
    fn try_clone(&self, alloc: Global) -> Result<TargetSelection, AllocError> {
        let programs = clone_both(alloc, &self.bins, &self.examples)?;
        let Ok((tests, benches)) = clone_both(alloc, &self.tests, &self.benches) else {
            drop(programs);
            return Err(AllocError);
        };
        let (bins, examples) = programs;
        Ok(TargetSelection {
            lib: self.lib,
            bins,
            examples,
            tests,
            benches,
            all_targets: self.all_targets,
        })
    }
}

/// Says which features of the packages are built.
#[derive(PartialEq, Eq, Debug, Drop)]
pub struct FeatureSelection {
    /// The features that are named.
    pub features: Items<Text>,
    /// Whether all features are on.
    pub all_features: bool,
    /// Whether the default features are off.
    pub no_default_features: bool,
}

impl FeatureSelection {
    /// Makes what says nothing: the default features alone.
    pub fn none(alloc: Global) -> FeatureSelection
        ensures { result ≡ no_feature_selection }
    {
        FeatureSelection {
            features: Items::empty(alloc),
            all_features: false,
            no_default_features: false,
        }
    }
}

impl TryClone for FeatureSelection {
    fn try_clone(&self, alloc: Global) -> Result<FeatureSelection, AllocError> {
        Ok(FeatureSelection {
            features: self.features.try_clone(alloc)?,
            all_features: self.all_features,
            no_default_features: self.no_default_features,
        })
    }
}

/// Holds everything that says what is built.
#[derive(PartialEq, Eq, Debug, Drop)]
pub struct BuildScope {
    /// Which packages are built.
    pub packages: PackageSelection,
    /// Which of their targets are built.
    pub targets: TargetSelection,
    /// Which of their features are on.
    pub features: FeatureSelection,
}

impl TryClone for BuildScope {
    fn try_clone(&self, alloc: Global) -> Result<BuildScope, AllocError> {
        let targets = self.targets.try_clone(alloc)?;
        let Ok((packages, features)) = clone_both(alloc, &self.packages, &self.features) else {
            drop(targets);
            return Err(AllocError);
        };
        Ok(BuildScope {
            packages,
            targets,
            features,
        })
    }
}
