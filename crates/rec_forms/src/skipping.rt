//! Why tests are skipped, and which of these a report names.
use crate::names::named_item;
use crate::{Form, FromValueError};
use rec_events::{MismatchReason, ReportSkipPolicy};
use rec_json::{JsonText, Node};
use std::alloc::{AllocError, Global};

impl Form for MismatchReason {
    ghost use Rattle.std.specs.Prelude.{refl};
    ghost use Rattle.rec_forms.specs.Skipping.{mismatch_reason_value, mismatch_reason_form};
    ghost use Rattle.rec_forms.specs.SkippingLaws.{mismatch_reason_back, mismatch_reason_writable};
    ghost use Rattle.rec_forms.specs.WellFormedLaws.{any_well_formed};
    ghost use Rattle.rec_forms.specs.Writable.{within_depth};

    ghost well_formed = { λ _. Unit {0} };

    ghost value_of = { mismatch_reason_value };

    ghost form_of = { mismatch_reason_form };

    ghost levels = { 0 };

    ghost reads_back = { λ x _. mismatch_reason_back x };

    ghost reads_well_formed = { any_well_formed mismatch_reason_form };

    ghost writable = { λ x _. mismatch_reason_writable x };

    ghost shallow = { within_depth refl };

    fn write(&self, _alloc: Global, text: &mut JsonText) -> Result<(), AllocError> {
        let name = match self {
            MismatchReason::NotBenchmark => "not-benchmark",
            MismatchReason::Ignored => "ignored",
            MismatchReason::String => "string",
            MismatchReason::Expression => "expression",
            MismatchReason::Partition => "partition",
            MismatchReason::RerunAlreadyPassed => "rerun-already-passed",
            MismatchReason::DefaultFilter => "default-filter",
        };
        text.string(name)
    }

    #[tactic(auto, unfolding(crate::specs::Skipping::mismatch_reason_form))]
    fn from_node(_alloc: Global, node: &Node<'_>) -> Result<MismatchReason, FromValueError> {
        named_item(
            node,
            &[
                ("not-benchmark", MismatchReason::NotBenchmark),
                ("ignored", MismatchReason::Ignored),
                ("string", MismatchReason::String),
                ("expression", MismatchReason::Expression),
                ("partition", MismatchReason::Partition),
                ("rerun-already-passed", MismatchReason::RerunAlreadyPassed),
                ("default-filter", MismatchReason::DefaultFilter),
            ],
        )
    }
}

impl Form for ReportSkipPolicy {
    ghost use Rattle.std.specs.Prelude.{refl};
    ghost use Rattle.rec_forms.specs.Skipping.{skip_policy_value, skip_policy_form};
    ghost use Rattle.rec_forms.specs.SkippingLaws.{skip_policy_back, skip_policy_writable};
    ghost use Rattle.rec_forms.specs.WellFormedLaws.{any_well_formed};
    ghost use Rattle.rec_forms.specs.Writable.{within_depth};

    ghost well_formed = { λ _. Unit {0} };

    ghost value_of = { skip_policy_value };

    ghost form_of = { skip_policy_form };

    ghost levels = { 0 };

    ghost reads_back = { λ x _. skip_policy_back x };

    ghost reads_well_formed = { any_well_formed skip_policy_form };

    ghost writable = { λ x _. skip_policy_writable x };

    ghost shallow = { within_depth refl };

    fn write(&self, _alloc: Global, text: &mut JsonText) -> Result<(), AllocError> {
        let name = match self {
            ReportSkipPolicy::None => "none",
            ReportSkipPolicy::Ignored => "ignored",
            ReportSkipPolicy::All => "all",
        };
        text.string(name)
    }

    #[tactic(auto, unfolding(crate::specs::Skipping::skip_policy_form))]
    fn from_node(_alloc: Global, node: &Node<'_>) -> Result<ReportSkipPolicy, FromValueError> {
        named_item(
            node,
            &[
                ("none", ReportSkipPolicy::None),
                ("ignored", ReportSkipPolicy::Ignored),
                ("all", ReportSkipPolicy::All),
            ],
        )
    }
}
