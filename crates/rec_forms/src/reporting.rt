//! How the outcome of a test is shown and reported.
use crate::names::named_item;
use crate::{Form, FromValueError};
use rec_events::{CancelReason, JunitFlakyFailStatus, TestOutputDisplay};
use rec_json::{JsonText, Node};
use std::alloc::{AllocError, Global};

impl Form for TestOutputDisplay {
    ghost use Rattle.std.specs.Prelude.{refl};
    ghost use Rattle.rec_forms.specs.Reporting.{output_display_value, output_display_form};
    ghost use Rattle.rec_forms.specs.ReportingLaws.{output_display_back, output_display_writable};
    ghost use Rattle.rec_forms.specs.WellFormedLaws.{any_well_formed};
    ghost use Rattle.rec_forms.specs.Writable.{within_depth};

    ghost well_formed = { λ _. Unit {0} };

    ghost value_of = { output_display_value };

    ghost form_of = { output_display_form };

    ghost levels = { 0 };

    ghost reads_back = { λ x _. output_display_back x };

    ghost reads_well_formed = { any_well_formed output_display_form };

    ghost writable = { λ x _. output_display_writable x };

    ghost shallow = { within_depth refl };

    fn write(&self, _alloc: Global, text: &mut JsonText) -> Result<(), AllocError> {
        let name = match self {
            TestOutputDisplay::Immediate => "immediate",
            TestOutputDisplay::Final => "final",
            TestOutputDisplay::ImmediateFinal => "immediate-final",
            TestOutputDisplay::Never => "never",
        };
        text.string(name)
    }

    #[tactic(auto, unfolding(crate::specs::Reporting::output_display_form))]
    fn from_node(_alloc: Global, node: &Node<'_>) -> Result<TestOutputDisplay, FromValueError> {
        named_item(
            node,
            &[
                ("immediate", TestOutputDisplay::Immediate),
                ("final", TestOutputDisplay::Final),
                ("immediate-final", TestOutputDisplay::ImmediateFinal),
                ("never", TestOutputDisplay::Never),
            ],
        )
    }
}

impl Form for JunitFlakyFailStatus {
    ghost use Rattle.std.specs.Prelude.{refl};
    ghost use Rattle.rec_forms.specs.Reporting.{flaky_fail_status_value, flaky_fail_status_form};
    ghost use Rattle.rec_forms.specs.ReportingLaws.{
      flaky_fail_status_back,
      flaky_fail_status_writable,
    };
    ghost use Rattle.rec_forms.specs.WellFormedLaws.{any_well_formed};
    ghost use Rattle.rec_forms.specs.Writable.{within_depth};

    ghost well_formed = { λ _. Unit {0} };

    ghost value_of = { flaky_fail_status_value };

    ghost form_of = { flaky_fail_status_form };

    ghost levels = { 0 };

    ghost reads_back = { λ x _. flaky_fail_status_back x };

    ghost reads_well_formed = { any_well_formed flaky_fail_status_form };

    ghost writable = { λ x _. flaky_fail_status_writable x };

    ghost shallow = { within_depth refl };

    fn write(&self, _alloc: Global, text: &mut JsonText) -> Result<(), AllocError> {
        let name = match self {
            JunitFlakyFailStatus::Failure => "failure",
            JunitFlakyFailStatus::Success => "success",
        };
        text.string(name)
    }

    #[tactic(auto, unfolding(crate::specs::Reporting::flaky_fail_status_form))]
    fn from_node(_alloc: Global, node: &Node<'_>) -> Result<JunitFlakyFailStatus, FromValueError> {
        named_item(
            node,
            &[
                ("failure", JunitFlakyFailStatus::Failure),
                ("success", JunitFlakyFailStatus::Success),
            ],
        )
    }
}

impl Form for CancelReason {
    ghost use Rattle.std.specs.Prelude.{refl};
    ghost use Rattle.rec_forms.specs.Reporting.{cancel_reason_value, cancel_reason_form};
    ghost use Rattle.rec_forms.specs.ReportingLaws.{cancel_reason_back, cancel_reason_writable};
    ghost use Rattle.rec_forms.specs.WellFormedLaws.{any_well_formed};
    ghost use Rattle.rec_forms.specs.Writable.{within_depth};

    ghost well_formed = { λ _. Unit {0} };

    ghost value_of = { cancel_reason_value };

    ghost form_of = { cancel_reason_form };

    ghost levels = { 0 };

    ghost reads_back = { λ x _. cancel_reason_back x };

    ghost reads_well_formed = { any_well_formed cancel_reason_form };

    ghost writable = { λ x _. cancel_reason_writable x };

    ghost shallow = { within_depth refl };

    fn write(&self, _alloc: Global, text: &mut JsonText) -> Result<(), AllocError> {
        let name = match self {
            CancelReason::SetupScriptFailure => "setup-script-failure",
            CancelReason::TestFailure => "test-failure",
            CancelReason::ReportError => "report-error",
            CancelReason::GlobalTimeout => "global-timeout",
            CancelReason::TestFailureImmediate => "test-failure-immediate",
            CancelReason::Signal => "signal",
            CancelReason::Interrupt => "interrupt",
            CancelReason::SecondSignal => "second-signal",
        };
        text.string(name)
    }

    #[tactic(auto, unfolding(crate::specs::Reporting::cancel_reason_form))]
    fn from_node(_alloc: Global, node: &Node<'_>) -> Result<CancelReason, FromValueError> {
        named_item(
            node,
            &[
                ("setup-script-failure", CancelReason::SetupScriptFailure),
                ("test-failure", CancelReason::TestFailure),
                ("report-error", CancelReason::ReportError),
                ("global-timeout", CancelReason::GlobalTimeout),
                ("test-failure-immediate", CancelReason::TestFailureImmediate),
                ("signal", CancelReason::Signal),
                ("interrupt", CancelReason::Interrupt),
                ("second-signal", CancelReason::SecondSignal),
            ],
        )
    }
}
