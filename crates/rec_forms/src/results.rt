//! How a test, a script or an attempt ended.
ghost use Rattle.std.specs.Prelude.{◌≡◌};
ghost use Rattle.rec_json.specs.Nodes.{view};
ghost use Rattle.rec_forms.specs.Gives.{Gives};
ghost use Rattle.rec_forms.specs.Results.{abort_form, fail_form};

use crate::fields::{optional_field, required_field, write_tagged};
use crate::names::named_item;
use crate::objects::ObjectWriter;
use crate::several::object_of_two;
use crate::{Form, FromValueError};
use rec_events::{
    ExecutionResultDescription, FailureDescription, FlakyResult, LeakTimeoutResult,
    SlowTimeoutResult,
};
use rec_json::{JsonText, Node, only_member};
use std::alloc::{AllocError, Global};

impl Form for FlakyResult {
    ghost use Rattle.std.specs.Prelude.{refl};
    ghost use Rattle.rec_forms.specs.ResultLaws.{flaky_result_back, flaky_result_writable};
    ghost use Rattle.rec_forms.specs.Results.{flaky_result_value, flaky_result_form};
    ghost use Rattle.rec_forms.specs.WellFormedLaws.{any_well_formed};
    ghost use Rattle.rec_forms.specs.Writable.{within_depth};

    ghost well_formed = { λ _. Unit {0} };

    ghost value_of = { flaky_result_value };

    ghost form_of = { flaky_result_form };

    ghost levels = { 0 };

    ghost reads_back = { λ x _. flaky_result_back x };

    ghost reads_well_formed = { any_well_formed flaky_result_form };

    ghost writable = { λ x _. flaky_result_writable x };

    ghost shallow = { within_depth refl };

    fn write(&self, _alloc: Global, text: &mut JsonText) -> Result<(), AllocError> {
        let name = match self {
            FlakyResult::Pass => "pass",
            FlakyResult::Fail => "fail",
        };
        text.string(name)
    }

    #[tactic(auto, unfolding(crate::specs::Results::flaky_result_form))]
    fn from_node(_alloc: Global, node: &Node<'_>) -> Result<FlakyResult, FromValueError> {
        named_item(
            node,
            &[("pass", FlakyResult::Pass), ("fail", FlakyResult::Fail)],
        )
    }
}

impl Form for LeakTimeoutResult {
    ghost use Rattle.std.specs.Prelude.{refl};
    ghost use Rattle.rec_forms.specs.ResultLaws.{leak_result_back, leak_result_writable};
    ghost use Rattle.rec_forms.specs.Results.{leak_result_value, leak_result_form};
    ghost use Rattle.rec_forms.specs.WellFormedLaws.{any_well_formed};
    ghost use Rattle.rec_forms.specs.Writable.{within_depth};

    ghost well_formed = { λ _. Unit {0} };

    ghost value_of = { leak_result_value };

    ghost form_of = { leak_result_form };

    ghost levels = { 0 };

    ghost reads_back = { λ x _. leak_result_back x };

    ghost reads_well_formed = { any_well_formed leak_result_form };

    ghost writable = { λ x _. leak_result_writable x };

    ghost shallow = { within_depth refl };

    fn write(&self, _alloc: Global, text: &mut JsonText) -> Result<(), AllocError> {
        let name = match self {
            LeakTimeoutResult::Pass => "pass",
            LeakTimeoutResult::Fail => "fail",
        };
        text.string(name)
    }

    #[tactic(auto, unfolding(crate::specs::Results::leak_result_form))]
    fn from_node(_alloc: Global, node: &Node<'_>) -> Result<LeakTimeoutResult, FromValueError> {
        named_item(
            node,
            &[
                ("pass", LeakTimeoutResult::Pass),
                ("fail", LeakTimeoutResult::Fail),
            ],
        )
    }
}

impl Form for SlowTimeoutResult {
    ghost use Rattle.std.specs.Prelude.{refl};
    ghost use Rattle.rec_forms.specs.ResultLaws.{slow_result_back, slow_result_writable};
    ghost use Rattle.rec_forms.specs.Results.{slow_result_value, slow_result_form};
    ghost use Rattle.rec_forms.specs.WellFormedLaws.{any_well_formed};
    ghost use Rattle.rec_forms.specs.Writable.{within_depth};

    ghost well_formed = { λ _. Unit {0} };

    ghost value_of = { slow_result_value };

    ghost form_of = { slow_result_form };

    ghost levels = { 0 };

    ghost reads_back = { λ x _. slow_result_back x };

    ghost reads_well_formed = { any_well_formed slow_result_form };

    ghost writable = { λ x _. slow_result_writable x };

    ghost shallow = { within_depth refl };

    fn write(&self, _alloc: Global, text: &mut JsonText) -> Result<(), AllocError> {
        let name = match self {
            SlowTimeoutResult::Pass => "pass",
            SlowTimeoutResult::Fail => "fail",
        };
        text.string(name)
    }

    #[tactic(auto, unfolding(crate::specs::Results::slow_result_form))]
    fn from_node(_alloc: Global, node: &Node<'_>) -> Result<SlowTimeoutResult, FromValueError> {
        named_item(
            node,
            &[
                ("pass", SlowTimeoutResult::Pass),
                ("fail", SlowTimeoutResult::Fail),
            ],
        )
    }
}

impl Form for FailureDescription {
    ghost use Rattle.std.specs.Prelude.{refl};
    ghost use Rattle.rec_forms.specs.ResultLaws.{
      failure_back,
      failure_writable,
      failure_well_formed,
    };
    ghost use Rattle.rec_forms.specs.Results.{failure_value, failure_form, IsFailure};
    ghost use Rattle.rec_forms.specs.Writable.{within_depth};

    ghost well_formed = { IsFailure };

    ghost value_of = { failure_value };

    ghost form_of = { failure_form };

    ghost levels = { 2 };

    ghost reads_back = { failure_back };

    ghost reads_well_formed = { failure_well_formed };

    ghost writable = { failure_writable };

    ghost shallow = { within_depth refl };

    fn write(&self, alloc: Global, text: &mut JsonText) -> Result<(), AllocError> {
        match self {
            FailureDescription::ExitCode { code } => {
                write_tagged(alloc, text, "exit-code", code)
            }
            FailureDescription::Abort { signal, name } => {
                let object = ObjectWriter::begin_tagged(alloc, text, "abort");
                let object = object.optional(text, "name", name);
                let object = object.field(text, "signal", signal);
                object.end_tagged(text)
            }
        }
    }

    #[tactic(auto, unfolding(crate::specs::Results::failure_form), using(crate::specs::VariantLaws::variant_cased))]
    fn from_node(alloc: Global, node: &Node<'_>) -> Result<FailureDescription, FromValueError> {
        let Some(object) = node.as_object() else {
            return Err(FromValueError::NotAValue);
        };
        match only_member(object) {
            Some(("exit-code", node)) => {
                i32::from_node(alloc, node).map(|code| FailureDescription::ExitCode { code })
            }
            Some(("abort", node)) => abort_from(alloc, node),
            _ => Err(FromValueError::NotAValue),
        }
    }
}

/// Reads the fields of an abort.
#[tactic(auto, unfolding(crate::specs::Results::abort_form))]
fn abort_from(alloc: Global, node: &Node<'_>) -> Result<FailureDescription, FromValueError>
    ensures { Gives result (abort_form (view node.now)) }
{
    let Some(fields) = node.as_object() else {
        return Err(FromValueError::NotAValue);
    };
    Ok(FailureDescription::Abort {
        signal: required_field(alloc, fields, "signal")?,
        name: optional_field(alloc, fields, "name")?,
    })
}

impl Form for ExecutionResultDescription {
    ghost use Rattle.std.specs.Prelude.{refl};
    ghost use Rattle.rec_forms.specs.ResultLaws.{
      execution_result_back,
      execution_result_writable,
      execution_result_well_formed,
    };
    ghost use Rattle.rec_forms.specs.Results.{
      execution_result_value,
      execution_result_form,
      IsExecutionResult,
    };
    ghost use Rattle.rec_forms.specs.Writable.{within_depth};

    ghost well_formed = { IsExecutionResult };

    ghost value_of = { execution_result_value };

    ghost form_of = { execution_result_form };

    ghost levels = { 4 };

    ghost reads_back = { execution_result_back };

    ghost reads_well_formed = { execution_result_well_formed };

    ghost writable = { execution_result_writable };

    ghost shallow = { within_depth refl };

    fn write(&self, alloc: Global, text: &mut JsonText) -> Result<(), AllocError> {
        match self {
            ExecutionResultDescription::Pass => text.string("pass"),
            ExecutionResultDescription::Leak { result } => {
                write_tagged(alloc, text, "leak", result)
            }
            ExecutionResultDescription::Fail { failure, leaked } => {
                let object = ObjectWriter::begin_tagged(alloc, text, "fail");
                let object = object.field(text, "failure", failure);
                let object = object.field(text, "leaked", leaked);
                object.end_tagged(text)
            }
            ExecutionResultDescription::ExecFail => text.string("exec-fail"),
            ExecutionResultDescription::Timeout { result } => {
                write_tagged(alloc, text, "timeout", result)
            }
        }
    }

    #[tactic(auto, unfolding(crate::specs::Results::execution_result_form), using(crate::specs::VariantLaws::variant_named_or_cased))]
    fn from_node(
        alloc: Global,
        node: &Node<'_>,
    ) -> Result<ExecutionResultDescription, FromValueError> {
        if let Some(name) = node.as_str() {
            return match name {
                "pass" => Ok(ExecutionResultDescription::Pass),
                "exec-fail" => Ok(ExecutionResultDescription::ExecFail),
                _ => Err(FromValueError::NotAValue),
            };
        }
        let Some(object) = node.as_object() else {
            return Err(FromValueError::NotAValue);
        };
        match only_member(object) {
            Some(("leak", node)) => LeakTimeoutResult::from_node(alloc, node).map(
                |outcome| ExecutionResultDescription::Leak { result: outcome },
            ),
            Some(("fail", node)) => fail_from(alloc, node),
            Some(("timeout", node)) => SlowTimeoutResult::from_node(alloc, node).map(
                |outcome| ExecutionResultDescription::Timeout { result: outcome },
            ),
            _ => Err(FromValueError::NotAValue),
        }
    }
}

/// Reads the fields of a failure.
#[tactic(auto, unfolding(crate::specs::Results::fail_form))]
fn fail_from(alloc: Global, node: &Node<'_>) -> Result<ExecutionResultDescription, FromValueError>
    ensures { Gives result (fail_form (view node.now)) }
{
    let (failure, leaked) = object_of_two(alloc, node, "failure", "leaked")?;
    Ok(ExecutionResultDescription::Fail { failure, leaked })
}
