//! What an event adds to a report.
ghost use Rattle.std.specs.Prelude.{◌≡◌, ◌++◌, ◌∷◌, [], codes, Some, Ok, IfOk, OnOk};
ghost use Rattle.rec_events.specs.LiveEvents.{kind_name};
ghost use Rattle.rec_junit.specs.Additions.{addition_of, finished_addition, property};
ghost use Rattle.rec_junit.specs.Additions.{script_addition, script_properties};
ghost use Rattle.rec_junit.specs.Additions.{test_addition, variables};
ghost use Rattle.rec_junit.specs.Cases.{script_case, skipped_case};
ghost use Rattle.rec_junit.specs.Failing.{script_unit};
ghost use Rattle.rec_junit.specs.Failures.{script_parts};
ghost use Rattle.rec_junit.specs.Judging.{Judges};
ghost use Rattle.rec_junit.specs.Suites.{suite_name};

use crate::failing::{script_unit, test_unit};
use crate::other_cases::skipped_case;
use crate::reruns::{CaseMaker, Storing};
use crate::shell::join_texts;
use crate::suite_keys::SuiteKey;
use crate::suites::Addition;
use crate::{ErrorDescriber, JunitCase, JunitError, JunitProperty};
use rec_events::{
    ExecutionStatuses, Items, JunitFlakyFailStatus, LiveSpec, MismatchReason, NextestRunMode,
    ScriptId, SetupScriptExecuteStatus, StressIndex, TestEventKind, TestInstanceId, Text, TextMap,
    TryClone,
};
use std::alloc::{AllocError, Global};

/// Makes what an event adds to a report, if anything.
///
/// # Errors
///
/// The first refusal of a case that the event gives, or `OutOfMemory`.
pub(crate) fn addition_of<D: ErrorDescriber>(
    alloc: Global,
    mode: NextestRunMode,
    describer: &D,
    kind: &TestEventKind<'_>,
) -> Result<Option<Addition>, JunitError>
    ensures { Judges result (addition_of mode (D.text_of describer.now) kind.now) }
{
    match kind {
        TestEventKind::SetupScriptFinished { .. } => script_finished(alloc, mode, describer, kind),
        TestEventKind::TestFinished { .. } => test_finished(alloc, mode, describer, kind),
        TestEventKind::TestSkipped { .. } => test_skipped(alloc, mode, describer, kind),
        _ => Ok(None),
    }
}

/// Makes what a finished setup script adds.
fn script_finished<D: ErrorDescriber>(
    alloc: Global,
    mode: NextestRunMode,
    describer: &D,
    kind: &TestEventKind<'_>,
) -> Result<Option<Addition>, JunitError>
    requires kind { kind_name kind.now ≡ codes "setup-script-finished" }
    ensures { Judges result (addition_of mode (D.text_of describer.now) kind.now) }
{
    let TestEventKind::SetupScriptFinished {
        stress_index,
        script_id,
        program,
        args,
        junit_store_success_output,
        junit_store_failure_output,
        run_status,
        ..
    } = kind
    else {
        unreachable!()
    };
    let maker = CaseMaker {
        alloc,
        unit: script_unit(),
        describer,
        storing: Storing {
            success: *junit_store_success_output,
            failure: *junit_store_failure_output,
        },
    };
    let key = SuiteKey::of_script(alloc, script_id, stress_index)?;
    script_addition(&maker, key, script_id, program, args.as_slice(), run_status)
}

/// Adds the case of a finished setup script to the suite of this key.
fn script_addition<D: ErrorDescriber>(
    maker: &CaseMaker<'_, D>,
    key: SuiteKey,
    script: &ScriptId,
    program: &Text,
    args: &[Text],
    ran: &SetupScriptExecuteStatus<LiveSpec>,
) -> Result<Option<Addition>, JunitError>
    requires unit { maker.now.unit.now ≡ script_unit }
    ensures { Judges result
        (script_addition (D.text_of maker.now.describer.now) maker.now.storing key script.now
        program.now args.now ran.now) }
{
    match script_parts(maker, &key, script, program, args, ran) {
        Ok(parts) => {
            let (case, properties) = parts;
            Ok(Some(Addition {
                key,
                case,
                properties,
            }))
        }
        Err(error) => {
            drop(key);
            Err(error)
        }
    }
}

/// Makes the case of a finished setup script, and what is said of its suite.
fn script_parts<D: ErrorDescriber>(
    maker: &CaseMaker<'_, D>,
    key: &SuiteKey,
    script: &ScriptId,
    program: &Text,
    args: &[Text],
    ran: &SetupScriptExecuteStatus<LiveSpec>,
) -> Result<(JunitCase, Items<JunitProperty>), JunitError>
    requires unit { maker.now.unit.now ≡ script_unit }
    ensures { Judges result
        (script_parts (D.text_of maker.now.describer.now) maker.now.storing key.now script.now
        program.now args.now ran.now) }
{
    let properties = script_properties(maker.alloc, program, args, &ran.env_map)?;
    match case_in_suite(maker, key, script, ran) {
        Ok(case) => Ok((case, properties)),
        Err(error) => {
            drop(properties);
            Err(error)
        }
    }
}

/// Makes the case of a finished setup script, in the suite of this key.
fn case_in_suite<D: ErrorDescriber>(
    maker: &CaseMaker<'_, D>,
    key: &SuiteKey,
    script: &ScriptId,
    ran: &SetupScriptExecuteStatus<LiveSpec>,
) -> Result<JunitCase, JunitError>
    requires unit { maker.now.unit.now ≡ script_unit }
    ensures { Judges result
        (script_case (D.text_of maker.now.describer.now) maker.now.storing script.now
        (suite_name key.now) ran.now) }
{
    let suite = key.suite_name(maker.alloc)?;
    maker.script_case(script, suite.as_str(), ran)
}

/// Makes what a finished test adds.
fn test_finished<D: ErrorDescriber>(
    alloc: Global,
    mode: NextestRunMode,
    describer: &D,
    kind: &TestEventKind<'_>,
) -> Result<Option<Addition>, JunitError>
    requires kind { kind_name kind.now ≡ codes "test-finished" }
    ensures { Judges result (addition_of mode (D.text_of describer.now) kind.now) }
{
    let TestEventKind::TestFinished {
        stress_index,
        test_instance,
        junit_store_success_output,
        junit_store_failure_output,
        junit_flaky_fail_status,
        run_statuses,
        ..
    } = kind
    else {
        unreachable!()
    };
    let maker = CaseMaker {
        alloc,
        unit: test_unit(mode),
        describer,
        storing: Storing {
            success: *junit_store_success_output,
            failure: *junit_store_failure_output,
        },
    };
    finished_addition(
        &maker,
        stress_index,
        test_instance,
        *junit_flaky_fail_status,
        run_statuses,
    )
}

/// Adds the case of a finished test.
fn finished_addition<D: ErrorDescriber>(
    maker: &CaseMaker<'_, D>,
    stress_index: &Option<StressIndex>,
    test: &TestInstanceId<'_>,
    fail_status: JunitFlakyFailStatus,
    statuses: &ExecutionStatuses<LiveSpec>,
) -> Result<Option<Addition>, JunitError>
    ensures { Judges result
        (finished_addition maker.now.unit.now (D.text_of maker.now.describer.now) maker.now.storing
        stress_index.now test.now fail_status statuses.now) }
{
    let attempts = statuses.describe();
    let case = maker.test_case(test, statuses.flaky_result(), fail_status, &attempts)?;
    test_addition(maker.alloc, stress_index, test, case)
}

/// Makes what a test adds that doesn't run.
fn test_skipped<D: ErrorDescriber>(
    alloc: Global,
    mode: NextestRunMode,
    describer: &D,
    kind: &TestEventKind<'_>,
) -> Result<Option<Addition>, JunitError>
    requires kind { kind_name kind.now ≡ codes "test-skipped" }
    ensures { Judges result (addition_of mode (D.text_of describer.now) kind.now) }
{
    let TestEventKind::TestSkipped {
        stress_index,
        test_instance,
        reason,
        junit_report_skipped,
    } = kind
    else {
        unreachable!()
    };
    if !junit_report_skipped.should_report(*reason) {
        return Ok(None);
    }
    skipped_addition(alloc, stress_index, test_instance, *reason)
}

/// Adds the case of a test that doesn't run.
fn skipped_addition(
    alloc: Global,
    stress_index: &Option<StressIndex>,
    test: &TestInstanceId<'_>,
    reason: MismatchReason,
) -> Result<Option<Addition>, JunitError>
    ensures { Judges result
        (Ok (Some (test_addition stress_index.now test.now (skipped_case test.now reason)))) }
{
    let case = skipped_case(alloc, test, reason)?;
    test_addition(alloc, stress_index, test, case)
}

/// Adds a case to the suite of a test's binary.
fn test_addition(
    alloc: Global,
    stress_index: &Option<StressIndex>,
    test: &TestInstanceId<'_>,
    case: JunitCase,
) -> Result<Option<Addition>, JunitError>
    ensures { Judges result (Ok (Some (test_addition stress_index.now test.now case))) }
{
    let Ok(key) = SuiteKey::of_binary(alloc, test.binary_id, stress_index) else {
        drop(case);
        return Err(JunitError::OutOfMemory);
    };
    Ok(Some(Addition {
        key,
        case,
        properties: Items::empty(alloc),
    }))
}

/// Says of a script's suite what was run, and which variables it set.
fn script_properties(
    alloc: Global,
    program: &Text,
    args: &[Text],
    env_map: &Option<TextMap<Text>>,
) -> Result<Items<JunitProperty>, AllocError>
    ensures { IfOk result
        (λ properties. properties ≡ script_properties program.now args.now env_map.now) }
{
    let mut properties = Vec::new(alloc);
    put_command(alloc, &mut properties, program, args, env_map)?;
    Ok(Items::new(properties))
}

/// Adds what was run, and the variables that it set.
fn put_command(
    alloc: Global,
    properties: &mut Vec<JunitProperty>,
    program: &Text,
    args: &[Text],
    env_map: &Option<TextMap<Text>>,
) -> Result<(), AllocError>
    ensures { OnOk result
        (properties.new.items
        ≡ properties.old.items ++ script_properties program.now args.now env_map.now) }
{
    let program = program.try_clone(alloc)?;
    put_property(alloc, properties, "command", program)?;
    let args = join_texts(alloc, args)?;
    put_property(alloc, properties, "args", args)?;
    match env_map {
        Some(env_map) => put_variables(alloc, properties, env_map),
        None => Ok(()),
    }
}

/// Adds one thing that is said of a suite.
fn put_property(
    alloc: Global,
    properties: &mut Vec<JunitProperty>,
    name: &str,
    value: Text,
) -> Result<(), AllocError>
    ensures { OnOk result
        (properties.new.items ≡ properties.old.items ++ (property name.now value ∷ [])) }
{
    let name = Text::from_str(alloc, name)?;
    properties.push(JunitProperty { name, value })?;
    Ok(())
}

/// Adds the variables that a script set, in the order of their names.
fn put_variables(
    alloc: Global,
    properties: &mut Vec<JunitProperty>,
    env_map: &TextMap<Text>,
) -> Result<(), AllocError>
    ensures { OnOk result
        (properties.new.items ≡ properties.old.items ++ variables (Some env_map.now)) }
{
    for (name, value) in env_map.as_map() {
        properties.push(variable(alloc, name.as_str(), value)?)?;
    }
    Ok(())
}

/// Says which value a variable was set to.
fn variable(alloc: Global, name: &str, value: &Text) -> Result<JunitProperty, AllocError>
    ensures { IfOk result (λ p. p ≡ property (codes "output-env:" ++ name.now) value.now) }
{
    let name = Text::new(format!(in alloc; "output-env:{name}")?);
    let value = value.try_clone(alloc)?;
    Ok(JunitProperty { name, value })
}
