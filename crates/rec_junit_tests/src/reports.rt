//! Outputs that are not loaded, setup scripts whose outputs are stored, refused tests,
//! and what a describer says.

use crate::made::{finished, run_end, script, test};
use rec_events::{ChildExecutionOutputDescription, LiveSpec, NextestRunMode, TestEvent, Text};
use rec_junit::{
    ErrorDescriber, ErrorText, JunitBuilder, JunitError, JunitReport, PlainDescriber,
    report_to_value,
};
use serde_json::Value;
use std::alloc::{AllocError, Global};
use std::process::Abort;
use std::test::Fail;

/// The name of a test, or `@` for a setup script; how its attempts ended, and what they wrote;
/// and flags.
type Row = (&'static str, &'static str, &'static str, &'static str);

/// The name of a refusal.
fn name_of(error: JunitError) -> &'static str {
    match error {
        JunitError::NotLoadedOutput => "NotLoadedOutput ",
        JunitError::SuccessAsFailure => "SuccessAsFailure ",
        JunitError::OutOfMemory => "OutOfMemory ",
    }
}

/// Writes an event, and answers the name of its refusal, `report`, or nothing.
fn written<D: ErrorDescriber>(
    builder: &mut JunitBuilder<'_, D>,
    event: TestEvent<'_>,
) -> &'static str {
    let result = builder.write_event(&event);
    drop(event);
    match result {
        Ok(Some(report)) => {
            drop(report);
            "report "
        }
        Ok(None) => "",
        Err(error) => name_of(error),
    }
}

/// Ends the test of a row.
fn write_test<D: ErrorDescriber>(
    alloc: Global,
    builder: &mut JunitBuilder<'_, D>,
    row: &Row,
) -> Result<&'static str, AllocError> {
    let test = test(alloc, row.0)?;
    let event = finished(alloc, &test, row.1, row.2, row.3)?;
    Ok(written(builder, event))
}

/// Ends the tests and the scripts of these rows, and answers what came of each.
fn write_rows<D: ErrorDescriber>(
    alloc: Global,
    builder: &mut JunitBuilder<'_, D>,
    rows: &[Row],
) -> Result<String, AllocError> {
    let mut text = String::new(alloc);
    for row in rows {
        let answer = if row.0 == "@" {
            written(builder, script(alloc, row.1, row.2, row.3)?)
        } else {
            write_test(alloc, builder, row)?
        };
        text.push_str(answer)?;
    }
    Ok(text)
}

/// The text of the value at a path, empty where there is none.
fn text_at(alloc: Global, value: &Value, path: &str) -> Result<String, AllocError> {
    match value.pointer(path) {
        Some(value) => value.to_string(alloc),
        None => Ok(String::new(alloc)),
    }
}

/// What a report says at a path.
fn said(alloc: Global, report: JunitReport, path: &str) -> Result<String, AllocError> {
    let value = report_to_value(alloc, &report);
    drop(report);
    let value = value?;
    let text = text_at(alloc, &value, path);
    drop(value);
    text
}

/// Ends the run, and answers what its report says at a path.
fn ended<D: ErrorDescriber>(
    alloc: Global,
    builder: &mut JunitBuilder<'_, D>,
    path: &str,
) -> Result<String, AllocError> {
    let end = run_end();
    let answer = builder.write_event(&end);
    drop(end);
    match answer {
        Ok(Some(report)) => said(alloc, report, path),
        Ok(None) => String::from_str(alloc, "no report"),
        Err(error) => String::from_str(alloc, name_of(error)),
    }
}

/// What comes of these rows, and then what the report of the run says at a path.
fn reported<D: ErrorDescriber>(
    alloc: Global,
    describer: &D,
    rows: &[Row],
    path: &str,
) -> Result<String, AllocError> {
    let name = String::from_str(alloc, "run")?;
    let mut builder = JunitBuilder::new(alloc, NextestRunMode::Test, name, describer);
    let answers = write_rows(alloc, &mut builder, rows);
    let said = ended(alloc, &mut builder, path);
    drop(builder);
    let answers = answers?;
    let said = said?;
    format!(in alloc; "{answers}{said}")
}

/// Asserts what comes of a row, and what the report says at a path.
fn check<D: ErrorDescriber>(
    rt: &impl Abort,
    alloc: Global,
    describer: &D,
    rows: &[Row],
    path: &str,
    expected: &str,
) -> Result<(), Fail> {
    let got = reported(alloc, describer, rows, path)?;
    assert!(rt; got.as_str() == expected, "{got}");
    Ok(())
}

// ---- setup scripts

/// What is said of a script that passed.
fn script_passed() -> &'static str {
    concat!(
        r#"{"cases":[{"classname":"@setup-script:db","name":"db","status":{"success":[]},"#,
        r#""system-err":"stderr","system-out":"stdout","time":{"nanos":0,"secs":4},"#,
        r#""timestamp":{"nanos":0,"offset":0,"secs":3}}],"name":"@setup-script:db","#,
        r#""properties":[{"name":"command","value":"./prepare db"},"#,
        r#"{"name":"args","value":"'a b' c"},{"name":"output-env:PORT","value":"1"},"#,
        r#"{"name":"output-env:URL","value":"db://"}]}"#
    )
}

#[test]
fn outputs_of_scripts_are_stored(rt: HostRuntime) -> Result<(), Fail> {
    let alloc = rt.alloc();
    let describer = PlainDescriber;
    let rows = &[("@", "p", "s", "+")];
    check(&rt, alloc, &describer, rows, "/suites/0", script_passed())?;
    let rows = &[("@", "c", "n", "-")];
    check(
        &rt,
        alloc,
        &describer,
        rows,
        "/suites/0",
        "NotLoadedOutput ",
    )
}

// ---- tests that are refused

/// Asserts what comes of a test whose attempts ended and wrote so,
/// or how the report says that it ended.
fn check_test(
    rt: &impl Abort,
    alloc: Global,
    tests: &[(&'static str, &'static str, &'static str, &'static str)],
) -> Result<(), Fail> {
    for (ended, wrote, flags, expected) in tests {
        let rows = [("t", *ended, *wrote, *flags)];
        let path = "/suites/0/cases/0/status";
        check(rt, alloc, &PlainDescriber, &rows, path, expected)?;
    }
    Ok(())
}

#[test]
fn the_first_refusal_is_answered(rt: HostRuntime) -> Result<(), Fail> {
    check_test(
        &rt,
        rt.alloc(),
        &[
            ("p", "n", "+", "NotLoadedOutput "),
            ("c", "n", "-", "NotLoadedOutput "),
            ("cc", "sn", "-", "NotLoadedOutput "),
            ("pc", "nn", "-", "SuccessAsFailure "),
            ("ccpc", "snns", "-", "NotLoadedOutput "),
            ("cpc", "nss", "-", "SuccessAsFailure "),
            ("p", "n", "-", "{\"success\":[]}"),
        ],
    )
}

/// What each refusal prints.
const TEXTS: &[(JunitError, &str)] = &[
    (
        JunitError::NotLoadedOutput,
        "an output that the report holds was not loaded",
    ),
    (
        JunitError::SuccessAsFailure,
        "an attempt that passed stands where one that failed is reported",
    ),
    (JunitError::OutOfMemory, "out of memory"),
];

#[test]
fn refusals_are_printed(rt: HostRuntime) -> Result<(), Fail> {
    for (refusal, expected) in TEXTS {
        let text = format!(in rt.alloc(); "{refusal}")?;
        assert!(rt; text.as_str() == *expected, "{text}");
    }
    Ok(())
}

/// Two refusals, and the suite of the tests that are not refused.
fn suite_of_two() -> &'static str {
    concat!(
        r#"SuccessAsFailure NotLoadedOutput [{"cases":[{"classname":"b","name":"t1","#,
        r#""status":{"success":[]},"time":{"nanos":0,"secs":1},"#,
        r#""timestamp":{"nanos":0,"offset":0,"secs":1}},"#,
        r#"{"classname":"b","name":"t7","status":{"success":[]},"time":{"nanos":0,"secs":1},"#,
        r#""timestamp":{"nanos":0,"offset":0,"secs":1}}],"name":"b","properties":[]}]"#
    )
}

#[test]
fn a_refused_test_adds_nothing(rt: HostRuntime) -> Result<(), Fail> {
    let rows = &[
        ("t1", "p", "s", ""),
        ("t3", "pp", "ss", ""),
        ("t6", "p", "n", "+"),
        ("t7", "p", "s", ""),
    ];
    check(
        &rt,
        rt.alloc(),
        &PlainDescriber,
        rows,
        "/suites",
        suite_of_two(),
    )
}

// ---- what is said of failures

/// Says the same of everything, also of what passed.
#[derive(Drop)]
struct Talkative;

impl ErrorDescriber for Talkative {
    ghost use Rattle.std.specs.Prelude.{Some, codes};

    ghost text_of = { λ _ _. Some
        (record { message = codes "message"; description = codes "description" }) };

    fn describe(
        &self,
        alloc: Global,
        _output: &ChildExecutionOutputDescription<LiveSpec>,
    ) -> Result<Option<ErrorText>, AllocError> {
        Ok(Some(ErrorText {
            message: Text::from_str(alloc, "message")?,
            description: Text::from_str(alloc, "description")?,
        }))
    }
}

/// The report of a flaky test that counts as failed.
fn counted_as_failed() -> &'static str {
    concat!(
        r#"{"name":"run","run-id":"00000000-0000-0000-0000-000000000000","#,
        r#""suites":[{"cases":[{"classname":"b","name":"t","#,
        r#""status":{"non-success":{"description":"description","kind":"failure","#,
        r#""message":"message","rerun-kind":"flaky","#,
        r#""reruns":[{"description":"description","kind":"error","message":"message","#,
        r#""time":{"nanos":0,"secs":1},"timestamp":{"nanos":0,"offset":0,"secs":1},"#,
        r#""type-text":"execution failure"}],"type-text":"flaky failure"}},"#,
        r#""time":{"nanos":0,"secs":2},"timestamp":{"nanos":0,"offset":0,"secs":2}}],"name":"b","#,
        r#""properties":[]}],"time":{"nanos":0,"secs":9},"#,
        r#""timestamp":{"nanos":0,"offset":0,"secs":7}}"#
    )
}

/// The report of a flaky test that counts as passed.
fn counted_as_passed() -> &'static str {
    concat!(
        r#"{"name":"run","run-id":"00000000-0000-0000-0000-000000000000","#,
        r#""suites":[{"cases":[{"classname":"b","name":"t","#,
        r#""status":{"success":[{"description":"description","kind":"error","message":"message","#,
        r#""time":{"nanos":0,"secs":1},"timestamp":{"nanos":0,"offset":0,"secs":1},"#,
        r#""type-text":"execution failure"}]},"time":{"nanos":0,"secs":2},"#,
        r#""timestamp":{"nanos":0,"offset":0,"secs":2}}],"name":"b","properties":[]}],"#,
        r#""time":{"nanos":0,"secs":9},"timestamp":{"nanos":0,"offset":0,"secs":7}}"#
    )
}

#[test]
fn reports_say_what_the_describer_says(rt: HostRuntime) -> Result<(), Fail> {
    let alloc = rt.alloc();
    let describer = Talkative;
    let rows = &[("t", "xp", "!s", "f")];
    check(&rt, alloc, &describer, rows, "", counted_as_failed())?;
    let rows = &[("t", "xp", "!s", "")];
    check(&rt, alloc, &describer, rows, "", counted_as_passed())
}
