//! The JSON of a report.
ghost use Rattle.std.specs.List.{AllByRecursion};
ghost use Rattle.std.specs.Prelude.{◌≡◌, [], ◌∷◌, ◌++◌, codes, false, Some};
ghost use Rattle.std.specs.Prelude.{IfOk, IfSome, OnOk, string_bytes};
ghost use Rattle.serde_json.specs.Data.{Data};
ghost use Rattle.serde_json.specs.View.{view};
ghost use Rattle.serde_json.specs.Written.{compact_text, has_float};
ghost use Rattle.rec_json.specs.Fields.{tagged};
ghost use Rattle.rec_json.specs.Tokens.{value_tokens};
ghost use Rattle.rec_events.specs.Names.{IsText};
ghost use Rattle.rec_forms.specs.ObjectWriting.{Writes};
ghost use Rattle.rec_forms.specs.Times.{IsDuration, IsStamp};
ghost use Rattle.rec_forms.specs.Writable.{IsWritable};
ghost use Rattle.rec_junit.specs.Reports.{IsRerun};
ghost use Rattle.rec_junit.specs.Values.{failed_value, failure_fields, kind_name};
ghost use Rattle.rec_junit.specs.Values.{report_value, rerun_kind_name, run_fields};

use crate::{
    JunitCase, JunitKind, JunitProperty, JunitReport, JunitRerun, JunitRerunKind, JunitStatus,
    JunitSuite,
};
use rec_events::{Duration, Items, Stamp, Text};
use rec_forms::{ObjectWriter, value_of_text, write_tagged};
use rec_json::JsonText;
use serde_json::Value;
use std::alloc::{AllocError, Global};

/// Writes a part of a report as JSON.
trait Part {
    // What holds of each part that a program has.
    ghost well_formed: { Self → Type 0 };

    // The value that it is written as.
    ghost value_of: { Self → Data };

    /// Writes the part at the end of `text`.
    ///
    /// # Errors
    ///
    /// `AllocError` if memory runs out; then `text` may hold a piece of the part.
    fn write(&self, alloc: Global, text: &mut JsonText) -> Result<(), AllocError>
        ensures written { OnOk result (text.new ≡ text.old ++ value_tokens (value_of self.now)) }
        ensures known { OnOk result (well_formed self.now) };
}

/// Makes the JSON value of a report.
///
/// Its keys are the names of the fields, with `-` in place of `_`. What isn't there is left out. A
/// case that succeeded has the `status` `{"success":[..]}`, with its reruns; one that did not
/// `{"non-success":{..}}`; one that did not run `{"skipped":".."}`.
///
/// # Errors
///
/// `AllocError` if memory runs out.
pub fn report_to_value(alloc: Global, report: &JunitReport) -> Result<Value, AllocError>
    ensures value { IfOk result (λ v. view v ≡ report_value report.now) }
    ensures whole { IfOk result (λ v. has_float (view v) ≡ false) }
{
    let text = report_text(alloc, report)?;
    value_of_text(alloc, &text)
}

/// Writes the compact JSON text of a report, which is that of `report_to_value`, as
/// `docs/FORMATS.md#report` describes it.
///
/// # Errors
///
/// `AllocError` if memory runs out.
#[tactic(auto, using(crate::proofs::Writable::report_writable))]
pub fn report_text(alloc: Global, report: &JunitReport) -> Result<String, AllocError>
    ensures text { IfOk result (λ s. string_bytes s ≡ compact_text (report_value report.now)) }
    ensures writable { IfOk result (λ _. IsWritable 10 (report_value report.now)) }
{
    let mut text = JsonText::new(alloc);
    report.write(alloc, &mut text)?;
    Ok(text.into_text())
}

impl Part for JunitReport {
    ghost use Rattle.rec_junit.specs.Reports.{IsReport};
    ghost use Rattle.rec_junit.specs.Values.{report_value};

    ghost well_formed = { IsReport };

    ghost value_of = { report_value };

    #[tactic(auto, unfolding(crate::specs::Values::report_value))]
    fn write(&self, alloc: Global, text: &mut JsonText) -> Result<(), AllocError> {
        let object = ObjectWriter::begin(alloc, text);
        let object = object.field(text, "name", &self.name);
        let object = object.field(text, "run-id", &self.run_id);
        let object = with_part(object, alloc, text, "suites", &self.suites)?;
        let object = object.field(text, "time", &self.time);
        let object = object.field(text, "timestamp", &self.timestamp);
        object.end(text)
    }
}

impl Part for JunitSuite {
    ghost use Rattle.rec_junit.specs.Reports.{IsSuite};
    ghost use Rattle.rec_junit.specs.Values.{suite_value};

    ghost well_formed = { IsSuite };

    ghost value_of = { suite_value };

    #[tactic(auto, unfolding(crate::specs::Values::suite_value))]
    fn write(&self, alloc: Global, text: &mut JsonText) -> Result<(), AllocError> {
        let object = ObjectWriter::begin(alloc, text);
        let object = with_part(object, alloc, text, "cases", &self.cases)?;
        let object = object.field(text, "name", &self.name);
        let object = with_part(object, alloc, text, "properties", &self.properties)?;
        object.end(text)
    }
}

impl Part for JunitProperty {
    ghost use Rattle.rec_junit.specs.Reports.{IsProperty};
    ghost use Rattle.rec_junit.specs.Values.{property_value};

    ghost well_formed = { IsProperty };

    ghost value_of = { property_value };

    #[tactic(auto, unfolding(crate::specs::Values::property_value))]
    fn write(&self, alloc: Global, text: &mut JsonText) -> Result<(), AllocError> {
        let object = ObjectWriter::begin(alloc, text);
        let object = object.field(text, "name", &self.name);
        let object = object.field(text, "value", &self.value);
        object.end(text)
    }
}

impl Part for JunitCase {
    ghost use Rattle.rec_junit.specs.Reports.{IsCase};
    ghost use Rattle.rec_junit.specs.Values.{case_value};

    ghost well_formed = { IsCase };

    ghost value_of = { case_value };

    #[tactic(auto, unfolding(crate::specs::Values::case_value))]
    fn write(&self, alloc: Global, text: &mut JsonText) -> Result<(), AllocError> {
        let object = ObjectWriter::begin(alloc, text);
        let object = object.field(text, "classname", &self.classname);
        let object = object.field(text, "name", &self.name);
        let object = with_part(object, alloc, text, "status", &self.status)?;
        let object = with_run(
            object,
            text,
            &self.timestamp,
            &self.time,
            &self.system_out,
            &self.system_err,
        );
        object.end(text)
    }
}

impl Part for JunitStatus {
    ghost use Rattle.rec_junit.specs.Reports.{IsStatus};
    ghost use Rattle.rec_junit.specs.Values.{status_value};

    ghost well_formed = { IsStatus };

    ghost value_of = { status_value };

    fn write(&self, alloc: Global, text: &mut JsonText) -> Result<(), AllocError> {
        match self {
            JunitStatus::Success { reruns } => {
                text.begin_tagged("success")?;
                reruns.write(alloc, text)?;
                text.end_tagged()?;
                Ok(())
            }
            JunitStatus::NonSuccess {
                kind,
                type_text,
                message,
                description,
                reruns,
                rerun_kind,
            } => write_failed(
                alloc,
                text,
                *kind,
                type_text,
                message,
                description,
                reruns,
                *rerun_kind,
            ),
            JunitStatus::Skipped { message } => write_tagged(alloc, text, "skipped", message),
        }
    }
}

impl Part for JunitRerun {
    ghost use Rattle.rec_junit.specs.Reports.{IsRerun};
    ghost use Rattle.rec_junit.specs.Values.{rerun_value};

    ghost well_formed = { IsRerun };

    ghost value_of = { rerun_value };

    #[tactic(auto, unfolding(crate::specs::Values::rerun_value))]
    fn write(&self, alloc: Global, text: &mut JsonText) -> Result<(), AllocError> {
        let object = ObjectWriter::begin(alloc, text);
        let object = with_failure(object, text, self.kind, &self.message, &self.description);
        let object = with_run(
            object,
            text,
            &self.timestamp,
            &self.time,
            &self.system_out,
            &self.system_err,
        );
        let object = object.field(text, "type-text", &self.type_text);
        object.end(text)
    }
}

impl<T: Part> Part for Items<T> {
    ghost use Rattle.std.specs.List.{AllByRecursion};
    ghost use Rattle.rec_forms.specs.Lists.{list_value};

    ghost well_formed = { AllByRecursion T.well_formed };

    ghost value_of = { list_value T.value_of };

    fn write(&self, alloc: Global, text: &mut JsonText) -> Result<(), AllocError> {
        text.begin_array()?;
        for item in self.as_slice() {
            item.write(alloc, text)?;
        }
        text.end_list()
    }
}

/// Writes how a case failed.
#[tactic(auto, unfolding(crate::specs::Values::failed_value))]
fn write_failed(
    alloc: Global,
    text: &mut JsonText,
    kind: JunitKind,
    type_text: &Text,
    message: &Option<Text>,
    description: &Option<Text>,
    reruns: &Items<JunitRerun>,
    rerun_kind: JunitRerunKind,
) -> Result<(), AllocError>
    ensures written { OnOk result (text.new ≡ text.old ++ value_tokens (tagged (codes "non-success")
        (failed_value kind type_text.now message.now description.now reruns.now rerun_kind))) }
    ensures known { OnOk result (IsText type_text.now × IfSome message.now IsText
        × IfSome description.now IsText × AllByRecursion IsRerun reruns.now) }
{
    let object = ObjectWriter::begin_tagged(alloc, text, "non-success");
    let object = with_failure(object, text, kind, message, description);
    let object = object.text(text, "rerun-kind", rerun_kind_name(rerun_kind));
    let object = with_part(object, alloc, text, "reruns", reruns)?;
    let object = object.field(text, "type-text", type_text);
    object.end_tagged(text)
}

/// Writes what failed, and how.
fn with_failure(
    object: ObjectWriter,
    text: &mut JsonText,
    kind: JunitKind,
    message: &Option<Text>,
    description: &Option<Text>,
) -> ObjectWriter
    ensures { Writes object text.old result text.new
        (failure_fields kind message.now description.now)
        (IfSome message.now IsText × IfSome description.now IsText) }
{
    let object = object.optional(text, "description", description);
    let object = object.text(text, "kind", kind_name(kind));
    object.optional(text, "message", message)
}

/// Writes when something ran, and what it wrote.
fn with_run(
    object: ObjectWriter,
    text: &mut JsonText,
    timestamp: &Option<Stamp>,
    time: &Option<Duration>,
    system_out: &Option<Text>,
    system_err: &Option<Text>,
) -> ObjectWriter
    ensures { Writes object text.old result text.new
        (run_fields timestamp.now time.now system_out.now system_err.now)
        (IfSome timestamp.now IsStamp × IfSome time.now IsDuration
        × IfSome system_out.now IsText × IfSome system_err.now IsText) }
{
    let object = object.optional(text, "system-err", system_err);
    let object = object.optional(text, "system-out", system_out);
    let object = object.optional(text, "time", time);
    object.optional(text, "timestamp", timestamp)
}

/// Writes a part of a report as a field.
fn with_part<T: Part>(
    object: ObjectWriter,
    alloc: Global,
    text: &mut JsonText,
    key: &str,
    part: &T,
) -> Result<ObjectWriter, AllocError>
    ensures { IfOk result (λ w. Writes object text.old w text.new
        ((key.now, Some (T.value_of part.now)) ∷ []) (T.well_formed part.now)) }
{
    object.leave_open()?;
    text.key(key)?;
    part.write(alloc, text)?;
    Ok(ObjectWriter::resume(alloc))
}

/// Names a kind.
fn kind_name(kind: JunitKind) -> &'static str
    ensures { result.now ≡ kind_name kind }
{
    match kind {
        JunitKind::Failure => "failure",
        JunitKind::Error => "error",
    }
}

/// Names a kind of reruns.
fn rerun_kind_name(kind: JunitRerunKind) -> &'static str
    ensures { result.now ≡ rerun_kind_name kind }
{
    match kind {
        JunitRerunKind::Rerun => "rerun",
        JunitRerunKind::Flaky => "flaky",
    }
}
