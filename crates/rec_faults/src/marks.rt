//! What the lines of a session and of a trace that are refused have in common.
ghost use Rattle.std.specs.Prelude.{◌≡◌, ◌++◌, ℕ, List, codes, decimal};
ghost use Rattle.rec_spans.specs.declared.spans.SpanKey.{SpanKey};
ghost use Rattle.rec_errors.specs.declared.export_error.RecordExportError.TheVariants.{
  MissingScriptStart,
  MissingTestStart,
  SpanAlreadyOpen,
};
ghost use Rattle.rec_faults.specs.FaultLine.{export_shown, shown_text, span_shown};
ghost use Rattle.rec_faults.specs.WritingFaults.{Writes};

use crate::line::Line;
use rec_container::Sink;
use rec_events::{RustBinaryId, ScriptId, TestCaseName};
use rec_spans::SpanKey;

/// Writes the test that had not started at an event.
pub fn missing_test<G: Sink>(
    line: Line,
    event: u64,
    binary_id: &RustBinaryId,
    test_name: &TestCaseName,
    diag: &mut G,
) -> Line
    ensures { Writes G.taken G.faults
        (shown_text (export_shown (MissingTestStart event binary_id.now test_name.now)))
        line.is_failed diag.old result.is_failed diag.new }
{
    line.number("MissingTestStart event=", event, diag)
        .text(" binary_id=", binary_id.as_str(), diag)
        .text(" test_name=", test_name.as_str(), diag)
}

/// Writes the setup script that had not started at an event.
pub fn missing_script<G: Sink>(line: Line, event: u64, script_id: &ScriptId, diag: &mut G) -> Line
    ensures { Writes G.taken G.faults
        (shown_text (export_shown (MissingScriptStart event script_id.now))) line.is_failed diag.old
        result.is_failed diag.new }
{
    line.number("MissingScriptStart event=", event, diag)
        .text(" script_id=", script_id.as_str(), diag)
}

/// Writes the span that was open at an event.
pub fn open_span<G: Sink>(line: Line, event: u64, span: &SpanKey, diag: &mut G) -> Line
    ensures { Writes G.taken G.faults (shown_text (export_shown (SpanAlreadyOpen event span.now)))
        line.is_failed diag.old result.is_failed diag.new }
{
    let line = line
        .number("SpanAlreadyOpen event=", event, diag)
        .name(" span=", diag);
    write_span(line, span, diag)
}

/// Writes a span.
fn write_span<G: Sink>(line: Line, span: &SpanKey, diag: &mut G) -> Line
    ensures { Writes G.taken G.faults (shown_text (span_shown span.now)) line.is_failed diag.old
        result.is_failed diag.new }
{
    match span {
        SpanKey::Run => line.name("Run", diag),
        SpanKey::SubRun => line.name("SubRun", diag),
        SpanKey::Script(index) => line.number("Script ", *index as u64, diag),
        SpanKey::Test(test) => line
            .text("Test binary_id=", test.binary_id.as_str(), diag)
            .text(" test_name=", test.test_name.as_str(), diag),
    }
}

/// Writes the number of an event under the refusal's name, and a number more.
pub fn event_number<G: Sink>(
    line: Line,
    name: &str,
    event: u64,
    label: &str,
    number: u64,
    diag: &mut G,
) -> Line
    ensures { Writes G.taken G.faults
        (λ rest. name.now ++ (decimal event ++ (label.now ++ (decimal number ++ rest))))
        line.is_failed diag.old result.is_failed diag.new }
{
    line.number(name, event, diag).number(label, number, diag)
}

/// Writes the path of an entry, its size, and the most that is read.
pub fn large_entry<G: Sink>(
    line: Line,
    file_name: &str,
    size: u64,
    limit: u64,
    diag: &mut G,
) -> Line
    ensures { Writes G.taken G.faults
        (λ rest. codes "FileTooLarge file_name="
        ++ (file_name.now
        ++ (codes " size=" ++ (decimal size ++ (codes " limit=" ++ (decimal limit ++ rest))))))
        line.is_failed diag.old result.is_failed diag.new }
{
    line.text("FileTooLarge file_name=", file_name, diag)
        .number(" size=", size, diag)
        .number(" limit=", limit, diag)
}
