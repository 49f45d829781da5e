//! The lines of headers and events.
ghost use Rattle.std.specs.Prelude.{◌≡◌, ◌++◌, codes, IfOk, Some, string_bytes};
ghost use Rattle.rec_events.specs.LiveEvents.{kind_name};
ghost use Rattle.rec_replay.specs.LinePieces.{Puts, named_line};
ghost use Rattle.rec_replay.specs.Lines as spec;
ghost use Rattle.rec_replay.specs.Lines.{count_text, description_text, execution_text, line_text};
ghost use Rattle.rec_replay.specs.Lines.{nine_digits, outputs_text, stamp_text, subject_text};

use crate::header::ReplayHeader;
use itoa::Buffer;
use rec_events::{
    ChildExecutionOutputDescription, ChildOutputDescription, ChildSingleOutput, LiveSpec, Stamp,
    TestEvent, TestEventKind,
};
use rec_format::RecordedRunStatus;
use std::alloc::{AllocError, Global};

/// Returns the word for how a run ended.
fn status_word(status: RecordedRunStatus) -> &'static str
    ensures { result.now ≡ spec.status_word status }
{
    match status {
        RecordedRunStatus::Incomplete => "incomplete",
        RecordedRunStatus::Completed(_) => "completed",
        RecordedRunStatus::Cancelled(_) => "cancelled",
        RecordedRunStatus::StressCompleted(_) => "stress-completed",
        RecordedRunStatus::StressCancelled(_) => "stress-cancelled",
        RecordedRunStatus::Unknown => "unknown",
    }
}

/// Makes the line of a header.
pub(crate) fn header_line(alloc: Global, header: &ReplayHeader) -> Result<String, AllocError>
    ensures { IfOk result (λ line. string_bytes line ≡ spec.header_line header.now) }
{
    let run_id = header.run_id;
    let status = status_word(header.status);
    format!(in alloc; "header {run_id} {status}\n")
}

/// Collects the text of a line. Once memory runs out nothing more is added to it.
#[derive(Drop)]
struct Line {
    text: Vec<u8>,
    is_failed: bool,
}

/// Appends a piece of a text.
fn put(line: &mut Line, piece: &[u8])
    ensures { Puts line.old line.new piece.now }
{
    if !line.is_failed {
        line.is_failed = line.text.extend_from_slice(piece).is_err();
    }
}

/// Appends an instant: its seconds, and its nanoseconds in nine digits.
fn put_stamp(line: &mut Line, stamp: &Stamp)
    ensures { Puts line.old line.new (stamp_text stamp.now) }
{
    let mut secs = Buffer::new();
    put(line, secs.format(stamp.secs).as_bytes());
    put(line, b".");
    put_nine(line, stamp.nanos);
}

/// Appends a number below 1000000000 in nine digits.
fn put_nine(line: &mut Line, nanos: u32)
    ensures { Puts line.old line.new (nine_digits nanos) }
{
    let mut digits = Buffer::new();
    let digits = digits.format(1_000_000_000 + nanos as u64).as_bytes();
    if !digits.is_empty() {
        put(line, &digits[1..]);
    }
}

/// Returns how a kind is called; what only informs has no name.
fn name_of(kind: &TestEventKind<'_>) -> &'static str
    ensures { result.now ≡ kind_name kind.now }
{
    match kind {
        TestEventKind::RunStarted { .. } => "run-started",
        TestEventKind::StressSubRunStarted { .. } => "stress-sub-run-started",
        TestEventKind::SetupScriptStarted { .. } => "setup-script-started",
        TestEventKind::SetupScriptSlow { .. } => "setup-script-slow",
        TestEventKind::SetupScriptFinished { .. } => "setup-script-finished",
        TestEventKind::TestStarted { .. } => "test-started",
        TestEventKind::TestSlow { .. } => "test-slow",
        TestEventKind::TestAttemptFailedWillRetry { .. } => "test-attempt-failed-will-retry",
        TestEventKind::TestRetryStarted { .. } => "test-retry-started",
        TestEventKind::TestFinished { .. } => "test-finished",
        TestEventKind::TestSkipped { .. } => "test-skipped",
        TestEventKind::RunBeginCancel { .. } => "run-begin-cancel",
        TestEventKind::RunPaused { .. } => "run-paused",
        TestEventKind::RunContinued { .. } => "run-continued",
        TestEventKind::StressSubRunFinished { .. } => "stress-sub-run-finished",
        TestEventKind::RunFinished { .. } => "run-finished",
        _ => "",
    }
}

/// Appends two names, each after a space.
fn put_test(line: &mut Line, binary_id: &str, test_name: &str)
    ensures { Puts line.old line.new (codes " " ++ binary_id.now ++ codes " " ++ test_name.now) }
{
    put(line, b" ");
    put(line, binary_id.as_bytes());
    put(line, b" ");
    put(line, test_name.as_bytes());
}

/// Appends a name after a space.
fn put_script(line: &mut Line, script_id: &str)
    ensures { Puts line.old line.new (codes " " ++ script_id.now) }
{
    put(line, b" ");
    put(line, script_id.as_bytes());
}

/// Appends which test or script the event is of.
fn put_subject(line: &mut Line, kind: &TestEventKind<'_>)
    ensures { Puts line.old line.new (subject_text kind.now) }
{
    match kind {
        TestEventKind::SetupScriptStarted { script_id, .. }
        | TestEventKind::SetupScriptSlow { script_id, .. }
        | TestEventKind::SetupScriptFinished { script_id, .. } => {
            put_script(line, script_id.as_str());
        }
        TestEventKind::TestStarted { test_instance, .. }
        | TestEventKind::TestSlow { test_instance, .. }
        | TestEventKind::TestAttemptFailedWillRetry { test_instance, .. }
        | TestEventKind::TestRetryStarted { test_instance, .. }
        | TestEventKind::TestFinished { test_instance, .. }
        | TestEventKind::TestSkipped { test_instance, .. } => put_test(
            line,
            test_instance.binary_id.as_str(),
            test_instance.test_name.as_str(),
        ),
        _ => {}
    }
}

/// Appends how many bytes an output has, or that it was not captured.
fn put_count(line: &mut Line, output: &Option<ChildSingleOutput>)
    ensures { Puts line.old line.new (count_text output.now) }
{
    match output {
        Some(output) => put_length(line, output),
        None => put(line, b"-"),
    }
}

/// Appends how many bytes an output has.
fn put_length(line: &mut Line, output: &ChildSingleOutput)
    ensures { Puts line.old line.new (count_text (Some output.now)) }
{
    let mut digits = Buffer::new();
    put(line, digits.format(output.as_bytes().len()).as_bytes());
}

/// Appends what came of starting a process.
fn put_execution(line: &mut Line, output: &ChildExecutionOutputDescription<LiveSpec>)
    ensures { Puts line.old line.new (execution_text output.now) }
{
    match output {
        ChildExecutionOutputDescription::Output { output, .. } => put_description(line, output),
        ChildExecutionOutputDescription::StartError { .. } => put(line, b" start-error"),
    }
}

/// Appends how much a process wrote.
fn put_description(line: &mut Line, output: &ChildOutputDescription)
    ensures { Puts line.old line.new (description_text output.now) }
{
    match output {
        ChildOutputDescription::Split { stdout, stderr } => {
            put(line, b" stdout=");
            put_count(line, stdout);
            put(line, b" stderr=");
            put_count(line, stderr);
        }
        ChildOutputDescription::Combined { output } => {
            put(line, b" combined=");
            put_length(line, output);
        }
        ChildOutputDescription::NotLoaded => put(line, b" not-loaded"),
    }
}

/// Appends the outputs of the last attempt.
fn put_outputs(line: &mut Line, kind: &TestEventKind<'_>)
    ensures { Puts line.old line.new (outputs_text kind.now) }
{
    match kind {
        TestEventKind::SetupScriptFinished { run_status, .. } => {
            put_execution(line, &run_status.output);
        }
        TestEventKind::TestAttemptFailedWillRetry { run_status, .. } => {
            put_execution(line, &run_status.output);
        }
        TestEventKind::TestFinished { run_statuses, .. } => {
            put_execution(line, &run_statuses.last_status().output);
        }
        _ => {}
    }
}

/// Appends what is said of an event of this name.
fn put_event(line: &mut Line, event: &TestEvent<'_>, name: &str)
    ensures { Puts line.old line.new (named_line event.now.timestamp event.now.kind name.now) }
{
    put_stamp(line, &event.timestamp);
    put(line, b" ");
    put(line, name.as_bytes());
    put_subject(line, &event.kind);
    put_outputs(line, &event.kind);
    put(line, b"\n");
}

/// Makes the line of an event; it is empty for what only informs.
pub(crate) fn event_line(alloc: Global, event: &TestEvent<'_>) -> Result<Vec<u8>, AllocError>
    ensures { IfOk result (λ line. line.items ≡ line_text event.now) }
{
    let name = name_of(&event.kind);
    if name.is_empty() {
        return Ok(Vec::new(alloc));
    }
    let mut line = Line {
        text: Vec::new(alloc),
        is_failed: false,
    };
    put_event(&mut line, event, name);
    if line.is_failed {
        return Err(AllocError);
    }
    Ok(line.text)
}
