//! The text of a session.
ghost use Rattle.std.specs.Prelude.{◌≡◌, ◌≤◌, ◌<◌, ◌*◌, ◌++◌, true, IfOk, OnOk, string_bytes};
ghost use Rattle.rec_json.specs.Tokens.{value_tokens};
ghost use Rattle.rec_codec.specs.EventForms.{event_value, kind_loaded};
ghost use Rattle.rec_codec.specs.Live.{is_loaded, live_value};
ghost use Rattle.rec_sample.specs.Events.{test_starts, pause, test_ends, batch_events};
ghost use Rattle.rec_sample.specs.Session.{head_line, event_text, event_line};
ghost use Rattle.rec_sample.specs.Session.{event_lines, sample_session};

use crate::batches::{SLOTS, batch_count, batch_size, has_pause};
use crate::events::{
    run_continued, run_finished, run_paused, run_started, test_finished, test_started,
};
use crate::head::sample_head;
use rec_codec::{ToValueError, write_event};
use rec_events::{LiveSpec, TestEventSummary};
use rec_forms::write_text;
use rec_json::JsonText;
use std::alloc::{AllocError, Global};

/// Bounds the number of tests of a generated session.
pub const MAX_TESTS: u64 = 10000;

/// Makes the session of `tests` tests, at most [`MAX_TESTS`].
///
/// Its first line is its head, and each further line is an event. The tests are named `t0`, `t1`
/// and so on, each in one of four binaries in turn. They run in batches of eight, each test on a
/// slot of its own: those of a batch start a microsecond apart, and each finishes three seconds
/// after its start. In every tenth batch the run pauses in between. Every hundredth test fails.
/// Each test writes one of sixteen lines, `output 0` to `output 15`.
///
/// # Errors
///
/// `AllocError` means that there was not enough memory.
pub fn sample_session(alloc: Global, tests: u64) -> Result<Vec<u8>, AllocError>
    requires { tests ≤ 10000 }
    ensures { IfOk result (λ session. session.items ≡ sample_session tests) }
{
    let mut session = head_line(alloc, tests)?;
    append_event(alloc, &mut session, run_started(alloc)?)?;
    for batch in 0..batch_count(tests) {
        append_batch(alloc, &mut session, tests, batch)?;
    }
    append_event(alloc, &mut session, run_finished(tests))?;
    Ok(session)
}

/// Makes the line of the head.
fn head_line(alloc: Global, tests: u64) -> Result<Vec<u8>, AllocError>
    ensures { IfOk result (λ line. line.items ≡ head_line tests) }
{
    let head = sample_head(alloc, tests)?;
    let text = write_text(alloc, &head);
    head.discard();
    let mut line = text?;
    line.push(b'\n')?;
    Ok(line)
}

/// Appends the lines of the events of a batch.
fn append_batch(
    alloc: Global,
    session: &mut Vec<u8>,
    tests: u64,
    batch: u64,
) -> Result<(), AllocError>
    requires bound { tests ≤ 10000 }
    requires within { 8 * batch < tests }
    ensures { OnOk result
        (session.new.items ≡ session.old.items ++ event_lines (batch_events tests batch)) }
{
    append_starts(alloc, session, tests, batch)?;
    append_pause(alloc, session, tests, batch)?;
    append_ends(alloc, session, tests, batch)
}

/// Appends the lines of the starts of a batch's tests.
fn append_starts(
    alloc: Global,
    session: &mut Vec<u8>,
    tests: u64,
    batch: u64,
) -> Result<(), AllocError>
    requires bound { tests ≤ 10000 }
    requires within { 8 * batch < tests }
    ensures { OnOk result
        (session.new.items ≡ session.old.items ++ event_lines (test_starts tests batch)) }
{
    for slot in 0..batch_size(tests, batch) {
        let event = test_started(alloc, tests, SLOTS * batch + slot)?;
        append_event(alloc, session, event)?;
    }
    Ok(())
}

/// Appends the lines of the pause in a batch, if there is one.
fn append_pause(
    alloc: Global,
    session: &mut Vec<u8>,
    tests: u64,
    batch: u64,
) -> Result<(), AllocError>
    requires bound { tests ≤ 10000 }
    requires within { 8 * batch < tests }
    ensures { OnOk result
        (session.new.items ≡ session.old.items ++ event_lines (pause tests batch)) }
{
    if !has_pause(batch) {
        return Ok(());
    }
    append_event(alloc, session, run_paused(tests, batch))?;
    append_event(alloc, session, run_continued(tests, batch))
}

/// Appends the lines of the ends of a batch's tests.
fn append_ends(
    alloc: Global,
    session: &mut Vec<u8>,
    tests: u64,
    batch: u64,
) -> Result<(), AllocError>
    requires bound { tests ≤ 10000 }
    requires within { 8 * batch < tests }
    ensures { OnOk result
        (session.new.items ≡ session.old.items ++ event_lines (test_ends tests batch)) }
{
    for slot in 0..batch_size(tests, batch) {
        let event = test_finished(alloc, tests, SLOTS * batch + slot)?;
        append_event(alloc, session, event)?;
    }
    Ok(())
}

/// Appends the line of an event.
fn append_event(
    alloc: Global,
    session: &mut Vec<u8>,
    event: TestEventSummary<LiveSpec>,
) -> Result<(), AllocError>
    requires loaded { kind_loaded is_loaded event.kind ≡ true }
    ensures { OnOk result (session.new.items ≡ session.old.items ++ event_line event) }
{
    let text = event_text(alloc, &event);
    // By a call: in place, each kind of event would be a case of the proof.
    event.discard();
    let text = text?;
    session.extend_from_slice(text.as_bytes())?;
    session.push(b'\n')?;
    Ok(())
}

/// Writes the text of an event.
fn event_text(alloc: Global, event: &TestEventSummary<LiveSpec>) -> Result<String, AllocError>
    requires loaded { kind_loaded is_loaded event.now.kind ≡ true }
    ensures { IfOk result (λ text. string_bytes text ≡ event_text event.now) }
{
    let mut text = JsonText::new(alloc);
    write_loaded(alloc, event, &mut text)?;
    Ok(text.into_text())
}

/// Writes an event. Its outputs are loaded, so only memory can be short.
fn write_loaded(
    alloc: Global,
    event: &TestEventSummary<LiveSpec>,
    text: &mut JsonText,
) -> Result<(), AllocError>
    requires loaded { kind_loaded is_loaded event.now.kind ≡ true }
    ensures { OnOk result (text.new ≡ text.old ++ value_tokens (event_value live_value event.now)) }
{
    match write_event::<LiveSpec>(alloc, event, text) {
        Ok(()) => Ok(()),
        Err(ToValueError::OutOfMemory) => Err(AllocError),
        Err(ToValueError::NotLoaded) => unreachable!(),
    }
}
