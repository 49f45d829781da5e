//! Takes an event into what is kept, after it was judged: first what takes memory, which can be
//! taken back, then the rest.
ghost use Rattle.std.specs.Prelude.{◌≡◌, ◌<◌, ◌≤◌, ℕ, ℤ, List, suc};
ghost use Rattle.std.specs.Prelude.{[], None, Some, IfOk, OnOk, OnErr};
ghost use Rattle.rec_spans.specs.declared.settings.ChromeTraceGroupBy.{ChromeTraceGroupBy};
ghost use Rattle.rec_spans.specs.declared.spans.Place.TheVariants as places;
ghost use Rattle.rec_spans.specs.declared.spans.Span.{Span};
ghost use Rattle.rec_spans.specs.declared.spans.SpanKey.TheVariants as keys;
ghost use Rattle.rec_spans.specs.History.{TraceState, next_state};
ghost use Rattle.rec_spans.specs.Judged.{IsJudged};
ghost use Rattle.rec_spans.specs.Kinds.{act_input, change_of, trace_input};
ghost use Rattle.rec_spans.specs.Opened.{IsOpened, adds_binary, binaries_taken_back};
ghost use Rattle.rec_spans.specs.Opened.{is_new, no_binary, spans_closed, spans_opened};
ghost use Rattle.rec_spans.specs.Opened.{spans_taken_back, state_opened, state_passed};
ghost use Rattle.rec_spans.specs.Past.{binaries_after, flow_after, in_place, of_key};
ghost use Rattle.rec_spans.specs.Past.{pause_after, put_in, scripts_after, with_binary};
ghost use Rattle.rec_spans.specs.Plain.{plain};
ghost use Rattle.rec_spans.specs.Refusals.{act_refusal, open_refusal};
ghost use Rattle.rec_spans.specs.Refusals.{scripts_refusal, slot_refusal};
ghost use Rattle.rec_spans.specs.Seen.{seen};
ghost use Rattle.rec_spans.specs.Starts.{started};

use crate::acts::{Act, act_of};
use crate::binaries::Binaries;
use crate::judged::JudgedEvent;
use crate::open_spans::OpenSpans;
use crate::opened::OpenedEvent;
use crate::settings::ChromeTraceGroupBy;
use crate::span_tracker::SpanTracker;
use crate::spans::Span;
use crate::starts::{run_span, script_span, sub_run_span, test_span};
use rec_events::{OutputSpec, OwnedTestInstanceId, TestEventSummary};
use std::alloc::{AllocError, Global};

impl SpanTracker {
    /// Makes the span that an event starts, if it starts one.
    pub(crate) fn started(
        &self,
        alloc: Global,
        group_by: ChromeTraceGroupBy,
        number: u64,
        act: Act<'_>,
    ) -> Result<Option<Span>, AllocError>
        requires { act_refusal number self.now (seen act)
            (change_of group_by self.now.binaries (seen act)) ≡ None }
        ensures { IfOk result
            (λ span. span ≡ started (change_of group_by self.now.binaries (seen act.entry))) }
    {
        match act {
            Act::RunStarts => run_span(alloc).map(Some),
            Act::SubRunStarts => sub_run_span(alloc).map(Some),
            Act::ScriptStarts { index, id } => script_span(alloc, index, id).map(Some),
            Act::AttemptStarts { test, slot } => {
                test_span(alloc, group_by, &self.binaries, test, slot).map(Some)
            }
            _ => Ok(None),
        }
    }

    /// Commits an event that was judged with this grouping, and no event since:
    /// the tracker moves on by it.
    ///
    /// # Errors
    ///
    /// Fails only where memory ran out. The tracker then stays as it was.
    pub fn commit<S: OutputSpec>(
        &mut self,
        alloc: Global,
        group_by: ChromeTraceGroupBy,
        event: &TestEventSummary<S>,
        judged: JudgedEvent,
    ) -> Result<(), AllocError>
        requires { IsJudged self.old (trace_input group_by self.old.binaries (plain event.now))
            judged }
        ensures ok { OnOk result
            (self.new
            ≡ next_state (trace_input group_by self.old.binaries (plain event.now)) self.old) }
        ensures err { OnErr result (self.new ≡ self.old) }
    {
        let opened = self.open_started(alloc, group_by, event, judged)?;
        self.advance(event, opened);
        Ok(())
    }

    /// Opens the span that an event starts which was judged with this grouping, and no event since,
    /// and adds its binary. The event is committed once the tracker has advanced by it, and until
    /// then it can be taken back. This takes all the memory that a commit takes.
    ///
    /// # Errors
    ///
    /// Fails only where memory ran out. The tracker then stays as it was.
    pub fn open_started<S: OutputSpec>(
        &mut self,
        alloc: Global,
        group_by: ChromeTraceGroupBy,
        event: &TestEventSummary<S>,
        judged: JudgedEvent,
    ) -> Result<OpenedEvent, AllocError>
        requires { IsJudged self.old (trace_input group_by self.old.binaries (plain event.now))
            judged }
        ensures ok { OnOk result
            (self.new
            ≡ state_opened (trace_input group_by self.old.binaries (plain event.now)) self.old) }
        ensures opened { IfOk result
            (IsOpened self.old (trace_input group_by self.old.binaries (plain event.now))) }
        ensures err { OnErr result (self.new ≡ self.old) }
    {
        let act = act_of(&event.kind);
        let has_new_binary = self.open(alloc, group_by, judged.number, act, judged.started)?;
        Ok(OpenedEvent {
            number: judged.number,
            running_scripts: judged.running_scripts,
            has_new_binary,
        })
    }

    /// Opens this span, which an act starts, if it starts one. Returns whether a binary was added.
    fn open(
        &mut self,
        alloc: Global,
        group_by: ChromeTraceGroupBy,
        number: u64,
        act: Act<'_>,
        span: Option<Span>,
    ) -> Result<bool, AllocError>
        requires judged { act_refusal number self.old (seen act)
            (change_of group_by self.old.binaries (seen act)) ≡ None }
        requires span { span ≡ started (change_of group_by self.old.binaries (seen act)) }
        ensures ok { (t : ℤ)
            → OnOk result
            (self.new
            ≡ state_opened (act_input group_by self.old.binaries t (seen act.entry)) self.old) }
        ensures added { IfOk result
            (λ added. added
            ≡ adds_binary (change_of group_by self.old.binaries (seen act.entry))
            self.old.binaries) }
        ensures err { OnErr result (self.new ≡ self.old) }
    {
        open_span(
            alloc,
            group_by,
            act,
            span,
            &mut self.open_spans,
            &mut self.binaries,
        )
    }

    /// Takes the rest of an event that was opened, and nothing since: the tracker has moved on by
    /// it. This takes no memory.
    pub fn advance<S: OutputSpec>(&mut self, event: &TestEventSummary<S>, opened: OpenedEvent)
        requires { opened.number ≡ suc self.old.number }
        ensures { (g : ChromeTraceGroupBy) (state : TraceState)
            → IsOpened state (trace_input g state.binaries (plain event.now)) opened
            → self.old ≡ state_opened (trace_input g state.binaries (plain event.now)) state
            → self.new ≡ next_state (trace_input g state.binaries (plain event.now)) state }
    {
        self.pass(act_of(&event.kind), opened.number, opened.running_scripts);
    }

    /// Takes the rest of an act, with which so many setup scripts run.
    fn pass(&mut self, act: Act<'_>, number: u64, scripts: usize)
        requires { number ≡ suc self.old.number }
        ensures { (g : ChromeTraceGroupBy) (known : List (List ℕ × ℕ))
            → self.new
            ≡ state_passed (seen act.entry) (change_of g known (seen act.entry)) number scripts
            self.old }
    {
        close_stopped(act, &mut self.open_spans);
        self.number = number;
        self.in_pause = pause_after(act, self.in_pause);
        self.scripts = scripts;
        self.next_flow = flow_after(number, act, self.next_flow);
    }

    /// Takes an event back that was opened, and nothing since: the tracker is as it was before.
    /// This takes no memory.
    pub fn take_back<S: OutputSpec>(&mut self, event: &TestEventSummary<S>, opened: OpenedEvent)
        ensures { (g : ChromeTraceGroupBy) (state : TraceState)
            → IsOpened state (trace_input g state.binaries (plain event.now)) opened
            → self.old ≡ state_opened (trace_input g state.binaries (plain event.now)) state
            → self.new ≡ state }
    {
        let act = act_of(&event.kind);
        close_started(act, &mut self.open_spans);
        if opened.has_new_binary {
            remove_binary(act, &mut self.binaries);
        }
    }
}

/// Opens this span, which the event starts, if it starts one, and adds the binary of an attempt.
/// Returns whether that was new. Where memory is short, nothing changes.
fn open_span(
    alloc: Global,
    group_by: ChromeTraceGroupBy,
    act: Act<'_>,
    span: Option<Span>,
    open_spans: &mut OpenSpans,
    binaries: &mut Binaries,
) -> Result<bool, AllocError>
    requires open { open_refusal 0 open_spans.old (change_of group_by binaries.old (seen act))
        ≡ None }
    requires slot { slot_refusal 0 open_spans.old (change_of group_by binaries.old (seen act))
        ≡ None }
    requires span { span ≡ started (change_of group_by binaries.old (seen act)) }
    ensures spans { OnOk result
        (open_spans.new
        ≡ spans_opened (change_of group_by binaries.old (seen act.entry)) open_spans.old) }
    ensures binaries { OnOk result
        (binaries.new
        ≡ binaries_after (change_of group_by binaries.old (seen act.entry)) binaries.old) }
    ensures added { IfOk result
        (λ added. added
        ≡ adds_binary (change_of group_by binaries.old (seen act.entry)) binaries.old) }
    ensures err_spans { OnErr result (open_spans.new ≡ open_spans.old) }
    ensures err_binaries { OnErr result (binaries.new ≡ binaries.old) }
{
    match span {
        Some(span) => open_started(alloc, group_by, act, span, open_spans, binaries),
        None => Ok(false),
    }
}

/// Opens this span, which the event starts, and adds the binary of an attempt.
/// Returns whether that was new.
fn open_started(
    alloc: Global,
    group_by: ChromeTraceGroupBy,
    act: Act<'_>,
    span: Span,
    open_spans: &mut OpenSpans,
    binaries: &mut Binaries,
) -> Result<bool, AllocError>
    requires open { open_refusal 0 open_spans.old (change_of group_by binaries.old (seen act))
        ≡ None }
    requires slot { slot_refusal 0 open_spans.old (change_of group_by binaries.old (seen act))
        ≡ None }
    requires span { Some span ≡ started (change_of group_by binaries.old (seen act)) }
    ensures spans { OnOk result
        (open_spans.new
        ≡ spans_opened (change_of group_by binaries.old (seen act.entry)) open_spans.old) }
    ensures binaries { OnOk result
        (binaries.new
        ≡ binaries_after (change_of group_by binaries.old (seen act.entry)) binaries.old) }
    ensures added { IfOk result
        (λ added. added
        ≡ adds_binary (change_of group_by binaries.old (seen act.entry)) binaries.old) }
    ensures err_spans { OnErr result (open_spans.new ≡ open_spans.old) }
    ensures err_binaries { OnErr result (binaries.new ≡ binaries.old) }
{
    match act {
        Act::AttemptStarts { test, slot } => {
            open_attempt(alloc, test, slot, span, open_spans, binaries)
        }
        Act::RunStarts | Act::SubRunStarts => open_other(open_spans.open(span)),
        Act::ScriptStarts { index, id } => {
            open_other(open_spans.open_script(alloc, index, id, span))
        }
        // no other event starts a span
        _ => unreachable!(),
    }
}

/// Answers for a span of no binary.
fn open_other(opened: Result<(), AllocError>) -> Result<bool, AllocError>
    ensures { result ≡ no_binary opened }
{
    match opened {
        Ok(()) => Ok(false),
        Err(AllocError) => Err(AllocError),
    }
}

/// Closes the span that the event ends, if it ends one that is open.
fn close_stopped(act: Act<'_>, open_spans: &mut OpenSpans)
    ensures { (g : ChromeTraceGroupBy) (known : List (List ℕ × ℕ))
        → open_spans.new ≡ spans_closed (change_of g known (seen act.entry)) open_spans.old }
{
    match act {
        Act::RunEnds => open_spans.close_run(),
        Act::SubRunEnds => open_spans.close_sub_run(),
        Act::ScriptEnds { index, .. } => open_spans.close_script(index),
        Act::AttemptFails { test } | Act::TestEnds { test, .. } => open_spans.close_test(test),
        _ => (),
    }
}

/// Closes the span again that the event started, if it started one.
fn close_started(act: Act<'_>, open_spans: &mut OpenSpans)
    ensures { (g : ChromeTraceGroupBy) (known : List (List ℕ × ℕ))
        → open_spans.new ≡ spans_taken_back (change_of g known (seen act.entry)) open_spans.old }
{
    match act {
        Act::RunStarts => open_spans.close_run(),
        Act::SubRunStarts => open_spans.close_sub_run(),
        Act::ScriptStarts { index, .. } => open_spans.close_script(index),
        Act::AttemptStarts { test, .. } => open_spans.close_test(test),
        _ => (),
    }
}

/// Removes the binary again of the attempt that the event started, if it started one.
fn remove_binary(act: Act<'_>, binaries: &mut Binaries)
    ensures { (g : ChromeTraceGroupBy) (known : List (List ℕ × ℕ))
        → binaries.new ≡ binaries_taken_back (change_of g known (seen act.entry)) binaries.old }
{
    if let Act::AttemptStarts { test, .. } = act {
        binaries.remove(&test.binary_id);
    }
}

/// Opens the span of an attempt of a test on a slot, and adds the test's binary.
/// Returns whether that was new.
fn open_attempt(
    alloc: Global,
    test: &OwnedTestInstanceId,
    slot: u64,
    span: Span,
    open_spans: &mut OpenSpans,
    binaries: &mut Binaries,
) -> Result<bool, AllocError>
    requires key { span.key ≡ keys.Test test.now }
    requires place { span.place ≡ places.Slot slot }
    requires key_free { of_key span.key open_spans.old ≡ [] }
    requires place_free { in_place span.place open_spans.old ≡ [] }
    ensures spans { OnOk result (open_spans.new ≡ put_in span open_spans.old) }
    ensures binaries { OnOk result (binaries.new ≡ with_binary test.now.binary_id binaries.old) }
    ensures added { IfOk result (λ added. added ≡ is_new test.now.binary_id binaries.old) }
    ensures err_spans { OnErr result (open_spans.new ≡ open_spans.old) }
    ensures err_binaries { OnErr result (binaries.new ≡ binaries.old) }
{
    open_spans.open_test(alloc, test, slot, span)?;
    match binaries.add(alloc, &test.binary_id) {
        Ok(added) => Ok(added),
        Err(AllocError) => {
            open_spans.close_test(test);
            Err(AllocError)
        }
    }
}

/// Returns whether the run is in a pause after the event, by whether it was before.
fn pause_after(act: Act<'_>, before: bool) -> bool
    ensures { (g : ChromeTraceGroupBy) (known : List (List ℕ × ℕ))
        → result ≡ pause_after (change_of g known (seen act.entry)) before }
{
    match act {
        Act::Pauses { .. } => true,
        Act::Continues { .. } => false,
        _ => before,
    }
}

/// Returns how many setup scripts run after the event, by how many did before.
pub fn scripts_after(number: u64, act: Act<'_>, before: usize) -> usize
    requires { scripts_refusal number (seen act) before ≡ None }
    ensures { result ≡ scripts_after (seen act.entry) before }
{
    match act {
        Act::ScriptStarts { .. } => before + 1,
        Act::ScriptEnds { .. } => before.saturating_sub(1),
        Act::Pauses { scripts } => scripts,
        Act::Continues { scripts } => scripts,
        Act::Cancels { scripts } => scripts,
        _ => before,
    }
}

/// Returns how many attempts have failed after the event with this number, by how many had before.
fn flow_after(number: u64, act: Act<'_>, before: u64) -> u64
    requires { before < number }
    ensures value { result ≡ flow_after (seen act.entry) before }
    ensures bound { result ≤ number }
{
    match act {
        Act::AttemptFails { .. } => before + 1,
        _ => before,
    }
}
