//! Tracks the spans of a run, event by event: an event is judged first, and then committed.
ghost use Rattle.std.specs.Prelude.{◌≡◌, suc, length, IfOk};
ghost use Rattle.rec_events.specs.Times.{micros};
ghost use Rattle.rec_spans.specs.History.{initial_state};
ghost use Rattle.rec_spans.specs.Judged.{IsJudged};
ghost use Rattle.rec_spans.specs.Kinds.{change_of, trace_input};
ghost use Rattle.rec_spans.specs.Past.{scripts_after};
ghost use Rattle.rec_spans.specs.Plain.{plain};
ghost use Rattle.rec_spans.specs.Refusals.{Judges, act_refusal, instant_refusal};
ghost use Rattle.rec_spans.specs.Refusals.{next_refusal, number_refusal};
ghost use Rattle.rec_spans.specs.Seen.{seen};
ghost use Rattle.rec_spans.specs.Starts.{started};

use crate::acts::{Act, act_of};
use crate::binaries::Binaries;
use crate::commits::scripts_after;
use crate::errors::ChromeTraceError;
use crate::judged::JudgedEvent;
use crate::open_spans::OpenSpans;
use crate::settings::ChromeTraceGroupBy;
use rec_events::{OutputSpec, Stamp, TestEventSummary};
use std::alloc::Global;
use std::marker::Model;

/// Keeps what the next event needs of those before it.
#[derive(Drop)]
pub struct SpanTracker {
    /// How many events there were.
    pub(crate) number: u64,
    /// Whether the run is in a pause.
    pub(crate) in_pause: bool,
    pub(crate) open_spans: OpenSpans,
    pub(crate) binaries: Binaries,
    /// How many setup scripts run.
    pub(crate) scripts: usize,
    /// How many attempts failed. There are no more than events, so it is a u64.
    pub(crate) next_flow: u64,
}

impl Model for SpanTracker {
    ghost use Rattle.std.specs.Prelude.{◌≤◌};
    ghost use Rattle.rec_spans.specs.History.{TraceState};

    ghost Value = { TraceState };

    ghost view = { λ tracker. record {
      number = tracker.number;
      in_pause = tracker.in_pause;
      spans = tracker.open_spans;
      binaries = tracker.binaries;
      scripts = tracker.scripts;
      next_flow = tracker.next_flow;
    } };

    ghost invariant = { λ tracker. tracker.next_flow ≤ tracker.number };
}

impl SpanTracker {
    /// Makes the tracker of a run without an event so far.
    pub fn new(alloc: Global) -> SpanTracker
        ensures { result ≡ initial_state }
    {
        SpanTracker {
            number: 0,
            in_pause: false,
            open_spans: OpenSpans::new(alloc),
            binaries: Binaries::new(alloc),
            scripts: 0,
            next_flow: 0,
        }
    }

    /// Returns whether the run is in a pause.
    pub fn in_pause(&self) -> bool
        ensures { result ≡ self.now.in_pause }
    {
        self.in_pause
    }

    /// Returns the spans that are open.
    pub fn open_spans(&self) -> &OpenSpans
        ensures { result.now ≡ self.now.spans }
    {
        &self.open_spans
    }

    /// Returns how many binaries have started an attempt.
    pub fn binary_count(&self) -> usize
        ensures { result ≡ length self.now.binaries }
    {
        self.binaries.len()
    }

    /// Returns the number of the next flow, which is how many attempts failed.
    pub fn next_flow(&self) -> u64
        ensures { result ≡ self.now.next_flow }
    {
        self.next_flow
    }

    /// Judges the next event, and returns what is known of it where it isn't refused. The tracker
    /// moves on only when the event is committed.
    ///
    /// # Errors
    ///
    /// Answers the first cause for which the event is refused, in the order that `ChromeTraceError`
    /// gives, or `OutOfMemory`.
    pub fn judge_event<S: OutputSpec>(
        &self,
        alloc: Global,
        group_by: ChromeTraceGroupBy,
        event: &TestEventSummary<S>,
    ) -> Result<JudgedEvent, ChromeTraceError>
        ensures judged { Judges result
            (next_refusal self.now (trace_input group_by self.now.binaries (plain event.now))) }
        ensures known { IfOk result
            (IsJudged self.now (trace_input group_by self.now.binaries (plain event.now))) }
    {
        let number = self.next_number()?;
        let at = instant(number, &event.timestamp)?;
        self.judge_act(alloc, group_by, number, at, act_of(&event.kind))
    }

    /// Returns the number of the next event.
    fn next_number(&self) -> Result<u64, ChromeTraceError>
        ensures number { IfOk result (λ n. n ≡ suc self.now.number) }
        ensures judged { Judges result (number_refusal (suc self.now.number)) }
    {
        match self.number.checked_add(1) {
            Some(number) => Ok(number),
            None => Err(ChromeTraceError::CountOutOfRange { event: u64::MAX }),
        }
    }

    /// Judges an event whose number and instant are in range.
    fn judge_act(
        &self,
        alloc: Global,
        group_by: ChromeTraceGroupBy,
        number: u64,
        at: i64,
        act: Act<'_>,
    ) -> Result<JudgedEvent, ChromeTraceError>
        requires { number ≡ suc self.now.number }
        ensures judged { Judges result
            (act_refusal number self.now (seen act.entry)
            (change_of group_by self.now.binaries (seen act.entry))) }
        ensures known { IfOk result (λ judged. (judged.number ≡ number) × (judged.at ≡ at)
            × (judged.started ≡ started (change_of group_by self.now.binaries (seen act.entry)))
            × (judged.running_scripts ≡ scripts_after (seen act.entry) self.now.scripts)) }
    {
        self.judge(alloc, group_by, number, act)?;
        let started = self.started(alloc, group_by, number, act)?;
        Ok(JudgedEvent {
            number,
            at,
            started,
            running_scripts: scripts_after(number, act, self.scripts),
        })
    }
}

/// Returns the instant of an event, in microseconds since the Unix epoch.
fn instant(number: u64, timestamp: &Stamp) -> Result<i64, ChromeTraceError>
    ensures value { IfOk result (λ t. t ≡ micros timestamp.now) }
    ensures judged { Judges result (instant_refusal number (micros timestamp.now)) }
{
    match timestamp.microseconds() {
        Some(at) => Ok(at),
        None => Err(ChromeTraceError::TimestampOutOfRange { event: number }),
    }
}
