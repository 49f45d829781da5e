//! The counters of a trace.
ghost use Rattle.std.specs.Prelude.{◌≡◌, IfOk};
ghost use Rattle.rec_trace_events.specs.EventTexts.{event_value};
ghost use Rattle.rec_trace_events.specs.TraceEvents.{
  concurrency_event,
  counter_event,
  results_event,
};

use crate::args::Args;
use crate::counts::{RunningCounts, TestCounts};
use crate::event::{TraceEvent, event};
use crate::event_parts::EventParts;
use crate::rows::{Category, Row};
use rec_forms::ObjectWriter;
use rec_json::JsonText;
use std::alloc::{AllocError, Global};

/// Makes the event of a counter, with these counts as its args.
#[tactic(auto, unfolding(rec_forms::specs::Shape::members_of))]
fn counter_event<A: Args>(
    alloc: Global,
    name: &str,
    at: i64,
    counts: &A,
) -> Result<TraceEvent, AllocError>
    ensures { IfOk result (λ e. event_value e ≡ counter_event name.now at (A.value_of counts.now)) }
{
    let parts = EventParts {
        phase: "C",
        name,
        category: Category::Run.as_str(),
        row: Row { pid: 0, tid: 0 },
        at,
        id: None,
        scope: None,
        binding: None,
    };
    event(alloc, &parts, Some(counts))
}

impl Args for RunningCounts {
    ghost use Rattle.rec_trace_events.specs.TraceEvents.{running_args};

    ghost value_of = { running_args };

    fn write(&self, alloc: Global, text: &mut JsonText) -> Result<(), AllocError> {
        ObjectWriter::begin(alloc, text)
            .field(text, "running_scripts", &self.scripts)
            .field(text, "running_tests", &self.tests)
            .end(text)
    }
}

/// Makes the event that counts what runs, at an instant in microseconds since the Unix epoch.
///
/// # Errors
///
/// `AllocError` if memory runs out.
#[tactic(auto, unfolding(crate::specs::TraceEvents::concurrency_event))]
pub fn concurrency_event(
    alloc: Global,
    running: RunningCounts,
    at: i64,
) -> Result<TraceEvent, AllocError>
    ensures { IfOk result (λ e. event_value e ≡ concurrency_event running at) }
{
    counter_event(alloc, "concurrency", at, &running)
}

impl Args for TestCounts {
    ghost use Rattle.rec_trace_events.specs.TraceEvents.{results_args};

    ghost value_of = { results_args };

    fn write(&self, alloc: Global, text: &mut JsonText) -> Result<(), AllocError> {
        ObjectWriter::begin(alloc, text)
            .field(text, "failed", &self.failed)
            .field(text, "flaky", &self.flaky)
            .field(text, "passed", &self.passed)
            .end(text)
    }
}

/// Makes the event that counts how tests ended, at an instant in microseconds since the Unix epoch.
///
/// # Errors
///
/// `AllocError` if memory runs out.
#[tactic(auto, unfolding(crate::specs::TraceEvents::results_event))]
pub fn results_event(alloc: Global, counts: TestCounts, at: i64) -> Result<TraceEvent, AllocError>
    ensures { IfOk result (λ e. event_value e ≡ results_event counts at) }
{
    counter_event(alloc, "test results", at, &counts)
}
