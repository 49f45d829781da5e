//! What happens at one instant: marks of the whole run, and what is slow.
ghost use Rattle.std.specs.Prelude.{◌≡◌, IfOk};
ghost use Rattle.rec_trace_events.specs.EventTexts.{event_value};
ghost use Rattle.rec_trace_events.specs.TraceEvents.{instant_event, mark_event};
ghost use Rattle.rec_trace_events.specs.TraceEvents.{mark_name, mark_reason, slow_event};

use crate::args::Args;
use crate::counts::RunningCounts;
use crate::event::{TraceEvent, event};
use crate::event_parts::EventParts;
use crate::rows::{Category, Row};
use rec_events::CancelReason;
use rec_forms::ObjectWriter;
use rec_json::JsonText;
use std::alloc::{AllocError, Global};

/// Says what an instant marks of the whole run. `docs/FORMATS.md#what-each-event-draws` says when
/// it is drawn.
#[derive(Clone, Copy, Drop)]
pub enum RunMark {
    /// No further test is to begin, for this reason.
    Cancelled(CancelReason),
    /// The run was stopped for a while.
    Paused,
    /// The run goes on.
    Continued,
}

impl RunMark {
    /// Returns the name of the mark.
    #[tactic(auto, unfolding(crate::specs::TraceEvents::mark_name))]
    fn name(self) -> &'static str
        ensures { result.now ≡ mark_name self }
    {
        match self {
            RunMark::Cancelled(_) => "cancel",
            RunMark::Paused => "paused",
            RunMark::Continued => "continued",
        }
    }

    /// Returns why the run was cancelled, where it was.
    fn reason(self) -> Option<CancelReason>
        ensures { result ≡ mark_reason self }
    {
        match self {
            RunMark::Cancelled(reason) => Some(reason),
            RunMark::Paused => None,
            RunMark::Continued => None,
        }
    }
}

/// Makes an event at one instant, which viewers show as wide as `scope` says.
#[tactic(auto, unfolding(rec_forms::specs::Shape::members_of))]
fn instant_event<'a, A: Args>(
    alloc: Global,
    name: &'a str,
    category: Category,
    row: Row,
    at: i64,
    scope: &'a str,
    args: &A,
) -> Result<TraceEvent, AllocError>
    ensures { IfOk result
        (λ e. event_value e
        ≡ instant_event name.now category row at scope.now (A.value_of args.now)) }
{
    let parts = EventParts {
        phase: "i",
        name,
        category: category.as_str(),
        row,
        at,
        id: None,
        scope: Some(scope),
        binding: None,
    };
    event(alloc, &parts, Some(args))
}

/// Holds the args of a mark of the run.
#[derive(Drop)]
struct MarkArgs {
    mark: RunMark,
    running: RunningCounts,
}

impl Args for MarkArgs {
    ghost use Rattle.rec_trace_events.specs.TraceEvents.{mark_args};

    ghost value_of = { λ a. mark_args a.mark a.running };

    #[tactic(auto, unfolding(crate::specs::TraceEvents::mark_args))]
    fn write(&self, alloc: Global, text: &mut JsonText) -> Result<(), AllocError> {
        let reason = self.mark.reason();
        ObjectWriter::begin(alloc, text)
            .optional(text, "reason", &reason)
            .field(text, "running", &self.running.tests)
            .field(text, "setup_scripts_running", &self.running.scripts)
            .end(text)
    }
}

/// Makes a mark of the run, on its row, at an instant in microseconds since the Unix epoch.
///
/// # Errors
///
/// `AllocError` if memory runs out.
#[tactic(auto, unfolding(crate::specs::TraceEvents::mark_event))]
pub fn mark_event(
    alloc: Global,
    mark: RunMark,
    running: RunningCounts,
    at: i64,
) -> Result<TraceEvent, AllocError>
    ensures { IfOk result (λ e. event_value e ≡ mark_event mark running at) }
{
    let args = MarkArgs { mark, running };
    let row = Row { pid: 0, tid: 1 };
    instant_event(alloc, mark.name(), Category::Run, row, at, "p", &args)
}

/// Makes the event of a test or a setup script that is slow, on its row, at an instant in
/// microseconds since the Unix epoch.
///
/// # Errors
///
/// `AllocError` if memory runs out.
#[tactic(auto, unfolding(crate::specs::TraceEvents::slow_event))]
pub fn slow_event<A: Args>(
    alloc: Global,
    category: Category,
    row: Row,
    at: i64,
    args: &A,
) -> Result<TraceEvent, AllocError>
    ensures { IfOk result (λ e. event_value e ≡ slow_event category row at (A.value_of args.now)) }
{
    instant_event(alloc, "slow", category, row, at, "t", args)
}
