//! What is seen where an event is drawn.
use crate::known::Known;
use rec_events::Version;
use rec_spans::{ChromeTraceGroupBy, JudgedEvent, SpanTracker};
use std::alloc::Global;

/// Holds what the trace events of an event are made from, beside the event.
#[derive(Clone, Copy)]
pub struct Sight<'t> {
    /// Where memory comes from.
    pub alloc: Global,
    /// The version of the runner.
    pub version: &'t Version,
    /// How rows are chosen.
    pub group_by: ChromeTraceGroupBy,
    /// What is open before the event.
    pub tracker: &'t SpanTracker,
    /// What is known before the event.
    pub known: &'t Known,
    /// What was judged of the event.
    pub judged: &'t JudgedEvent,
}
