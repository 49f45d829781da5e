//! What is known of an event that was judged and not refused.
use crate::spans::Span;

/// Holds what is known of an event that was judged and not refused, from which it can be drawn
/// before it is committed.
#[derive(Drop)]
pub struct JudgedEvent {
    /// The event's number, counted from 1.
    pub number: u64,
    /// The event's instant, in microseconds since the Unix epoch.
    pub at: i64,
    /// The span that the event starts, if it starts one.
    pub started: Option<Span>,
    /// How many setup scripts run after the event.
    pub running_scripts: usize,
}
