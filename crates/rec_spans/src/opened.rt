//! What is known of an event that was opened.

/// Holds what is known of an event that was opened, from which it is committed or taken back.
#[derive(Drop)]
pub struct OpenedEvent {
    /// The event's number, counted from 1.
    pub(crate) number: u64,
    /// How many setup scripts run after the event.
    pub(crate) running_scripts: usize,
    /// Whether it starts the first attempt of its test's binary.
    pub(crate) has_new_binary: bool,
}
