//! What an export counts.

/// Counts what was exported.
#[derive(Clone, Copy, Debug, PartialEq, Eq)]
pub struct Exported {
    /// The number of events in the log.
    pub events: u64,
    /// The number of outputs in the store.
    pub outputs: u64,
    /// The length of the bundle, in bytes.
    pub bundle_bytes: u64,
    /// The length of the trace, in bytes.
    pub trace_bytes: u64,
}
