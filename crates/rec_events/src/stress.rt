//! How long a stress run goes on, and how far it got.
use crate::Duration;

/// Says what ends a stress run.
#[derive(Clone, Copy, PartialEq, Eq, Drop)]
pub enum StressConditionSummary {
    /// So many runs; without a count it goes on until it is stopped.
    Count { count: Option<u32> },
    /// So much time.
    Duration { duration: Duration },
}

/// Says how far a stress run got. `elapsed` is the time since it began, and `completed` the number
/// of its runs that ended.
#[derive(Clone, Copy, Drop)]
pub enum StressProgress {
    /// Of so many runs; without a total it goes on until it is stopped.
    Count {
        /// How many sub-runs there are to be; `None` where it goes on until it is stopped.
        total: Option<u32>,
        /// The time since the stress run began.
        elapsed: Duration,
        /// How many sub-runs ended.
        completed: u32,
    },
    /// Of so much time.
    Time {
        /// How long the stress run is to go on.
        total: Duration,
        /// The time since the stress run began.
        elapsed: Duration,
        /// How many sub-runs ended.
        completed: u32,
    },
}
