//! Stress runs, as events name them while a run is going on.
ghost use Rattle.std.specs.Prelude.{◌≡◌};
ghost use Rattle.rec_events.specs.LiveStress.{stress_index_summary, condition_summary};

use crate::{Duration, NonZeroCount, StressConditionSummary, StressIndexSummary};

/// Says which run of a stress run it is, and of how many where that is known.
#[derive(Clone, Copy, Drop)]
pub struct StressIndex {
    /// How many sub-runs came before it, from 0.
    pub current: u32,
    /// How many sub-runs there are to be; `None` where that isn't known.
    pub total: Option<NonZeroCount>,
}

/// Says how many runs a stress run has.
#[derive(Clone, Copy, Drop)]
pub enum StressCount {
    /// It has so many.
    Count { count: NonZeroCount },
    /// It goes on until it is stopped.
    Infinite,
}

/// Says what ends a stress run.
#[derive(Clone, Copy, Drop)]
pub enum StressCondition {
    /// So many sub-runs.
    Count(StressCount),
    /// So much time.
    Duration(Duration),
}

impl StressIndex {
    /// Gives the index as it is recorded.
    pub fn summary(&self) -> StressIndexSummary
        ensures { result ≡ stress_index_summary self.now }
    {
        StressIndexSummary {
            current: self.current,
            total: self.total,
        }
    }
}

impl StressCondition {
    /// Gives the condition as it is recorded.
    pub fn summary(&self) -> StressConditionSummary
        ensures { result ≡ condition_summary self.now }
    {
        match self {
            StressCondition::Count(StressCount::Count { count }) => StressConditionSummary::Count {
                count: Some(count.get()),
            },
            StressCondition::Count(StressCount::Infinite) => {
                StressConditionSummary::Count { count: None }
            }
            StressCondition::Duration(duration) => StressConditionSummary::Duration {
                duration: *duration,
            },
        }
    }
}
