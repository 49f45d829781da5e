//! How the runs of a stress run are recorded.
ghost use Rattle.std.specs.Prelude.{◌≡◌, option_map};
ghost use Rattle.rec_events.specs.LiveStress.{index_summary, condition_summary};

use rec_events::{StressCondition, StressConditionSummary, StressIndex, StressIndexSummary};

/// Gives an index that may not be there, as it is recorded.
pub(crate) fn recorded_index(index: &Option<StressIndex>) -> Option<StressIndexSummary>
    ensures { result ≡ index_summary index.now }
{
    match index {
        Some(index) => Some(index.summary()),
        None => None,
    }
}

/// Gives a condition that may not be there, as it is recorded.
pub(crate) fn recorded_condition(
    condition: &Option<StressCondition>,
) -> Option<StressConditionSummary>
    ensures { result ≡ option_map condition_summary condition.now }
{
    match condition {
        Some(condition) => Some(condition.summary()),
        None => None,
    }
}
