//! The start of a run, as a trace keeps it.
use rec_events::{Items, ReportUuid, StressConditionSummary, Text};

/// Holds what the start of a run says of it.
#[derive(Drop)]
pub struct RunStart {
    /// The id of the run.
    pub run_id: ReportUuid,
    /// The name of the profile that the run uses.
    pub profile_name: Text,
    /// The command line of the run.
    pub cli_args: Items<Text>,
    /// What ends the stress run; `None` where the run is none.
    pub stress_condition: Option<StressConditionSummary>,
}
