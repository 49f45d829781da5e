//! The events of a test run and the small types that they are made of.
#![tactic(auto)]

mod counts;
mod events;
mod groups;
mod ids;
mod instances;
mod items;
mod live_events;
mod live_instances;
mod live_stress;
mod non_empty;
mod output_bytes;
mod output_names;
mod outputs;
mod recording;
mod reporting;
mod results;
mod run_ends;
mod script_statuses;
mod selections;
mod skipping;
mod stats;
mod statuses;
mod stress;
mod test_list;
mod test_names;
mod text;
mod text_map;
mod times;
mod try_clone;
mod version;

pub use counts::NonZeroCount;
pub use events::{CoreEventKind, OutputEventKind, TestEventKindSummary, TestEventSummary};
pub use groups::{GroupName, TestGroup};
pub use ids::{ReportUuid, RustBinaryId, ScriptId, TestCaseName};
pub use instances::{OwnedTestInstanceId, RetryData, StressIndexSummary, TestSlotAssignment};
pub use items::Items;
pub use live_events::{TestEvent, TestEventKind};
pub use live_instances::TestInstanceId;
pub use live_stress::{StressCondition, StressCount, StressIndex};
pub use non_empty::NonEmpty;
pub use output_bytes::ChildSingleOutput;
pub use output_names::{OutputFileName, OutputKind};
pub use outputs::{
    ChildExecutionOutputDescription, ChildOutputDescription, LiveSpec, OutputSpec, RecordingSpec,
    ZipStoreOutput, ZipStoreOutputDescription,
};
pub use recording::{NextestRunMode, RecordOpts, TestListSummary};
pub use reporting::{CancelReason, JunitFlakyFailStatus, TestOutputDisplay};
pub use results::{
    ErrorSummary, ExecutionResultDescription, FailureDescription, FlakyResult, LeakTimeoutResult,
    OutputErrorSlice, SlowTimeoutResult,
};
pub use run_ends::{
    FinalRunStats, RunFinishedStats, StressFinalRunStats, StressRunStats, TestsNotSeenSummary,
};
pub use script_statuses::SetupScriptExecuteStatus;
pub use selections::{
    BuildScope, FeatureSelection, NamedTargets, PackageSelection, TargetSelection,
};
pub use skipping::{MismatchReason, ReportSkipPolicy};
pub use stats::RunStats;
pub use statuses::{ExecuteStatus, ExecutionDescription, ExecutionStatuses};
pub use stress::{StressConditionSummary, StressProgress};
pub use test_list::TestList;
pub use test_names::TestNames;
pub use text::Text;
pub use text_map::TextMap;
pub use times::{Duration, Stamp};
pub use try_clone::{TryClone, clone_both};
pub use version::{Version, VersionError};
