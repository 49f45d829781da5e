//! What a recorded run is described by: format versions, path names, sizes, statuses, the head of a
//! session, the metadata of a run and the manifest of a bundle, with their JSON forms.
#![tactic(auto)]

mod forms;
mod head;
mod incompatibility;
pub mod laws;
mod manifest;
mod paths;
mod rerun;
mod run;
mod run_ids;
mod run_list;
mod scope;
mod sizes;
mod status;
mod suites;
mod versions;

pub use head::SessionHead;
pub use incompatibility::{
    PortableRecordingVersionIncompatibility, Release, StoreVersionIncompatibility,
    TooOldRecordingGuidance,
};
pub use manifest::PortableManifest;
pub use paths::{
    BUILD_SCOPE_JSON_PATH, CARGO_METADATA_JSON_PATH, OutputDict, PORTABLE_MANIFEST_FILE_NAME,
    RECORD_OPTS_JSON_PATH, RERUN_INFO_JSON_PATH, RUN_LOG_FILE_NAME, STORE_ZIP_FILE_NAME,
    TEST_LIST_JSON_PATH, has_zip_extension,
};
pub use rerun::{RerunInfo, RerunRootInfo};
pub use run::{RecordedRun, RecordedRunInfo};
pub use run_ids::{RunIdIndex, ShortestRunIdPrefix};
pub use run_list::{RecordedRunList, RunFilesExist, RunsJsonWritePermission};
pub use scope::{BuildKind, RecordedBuildScope};
pub use sizes::{ComponentSizes, ComponentSizesFormat, RecordedSizes, RecordedSizesFormat};
pub use status::{
    CompletedRunStats, RecordedRunStatus, RecordedRunStatusFormat, StressCompletedRunStats,
};
pub use suites::{RerunSuites, RerunTestSuiteInfo};
pub use versions::{
    PORTABLE_RECORDING_FORMAT_VERSION, PortableRecordingFormatMajorVersion,
    PortableRecordingFormatMinorVersion, PortableRecordingFormatVersion, RUNS_JSON_FORMAT_VERSION,
    RunsJsonFormatVersion, STORE_FORMAT_VERSION, StoreFormatMajorVersion, StoreFormatMinorVersion,
    StoreFormatVersion, store_format_version_for,
};
