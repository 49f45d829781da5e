//! What a test runner calls to record a run: a session over a keeper of runs, which is set up
//! before the run and finalized after it, and the reporters that it writes its events to.
//!
//! A runner makes its calls in this order:
//!
//! ```
//! let setup = RecordSession::setup(alloc, config, &mut keeper, store, log, &Sha256Namer)?;
//! let mut reporter = StructuredReporter::new();
//! reporter.set_record(RecordReporter::new(setup.recorder));
//! reporter.write_meta("{}", &test_list, &opts);
//! for event in events {
//!     reporter.write_event(alloc, &event)?;
//! }
//! let end = reporter.finish();
//! let result = setup.session.finalize(alloc, &mut keeper, end.sizes, Some(finished), exit_code,
//! &policy)?; for warning in result.warnings.as_slice() {
//!     println!(rt; "{warning}")?;
//! }
//! ```
#![tactic(auto)]

mod creating;
mod ending;
mod finalize;
mod keeper;
mod memory_keeper;
mod record_reporter;
mod session;
mod setup;
mod structured_reporter;

pub use finalize::{RecordFinalizeResult, RecordFinalizeWarning, RunFinishedInfo};
pub use keeper::{KeeperError, PruneResult, RecordPruneError, RecordRetentionPolicy, RunKeeper};
pub use memory_keeper::MemoryKeeper;
pub use record_reporter::{RecordReporter, RecordReporterError, ReporterEnd};
pub use session::RecordSession;
pub use setup::{
    RecordSessionConfig, RecordSessionSetup, RecordSetupError, RecordSetupFailed,
    RecorderCreateError,
};
pub use structured_reporter::{StructuredEnd, StructuredReporter};
