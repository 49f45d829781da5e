//! Bundles that can be carried to another machine: the log and the store of a run in one container,
//! with a manifest that describes them.
#![tactic(auto)]

mod bundle;
mod errors;
mod extraction;
mod file_counts;
pub mod laws;
mod manifest;
mod parts;
mod recording;
mod run_log;
mod store;
mod upgrade_error;
mod upgrades;
mod upgrading;
mod window;

pub use bundle::bundle_text;
pub use errors::PortableRecordingReadError;
pub use extraction::ExtractOuterFileResult;
pub use recording::PortableRecording;
pub use run_log::{PortableRecordingEventIter, PortableRecordingRunLog};
pub use store::PortableStoreReader;
pub use upgrade_error::UpgradeError;
pub use upgrades::{Upgraded, upgrade};
