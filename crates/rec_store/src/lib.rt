//! The store and the log of a run: how they are written, and how the store's parts are read.
#![tactic(auto)]

mod bundle;
mod cut;
mod entries;
mod error;
mod event_outputs;
pub mod laws;
mod metadata;
mod namer;
mod output_names;
mod output_paths;
mod outputs;
pub mod parts;
mod read_error;
mod recorder;
mod sizes;
mod sizes_judged;
mod store_reader;

pub use bundle::{bundle_length, recorded_bundle_length, write_bundle, write_recorded_bundle};
pub use cut::{CutOutput, truncate_output};
pub use error::RunStoreError;
pub use metadata::{write_manifest, write_metadata};
pub use namer::{ConstantNamer, OutputNamer, Sha256Namer};
pub use output_names::named_outputs;
pub use output_paths::output_path;
pub use read_error::RecordReadError;
pub use recorder::{RecorderEnd, RunRecorder};
pub use sizes::{ComponentSizes, StoreSizes};
pub use sizes_judged::{TooLarge, first_too_large, judge_size};
pub use store_reader::StoreReader;
