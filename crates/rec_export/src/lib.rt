//! The recording of a session and its export: `record_and_export` reads a session, writes its
//! bundle, and draws its trace.
//!
//! All is judged and all memory is taken before the first byte is written, so that a session that
//! is refused leaves both sinks as they were.
#![tactic(auto)]

mod bundle;
mod counts;
mod deliver;
mod discarding;
mod export;
mod head;
pub mod laws;
mod prepare;
mod read;
mod record;
mod session_lines;
mod settings;
mod sizes;
mod trace;

pub use counts::Exported;
pub use export::record_and_export;
pub use head::read_head;
pub use rec_errors::RecordExportError;
pub use settings::Settings;
