//! The list of the runs that a store holds.
ghost use Rattle.std.specs.Prelude.{◌≡◌, ◌≤◌, ◌↔◌};
ghost use Rattle.rec_format.specs.declared.run_list.RunsJsonWritePermission.TheVariants.{Allowed};
ghost use Rattle.rec_format.specs.RunLists.{permission};

use crate::{RUNS_JSON_FORMAT_VERSION, RecordedRun, RunsJsonFormatVersion};
use rec_events::{Items, Stamp};

/// Lists the runs that a store holds, as they stand in JSON.
#[derive(Drop)]
pub struct RecordedRunList {
    /// The version of the list.
    pub format_version: RunsJsonFormatVersion,
    /// When runs were last removed.
    pub last_pruned_at: Option<Stamp>,
    /// The runs, as the list has them.
    pub runs: Items<RecordedRun>,
}

/// Says whether a run list may be written back.
#[derive(Copy, Clone, PartialEq, Eq, Debug)]
pub enum RunsJsonWritePermission {
    /// All that the list holds is known.
    Allowed,
    /// The list is of a newer version, and may hold what is not known here.
    Denied {
        /// The version of the list.
        file_version: RunsJsonFormatVersion,
        /// The newest version that may be written back.
        max_supported_version: RunsJsonFormatVersion,
    },
}

impl RecordedRunList {
    /// Says whether the list may be written back: exactly where its version isn't newer than
    /// `RUNS_JSON_FORMAT_VERSION`.
    pub fn write_permission(&self) -> RunsJsonWritePermission
        ensures answer { result ≡ permission self.now.format_version }
        ensures allowed { (result ≡ Allowed) ↔ (self.now.format_version ≤ 3) }
    {
        let file_version = self.format_version;
        if file_version > RUNS_JSON_FORMAT_VERSION {
            return RunsJsonWritePermission::Denied {
                file_version,
                max_supported_version: RUNS_JSON_FORMAT_VERSION,
            };
        }
        RunsJsonWritePermission::Allowed
    }
}

/// Says which of a run's files are there.
pub trait RunFilesExist {
    /// Checks whether the run's store is there.
    fn store_zip_exists(&self) -> bool;

    /// Checks whether the run's event log is there.
    fn run_log_exists(&self) -> bool;
}
