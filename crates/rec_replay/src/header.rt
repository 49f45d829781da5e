//! The header of a replay.
ghost use Rattle.std.specs.Prelude.{IfOk, option_map};
ghost use Rattle.rec_replay.specs.Headers.{IsHeaderOf};

use rec_events::{ReportUuid, Stamp};
use rec_format::{RecordedRunInfo, RecordedRunStatus, RunIdIndex, ShortestRunIdPrefix};
use std::alloc::{AllocError, Global};

/// Says which run is replayed. `docs/FORMATS.md#lines-of-a-replay` describes the line that is
/// printed of it.
#[derive(Drop)]
pub struct ReplayHeader {
    /// The id of the run.
    pub run_id: ReportUuid,
    /// The id, cut after the shortest prefix that stands for it among the known runs; `None` where
    /// these aren't known, or the run isn't one of them.
    pub unique_prefix: Option<ShortestRunIdPrefix>,
    /// When the run began.
    pub started_at: Stamp,
    /// How the run ended, if it did.
    pub status: RecordedRunStatus,
}

impl ReplayHeader {
    /// Makes the header of a run: its id, what the index answers for it, and from `run_info` when
    /// it started and how it ended.
    ///
    /// # Errors
    ///
    /// `AllocError` where memory is short.
    pub fn new(
        alloc: Global,
        run_id: ReportUuid,
        run_info: &RecordedRunInfo,
        run_id_index: Option<&RunIdIndex>,
    ) -> Result<ReplayHeader, AllocError>
        ensures { IfOk result
            (IsHeaderOf run_id run_info.now (option_map (λ index. index.now) run_id_index.entry)) }
    {
        let unique_prefix = match run_id_index {
            Some(index) => index.shortest_unique_prefix(alloc, run_id)?,
            None => None,
        };
        Ok(ReplayHeader {
            run_id,
            unique_prefix,
            started_at: run_info.started_at,
            status: run_info.status,
        })
    }
}
