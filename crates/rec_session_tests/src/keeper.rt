//! A keeper in memory that writes down which calls are made.
ghost use Rattle.std.specs.Prelude.{◌≡◌, ◌≤◌, codes, None};
ghost use Rattle.rec_session.specs.Keepers.{HasKeeperCause};

use rec_events::{Duration, ReportUuid};
use rec_format::{RecordedRunInfo, RecordedRunStatus, ShortestRunIdPrefix};
use rec_session::{KeeperError, MemoryKeeper, PruneResult, RecordRetentionPolicy, RunKeeper};
use rec_store::StoreSizes;

/// The directory of each workspace's state, which is no workspace's root.
fn state_dir() -> &'static str
    ensures { result.now ≡ codes "/state" }
{
    "/state"
}

/// Writes down the calls of a keeper, a letter each: directory, lock, unlock, create, end, prune. A
/// store that is opened is written down as the directory in which it stands.
#[derive(Drop)]
pub(crate) struct WatchedKeeper {
    pub(crate) inner: MemoryKeeper,
    pub(crate) calls: String,
}

impl WatchedKeeper {
    /// Writes a call down. A test sees it where memory is short, since the letter is missing.
    fn note(&mut self, letter: &str)
        ensures { self.new.inner ≡ self.old.inner }
    {
        let _noted = self.calls.push_str(letter).is_ok();
    }
}

impl RunKeeper for WatchedKeeper {
    ghost known = { λ _. None };

    ghost faults = { λ k. k.inner.faults };

    ghost directory = { λ _. codes "/state" };

    ghost pruned = { λ _ runs. record { runs = runs; answer = None } };

    fn state_dir(&mut self, _workspace_root: &str) -> Result<String, KeeperError> {
        self.note("d");
        self.inner.state_dir(state_dir())
    }

    fn open_store(&mut self, directory: &str) -> Result<(), KeeperError> {
        self.note(directory);
        self.inner.open_store(directory)
    }

    fn lock(&mut self) -> Result<(), KeeperError> {
        self.note("l");
        self.inner.lock()
    }

    fn unlock(&mut self) {
        self.note("u");
        self.inner.unlock();
    }

    fn create_run(&mut self, run: &RecordedRunInfo) -> Result<ShortestRunIdPrefix, KeeperError> {
        self.note("c");
        self.inner.create_run(run)
    }

    fn complete_run(
        &mut self,
        run_id: ReportUuid,
        sizes: StoreSizes,
        status: &RecordedRunStatus,
        duration: Option<Duration>,
    ) -> Result<bool, KeeperError> {
        self.note("e");
        self.inner.complete_run(run_id, sizes, status, duration)
    }

    fn prune(
        &mut self,
        policy: &RecordRetentionPolicy,
    ) -> Result<Option<PruneResult>, KeeperError> {
        self.note("p");
        self.inner.prune(policy)
    }
}
