//! What a run's events are printed from.
ghost use Rattle.std.specs.Prelude.{◌≡◌, List};
ghost use Rattle.rec_container.specs.Container.{Entry, IsContainer};
ghost use Rattle.rec_reading.specs.RunParts.{Answers, OpensRun, opts_part, parts_of, tests_part};

use rec_errors::ReadingError;
use rec_events::{NextestRunMode, RecordOpts, TestListSummary};
use rec_portable::{PortableRecording, PortableRecordingRunLog, PortableStoreReader};
use rec_store::StoreReader;
use std::alloc::Global;

/// Holds what is read of a run before its events: its store, what it did with its tests, which
/// these are, and its log.
#[derive(Drop)]
pub(crate) struct OpenRun<'a> {
    pub(crate) store: PortableStoreReader<'a>,
    pub(crate) mode: NextestRunMode,
    pub(crate) tests: TestListSummary,
    pub(crate) log: PortableRecordingRunLog<'a>,
}

impl<'a> OpenRun<'a> {
    /// Reads a bundle up to the events of its run.
    pub(crate) fn read(
        alloc: Global,
        bundle: &'a PortableRecording,
    ) -> Result<OpenRun<'a>, ReadingError>
        ensures { (es : List Entry)
            → IsContainer bundle.now.bytes es
            → OpensRun bundle.now.limit (parts_of bundle.now.limit es) result }
    {
        let log = bundle.read_run_log(alloc)?;
        let mut store = bundle.open_store(alloc)?;
        let opts = read_opts(alloc, &mut store)?;
        let tests = read_tests(alloc, &mut store)?;
        Ok(OpenRun {
            store,
            mode: opts.run_mode,
            tests,
            log,
        })
    }
}

/// Reads the record options of a store.
fn read_opts(alloc: Global, store: &mut PortableStoreReader<'_>) -> Result<RecordOpts, ReadingError>
    ensures opts { Answers (opts_part store.old.entries store.old.limit) result }
    ensures same { store.new ≡ store.old }
{
    Ok(store.read_record_opts(alloc)?)
}

/// Reads the test list of a store.
pub(crate) fn read_tests(
    alloc: Global,
    store: &mut PortableStoreReader<'_>,
) -> Result<TestListSummary, ReadingError>
    ensures tests { Answers (tests_part store.old.entries store.old.limit) result }
    ensures same { store.new ≡ store.old }
{
    Ok(store.read_test_list(alloc)?)
}
