//! The parts of a run, judged and written anew.
ghost use Rattle.rec_format.specs.declared.manifest.PortableManifest.{PortableManifest};
ghost use Rattle.rec_store.specs.JudgedParts.{parts_judged};
ghost use Rattle.rec_portable.specs.Rewriting.{IsRewrittenRun, Rewrites};

use crate::run_log::PortableRecordingRunLog;
use crate::upgrading::log::rewrite_log;
use crate::upgrading::metadata::MetadataTexts;
use crate::upgrading::outputs::judge_outputs;
use rec_container::Container;
use rec_store::RecordReadError;
use std::alloc::Global;
use std::collections::BTreeSet;

/// Holds what is written anew of a run, but for its outputs.
#[derive(Drop)]
pub(crate) struct RewrittenRun {
    pub(crate) metadata: MetadataTexts,
    /// The log.
    pub(crate) log: Vec<u8>,
    /// How many events it has.
    pub(crate) events: u64,
    /// The paths of the outputs that these name.
    pub(crate) paths: BTreeSet<String>,
}

/// Judges metadata, log and outputs, in this order, and writes the first two anew.
pub(crate) fn rewrite_parts(
    alloc: Global,
    limit: u64,
    log: &PortableRecordingRunLog<'_>,
    entries: &Container<'_>,
) -> Result<RewrittenRun, RecordReadError>
    ensures { (m : PortableManifest)
        → Rewrites (IsRewrittenRun m entries.now.entries)
        (parts_judged limit m log.now entries.now.entries) result }
{
    let metadata = MetadataTexts::read(alloc, limit, entries)?;
    let log = rewrite_log(alloc, log)?;
    let paths = judge_outputs(alloc, limit, entries, &log.names)?;
    Ok(RewrittenRun {
        metadata,
        log: log.text,
        events: log.events,
        paths,
    })
}
