//! The outputs that a log names.
ghost use Rattle.std.specs.Prelude.{map};
ghost use Rattle.rec_store.specs.JudgedParts.{outputs_judged};
ghost use Rattle.rec_store.specs.OutputPaths as spec;
ghost use Rattle.rec_portable.specs.Rewriting.{ArePaths, Rewrites};

use rec_container::Container;
use rec_events::OutputFileName;
use rec_store::parts::read_entry;
use rec_store::{RecordReadError, output_path};
use std::alloc::Global;
use std::collections::BTreeSet;

/// Judges the outputs of these names, in their order, and returns the set of their paths.
pub(crate) fn judge_outputs(
    alloc: Global,
    limit: u64,
    entries: &Container<'_>,
    names: &[OutputFileName],
) -> Result<BTreeSet<String>, RecordReadError>
    ensures { Rewrites (λ _ paths. ArePaths (map spec.output_path names.now) paths)
        (outputs_judged limit entries.now.entries (map spec.output_path names.now)) result }
{
    let mut paths = BTreeSet::new(alloc);
    for name in names {
        let path = output_path(alloc, *name)?;
        read_entry(alloc, entries, limit, path.as_str())?;
        paths.insert(path)?;
    }
    Ok(paths)
}
