//! Entries that have no place in what is written.
ghost use Rattle.std.specs.BTreeSet.{contains_text};
ghost use Rattle.std.specs.Option.{option_map};
ghost use Rattle.std.specs.Prelude.{◌≡◌, ◌||◌, List, ℕ};
ghost use Rattle.rec_store.specs.JudgedParts.{first_unnamed};
ghost use Rattle.rec_store.specs.RunParts.{is_metadata as is_metadata_path};
ghost use Rattle.rec_portable.specs.Rewriting.{ArePaths, Judges};
ghost use Rattle.rec_portable.specs.Upgrading.{first_foreign, is_in_place as is_place_of};
ghost use Rattle.rec_portable.specs.Upgrading.{names_judged, none_foreign};

use crate::upgrade_error::UpgradeError;
use rec_container::Container;
use rec_events::Text;
use rec_format::{
    BUILD_SCOPE_JSON_PATH, CARGO_METADATA_JSON_PATH, PORTABLE_MANIFEST_FILE_NAME,
    RECORD_OPTS_JSON_PATH, RERUN_INFO_JSON_PATH, RUN_LOG_FILE_NAME, STORE_ZIP_FILE_NAME,
    TEST_LIST_JSON_PATH,
};
use std::alloc::Global;
use std::collections::BTreeSet;

/// Judges the names of a bundle's entries: manifest, log and store, in this order.
pub(crate) fn judge_names(alloc: Global, entries: &Container<'_>) -> Result<(), UpgradeError>
    ensures { Judges (names_judged entries.now.entries) result }
{
    refuse(alloc, first_out_of_place(entries))
}

/// Judges the names of a store's entries: each is metadata, or one of these paths.
pub(crate) fn judge_store_names(
    alloc: Global,
    paths: &BTreeSet<String>,
    entries: &Container<'_>,
) -> Result<(), UpgradeError>
    ensures { (named : List (List ℕ))
        → ArePaths named paths.now
        → Judges (none_foreign (first_unnamed named entries.now.entries)) result }
{
    refuse(alloc, first_without_name(paths, entries))
}

/// Refuses the entry of this name, where there is one.
fn refuse(alloc: Global, foreign: Option<&str>) -> Result<(), UpgradeError>
    ensures { Judges (none_foreign (option_map (λ n. n.now) foreign.entry)) result }
{
    match foreign {
        None => Ok(()),
        Some(name) => {
            let file_name = Text::from_str(alloc, name)?;
            Err(UpgradeError::ForeignEntry { file_name })
        }
    }
}

/// Returns the name of the first entry that isn't the one of its place.
fn first_out_of_place<'a>(entries: &Container<'a>) -> Option<&'a str>
    ensures { option_map (λ n. n.now) result ≡ first_foreign 0 entries.now.entries }
{
    for i in 0..entries.len() {
        let name = entries.name(i);
        if !is_in_place(i, name) {
            return Some(name);
        }
    }
    None
}

/// Returns whether the entry at an index has this name.
fn is_in_place(i: usize, name: &str) -> bool
    ensures { result ≡ is_place_of i name.now }
{
    if i == 0 {
        return name == PORTABLE_MANIFEST_FILE_NAME;
    }
    if i == 1 {
        return name == RUN_LOG_FILE_NAME;
    }
    i == 2 && name == STORE_ZIP_FILE_NAME
}

/// Returns the name of the first entry that is neither metadata nor one of these paths.
fn first_without_name<'a>(paths: &BTreeSet<String>, entries: &Container<'a>) -> Option<&'a str>
    ensures { (named : List (List ℕ))
        → ArePaths named paths.now
        → option_map (λ n. n.now) result ≡ first_unnamed named entries.now.entries }
{
    for i in 0..entries.len() {
        let name = entries.name(i);
        if !has_place(paths, name) {
            return Some(name);
        }
    }
    None
}

/// Returns whether an entry of this name is metadata, or one of these paths.
fn has_place(paths: &BTreeSet<String>, name: &str) -> bool
    ensures { result ≡ (is_metadata_path name.now || contains_text paths.now name.now) }
{
    is_metadata(name) || paths.contains(name)
}

/// Returns whether metadata stands at this path.
pub(crate) fn is_metadata(path: &str) -> bool
    ensures { result ≡ is_metadata_path path.now }
{
    path == BUILD_SCOPE_JSON_PATH
        || path == RERUN_INFO_JSON_PATH
        || path == TEST_LIST_JSON_PATH
        || path == CARGO_METADATA_JSON_PATH
        || path == RECORD_OPTS_JSON_PATH
}
