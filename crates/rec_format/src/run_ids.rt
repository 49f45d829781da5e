//! Run ids, and the prefixes that stand for them.
ghost use Rattle.std.specs.List.{Contains, common_prefix_len};
ghost use Rattle.std.specs.Prelude.{◌≡◌, ◌↔◌, ℕ, List, IfOk, nat_eq};
ghost use Rattle.rec_format.specs.RunIdEntries.{IsTextOf, IsMostShared, IsBelow, IsAbove};
ghost use Rattle.rec_format.specs.RunIds.{CutsShortest};

use rec_events::ReportUuid;
use std::alloc::{AllocError, Global};
use std::collections::BTreeMap;
use std::marker::Model;
use std::ops::Bound;

/// Cuts a run's id after the shortest prefix that stands for it, as `docs/FORMATS.md#run-list`
/// defines it.
#[derive(Drop)]
pub struct ShortestRunIdPrefix {
    /// The shortest prefix of the id that stands for the run.
    pub prefix: String,
    /// What follows the prefix in the id.
    pub rest: String,
}

/// Finds runs by their ids. Contracts see the ids in the order of their texts.
#[derive(Drop)]
pub struct RunIdIndex {
    entries: BTreeMap<String, ReportUuid>,
}

impl Model for RunIdIndex {
    ghost use Rattle.std.specs.Prelude.{ℕ, List};
    ghost use Rattle.rec_format.specs.RunIdEntries.{ids_in, AreTexts};

    ghost Value = { List (List ℕ) };

    ghost view = { λ index. ids_in index.entries.entries };

    ghost invariant = { λ index. AreTexts index.entries.entries };
}

impl RunIdIndex {
    /// Makes the index of these ids.
    ///
    /// # Errors
    ///
    /// `AllocError` where memory is short.
    pub fn new(alloc: Global, ids: &[ReportUuid]) -> Result<RunIdIndex, AllocError>
        ensures { IfOk result (λ index. (id : List ℕ) → Contains index id ↔ Contains ids.now id) }
    {
        let mut entries = BTreeMap::new(alloc);
        for id in ids {
            let text = text_of(alloc, *id)?;
            entries.insert(text, *id)?;
        }
        Ok(RunIdIndex { entries })
    }

    /// Finds the shortest prefix of an id with which no other id of the index begins. There is none
    /// exactly where the id isn't in the index.
    ///
    /// # Errors
    ///
    /// `AllocError` where memory is short.
    pub fn shortest_unique_prefix(
        &self,
        alloc: Global,
        run_id: ReportUuid,
    ) -> Result<Option<ShortestRunIdPrefix>, AllocError>
        ensures { IfOk result (CutsShortest self.now run_id) }
    {
        let text = text_of(alloc, run_id)?;
        if !self.entries.contains_key(text.as_str()) {
            return Ok(None);
        }
        let below = shared_below(&self.entries, &text);
        let above = shared_above(&self.entries, &text);
        let (prefix, rest) = text.split_at(below.max(above) + 1);
        Ok(Some(ShortestRunIdPrefix {
            prefix: String::from_str(alloc, prefix)?,
            rest: String::from_str(alloc, rest)?,
        }))
    }
}

/// The hyphenated text of an id, in lower case.
fn text_of(alloc: Global, id: ReportUuid) -> Result<String, AllocError>
    ensures { IfOk result (IsTextOf id) }
{
    format!(in alloc; "{id}")
}

/// How much a text shares with the keys below it, of which the nearest shares most.
fn shared_below(entries: &BTreeMap<String, ReportUuid>, text: &String) -> usize
    ensures { IsMostShared (IsBelow text.now) entries.now text.now result }
{
    match entries.range(..text).next_back() {
        Some((key, _)) => common_len(key, text),
        None => 0,
    }
}

/// The same of the keys above it.
fn shared_above(entries: &BTreeMap<String, ReportUuid>, text: &String) -> usize
    ensures { IsMostShared (IsAbove text.now) entries.now text.now result }
{
    match entries
        .range((Bound::Excluded(text), Bound::Unbounded))
        .next()
    {
        Some((key, _)) => common_len(key, text),
        None => 0,
    }
}

/// How many bytes two texts have in common at their starts.
fn common_len(a: &str, b: &str) -> usize
    ensures { result ≡ common_prefix_len nat_eq a.now b.now }
{
    let (a, b) = (a.as_bytes(), b.as_bytes());
    let len = a.len().min(b.len());
    for i in 0..len {
        if a[i] != b[i] {
            return i;
        }
    }
    len
}
