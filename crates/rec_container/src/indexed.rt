//! The entries of a container, found by their names.
ghost use Rattle.std.specs.Prelude.{◌≡◌, [], ◌∷◌, ◌++◌, is_some, None, IfOk, OnOk, OnErr};
ghost use Rattle.rec_container.specs.Container.{content_of};
ghost use Rattle.rec_container.specs.Placed.{placed_entries};
ghost use Rattle.rec_container.specs.Sorted.{IsSortedOf};

use std::alloc::{AllocError, Global};
use std::collections::BTreeMap;
use std::marker::Model;

/// Holds an entry, and where its content begins.
#[derive(Clone, Copy)]
pub(crate) struct PlacedEntry<'a> {
    pub(crate) name: &'a str,
    pub(crate) content: &'a [u8],
    pub(crate) place: usize,
}

/// Holds the entries read so far in their order, and an index of their contents by name: a map,
/// since each name is looked up, and is to be put in its place, before the next entry is read.
#[derive(Drop)]
pub(crate) struct IndexedEntries<'a> {
    entries: Vec<PlacedEntry<'a>>,
    index: BTreeMap<&'a str, &'a [u8]>,
}

impl<'a> Model for IndexedEntries<'a> {
    ghost use Rattle.std.specs.Prelude.{List};
    ghost use Rattle.rec_container.specs.declared.indexed.PlacedEntry.{PlacedEntry};
    ghost use Rattle.rec_container.specs.Sorted.{HasContents};

    ghost Value = { List PlacedEntry };

    ghost view = { λ e. e.entries.items };

    ghost invariant = { λ e. HasContents e.index.entries e.entries.items };
}

impl<'a> IndexedEntries<'a> {
    /// Makes a list without entries.
    pub(crate) fn new(alloc: Global) -> IndexedEntries<'a>
        ensures { result ≡ [] }
    {
        IndexedEntries {
            entries: Vec::new(alloc),
            index: BTreeMap::new(alloc),
        }
    }

    /// Adds an entry of a new name after the others. Without memory they stay as they are.
    pub(crate) fn push(&mut self, held: PlacedEntry<'a>) -> Result<(), AllocError>
        requires { content_of (placed_entries self.old) held.name.now ≡ None }
        ensures added { OnOk result (self.new ≡ self.old ++ held.entry ∷ []) }
        ensures unchanged { OnErr result (self.new ≡ self.old) }
    {
        self.entries.reserve(1)?;
        self.index.insert(held.name, held.content)?;
        self.entries.push(held).unwrap();
        Ok(())
    }

    /// Returns whether an entry has this name.
    pub(crate) fn contains(&self, name: &str) -> bool
        ensures { result ≡ is_some (content_of (placed_entries self.now) name.now) }
    {
        self.index.contains_key(name)
    }

    /// Returns the entries in their order, and their contents in the order of the names.
    pub(crate) fn into_sorted(
        self,
        alloc: Global,
    ) -> Result<(Vec<PlacedEntry<'a>>, Vec<(&'a str, &'a [u8])>), AllocError>
        ensures entries { IfOk result (λ r. r.0.items ≡ self.entry) }
        ensures sorted { IfOk result (λ r. IsSortedOf r.1.items self.entry) }
    {
        let IndexedEntries { entries, index } = self;
        let sorted = index.into_iter().collect(alloc)?;
        Ok((entries, sorted))
    }
}
