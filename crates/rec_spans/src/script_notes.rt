//! The open setup scripts, found by their ids.
ghost use Rattle.std.specs.BTreeMap.{get_by_text};
ghost use Rattle.std.specs.Prelude.{◌≡◌, [], true, false, None, OnOk, OnErr};
ghost use Rattle.rec_spans.specs.Noted.{is_noted, AreSame, IsLeast, NoneIsEmpty, Renotes};

use std::alloc::{AllocError, Global};
use std::collections::{BTreeMap, BTreeSet};

/// Notes the indexes of the open setup scripts under their ids, in order. An id is kept only as
/// long as an index is noted under it.
#[derive(Drop)]
pub(crate) struct ScriptNotes {
    notes: BTreeMap<String, BTreeSet<usize>>,
}

impl ScriptNotes {
    /// Makes the collection without an index.
    pub(crate) fn new(alloc: Global) -> ScriptNotes
        ensures { result.notes.entries ≡ [] }
    {
        ScriptNotes {
            notes: BTreeMap::new(alloc),
        }
    }

    /// Returns the smallest index under an id, where there is one.
    pub(crate) fn first(&self, id: &str) -> Option<usize>
        ensures { IsLeast (is_noted self.now.notes id.now) result }
    {
        match self.notes.get(id) {
            Some(indexes) => indexes.first().copied(),
            None => None,
        }
    }

    /// Notes an index under an id.
    ///
    /// # Errors
    ///
    /// Fails only where memory ran out. Nothing is noted then.
    pub(crate) fn note(&mut self, alloc: Global, id: &str, index: usize) -> Result<(), AllocError>
        ensures ok { OnOk result (Renotes true self.old.notes id.now index self.new.notes) }
        ensures err { OnErr result (AreSame self.old.notes self.new.notes) }
        ensures none_empty { NoneIsEmpty self.old.notes → NoneIsEmpty self.new.notes }
    {
        let Some(indexes) = self.notes.get_mut(id) else {
            return self.note_first(alloc, id, index);
        };
        indexes.insert(index)?;
        Ok(())
    }

    /// Notes the first index under an id.
    fn note_first(&mut self, alloc: Global, id: &str, index: usize) -> Result<(), AllocError>
        requires { get_by_text self.old.notes id.now ≡ None }
        ensures ok { OnOk result (Renotes true self.old.notes id.now index self.new.notes) }
        ensures err { OnErr result (AreSame self.old.notes self.new.notes) }
        ensures none_empty { NoneIsEmpty self.old.notes → NoneIsEmpty self.new.notes }
    {
        let mut indexes = BTreeSet::new(alloc);
        indexes.insert(index)?;
        drop(self.notes.insert(String::from_str(alloc, id)?, indexes)?);
        Ok(())
    }

    /// Takes an index out that is noted under an id, if it is.
    pub(crate) fn forget(&mut self, id: &str, index: usize)
        ensures forgotten { Renotes false self.old.notes id.now index self.new.notes }
        ensures none_empty { NoneIsEmpty self.old.notes → NoneIsEmpty self.new.notes }
    {
        let Some(indexes) = self.notes.get_mut(id) else {
            return;
        };
        indexes.remove(&index);
        if indexes.is_empty() {
            drop(self.notes.remove(id));
        }
    }
}
