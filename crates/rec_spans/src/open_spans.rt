//! The spans that are open at once.
ghost use Rattle.std.specs.Prelude.{◌≡◌, [], length, false, Some, not, OnOk, OnErr};
ghost use Rattle.std.specs.Prelude.{option_copied, option_to_list, slice_get};
ghost use Rattle.rec_spans.specs.declared.spans.Place.TheVariants as places;
ghost use Rattle.rec_spans.specs.declared.spans.SpanKey.TheVariants as keys;
ghost use Rattle.rec_spans.specs.Past.{in_place, of_key, put_in, without};
ghost use Rattle.rec_spans.specs.Refusals.{is_none_open, is_script, scripts_in, under};
ghost use Rattle.rec_spans.specs.Tied.{PutsIn, SetsSlot, TakesOut, place_of};

use crate::script_notes::ScriptNotes;
use crate::spans::{Place, Span};
use rec_events::{OwnedTestInstanceId, ScriptId, TryClone};
use std::alloc::{AllocError, Global};
use std::collections::BTreeMap;
use std::collections::btree_map::Values;
use std::marker::Model;

/// Keeps the spans that are open, found by their place and by what they are of. Contracts see them
/// in the order of their places.
#[derive(Drop)]
pub struct OpenSpans {
    /// The slot of each test of which an attempt is open.
    slots: BTreeMap<OwnedTestInstanceId, u64>,
    /// The indexes of the open setup scripts, by their ids.
    scripts: ScriptNotes,
    spans: BTreeMap<Place, Span>,
}

impl Model for OpenSpans {
    ghost use Rattle.std.specs.Map.{values_of};
    ghost use Rattle.std.specs.Prelude.{List};
    ghost use Rattle.rec_spans.specs.declared.spans.Span.{Span};
    ghost use Rattle.rec_spans.specs.Noted.{AreNoted, NoneIsEmpty};
    ghost use Rattle.rec_spans.specs.Tied.{AreTied};

    ghost Value = { List Span };

    ghost view = { λ o. values_of o.spans.entries };

    ghost invariant = { λ o. AreTied o.slots.entries o.spans.entries
        × AreNoted o.scripts.notes o.spans.entries × NoneIsEmpty o.scripts.notes };
}

impl OpenSpans {
    /// Makes the collection without an open span.
    pub(crate) fn new(alloc: Global) -> OpenSpans
        ensures { result ≡ [] }
    {
        OpenSpans {
            slots: BTreeMap::new(alloc),
            scripts: ScriptNotes::new(alloc),
            spans: BTreeMap::new(alloc),
        }
    }

    /// Gives the open spans in the order of their places.
    pub fn iter(&self) -> Values<'_, Place, Span>
        ensures { result ≡ self.now }
    {
        self.spans.values()
    }

    /// Returns how many spans are open.
    pub fn len(&self) -> usize
        ensures { result ≡ length self.now }
    {
        self.spans.len()
    }

    /// Returns the span of the run, where it is open.
    pub fn run(&self) -> Option<&Span>
        ensures { option_to_list (option_copied result) ≡ of_key keys.Run self.now }
    {
        self.spans.get(&Place::Run)
    }

    /// Returns the span of the sub-run, where it is open.
    pub fn sub_run(&self) -> Option<&Span>
        ensures { option_to_list (option_copied result) ≡ of_key keys.SubRun self.now }
    {
        self.spans.get(&Place::SubRun)
    }

    /// Returns the span of the setup script of an index, where it is open.
    pub fn script(&self, index: usize) -> Option<&Span>
        ensures { option_to_list (option_copied result) ≡ of_key (keys.Script index) self.now }
    {
        self.spans.get(&Place::Script(index))
    }

    /// Returns whether the setup script of an index is open under an id.
    pub(crate) fn is_script_under(&self, index: usize, id: &ScriptId) -> bool
        ensures { result ≡ not (is_none_open (under id.now (of_key (keys.Script index) self.now))) }
    {
        match self.script(index) {
            Some(span) => span.name.as_str() == id.as_str(),
            None => false,
        }
    }

    /// Returns the open setup script of an id that has the smallest index, where there is one.
    pub fn some_script(&self, id: &ScriptId) -> Option<&Span>
        ensures { option_copied result ≡ slice_get (under id.now (scripts_in self.now)) 0 }
    {
        // what the first is rests on the order of the places
        let _ordered = self.spans.len();
        let first = self.scripts.first(id.as_str())?;
        self.spans.get(&Place::Script(first))
    }

    /// Returns the span of the open attempt of a test, where there is one.
    pub fn test(&self, test: &OwnedTestInstanceId) -> Option<&Span>
        ensures { option_to_list (option_copied result) ≡ of_key (keys.Test test.now) self.now }
    {
        let slot = self.slots.get(test)?;
        self.spans.get(&Place::Slot(*slot))
    }

    /// Returns the span of the test that runs on a slot, where one does.
    pub(crate) fn on_slot(&self, slot: u64) -> Option<&Span>
        ensures { option_to_list (option_copied result) ≡ in_place (places.Slot slot) self.now }
    {
        self.spans.get(&Place::Slot(slot))
    }

    /// Opens the span of the run or of the sub-run.
    ///
    /// # Errors
    ///
    /// Fails only where memory ran out. Nothing is opened then.
    pub(crate) fn open(&mut self, span: Span) -> Result<(), AllocError>
        requires place { place_of [] span.key ≡ Some span.place }
        requires no_script { is_script span.key ≡ false }
        requires key_free { of_key span.key self.old ≡ [] }
        ensures ok { OnOk result (self.new ≡ put_in span self.old) }
        ensures err { OnErr result (self.new ≡ self.old) }
    {
        put(&mut self.spans, span)?;
        Ok(())
    }

    /// Opens the span of a setup script, whose name is the script's id.
    ///
    /// # Errors
    ///
    /// Fails only where memory ran out. Nothing is opened then.
    pub(crate) fn open_script(
        &mut self,
        alloc: Global,
        index: usize,
        id: &ScriptId,
        span: Span,
    ) -> Result<(), AllocError>
        requires key { span.key ≡ keys.Script index }
        requires place { span.place ≡ places.Script index }
        requires name { span.name ≡ id.now }
        requires key_free { of_key span.key self.old ≡ [] }
        ensures ok { OnOk result (self.new ≡ put_in span self.old) }
        ensures err { OnErr result (self.new ≡ self.old) }
    {
        let Ok(()) = self.scripts.note(alloc, id.as_str(), index) else {
            drop(span);
            return Err(AllocError);
        };
        match put(&mut self.spans, span) {
            Ok(()) => Ok(()),
            Err(AllocError) => {
                self.scripts.forget(id.as_str(), index);
                Err(AllocError)
            }
        }
    }

    /// Opens the span of an attempt of a test, on a slot.
    ///
    /// # Errors
    ///
    /// Fails only where memory ran out. Nothing is opened then.
    pub(crate) fn open_test(
        &mut self,
        alloc: Global,
        test: &OwnedTestInstanceId,
        slot: u64,
        span: Span,
    ) -> Result<(), AllocError>
        requires key { span.key ≡ keys.Test test.now }
        requires place { span.place ≡ places.Slot slot }
        requires key_free { of_key span.key self.old ≡ [] }
        requires place_free { in_place span.place self.old ≡ [] }
        ensures ok { OnOk result (self.new ≡ put_in span self.old) }
        ensures err { OnErr result (self.new ≡ self.old) }
    {
        let Ok(()) = note_slot(&mut self.slots, alloc, test, slot) else {
            drop(span);
            return Err(AllocError);
        };
        match put(&mut self.spans, span) {
            Ok(()) => Ok(()),
            Err(AllocError) => {
                self.slots.remove(test);
                Err(AllocError)
            }
        }
    }

    /// Closes the span of the open attempt of a test, if there is one.
    pub(crate) fn close_test(&mut self, test: &OwnedTestInstanceId)
        ensures { self.new ≡ without (keys.Test test.now) self.old }
    {
        if let Some(slot) = self.slots.remove(test) {
            take(&mut self.spans, Place::Slot(slot));
        }
    }

    /// Closes the span of the run, if it is open.
    pub(crate) fn close_run(&mut self)
        ensures { self.new ≡ without keys.Run self.old }
    {
        take(&mut self.spans, Place::Run);
    }

    /// Closes the span of the sub-run, if it is open.
    pub(crate) fn close_sub_run(&mut self)
        ensures { self.new ≡ without keys.SubRun self.old }
    {
        take(&mut self.spans, Place::SubRun);
    }

    /// Closes the span of the setup script of an index, if it is open.
    pub(crate) fn close_script(&mut self, index: usize)
        ensures { self.new ≡ without (keys.Script index) self.old }
    {
        if let Some(span) = self.spans.get(&Place::Script(index)) {
            self.scripts.forget(span.name.as_str(), index);
            take(&mut self.spans, Place::Script(index));
        }
    }
}

/// Puts a span in at its place. Where memory is short, nothing changes.
fn put(spans: &mut BTreeMap<Place, Span>, span: Span) -> Result<(), AllocError>
    ensures ok { OnOk result (PutsIn span spans.old.entries spans.new.entries) }
    ensures err { OnErr result (spans.new.entries ≡ spans.old.entries) }
{
    drop(spans.insert(span.place, span)?);
    Ok(())
}

/// Takes the span out that stands at a place, if one does.
fn take(spans: &mut BTreeMap<Place, Span>, place: Place)
    ensures { TakesOut place spans.old.entries spans.new.entries }
{
    drop(spans.remove(&place));
}

/// Notes the slot of a test. Where memory is short, nothing changes.
fn note_slot(
    slots: &mut BTreeMap<OwnedTestInstanceId, u64>,
    alloc: Global,
    test: &OwnedTestInstanceId,
    slot: u64,
) -> Result<(), AllocError>
    ensures ok { OnOk result (SetsSlot test.now (Some slot) slots.old.entries slots.new.entries) }
    ensures err { OnErr result (slots.new.entries ≡ slots.old.entries) }
{
    slots.insert(test.try_clone(alloc)?, slot)?;
    Ok(())
}
