//! What is noted of tests: the groups of their open attempts, and their pending arrows.
ghost use Rattle.std.specs.Prelude.{◌≡◌, true, false, None, is_some, OnOk, option_copied};
ghost use Rattle.rec_events.specs.declared.instances.OwnedTestInstanceId.{OwnedTestInstanceId};
ghost use Rattle.rec_events.specs.Tests.{test_eq};
ghost use Rattle.rec_trace.specs.Entries.{EachTestSays, EachTestSaysBut, TestSays, notes_say};
ghost use Rattle.rec_trace.specs.Held.{IsCountOf};
ghost use Rattle.rec_trace.specs.Known.{of_test};
ghost use Rattle.rec_trace.specs.KnownMaps.{HasTest, HasTests, arrow_noted, arrow_with};
ghost use Rattle.rec_trace.specs.KnownMaps.{arrows_with, group_noted, groups_with};

use super::news::{ArrowNews, TestNews};
use rec_events::{OwnedTestInstanceId, TestGroup, TryClone};
use std::alloc::{AllocError, Global};
use std::collections::BTreeMap;

/// Holds what is noted of a test.
#[derive(Drop)]
pub struct TestNotes {
    /// The group in which its open attempt was started.
    pub group: Option<TestGroup>,
    /// The number of its pending arrow.
    pub arrow: Option<u64>,
}

/// Keeps the notes of each test. An empty note says as much as none: it is room for what an event
/// notes, and stays no longer than that event.
#[derive(Drop)]
pub struct Notes {
    tests: BTreeMap<OwnedTestInstanceId, TestNotes>,
}

impl Notes {
    /// Makes the collection without a note.
    pub fn new(alloc: Global) -> Notes
        ensures groups { (test : OwnedTestInstanceId) → group_noted result test ≡ None }
        ensures arrows { (test : OwnedTestInstanceId) → arrow_noted result test ≡ None }
        ensures says { EachTestSays result }
    {
        Notes {
            tests: BTreeMap::new(alloc),
        }
    }

    /// Returns the group in which the open attempt of a test was started.
    pub fn group(&self, test: &OwnedTestInstanceId) -> Option<&TestGroup>
        ensures { option_copied result ≡ group_noted self.now test.now }
    {
        match self.tests.get(test) {
            Some(notes) => notes.group.as_ref(),
            None => None,
        }
    }

    /// Returns the number of the arrow that is pending for a test.
    pub fn arrow(&self, test: &OwnedTestInstanceId) -> Option<u64>
        ensures { result ≡ arrow_noted self.now test.now }
    {
        match self.tests.get(test) {
            Some(notes) => notes.arrow,
            None => None,
        }
    }

    /// Counts the tests of which an arrow is pending.
    pub fn pending(&self) -> usize
        ensures { IsCountOf test_eq (λ test. is_some (arrow_noted self.now test)) result }
    {
        let mut count = 0;
        // that each test is counted once rests on the order of the map
        let _tests = self.tests.len();
        for notes in self.tests.values() {
            count += usize::from(notes.arrow.is_some());
        }
        count
    }

    /// Makes room for the notes of a test of which there is news.
    /// Nothing is noted by that, whatever the answer is.
    ///
    /// # Errors
    ///
    /// Fails only where memory ran out.
    pub fn make_room(&mut self, alloc: Global, news: &Option<TestNews>) -> Result<(), AllocError>
        ensures groups { (test : OwnedTestInstanceId)
            → group_noted self.new test ≡ group_noted self.old test }
        ensures arrows { (test : OwnedTestInstanceId)
            → arrow_noted self.new test ≡ arrow_noted self.old test }
        ensures room { OnOk result (HasTests news.now self.new) }
        ensures says { EachTestSays self.old → EachTestSaysBut news.now self.new }
    {
        match news {
            Some(news) => self.make_test(alloc, &news.test),
            None => Ok(()),
        }
    }

    /// Makes room for the notes of one test.
    fn make_test(&mut self, alloc: Global, test: &OwnedTestInstanceId) -> Result<(), AllocError>
        ensures groups { (other : OwnedTestInstanceId)
            → group_noted self.new other ≡ group_noted self.old other }
        ensures arrows { (other : OwnedTestInstanceId)
            → arrow_noted self.new other ≡ arrow_noted self.old other }
        ensures room { OnOk result (HasTest test.now self.new) }
        ensures says { (other : OwnedTestInstanceId)
            → test_eq test.now other ≡ false
            → TestSays self.old other
            → TestSays self.new other }
    {
        if self.tests.contains_key(test) {
            return Ok(());
        }
        let key = test.try_clone(alloc)?;
        let nothing = TestNotes {
            group: None,
            arrow: None,
        };
        drop(self.tests.insert(key, nothing)?);
        Ok(())
    }

    /// Takes the room away that was made for the notes of a test, unless something is noted of it.
    pub fn let_go(&mut self, news: &Option<TestNews>)
        ensures groups { (test : OwnedTestInstanceId)
            → group_noted self.new test ≡ group_noted self.old test }
        ensures arrows { (test : OwnedTestInstanceId)
            → arrow_noted self.new test ≡ arrow_noted self.old test }
        ensures says { EachTestSaysBut news.now self.old → EachTestSays self.new }
    {
        if let Some(news) = news {
            self.let_go_test(&news.test);
        }
    }

    /// Takes the room away that was made for the notes of one test.
    fn let_go_test(&mut self, test: &OwnedTestInstanceId)
        ensures groups { (other : OwnedTestInstanceId)
            → group_noted self.new other ≡ group_noted self.old other }
        ensures arrows { (other : OwnedTestInstanceId)
            → arrow_noted self.new other ≡ arrow_noted self.old other }
        ensures says { (other : OwnedTestInstanceId)
            → (test_eq test.now other ≡ false → TestSays self.old other)
            → TestSays self.new other }
    {
        if self.says_nothing(test) {
            drop(self.tests.remove(test));
        }
    }

    /// Returns whether nothing is noted of a test.
    fn says_nothing(&self, test: &OwnedTestInstanceId) -> bool
        ensures group { result ≡ true → group_noted self.now test.now ≡ None }
        ensures arrow { result ≡ true → arrow_noted self.now test.now ≡ None }
        ensures says { result ≡ false → TestSays self.now test.now }
    {
        self.group(test).is_none() && self.arrow(test).is_none()
    }

    /// Takes the news of a test, for which there is room. It takes no memory.
    pub fn take(&mut self, news: Option<TestNews>)
        requires { HasTests news self.old }
        ensures groups { (test : OwnedTestInstanceId)
            → group_noted self.new test ≡ groups_with news (group_noted self.old) test }
        ensures arrows { (test : OwnedTestInstanceId)
            → arrow_noted self.new test ≡ arrows_with news (arrow_noted self.old) test }
        ensures says { EachTestSaysBut news self.old → EachTestSays self.new }
    {
        if let Some(news) = news {
            self.take_news(news);
        }
    }

    /// Takes the news of a test.
    fn take_news(&mut self, news: TestNews)
        requires { HasTest news.test self.old }
        ensures groups { (test : OwnedTestInstanceId)
            → group_noted self.new test ≡ of_test news.test news.group (group_noted self.old) test }
        ensures arrows { (test : OwnedTestInstanceId)
            → arrow_noted self.new test
            ≡ of_test news.test (arrow_with news.arrow (arrow_noted self.old news.test))
            (arrow_noted self.old) test }
        ensures says { (other : OwnedTestInstanceId)
            → (test_eq news.test other ≡ false → TestSays self.old other)
            → TestSays self.new other }
    {
        let arrow = arrow_after(news.arrow, self.arrow(&news.test));
        let notes = TestNotes {
            group: news.group,
            arrow,
        };
        self.put(news.test, notes);
    }

    /// Puts notes of a test in the place of those before,
    /// and removes its entry where they are empty.
    fn put(&mut self, test: OwnedTestInstanceId, notes: TestNotes)
        requires { HasTest test self.old }
        ensures groups { (other : OwnedTestInstanceId)
            → group_noted self.new other ≡ of_test test notes.group (group_noted self.old) other }
        ensures arrows { (other : OwnedTestInstanceId)
            → arrow_noted self.new other ≡ of_test test notes.arrow (arrow_noted self.old) other }
        ensures says { (other : OwnedTestInstanceId)
            → (test_eq test other ≡ false → TestSays self.old other)
            → TestSays self.new other }
    {
        // The entries of tests that ended aren't kept for all of a long run.
        if notes.group.is_none() && notes.arrow.is_none() {
            drop(notes);
            self.forget(&test);
            drop(test);
            return;
        }
        self.replace(test, notes);
    }

    /// Removes the entry of a test.
    fn forget(&mut self, test: &OwnedTestInstanceId)
        ensures groups { (other : OwnedTestInstanceId)
            → group_noted self.new other ≡ of_test test.now None (group_noted self.old) other }
        ensures arrows { (other : OwnedTestInstanceId)
            → arrow_noted self.new other ≡ of_test test.now None (arrow_noted self.old) other }
        ensures says { (other : OwnedTestInstanceId)
            → (test_eq test.now other ≡ false → TestSays self.old other)
            → TestSays self.new other }
    {
        drop(self.tests.remove(test));
    }

    /// Replaces the notes of a test.
    fn replace(&mut self, test: OwnedTestInstanceId, notes: TestNotes)
        requires { HasTest test self.old }
        ensures groups { (other : OwnedTestInstanceId)
            → group_noted self.new other ≡ of_test test notes.group (group_noted self.old) other }
        ensures arrows { (other : OwnedTestInstanceId)
            → arrow_noted self.new other ≡ of_test test notes.arrow (arrow_noted self.old) other }
        ensures says { notes_say notes ≡ true
            → (other : OwnedTestInstanceId)
            → (test_eq test other ≡ false → TestSays self.old other)
            → TestSays self.new other }
    {
        // Only a new test can want memory.
        let Ok(before) = self.tests.insert(test, notes) else {
            unreachable!()
        };
        drop(before);
    }
}

/// Returns the arrow that is pending after news of it, by the one before.
fn arrow_after(news: ArrowNews, before: Option<u64>) -> Option<u64>
    ensures { result ≡ arrow_with news before }
{
    match news {
        ArrowNews::Stays => before,
        ArrowNews::Finishes => None,
        ArrowNews::Starts(flow) => Some(flow),
    }
}
