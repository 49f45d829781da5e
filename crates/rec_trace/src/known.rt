//! What earlier events decide of the trace events of the next one.
ghost use Rattle.std.specs.Prelude.{◌≡◌, is_some, IfOk, OnErr, OnOk, option_copied};
ghost use Rattle.rec_events.specs.Tests.{test_eq};
ghost use Rattle.rec_spans.specs.Keys.{row_eq};
ghost use Rattle.rec_spans.specs.Plain.{plain_kind};
ghost use Rattle.rec_trace.specs.Entries.{EachSays, EachSaysBut};
ghost use Rattle.rec_trace.specs.Held.{IsCountOf};
ghost use Rattle.rec_trace.specs.Known.{SameKnown, nothing_known};
ghost use Rattle.rec_trace.specs.KnownNews.{HasRoom, Tells, known_in, known_with};

mod names;
mod news;
mod notes;

use crate::run_start::RunStart;
use names::Names;
pub use news::News;
use news::{new_test, news_of, row_to_name};
use notes::Notes;
use rec_events::{OutputSpec, OwnedTestInstanceId, TestEventSummary, TestGroup};
use rec_spans::Span;
use rec_trace_events::Row;
use std::alloc::{AllocError, Global};

/// Keeps what earlier events decide of what the next one draws.
#[derive(Drop)]
pub struct Known {
    names: Names,
    /// How many tests run, by the last event that says so.
    running: usize,
    last_run: Option<RunStart>,
    notes: Notes,
}

impl Known {
    /// Knows of no event so far.
    pub fn new(alloc: Global) -> Known
        ensures none { SameKnown (known_in result) nothing_known }
        ensures says { EachSays result }
    {
        Known {
            names: Names::new(alloc),
            running: 0,
            last_run: None,
            notes: Notes::new(alloc),
        }
    }

    /// Returns whether a row was named. The first row of a process stands for the process.
    pub fn is_named(&self, row: Row) -> bool
        ensures { result ≡ (known_in self.now).is_named row }
    {
        self.names.is_named(row)
    }

    /// Returns how many tests run, by the last event that says so.
    pub fn running(&self) -> usize
        ensures { result ≡ (known_in self.now).running }
    {
        self.running
    }

    /// Returns the last start of a run.
    pub fn last_run(&self) -> &Option<RunStart>
        ensures { result.now ≡ (known_in self.now).last_run }
    {
        &self.last_run
    }

    /// Returns the group in which the open attempt of a test was started.
    pub fn group(&self, test: &OwnedTestInstanceId) -> Option<&TestGroup>
        ensures { option_copied result ≡ (known_in self.now).group test.now }
    {
        self.notes.group(test)
    }

    /// Returns the number of the arrow that is pending for a test.
    pub fn arrow(&self, test: &OwnedTestInstanceId) -> Option<u64>
        ensures { result ≡ (known_in self.now).arrow test.now }
    {
        self.notes.arrow(test)
    }

    /// Counts the rows that were named.
    pub fn named(&self) -> usize
        ensures { EachSays self.now → IsCountOf row_eq (known_in self.now).is_named result }
    {
        self.names.count()
    }

    /// Counts the tests of which an arrow is pending.
    pub fn pending(&self) -> usize
        ensures { IsCountOf test_eq (λ test. is_some ((known_in self.now).arrow test)) result }
    {
        self.notes.pending()
    }

    /// Takes all memory that it takes to know of an event, which has this next flow number and
    /// starts this span. What is known stays the same, whatever the answer is.
    ///
    /// # Errors
    ///
    /// Fails only where memory ran out.
    pub fn prepare<S: OutputSpec>(
        &mut self,
        alloc: Global,
        flow: u64,
        started: &Option<Span>,
        event: &TestEventSummary<S>,
    ) -> Result<News, AllocError>
        ensures same { SameKnown (known_in self.new) (known_in self.old) }
        ensures room { IfOk result (λ news. HasRoom news self.new) }
        ensures tells { IfOk result (Tells flow started.now (plain_kind event.now.kind)) }
        ensures says { IfOk result (λ news. EachSays self.old → EachSaysBut news self.new) }
        ensures err { OnErr result (EachSays self.old → EachSays self.new) }
    {
        let row = row_to_name(started, &event.kind);
        let test = new_test(flow, &event.kind);
        let news = news_of(alloc, row, test, &event.kind)?;
        match self.make_room(alloc, &news) {
            Ok(()) => Ok(news),
            Err(AllocError) => {
                self.let_go(news);
                Err(AllocError)
            }
        }
    }

    /// Makes room for the news of an event.
    fn make_room(&mut self, alloc: Global, news: &News) -> Result<(), AllocError>
        ensures same { SameKnown (known_in self.new) (known_in self.old) }
        ensures room { OnOk result (HasRoom news.now self.new) }
        ensures says { EachSays self.old → EachSaysBut news.now self.new }
    {
        self.names.make_room(news.row)?;
        self.notes.make_room(alloc, &news.test)
    }

    /// Takes the news of an event for which room was made. It takes no memory.
    pub fn take(&mut self, news: News)
        requires { HasRoom news self.old }
        ensures known { SameKnown (known_in self.new) (known_with news (known_in self.old)) }
        ensures says { EachSaysBut news self.old → EachSays self.new }
    {
        self.names.name(news.row);
        self.running = news.running.unwrap_or(self.running);
        self.last_run = news.run.or(self.last_run.take());
        self.notes.take(news.test);
    }

    /// Lets the news of an event go, and the room that was made for it.
    /// What is known stays the same.
    pub fn let_go(&mut self, news: News)
        ensures same { SameKnown (known_in self.new) (known_in self.old) }
        ensures says { EachSaysBut news self.old → EachSays self.new }
    {
        self.names.let_go(news.row);
        self.notes.let_go(&news.test);
        drop(news);
    }
}
