//! The events of a log, one after the other.
ghost use Rattle.std.specs.Prelude.{◌≡◌, ◌+◌, ◌<◌, ◌^◌, length};
ghost use Rattle.rec_codec.specs.LineItems.{left_after};
ghost use Rattle.rec_codec.specs.Lines.{lines, numbered};

use crate::{LineError, Lines, OutputForm, read_line};
use rec_events::TestEventSummary;
use rec_json::Scratch;
use std::alloc::Global;
use std::marker::{Model, PhantomData};

/// Goes over the lines of a log, in order: one item for each line that isn't blank, as `read_line`
/// reads it. After a line that gives no event it goes on with the next one. After `OutOfMemory` it
/// ends.
///
/// # Examples
///
/// The events of a log, whose first line has the number 1:
///
/// ```
/// for event in LineIter::<RecordingSpec>::new(alloc, log, 1) {
///     match event {
///         Ok(event) => println!(rt; "after {} s", event.elapsed.secs)?,
///         Err(error) => println!(rt; "{error}")?,
///     }
/// }
/// ```
#[derive(Drop)]
pub struct LineIter<'a, S: OutputForm> {
    alloc: Global,
    lines: Lines<'a>,
    // for the read of each line
    scratch: Scratch,
    spec: PhantomData<S>,
}

impl<'a, S: OutputForm> Model for LineIter<'a, S> {
    ghost use Rattle.std.specs.Prelude.{List};
    ghost use Rattle.rec_codec.specs.Lines.{NumberedLine};

    ghost Value = { List NumberedLine };

    ghost view = { λ l. l.lines };
}

impl<'a, S: OutputForm> LineIter<'a, S> {
    /// Makes an iterator over the lines of `text`, the first of which has the number `first_line`.
    /// The number of each line has to be a u64.
    pub fn new(alloc: Global, text: &'a [u8], first_line: u64) -> LineIter<'a, S>
        requires { first_line + length text.now < 2 ^ 64 }
        ensures { result ≡ numbered first_line (lines text.now) }
    {
        LineIter {
            alloc,
            lines: Lines::new(text, first_line),
            scratch: Scratch::new(alloc),
            spec: PhantomData,
        }
    }

    /// Ends the iterator after an item that says that there was not enough memory.
    fn end_where_out_of_memory(&mut self, item: &Result<TestEventSummary<S>, LineError>)
        ensures { self.new ≡ left_after item.now self.old }
    {
        if let Err(LineError::OutOfMemory) = item {
            self.lines = Lines::new(&[], 1);
        }
    }
}

impl<'a, S: OutputForm> Iterator for LineIter<'a, S> {
    ghost use Rattle.std.specs.Iterator.{item_count};
    ghost use Rattle.rec_codec.specs.EventForms.{event_form};
    ghost use Rattle.rec_codec.specs.LineItems.{GivesNext};

    type Item = Result<TestEventSummary<S>, LineError>;

    ghost next_gives = { GivesNext (event_form S.output_form) };

    ghost remaining = { item_count (λ lines. lines) };

    fn next(&mut self) -> Option<Result<TestEventSummary<S>, LineError>> {
        while let Some(line) = self.lines.next() {
            if let Some(item) = read_line(self.alloc, line, &mut self.scratch) {
                self.end_where_out_of_memory(&item);
                return Some(item);
            }
        }
        None
    }
}
