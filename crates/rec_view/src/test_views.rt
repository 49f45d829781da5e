//! What became of a test, and its attempts.
ghost use Rattle.std.specs.Prelude.{◌≡◌, OnOk};
ghost use Rattle.rec_view.specs.Rows.{row_of};
ghost use Rattle.rec_view.specs.Walked.{closed, ended, retried};

use crate::verdicts::Verdict;
use rec_events::OwnedTestInstanceId;
use std::alloc::AllocError;

/// Holds where an attempt of a test stands among the events of its run, as numbers of events
/// before it.
#[derive(Clone, Copy, Drop)]
pub struct Attempt {
    /// How many events stand before the one that starts the attempt.
    pub from: u64,
    /// How many events stand before the first one that stops the attempt, or that starts another
    /// one of its test; `None` where no event does.
    pub to: Option<u64>,
}

/// Holds what became of a test, and its attempts.
#[derive(Drop)]
pub struct TestView {
    /// How many events stand before the one that opens the test.
    pub at: u64,
    /// The binary and the name of the test.
    pub test: OwnedTestInstanceId,
    /// What became of it.
    pub verdict: Verdict,
    /// Its attempts, in order.
    pub attempts: Vec<Attempt>,
}

impl TestView {
    /// Ends the last attempt at the event of a number, if it has no end.
    pub(crate) fn close(&mut self, number: u64)
        ensures { row_of self.new ≡ closed number (row_of self.old) }
    {
        let count = self.attempts.len();
        if count > 0 {
            let last = &mut self.attempts[count - 1];
            last.to = last.to.or(Some(number));
        }
    }

    /// Ends the last attempt at the event of a number, and starts another one there.
    pub(crate) fn retry(&mut self, number: u64) -> Result<(), AllocError>
        ensures ok { OnOk result (row_of self.new ≡ retried number (row_of self.old)) }
    {
        self.close(number);
        self.attempts.push(Attempt {
            from: number,
            to: None,
        })?;
        Ok(())
    }

    /// Ends the test at the event of a number.
    pub(crate) fn end(&mut self, number: u64, verdict: Verdict)
        ensures { row_of self.new ≡ ended verdict number (row_of self.old) }
    {
        self.close(number);
        self.verdict = verdict;
    }
}
