//! How far a run is.
ghost use Rattle.std.specs.Prelude.{◌≡◌, ◌++◌, List};
ghost use Rattle.rec_slots.specs.Beats.{changed_run, is_done, phase_of};
ghost use Rattle.rec_slots.specs.Runs.{RunMark, is_begun};

use crate::beats::Change;

/// Says how far a run is: it hasn't started, goes on, or is over; or there is more than one start
/// and one end of a run, or an end first.
#[derive(Clone, Copy)]
pub(crate) enum RunPhase {
    Before,
    Running,
    Over,
    Several,
}

impl RunPhase {
    /// Returns whether the run goes on.
    pub(crate) fn is_running(self) -> bool
        ensures { (marks : List RunMark) → self ≡ phase_of marks → result ≡ is_begun marks }
    {
        match self {
            RunPhase::Running => true,
            RunPhase::Before | RunPhase::Over | RunPhase::Several => false,
        }
    }

    /// Returns whether the run is over, and there was no other.
    pub(crate) fn is_over(self) -> bool
        ensures { (marks : List RunMark) → self ≡ phase_of marks → result ≡ is_done marks }
    {
        match self {
            RunPhase::Over => true,
            RunPhase::Before | RunPhase::Running | RunPhase::Several => false,
        }
    }

    /// Returns how far the run is after an event.
    pub(crate) fn after(self, change: Change) -> RunPhase
        ensures { (marks : List RunMark)
            → self ≡ phase_of marks
            → result ≡ phase_of (marks ++ changed_run change) }
    {
        match (self, change) {
            (RunPhase::Before, Change::RunStarts) => RunPhase::Running,
            (RunPhase::Running, Change::RunEnds) => RunPhase::Over,
            (_, Change::RunStarts) => RunPhase::Several,
            (_, Change::RunEnds) => RunPhase::Several,
            _ => self,
        }
    }
}
