//! How many tests have each verdict.
ghost use Rattle.std.specs.Prelude.{◌<◌, ◌^◌, List, [], ◌∷◌, ◌++◌, ◌-◌, length, map};
ghost use Rattle.rec_view.specs.Counts.{AreCounts};
ghost use Rattle.rec_view.specs.declared.verdicts.Verdict as told;

use crate::test_views::TestView;
use crate::verdicts::Verdict;

/// Counts tests by their verdicts.
#[derive(Clone, Copy, Drop)]
pub struct Counts {
    /// How many passed at their only attempt.
    pub passed: u64,
    /// How many are flaky and count as passed.
    pub flaky: u64,
    /// How many failed, those among them that are flaky and count as failed.
    pub failed: u64,
    /// How many were skipped.
    pub skipped: u64,
    /// How many started, and have no end.
    pub unfinished: u64,
    /// How many a run's end names as not seen.
    pub not_started: u64,
}

impl Counts {
    /// Counts nothing.
    fn none() -> Counts
        ensures { AreCounts [] result }
    {
        Counts {
            passed: 0,
            flaky: 0,
            failed: 0,
            skipped: 0,
            unfinished: 0,
            not_started: 0,
        }
    }

    /// Counts one test more.
    fn add(&mut self, verdict: Verdict)
        requires { (vs : List told.Verdict) × (length vs < 2 ^ 64 - 1) × AreCounts vs self.old }
        ensures { (vs : List told.Verdict) → AreCounts vs self.old
            → AreCounts (vs ++ verdict ∷ []) self.new }
    {
        match verdict {
            Verdict::Passed => self.passed += 1,
            Verdict::Flaky => self.flaky += 1,
            Verdict::Failed => self.failed += 1,
            Verdict::Skipped => self.skipped += 1,
            Verdict::Unfinished => self.unfinished += 1,
            Verdict::NotStarted => self.not_started += 1,
        }
    }
}

/// Counts tests by their verdicts.
pub(crate) fn counts_of(tests: &[TestView]) -> Counts
    ensures { AreCounts (map (λ test. test.verdict) tests.now) result }
{
    let mut counts = Counts::none();
    for test in tests {
        counts.add(test.verdict);
    }
    counts
}
