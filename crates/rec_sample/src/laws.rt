//! Laws of generated sessions. The functions do nothing: their contracts are what they are for.
ghost use Rattle.std.specs.Prelude.{◌≡◌, ◌+◌, ◌*◌, ◌/◌, ℕ, length};
ghost use Rattle.rec_sample.specs.Batches.{batch_count};
ghost use Rattle.rec_sample.specs.Events.{sample_events};

/// States how many events a generated session has: two of the run, two of each test, and a pause
/// and a continuation in every tenth batch.
pub fn event_counts()
    ensures { (n : ℕ) → length (sample_events n) ≡ 2 + 2 * n + 2 * (batch_count n / 10) }
{}
