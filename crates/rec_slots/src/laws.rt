//! Laws of the times of slots, as clauses of functions that do nothing.
ghost use Rattle.std.specs.Prelude.{ℕ, ℤ};
ghost use Rattle.rec_slots.specs.Gaps.GapKind.{busy, idle, paused};
ghost use Rattle.rec_slots.specs.Gaps.{AddsUp, GapKind, time_of};

/// States that the gaps of a slot add up to the time from the first event to the last.
pub fn gaps_add_up()
    ensures { (instant : ℕ → ℤ) (kind : ℕ → GapKind) (a n : ℕ)
        → AddsUp instant kind a n (time_of instant kind busy a n) (time_of instant kind paused a n)
        (time_of instant kind idle a n) }
{}
