//! Counts.
ghost use Rattle.std.specs.Prelude.{◌≡◌, ℕ, ◌<◌, ◌↔◌, IsSome, IfSome};

use std::marker::Model;

/// Holds a count of at least one.
#[derive(Clone, Copy, PartialEq, Eq, Drop)]
pub struct NonZeroCount {
    value: u32,
}

impl Model for NonZeroCount {
    ghost use Rattle.std.specs.Prelude.{ℕ, ◌<◌};

    ghost Value = { ℕ };

    ghost view = { λ n. n.value };

    ghost invariant = { λ n. 0 < n.value };

    ghost inverse = { λ n. record { value = n } };
}

impl NonZeroCount {
    /// Makes a count of this number; `None` where it is zero.
    pub fn new(value: u32) -> Option<NonZeroCount>
        ensures some { IsSome result ↔ (0 < value) }
        ensures value { IfSome result (λ n. n ≡ value) }
    {
        if value > 0 {
            Some(NonZeroCount { value })
        } else {
            None
        }
    }

    /// Returns the number.
    pub fn get(&self) -> u32
        ensures value { result ≡ self.now }
        ensures positive { 0 < result }
    {
        self.value
    }
}
