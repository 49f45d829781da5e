//! Instants and spans of time.
ghost use Rattle.std.specs.Int.{w64};
ghost use Rattle.std.specs.Prelude.{◌≡◌, ◌<◌, ◌==◌, ◌&&◌, ◌↔◌, IsSome, IfSome, FitsSigned};
ghost use Rattle.rec_events.specs.Times.{micros};

use std::marker::Model;

/// Holds a span of time: whole seconds, and nanoseconds below 1000000000.
/// `docs/FORMATS.md#rules-for-json` has its JSON.
#[derive(Clone, Copy, PartialEq, Eq, Drop)]
pub struct Duration {
    /// Whole seconds.
    pub secs: u64,
    /// Nanoseconds beside them, from 0 to 999999999.
    pub nanos: u32,
}

impl Model for Duration {
    ghost use Rattle.std.specs.Prelude.{◌<◌};
    ghost use Rattle.rec_events.specs.Times.{Span};

    ghost Value = { Span };

    ghost view = { λ d. record { secs = d.secs; nanos = d.nanos } };

    ghost invariant = { λ d. d.nanos < 1000000000 };

    ghost inverse = { λ d. record { secs = d.secs; nanos = d.nanos } };
}

impl Duration {
    /// Makes the span of these numbers; `None` where `nanos` is a whole second or more.
    pub fn new(secs: u64, nanos: u32) -> Option<Duration>
        ensures some { IsSome result ↔ (nanos < 1000000000) }
        ensures fields { IfSome result (λ d. d ≡ record { secs = secs; nanos = nanos }) }
    {
        if nanos < 1000000000 {
            Some(Duration { secs, nanos })
        } else {
            None
        }
    }

    /// Returns whether the span is no time at all.
    pub fn is_zero(&self) -> bool
        ensures { result ≡ (self.now.secs == 0 && self.now.nanos == 0) }
    {
        self.secs == 0 && self.nanos == 0
    }
}

/// Holds an instant: seconds and nanoseconds (below 1000000000) since the Unix epoch, and the
/// offset of its clock's zone in seconds. `docs/FORMATS.md#rules-for-json` has its JSON.
#[derive(Clone, Copy, PartialEq, Eq, Drop)]
pub struct Stamp {
    /// Whole seconds since the Unix epoch; below 0 before it.
    pub secs: i64,
    /// Nanoseconds after them, from 0 to 999999999.
    pub nanos: u32,
    /// The offset of its clock's zone from UTC, in seconds.
    pub offset: i32,
}

impl Model for Stamp {
    ghost use Rattle.std.specs.Prelude.{◌<◌};
    ghost use Rattle.rec_events.specs.Times.{Moment};

    ghost Value = { Moment };

    ghost view = { λ s. record { secs = s.secs; nanos = s.nanos; offset = s.offset } };

    ghost invariant = { λ s. s.nanos < 1000000000 };

    ghost inverse = { λ s. record { secs = s.secs; nanos = s.nanos; offset = s.offset } };
}

impl Stamp {
    /// Makes the instant of these numbers; `None` where `nanos` is a whole second or more.
    pub fn new(secs: i64, nanos: u32, offset: i32) -> Option<Stamp>
        ensures some { IsSome result ↔ (nanos < 1000000000) }
        ensures fields { IfSome result
            (λ s. s ≡ record { secs = secs; nanos = nanos; offset = offset }) }
    {
        if nanos < 1000000000 {
            Some(Stamp {
                secs,
                nanos,
                offset,
            })
        } else {
            None
        }
    }

    /// Returns the whole microseconds since the Unix epoch; `None` exactly where they are no i64.
    pub fn microseconds(&self) -> Option<i64>
        ensures some { IsSome result ↔ FitsSigned w64 (micros self.now) }
        ensures value { IfSome result (λ m. m ≡ micros self.now) }
    {
        let micros = self.secs as i128 * 1_000_000 + (self.nanos / 1000) as i128;
        i64::try_from(micros).ok()
    }
}
