//! When what happens.
ghost use Rattle.std.specs.Prelude.{◌≡◌, ◌≤◌, ◌<◌, ◌+◌, ◌*◌};
ghost use Rattle.rec_sample.specs.Instants.{instant, run_start, test_start, test_end};
ghost use Rattle.rec_sample.specs.Instants.{pause_start, pause_end, run_end, seconds};

use crate::batches::{batch_count, batch_of, slot_of};
use rec_events::{Duration, Stamp};

/// When a run starts, in seconds since the Unix epoch.
const RUN_START: u64 = 1000;

/// How many seconds a batch takes.
const BATCH_SECONDS: u64 = 4;

/// Returns the instant at so many seconds and nanoseconds since the Unix epoch.
pub(crate) fn instant(secs: u64, nanos: u32) -> Stamp
    requires secs { secs ≤ 1000000000 }
    requires nanos { nanos < 1000000000 }
    ensures { result ≡ instant secs nanos }
{
    Stamp {
        secs: secs as i64,
        nanos,
        offset: 0,
    }
}

/// Returns the span of so many seconds.
pub(crate) fn seconds(secs: u64) -> Duration
    ensures { result ≡ seconds secs }
{
    Duration { secs, nanos: 0 }
}

/// Returns the instant in a batch at so many seconds after its start, on a slot.
fn in_batch(batch: u64, secs: u64, slot: u64) -> Stamp
    requires batch { batch ≤ 10000 }
    requires secs { secs < 4 }
    requires slot { slot < 8 }
    ensures { result ≡ instant (1000 + secs + 4 * batch) (1000 * slot) }
{
    instant(RUN_START + secs + BATCH_SECONDS * batch, 1000 * slot as u32)
}

/// Returns when the run starts.
pub(crate) fn run_start() -> Stamp
    ensures { result ≡ run_start }
{
    instant(RUN_START, 0)
}

/// Returns when a test starts.
pub(crate) fn test_start(i: u64) -> Stamp
    requires { i ≤ 10000 }
    ensures { result ≡ test_start i }
{
    in_batch(batch_of(i), 0, slot_of(i))
}

/// Returns when a test finishes.
pub(crate) fn test_end(i: u64) -> Stamp
    requires { i ≤ 10000 }
    ensures { result ≡ test_end i }
{
    in_batch(batch_of(i), 3, slot_of(i))
}

/// Returns when the run pauses in a batch.
pub(crate) fn pause_start(batch: u64) -> Stamp
    requires { batch ≤ 10000 }
    ensures { result ≡ pause_start batch }
{
    in_batch(batch, 1, 0)
}

/// Returns when it goes on.
pub(crate) fn pause_end(batch: u64) -> Stamp
    requires { batch ≤ 10000 }
    ensures { result ≡ pause_end batch }
{
    in_batch(batch, 2, 0)
}

/// Returns when the run ends.
pub(crate) fn run_end(tests: u64) -> Stamp
    requires { tests ≤ 10000 }
    ensures { result ≡ run_end tests }
{
    in_batch(batch_count(tests), 0, 0)
}
