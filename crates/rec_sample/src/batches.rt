//! Which tests run together.
ghost use Rattle.std.specs.Prelude.{◌≡◌, ◌<◌, ◌≤◌, ◌*◌};
ghost use Rattle.rec_sample.specs.Batches.{batch, slot, batch_count, batch_size};
ghost use Rattle.rec_sample.specs.Batches.{has_pause, running_after};

/// How many tests run together at most.
pub(crate) const SLOTS: u64 = 8;

/// Returns the batch of a test.
pub(crate) fn batch_of(i: u64) -> u64
    ensures { result ≡ batch i }
{
    i / SLOTS
}

/// Returns the slot of a test.
pub(crate) fn slot_of(i: u64) -> u64
    ensures { result ≡ slot i }
{
    i % SLOTS
}

/// Returns how many batches so many tests make.
pub(crate) fn batch_count(tests: u64) -> u64
    ensures { result ≡ batch_count tests }
{
    tests.div_ceil(SLOTS)
}

/// Returns how many of the tests are in a batch.
pub(crate) fn batch_size(tests: u64, batch: u64) -> u64
    requires { 8 * batch ≤ tests }
    ensures { result ≡ batch_size tests batch }
{
    SLOTS.min(tests - SLOTS * batch)
}

/// Returns whether the run pauses in a batch.
pub(crate) fn has_pause(batch: u64) -> bool
    ensures { result ≡ has_pause batch }
{
    batch % 10 == 9
}

/// Returns how many tests run once a test has finished.
pub(crate) fn running_after(tests: u64, i: u64) -> u64
    requires { i < tests }
    ensures { result ≡ running_after tests i }
{
    batch_size(tests, batch_of(i)) - (slot_of(i) + 1)
}
