//! A sink that keeps nothing.
ghost use Rattle.std.specs.Prelude.{None};

use rec_container::{Sink, SinkFailed};

/// Takes all bytes, and keeps none. The store of a recording goes here: its writer has the entries
/// already, and the bundle is written from these.
#[derive(Drop)]
pub struct DiscardingSink;

impl Sink for DiscardingSink {
    ghost taken = { λ _. None };

    ghost faults = { λ _. 0 };

    fn write(&mut self, piece: &[u8]) -> Result<usize, SinkFailed> {
        Ok(piece.len())
    }
}
