//! What a run of the program is lent, and gives back.

use rec_container::{Sink, Source};
use rec_disk::Disk;
use rec_live_recording::RunFiles;

/// Holds what the program reads and writes.
#[derive(Drop)]
pub struct Streams<S: Source, B: Sink, F: Sink, D: Disk, T: Sink, G: Sink> {
    /// Gives what stands on standard input.
    pub source: S,
    /// Takes the bundle of a command that writes one.
    pub bundle: B,
    /// Take the files of a run that is recorded while it goes on.
    pub files: RunFiles<F, F, F>,
    /// Keeps the directory of a run that is packed, and its bundle.
    pub disk: D,
    /// Takes what is printed.
    pub out: T,
    /// Takes the line of a fault.
    pub diag: G,
}

/// Says how a run of the program ended, and gives back what it was lent.
#[derive(Drop)]
pub struct Ended<S: Source, B: Sink, F: Sink, D: Disk, T: Sink, G: Sink> {
    /// The status to end with.
    pub status: u8,
    /// What the program read and wrote.
    pub streams: Streams<S, B, F, D, T, G>,
}
