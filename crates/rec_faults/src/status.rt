//! The statuses that the program ends with.

/// Means that all was done. `docs/CLI.md#statuses-and-lines` lists all statuses.
pub const SUCCESS: u8 = 0;
/// Means that the words of the command line are faulty.
pub const FAULTY_WORDS: u8 = 2;
/// Means that standard input failed.
pub const SOURCE_FAILED: u8 = 3;
/// Means that a session or a bundle is longer than its limit.
pub const TOO_LONG: u8 = 4;
/// Means that a line is neither blank nor what it has to be.
pub const FAULTY_LINE: u8 = 5;
/// Means that an output clashes with another.
pub const NAME_COLLISION: u8 = 6;
/// Means that a manifest, a log or an entry of a store is longer than the read limit.
pub const ABOVE_READ_LIMIT: u8 = 7;
/// Means that an event contradicts those before it.
pub const OUT_OF_ORDER: u8 = 8;
/// Means that a number is out of range.
pub const OUT_OF_RANGE: u8 = 9;
/// Means that the file of the bundle failed.
pub const BUNDLE_FAILED: u8 = 10;
/// Means that standard output failed.
pub const OUTPUT_FAILED: u8 = 11;
/// Means that the bytes on standard input are no bundle that is read.
pub const NO_BUNDLE: u8 = 12;
/// Means that an event can't be replayed or reported, or an output can't be shown.
pub const NO_EVENT: u8 = 13;
/// Means that the events of a log aren't those of one run whose slots can be reported.
pub const NO_USAGE: u8 = 14;
/// Means that nothing can be salvaged of a store.
pub const NOTHING_SALVAGED: u8 = 15;
/// Means that memory ran out.
pub const OUT_OF_MEMORY: u8 = 70;
