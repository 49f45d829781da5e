//! The setting by which spans get their rows and their names.

/// Says as which process and thread a test is drawn, and under which name, as
/// `docs/FORMATS.md#spans-and-rows` says.
#[derive(Clone, Copy, PartialEq, Eq, Debug)]
pub enum ChromeTraceGroupBy {
    /// A process for each binary, with a thread for each slot. A test has its name.
    Binary,
    /// A thread for each slot, all of one process. A test has its binary and its name.
    Slot,
}
