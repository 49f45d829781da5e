//! Where events of a trace stand, and of which kind they are.
ghost use Rattle.std.specs.Prelude.{◌≡◌};
ghost use Rattle.rec_trace_events.specs.TraceEvents.{category_text};

/// Names a row of a trace, which viewers show as a thread of a process.
/// `docs/FORMATS.md#spans-and-rows` says which row is whose.
#[derive(Clone, Copy, PartialEq, Eq, PartialOrd, Ord, Drop)]
pub struct Row {
    /// The number of the process.
    pub pid: u64,
    /// The number of the row, within its process.
    pub tid: u64,
}

/// Says what a slice is of, by which viewers can filter: the `cat` of
/// `docs/FORMATS.md#trace-events`.
#[derive(Clone, Copy, Drop)]
pub enum Category {
    /// The run.
    Run,
    /// One of a stress run's runs.
    Stress,
    /// A setup script.
    SetupScript,
    /// An attempt of a test.
    Test,
}

impl Category {
    /// Returns the category as it is written.
    pub fn as_str(self) -> &'static str
        ensures { result.now ≡ category_text self }
    {
        match self {
            Category::Run => "run",
            Category::Stress => "stress",
            Category::SetupScript => "setup-script",
            Category::Test => "test",
        }
    }
}
