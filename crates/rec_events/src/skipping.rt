//! Why tests are skipped, and which of these a report names.
ghost use Rattle.std.specs.Prelude.{◌≡◌};
ghost use Rattle.rec_events.specs.Skipping.{reports};

/// Says why a test doesn't run.
#[derive(Clone, Copy, PartialEq, Eq, Drop)]
pub enum MismatchReason {
    /// It is no benchmark, and benchmarks are run.
    NotBenchmark,
    /// Ignored tests are left out, or are the only ones that run.
    Ignored,
    /// Its name doesn't match the texts that are asked for.
    String,
    /// It doesn't match the filter expressions.
    Expression,
    /// It belongs to another partition of the tests.
    Partition,
    /// It passed in the run that is run again.
    RerunAlreadyPassed,
    /// The default filter of the profile leaves it out.
    DefaultFilter,
}

/// Says which skipped tests a JUnit report names.
#[derive(Clone, Copy, PartialEq, Eq, Drop)]
pub enum ReportSkipPolicy {
    /// It names none.
    None,
    /// Only those that are ignored.
    Ignored,
    /// It names all of them.
    All,
}

impl ReportSkipPolicy {
    /// Returns whether a report names a test that is skipped for this reason.
    pub fn should_report(&self, reason: MismatchReason) -> bool
        ensures { result ≡ reports self.now reason }
    {
        match self {
            ReportSkipPolicy::None => false,
            ReportSkipPolicy::Ignored => reason == MismatchReason::Ignored,
            ReportSkipPolicy::All => true,
        }
    }
}
