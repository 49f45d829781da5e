//! The spans of time of a run, and where they stand.
use rec_events::{OwnedTestInstanceId, Text};
use rec_trace_events::Row;
use std::fmt;

/// Names what a span of time is of.
#[derive(Drop)]
pub enum SpanKey {
    /// The run.
    Run,
    /// One of a stress run's runs.
    SubRun,
    /// The setup script of this index.
    Script(usize),
    /// An attempt of this test.
    Test(OwnedTestInstanceId),
}

/// Prints the span as messages name it: a test by its binary and its name.
impl fmt::Display for SpanKey {
    ghost use Rattle.std.specs.Prelude.{Some};
    ghost use Rattle.rec_spans.specs.SpanTexts.{span_key_text};

    ghost output = { λ key. Some (span_key_text key) };

    fn fmt<W: fmt::Write>(&self, f: &mut fmt::Formatter<W>) -> fmt::Result {
        match self {
            SpanKey::Run => f.write_str("the run"),
            SpanKey::SubRun => f.write_str("the sub-run"),
            SpanKey::Script(index) => write!(f, "setup script {index}"),
            SpanKey::Test(test) => {
                let binary_id = test.binary_id.as_str();
                let test_name = test.test_name.as_str();
                write!(f, "{binary_id} {test_name}")
            }
        }
    }
}

/// Says where a span stands among those that are open at once: the run, the sub-run, the tests by
/// their slots, the setup scripts by their indexes.
#[derive(Clone, Copy, PartialEq, Eq, PartialOrd, Ord, Drop)]
pub enum Place {
    /// The run.
    Run,
    /// One of a stress run's runs.
    SubRun,
    /// The test on the slot of this number.
    Slot(u64),
    /// The setup script of this index.
    Script(usize),
}

/// Holds a span of time, as `docs/FORMATS.md#spans-and-rows` describes it.
#[derive(Drop)]
pub struct Span {
    /// What the span is of.
    pub key: SpanKey,
    /// Its place among the spans that are open at once.
    pub place: Place,
    /// The row of its slices.
    pub row: Row,
    /// The name of its slices.
    pub name: Text,
}

/// Says which end of a slice a mark is.
#[derive(Clone, Copy, Drop)]
pub enum Phase {
    /// The begin.
    Begin,
    /// The end.
    End,
}
