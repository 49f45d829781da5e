//! Tests, with their verdicts and their attempts.
ghost use Rattle.std.specs.Prelude.{◌≡◌};
ghost use Rattle.rec_view_json.specs.Views.{verdict_name};

use crate::attempts::AttemptWriter;
use crate::lists::{ItemWriter, with_list};
use crate::positions::{reason_at, stress_at};
use rec_events::{RecordingSpec, TestEventSummary};
use rec_forms::ObjectWriter;
use rec_json::JsonText;
use rec_view::{Instants, ShownGaps, TestView, Verdict};
use std::alloc::{AllocError, Global};

/// Writes tests of which these events tell.
#[derive(Clone, Copy)]
pub(crate) struct TestWriter<'e> {
    pub(crate) events: &'e [TestEventSummary<RecordingSpec>],
    pub(crate) gaps: &'e ShownGaps,
    pub(crate) instants: &'e Option<Instants>,
}

/// Names a verdict.
fn verdict_name(verdict: Verdict) -> &'static str
    ensures { result.now ≡ verdict_name verdict }
{
    match verdict {
        Verdict::Passed => "passed",
        Verdict::Flaky => "flaky",
        Verdict::Failed => "failed",
        Verdict::Skipped => "skipped",
        Verdict::Unfinished => "unfinished",
        Verdict::NotStarted => "not-started",
    }
}

impl<'e> ItemWriter for TestWriter<'e> {
    ghost use Rattle.std.specs.List.{AllByRecursion};
    ghost use Rattle.rec_view.specs.Rows.{row_of};
    ghost use Rattle.rec_view_json.specs.Fitting.{Fits};
    ghost use Rattle.rec_view_json.specs.Views.{test_value};

    type Item = TestView;

    ghost takes = { λ writer test.
        AllByRecursion (λ attempt.
        Fits writer.events.now writer.gaps.now writer.instants.now attempt.from attempt.to)
        test.attempts.items };

    ghost value_of = { λ writer test. test_value writer.events.now (row_of test) };

    #[tactic(auto, unfolding(crate::specs::Views::test_value))]
    fn write(&self, alloc: Global, text: &mut JsonText, item: &TestView) -> Result<(), AllocError> {
        let attempts = AttemptWriter {
            events: self.events,
            gaps: self.gaps,
            instants: self.instants,
        };
        let at = item.at as usize;
        let reason = reason_at(self.events, at);
        let stress_index = stress_at(self.events, at);
        let object = ObjectWriter::begin(alloc, text);
        let object = with_list(
            object,
            alloc,
            text,
            "attempts",
            &attempts,
            item.attempts.as_slice(),
        )?;
        let object = object.field(text, "binary-id", &item.test.binary_id);
        let object = object.optional(text, "reason", &reason);
        let object = object.optional(text, "stress-index", &stress_index);
        let object = object.field(text, "test-name", &item.test.test_name);
        let object = object.text(text, "verdict", verdict_name(item.verdict));
        object.end(text)
    }
}
