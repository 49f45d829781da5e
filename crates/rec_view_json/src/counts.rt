//! How many tests have each verdict.
ghost use Rattle.std.specs.Prelude.{◌≡◌, ◌++◌, [], ◌∷◌, codes, List, IfOk, OnOk, Some, ⊤};
ghost use Rattle.rec_json.specs.Tokens.{value_tokens};
ghost use Rattle.rec_forms.specs.ObjectWriting.{Writes};
ghost use Rattle.rec_forms.specs.Shape.{field, natural};
ghost use Rattle.rec_view.specs.Counts.{AreCounts};
ghost use Rattle.rec_view.specs.declared.verdicts.Verdict as told;
ghost use Rattle.rec_view_json.specs.Views.{at_most, counts_value};

use rec_forms::ObjectWriter;
use rec_json::JsonText;
use rec_view::Counts;
use std::alloc::{AllocError, Global};

/// Returns the largest number that is written, if a number is larger.
fn at_most(number: u128) -> u64
    ensures { result ≡ at_most number }
{
    if number < 1 << 64 {
        return number as u64;
    }
    u64::MAX
}

/// Writes the counts of tests that ended.
fn with_judged(object: ObjectWriter, text: &mut JsonText, counts: &Counts) -> ObjectWriter
    ensures { Writes object text.old result text.new
        (field (codes "failed") (natural counts.now.failed)
        ∷ field (codes "flaky") (natural counts.now.flaky)
        ∷ field (codes "not-started") (natural counts.now.not_started)
        ∷ field (codes "passed") (natural counts.now.passed) ∷ []) ⊤ }
{
    let object = object.field(text, "failed", &counts.failed);
    let object = object.field(text, "flaky", &counts.flaky);
    let object = object.field(text, "not-started", &counts.not_started);
    object.field(text, "passed", &counts.passed)
}

/// Writes the counts of tests.
#[tactic(auto, unfolding(crate::specs::Views::counts_value))]
fn write_counts(
    alloc: Global,
    text: &mut JsonText,
    counts: &Counts,
    unnamed: u128,
) -> Result<(), AllocError>
    ensures { (vs : List told.Verdict) → AreCounts vs counts.now
        → OnOk result (text.new ≡ text.old ++ value_tokens (counts_value vs unnamed)) }
{
    let object = ObjectWriter::begin(alloc, text);
    let object = with_judged(object, text, counts);
    let object = object.field(text, "skipped", &counts.skipped);
    let object = object.field(text, "unfinished", &counts.unfinished);
    let unnamed = at_most(unnamed);
    let object = object.field(text, "unnamed", &unnamed);
    object.end(text)
}

/// Writes the counts of tests as a field.
pub(crate) fn with_counts(
    object: ObjectWriter,
    alloc: Global,
    text: &mut JsonText,
    counts: &Counts,
    unnamed: u128,
) -> Result<ObjectWriter, AllocError>
    ensures { (vs : List told.Verdict) → AreCounts vs counts.now
        → IfOk result (λ w. Writes object text.old w text.new
        (field (codes "counts") (counts_value vs unnamed) ∷ []) ⊤) }
{
    object.leave_open()?;
    text.key("counts")?;
    write_counts(alloc, text, counts, unnamed)?;
    Ok(ObjectWriter::resume(alloc))
}
