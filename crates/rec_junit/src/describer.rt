//! What a report says of an attempt that failed.
ghost use Rattle.std.specs.List.{join_by};
ghost use Rattle.std.specs.Prelude.{◌≡◌, ◌∷◌, Option, IfOk, codes};
ghost use Rattle.rec_junit.specs.declared.describer.ErrorText.{ErrorText};
ghost use Rattle.rec_junit.specs.Describing.{Execution, errors_text, plain_text};

use crate::texts::two_texts;
use rec_events::{ChildExecutionOutputDescription, LiveSpec, Text, TryClone};
use std::alloc::{AllocError, Global};

/// Says what went wrong, shortly and at length.
#[derive(Drop)]
pub struct ErrorText {
    /// What is said shortly.
    pub message: Text,
    /// What is said at length.
    pub description: Text,
}

/// Says what went wrong in an attempt, from what came of starting its process.
pub trait ErrorDescriber {
    /// Names what it says of an output, if anything.
    ghost text_of: { Self → Execution → Option ErrorText };

    /// Describes what went wrong; `None` where there is nothing to say.
    ///
    /// # Errors
    ///
    /// `AllocError` means that there was not enough memory.
    fn describe(
        &self,
        alloc: Global,
        output: &ChildExecutionOutputDescription<LiveSpec>,
    ) -> Result<Option<ErrorText>, AllocError>
        ensures { IfOk result (λ text. text ≡ text_of self.now output.now) };
}

/// Says what the runner itself noticed: that a process could not be started, or what went wrong
/// while its output was captured.
#[derive(Clone, Copy, Drop)]
pub struct PlainDescriber;

impl ErrorDescriber for PlainDescriber {
    ghost text_of = { λ _. plain_text };

    fn describe(
        &self,
        alloc: Global,
        output: &ChildExecutionOutputDescription<LiveSpec>,
    ) -> Result<Option<ErrorText>, AllocError> {
        match output {
            ChildExecutionOutputDescription::StartError { message } => {
                same_text(alloc, message).map(Some)
            }
            ChildExecutionOutputDescription::Output { errors, .. } => match errors {
                Some(errors) => describe_errors(alloc, errors.as_slice()),
                None => Ok(None),
            },
        }
    }
}

/// Says the same shortly and at length.
fn same_text(alloc: Global, message: &Text) -> Result<ErrorText, AllocError>
    ensures { IfOk result
        (λ text. text ≡ record { message = message.now; description = message.now }) }
{
    let (message, description) = two_texts(alloc, message.as_str(), message.as_str())?;
    Ok(ErrorText {
        message,
        description,
    })
}

/// Says the first of these errors shortly, and all of them at length.
fn describe_errors(alloc: Global, errors: &[Text]) -> Result<Option<ErrorText>, AllocError>
    ensures { IfOk result (λ text. text ≡ errors_text errors.now) }
{
    let Some((first, others)) = errors.split_first() else {
        return Ok(None);
    };
    let message = first.try_clone(alloc)?;
    let description = lines(alloc, first, others)?;
    Ok(Some(ErrorText {
        message,
        description,
    }))
}

/// Writes these texts, with a line feed between each two.
fn lines(alloc: Global, first: &Text, others: &[Text]) -> Result<Text, AllocError>
    ensures { IfOk result
        (λ text. text ≡ join_by (λ text. text) (codes "\n") (first.now ∷ others.now)) }
{
    let mut lines = String::from_str(alloc, first.as_str())?;
    for other in others {
        lines.push_str("\n")?;
        lines.push_str(other.as_str())?;
    }
    Ok(Text::new(lines))
}
