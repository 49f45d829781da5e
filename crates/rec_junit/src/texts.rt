//! Copies of texts.
ghost use Rattle.std.specs.Prelude.{◌≡◌, IfOk};

use rec_events::Text;
use std::alloc::{AllocError, Global};

/// Copies two texts.
pub(crate) fn two_texts(
    alloc: Global,
    first: &str,
    second: &str,
) -> Result<(Text, Text), AllocError>
    ensures { IfOk result (λ texts. texts ≡ (first.now, second.now)) }
{
    let first = Text::from_str(alloc, first)?;
    let second = Text::from_str(alloc, second)?;
    Ok((first, second))
}
