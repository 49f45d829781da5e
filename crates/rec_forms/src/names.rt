//! Items that are written as a name alone.
ghost use Rattle.std.specs.Prelude.{option_and_then};
ghost use Rattle.serde_json.specs.Find.{as_str};
ghost use Rattle.rec_json.specs.Nodes.{view};
ghost use Rattle.rec_forms.specs.Gives.{Gives};
ghost use Rattle.rec_forms.specs.Shape.{named};
ghost use Rattle.rec_forms.specs.Tables.{table};

use crate::FromValueError;
use rec_json::Node;

/// Reads the item whose name `node` is.
///
/// # Errors
///
/// `NotAValue` exactly where `node` is none of these names.
pub(crate) fn named_item<T: Copy>(
    node: &Node<'_>,
    items: &[(&'static str, T)],
) -> Result<T, FromValueError>
    ensures { Gives result (option_and_then (named (table items.now)) (as_str (view node.now))) }
{
    let Some(text) = node.as_str() else {
        return Err(FromValueError::NotAValue);
    };
    for (name, item) in items {
        if text == *name {
            return Ok(*item);
        }
    }
    Err(FromValueError::NotAValue)
}
