//! Items as the bytes of their JSON text.
ghost use Rattle.std.specs.Prelude.{◌≡◌, Some, IfOk, IsTrue};
ghost use Rattle.std.specs.Str.{is_utf8};
ghost use Rattle.serde_json.specs.Read.{read};
ghost use Rattle.serde_json.specs.Written.{compact_text};
ghost use Rattle.rec_json.specs.Nodes.{view};
ghost use Rattle.rec_forms.specs.Gives.{Gives, GivesBy};
ghost use Rattle.rec_forms.specs.TextForm.{text_form, bytes_form};

use crate::{Form, FromValueError};
use rec_json::{JsonText, Node, ReadError, Scratch};
use std::alloc::{AllocError, Global};

/// Reads an item from its JSON text.
///
/// # Errors
///
/// - `NotAValue` exactly where `bytes` are no UTF-8, are not the text of a JSON value, or are that
///   of a value which stands for no item.
/// - `OutOfMemory` if memory runs out.
///
/// # Examples
///
/// An item is read, and written again as `{"not-seen":[],"total-not-seen":7}`:
///
/// ```
/// let text = r#"{"total-not-seen":7,"not-seen":[]}"#;
/// let summary: TestsNotSeenSummary = read_text(alloc, text.as_bytes())?;
/// let written = write_text(alloc, &summary)?;
/// ```
pub fn read_text<T: Form>(alloc: Global, bytes: &[u8]) -> Result<T, FromValueError>
    ensures read { Gives result (bytes_form T.form_of bytes.now) }
    ensures known { IfOk result T.well_formed }
{
    let Ok(text) = std::str::from_utf8(bytes) else {
        return Err(FromValueError::NotAValue);
    };
    let mut scratch = Scratch::new(alloc);
    let node = parse_node(alloc, text, &mut scratch)?;
    T::from_node(alloc, &node)
}

/// Reads the value of a JSON text as a node, which borrows its texts. `scratch` is where texts with
/// escapes are put; it can be lent to one read after another.
///
/// # Errors
///
/// - `NotAValue` exactly where `text` is not the text of a JSON value.
/// - `OutOfMemory` if memory runs out.
pub fn parse_node<'a>(
    alloc: Global,
    text: &'a str,
    scratch: &'a mut Scratch,
) -> Result<Node<'a>, FromValueError>
    ensures { GivesBy view result (read text.now) }
{
    match Node::parse(alloc, text, scratch) {
        Ok(node) => Ok(node),
        Err(ReadError::Invalid) => Err(FromValueError::NotAValue),
        Err(ReadError::OutOfMemory) => Err(FromValueError::OutOfMemory),
    }
}

/// Writes the compact JSON text of an item.
///
/// # Errors
///
/// `AllocError` if memory runs out.
pub fn write_text<T: Form>(alloc: Global, item: &T) -> Result<Vec<u8>, AllocError>
    ensures text { IfOk result (λ b. b.items ≡ compact_text (T.value_of item.now)) }
    ensures utf8 { IfOk result (λ b. IsTrue (is_utf8 b.items)) }
    ensures known { IfOk result (λ _. T.well_formed item.now) }
    ensures reads_back { IfOk result (λ b. text_form T.form_of b.items ≡ Some item.now) }
{
    let mut text = JsonText::new(alloc);
    item.write(alloc, &mut text)?;
    Ok(text.into_bytes())
}
