//! The fields of an object, written and read one at a time.
ghost use Rattle.std.specs.Prelude.{◌≡◌, ◌++◌, OnOk, Some, option_map, IfSome};
ghost use Rattle.rec_json.specs.Fields.{tagged};
ghost use Rattle.rec_json.specs.Nodes.{members_view};
ghost use Rattle.rec_json.specs.Tokens.{value_tokens, with_field};
ghost use Rattle.rec_forms.specs.Gives.{Gives};
ghost use Rattle.rec_forms.specs.Shape.{required, maybe, defaulted};

use crate::{Form, FromValueError};
use rec_json::{JsonText, Node, member};
use std::alloc::{AllocError, Global};

/// Writes a field: the value of `item` at `key`.
///
/// # Errors
///
/// `AllocError` if memory runs out; then `text` may hold a part of the field.
pub fn write_field<T: Form>(
    alloc: Global,
    text: &mut JsonText,
    key: &str,
    item: &T,
) -> Result<(), AllocError>
    ensures written { OnOk result
        (text.new ≡ with_field key.now (Some (T.value_of item.now)) text.old) }
    ensures known { OnOk result (T.well_formed item.now) }
{
    text.key(key)?;
    item.write(alloc, text)
}

/// Writes a field that is left out where there is no item.
///
/// # Errors
///
/// `AllocError` if memory runs out; then `text` may hold a part of the field.
pub fn write_optional<T: Form>(
    alloc: Global,
    text: &mut JsonText,
    key: &str,
    item: &Option<T>,
) -> Result<(), AllocError>
    ensures written { OnOk result
        (text.new ≡ with_field key.now (option_map T.value_of item.now) text.old) }
    ensures known { OnOk result (IfSome item.now T.well_formed) }
{
    match item {
        Some(item) => write_field(alloc, text, key, item),
        None => Ok(()),
    }
}

/// Writes the object with `item` at `tag`, as a variant with fields is written.
///
/// # Errors
///
/// `AllocError` if memory runs out; then `text` may hold a part of the object.
pub fn write_tagged<T: Form>(
    alloc: Global,
    text: &mut JsonText,
    tag: &str,
    item: &T,
) -> Result<(), AllocError>
    ensures written { OnOk result
        (text.new ≡ text.old ++ value_tokens (tagged tag.now (T.value_of item.now))) }
    ensures known { OnOk result (T.well_formed item.now) }
{
    text.begin_object()?;
    write_field(alloc, text, tag, item)?;
    text.end_tagged()?;
    Ok(())
}

/// Reads a field that has to be there.
///
/// # Errors
///
/// - `NotAValue` if no member has this key, or its value stands for no item.
/// - `OutOfMemory` if memory runs out.
pub fn required_field<'a, T: Form>(
    alloc: Global,
    object: &[(&'a str, Node<'a>)],
    key: &str,
) -> Result<T, FromValueError>
    ensures { Gives result (required T.form_of key.now (members_view object.now)) }
{
    match member(object, key) {
        Some(node) => T::from_node(alloc, node),
        None => Err(FromValueError::NotAValue),
    }
}

/// Reads a field that may be missing or `null`.
///
/// # Errors
///
/// - `NotAValue` if there is a value other than `null`, and it stands for no item.
/// - `OutOfMemory` if memory runs out.
pub fn optional_field<'a, T: Form>(
    alloc: Global,
    object: &[(&'a str, Node<'a>)],
    key: &str,
) -> Result<Option<T>, FromValueError>
    ensures { Gives result (maybe T.form_of key.now (members_view object.now)) }
{
    match member(object, key) {
        None => Ok(None),
        Some(Node::Null) => Ok(None),
        Some(node) => T::from_node(alloc, node).map(Some),
    }
}

/// Reads a field that is `missing` where its member is missing.
/// A member that is `null` is not missing.
///
/// # Errors
///
/// - `NotAValue` if there is a value, and it stands for no item.
/// - `OutOfMemory` if memory runs out.
pub fn defaulted_field<'a, T: Form + Drop>(
    alloc: Global,
    object: &[(&'a str, Node<'a>)],
    key: &str,
    missing: T,
) -> Result<T, FromValueError>
    ensures { Gives result (defaulted missing T.form_of key.now (members_view object.now)) }
{
    match member(object, key) {
        None => Ok(missing),
        Some(node) => T::from_node(alloc, node),
    }
}
