//! Several fields, read by one call.
ghost use Rattle.rec_json.specs.Nodes.{members_view, view};
ghost use Rattle.rec_forms.specs.Several.{GivesTwo, GivesThree, GivesFour, GivesFive, GivesTwoOf};
ghost use Rattle.rec_forms.specs.Shape.{defaulted, maybe, required};

use crate::fields::{defaulted_field, optional_field, required_field};
use crate::{Form, FromValueError};
use rec_json::Node;
use std::alloc::Global;

/// Reads two fields that have to be there.
///
/// # Errors
///
/// - `NotAValue` if a key has no member, or its value stands for no item.
/// - `OutOfMemory` if memory runs out.
pub fn required_two<'a, A: Form + Drop, B: Form + Drop>(
    alloc: Global,
    object: &[(&'a str, Node<'a>)],
    first_key: &str,
    second_key: &str,
) -> Result<(A, B), FromValueError>
    ensures { GivesTwo result
        (required A.form_of first_key.now (members_view object.now))
        (required B.form_of second_key.now (members_view object.now)) }
{
    let first = required_field(alloc, object, first_key)?;
    let second = required_field(alloc, object, second_key)?;
    Ok((first, second))
}

/// Reads three fields that have to be there.
///
/// # Errors
///
/// - `NotAValue` if a key has no member, or its value stands for no item.
/// - `OutOfMemory` if memory runs out.
pub fn required_three<'a, A: Form + Drop, B: Form + Drop, C: Form + Drop>(
    alloc: Global,
    object: &[(&'a str, Node<'a>)],
    first_key: &str,
    second_key: &str,
    third_key: &str,
) -> Result<(A, B, C), FromValueError>
    ensures { GivesThree result
        (required A.form_of first_key.now (members_view object.now))
        (required B.form_of second_key.now (members_view object.now))
        (required C.form_of third_key.now (members_view object.now)) }
{
    let first = required_field(alloc, object, first_key)?;
    let (second, third) = required_two(alloc, object, second_key, third_key)?;
    Ok((first, second, third))
}

/// Reads four fields that have to be there.
///
/// # Errors
///
/// - `NotAValue` if a key has no member, or its value stands for no item.
/// - `OutOfMemory` if memory runs out.
pub fn required_four<'a, A: Form + Drop, B: Form + Drop, C: Form + Drop, D: Form + Drop>(
    alloc: Global,
    object: &[(&'a str, Node<'a>)],
    first_key: &str,
    second_key: &str,
    third_key: &str,
    fourth_key: &str,
) -> Result<(A, B, C, D), FromValueError>
    ensures { GivesFour result
        (required A.form_of first_key.now (members_view object.now))
        (required B.form_of second_key.now (members_view object.now))
        (required C.form_of third_key.now (members_view object.now))
        (required D.form_of fourth_key.now (members_view object.now)) }
{
    let first = required_field(alloc, object, first_key)?;
    let (second, third, fourth) = required_three(alloc, object, second_key, third_key, fourth_key)?;
    Ok((first, second, third, fourth))
}

/// Reads five fields that have to be there.
///
/// # Errors
///
/// - `NotAValue` if a key has no member, or its value stands for no item.
/// - `OutOfMemory` if memory runs out.
pub fn required_five<
    'a,
    A: Form + Drop,
    B: Form + Drop,
    C: Form + Drop,
    D: Form + Drop,
    E: Form + Drop,
>(
    alloc: Global,
    object: &[(&'a str, Node<'a>)],
    first_key: &str,
    second_key: &str,
    third_key: &str,
    fourth_key: &str,
    fifth_key: &str,
) -> Result<(A, B, C, D, E), FromValueError>
    ensures { GivesFive result
        (required A.form_of first_key.now (members_view object.now))
        (required B.form_of second_key.now (members_view object.now))
        (required C.form_of third_key.now (members_view object.now))
        (required D.form_of fourth_key.now (members_view object.now))
        (required E.form_of fifth_key.now (members_view object.now)) }
{
    let first = required_field(alloc, object, first_key)?;
    let (second, third, fourth, fifth) = required_four(
        alloc, object, second_key, third_key, fourth_key, fifth_key,
    )?;
    Ok((first, second, third, fourth, fifth))
}

/// Reads two fields that may be missing or `null`.
///
/// # Errors
///
/// - `NotAValue` if there is a value other than `null` that stands for no item.
/// - `OutOfMemory` if memory runs out.
pub fn optional_two<'a, A: Form + Drop, B: Form + Drop>(
    alloc: Global,
    object: &[(&'a str, Node<'a>)],
    first_key: &str,
    second_key: &str,
) -> Result<(Option<A>, Option<B>), FromValueError>
    ensures { GivesTwo result
        (maybe A.form_of first_key.now (members_view object.now))
        (maybe B.form_of second_key.now (members_view object.now)) }
{
    let first = optional_field(alloc, object, first_key)?;
    let second = optional_field(alloc, object, second_key)?;
    Ok((first, second))
}

/// Reads two fields, each of which is as given where its member is missing. A member that is `null`
/// is not missing.
///
/// # Errors
///
/// - `NotAValue` if there is a value that stands for no item.
/// - `OutOfMemory` if memory runs out.
pub fn defaulted_two<'a, A: Form + Drop, B: Form + Drop>(
    alloc: Global,
    object: &[(&'a str, Node<'a>)],
    first: (&str, A),
    second: (&str, B),
) -> Result<(A, B), FromValueError>
    ensures { GivesTwo result
        (defaulted first.entry.1 A.form_of first.entry.0.now (members_view object.now))
        (defaulted second.entry.1 B.form_of second.entry.0.now (members_view object.now)) }
{
    let first = defaulted_field(alloc, object, first.0, first.1)?;
    let second = defaulted_field(alloc, object, second.0, second.1)?;
    Ok((first, second))
}

/// Reads three fields, each of which is as given where its member is missing. A member that is
/// `null` is not missing.
///
/// # Errors
///
/// - `NotAValue` if there is a value that stands for no item.
/// - `OutOfMemory` if memory runs out.
pub(crate) fn defaulted_three<'a, A: Form + Drop, B: Form + Drop, C: Form + Drop>(
    alloc: Global,
    object: &[(&'a str, Node<'a>)],
    first: (&str, A),
    second: (&str, B),
    third: (&str, C),
) -> Result<(A, B, C), FromValueError>
    ensures { GivesThree result
        (defaulted first.entry.1 A.form_of first.entry.0.now (members_view object.now))
        (defaulted second.entry.1 B.form_of second.entry.0.now (members_view object.now))
        (defaulted third.entry.1 C.form_of third.entry.0.now (members_view object.now)) }
{
    let first = defaulted_field(alloc, object, first.0, first.1)?;
    let (second, third) = defaulted_two(alloc, object, second, third)?;
    Ok((first, second, third))
}

/// Reads an object by two fields that have to be there.
///
/// # Errors
///
/// - `NotAValue` if `node` is no object, a field isn't there, or its value stands for no item.
/// - `OutOfMemory` if memory runs out.
pub fn object_of_two<A: Form + Drop, B: Form + Drop>(
    alloc: Global,
    node: &Node<'_>,
    first_key: &str,
    second_key: &str,
) -> Result<(A, B), FromValueError>
    ensures { GivesTwoOf result (view node.now)
        (required A.form_of first_key.now) (required B.form_of second_key.now) }
{
    let Some(object) = node.as_object() else {
        return Err(FromValueError::NotAValue);
    };
    required_two(alloc, object, first_key, second_key)
}
