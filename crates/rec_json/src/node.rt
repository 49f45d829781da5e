//! A JSON value that borrows its texts.
ghost use Rattle.std.specs.Prelude.{◌≡◌, option_and_then, option_map};
ghost use Rattle.serde_json.specs.Find.{as_array, as_bool, as_i64, as_number};
ghost use Rattle.serde_json.specs.Find.{as_object, as_str, as_u64};
ghost use Rattle.rec_json.specs.Nodes.{items_view, members_view, view};

use serde_json::Number;

/// Holds a JSON value whose texts are borrowed: from the text that it was read from, or from the
/// scratch memory of that read where they have escapes.
///
/// An object has its members in the order of the text, with each key as often as it stands there.
/// Of equal keys the last one counts.
#[derive(Drop)]
pub enum Node<'a> {
    /// Is `null`.
    Null,
    /// Is a truth value.
    Bool(bool),
    /// Is a number: an integer of 64 bits, or a finite float.
    Number(Number),
    /// Is a text.
    String(&'a str),
    /// Is a list.
    Array(Vec<Node<'a>>),
    /// Is an object.
    Object(Vec<(&'a str, Node<'a>)>),
}

impl<'a> Node<'a> {
    /// Returns the truth value, if it is one.
    pub fn as_bool(&self) -> Option<bool>
        ensures { result ≡ as_bool (view self.now) }
    {
        match self {
            Node::Bool(value) => Some(*value),
            _ => None,
        }
    }

    /// Returns the number, if it is a natural number below 2^64.
    pub fn as_u64(&self) -> Option<u64>
        ensures { result ≡ option_and_then as_u64 (as_number (view self.now)) }
    {
        match self {
            Node::Number(number) => number.as_u64(),
            _ => None,
        }
    }

    /// Returns the number, if it is an integer from -2^63 to 2^63 - 1.
    pub fn as_i64(&self) -> Option<i64>
        ensures { result ≡ option_and_then as_i64 (as_number (view self.now)) }
    {
        match self {
            Node::Number(number) => number.as_i64(),
            _ => None,
        }
    }

    /// Returns the text, if it is one.
    pub fn as_str(&self) -> Option<&'a str>
        ensures { option_map (λ s. s.now) result ≡ as_str (view self.now) }
    {
        match self {
            Node::String(text) => Some(*text),
            _ => None,
        }
    }

    /// Returns the items, if it is a list.
    pub fn as_array(&self) -> Option<&[Node<'a>]>
        ensures { option_map (λ o. items_view o.now) result ≡ as_array (view self.now) }
    {
        match self {
            Node::Array(items) => Some(items.as_slice()),
            _ => None,
        }
    }

    /// Returns the members, if it is an object.
    pub fn as_object(&self) -> Option<&[(&'a str, Node<'a>)]>
        ensures { option_map (λ o. members_view o.now) result ≡ as_object (view self.now) }
    {
        match self {
            Node::Object(members) => Some(members.as_slice()),
            _ => None,
        }
    }
}
