//! From a text to a node, in one pass over its tokens.
ghost use Rattle.std.specs.Prelude.{◌≡◌, ◌<◌, length, option_map, Err, None, Some, IfOk, OnOk};
ghost use Rattle.json.specs.Json.{value, items, members};
ghost use Rattle.json.specs.Reads.{token_of};
ghost use Rattle.serde_json.specs.Data.{no_members};
ghost use Rattle.serde_json.specs.Read.{converted, of_items, of_json, of_members, read};
ghost use Rattle.rec_json.specs.declared.errors.ReadError.TheVariants.{Invalid};
ghost use Rattle.rec_json.specs.Nodes.{items_view, members_view, view};
ghost use Rattle.rec_json.specs.Scalars.{scalar_of};

use crate::numbers::number;
use crate::{Node, ReadError};
use json::{Reader, Scratch, Token};
use std::alloc::Global;

// How deep lists and objects may nest. It is the limit of serde_json, which refuses the 128th
// level.
const MAX_DEPTH: usize = 127;

impl<'a> Node<'a> {
    /// Reads the value of a JSON text (RFC 8259). `scratch` is where texts with escapes are put; it
    /// can be lent to one read after another, and grows to the longest text.
    ///
    /// # Errors
    ///
    /// - `Invalid` exactly where `text` is not that of a JSON value, nests more than 127 levels, or
    ///   has a number too large for a float.
    /// - `OutOfMemory` if memory runs out.
    pub fn parse(
        alloc: Global,
        text: &'a str,
        scratch: &'a mut Scratch,
    ) -> Result<Node<'a>, ReadError>
        ensures ok { IfOk result (λ v. read text.now ≡ Some (view v)) }
        ensures err { result ≡ Err Invalid → read text.now ≡ None }
    {
        let mut reader = Reader::new(text, scratch)?;
        let node = read_node(alloc, &mut reader, MAX_DEPTH)?;
        match reader.next() {
            None => Ok(node),
            Some(_) => {
                drop(node);
                Err(ReadError::Invalid)
            }
        }
    }
}

/// Reads the next value. Lists and objects in it may nest `depth` deep.
#[cycle(nodes)]
fn read_node<'a>(
    alloc: Global,
    reader: &mut Reader<'a>,
    depth: usize,
) -> Result<Node<'a>, ReadError>
    ensures ok { IfOk result
        (λ v. converted of_json (value depth reader.old) ≡ Some (view v, reader.new)) }
    ensures err { result ≡ Err Invalid → converted of_json (value depth reader.old) ≡ None }
    ensures shorter { OnOk result (length reader.new < length reader.old) }
{
    let Some(token) = reader.next() else {
        return Err(ReadError::Invalid);
    };
    match token {
        Token::BeginArray => {
            if depth == 0 {
                return Err(ReadError::Invalid);
            }
            Ok(Node::Array(read_items(alloc, reader, depth - 1)?))
        }
        Token::BeginObject => {
            if depth == 0 {
                return Err(ReadError::Invalid);
            }
            Ok(Node::Object(read_members(alloc, reader, depth - 1)?))
        }
        _ => match scalar(token) {
            Some(node) => Ok(node),
            None => Err(ReadError::Invalid),
        },
    }
}

/// Returns the value that a token alone is, if it is one.
fn scalar<'a>(token: Token<'a>) -> Option<Node<'a>>
    ensures { option_map view result ≡ scalar_of (token_of token.entry) }
{
    match token {
        Token::Null => Some(Node::Null),
        Token::Bool(value) => Some(Node::Bool(value)),
        Token::Number(text) => Some(Node::Number(number(text)?)),
        Token::String(text) => Some(Node::String(text)),
        _ => None,
    }
}

/// Reads the items of a list up to its end.
#[cycle(nodes)]
fn read_items<'a>(
    alloc: Global,
    reader: &mut Reader<'a>,
    depth: usize,
) -> Result<Vec<Node<'a>>, ReadError>
    ensures ok { IfOk result
        (λ v. converted of_items (items (value depth) (length reader.old) reader.old)
        ≡ Some (items_view v.items, reader.new)) }
    ensures err { result ≡ Err Invalid
        → converted of_items (items (value depth) (length reader.old) reader.old) ≡ None }
    ensures shorter { OnOk result (length reader.new < length reader.old) }
{
    let mut found = Vec::new(alloc);
    'items: while !reader.take_end_array() {
        let item = read_node(alloc, reader, depth)?;
        found.push(item)?;
    }
    Ok(found)
}

/// Reads the members of an object up to its end.
#[cycle(nodes)]
fn read_members<'a>(
    alloc: Global,
    reader: &mut Reader<'a>,
    depth: usize,
) -> Result<Vec<(&'a str, Node<'a>)>, ReadError>
    ensures ok { IfOk result
        (λ v. converted (λ ms. of_members ms no_members)
        (members (value depth) (length reader.old) reader.old)
        ≡ Some (members_view v.items, reader.new)) }
    ensures err { result ≡ Err Invalid
        → converted (λ ms. of_members ms no_members)
        (members (value depth) (length reader.old) reader.old) ≡ None }
    ensures shorter { OnOk result (length reader.new < length reader.old) }
{
    let mut found = Vec::new(alloc);
    'members: while let Some(key) = reader.next_key()? {
        let member = read_node(alloc, reader, depth)?;
        found.push((key, member))?;
    }
    Ok(found)
}
