//! A value of `serde_json` seen as a node.
ghost use Rattle.std.specs.Prelude.{◌≡◌, IfOk};
ghost use Rattle.serde_json.specs.View.{items_view as value_items, members_view as value_members};
ghost use Rattle.serde_json.specs.View.{view as value_view};
ghost use Rattle.rec_json.specs.Nodes.{items_view, members_view, view};

use crate::Node;
use serde_json::{Map, Value};
use std::alloc::{AllocError, Global};

impl<'a> Node<'a> {
    /// Returns the node of a value, whose texts it borrows.
    ///
    /// # Errors
    ///
    /// `AllocError` if memory runs out.
    pub fn of_value(alloc: Global, value: &'a Value) -> Result<Node<'a>, AllocError>
        ensures { IfOk result (λ n. view n ≡ value_view value.now) }
    {
        seen(alloc, value)
    }
}

#[cycle(values)]
fn seen<'a>(alloc: Global, value: &'a Value) -> Result<Node<'a>, AllocError>
    ensures { IfOk result (λ n. view n ≡ value_view value.now) }
{
    match value {
        Value::Null => Ok(Node::Null),
        Value::Bool(truth) => Ok(Node::Bool(*truth)),
        Value::Number(number) => Ok(Node::Number(*number)),
        Value::String(text) => Ok(Node::String(text.as_str())),
        Value::Array(values) => Ok(Node::Array(seen_items(alloc, values)?)),
        Value::Object(object) => Ok(Node::Object(seen_members(alloc, object)?)),
    }
}

#[cycle(values)]
fn seen_items<'a>(alloc: Global, values: &'a Vec<Value>) -> Result<Vec<Node<'a>>, AllocError>
    ensures { IfOk result (λ v. items_view v.items ≡ value_items values.now.items) }
{
    let mut items = Vec::with_capacity(alloc, values.len())?;
    for value in values {
        items.push(seen(alloc, value)?)?;
    }
    Ok(items)
}

#[cycle(values)]
fn seen_members<'a>(
    alloc: Global,
    object: &'a Map<String, Value>,
) -> Result<Vec<(&'a str, Node<'a>)>, AllocError>
    ensures { IfOk result (λ v. members_view v.items ≡ value_members object.now.entries) }
{
    let mut members = Vec::with_capacity(alloc, object.len())?;
    for (key, value) in object.iter() {
        let node = seen(alloc, value)?;
        members.push((key.as_str(), node))?;
    }
    Ok(members)
}
