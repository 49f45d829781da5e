//! What is found in an object.
ghost use Rattle.std.specs.Prelude.{◌≡◌, option_map, IfOk, OnOk};
ghost use Rattle.serde_json.specs.Data.{put};
ghost use Rattle.serde_json.specs.Find.{get_member};
ghost use Rattle.rec_json.specs.Fields.{only_of};
ghost use Rattle.rec_json.specs.Nodes.{members_view, sorted_view, view};

use crate::Node;
use std::alloc::{AllocError, Global};
use std::collections::BTreeMap;

/// Returns the value at a key, the last one where the key stands more than once.
/// It goes over the members.
pub fn member<'n, 'a>(object: &'n [(&'a str, Node<'a>)], key: &str) -> Option<&'n Node<'a>>
    ensures { option_map (λ v. view v.now) result ≡ get_member key.now (members_view object.now) }
{
    let mut end = object.len();
    'last: while end > 0 {
        end -= 1;
        let (name, node) = &object[end];
        if *name == key {
            return Some(node);
        }
    }
    None
}

/// Returns the key and the value of the only member, if the object has exactly one. Members with
/// the same key count as one, which has the last of their values.
pub fn only_member<'n, 'a>(object: &'n [(&'a str, Node<'a>)]) -> Option<(&'a str, &'n Node<'a>)>
    ensures { option_map (λ m. (m.0.now, view m.1.now)) result ≡ only_of (members_view object.now) }
{
    if object.is_empty() {
        return None;
    }
    let (key, node) = &object[object.len() - 1];
    for (name, _) in object {
        if *name != *key {
            return None;
        }
    }
    Some((*key, node))
}

/// Returns the members in the order of the bytes of their keys, each key once with its last value.
///
/// # Errors
///
/// `AllocError` if memory runs out.
pub fn sorted<'n, 'a>(
    alloc: Global,
    object: &'n [(&'a str, Node<'a>)],
) -> Result<BTreeMap<&'a str, &'n Node<'a>>, AllocError>
    ensures { IfOk result (λ m. sorted_view m.entries ≡ members_view object.now) }
{
    let mut members = BTreeMap::new(alloc);
    for (key, node) in object {
        put_in(&mut members, key, node)?;
    }
    Ok(members)
}

/// Puts a member in, in place of an earlier one at its key.
fn put_in<'n, 'a>(
    members: &mut BTreeMap<&'a str, &'n Node<'a>>,
    key: &'a str,
    node: &'n Node<'a>,
) -> Result<(), AllocError>
    ensures { OnOk result (sorted_view members.new.entries
        ≡ put key.now (view node.now) (sorted_view members.old.entries)) }
{
    members.insert(key, node)?;
    Ok(())
}
