//! The forms of items that hold outputs, and so aren't written where one isn't loaded.
ghost use Rattle.std.specs.List.{AllByRecursion};
ghost use Rattle.std.specs.Prelude.{◌≡◌, ◌++◌, ℕ, Bool, Option, Some, OnOk};
ghost use Rattle.serde_json.specs.Data.{Data};
ghost use Rattle.rec_json.specs.Nodes.{members_view, view};
ghost use Rattle.rec_json.specs.Tokens.{value_tokens};
ghost use Rattle.rec_forms.specs.Gives.{Gives};
ghost use Rattle.rec_forms.specs.GivesWellFormed.{GivesWellFormed};
ghost use Rattle.rec_forms.specs.Lists.{list_value, list_form, some_form};
ghost use Rattle.rec_forms.specs.Shape.{required};
ghost use Rattle.rec_forms.specs.Writable.{IsWritable};
ghost use Rattle.rec_codec.specs.Writes.{WritesLoaded, every};

use crate::ToValueError;
use rec_events::{Items, NonEmpty};
use rec_forms::FromValueError;
use rec_json::{JsonText, Node, member};
use std::alloc::Global;

/// Writes items that hold outputs as JSON, where these outputs are loaded, and reads them.
pub trait LoadedForm: Sized {
    /// Says what holds of each item that a program has, if its outputs are loaded.
    ghost well_formed: { Self → Type 0 };

    /// Says whether all its outputs are there to be written.
    ghost loaded: { Self → Bool };

    /// Names the value that an item is written as.
    ghost value_of: { Self → Data };

    /// Names the item for which a value stands, if any.
    ghost form_of: { Data → Option Self };

    /// Says how deep the arrays and objects of a written value nest at most.
    ghost levels: { ℕ };

    /// Writes the item at the end of `text`. It is read as this item again.
    ///
    /// # Errors
    ///
    /// `NotLoaded` comes exactly where an output in the item isn't loaded, and `OutOfMemory` if
    /// memory runs out; then `text` may hold a part of the item.
    fn write(&self, alloc: Global, text: &mut JsonText) -> Result<(), ToValueError>
        ensures written { OnOk result (text.new ≡ text.old ++ value_tokens (value_of self.now)) }
        ensures loaded { WritesLoaded result (loaded self.now) }
        ensures known { OnOk result (well_formed self.now) };

    /// Reads the item for which `node` stands.
    ///
    /// # Errors
    ///
    /// `NotAValue` comes exactly where the node stands for no item, and `OutOfMemory` where there
    /// was not enough memory.
    fn from_node(alloc: Global, node: &Node<'_>) -> Result<Self, FromValueError>
        ensures read { Gives result (form_of (view node.now)) };

    /// Says that what was written is read back.
    ghost reads_back: { (x : Self) → well_formed x → form_of (value_of x) ≡ Some x };

    /// Says that what is read is well-formed.
    ghost reads_well_formed: { GivesWellFormed well_formed form_of };

    /// Says that what is written is no null, is given back by its text, has no float, and nests no
    /// deeper than `levels`.
    ghost writable: { (x : Self) → well_formed x → IsWritable levels (value_of x) };
}

/// Reads a field that holds outputs and has to be there.
pub fn required_loaded<'a, T: LoadedForm>(
    alloc: Global,
    object: &[(&'a str, Node<'a>)],
    key: &str,
) -> Result<T, FromValueError>
    ensures { Gives result (required T.form_of key.now (members_view object.now)) }
{
    match member(object, key) {
        Some(node) => T::from_node(alloc, node),
        None => Err(FromValueError::NotAValue),
    }
}

/// Writes a list of items that hold outputs.
pub fn write_each<T: LoadedForm>(
    alloc: Global,
    text: &mut JsonText,
    items: &[T],
) -> Result<(), ToValueError>
    ensures written { OnOk result
        (text.new ≡ text.old ++ value_tokens (list_value T.value_of items.now)) }
    ensures loaded { WritesLoaded result (every T.loaded items.now) }
    ensures known { OnOk result (AllByRecursion T.well_formed items.now) }
{
    text.begin_array()?;
    for item in items {
        item.write(alloc, text)?;
    }
    text.end_list()?;
    Ok(())
}

/// Reads the items of an array.
pub fn each_from_node<T: LoadedForm + Drop>(
    alloc: Global,
    node: &Node<'_>,
) -> Result<Items<T>, FromValueError>
    ensures { Gives result (list_form T.form_of (view node.now)) }
{
    let Some(nodes) = node.as_array() else {
        return Err(FromValueError::NotAValue);
    };
    let mut items = Vec::with_capacity(alloc, nodes.len())?;
    for node in nodes {
        let item = T::from_node(alloc, node)?;
        items.push(item)?;
    }
    Ok(Items::new(items))
}

/// Reads a field that has to be there and holds a list that isn't empty.
pub fn required_some<'a, T: LoadedForm + Drop>(
    alloc: Global,
    object: &[(&'a str, Node<'a>)],
    key: &str,
) -> Result<NonEmpty<T>, FromValueError>
    ensures { Gives result (required (some_form T.form_of) key.now (members_view object.now)) }
{
    match member(object, key) {
        Some(node) => {
            let items = each_from_node(alloc, node)?;
            NonEmpty::from_items(items).ok_or(FromValueError::NotAValue)
        }
        None => Err(FromValueError::NotAValue),
    }
}
