//! What is written and read as a JSON value.
ghost use Rattle.std.specs.Prelude.{◌≡◌, ◌≤◌, ◌++◌, ℕ, suc, Option, Some, IfOk, OnOk};
ghost use Rattle.serde_json.specs.Data.{Data};
ghost use Rattle.serde_json.specs.Read.{max_depth};
ghost use Rattle.serde_json.specs.View.{view};
ghost use Rattle.rec_json.specs.Nodes.{view as node_view};
ghost use Rattle.rec_json.specs.Tokens.{value_tokens};
ghost use Rattle.rec_forms.specs.Gives.{Gives};
ghost use Rattle.rec_forms.specs.GivesWellFormed.{GivesWellFormed};
ghost use Rattle.rec_forms.specs.Writable.{IsWritable};

use crate::FromValueError;
use crate::values::value_of_text;
use rec_json::{JsonText, Node};
use serde_json::Value;
use std::alloc::{AllocError, Global};

/// Writes the items of a type as JSON values, and reads them back, by
/// `docs/FORMATS.md#rules-for-json`.
pub trait Form: Sized {
    /// Says what holds of an item that can be written and read back: its numbers are in range, its
    /// texts are UTF-8.
    ghost well_formed: { Self → Type 0 };

    /// Names the value that an item is written as.
    ghost value_of: { Self → Data };

    /// Names the item for which a value stands, if any.
    ghost form_of: { Data → Option Self };

    /// Says how deep the arrays and objects of a written value nest at most.
    ghost levels: { ℕ };

    /// Writes the item at the end of `text`.
    ///
    /// # Errors
    ///
    /// `AllocError` if memory runs out; then `text` may hold a part of the item.
    fn write(&self, alloc: Global, text: &mut JsonText) -> Result<(), AllocError>
        ensures written { OnOk result (text.new ≡ text.old ++ value_tokens (value_of self.now)) }
        ensures known { OnOk result (well_formed self.now) };

    /// Makes the value of the item, which is the value of its text. Where only the text is wanted,
    /// `write` does without a value.
    ///
    /// # Errors
    ///
    /// `AllocError` if memory runs out.
    final fn to_value(&self, alloc: Global) -> Result<Value, AllocError>
        ensures value { IfOk result (λ v. view v ≡ value_of self.now) }
        ensures value_known { IfOk result (λ _. well_formed self.now) }
    {
        let mut text = JsonText::new(alloc);
        self.write(alloc, &mut text)?;
        let text = text.into_text();
        value_of_text(alloc, &text)
    }

    /// Reads the item for which `node` stands.
    ///
    /// # Errors
    ///
    /// - `NotAValue` exactly where `node` stands for no item.
    /// - `OutOfMemory` if memory runs out.
    fn from_node(alloc: Global, node: &Node<'_>) -> Result<Self, FromValueError>
        ensures read_node { Gives result (form_of (node_view node.now)) };

    /// Reads the item for which `value` stands, a value that is there already. A text is read as a
    /// node, without a value in between.
    ///
    /// # Errors
    ///
    /// - `NotAValue` exactly where `value` stands for no item.
    /// - `OutOfMemory` if memory runs out.
    final fn from_value(alloc: Global, value: &Value) -> Result<Self, FromValueError>
        ensures read { Gives result (form_of (view value.now)) }
    {
        let node = Node::of_value(alloc, value)?;
        Self::from_node(alloc, &node)
    }

    /// Says that what was written is read back.
    ghost reads_back: { (x : Self) → well_formed x → form_of (value_of x) ≡ Some x };

    /// Says that what is read is well-formed.
    ghost reads_well_formed: { GivesWellFormed well_formed form_of };

    /// Says that what is written is no null, is given back by its text, has no float, and nests no
    /// deeper than `levels`.
    ghost writable: { (x : Self) → well_formed x → IsWritable levels (value_of x) };

    /// Says that what is written is no deeper than what is read as JSON.
    ghost shallow: { levels ≤ max_depth };
}

/// Says of a type that its items can stand in a list, and such a list in a map.
pub trait ItemForm: Form {
    /// Says that two levels more are no deeper than what is read as JSON.
    ghost nested: { suc (suc Self.levels) ≤ max_depth };
}

/// Says of a type that its items can be the values of a map.
pub trait EntryForm: Form {
    /// Says that one level more is no deeper than what is read as JSON.
    ghost nested: { suc Self.levels ≤ max_depth };
}
