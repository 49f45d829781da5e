//! Lists that are written item by item.
ghost use Rattle.std.specs.List.{AllByRecursion};
ghost use Rattle.std.specs.Prelude.{◌≡◌, [], ◌∷◌, ◌++◌, Bool, List, Option, IfOk, OnOk, Some, ⊤};
ghost use Rattle.std.specs.Prelude.{option_to_list};
ghost use Rattle.serde_json.specs.Data.{Data};
ghost use Rattle.rec_json.specs.Tokens.{value_tokens, with_items};
ghost use Rattle.rec_forms.specs.Lists.{list_value};
ghost use Rattle.rec_forms.specs.ObjectWriting.{Writes};
ghost use Rattle.rec_view_json.specs.Views.{some_values};

use rec_forms::ObjectWriter;
use rec_json::JsonText;
use std::alloc::{AllocError, Global};

/// Writes each item of a list.
pub(crate) trait ItemWriter {
    /// What it writes.
    type Item;

    // What holds of the items that it is given.
    ghost takes: { Self → Self.Item → Type 0 };

    // The value that an item is written as.
    ghost value_of: { Self → Self.Item → Data };

    /// Writes an item.
    fn write(&self, alloc: Global, text: &mut JsonText, item: &Self::Item) -> Result<(), AllocError>
        requires { takes self.now item.now }
        ensures { OnOk result
            (text.new ≡ text.old ++ value_tokens (value_of self.now item.now)) };
}

/// Writes those items of a list that have a value.
pub(crate) trait SomeWriter {
    /// What it writes.
    type Item;

    // The value that an item is written as, if it is written.
    ghost value_of: { Self → Self.Item → Option Data };

    /// Writes an item, if it has a value.
    fn write(&self, alloc: Global, text: &mut JsonText, item: &Self::Item) -> Result<(), AllocError>
        ensures { OnOk result
            (text.new ≡ with_items text.old (option_to_list (value_of self.now item.now))) };
}

/// Writes a list.
pub(crate) fn write_list<W: ItemWriter>(
    writer: &W,
    alloc: Global,
    text: &mut JsonText,
    items: &[W::Item],
) -> Result<(), AllocError>
    requires { AllByRecursion (W.takes writer.now) items.now }
    ensures { OnOk result
        (text.new ≡ text.old ++ value_tokens (list_value (W.value_of writer.now) items.now)) }
{
    text.begin_array()?;
    for item in items {
        writer.write(alloc, text, item)?;
    }
    text.end_list()
}

/// Writes a list of those items that have a value.
pub(crate) fn write_some<W: SomeWriter>(
    writer: &W,
    alloc: Global,
    text: &mut JsonText,
    items: &[W::Item],
) -> Result<(), AllocError>
    ensures { OnOk result
        (text.new ≡ text.old ++ value_tokens (some_values (W.value_of writer.now) items.now)) }
{
    text.begin_array()?;
    for item in items {
        writer.write(alloc, text, item)?;
    }
    text.end_list()
}

/// Writes a list as a field.
pub(crate) fn with_list<W: ItemWriter>(
    object: ObjectWriter,
    alloc: Global,
    text: &mut JsonText,
    key: &str,
    writer: &W,
    items: &[W::Item],
) -> Result<ObjectWriter, AllocError>
    requires { AllByRecursion (W.takes writer.now) items.now }
    ensures { IfOk result (λ w. Writes object text.old w text.new
        ((key.now, Some (list_value (W.value_of writer.now) items.now)) ∷ []) ⊤) }
{
    object.leave_open()?;
    text.key(key)?;
    write_list(writer, alloc, text, items)?;
    Ok(ObjectWriter::resume(alloc))
}

/// Writes a list of those items that have a value as a field.
pub(crate) fn with_some<W: SomeWriter>(
    object: ObjectWriter,
    alloc: Global,
    text: &mut JsonText,
    key: &str,
    writer: &W,
    items: &[W::Item],
) -> Result<ObjectWriter, AllocError>
    ensures { IfOk result (λ w. Writes object text.old w text.new
        ((key.now, Some (some_values (W.value_of writer.now) items.now)) ∷ []) ⊤) }
{
    object.leave_open()?;
    text.key(key)?;
    write_some(writer, alloc, text, items)?;
    Ok(ObjectWriter::resume(alloc))
}
