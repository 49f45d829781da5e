//! Lists.
ghost use Rattle.std.specs.List.{AllByRecursion};
ghost use Rattle.std.specs.Prelude.{◌≡◌, Some, map};
ghost use Rattle.rec_forms.specs.Lists.{list_value, list_form};

use crate::{EntryForm, Form, FromValueError, Held, ItemForm};
use rec_events::Items;
use rec_json::{JsonText, Node};
use std::alloc::{AllocError, Global};

impl<T: ItemForm + Drop> Form for Items<T> {
    ghost use Rattle.std.specs.Prelude.{suc};
    ghost use Rattle.rec_forms.specs.ListLaws.{list_back};
    ghost use Rattle.rec_forms.specs.WellFormedLaws.{list_well_formed};
    ghost use Rattle.rec_forms.specs.Writable.{less_deep, list_writable};

    ghost well_formed = { AllByRecursion T.well_formed };

    ghost value_of = { list_value T.value_of };

    ghost form_of = { list_form T.form_of };

    ghost levels = { suc T.levels };

    ghost reads_back = { list_back T.well_formed T.value_of T.form_of T.reads_back };

    ghost reads_well_formed = { list_well_formed T.form_of T.reads_well_formed };

    ghost writable = { list_writable T.value_of T.writable };

    ghost shallow = { less_deep T.nested };

    fn write(&self, alloc: Global, text: &mut JsonText) -> Result<(), AllocError> {
        text.begin_array()?;
        for item in self.as_slice() {
            item.write(alloc, text)?;
        }
        text.end_list()?;
        Ok(())
    }

    fn from_node(alloc: Global, node: &Node<'_>) -> Result<Items<T>, FromValueError> {
        let Some(nodes) = node.as_array() else {
            return Err(FromValueError::NotAValue);
        };
        let mut items = Vec::with_capacity(alloc, nodes.len())?;
        for node in nodes {
            let item = T::from_node(alloc, node)?;
            items.push(item)?;
        }
        Ok(Items::new(items))
    }
}

impl<T: ItemForm + Drop> EntryForm for Items<T> {
    ghost nested = { T.nested };
}

impl<T: Held + ItemForm + Drop> Held for Items<T> {
    fn held(&self) {
        for item in self.as_slice() {
            item.held();
        }
    }
}
