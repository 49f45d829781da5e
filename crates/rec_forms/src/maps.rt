//! Maps from texts.
ghost use Rattle.std.specs.Prelude.{◌≡◌, suc, []};
ghost use Rattle.rec_json.specs.Nodes.{sorted_view};
ghost use Rattle.rec_forms.specs.Gives.{Gives};
ghost use Rattle.rec_forms.specs.Maps.{pairs_form};

use crate::fields::write_field;
use crate::{EntryForm, Form, FromValueError, Held};
use rec_events::{Text, TextMap};
use rec_json::{JsonText, Node, sorted};
use std::alloc::{AllocError, Global};
use std::collections::BTreeMap;

impl<V: EntryForm + Drop> Form for TextMap<V> {
    ghost use Rattle.std.specs.Prelude.{suc};
    ghost use Rattle.rec_forms.specs.MapLaws.{map_back, map_writable};
    ghost use Rattle.rec_forms.specs.MapLaws.{map_well_formed};
    ghost use Rattle.rec_forms.specs.Maps.{map_value, map_form, IsMap};

    ghost well_formed = { IsMap V.well_formed };

    ghost value_of = { map_value V.value_of };

    ghost form_of = { map_form V.form_of };

    ghost levels = { suc V.levels };

    ghost reads_back = { map_back V.well_formed V.value_of V.form_of V.reads_back };

    ghost reads_well_formed = { map_well_formed V.form_of V.reads_well_formed };

    ghost writable = { map_writable V.value_of V.writable };

    ghost shallow = { V.nested };

    fn write(&self, alloc: Global, text: &mut JsonText) -> Result<(), AllocError> {
        text.begin_object()?;
        for (key, item) in self.as_map() {
            write_field(alloc, text, key.as_str(), item)?;
        }
        text.end_map()?;
        Ok(())
    }

    fn from_node(alloc: Global, node: &Node<'_>) -> Result<TextMap<V>, FromValueError> {
        let Some(object) = node.as_object() else {
            return Err(FromValueError::NotAValue);
        };
        let members = sorted(alloc, object)?;
        map_from(alloc, &members)
    }
}

/// Reads the map of these members, which stand in the order of their keys.
fn map_from<'n, 'a, V: Form + Drop>(
    alloc: Global,
    members: &BTreeMap<&'a str, &'n Node<'a>>,
) -> Result<TextMap<V>, FromValueError>
    ensures { Gives result (pairs_form V.form_of [] (sorted_view members.now.entries)) }
{
    let mut map = TextMap::empty(alloc);
    for (key, node) in members {
        let item = V::from_node(alloc, node)?;
        map.insert(Text::from_str(alloc, key)?, item)?;
    }
    Ok(map)
}

impl<V: Held + EntryForm + Drop> Held for TextMap<V> {
    fn held(&self) {
        for (_, item) in self.as_map() {
            item.held();
        }
    }
}
