//! Texts.
ghost use Rattle.serde_json.specs.Data.{string};
ghost use Rattle.rec_forms.specs.Shape.{text_of};

use crate::{EntryForm, Form, FromValueError, Held, ItemForm};
use rec_events::Text;
use rec_json::{JsonText, Node};
use std::alloc::{AllocError, Global};

impl Form for Text {
    ghost use Rattle.std.specs.Prelude.{refl};
    ghost use Rattle.rec_events.specs.Names.{IsText};
    ghost use Rattle.rec_forms.specs.NumberLaws.{text_back, text_well_formed};
    ghost use Rattle.rec_forms.specs.Writable.{string_writable, within_depth};

    ghost well_formed = { IsText };

    ghost value_of = { string };

    ghost form_of = { text_of };

    ghost levels = { 0 };

    ghost reads_back = { text_back };

    ghost reads_well_formed = { text_well_formed };

    ghost writable = { string_writable };

    ghost shallow = { within_depth refl };

    fn write(&self, _alloc: Global, text: &mut JsonText) -> Result<(), AllocError> {
        text.string(self.as_str())
    }

    fn from_node(alloc: Global, node: &Node<'_>) -> Result<Text, FromValueError> {
        match node.as_str() {
            Some(text) => Ok(Text::from_str(alloc, text)?),
            None => Err(FromValueError::NotAValue),
        }
    }
}

impl ItemForm for Text {
    ghost use Rattle.std.specs.Prelude.{refl};
    ghost use Rattle.rec_forms.specs.Writable.{within_depth};

    ghost nested = { within_depth refl };
}

impl EntryForm for Text {
    ghost use Rattle.std.specs.Prelude.{refl};
    ghost use Rattle.rec_forms.specs.Writable.{within_depth};

    ghost nested = { within_depth refl };
}

impl Held for Text {
    fn held(&self) {
        // its text is read from the string, so it is UTF-8
        let _text = self.as_str();
    }
}
