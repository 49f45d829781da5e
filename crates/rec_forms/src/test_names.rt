//! Sets of test names.
use crate::{Form, FromValueError};
use rec_events::{Items, TestCaseName, TestNames};
use rec_json::{JsonText, Node};
use std::alloc::{AllocError, Global};

impl Form for TestNames {
    ghost use Rattle.std.specs.Prelude.{refl};
    ghost use Rattle.rec_forms.specs.NameLaws.{names_back, names_writable, names_well_formed};
    ghost use Rattle.rec_forms.specs.Names.{names_value, names_form, AreNames};
    ghost use Rattle.rec_forms.specs.Writable.{within_depth};

    ghost well_formed = { AreNames };

    ghost value_of = { names_value };

    ghost form_of = { names_form };

    ghost levels = { 1 };

    ghost reads_back = { names_back };

    ghost reads_well_formed = { names_well_formed };

    ghost writable = { names_writable };

    ghost shallow = { within_depth refl };

    fn write(&self, _alloc: Global, text: &mut JsonText) -> Result<(), AllocError> {
        text.begin_array()?;
        for name in self.as_set() {
            text.string(name.as_str())?;
        }
        text.end_list()?;
        Ok(())
    }

    #[tactic(auto, unfolding(crate::specs::Names::names_form))]
    fn from_node(alloc: Global, node: &Node<'_>) -> Result<TestNames, FromValueError> {
        let names: Items<TestCaseName> = Items::from_node(alloc, node)?;
        let mut set = TestNames::empty(alloc);
        for name in names.into_vec() {
            set.insert(name)?;
        }
        Ok(set)
    }
}
